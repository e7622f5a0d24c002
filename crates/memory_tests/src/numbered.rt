// What a caller can rely on that takes any memory in which only numbers have texts: the number, then the text, then the room.
ghost use Rattle.std.specs.Prelude.{◌≡◌, false, is_some, length, None, Ok};
ghost use Rattle.memory.specs.Texts.{is_number, ask, may_copy_text};
ghost use Rattle.memory.specs.declared.Refusal.TheVariants.{NumberOutside, NotHeld};

use memory::{NumberedMemory, Refusal, number_is_asked_first};

fn strike_in_order<M: NumberedMemory>(memory: &mut M, number: u16) -> Result<(), Refusal>
    ensures { result ≡ ask (is_number number) NumberOutside (ask (is_some (M.Memory.texts memory.old number)) NotHeld (Ok tt)) }
{
    number_is_asked_first(memory);
    memory.strike(number)
}

fn copy_in_order<M: NumberedMemory>(
    memory: &M,
    number: u16,
    buffer: &mut [u8],
) -> Result<usize, Refusal>
    ensures { result ≡ ask (is_number number) NumberOutside (ask (is_some (M.Memory.texts memory.now number)) NotHeld (may_copy_text number (M.Memory.texts memory.now number) (length buffer.old))) }
{
    number_is_asked_first(memory);
    memory.copy_out(number, buffer)
}

mod tests {
    use super::{copy_in_order, strike_in_order};
    use memory::blocks::Blocks;
    use memory::{Memory, Refusal};

    #[test]
    fn number_then_text_then_room(rt: HostRuntime) {
        let mut memory = Blocks::new();
        assert_eq!(rt; memory.store(120, b"ab"), Ok(()));
        let rows: [(u16, Result<usize, Refusal>); 4] = [
            (0, Err(Refusal::NumberOutside)),
            (121, Err(Refusal::NumberOutside)),
            (119, Err(Refusal::NotHeld)),
            (120, Err(Refusal::BufferTooShort)),
        ];
        for &(number, answer) in rows.iter() {
            assert_eq!(rt; copy_in_order(&memory, number, &mut [0]), answer);
        }
        assert_eq!(rt;
            strike_in_order(&mut memory, 0),
            Err(Refusal::NumberOutside)
        );
        assert_eq!(rt;
            strike_in_order(&mut memory, 121),
            Err(Refusal::NumberOutside)
        );
        assert_eq!(rt; strike_in_order(&mut memory, 119), Err(Refusal::NotHeld));
        assert_eq!(rt; strike_in_order(&mut memory, 120), Ok(()));
    }
}
