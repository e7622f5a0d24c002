// Runs of the memory of 512 blocks: full, with gaps and at its limits.
#![tactic(auto)]

#[cfg(test)]
mod numbered;

#[cfg(test)]
mod tests {
    use memory::blocks::Blocks;
    use memory::{Memory, Refusal};
    use std::alloc::{AllocError, Global};
    use std::process::Abort;
    use std::test::Fail;

    // The bytes of a text of some length, other bytes for each number.
    fn text_for(heap: Global, number: u16, length: usize) -> Result<Vec<u8>, AllocError> {
        let first = usize::from(number);
        (first..first.saturating_add(length))
            .map(|next| (next % 251) as u8)
            .collect(heap)
    }

    fn store(
        heap: Global,
        memory: &mut Blocks,
        number: u16,
        length: usize,
    ) -> Result<Result<(), Refusal>, AllocError> {
        let text = text_for(heap, number, length)?;
        Ok(memory.store(number, &text))
    }

    // Checks that the text of that length is copied out under the number, byte for byte, and nothing behind it.
    fn expect_text(
        rt: &impl Abort,
        heap: Global,
        memory: &Blocks,
        number: u16,
        length: usize,
    ) -> Result<(), Fail> {
        let mut expected = text_for(heap, number, length)?;
        expected.extend_from_slice(b"behind")?;
        let mut buffer = vec![in heap; 0u8; length]?;
        buffer.extend_from_slice(b"behind")?;
        assert_eq!(rt; memory.copy_out(number, &mut buffer), Ok(length));
        assert_eq!(rt; buffer.as_slice(), expected.as_slice());
        Ok(())
    }

    // A text finds room in gaps of five blocks that lie apart.
    #[test]
    fn long_text_in_gaps(rt: HostRuntime) -> Result<(), Fail> {
        let heap = rt.alloc();
        let mut memory = Blocks::new();
        assert_eq!(rt; memory.free_blocks(), 512);
        for number in 1..101 {
            assert_eq!(rt; store(heap, &mut memory, number, 320)?, Ok(()));
        }
        assert_eq!(rt; store(heap, &mut memory, 101, 768)?, Ok(()));
        assert_eq!(rt; memory.free_blocks(), 0);
        assert_eq!(rt; store(heap, &mut memory, 102, 1)?, Err(Refusal::NoRoom));
        for pair in 1..51u16 {
            assert_eq!(rt; memory.strike(2 * pair), Ok(()));
        }
        assert_eq!(rt; memory.free_blocks(), 250);
        assert_eq!(rt; store(heap, &mut memory, 102, 4_096)?, Ok(()));
        assert_eq!(rt; memory.free_blocks(), 186);
        expect_text(&rt, heap, &memory, 102, 4_096)?;
        expect_text(&rt, heap, &memory, 101, 768)?;
        for pair in 1..51u16 {
            expect_text(&rt, heap, &memory, 2 * pair - 1, 320)?;
            assert!(rt; memory.length_of(2 * pair).is_none());
        }
        Ok(())
    }

    #[test]
    fn empty_text_is_not_none(rt: HostRuntime) -> Result<(), Fail> {
        let heap = rt.alloc();
        let mut memory = Blocks::new();
        assert!(rt; memory.length_of(7).is_none());
        assert_eq!(rt; memory.copy_out(7, &mut []), Err(Refusal::NotHeld));
        assert_eq!(rt; memory.store(7, &[]), Ok(()));
        assert_eq!(rt; memory.length_of(7), Some(0));
        assert_eq!(rt; memory.free_blocks(), 512);
        expect_text(&rt, heap, &memory, 7, 0)?;
        assert_eq!(rt; memory.store(7, &[]), Err(Refusal::AlreadyHeld));
        assert_eq!(rt; memory.strike(7), Ok(()));
        assert!(rt; memory.length_of(7).is_none());
        Ok(())
    }

    // An empty text is held even where no block is free.
    #[test]
    fn empty_text_in_a_full_memory(rt: HostRuntime) -> Result<(), Fail> {
        let heap = rt.alloc();
        let mut memory = Blocks::new();
        for number in 1..9 {
            assert_eq!(rt; store(heap, &mut memory, number, 4_096)?, Ok(()));
        }
        assert_eq!(rt; memory.free_blocks(), 0);
        assert_eq!(rt; memory.store(9, b"a"), Err(Refusal::NoRoom));
        assert_eq!(rt; memory.store(9, &[]), Ok(()));
        assert_eq!(rt; memory.length_of(9), Some(0));
        Ok(())
    }

    // Stores one text after another: a number, a length, the answer, and the blocks then free.
    #[test]
    fn numbers_and_lengths(rt: HostRuntime) -> Result<(), Fail> {
        let heap = rt.alloc();
        let mut memory = Blocks::new();
        let rows: [(u16, usize, Result<(), Refusal>, u16); 8] = [
            (0, 1, Err(Refusal::NumberOutside), 512),
            (121, 1, Err(Refusal::NumberOutside), 512),
            (257, 1, Err(Refusal::NumberOutside), 512),
            (1, 4_097, Err(Refusal::TextTooLong), 512),
            (1, 4_096, Ok(()), 448),
            (120, 64, Ok(()), 447),
            (119, 65, Ok(()), 445),
            (119, 1, Err(Refusal::AlreadyHeld), 445),
        ];
        for &(number, length, answer, free) in rows.iter() {
            assert_eq!(rt; store(heap, &mut memory, number, length)?, answer);
            assert_eq!(rt; memory.free_blocks(), free);
        }
        assert_eq!(rt; memory.length_of(119), Some(65));
        Ok(())
    }

    #[test]
    fn no_text_to_strike(rt: HostRuntime) {
        let mut memory = Blocks::new();
        for number in 0..123 {
            let refusal = if number == 0 || number > 120 {
                Refusal::NumberOutside
            } else {
                Refusal::NotHeld
            };
            assert_eq!(rt; memory.strike(number), Err(refusal));
        }
        assert_eq!(rt; memory.free_blocks(), 512);
    }

    #[test]
    fn used_number_keeps_its_text(rt: HostRuntime) -> Result<(), Fail> {
        let heap = rt.alloc();
        let mut memory = Blocks::new();
        assert_eq!(rt; store(heap, &mut memory, 5, 100)?, Ok(()));
        assert_eq!(rt; memory.store(5, b"other"), Err(Refusal::AlreadyHeld));
        expect_text(&rt, heap, &memory, 5, 100)?;
        assert_eq!(rt; memory.free_blocks(), 510);
        Ok(())
    }

    #[test]
    fn short_buffer_is_untouched(rt: HostRuntime) -> Result<(), Fail> {
        let heap = rt.alloc();
        let mut memory = Blocks::new();
        assert_eq!(rt; store(heap, &mut memory, 5, 65)?, Ok(()));
        let mut buffer = vec![in heap; b'-'; 64]?;
        assert_eq!(rt;
            memory.copy_out(5, &mut buffer),
            Err(Refusal::BufferTooShort)
        );
        assert_eq!(rt; memory.copy_out(6, &mut buffer), Err(Refusal::NotHeld));
        assert_eq!(rt; buffer.as_slice(), vec![in heap; b'-'; 64]?.as_slice());
        let mut buffer = vec![in heap; b'-'; 65]?;
        assert_eq!(rt; memory.copy_out(5, &mut buffer), Ok(65));
        assert_eq!(rt; buffer.as_slice(), text_for(heap, 5, 65)?.as_slice());
        Ok(())
    }
}
