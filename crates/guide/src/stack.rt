// One stack for every kind of entry. It lies in a slice that its owner keeps: the first `len` slots are held, the newest last.
ghost use Rattle.std.specs.Prelude.{◌≡◌};
ghost use Rattle.std.specs.Option.{option_map};
ghost use Rattle.guide.specs.Stack.{held, newest, Pushed, Popped};

// Every slot is held.
#[derive(Clone, Copy, PartialEq, Eq)]
pub struct Full;

// Puts an entry on top; nothing changes where every slot is held.
pub fn push<T: Copy>(slots: &mut [T], len: &mut usize, entry: T) -> Result<(), Full>
    ensures { Pushed slots.old len.old entry result slots.new len.new }
{
    if *len >= slots.len() {
        return Err(Full);
    }
    slots[*len] = entry;
    *len += 1;
    Ok(())
}

// The newest entry.
pub fn top<T>(slots: &[T], len: usize) -> Option<&T>
    ensures { option_map (λ x. x.now) result ≡ newest (held slots.now len) }
{
    slots[..len.min(slots.len())].last()
}

// Takes the newest entry off.
pub fn pop<T: Copy>(slots: &[T], len: &mut usize) -> Option<T>
    ensures { Popped slots.now len.old result len.new }
{
    let newest = *top(slots, *len)?;
    *len = (*len).min(slots.len()) - 1;
    Some(newest)
}
