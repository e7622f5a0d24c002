// Memories for texts: what each must answer, how many blocks a text needs, and the memory of 512 blocks.
#![tactic(auto)]

ghost use Rattle.std.specs.Prelude.{◌≡◌, ℕ, ◌+◌, ◌≤◌, false, length, is_ok, None, if◌then◌else◌};
ghost use Rattle.std.specs.Option.{option_map};
ghost use Rattle.memory.specs.Texts.{Texts, blocks_for, holding, without, needs, free, is_number, refusal_number, may_store, may_strike, may_copy, copied};
ghost use Rattle.memory.specs.Laws.{NeedsOf0_64And65Bytes, EmptyTextIsNotNone, EmptyMemoryIsAllFree, StoredTextTakesItsBlocks, StruckTextGivesItsBlocksBack, SameTextsSameRoom, DoneWherePossible, NumberAskedFirst};

pub mod blocks;
mod number;

// Texts are held under the numbers from 1 to this.
pub const LAST_NUMBER: u16 = 120;

// The most bytes of a text.
pub const LONGEST_TEXT: usize = 4_096;

// The bytes of a block.
const BLOCK_BYTES: usize = 64;

// Whether texts can be held under a number.
pub fn is_number(number: u16) -> bool
    ensures { result ≡ is_number number }
{
    (1..=LAST_NUMBER).contains(&number)
}

// How many blocks a text of so many bytes needs.
pub fn blocks_for(bytes: usize) -> usize
    ensures { result ≡ blocks_for bytes }
{
    bytes.div_ceil(BLOCK_BYTES)
}

// The question that was the first to be answered no.
#[derive(Clone, Copy, Debug, PartialEq, Eq)]
pub enum Refusal {
    NumberOutside,
    AlreadyHeld,
    TextTooLong,
    NoRoom,
    NotHeld,
    BufferTooShort,
}

impl Refusal {
    // The number under which it is reported.
    pub fn number(self) -> u8
        ensures { result ≡ refusal_number self }
    {
        match self {
            Refusal::NumberOutside => 1,
            Refusal::AlreadyHeld => 2,
            Refusal::TextTooLong => 3,
            Refusal::NoRoom => 4,
            Refusal::NotHeld => 14,
            Refusal::BufferTooShort => 15,
        }
    }
}

// A memory by the text that it holds under each number. Which blocks a text lies in is told nowhere. No call asks anything of its
// caller: what cannot be done is refused, and changes nothing.
pub trait Memory {
    // How many blocks it has.
    ghost block_count: { ℕ };

    // The text under each number, or none.
    ghost texts: { Self → Texts };

    // It never holds more than its blocks have room for.
    ghost bounds: { (x : Self) → needs (texts x) ≤ block_count };

    // The length of the text under a number.
    fn length_of(&self, number: u16) -> Option<u16>
        ensures { result ≡ option_map (λ t. length t) (texts self.now number) };

    // The blocks that the texts leave.
    fn free_blocks(&self) -> u16
        ensures { result ≡ free block_count (texts self.now) };

    // Whether a text of so many bytes can be held under a number from now on.
    fn may_store(&self, number: u16, bytes: usize) -> Result<(), Refusal>
        ensures { result ≡ may_store block_count (texts self.now) number bytes }
    {
        if !is_number(number) {
            return Err(Refusal::NumberOutside);
        }
        if self.length_of(number).is_some() {
            return Err(Refusal::AlreadyHeld);
        }
        if bytes > LONGEST_TEXT {
            return Err(Refusal::TextTooLong);
        }
        if blocks_for(bytes) > self.free_blocks() as usize {
            return Err(Refusal::NoRoom);
        }
        Ok(())
    }

    // Holds a text under a number from now on.
    fn store(&mut self, number: u16, text: &[u8]) -> Result<(), Refusal>
        ensures answer { result ≡ may_store block_count (texts self.old) number (length text.now) }
        ensures held { texts self.new ≡ (if is_ok result then holding (texts self.old) number text.now else texts self.old) };

    // Strikes out the text under a number.
    fn strike(&mut self, number: u16) -> Result<(), Refusal>
        ensures answer { result ≡ may_strike (texts self.old) number }
        ensures held { texts self.new ≡ (if is_ok result then without (texts self.old) number else texts self.old) };

    // Copies the text under a number to the buffer's front, and answers its length.
    fn copy_out(&self, number: u16, buffer: &mut [u8]) -> Result<usize, Refusal>
        ensures answer { result ≡ may_copy (texts self.now) number (length buffer.old) }
        ensures copy { buffer.new ≡ copied (texts self.now number) buffer.old };
}

// A memory that shows besides that it holds texts under numbers for texts only. No call needs that, so `Memory` asks it of nobody.
pub trait NumberedMemory: Memory {
    ghost numbered: { (x : Self) (n : ℕ) → is_number n ≡ false → Self.texts x n ≡ None };
}

// What the texts need and what is free are together every block.
pub fn needs_and_free_are_all<M: Memory>(memory: &M)
    ensures { needs (M.Memory.texts memory.now) + free M.Memory.block_count (M.Memory.texts memory.now) ≡ M.Memory.block_count }
{}

// No call is refused without need.
pub fn calls_are_done_where_possible<M: Memory>(memory: &M)
    ensures { DoneWherePossible M.Memory.block_count (M.Memory.texts memory.now) }
{}

// Where only numbers have texts, a strike and a copy answer as if they asked for the number first.
pub fn number_is_asked_first<M: NumberedMemory>(memory: &M)
    ensures { NumberAskedFirst (M.Memory.texts memory.now) }
{}

// No bytes need no block, a block's bytes need one, and a byte more needs two.
pub fn needs_of_0_64_and_65_bytes()
    ensures { NeedsOf0_64And65Bytes }
{}

// A number with an empty text is not a number without a text.
pub fn empty_text_is_not_none()
    ensures { EmptyTextIsNotNone }
{}

// Where no text is held, every block is free.
pub fn empty_memory_is_all_free()
    ensures { EmptyMemoryIsAllFree }
{}

// A text that is stored takes as many free blocks as it needs.
pub fn stored_text_takes_its_blocks()
    ensures { StoredTextTakesItsBlocks }
{}

// A text that is struck out leaves as many blocks free as it needed.
pub fn struck_text_gives_its_blocks_back()
    ensures { StruckTextGivesItsBlocksBack }
{}

// Only the texts count, and not how they came or where they lie.
pub fn same_texts_same_room()
    ensures { SameTextsSameRoom }
{}
