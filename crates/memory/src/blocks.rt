// A memory of 512 blocks. A text lies in as many of them as it needs, wherever they are.
ghost use Rattle.std.specs.Prelude.{◌≡◌, ℕ, ◌≤◌, false, length, Some, None, slice_index_or};
ghost use Rattle.std.proofs.Common.{arith};
ghost use Rattle.std.specs.Option.{option_map, ok_or};
ghost use Rattle.memory.specs.Texts.{blocks_for, longest_text, no_texts, holding, without, needs, free, is_number};
ghost use Rattle.memory.specs.Blocks.{all_blocks, texts_in, Noted, Owns, Rest, Counted};
ghost use Rattle.memory.specs.Numbered.{none_outside};

use crate::number::Number;
use crate::{BLOCK_BYTES, Memory, NumberedMemory, Refusal, blocks_for};

mod layout;

const BLOCKS: usize = 512;

// A length for each number, and one for 0, under which there is no text.
const LENGTHS: usize = 121;

// The blocks, the owner of each that is not unused, the length of the text under each number, and how many blocks are unused.
// Owners stand apart: in one array with the blocks, a new memory takes 3.5 times as long. The unused blocks are counted as they come and
// go: a load asks twice how many there are, and to count them then would take half of a short one.
#[derive(Drop)]
pub struct Blocks {
    blocks: [[u8; BLOCK_BYTES]; BLOCKS],
    owners: [Option<Number>; BLOCKS],
    lengths: [Option<u16>; LENGTHS],
    unused: u16,
    ghost sized: { length lengths ≡ 121 },
    ghost unnumbered: { slice_index_or lengths 0 None ≡ None },
    ghost noted: { Noted blocks owners lengths },
    ghost owns: { Owns blocks owners lengths },
    ghost rest: { Rest blocks owners lengths },
    ghost counted: { Counted unused owners },
}

impl Blocks {
    // A memory without texts.
    pub fn new() -> Blocks
        ensures { ⟦<Blocks as Memory>⟧.texts result ≡ no_texts }
    {
        Blocks {
            blocks: [[0; BLOCK_BYTES]; BLOCKS],
            owners: [None; BLOCKS],
            lengths: [None; LENGTHS],
            unused: BLOCKS as u16,
        }
    }

    // The length of a number's text.
    fn held(&self, number: Number) -> Result<u16, Refusal>
        ensures { result ≡ ok_or (option_map (λ t. length t) (⟦<Blocks as Memory>⟧.texts self.now number)) Refusal.NotHeld }
    {
        self.lengths[number.index()].ok_or(Refusal::NotHeld)
    }

    // Copies a text into a buffer of its length.
    fn copy(&self, number: Number, buffer: &mut [u8])
        requires { option_map (λ t. length t) (⟦<Blocks as Memory>⟧.texts self.now number) ≡ Some (length buffer.old) }
        ensures { ⟦<Blocks as Memory>⟧.texts self.now number ≡ Some buffer.new }
    {
        layout::gather(&self.owners, &self.blocks, number, buffer);
    }

    // Takes away what is under a number.
    fn remove(&mut self, number: Number)
        ensures { ⟦<Blocks as Memory>⟧.texts self.new ≡ without (⟦<Blocks as Memory>⟧.texts self.old) number }
    {
        let length = self.lengths[number.index()].unwrap_or(0);
        self.unused += blocks_for(usize::from(length)) as u16;
        self.lengths[number.index()] = None;
        layout::release(&mut self.owners, number);
    }

    // Puts a text under a number that has none.
    fn insert(&mut self, number: Number, text: &[u8])
        requires unused { ⟦<Blocks as Memory>⟧.texts self.old number ≡ None }
        requires short { length text.now ≤ longest_text }
        requires room { blocks_for (length text.now) ≤ free all_blocks (⟦<Blocks as Memory>⟧.texts self.old) }
        ensures { ⟦<Blocks as Memory>⟧.texts self.new ≡ holding (⟦<Blocks as Memory>⟧.texts self.old) number text.now }
    {
        self.unused -= blocks_for(text.len()) as u16;
        self.lengths[number.index()] = Some(text.len() as u16);
        layout::place(&mut self.owners, &mut self.blocks, number, text);
    }
}

impl Memory for Blocks {
    ghost block_count = { all_blocks };

    ghost texts = { λ s. texts_in s.blocks s.owners s.lengths };

    ghost bounds = { λ s. omega (arith, s.rest) };

    fn length_of(&self, number: u16) -> Option<u16> {
        self.lengths.get(usize::from(number)).copied().flatten()
    }

    fn free_blocks(&self) -> u16 {
        self.unused
    }

    fn store(&mut self, number: u16, text: &[u8]) -> Result<(), Refusal> {
        self.may_store(number, text.len())?;
        let number = Number::try_from(number)?;
        self.insert(number, text);
        Ok(())
    }

    fn strike(&mut self, number: u16) -> Result<(), Refusal> {
        let number = Number::try_from(number)?;
        self.held(number)?;
        self.remove(number);
        Ok(())
    }

    fn copy_out(&self, number: u16, buffer: &mut [u8]) -> Result<usize, Refusal> {
        let number = Number::try_from(number)?;
        let length = usize::from(self.held(number)?);
        if buffer.len() < length {
            return Err(Refusal::BufferTooShort);
        }
        self.copy(number, &mut buffer[..length]);
        Ok(length)
    }
}

impl NumberedMemory for Blocks {
    ghost numbered = { λ s. none_outside s.blocks s.owners s.lengths s.sized s.unnumbered };
}

// Texts are held under numbers for texts only.
pub fn only_numbers_have_texts(memory: &Blocks)
    ensures { (n : ℕ) → is_number n ≡ false → ⟦<Blocks as Memory>⟧.texts memory.now n ≡ None }
{}
