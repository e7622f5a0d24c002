// Load, clear, fetch and free.
ghost use Rattle.std.specs.Prelude.{◌≡◌, length, Ok};
ghost use Rattle.memory.specs.Texts.{free as free_in, is_number, ask};
ghost use Rattle.memory.specs.declared.Refusal.TheVariants.{NumberOutside};
ghost use Rattle.cues.specs.Calls.{loading};
ghost use Rattle.cues.specs.Sheet.{Loads, Clears, Fetches};

use crate::answers::Refusal;
use grammar::Grammar;
use guide::Guide;
use memory::{Memory, is_number};
use tree::verdict::Accepted;
use walk::check;
use walk::state::Frame;

// Holds the text under the number if the guide tells the walk of a parse tree of the grammar that spells it. What the frames hold
// afterwards is left open.
// What it reads comes one by one, as `check` takes it: a struct of the four would only be taken apart again.
pub fn load<M: Memory, B: Grammar, G: Guide>(
    memory: &mut M,
    number: u16,
    text: &[u8],
    grammar: &B,
    guide: &mut G,
    frames: &mut [Frame],
) -> Result<Accepted, Refusal>
    ensures { Loads M.Memory.block_count (M.Memory.texts memory.old) (loading number text.now (B.Grammar.meaning grammar.now) (G.Guide.told guide.old) (length frames.old)) result (M.Memory.texts memory.new) (G.Guide.told guide.new) }
{
    memory.may_store(number, text.len())?;
    let accepted = check(grammar, guide, text, frames)?;
    memory.store(number, text)?;
    Ok(accepted)
}

// The first question of a clear and of a fetch: a memory may hold texts under other numbers too.
fn ask_number(number: u16) -> Result<(), memory::Refusal>
    ensures { result ≡ ask (is_number number) NumberOutside (Ok tt) }
{
    if !is_number(number) {
        return Err(memory::Refusal::NumberOutside);
    }
    Ok(())
}

// Strikes out the text under the number, and answers the number.
pub fn clear<M: Memory>(memory: &mut M, number: u16) -> Result<u16, Refusal>
    ensures { Clears M.Memory.block_count (M.Memory.texts memory.old) number result (M.Memory.texts memory.new) }
{
    ask_number(number)?;
    memory.strike(number)?;
    Ok(number)
}

// Copies the text under the number to the buffer's front, and answers its length.
pub fn fetch<M: Memory>(memory: &M, number: u16, buffer: &mut [u8]) -> Result<usize, Refusal>
    ensures { Fetches (M.Memory.texts memory.now) number buffer.old result buffer.new }
{
    ask_number(number)?;
    Ok(memory.copy_out(number, buffer)?)
}

// The blocks that no text needs.
pub fn free<M: Memory>(memory: &M) -> u16
    ensures { result ≡ free_in M.Memory.block_count (M.Memory.texts memory.now) }
{
    memory.free_blocks()
}
