// The pieces of a grammar as text, for people to read: what `Display` writes of each, as strings that a caller can keep.
#![tactic(auto)]

ghost use Rattle.std.specs.Prelude.{◌≡◌, IfOk, string_bytes};
ghost use Rattle.grammar.specs.Text.{part_text, mark_text};
ghost use Rattle.packed.specs.Text.{fault_text};
ghost use Rattle.table_text.specs.Text.{head_text};

use grammar::{Grammar, Mark, Part};
use packed::fault::TableFault;
use std::alloc::{AllocError, Global};

pub fn part_text(heap: Global, part: Part) -> Result<String, AllocError>
    ensures { IfOk result (λ s. string_bytes s ≡ part_text part) }
{
    format!(in heap; "{part}")
}

pub fn mark_text(mark: Mark) -> &'static str
    ensures { result.now ≡ mark_text mark }
{
    mark.word()
}

// The start and the counts.
pub fn head_text<G: Grammar>(heap: Global, grammar: &G) -> Result<String, AllocError>
    ensures { IfOk result (λ s. string_bytes s ≡ head_text (G.Grammar.meaning grammar.now)) }
{
    let symbols = grammar.symbols();
    let start = grammar.start();
    let rules = grammar.rules();
    format!(in heap; "symbols={symbols} start={start} rules={rules}")
}

pub fn fault_text(heap: Global, fault: TableFault) -> Result<String, AllocError>
    ensures { IfOk result (λ s. string_bytes s ≡ fault_text fault) }
{
    format!(in heap; "{fault}")
}
