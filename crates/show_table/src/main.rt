// Prints the rules of the packed table on standard input, or why it is refused. It reads no byte past the length of the largest table.
#![tactic(auto)]

use grammar::Grammar;
use packed::Packed;
use std::alloc::Global;
use std::io;
use std::io::Read;
use table_text::{fault_text, head_text, mark_text, part_text};

// The bytes of a table of 1,000 rules.
const LONGEST: u64 = 64008;

fn main(rt: HostRuntime) -> io::Result<()> {
    let heap = rt.alloc();
    let mut table = Vec::new(heap);
    rt.stdin().take(LONGEST).read_to_end(&mut table)?;
    let grammar = match Packed::try_from(table.as_slice()) {
        Ok(grammar) => grammar,
        Err(fault) => return rt.println(fault_text(heap, fault)?),
    };
    rt.println(head_text(heap, &grammar)?)?;
    for rule in 0..grammar.rules() {
        show_rule(&rt, heap, &grammar, rule)?;
    }
    Ok(())
}

// One line for each rule number, by which a grammar answers: the number and mark, the left symbol, and then the parts.
// The pieces are texts that are whole before they are printed: of a `Display` that fails, nothing is proved of what it wrote before.
fn show_rule(rt: &HostRuntime, heap: Global, grammar: &Packed, rule: u16) -> io::Result<()> {
    let (Some(left), Some(mark), Some(count)) = (
        grammar.left(rule),
        grammar.mark(rule),
        grammar.parts(rule),
    ) else {
        return println!(rt; "{rule} gap");
    };
    let mark = mark_text(mark);
    print!(rt; "{rule} {mark} symbol {left}:")?;
    for part in (0..count).filter_map(|k| grammar.part(rule, k)) {
        let text = part_text(heap, part)?;
        print!(rt; " [{text}]")?;
    }
    println!(rt)
}
