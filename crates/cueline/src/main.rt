// Checks one cue: standard input has the text up to the first byte 10, and then a listing. It prints one line.
#![tactic(auto)]

use report::{MOST_INPUT, answer};
use std::io;
use std::io::Read;

fn main(rt: HostRuntime) -> io::Result<()> {
    let heap = rt.alloc();
    let mut input = Vec::new(heap);
    rt.stdin()
        .take(MOST_INPUT as u64 + 1)
        .read_to_end(&mut input)?;
    let line = answer(heap, &input)?;
    rt.print(line)
}
