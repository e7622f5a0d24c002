// Compares the product with a second checker on random grammars, trees, texts and guides, over whole runs of calls.
#![tactic(auto)]

use std::io;
use tally::Tally;

mod answers;
mod calls;
mod damage;
mod grammars;
mod lines;
mod moves;
mod product;
mod random;
mod runs;
mod scenes;
mod tally;
mod trees;

const RUNS: u64 = 400;

fn main(rt: HostRuntime) -> io::Result<()> {
    let heap = rt.alloc();
    let mut tally = Tally::new(heap)?;
    for seed in 0..RUNS {
        runs::run(heap, seed, &mut tally)?;
    }
    tally.print(&rt)
}
