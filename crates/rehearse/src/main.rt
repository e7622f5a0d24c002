// Replays a script of calls on one cue memory. Standard input has the script; each call is answered by a line, and so is a bad line.
#![tactic(auto)]

use memory::blocks::Blocks;
use script::{Order, Trouble, read_order};
use stage::Stage;
use std::alloc::Global;
use std::io;
use std::io::{BufRead, BufReader, ErrorKind};

mod script;
mod stage;

fn main(rt: HostRuntime) -> io::Result<()> {
    let heap = rt.alloc();
    let mut memory = Blocks::new();
    let mut stage = Stage::new(heap);
    let lines = BufReader::new(heap, rt.stdin())?.lines(heap);
    for (number, line) in (1..u64::MAX).zip(lines) {
        let outcome = match line {
            Ok(line) => follow(heap, &mut memory, &mut stage, line.as_str()),
            Err(error) if error.kind() == ErrorKind::InvalidData => Err(Trouble::NotText),
            Err(error) => return Err(error),
        };
        match outcome {
            Ok(Some(answer)) => rt.print(answer)?,
            Ok(None) => {}
            Err(trouble) => println!(rt; "line {number}: {trouble}")?,
        }
    }
    Ok(())
}

// A call gives its answer line; any other order changes what the next calls are handed.
fn follow(
    heap: Global,
    memory: &mut Blocks,
    stage: &mut Stage,
    line: &str,
) -> Result<Option<String>, Trouble> {
    match read_order(line)? {
        Some(Order::Call(request)) => Ok(Some(stage.call(heap, memory, request)?)),
        Some(Order::Set(setting)) => {
            stage.set(heap, setting)?;
            Ok(None)
        }
        None => Ok(None),
    }
}
