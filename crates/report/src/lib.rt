// What the program `cueline` answers: from its input to the bytes of its line.
#![tactic(auto)]

ghost use Rattle.std.specs.Prelude.{◌≡◌, IfOk, string_bytes};
ghost use Rattle.report.specs.Cueline.{outcome, cueline};

use cues::calls::free;
use cues::requests::{Lent, Request, perform};
use grammar::house::House;
use guide::listing::Listing;
use input::split_input;
use line::{Answered, InputTooLong, Outcome, line};
use memory::blocks::Blocks;
use std::alloc::{AllocError, Global};
use walk::state::Frame;

pub mod input;
pub mod line;
pub mod spot;

// The longest input that is read, and the frames that its check is lent.
pub const MOST_INPUT: usize = 60_000;

const FRAMES: usize = 1_024;

// Loads the text in the input as cue 1 into an empty memory, by the listing behind it.
pub fn load_input(input: &[u8]) -> Outcome
    ensures { result ≡ outcome input.now }
{
    if input.len() > MOST_INPUT {
        return Err(InputTooLong);
    }
    let (text, listing) = split_input(input);
    let mut memory = Blocks::new();
    let mut lent = Lent {
        text,
        grammar: &House,
        guide: &mut Listing::new(listing),
        frames: &mut [Frame::BLANK; FRAMES],
        buffer: &mut [],
    };
    let answer = perform(&mut memory, Request::Load(1), &mut lent);
    Ok(Answered {
        answer,
        free: free(&memory),
    })
}

// The line for an input, or an error where memory runs out.
pub fn answer(heap: Global, input: &[u8]) -> Result<String, AllocError>
    ensures { IfOk result (λ s. string_bytes s ≡ cueline input.now) }
{
    line(heap, load_input(input))
}
