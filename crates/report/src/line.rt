// The line that is printed for an answer.
ghost use Rattle.std.specs.Prelude.{◌≡◌, Some, IfOk, string_bytes};
ghost use Rattle.report.specs.Line.{no_text, refusal_text, answer_text, too_long_number, too_long_text, answer_line, line_of};

use cues::answers::{Answer, Refusal};
use std::alloc::{AllocError, Global};
use std::fmt;
use tree::verdict;

// An answer, and the blocks that are free after it.
#[derive(Clone, Copy)]
pub struct Answered {
    pub answer: Result<Answer, Refusal>,
    pub free: u16,
}

// An input that is too long for any call.
#[derive(Clone, Copy)]
pub struct InputTooLong;

// What became of an input.
pub type Outcome = Result<Answered, InputTooLong>;

impl InputTooLong {
    // The number that the refusal is reported with.
    pub fn number(self) -> u8
        ensures { result ≡ too_long_number }
    {
        16
    }
}

// The number of a refusal, and its counts.
#[derive(Clone, Copy)]
struct Counted {
    number: u8,
    events: u32,
    bytes: usize,
}

impl fmt::Display for Counted {
    ghost output = { λ c. Some (no_text c.number c.events c.bytes) };

    fn fmt<W: fmt::Write>(&self, f: &mut fmt::Formatter<W>) -> fmt::Result {
        write!(
            f,
            "no {} event={} at={}",
            self.number, self.events, self.bytes
        )
    }
}

impl fmt::Display for InputTooLong {
    ghost output = { λ _. Some too_long_text };

    fn fmt<W: fmt::Write>(&self, f: &mut fmt::Formatter<W>) -> fmt::Result {
        let counted = Counted {
            number: self.number(),
            events: 0,
            bytes: 0,
        };
        write!(f, "{counted}")
    }
}

// A refusal as a line shows it.
#[derive(Clone, Copy)]
pub struct Shown(pub Refusal);

impl fmt::Display for Shown {
    ghost output = { λ s. Some (refusal_text s.0) };

    fn fmt<W: fmt::Write>(&self, f: &mut fmt::Formatter<W>) -> fmt::Result {
        let refusal = self.0;
        let counted = Counted {
            number: refusal.number(),
            events: refusal.events(),
            bytes: refusal.bytes(),
        };
        write!(f, "{counted}")?;
        match refusal {
            Refusal::Check(
                verdict::Refusal {
                    reason: verdict::Reason::GuideFault(fault),
                    ..
                },
            ) => write!(f, " guide={} place={}", fault.defect.number(), fault.place),
            _ => Ok(()),
        }
    }
}

impl fmt::Display for Answered {
    ghost output = { λ a. Some (answer_text a.answer a.free) };

    fn fmt<W: fmt::Write>(&self, f: &mut fmt::Formatter<W>) -> fmt::Result {
        let free = self.free;
        match self.answer {
            Ok(Answer::Loaded(accepted)) => write!(
                f,
                "ok rules={} bytes={} steps={} free={free}",
                accepted.rules, accepted.bytes, accepted.steps
            ),
            Ok(Answer::Cleared(number)) => write!(f, "ok cleared={number} free={free}"),
            Ok(Answer::Fetched(length)) => write!(f, "ok fetched={length} free={free}"),
            Ok(Answer::Free(blocks)) => write!(f, "ok free={blocks}"),
            Err(refusal) => write!(f, "{}", Shown(refusal)),
        }
    }
}

// The line for an answer after which so many blocks are free, or an error where memory runs out.
pub fn answer_line(heap: Global, answered: Answered) -> Result<String, AllocError>
    ensures { IfOk result (λ s. string_bytes s ≡ answer_line answered.answer answered.free) }
{
    format!(in heap; "{answered}\n")
}

// One line, ended by byte 10, or an error where memory runs out.
pub fn line(heap: Global, outcome: Outcome) -> Result<String, AllocError>
    ensures { IfOk result (λ s. string_bytes s ≡ line_of outcome) }
{
    match outcome {
        Ok(answered) => answer_line(heap, answered),
        Err(too_long) => format!(in heap; "{too_long}\n"),
    }
}
