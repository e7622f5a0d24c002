// What the two checkers answer, as it is compared and printed.
use second_checker::Move;
use second_checker::answers::Said;
use second_checker::numbers::{Fault, Refusal};
use std::fmt;

#[derive(Clone, Copy, PartialEq, Eq)]
pub struct Answer(pub Result<Said, Refusal>);

// What a guide says next: an event, the end, or a fault.
#[derive(Clone, Copy, PartialEq, Eq)]
pub struct Told(pub Result<Option<Move>, Fault>);

// Whether something that is handed in is refused: by which number, and the rule concerned. In numbers, since two checkers with enums of
// their own have nothing else in common.
#[derive(Clone, Copy, PartialEq, Eq)]
pub struct Refused(pub Option<(u8, usize)>);

impl fmt::Display for Refused {
    fn fmt<W: fmt::Write>(&self, f: &mut fmt::Formatter<W>) -> fmt::Result {
        match self.0 {
            Some((number, rule)) => write!(f, "{number} at rule {rule}"),
            None => write!(f, "taken"),
        }
    }
}

impl fmt::Display for Answer {
    fn fmt<W: fmt::Write>(&self, f: &mut fmt::Formatter<W>) -> fmt::Result {
        match &self.0 {
            Ok(said) => write!(f, "{said}"),
            Err(refusal) => write!(f, "{refusal}"),
        }
    }
}

impl fmt::Display for Told {
    fn fmt<W: fmt::Write>(&self, f: &mut fmt::Formatter<W>) -> fmt::Result {
        match &self.0 {
            Ok(Some(event)) => write!(f, "{event}"),
            Ok(None) => write!(f, "end"),
            Err(Fault { number, place }) => write!(f, "fault {number} at {place}"),
        }
    }
}
