// Refusals and faults in numbers, as a line has them. Only the numbers are common to two checkers with enums of their own, so these
// are what is compared.
use crate::answers::{Flaw, Reason};
use crate::{answers, reading};
use std::fmt;

#[derive(Clone, Copy, PartialEq, Eq)]
pub struct Fault {
    pub number: u8,
    pub place: usize,
}

#[derive(Clone, Copy, PartialEq, Eq)]
pub struct Refusal {
    pub number: u8,
    pub events: usize,
    pub bytes: usize,
    pub fault: Option<Fault>,
}

impl From<reading::Fault> for Fault {
    fn from(fault: reading::Fault) -> Fault {
        Fault {
            number: fault.wrong.number(),
            place: fault.place,
        }
    }
}

impl From<answers::Refusal> for Refusal {
    fn from(refusal: answers::Refusal) -> Refusal {
        let fault = match refusal.reason {
            Reason::Flaw(Flaw::GuideFault(fault)) => Some(Fault::from(fault)),
            _ => None,
        };
        Refusal {
            number: refusal.reason.number(),
            events: refusal.events,
            bytes: refusal.bytes,
            fault,
        }
    }
}

impl fmt::Display for Refusal {
    fn fmt<W: fmt::Write>(&self, f: &mut fmt::Formatter<W>) -> fmt::Result {
        let Refusal {
            number,
            events,
            bytes,
            fault,
        } = self;
        write!(f, "no {number} event={events} at={bytes}")?;
        match fault {
            Some(Fault { number, place }) => write!(f, " guide={number} place={place}"),
            None => Ok(()),
        }
    }
}
