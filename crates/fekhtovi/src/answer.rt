// What is answered to a caller, in numbers.
ghost use Rattle.std.specs.Prelude.{◌≡◌};
ghost use Rattle.fekhtovi.specs.Answer.{of_refused, of_accepted, of_answer};

use crate::refused::Refused;
use cues::answers::{Answer, Refusal};
use tree::verdict;
use tree::verdict::{Accepted, Reason};

// Each field has one meaning, and is 0 where the answer does not have it. A struct of numbers, since the C interface has no enums.
#[repr(C)]
#[derive(Clone, Copy)]
pub struct FekhtoviAnswer {
    // The number of the refusal, 0 for none.
    pub refusal: u32,
    // The rule nodes of an accepted tree, and the answers that were taken from its guide.
    pub rules: u32,
    pub steps: u32,
    // The events that a check accepted before it refused.
    pub events: u32,
    // Under refusal 5, the number of the guide's own fault.
    pub fault: u32,
    // Under 53 to 55, the rule of the packed table.
    pub rule: u32,
    // The cue number that was cleared.
    pub cleared: u32,
    // The free blocks, where they were asked for.
    pub free: u32,
    // The text bytes that were accepted, used before a refusal, or fetched.
    pub bytes: usize,
    // Under refusal 5, the offset of the fault in the guide's bytes.
    pub place: usize,
}

impl FekhtoviAnswer {
    const ZEROS: FekhtoviAnswer = FekhtoviAnswer {
        refusal: 0,
        rules: 0,
        steps: 0,
        events: 0,
        fault: 0,
        rule: 0,
        cleared: 0,
        free: 0,
        bytes: 0,
        place: 0,
    };
}

impl From<Refused> for FekhtoviAnswer {
    ghost from_gives = { λ refused answer. answer ≡ of_refused refused };

    fn from(refused: Refused) -> FekhtoviAnswer {
        let numbered = FekhtoviAnswer {
            refusal: u32::from(refused.number()),
            ..FekhtoviAnswer::ZEROS
        };
        match refused {
            Refused::Form(_) | Refused::Bar(_) => numbered,
            Refused::Table(fault) => FekhtoviAnswer {
                rule: u32::from(fault.rule()),
                ..numbered
            },
            Refused::Call(refusal) => {
                let counted = FekhtoviAnswer {
                    events: refusal.events(),
                    bytes: refusal.bytes(),
                    ..numbered
                };
                match refusal {
                    Refusal::Check(
                        verdict::Refusal {
                            reason: Reason::GuideFault(fault),
                            ..
                        },
                    ) => FekhtoviAnswer {
                        fault: u32::from(fault.defect.number()),
                        place: fault.place,
                        ..counted
                    },
                    _ => counted,
                }
            }
        }
    }
}

// What a check accepts.
impl From<Accepted> for FekhtoviAnswer {
    ghost from_gives = { λ accepted answer. answer ≡ of_accepted accepted };

    fn from(accepted: Accepted) -> FekhtoviAnswer {
        FekhtoviAnswer {
            rules: accepted.rules,
            steps: accepted.steps,
            bytes: accepted.bytes,
            ..FekhtoviAnswer::ZEROS
        }
    }
}

// What a call on the memory answers.
impl From<Answer> for FekhtoviAnswer {
    ghost from_gives = { λ said answer. answer ≡ of_answer said };

    fn from(said: Answer) -> FekhtoviAnswer {
        match said {
            Answer::Loaded(accepted) => FekhtoviAnswer::from(accepted),
            Answer::Cleared(number) => FekhtoviAnswer {
                cleared: u32::from(number),
                ..FekhtoviAnswer::ZEROS
            },
            Answer::Fetched(bytes) => FekhtoviAnswer {
                bytes,
                ..FekhtoviAnswer::ZEROS
            },
            Answer::Free(blocks) => FekhtoviAnswer {
                free: u32::from(blocks),
                ..FekhtoviAnswer::ZEROS
            },
        }
    }
}
