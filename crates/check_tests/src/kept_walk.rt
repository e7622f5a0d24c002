// A walk that its caller keeps beside its frames, as a load does that is spread over several turns.
use grammar::Grammar;
use guide::Guide;
use std::alloc::{AllocError, Global};
use std::ops::ControlFlow;
use tree::verdict::Verdict;
use walk::state::{Frame, Walk};

#[derive(Drop)]
pub struct Kept {
    pub(crate) walk: Walk,
    frames: Vec<Frame>,
}

impl Kept {
    pub(crate) fn new(heap: Global, frames: usize) -> Result<Kept, AllocError> {
        Ok(Kept {
            walk: Walk::new(),
            frames: vec![in heap; Frame::BLANK; frames]?,
        })
    }

    // Takes so many answers, or fewer where the walk is over before. The verdict, once it is.
    pub(crate) fn go_on<B: Grammar, G: Guide>(
        &mut self,
        grammar: &B,
        text: &[u8],
        guide: &mut G,
        answers: usize,
    ) -> Option<Verdict> {
        for _ in 0..answers {
            match self
                .walk
                .take(grammar, text, &mut self.frames, guide.next())
            {
                ControlFlow::Continue(walk) => self.walk = walk,
                ControlFlow::Break(verdict) => return Some(verdict),
            }
        }
        None
    }
}

mod tests {
    use super::Kept;
    use crate::SEVEN_AT_FIVE;
    use grammar::house::House;
    use guide::listing::Listing;
    use guide::{Defect, Event};
    use std::test::Fail;
    use tree::verdict::{Accepted, Reason, Refusal};
    use walk::state::{Frame, Walk};

    #[test]
    fn three_turns(rt: HostRuntime) -> Result<(), Fail> {
        let mut guide = Listing::new(SEVEN_AT_FIVE);
        let mut kept = Kept::new(rt.alloc(), 3)?;
        assert!(rt; kept.go_on(&House, b"7@5", &mut guide, 5).is_none());
        assert!(rt; kept.go_on(&House, b"7@5", &mut guide, 6).is_none());
        let accepted = Accepted {
            rules: 4,
            bytes: 3,
            steps: 12,
        };
        assert!(rt; kept.go_on(&House, b"7@5", &mut guide, 5) == Some(Ok(accepted)));
        Ok(())
    }

    // A refused answer leaves the numbers that were kept. Before a rule is entered no frame counts, so another answer can be tried.
    #[test]
    fn another_answer_after_a_refusal(rt: HostRuntime) -> Result<(), Fail> {
        let mut frames = [Frame::BLANK; 3];
        let walk = Walk::new();
        let refused = Refusal {
            reason: Reason::NoSuchRule,
            events: 0,
            bytes: 0,
        };
        assert!(rt;
            walk.take(&House, b"7@5", &mut frames, Ok(Some(Event::Enter(9))))
                .break_value()
                == Some(Err(refused))
        );
        let fault = Defect::BadLine.at(0);
        let broken = Refusal {
            reason: Reason::GuideFault(fault),
            events: 0,
            bytes: 0,
        };
        assert!(rt;
            walk.take(&House, b"7@5", &mut frames, Err(fault))
                .break_value()
                == Some(Err(broken))
        );
        assert!(rt;
            walk.take(&House, b"7@5", &mut frames, Ok(Some(Event::Enter(0))))
                .is_continue()
        );
        Ok(())
    }
}
