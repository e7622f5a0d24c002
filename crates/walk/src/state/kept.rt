// A walk that its caller keeps between two answers, apart from what it is lent.
ghost use Rattle.std.specs.Prelude.{◌≡◌, ℕ, List};
ghost use Rattle.grammar.specs.Meaning.{Meaning};
ghost use Rattle.tree.specs.Check.{begin};
ghost use Rattle.tree.specs.Verdict.{refusal};
ghost use Rattle.walk.specs.Rows.{stands_at, StepsTo};

use super::{Frame, LentWalk, Walk};
use grammar::Grammar;
use guide::{Event, Fault};
use std::ops::ControlFlow;
use tree::verdict::{Reason, Refusal, Verdict};

impl Walk {
    // A walk that has taken no answer yet.
    pub fn new() -> Walk
        ensures { (g : Meaning) (frames : List Frame) (text : List ℕ) → stands_at g frames text result ≡ begin g text }
    {
        Walk {
            depth: 0,
            rules: 0,
            used: 0,
            events: 0,
        }
    }

    // The refusal for a reason, with the counts so far.
    pub fn refusal(&self, reason: Reason) -> Refusal
        ensures { result ≡ refusal reason self.now.events self.now.used }
    {
        Refusal {
            reason,
            events: self.events,
            bytes: self.used,
        }
    }

    // This walk with what it goes on by. Every frame that is lent may be used.
    pub fn lent<'a, B: Grammar>(
        self,
        grammar: &'a B,
        text: &'a [u8],
        frames: &'a mut [Frame],
    ) -> LentWalk<'a, B>
        ensures counts { result.counts ≡ self }
        ensures grammar { result.grammar.now ≡ grammar.now }
        ensures text { result.text.now ≡ text.now }
        ensures memory { result.frames.ghost_name ≡ frames.entry.ghost_name }
        ensures frames { result.frames.now ≡ frames.old }
    {
        LentWalk {
            grammar,
            text,
            frames,
            counts: self,
        }
    }

    // Takes one answer of the guide: the walk goes on, or it is over with its verdict. Every frame that is lent may be used.
    pub fn take<B: Grammar>(
        self,
        grammar: &B,
        text: &[u8],
        frames: &mut [Frame],
        answer: Result<Option<Event>, Fault>,
    ) -> ControlFlow<Verdict, Walk>
        ensures { StepsTo (B.Grammar.meaning grammar.now) text.now frames.old self answer result frames.new }
    {
        let mut walk = self.lent(grammar, text, frames);
        match answer {
            Ok(Some(event)) => match walk.take(event) {
                Ok(()) => ControlFlow::Continue(walk.counts),
                Err(refusal) => ControlFlow::Break(Err(refusal)),
            },
            Ok(None) => ControlFlow::Break(walk.finish()),
            Err(fault) => ControlFlow::Break(Err(self.refusal(Reason::GuideFault(fault)))),
        }
    }
}
