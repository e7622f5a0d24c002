// One turn of a walk: one event of the guide is taken.
ghost use Rattle.std.specs.Prelude.{◌≡◌, ◌<◌};
ghost use Rattle.guide.specs.Stack.{held, newest};
ghost use Rattle.guide.specs.Told.{End};
ghost use Rattle.grammar.specs.Meaning.{Meaning};
ghost use Rattle.tree.specs.Check.{begin, at_finish};
ghost use Rattle.tree.specs.Verdict.{refusal};
ghost use Rattle.walk.specs.Rows.{parts_now, state_of, advanced, NextFits, Takes, Follows, Steps, SameLoans};

use super::{Frame, LentWalk, Walk};
use grammar::{Grammar, Part};
use guide::Event;
use guide::stack::{pop, push, top};
use tree::verdict::{Accepted, Reason, Refusal, Verdict};

// The most events that a walk may have.
const MOST_EVENTS: u32 = 16_000;

// The awaited part of the newest open node is matched, so the part behind it is awaited next.
fn advance(frames: &mut [Frame], mut depth: usize)
    requires { NextFits (held frames.old depth) }
    ensures { held frames.new depth ≡ advanced (held frames.old depth) }
{
    if let Some(frame) = pop(frames, &mut depth) {
        let next = frame.next + 1;
        let _ = push(frames, &mut depth, Frame { next, ..frame });
    }
}

impl<'a, B: Grammar> LentWalk<'a, B> {
    // A walk that has taken no event yet. Every frame that is lent may be used.
    pub fn new(grammar: &'a B, text: &'a [u8], frames: &'a mut [Frame]) -> LentWalk<'a, B>
        ensures begins { (g : Meaning) → state_of g result ≡ begin g text.now }
        ensures grammar { result.grammar.now ≡ grammar.now }
        ensures text { result.text.now ≡ text.now }
        ensures memory { result.frames.ghost_name ≡ frames.entry.ghost_name }
        ensures frames { result.frames.now ≡ frames.old }
    {
        Walk::new().lent(grammar, text, frames)
    }

    // The refusal of this walk for a reason, as for a fault of its guide.
    pub fn refusal(&self, why: Reason) -> Refusal
        ensures { result ≡ refusal why self.now.counts.events self.now.counts.used }
    {
        self.counts.refusal(why)
    }

    // The part that is awaited, or None where a leave or the end is. Before any rule is entered, that is the start symbol.
    fn awaited(&self) -> Option<Part>
        ensures { result ≡ newest (parts_now (B.Grammar.meaning self.now.grammar.now) self.now) }
    {
        if self.counts.rules == 0 {
            return Some(Part::Symbol(self.grammar.start()));
        }
        let frame = top(self.frames, self.counts.depth)?;
        self.grammar.part(frame.rule, frame.next)
    }

    // Whether one event more may come is asked once, in `accept`: asked in each of the three kinds, it would stand three times.
    fn enter(&mut self, rule: u16) -> Result<(), Reason>
        requires { self.old.counts.events < 16000 }
        ensures takes { Takes (B.Grammar.meaning self.old.grammar.now) self.old (Event.Enter rule) result self.new }
        ensures loans { SameLoans self.old self.new }
    {
        let Some(Part::Symbol(symbol)) = self.awaited() else {
            return Err(Reason::NotAwaited);
        };
        let left = self.grammar.left(rule).ok_or(Reason::NoSuchRule)?;
        if left != symbol {
            return Err(Reason::OtherSymbol);
        }
        advance(self.frames, self.counts.depth);
        let counts = &mut self.counts;
        push(self.frames, &mut counts.depth, Frame { rule, next: 0 }).or(Err(Reason::TooDeep))?;
        counts.rules += 1;
        counts.events += 1;
        Ok(())
    }

    fn byte(&mut self, byte: u8) -> Result<(), Reason>
        requires { self.old.counts.events < 16000 }
        ensures takes { Takes (B.Grammar.meaning self.old.grammar.now) self.old (Event.Byte byte) result self.new }
        ensures loans { SameLoans self.old self.new }
    {
        let part = match self.awaited() {
            None | Some(Part::Symbol(_)) => return Err(Reason::NotAwaited),
            Some(part) => part,
        };
        if !part.allows(byte) {
            return Err(Reason::ByteNotAllowed);
        }
        if self.text.get(self.counts.used) != Some(&byte) {
            return Err(Reason::ByteNotNext);
        }
        advance(self.frames, self.counts.depth);
        let counts = &mut self.counts;
        counts.used += 1;
        counts.events += 1;
        Ok(())
    }

    fn leave(&mut self) -> Result<(), Reason>
        requires { self.old.counts.events < 16000 }
        ensures takes { Takes (B.Grammar.meaning self.old.grammar.now) self.old Event.Leave result self.new }
        ensures loans { SameLoans self.old self.new }
    {
        if self.awaited().is_some() {
            return Err(Reason::NotAwaited);
        }
        let counts = &mut self.counts;
        // Lent as `&` in a walk that is written, the frames would count as unknown afterwards.
        pop(&mut *self.frames, &mut counts.depth).ok_or(Reason::NotAwaited)?;
        counts.events += 1;
        Ok(())
    }

    fn accept(&mut self, event: Event) -> Result<(), Reason>
        ensures follows { Follows (B.Grammar.meaning self.old.grammar.now) self.old event result self.new }
        ensures loans { SameLoans self.old self.new }
    {
        if self.counts.events >= MOST_EVENTS {
            return Err(Reason::TooManyEvents);
        }
        match event {
            Event::Enter(rule) => self.enter(rule),
            Event::Byte(byte) => self.byte(byte),
            Event::Leave => self.leave(),
        }
    }

    // Takes one event of the guide. A refusal ends the walk: what it awaits afterwards is left open.
    pub fn take(&mut self, event: Event) -> Result<(), Refusal>
        ensures steps { Steps (B.Grammar.meaning self.old.grammar.now) self.old event result self.new }
        ensures loans { SameLoans self.old self.new }
    {
        self.accept(event)
            .map_err(|reason| self.counts.refusal(reason))
    }

    // The verdict at the guide's end. The end is awaited where the root was entered and no node is open.
    pub fn finish(&self) -> Verdict
        ensures { result ≡ at_finish (state_of (B.Grammar.meaning self.now.grammar.now) self.now) End }
    {
        if self.counts.rules == 0 || top(self.frames, self.counts.depth).is_some() {
            return Err(self.counts.refusal(Reason::NotAwaited));
        }
        if self.counts.used < self.text.len() {
            return Err(self.counts.refusal(Reason::TextLeft));
        }
        Ok(Accepted {
            rules: self.counts.rules,
            bytes: self.counts.used,
            steps: self.counts.events + 1,
        })
    }
}
