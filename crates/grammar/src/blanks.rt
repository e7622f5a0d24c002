// The layer `Spaced`, which can be left away: a grammar with blanks between the parts of its loose rules, or without.
ghost use Rattle.std.specs.Prelude.{◌≡◌, if◌then◌else◌};
ghost use Rattle.grammar.specs.Spaced.{spaced_meaning};

use crate::Grammar;
use crate::either::Either;
use crate::spaced::Spaced;

pub type Blanks<B> = Either<B, Spaced<B>>;

impl<B: Grammar> Blanks<B> {
    pub fn new(below: B, allowed: bool) -> Blanks<B>
        ensures { ⟦<Blanks<B> as Grammar>⟧.meaning result ≡ (if allowed then spaced_meaning (B.Grammar.meaning below) else B.Grammar.meaning below) }
    {
        if allowed {
            Either::Second(Spaced::new(below))
        } else {
            Either::First(below)
        }
    }
}
