// Rule numbers to bar.
ghost use Rattle.std.specs.Prelude.{◌≡◌, ℕ, List, IfOk};
ghost use Rattle.std.specs.Iterator.{AlwaysYields, IsFinite};
ghost use Rattle.grammar.specs.Barred.{NoneBarred};
ghost use Rattle.fekhtovi.specs.Bars.{without_rules, bars_answer};

use grammar::Grammar;
use grammar::barred::{BarRefusal, Barred};

// Bars each of the numbers, up to the first that cannot be barred. In place, since a grammar that is handed back is copied with its flags.
pub(crate) fn bar_all<B: Grammar, I: Iterator<Item = u16> + Drop>(
    chosen: &mut Barred<B>,
    bars: I,
) -> Result<(), BarRefusal>
    requires none { NoneBarred chosen.old.set.flags }
    requires can { I.can_next bars }
    requires ends { IsFinite (I.remaining bars) }
    ensures below { chosen.new.below ≡ chosen.old.below }
    ensures answer { (listed : List ℕ) → AlwaysYields I.next_gives (λ n. n) bars listed → result ≡ bars_answer listed }
    ensures barred { (listed : List ℕ) → AlwaysYields I.next_gives (λ n. n) bars listed → IfOk result (λ _. ⟦<Barred<B> as Grammar>⟧.meaning chosen.new ≡ without_rules listed (B.Grammar.meaning chosen.old.below)) }
{
    for rule in bars {
        chosen.bar(rule)?;
    }
    Ok(())
}
