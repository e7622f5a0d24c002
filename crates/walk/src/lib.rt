// The check of a guide against a grammar and a text.
#![tactic(auto)]

ghost use Rattle.std.specs.Prelude.{◌≡◌, length};
ghost use Rattle.guide.specs.Told.{after};
ghost use Rattle.tree.specs.Check.{depth_limit, verdict, run, going};
ghost use Rattle.tree.specs.Theorems.{AcceptedExactly, RefusedWhere};
ghost use Rattle.tree.specs.Verdict.{taken};
ghost use Rattle.walk.specs.Rows.{state_of};

use grammar::Grammar;
use guide::Guide;
use state::{Frame, LentWalk};
use tree::verdict::{Reason, Verdict};

pub mod state;

// The most frames that count, however many are lent.
const MOST_FRAMES: usize = 1_024;

// Takes events until the walk has its verdict. A fault's refusal is made by the counts: of a closure that captures the walk, a proof
// would not know what it returns.
fn follow<B: Grammar, G: Guide>(
    grammar: &B,
    guide: &mut G,
    text: &[u8],
    frames: &mut [Frame],
) -> Verdict
    ensures verdict { result ≡ verdict (B.Grammar.meaning grammar.now) (length frames.old) text.now (G.Guide.told guide.old) }
    ensures behind_last { G.Guide.told guide.new ≡ after (taken result) (G.Guide.told guide.old) }
{
    let mut walk = LentWalk::new(grammar, text, frames);
    while let Some(event) = guide
        .next()
        .map_err(|fault| walk.counts.refusal(Reason::GuideFault(fault)))?
    {
        walk.take(event)?;
    }
    walk.finish()
}

// Checks the guide against the grammar and the text. The verdict is the definition's, for every grammar, guide, text and frame memory;
// in the words of parse trees, the text is accepted exactly when the guide tells the walk of a parse tree of it and then ends.
// The guide is left behind the last answer taken. What the frames hold afterwards is left open.
pub fn check<B: Grammar, G: Guide>(
    grammar: &B,
    guide: &mut G,
    text: &[u8],
    frames: &mut [Frame],
) -> Verdict
    ensures verdict { result ≡ verdict (B.Grammar.meaning grammar.now) (depth_limit (length frames.old)) text.now (G.Guide.told guide.old) }
    ensures exactly { AcceptedExactly (B.Grammar.meaning grammar.now) (depth_limit (length frames.old)) text.now (G.Guide.told guide.old) result }
    ensures refusals { RefusedWhere (B.Grammar.meaning grammar.now) (depth_limit (length frames.old)) text.now (G.Guide.told guide.old) result }
    ensures behind_last { G.Guide.told guide.new ≡ after (taken result) (G.Guide.told guide.old) }
{
    let limit = frames.len().min(MOST_FRAMES);
    follow(grammar, guide, text, &mut frames[..limit])
}
