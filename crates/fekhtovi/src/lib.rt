// What C and Rust callers are given.
#![tactic(auto)]

ghost use Rattle.std.specs.Prelude.{◌≡◌, length};
ghost use Rattle.memory.specs.Texts.{no_texts};
ghost use Rattle.tree.specs.Check.{depth_limit, verdict};
ghost use Rattle.fekhtovi.specs.Check.{check_result, check_answer};
ghost use Rattle.fekhtovi.specs.Replay.{Replayed};

use answer::FekhtoviAnswer;
use bars::bar_all;
use chosen::opened;
use grammar::Grammar;
use grammar::barred::Barred;
use grammar::blanks::Blanks;
use grammar::either::Either;
use guide::Guide;
use guide::written::Written;
use memory::blocks::Blocks;
use packed::base::Base;
use refused::Refused;
use replay::replay_on;
use tree::verdict::{Accepted, Verdict};
use walk::check;
use walk::state::Frame;

pub mod answer;
mod bars;
mod chosen;
mod record;
mod refused;
mod replay;
mod script;

// Checks a guide against a base without layers. That is the common case, and has a check of its own for each of the two.
fn check_plain(
    base: &Base<'_>,
    guide: &mut Written<'_>,
    text: &[u8],
    frames: &mut [Frame],
) -> Verdict
    ensures { result ≡ verdict (⟦<Base<'static> as Grammar>⟧.meaning base.now) (depth_limit (length frames.old)) text.now (⟦<Written<'static> as Guide>⟧.told guide.old) }
{
    match base {
        Either::First(house) => check(house, guide, text, frames),
        Either::Second(table) => check(table, guide, text, frames),
    }
}

fn checked(
    table: &[u8],
    blanks: u8,
    bars: &[u16],
    text: &[u8],
    form: u8,
    guide: &[u8],
    frames: &mut [Frame],
) -> Result<Accepted, Refused>
    ensures { result ≡ check_result table.now blanks bars.now text.now form guide.now (length frames.old) }
{
    let (base, form) = opened(form, table)?;
    let mut guide = Written::new(form, guide);
    if blanks == 0 && bars.is_empty() {
        return check_plain(&base, &mut guide, text, frames).map_err(Refused::from);
    }
    let mut chosen = Barred::new(Blanks::new(base, blanks != 0));
    bar_all(&mut chosen, bars.iter().copied())?;
    check(&chosen, &mut guide, text, frames).map_err(Refused::from)
}

// Checks a guide against a grammar and a text. A table of no bytes stands for the house grammar; blanks are let in unless the number is
// 0; form 1 is a listing and 2 a link table. What the frames hold before makes no difference. Flag and form are numbers, since nothing
// holds a caller in C to a bool or an enum.
#[unsafe(no_mangle)]
pub extern "C" fn fekhtovi_check(
    table: &[u8],
    blanks: u8,
    bars: &[u16],
    text: &[u8],
    form: u8,
    guide: &[u8],
    frames: &mut [Frame],
) -> FekhtoviAnswer
    ensures { result ≡ check_answer table.now blanks bars.now text.now form guide.now (length frames.old) }
{
    checked(table, blanks, bars, text, form, guide, frames).map_or_else(
        FekhtoviAnswer::from,
        FekhtoviAnswer::from,
    )
}

// Replays a script of calls on one memory, which holds nothing at first, and writes the answers. It stops at the end of the script, at a
// call that is not whole, and where the answers have no place for the next. The number of bytes written is answered.
#[unsafe(no_mangle)]
pub extern "C" fn fekhtovi_replay(script: &[u8], answers: &mut [u8]) -> usize
    ensures { Replayed 512 no_texts script.now answers.old result answers.new }
{
    let mut memory = Blocks::new();
    replay_on(&mut memory, script, answers)
}
