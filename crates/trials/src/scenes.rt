// What the calls of a run are handed: a scene is the grammar, and a call has all else.
use crate::answers::Refused;
use crate::damage::shake;
use crate::grammars::{Build, counting_grammar, random_grammar};
use crate::product;
use crate::random::Random;
use crate::tally::Tally;
use cues::requests::Request;
use guide::written::Form;
use second_checker::failure::answered;
use second_checker::narrow;
use second_checker::plain::{Plain, house, spaced};
use second_checker::table::read_table;
use second_checker::writing::write_table;
use std::alloc::{AllocError, Global};

// What the trees of a run are to be like: small, with long texts, with many nodes open at once, or with a number of nodes at the limits.
#[derive(Clone, Copy)]
pub enum Taste {
    Small,
    Long,
    Deep,
    Counted,
}

// The layers over a grammar, the outermost first.
#[derive(Clone, Copy)]
pub enum Layers {
    Bare,
    Blanks,
    Bars,
    BlanksOverBars,
    BarsOverBlanks,
    BlanksTwice,
}

// A grammar twice: as the product is handed it, with the house grammar where there is no table, and as plain data.
#[derive(Drop)]
pub struct Scene {
    pub table: Option<Vec<u8>>,
    pub layers: Layers,
    pub bars: Vec<u16>,
    pub plain: Plain,
}

#[derive(Drop)]
pub struct Call {
    pub request: Request,
    pub text: Vec<u8>,
    pub form: Form,
    pub guide: Vec<u8>,
    pub frames: usize,
    pub buffer: usize,
}

pub(crate) fn make_scene(
    heap: Global,
    random: &mut Random,
    taste: Taste,
    tally: &mut Tally,
) -> Result<Scene, AllocError> {
    tally.grammars += 1;
    let layers = match taste {
        Taste::Counted => Layers::Blanks,
        _ => random_layers(random),
    };
    let table = make_table(heap, random, taste)?;
    let below = match &table {
        Some(table) => open_table(heap, table.as_slice(), tally)?,
        None => house(heap)?,
    };
    let bars = make_bars(heap, random, below.rules.len(), tally)?;
    let plain = put_layers(heap, below, layers, bars.as_slice())?;
    Ok(Scene {
        table,
        layers,
        bars,
        plain,
    })
}

fn random_layers(random: &mut Random) -> Layers {
    match random.below(6) {
        0 => Layers::Bare,
        1 => Layers::Blanks,
        2 => Layers::Bars,
        3 => Layers::BlanksOverBars,
        4 => Layers::BarsOverBlanks,
        _ => Layers::BlanksTwice,
    }
}

// A packed table, sometimes damaged, or none for the house grammar.
fn make_table(
    heap: Global,
    random: &mut Random,
    taste: Taste,
) -> Result<Option<Vec<u8>>, AllocError> {
    let build = match taste {
        Taste::Counted => return Ok(Some(write_table(heap, &counting_grammar(heap)?)?)),
        _ if random.chance(20) => return Ok(None),
        Taste::Long => Build::Wide,
        Taste::Small if random.chance(3) => Build::Huge,
        Taste::Small | Taste::Deep => Build::Small,
    };
    let grammar = random_grammar(heap, random, build)?;
    let mut table = write_table(heap, &grammar)?;
    if random.chance(20) {
        for _ in 0..random.between(1, 3) {
            damage_table(random, &mut table)?;
        }
    }
    Ok(Some(table))
}

// One byte gets another value, at times the count of symbols, which is the first number that is none. It is mostly one of the header,
// of a rule's head or of its first slot. Or bytes come or go.
fn damage_table(random: &mut Random, table: &mut Vec<u8>) -> Result<(), AllocError> {
    let symbols = table.get(1).copied().unwrap_or(0);
    let new = random.one_of(&[0, 1, 2, 3, 15, 16, 255, symbols]);
    let row = random.below(table.len() / 64).saturating_mul(64);
    let offset = match random.below(5) {
        0 => random.below(8),
        1 => row.saturating_add(random.between(8, 11)),
        2 => row.saturating_add(random.between(12, 15)),
        3 => random.below(table.len()),
        _ => return shake(random, table, new),
    };
    if let Some(byte) = table.get_mut(offset) {
        *byte = new;
    }
    Ok(())
}

// The plain grammar of a table. Where the two checks of the table differ, that is noted.
fn open_table(heap: Global, table: &[u8], tally: &mut Tally) -> Result<Plain, AllocError> {
    let by_product = product::table_refusal(table);
    let (plain, flaw) = match answered(read_table(heap, table))? {
        Ok(plain) => (plain, None),
        Err(flaw) => (Plain::empty(heap), Some((flaw.number(), flaw.rule()))),
    };
    if let Some((number, _)) = by_product.0 {
        tally.count(number);
    }
    tally.compare(heap, "table", &by_product, &Refused(flaw))?;
    Ok(plain)
}

fn make_bars(
    heap: Global,
    random: &mut Random,
    rules: usize,
    tally: &mut Tally,
) -> Result<Vec<u16>, AllocError> {
    let mut bars = Vec::new(heap);
    for _ in 0..random.below(4) {
        let number = if random.chance(5) {
            random.one_of(&[1_023, 1_024, 1_025, 2_047, 65_535])
        } else {
            narrow(random.below(rules.saturating_add(3)))
        };
        compare_bar(heap, number, tally)?;
        bars.push(number)?;
    }
    Ok(bars)
}

fn compare_bar(heap: Global, number: u16, tally: &mut Tally) -> Result<(), AllocError> {
    let by_product = product::bar_refusal(number);
    let flaw = Plain::empty(heap).bar(number).err();
    if let Some((refusal, _)) = by_product.0 {
        tally.count(refusal);
    }
    let by_second = Refused(flaw.map(|flaw| (flaw.number(), usize::from(number))));
    tally.compare(heap, "bar", &by_product, &by_second)
}

fn put_layers(
    heap: Global,
    below: Plain,
    layers: Layers,
    bars: &[u16],
) -> Result<Plain, AllocError> {
    match layers {
        Layers::Bare => Ok(below),
        Layers::Blanks => spaced(heap, below),
        Layers::Bars => Ok(barred(below, bars)),
        Layers::BlanksOverBars => spaced(heap, barred(below, bars)),
        Layers::BarsOverBlanks => Ok(barred(spaced(heap, below)?, bars)),
        Layers::BlanksTwice => spaced(heap, spaced(heap, below)?),
    }
}

fn barred(below: Plain, bars: &[u16]) -> Plain {
    let mut grammar = below;
    for number in bars {
        let _ = grammar.bar(*number);
    }
    grammar
}
