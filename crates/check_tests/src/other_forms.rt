// The same check with link tables, layers and packed tables: the walk knows guides and grammars by their meaning only.
use crate::long_cues::Cue;
use crate::{SEVEN_AT_FIVE, expect, verdict_line};
use grammar::Grammar;
use grammar::barred::Barred;
use grammar::house::House;
use grammar::spaced::Spaced;
use guide::Guide;
use guide::link_table::LinkTable;
use guide::listing::Listing;
use packed::Packed;
use second_checker::plain::house;
use second_checker::writing::{seven_at_five, write_records, write_table};
use std::alloc::{AllocError, Global};
use std::test::Fail;

// The text "7 @5" with blanks allowed: one space before the sign, none behind it.
const SPACED_SEVEN: &[u8] =
    b"(0\n(2\n(3\n=37\n)\n(9\n=20\n(8\n)\n)\n=40\n(8\n)\n(3\n=35\n)\n)\n)\n";

// The line for a guide, with all frames lent that count.
fn line<B: Grammar, G: Guide>(
    heap: Global,
    grammar: &B,
    guide: &mut G,
    text: &[u8],
) -> Result<String, AllocError> {
    verdict_line(heap, grammar, guide, text, 1_024)
}

#[test]
fn link_table(rt: HostRuntime) -> Result<(), Fail> {
    let heap = rt.alloc();
    let table = write_records(heap, &seven_at_five(4))?;
    expect(
        &rt,
        line(heap, &House, &mut LinkTable::new(&table), b"7@5"),
        "ok rules=4 bytes=3 steps=12\n",
    )?;
    let wrong = write_records(heap, &seven_at_five(5))?;
    expect(
        &rt,
        line(heap, &House, &mut LinkTable::new(&wrong), b"7@5"),
        "no 5 event=5 at=1 guide=43 place=32\n",
    )
}

#[test]
fn blanks(rt: HostRuntime) -> Result<(), Fail> {
    let heap = rt.alloc();
    let spaced = Spaced::new(House);
    expect(
        &rt,
        line(heap, &spaced, &mut Listing::new(SPACED_SEVEN), b"7 @5"),
        "ok rules=7 bytes=4 steps=19\n",
    )?;
    expect(
        &rt,
        line(heap, &House, &mut Listing::new(SPACED_SEVEN), b"7 @5"),
        "no 7 event=5 at=1\n",
    )?;
    expect(
        &rt,
        line(heap, &spaced, &mut Listing::new(SEVEN_AT_FIVE), b"7@5"),
        "no 7 event=5 at=1\n",
    )
}

#[test]
fn packed_table(rt: HostRuntime) -> Result<(), Fail> {
    let heap = rt.alloc();
    let table = write_table(heap, &house(heap)?)?;
    let (packed, opened) = Packed::open(&table);
    assert!(rt; opened.is_ok());
    expect(
        &rt,
        line(heap, &packed, &mut Listing::new(SEVEN_AT_FIVE), b"7@5"),
        "ok rules=4 bytes=3 steps=12\n",
    )?;
    let spaced = Spaced::new(packed);
    expect(
        &rt,
        line(heap, &spaced, &mut Listing::new(SPACED_SEVEN), b"7 @5"),
        "ok rules=7 bytes=4 steps=19\n",
    )
}

#[test]
fn barred_rule(rt: HostRuntime) -> Result<(), Fail> {
    let heap = rt.alloc();
    let mut barred = Barred::new(House);
    expect(
        &rt,
        line(heap, &barred, &mut Listing::new(SEVEN_AT_FIVE), b"7@5"),
        "ok rules=4 bytes=3 steps=12\n",
    )?;
    assert!(rt; barred.bar(3).is_ok());
    expect(
        &rt,
        line(heap, &barred, &mut Listing::new(SEVEN_AT_FIVE), b"7@5"),
        "no 8 event=2 at=0\n",
    )
}

// 51 settings with blanks that take no space: 16,000 events, and with one digit more 16,003.
#[test]
fn event_limit(rt: HostRuntime) -> Result<(), Fail> {
    let heap = rt.alloc();
    let spaced = Spaced::new(House);
    let mut cue = Cue::new(heap, b"(8\n)\n");
    let mut longer = Cue::new(heap, b"(8\n)\n");
    for _ in 0..48 {
        cue.add(99)?;
        longer.add(99)?;
    }
    for _ in 0..2 {
        cue.add(98)?;
        longer.add(98)?;
    }
    cue.add_last(98)?;
    longer.add_last(99)?;
    expect(
        &rt,
        line(heap, &spaced, &mut Listing::new(&cue.listing), &cue.text),
        "ok rules=5401 bytes=5198 steps=16001\n",
    )?;
    expect(
        &rt,
        line(
            heap,
            &spaced,
            &mut Listing::new(&longer.listing),
            &longer.text,
        ),
        "no 6 event=16000 at=5199\n",
    )
}
