// The calls on a memory: what is held, what is free, and every refusal of load, clear and fetch.
use crate::long_cues::Cue;
use cues::answers::{Answer, Refusal};
use cues::requests::{Lent, Request, perform};
use grammar::house::House;
use guide::listing::Listing;
use guide::{Event, Guide};
use memory::blocks::Blocks;
use std::alloc::{AllocError, Global};
use std::process::Abort;
use std::test::Fail;
use walk::state::Frame;

fn load(memory: &mut Blocks, number: u16, text: &[u8], listing: &[u8]) -> Result<Answer, Refusal> {
    let mut lent = Lent {
        text,
        grammar: &House,
        guide: &mut Listing::new(listing),
        frames: &mut [Frame::BLANK; 1_024],
        buffer: &mut [],
    };
    perform(memory, Request::Load(number), &mut lent)
}

// A request without a guide.
fn ask(memory: &mut Blocks, request: Request, buffer: &mut [u8]) -> Result<Answer, Refusal> {
    let nothing: [u8; 0] = [];
    let mut lent = Lent {
        text: &nothing,
        grammar: &House,
        guide: &mut Listing::new(&nothing),
        frames: &mut [],
        buffer,
    };
    perform(memory, request, &mut lent)
}

fn expect_loaded(
    rt: &impl Abort,
    answer: Result<Answer, Refusal>,
    bytes: usize,
) -> Result<(), Fail> {
    match answer {
        Ok(Answer::Loaded(accepted)) => {
            assert_eq!(rt; accepted.bytes, bytes);
            Ok(())
        }
        _ => Err(Fail::new("not loaded")),
    }
}

// Refused by this number, with zeros.
fn expect_refused(
    rt: &impl Abort,
    answer: Result<Answer, Refusal>,
    number: u8,
) -> Result<(), Fail> {
    match answer {
        Err(refusal) => {
            assert_eq!(rt; refusal.number(), number);
            assert!(rt; refusal.events() == 0 && refusal.bytes() == 0);
            Ok(())
        }
        Ok(_) => Err(Fail::new("not refused")),
    }
}

fn expect_free(rt: &impl Abort, memory: &mut Blocks, blocks: u16) {
    let mut nowhere: [u8; 0] = [];
    assert!(rt; ask(memory, Request::Free, &mut nowhere) == Ok(Answer::Free(blocks)));
}

// A hundred cues of five blocks and one of twelve, which leave no block free.
fn fill(rt: &impl Abort, heap: Global, memory: &mut Blocks) -> Result<(), Fail> {
    let mut short = Cue::new(heap, b"");
    short.add_last(318)?;
    for number in 1..101 {
        expect_loaded(rt, load(memory, number, &short.text, &short.listing), 320)?;
    }
    let mut middle = Cue::new(heap, b"");
    middle.add_last(766)?;
    expect_loaded(rt, load(memory, 101, &middle.text, &middle.listing), 768)?;
    expect_free(rt, memory, 0);
    expect_refused(rt, load(memory, 102, &short.text, &short.listing), 4)
}

// A cue with the longest text that there is.
fn longest(heap: Global) -> Result<Cue<'static>, AllocError> {
    let mut long = Cue::new(heap, b"");
    for digits in [817, 817, 816, 816] {
        long.add(digits)?;
    }
    long.add_last(816)?;
    Ok(long)
}

// Fifty cues of a full memory are cleared, one out of two, and the longest text fits into the gaps.
#[test]
fn cleared_blocks_are_used_again(rt: HostRuntime) -> Result<(), Fail> {
    let heap = rt.alloc();
    let mut memory = Blocks::new();
    fill(&rt, heap, &mut memory)?;
    let mut buffer = vec![in heap; 0u8; 4_100]?;
    for half in 1..51 {
        let answer = ask(&mut memory, Request::Clear(2 * half), &mut buffer);
        assert!(rt; answer == Ok(Answer::Cleared(2 * half)));
    }
    expect_free(&rt, &mut memory, 250);
    let long = longest(heap)?;
    expect_loaded(
        &rt,
        load(&mut memory, 120, &long.text, &long.listing),
        4_096,
    )?;
    expect_free(&rt, &mut memory, 186);
    let answer = ask(&mut memory, Request::Fetch(120), &mut buffer);
    assert!(rt; answer == Ok(Answer::Fetched(4_096)));
    assert!(rt; buffer[0..4_096] == long.text[0..]);
    assert!(rt; buffer[4_096..] == [0u8; 4][0..]);
    Ok(())
}

#[test]
fn refusals_in_order(rt: HostRuntime) -> Result<(), Fail> {
    let heap = rt.alloc();
    let mut memory = Blocks::new();
    let mut cue = Cue::new(heap, b"");
    cue.add_last(1)?;
    let mut buffer = [9u8; 2];
    expect_refused(&rt, load(&mut memory, 0, &cue.text, &cue.listing), 1)?;
    expect_refused(&rt, load(&mut memory, 121, &cue.text, &cue.listing), 1)?;
    expect_loaded(&rt, load(&mut memory, 1, &cue.text, &cue.listing), 3)?;
    expect_refused(&rt, load(&mut memory, 1, &cue.text, &cue.listing), 2)?;
    let long = vec![in heap; b'0'; 4_097]?;
    expect_refused(&rt, load(&mut memory, 1, &long, &cue.listing), 2)?;
    expect_refused(&rt, load(&mut memory, 2, &long, &cue.listing), 3)?;
    expect_refused(&rt, ask(&mut memory, Request::Clear(121), &mut buffer), 1)?;
    expect_refused(&rt, ask(&mut memory, Request::Clear(2), &mut buffer), 14)?;
    expect_refused(&rt, ask(&mut memory, Request::Fetch(0), &mut buffer), 1)?;
    expect_refused(&rt, ask(&mut memory, Request::Fetch(2), &mut buffer), 14)?;
    expect_refused(&rt, ask(&mut memory, Request::Fetch(1), &mut buffer), 15)?;
    assert!(rt; buffer[0] == 9 && buffer[1] == 9);
    expect_free(&rt, &mut memory, 511);
    Ok(())
}

// A load under no number: it is refused before the check.
fn load_unread(memory: &mut Blocks, guide: &mut Listing<'_>) -> Result<Answer, Refusal> {
    let text = *b"7@5";
    let mut lent = Lent {
        text: &text,
        grammar: &House,
        guide,
        frames: &mut [Frame::BLANK; 3],
        buffer: &mut [],
    };
    perform(memory, Request::Load(0), &mut lent)
}

// A load that is refused before the check leaves its guide unread.
#[test]
fn guide_unread(rt: HostRuntime) -> Result<(), Fail> {
    let mut memory = Blocks::new();
    let mut guide = Listing::new(b"(0\n");
    let answer = load_unread(&mut memory, &mut guide);
    expect_refused(&rt, answer, 1)?;
    assert!(rt; guide.next() == Ok(Some(Event::Enter(0))));
    Ok(())
}
