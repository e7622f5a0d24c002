// Checks of whole cues: the lines that the rules ask for, and the limits.
#![tactic(auto)]

#[cfg(test)]
mod calls;
#[cfg(test)]
mod kept_walk;
#[cfg(test)]
mod long_cues;
#[cfg(test)]
mod other_forms;

#[cfg(test)]
use cues::answers::Refusal;
#[cfg(test)]
use grammar::Grammar;
#[cfg(test)]
use guide::Guide;
#[cfg(test)]
use report::line::Shown;
#[cfg(test)]
use std::alloc::{AllocError, Global};
#[cfg(test)]
use std::process::Abort;
#[cfg(test)]
use std::test::Fail;
#[cfg(test)]
use walk::check;
#[cfg(test)]
use walk::state::Frame;

// The verdict on a guide in the words of `cueline`'s line, with so many frames lent.
#[cfg(test)]
fn verdict_line<B: Grammar, G: Guide>(
    heap: Global,
    grammar: &B,
    guide: &mut G,
    text: &[u8],
    frames: usize,
) -> Result<String, AllocError> {
    let mut frames = vec![in heap; Frame::BLANK; frames]?;
    match check(grammar, guide, text, &mut frames) {
        Ok(accepted) => format!(in heap;
            "ok rules={} bytes={} steps={}\n",
            accepted.rules, accepted.bytes, accepted.steps
        ),
        Err(refusal) => format!(in heap; "{}\n", Shown(Refusal::Check(refusal))),
    }
}

// The listing of 7@5.
#[cfg(test)]
const SEVEN_AT_FIVE: &[u8] = b"(0\n(2\n(3\n=37\n)\n=40\n(3\n=35\n)\n)\n)\n";

#[cfg(test)]
fn expect(rt: &impl Abort, line: Result<String, AllocError>, expected: &str) -> Result<(), Fail> {
    assert_eq!(rt; line?.as_str(), expected);
    Ok(())
}

#[cfg(test)]
mod tests {
    use super::long_cues::Cue;
    use super::{SEVEN_AT_FIVE, expect, verdict_line};
    use grammar::house::House;
    use guide::listing::Listing;
    use guide::{Event, Guide};
    use report::answer;
    use std::alloc::{AllocError, Global};
    use std::test::Fail;
    use walk::check as check_guide;
    use walk::state::Frame;

    // The line for a text and a listing of the house grammar, with so many frames lent.
    fn house_line(
        heap: Global,
        text: &[u8],
        listing: &[u8],
        frames: usize,
    ) -> Result<String, AllocError> {
        verdict_line(heap, &House, &mut Listing::new(listing), text, frames)
    }

    #[test]
    fn seven_at_five(rt: HostRuntime) -> Result<(), Fail> {
        let heap = rt.alloc();
        expect(
            &rt,
            house_line(heap, b"7@5", SEVEN_AT_FIVE, 3),
            "ok rules=4 bytes=3 steps=12\n",
        )?;
        expect(
            &rt,
            house_line(heap, b"7@5", SEVEN_AT_FIVE, 2),
            "no 10 event=2 at=0\n",
        )?;
        expect(
            &rt,
            house_line(heap, b"7@5", SEVEN_AT_FIVE, 0),
            "no 10 event=0 at=0\n",
        )?;
        expect(
            &rt,
            house_line(heap, b"7@6", SEVEN_AT_FIVE, 3),
            "no 12 event=7 at=2\n",
        )?;
        expect(
            &rt,
            house_line(heap, b"7@", SEVEN_AT_FIVE, 3),
            "no 12 event=7 at=2\n",
        )?;
        expect(
            &rt,
            house_line(heap, b"7@5;", SEVEN_AT_FIVE, 3),
            "no 13 event=11 at=3\n",
        )
    }

    #[test]
    fn guides_that_go_wrong(rt: HostRuntime) -> Result<(), Fail> {
        let heap = rt.alloc();
        expect(
            &rt,
            answer(heap, b"7@5\n(0\n(2\n(3\n=37\n)\n=40\n(3\n=35\n)\n)\n"),
            "no 7 event=10 at=3\n",
        )?;
        expect(&rt, answer(heap, b"7@5\n"), "no 7 event=0 at=0\n")?;
        expect(&rt, answer(heap, b"7@5"), "no 7 event=0 at=0\n")?;
        expect(&rt, answer(heap, b"7@5\n(9\n"), "no 8 event=0 at=0\n")?;
        expect(&rt, answer(heap, b"7@5\n(2\n"), "no 9 event=0 at=0\n")?;
        expect(
            &rt,
            answer(heap, b"7@5\n(0\n(2\n=37\n"),
            "no 7 event=2 at=0\n",
        )?;
        expect(
            &rt,
            answer(heap, b"7@5\n(0\n(2\n(3\n=61\n"),
            "no 11 event=3 at=0\n",
        )?;
        expect(&rt, answer(heap, b"7@5\n(0\n)\n"), "no 7 event=1 at=0\n")
    }

    #[test]
    fn listings_out_of_form(rt: HostRuntime) -> Result<(), Fail> {
        let heap = rt.alloc();
        expect(
            &rt,
            answer(heap, b"7@5\n(00\n"),
            "no 5 event=0 at=0 guide=32 place=0\n",
        )?;
        expect(
            &rt,
            answer(heap, b"7@5\n(10000\n"),
            "no 5 event=0 at=0 guide=32 place=0\n",
        )?;
        expect(
            &rt,
            answer(heap, b"7@5\n(0\n(2\n(3\n=3A\n"),
            "no 5 event=3 at=0 guide=32 place=9\n",
        )?;
        expect(
            &rt,
            answer(heap, b"7@5\n(0\n(2\n(3"),
            "no 5 event=2 at=0 guide=32 place=6\n",
        )?;
        expect(
            &rt,
            answer(heap, b"7@5\n(0\n(2\n(3\n=37\n)\n=40\n(3\n=35\n)\n)\n)"),
            "no 5 event=10 at=3 guide=32 place=30\n",
        )
    }

    #[test]
    fn remarks_and_cue_lists(rt: HostRuntime) -> Result<(), Fail> {
        let heap = rt.alloc();
        expect(
            &rt,
            answer(heap, b"#\n(5\n=23\n(6\n)\n)\n"),
            "ok rules=2 bytes=1 steps=6 free=511\n",
        )?;
        expect(
            &rt,
            answer(heap, b"#a\n(5\n=23\n(7\n=61\n(6\n)\n)\n)\n"),
            "ok rules=3 bytes=2 steps=9 free=511\n",
        )?;
        expect(
            &rt,
            answer(heap, b"#\r\n(5\n=23\n(7\n=0d\n"),
            "no 11 event=3 at=1\n",
        )?;
        let list = b"1@2;#\n(1\n(2\n(3\n=31\n)\n=40\n(3\n=32\n)\n)\n=3b\n(5\n=23\n(6\n)\n)\n)\n";
        expect(
            &rt,
            answer(heap, list),
            "ok rules=6 bytes=5 steps=18 free=511\n",
        )
    }

    // One way down of so many rule nodes: two above the number, and one for each of its digits.
    #[test]
    fn depth_limit(rt: HostRuntime) -> Result<(), Fail> {
        let heap = rt.alloc();
        let mut cue = Cue::new(heap, b"");
        cue.add_last(1_022)?;
        expect(
            &rt,
            house_line(heap, &cue.text, &cue.listing, 1_024),
            "ok rules=1025 bytes=1024 steps=3075\n",
        )?;
        expect(
            &rt,
            house_line(heap, &cue.text, &cue.listing, 1_023),
            "no 10 event=2044 at=1021\n",
        )?;
        let mut deeper = Cue::new(heap, b"");
        deeper.add_last(1_023)?;
        expect(
            &rt,
            house_line(heap, &deeper.text, &deeper.listing, 5_000),
            "no 10 event=2046 at=1022\n",
        )
    }

    // 52 settings: all but the last take 308 events and a closing leave, and use 103 bytes.
    #[test]
    fn event_limit(rt: HostRuntime) -> Result<(), Fail> {
        let heap = rt.alloc();
        let mut cue = Cue::new(heap, b"");
        for _ in 0..51 {
            cue.add(100)?;
        }
        cue.add_last(100)?;
        expect(
            &rt,
            house_line(heap, &cue.text, &cue.listing, 1_024),
            "no 6 event=16000 at=5353\n",
        )?;
        let mut most = Cue::new(heap, b"");
        for _ in 0..29 {
            most.add(100)?;
        }
        for _ in 0..22 {
            most.add(99)?;
        }
        most.add_last(99)?;
        expect(
            &rt,
            house_line(heap, &most.text, &most.listing, 1_024),
            "ok rules=5333 bytes=5332 steps=15999\n",
        )
    }

    #[test]
    fn input_limit(rt: HostRuntime) -> Result<(), Fail> {
        let heap = rt.alloc();
        let mut input = vec![in heap; b'7'; 60_000]?;
        expect(&rt, answer(heap, &input), "no 3 event=0 at=0\n")?;
        input.push(b'7')?;
        expect(&rt, answer(heap, &input), "no 16 event=0 at=0\n")
    }

    // The guide stands behind the last answer taken.
    #[test]
    fn guide_after_refusal(rt: HostRuntime) {
        let mut guide = Listing::new(SEVEN_AT_FIVE);
        let mut frames = [Frame::BLANK; 3];
        assert!(rt; check_guide(&House, &mut guide, b"7@6", &mut frames).is_err());
        assert!(rt; guide.next() == Ok(Some(Event::Leave)));
    }
}
