// What a guide is expected to answer.
use guide::{Defect, Event, Fault, Guide};
use std::process::Abort;

// These events, one by one.
pub(crate) fn tells<G: Guide>(rt: &impl Abort, guide: &mut G, events: &[Event]) {
    for event in events {
        assert!(rt; guide.next() == Ok(Some(*event)));
    }
}

// The same event so many times.
pub(crate) fn tells_often<G: Guide>(rt: &impl Abort, guide: &mut G, event: Event, times: usize) {
    for _ in 0..times {
        assert!(rt; guide.next() == Ok(Some(event)));
    }
}

// The end or the fault, and again and again the same.
fn finishes<G: Guide>(rt: &impl Abort, guide: &mut G, finish: Result<Option<Event>, Fault>) {
    for _ in 0..3 {
        assert!(rt; guide.next() == finish);
    }
}

pub(crate) fn ends<G: Guide>(rt: &impl Abort, guide: &mut G) {
    finishes(rt, guide, Ok(None));
}

pub(crate) fn faults<G: Guide>(rt: &impl Abort, guide: &mut G, defect: Defect, place: usize) {
    finishes(rt, guide, Err(Fault { defect, place }));
}

#[test]
fn the_numbers_of_the_defects(rt: HostRuntime) {
    assert_eq!(rt; Defect::ListingTooLong.number(), 31);
    assert_eq!(rt; Defect::BadLine.number(), 32);
    assert_eq!(rt; Defect::TableLength.number(), 41);
    assert_eq!(rt; Defect::BadRecord.number(), 42);
    assert_eq!(rt; Defect::BadLink.number(), 43);
    assert_eq!(rt; Defect::TooManyOpen.number(), 44);
    assert_eq!(rt; Defect::RecordsUnread.number(), 45);
}
