// Link tables: every fault and its place, the order of the questions, and both sides of each limit.
use crate::expect::{ends, faults, tells, tells_often};
use guide::link_table::LinkTable;
use guide::{Defect, Event};
use second_checker::writing::{Record, seven_at_five, write_records};
use std::alloc::{AllocError, Global};
use std::process::Abort;
use std::test::Fail;

// So many rule records, each the only child of the one before, and one last record as the child of the last.
fn chain(heap: Global, depth: u16, last: Record) -> Result<Vec<u8>, AllocError> {
    let mut records = Vec::new(heap);
    for n in 0..depth {
        records.push(Record::rule(0, n + 1, 0))?;
    }
    records.push(last)?;
    write_records(heap, records.as_slice())
}

// A root with so many leaves.
fn wide(heap: Global, leaves: u16) -> Result<Vec<u8>, AllocError> {
    let mut records = Vec::new(heap);
    records.push(Record::rule(0, 1, 0))?;
    for n in 1..leaves {
        records.push(Record::leaf(55, n + 1))?;
    }
    records.push(Record::leaf(55, 0))?;
    write_records(heap, records.as_slice())
}

// The events are told, and then the walk ends.
fn told(rt: &impl Abort, heap: Global, records: &[Record], events: &[Event]) -> Result<(), Fail> {
    let bytes = write_records(heap, records)?;
    let mut table = LinkTable::new(bytes.as_slice());
    tells(rt, &mut table, events);
    ends(rt, &mut table);
    Ok(())
}

// The events are told, and then the fault.
fn refused(
    rt: &impl Abort,
    heap: Global,
    records: &[Record],
    events: &[Event],
    defect: Defect,
    place: usize,
) -> Result<(), Fail> {
    let bytes = write_records(heap, records)?;
    let mut table = LinkTable::new(bytes.as_slice());
    tells(rt, &mut table, events);
    faults(rt, &mut table, defect, place);
    Ok(())
}

#[test]
fn the_table_of_seven_at_five(rt: HostRuntime) -> Result<(), Fail> {
    let events = [
        Event::Enter(0),
        Event::Enter(2),
        Event::Enter(3),
        Event::Byte(55),
        Event::Leave,
        Event::Byte(64),
        Event::Enter(3),
        Event::Byte(53),
        Event::Leave,
        Event::Leave,
        Event::Leave,
    ];
    told(&rt, rt.alloc(), &seven_at_five(4), &events)
}

#[test]
fn a_link_past_the_next_record(rt: HostRuntime) -> Result<(), Fail> {
    let events = [
        Event::Enter(0),
        Event::Enter(2),
        Event::Enter(3),
        Event::Byte(55),
        Event::Leave,
    ];
    refused(
        &rt,
        rt.alloc(),
        &seven_at_five(5),
        &events,
        Defect::BadLink,
        32,
    )
}

#[test]
fn links_that_go_back_or_out_of_the_table(rt: HostRuntime) -> Result<(), Fail> {
    let events = [Event::Enter(0), Event::Enter(1)];
    let heap = rt.alloc();
    // to itself
    refused(
        &rt,
        heap,
        &[Record::rule(0, 1, 0), Record::rule(1, 1, 0)],
        &events,
        Defect::BadLink,
        16,
    )?;
    // out of the table
    refused(
        &rt,
        heap,
        &[Record::rule(0, 1, 0), Record::rule(1, 2, 0)],
        &events,
        Defect::BadLink,
        16,
    )?;
    // far out
    refused(
        &rt,
        heap,
        &[Record::rule(0, 65_535, 0)],
        &[Event::Enter(0)],
        Defect::BadLink,
        8,
    )
}

// Each of them alone: it is asked as record 0.
#[test]
fn records_out_of_form(rt: HostRuntime) -> Result<(), Fail> {
    let bad = [
        Record {
            kind: 0,
            ..Record::rule(0, 0, 0)
        },
        Record {
            kind: 3,
            ..Record::leaf(0, 0)
        },
        Record {
            zero: 1,
            ..Record::rule(0, 0, 0)
        },
        Record {
            zero: 1,
            ..Record::leaf(0, 0)
        },
        Record::rule(10_000, 0, 0),
        Record::leaf(256, 0),
        Record {
            child: 1,
            ..Record::leaf(0, 0)
        },
    ];
    for record in bad.iter() {
        refused(&rt, rt.alloc(), &[*record], &[], Defect::BadRecord, 0)?;
    }
    told(
        &rt,
        rt.alloc(),
        &[Record::rule(9_999, 0, 0)],
        &[Event::Enter(9_999), Event::Leave],
    )?;
    told(
        &rt,
        rt.alloc(),
        &[Record::leaf(255, 0)],
        &[Event::Byte(255)],
    )
}

#[test]
fn a_wrong_link_is_asked_before_its_record(rt: HostRuntime) -> Result<(), Fail> {
    let bad = Record::leaf(256, 0);
    let enter = [Event::Enter(0)];
    refused(
        &rt,
        rt.alloc(),
        &[Record::rule(0, 2, 0), bad, bad],
        &enter,
        Defect::BadLink,
        8,
    )?;
    refused(
        &rt,
        rt.alloc(),
        &[Record::rule(0, 1, 0), bad, bad],
        &enter,
        Defect::BadRecord,
        8,
    )
}

#[test]
fn roots_with_siblings_and_leaves_as_roots(rt: HostRuntime) -> Result<(), Fail> {
    let events = [Event::Enter(0), Event::Leave, Event::Enter(2), Event::Leave];
    told(
        &rt,
        rt.alloc(),
        &[Record::rule(0, 0, 1), Record::rule(2, 0, 0)],
        &events,
    )?;
    told(&rt, rt.alloc(), &[Record::leaf(55, 0)], &[Event::Byte(55)])?;
    told(
        &rt,
        rt.alloc(),
        &[Record::leaf(55, 1), Record::leaf(56, 0)],
        &[Event::Byte(55), Event::Byte(56)],
    )
}

#[test]
fn records_left_unread(rt: HostRuntime) -> Result<(), Fail> {
    let events = [Event::Enter(0), Event::Leave];
    refused(
        &rt,
        rt.alloc(),
        &[Record::rule(0, 0, 0), Record::leaf(55, 0)],
        &events,
        Defect::RecordsUnread,
        8,
    )?;
    refused(
        &rt,
        rt.alloc(),
        &[Record::leaf(55, 0), Record::leaf(256, 0)],
        &[Event::Byte(55)],
        Defect::RecordsUnread,
        8,
    )
}

fn wrong_length(rt: &impl Abort, bytes: &[u8]) {
    let mut table = LinkTable::new(bytes);
    faults(rt, &mut table, Defect::TableLength, 0);
}

#[test]
fn an_empty_table_ends_at_once(rt: HostRuntime) {
    let mut table = LinkTable::new(&[]);
    ends(&rt, &mut table);
}

#[test]
fn truncated_tables(rt: HostRuntime) {
    let bytes = [2u8, 0, 0, 55, 0, 0, 0, 0, 2];
    wrong_length(&rt, &bytes[0..1]);
    wrong_length(&rt, &bytes[0..7]);
    wrong_length(&rt, &bytes[0..9]);
}

#[test]
fn the_most_records(rt: HostRuntime) -> Result<(), Fail> {
    let bytes = wide(rt.alloc(), 7_999)?;
    assert!(rt; bytes.len() == 64_000);
    let mut table = LinkTable::new(bytes.as_slice());
    tells(&rt, &mut table, &[Event::Enter(0)]);
    tells_often(&rt, &mut table, Event::Byte(55), 7_999);
    tells(&rt, &mut table, &[Event::Leave]);
    ends(&rt, &mut table);
    Ok(())
}

#[test]
fn one_record_too_many(rt: HostRuntime) -> Result<(), Fail> {
    let bytes = wide(rt.alloc(), 8_000)?;
    assert!(rt; bytes.len() == 64_008);
    wrong_length(&rt, bytes.as_slice());
    Ok(())
}

#[test]
fn the_deepest_walk(rt: HostRuntime) -> Result<(), Fail> {
    let bytes = chain(rt.alloc(), 256, Record::leaf(55, 0))?;
    let mut table = LinkTable::new(bytes.as_slice());
    tells_often(&rt, &mut table, Event::Enter(0), 256);
    tells(&rt, &mut table, &[Event::Byte(55)]);
    tells_often(&rt, &mut table, Event::Leave, 256);
    ends(&rt, &mut table);
    Ok(())
}

// Behind 256 open nodes: a rule record is one too many, and out of form before that.
#[test]
fn one_node_too_deep(rt: HostRuntime) -> Result<(), Fail> {
    let bytes = chain(rt.alloc(), 256, Record::rule(0, 0, 0))?;
    let mut table = LinkTable::new(bytes.as_slice());
    tells_often(&rt, &mut table, Event::Enter(0), 256);
    faults(&rt, &mut table, Defect::TooManyOpen, 2_048);
    let bytes = chain(rt.alloc(), 256, Record::rule(10_000, 0, 0))?;
    let mut table = LinkTable::new(bytes.as_slice());
    tells_often(&rt, &mut table, Event::Enter(0), 256);
    faults(&rt, &mut table, Defect::BadRecord, 2_048);
    Ok(())
}
