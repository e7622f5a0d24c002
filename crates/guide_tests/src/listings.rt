// Listings: the three forms, every way to miss them, and the longest listing.
use crate::expect::{ends, faults, tells, tells_often};
use guide::listing::Listing;
use guide::{Defect, Event};
use std::alloc::{AllocError, Global};
use std::process::Abort;
use std::test::Fail;

// The lines are told, and then the line at the offset is refused.
fn refused_at(rt: &impl Abort, bytes: &[u8], events: &[Event], offset: usize) {
    let mut listing = Listing::new(bytes);
    tells(rt, &mut listing, events);
    faults(rt, &mut listing, Defect::BadLine, offset);
}

// A line so many times.
fn repeated(heap: Global, line: &[u8], times: usize) -> Result<Vec<u8>, AllocError> {
    let mut bytes = Vec::new(heap);
    for _ in 0..times {
        bytes.extend_from_slice(line)?;
    }
    Ok(bytes)
}

#[test]
fn the_three_forms(rt: HostRuntime) {
    let mut listing = Listing::new(b"(0\n(9999\n=00\n=4a\n=ff\n)\n)\n");
    tells(&rt, &mut listing, &[Event::Enter(0), Event::Enter(9_999)]);
    tells(
        &rt,
        &mut listing,
        &[Event::Byte(0), Event::Byte(0x4a), Event::Byte(255)],
    );
    tells(&rt, &mut listing, &[Event::Leave, Event::Leave]);
    ends(&rt, &mut listing);
}

#[test]
fn the_listing_of_seven_at_five(rt: HostRuntime) {
    let mut listing = Listing::new(b"(0\n(2\n(3\n=37\n)\n=40\n(3\n=35\n)\n)\n)\n");
    tells(&rt, &mut listing, &[Event::Enter(0), Event::Enter(2)]);
    tells(
        &rt,
        &mut listing,
        &[Event::Enter(3), Event::Byte(b'7'), Event::Leave],
    );
    tells(&rt, &mut listing, &[Event::Byte(b'@')]);
    tells(
        &rt,
        &mut listing,
        &[Event::Enter(3), Event::Byte(b'5'), Event::Leave],
    );
    tells(&rt, &mut listing, &[Event::Leave, Event::Leave]);
    ends(&rt, &mut listing);
}

#[test]
fn whether_brackets_match_is_not_asked(rt: HostRuntime) {
    let mut listing = Listing::new(b")\n(7\n");
    tells(&rt, &mut listing, &[Event::Leave, Event::Enter(7)]);
    ends(&rt, &mut listing);
}

#[test]
fn rule_numbers(rt: HostRuntime) {
    // leading zero
    refused_at(&rt, b"(00\n", &[], 0);
    // five digits
    refused_at(&rt, b"(10000\n", &[], 0);
    // no digit
    refused_at(&rt, b"(\n", &[], 0);
    // a letter
    refused_at(&rt, b"(1a\n", &[], 0);
    // a blank
    refused_at(&rt, b"( 1\n", &[], 0);
}

#[test]
fn hexadecimal_bytes(rt: HostRuntime) {
    // upper case
    refused_at(&rt, b"=4A\n", &[], 0);
    // one digit
    refused_at(&rt, b"=4\n", &[], 0);
    // three digits
    refused_at(&rt, b"=4aa\n", &[], 0);
    // no digit
    refused_at(&rt, b"=4g\n", &[], 0);
}

#[test]
fn the_place_is_where_the_line_begins(rt: HostRuntime) {
    // something behind a bracket
    refused_at(
        &rt,
        b"(0\n=37\n)x\n",
        &[Event::Enter(0), Event::Byte(0x37)],
        7,
    );
    // an empty line
    refused_at(&rt, b"(12\n\n)\n", &[Event::Enter(12)], 4);
    // no last ending
    refused_at(&rt, b"(0\n)", &[Event::Enter(0)], 3);
    // a carriage return
    refused_at(&rt, b"(0\n)\r\n", &[Event::Enter(0)], 3);
    // another first byte
    refused_at(&rt, b"=37\n?\n", &[Event::Byte(0x37)], 4)
}

#[test]
fn an_empty_listing_ends_at_once(rt: HostRuntime) {
    ends(&rt, &mut Listing::new(&[]));
}

#[test]
fn the_longest_listing(rt: HostRuntime) -> Result<(), Fail> {
    let bytes = repeated(rt.alloc(), b"=37\n", 16_000)?;
    assert!(rt; bytes.len() == 64_000);
    let mut listing = Listing::new(bytes.as_slice());
    tells_often(&rt, &mut listing, Event::Byte(0x37), 16_000);
    ends(&rt, &mut listing);
    Ok(())
}

#[test]
fn a_listing_one_byte_too_long(rt: HostRuntime) -> Result<(), Fail> {
    let mut bytes = repeated(rt.alloc(), b"=37\n", 15_999)?;
    bytes.extend_from_slice(b"(123\n")?;
    assert!(rt; bytes.len() == 64_001);
    faults(
        &rt,
        &mut Listing::new(bytes.as_slice()),
        Defect::ListingTooLong,
        0,
    );
    Ok(())
}
