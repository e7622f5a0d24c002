// A guide written as a listing: one event a line.
ghost use Rattle.std.specs.Prelude.{◌≡◌, ℕ, ◌≤◌, length};
ghost use Rattle.guide.specs.Listing.{listing, listing_from};
ghost use Rattle.guide.specs.ListingBounds.{listing_in_range};

use crate::lines::read_line;
use crate::{Defect, Event, Fault, Guide};

// The longest listing that is read.
const MOST_BYTES: usize = 64_000;

// A listing, of which the bytes before `offset` were told.
#[derive(Clone, Copy)]
pub struct Listing<'a> {
    bytes: &'a [u8],
    offset: usize,
    ghost within: { offset ≤ length bytes.now },
}

impl<'a> Listing<'a> {
    pub fn new(bytes: &'a [u8]) -> Listing<'a>
        ensures { ⟦<Listing<'a> as Guide>⟧.told result ≡ listing bytes.now }
    {
        Listing { bytes, offset: 0 }
    }
}

impl<'a> Guide for Listing<'a> {
    ghost told = { λ s. listing_from s.bytes.now s.offset };

    ghost bounds = { λ s. listing_in_range s.bytes.now s.offset };

    fn next(&mut self) -> Result<Option<Event>, Fault> {
        let bytes = self.bytes;
        let offset = self.offset;
        if bytes.len() > MOST_BYTES {
            return Err(Defect::ListingTooLong.at(0));
        }
        if offset >= bytes.len() {
            return Ok(None);
        }
        let (event, behind) = read_line(bytes, offset).ok_or(Defect::BadLine.at(offset))?;
        self.offset = behind;
        Ok(Some(event))
    }
}
