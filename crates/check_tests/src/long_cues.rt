// Long cues with their listings, for tests at the limits.
use std::alloc::{AllocError, Global};

// A cue in the making. `blank` is the listing of a blank that takes no space, where the grammar asks for one between parts.
#[derive(Drop)]
pub struct Cue<'a> {
    pub text: Vec<u8>,
    pub listing: Vec<u8>,
    blank: &'a [u8],
    settings: usize,
}

impl<'a> Cue<'a> {
    pub(crate) fn new(heap: Global, blank: &'a [u8]) -> Cue<'a> {
        Cue {
            text: Vec::new(heap),
            listing: Vec::new(heap),
            blank,
            settings: 0,
        }
    }

    // A byte between two parts.
    fn between(&mut self, byte: &[u8]) -> Result<(), AllocError> {
        self.listing.extend_from_slice(self.blank)?;
        self.listing.extend_from_slice(byte)?;
        self.listing.extend_from_slice(self.blank)
    }

    // A setting whose number has so many digits, at the level 0.
    fn set(&mut self, digits: usize) -> Result<(), AllocError> {
        self.listing.extend_from_slice(b"(2\n")?;
        for _ in 1..digits {
            self.text.push(b'0')?;
            self.listing.extend_from_slice(b"(4\n=30\n")?;
        }
        self.text.extend_from_slice(b"0@0")?;
        self.listing.extend_from_slice(b"(3\n=30\n)\n")?;
        for _ in 1..digits {
            self.listing.extend_from_slice(b")\n")?;
        }
        self.between(b"=40\n")?;
        self.listing.extend_from_slice(b"(3\n=30\n)\n)\n")
    }

    // A setting that others follow.
    pub(crate) fn add(&mut self, digits: usize) -> Result<(), AllocError> {
        self.listing.extend_from_slice(b"(1\n")?;
        self.set(digits)?;
        self.text.push(b';')?;
        self.settings = self.settings.saturating_add(1);
        self.between(b"=3b\n")
    }

    // The last setting, and the leaves of all cues.
    pub(crate) fn add_last(&mut self, digits: usize) -> Result<(), AllocError> {
        self.listing.extend_from_slice(b"(0\n")?;
        self.set(digits)?;
        for _ in 0..self.settings {
            self.listing.extend_from_slice(b")\n")?;
        }
        self.listing.extend_from_slice(b")\n")
    }
}
