// The second memory: a map from numbers to texts.
use crate::answers::{Loaded, Reason, Refusal};
use crate::failure::Failure;
use crate::judge::judge;
use crate::plain::Plain;
use crate::reading::Guided;
use std::alloc::Global;
use std::collections::BTreeMap;

const BLOCKS: usize = 512;

const BLOCK: usize = 64;

const LONGEST_TEXT: usize = 4_096;

const LAST_NUMBER: u16 = 120;

#[derive(Drop)]
pub struct Sheet {
    held: BTreeMap<u16, Vec<u8>>,
}

fn may_name(number: u16) -> Result<(), Reason> {
    if (1..=LAST_NUMBER).contains(&number) {
        Ok(())
    } else {
        Err(Reason::NumberOutside)
    }
}

impl Sheet {
    pub fn new(heap: Global) -> Sheet {
        Sheet {
            held: BTreeMap::new(heap),
        }
    }

    pub fn text(&self, number: u16) -> Option<&Vec<u8>> {
        self.held.get(&number)
    }

    pub fn free(&self) -> usize {
        self.held.values().fold(BLOCKS, |free, text| {
            free.saturating_sub(text.len().div_ceil(BLOCK))
        })
    }

    // The first of the questions before the check that is answered no.
    fn may_load(&self, number: u16, text: &[u8]) -> Result<(), Reason> {
        may_name(number)?;
        if self.held.contains_key(&number) {
            Err(Reason::AlreadyHeld)
        } else if text.len() > LONGEST_TEXT {
            Err(Reason::LongText)
        } else if text.len().div_ceil(BLOCK) > self.free() {
            Err(Reason::NoRoom)
        } else {
            Ok(())
        }
    }

    pub fn load(
        &mut self,
        heap: Global,
        number: u16,
        text: &[u8],
        grammar: &Plain,
        guided: &Guided,
        frames: usize,
    ) -> Result<Loaded, Failure<Refusal>> {
        self.may_load(number, text)?;
        let loaded = judge(heap, grammar, guided, text, frames)?;
        let _ = self.held.insert(number, text.to_vec(heap)?)?;
        Ok(loaded)
    }

    pub fn clear(&mut self, number: u16) -> Result<(), Reason> {
        may_name(number)?;
        match self.held.remove(&number) {
            Some(_) => Ok(()),
            None => Err(Reason::NotHeld),
        }
    }

    // Copies the text to the head of the buffer, and gives its length.
    pub fn fetch(&self, number: u16, buffer: &mut [u8]) -> Result<usize, Reason> {
        may_name(number)?;
        let text = self.text(number).ok_or(Reason::NotHeld)?;
        let room = buffer.get_mut(..text.len()).ok_or(Reason::ShortBuffer)?;
        room.copy_from_slice(text.as_slice());
        Ok(text.len())
    }
}
