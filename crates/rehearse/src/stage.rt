// What the next calls are handed, as the script has set it so far.
use crate::script::{Setting, Trouble};
use cues::calls::free;
use cues::requests::{Lent, Request, perform};
use grammar::barred::Barred;
use grammar::blanks::Blanks;
use grammar::house::House;
use guide::written::{Form, Written};
use memory::blocks::Blocks;
use packed::{Packed, base};
use report::line::{Answered, answer_line};
use std::alloc::{AllocError, Global};
use walk::state::Frame;

// The grammar is that of the table, which without any bytes is the house grammar; then blanks are let in if wanted, and then rules
// barred.
#[derive(Drop)]
pub struct Stage {
    table: Vec<u8>,
    blanks: bool,
    bars: Vec<u16>,
    text: Vec<u8>,
    form: Form,
    guide: Vec<u8>,
    frames: u16,
    buffer: u16,
}

impl Stage {
    // An empty text, an empty listing, the house grammar, and room for every lawful load and fetch.
    pub(crate) fn new(heap: Global) -> Stage {
        Stage {
            table: Vec::new(heap),
            blanks: false,
            bars: Vec::new(heap),
            text: Vec::new(heap),
            form: Form::Listing,
            guide: Vec::new(heap),
            frames: 1_024,
            buffer: 4_096,
        }
    }

    pub(crate) fn set(&mut self, heap: Global, setting: Setting<'_>) -> Result<(), Trouble> {
        match setting {
            Setting::House => self.table.clear(),
            Setting::Table(hex) => self.table = table_in(heap, hex)?,
            Setting::Blanks(on) => self.blanks = on,
            Setting::Bar(rule) => {
                Barred::new(House).bar(rule)?;
                self.bars.push(rule)?
            }
            Setting::NoBars => self.bars.clear(),
            Setting::Text(text) => self.text = text.as_bytes().to_vec(heap)?,
            Setting::TextBytes(hex) => self.text = bytes_in(heap, hex)?,
            Setting::Listing(lines) => {
                self.guide = listing_in(heap, lines)?;
                self.form = Form::Listing
            }
            Setting::Links(hex) => {
                self.guide = bytes_in(heap, hex)?;
                self.form = Form::Links
            }
            Setting::Frames(frames) => self.frames = frames,
            Setting::Buffer(bytes) => self.buffer = bytes,
        }
        Ok(())
    }

    // Makes the call, and gives its answer line.
    pub(crate) fn call(
        &self,
        heap: Global,
        memory: &mut Blocks,
        request: Request,
    ) -> Result<String, Trouble> {
        let base = base::open(self.table.as_slice())?;
        let mut grammar = Barred::new(Blanks::new(base, self.blanks));
        for rule in self.bars.iter() {
            grammar.bar(*rule)?;
        }
        let mut guide = Written::new(self.form, self.guide.as_slice());
        let mut frames = vec![in heap; Frame::BLANK; self.frames as usize]?;
        let mut buffer = vec![in heap; 0u8; self.buffer as usize]?;
        let answer = perform(
            memory,
            request,
            &mut Lent {
                text: self.text.as_slice(),
                grammar: &grammar,
                guide: &mut guide,
                frames: &mut frames,
                buffer: &mut buffer,
            },
        );
        let answered = Answered {
            answer,
            free: free(memory),
        };
        Ok(answer_line(heap, answered)?)
    }
}

// The bytes of a lawful packed table.
fn table_in(heap: Global, hex: &str) -> Result<Vec<u8>, Trouble> {
    let table = bytes_in(heap, hex)?;
    Packed::try_from(table.as_slice())?;
    Ok(table)
}

// Bytes that are written as two hexadecimal digits each, with blanks between them.
fn bytes_in(heap: Global, hex: &str) -> Result<Vec<u8>, Trouble> {
    hex.split_whitespace().map(byte_in).try_collect(heap)
}

fn byte_in(word: &str) -> Result<u8, Trouble> {
    match u8::from_str_radix(word, 16) {
        Ok(byte) if word.len() == 2 && !word.starts_with('+') => Ok(byte),
        _ => Err(Trouble::NotBytes),
    }
}

// A listing whose lines are written with blanks between them.
fn listing_in(heap: Global, lines: &str) -> Result<Vec<u8>, AllocError> {
    lines
        .split_whitespace()
        .flat_map(|line| line.bytes().chain([10]))
        .collect(heap)
}
