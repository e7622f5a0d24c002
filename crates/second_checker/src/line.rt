// The line of `cueline`.
use crate::answers::{Loaded, Reason, Refusal};
use crate::failure::answered;
use crate::numbers;
use crate::plain::house;
use crate::reading::read_listing;
use crate::sheet::Sheet;
use std::alloc::{AllocError, Global};

const MOST_INPUT: usize = 60_000;

const FRAMES: usize = 1_024;

// What is said of an input as cue 1 of an empty memory, and the line for it.
pub fn line_for(
    heap: Global,
    input: &[u8],
) -> Result<(Result<Loaded, Refusal>, String), AllocError> {
    let mut sheet = Sheet::new(heap);
    let said = load_alone(heap, &mut sheet, input)?;
    let line = match said {
        Ok(loaded) => {
            let free = sheet.free();
            format!(in heap; "{loaded} free={free}\n")?
        }
        Err(refusal) => {
            let refusal = numbers::Refusal::from(refusal);
            format!(in heap; "{refusal}\n")?
        }
    };
    Ok((said, line))
}

// The text stands before the first byte 10, and the listing behind it.
fn load_alone(
    heap: Global,
    sheet: &mut Sheet,
    input: &[u8],
) -> Result<Result<Loaded, Refusal>, AllocError> {
    if input.len() > MOST_INPUT {
        return Ok(Err(Reason::LongInput.into()));
    }
    let mut parts = input.splitn(2, |byte| *byte == 10);
    let text = parts.next().unwrap_or(input);
    let listing = parts.next().unwrap_or(&[]);
    let guided = read_listing(heap, listing)?;
    answered(sheet.load(heap, 1, text, &house(heap)?, &guided, FRAMES))
}
