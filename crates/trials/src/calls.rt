// Random calls.
use crate::damage::{bend, pad, random_byte, random_move, shake};
use crate::moves::{deeper_record, depth_of, records_of, spell, write_listing};
use crate::random::Random;
use crate::scenes::{Call, Taste};
use crate::trees::{Budget, grow, grow_exactly};
use cues::requests::Request;
use guide::written::Form;
use second_checker::plain::Plain;
use second_checker::sheet::Sheet;
use second_checker::writing::write_records;
use second_checker::{Move, narrow};
use std::alloc::{AllocError, Global};

// Most requests are loads. A clear or a fetch is mostly of a number that is held.
pub(crate) fn random_request(random: &mut Random, taste: Taste, sheet: &Sheet) -> Request {
    let number = random_number(random, taste);
    let held = if random.chance(60) {
        held_number(sheet, number)
    } else {
        number
    };
    match random.below(20) {
        0 | 1 => Request::Clear(held),
        2 | 3 | 4 | 5 => Request::Fetch(held),
        6 => Request::Free,
        _ => Request::Load(number),
    }
}

// A cue number. Small texts have small numbers, so that many of these are held already; long ones are to fill the memory first.
fn random_number(random: &mut Random, taste: Taste) -> u16 {
    let most = match taste {
        Taste::Small | Taste::Deep => 20,
        Taste::Long | Taste::Counted => 120,
    };
    if random.chance(5) {
        random.one_of(&[0, 121, 122, 257, 376, 65_535])
    } else {
        narrow(random.between(1, most))
    }
}

// The first number behind another, all round from 1 to 120, that is held; the other where none is.
fn held_number(sheet: &Sheet, number: u16) -> u16 {
    let mut behind = (0..120u16).map(|i| number.wrapping_add(i) % 120 + 1);
    let held = behind.find(|candidate| sheet.text(*candidate).is_some());
    held.unwrap_or(number)
}

// A call that is no load. Its guide has an event, so that it shows whether the call has read it.
pub(crate) fn bare_call(heap: Global, request: Request, buffer: usize) -> Result<Call, AllocError> {
    Ok(Call {
        request,
        text: Vec::new(heap),
        form: Form::Listing,
        guide: write_listing(heap, &[Move::Enter(0)])?,
        frames: 0,
        buffer,
    })
}

// The length of a buffer, about that of the text to be fetched.
pub(crate) fn random_buffer(random: &mut Random, request: Request, sheet: &Sheet) -> usize {
    let held = match request {
        Request::Fetch(number) => sheet.text(number).map_or(0, |text| text.len()),
        _ => 0,
    };
    let shorter = held.saturating_sub(1);
    let longer = held.saturating_add(100);
    random.one_of(&[held, shorter, longer, 0, 4_096])
}

// A load of a random tree's text, with its guide. Any of what it is handed may be damaged, but for one load in three.
pub(crate) fn load_call(
    heap: Global,
    random: &mut Random,
    request: Request,
    taste: Taste,
    grammar: &Plain,
    free: usize,
) -> Result<Call, AllocError> {
    let mut moves = random_tree(heap, random, taste, grammar, free)?;
    let mut call = fair_load(heap, random, request, moves.as_slice())?;
    if random.chance(33) {
        return Ok(call);
    }
    call.text = make_text(heap, random, moves.as_slice())?;
    call.frames = random_frames(random, depth_of(moves.as_slice()));
    if random.chance(25) {
        let new = random_move(random);
        shake(random, &mut moves, new)?;
    }
    if random.chance(5) {
        moves.push(random_move(random))?;
    }
    call.guide = match call.form {
        Form::Listing => make_listing(heap, random, moves.as_slice())?,
        Form::Links => make_link_table(heap, random, moves.as_slice())?,
    };
    Ok(call)
}

// A load of what the moves spell, with their guide in one of the two forms and enough frames.
fn fair_load(
    heap: Global,
    random: &mut Random,
    request: Request,
    moves: &[Move],
) -> Result<Call, AllocError> {
    let (form, guide) = if random.chance(50) {
        (Form::Listing, write_listing(heap, moves)?)
    } else {
        let records = records_of(heap, moves)?;
        (Form::Links, write_records(heap, records.as_slice())?)
    };
    Ok(Call {
        request,
        text: spell(heap, moves)?,
        form,
        guide,
        frames: 1_024,
        buffer: random.below(3),
    })
}

// A tree to the run's taste. Where its bytes are counted, they may be just as many as fit into the free blocks, or one more.
fn random_tree(
    heap: Global,
    random: &mut Random,
    taste: Taste,
    grammar: &Plain,
    free: usize,
) -> Result<Vec<Move>, AllocError> {
    let budget = match taste {
        Taste::Small => Budget {
            moves: random.one_of(&[5, 20, 60, 200]),
            depth: random.one_of(&[3, 6, 12]),
            tries: 1,
        },
        Taste::Long => Budget {
            moves: random.one_of(&[20, 200, 1_000, 2_000, 3_500, 4_500]),
            depth: random.one_of(&[4, 8, 20]),
            tries: 4,
        },
        Taste::Deep => Budget {
            moves: random.one_of(&[600, 1_500, 3_000]),
            depth: random.one_of(&[200, 254, 255, 256, 257, 300, 1_022, 1_023, 1_024, 1_025]),
            tries: 3,
        },
        Taste::Counted => {
            let limit = random.one_of(&[7_999, 8_000, 8_001]);
            let nodes = random.one_of(&[1, 2, 600, 600, 600, 600, 600, limit, limit]);
            let full = free.saturating_mul(64).min(4_096);
            let over = full.saturating_add(1);
            let bytes = random.one_of(&[0, 1, 64, 65, 4_095, 4_096, 4_096, full, full, over]);
            let bytes = if nodes > 600 { 0 } else { bytes };
            return grow_exactly(heap, random, nodes, bytes);
        }
    };
    grow(heap, random, grammar, budget)
}

// The text of a tree, sometimes another, sometimes about as long as a text may be.
fn make_text(heap: Global, random: &mut Random, moves: &[Move]) -> Result<Vec<u8>, AllocError> {
    let mut text = spell(heap, moves)?;
    match random.below(50) {
        0..=3 => {
            let new = random.byte();
            shake(random, &mut text, new)?
        }
        4 => text.push(random.byte())?,
        5 => {
            let length = random.between(4_095, 4_098);
            return pad(heap, text, b'7', length);
        }
        _ => {}
    }
    Ok(text)
}

// Mostly enough frames for a tree of that depth, else about as many as it needs, or few.
fn random_frames(random: &mut Random, depth: usize) -> usize {
    let one_less = depth.saturating_sub(1);
    match random.below(10) {
        0 => depth,
        1 => random.one_of(&[one_less, one_less, depth.saturating_add(1)]),
        2 => random.one_of(&[0, 1, 2, 3, 5, 1_023, 1_025, 3_000]),
        _ => 1_024,
    }
}

// The listing of the moves, sometimes damaged, sometimes about as long as a listing may be.
fn make_listing(heap: Global, random: &mut Random, moves: &[Move]) -> Result<Vec<u8>, AllocError> {
    let mut listing = write_listing(heap, moves)?;
    match random.below(60) {
        0..=7 => {
            let new = random_byte(random);
            shake(random, &mut listing, new)?
        }
        8 => {
            let length = random.between(63_999, 64_002);
            return pad(heap, listing, b')', length);
        }
        9 | 10 => listing.push(random_byte(random))?,
        _ => {}
    }
    Ok(listing)
}

// The link table of the moves, its records and its bytes sometimes damaged, sometimes about as long as a table may be.
fn make_link_table(
    heap: Global,
    random: &mut Random,
    moves: &[Move],
) -> Result<Vec<u8>, AllocError> {
    let mut records = records_of(heap, moves)?;
    if let Some(number) = deeper_record(moves)
        && random.chance(50)
    {
        bend(random, &mut records, number);
    }
    if random.chance(15) {
        let number = random.below(records.len());
        bend(random, &mut records, number);
        if random.chance(40) {
            bend(random, &mut records, number.saturating_sub(1));
        }
    }
    if random.chance(10)
        && let Some(record) = records.first().copied()
    {
        shake(random, &mut records, record)?;
    }
    let mut table = write_records(heap, records.as_slice())?;
    match random.below(40) {
        0 | 1 => {
            let new = random.byte();
            shake(random, &mut table, new)?
        }
        2 => {
            let length = random.one_of(&[63_999, 64_000, 64_001, 64_008]);
            return pad(heap, table, 2, length);
        }
        _ => {}
    }
    Ok(table)
}
