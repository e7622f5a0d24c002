// The line of `cueline`, against the line that the second checker makes.
use crate::answers::Answer;
use crate::damage::{pad, random_byte, random_move, shake};
use crate::moves::{spell, write_listing};
use crate::random::Random;
use crate::tally::Tally;
use crate::trees::{Budget, grow};
use second_checker::answers::Said;
use second_checker::line::line_for;
use second_checker::numbers::Refusal;
use second_checker::plain::house;
use std::alloc::{AllocError, Global};

pub(crate) fn compare_line(
    heap: Global,
    random: &mut Random,
    tally: &mut Tally,
) -> Result<(), AllocError> {
    let input = make_input(heap, random)?;
    let (said, by_second) = line_for(heap, input.as_slice())?;
    let by_product = report::answer(heap, input.as_slice())?;
    tally.lines += 1;
    tally.hear(Answer(said.map(Said::Loaded).map_err(Refusal::from)));
    tally.compare(heap, "line", &by_product, &by_second)
}

// A text of the house grammar, byte 10 and its listing; any of it may be damaged, and sometimes it is about as long as an input may be.
fn make_input(heap: Global, random: &mut Random) -> Result<Vec<u8>, AllocError> {
    let budget = Budget {
        moves: random.one_of(&[10, 40, 200]),
        depth: random.one_of(&[4, 10, 40]),
        tries: 1,
    };
    let mut moves = grow(heap, random, &house(heap)?, budget)?;
    let mut input = spell(heap, moves.as_slice())?;
    input.push(10)?;
    if random.chance(20) {
        let new = random_move(random);
        shake(random, &mut moves, new)?;
    }
    input.extend_from_slice(write_listing(heap, moves.as_slice())?.as_slice())?;
    match random.below(30) {
        0..=4 => {
            let new = random_byte(random);
            shake(random, &mut input, new)?
        }
        5 => {
            let length = random.between(59_999, 60_002);
            return pad(heap, input, b')', length);
        }
        _ => {}
    }
    Ok(input)
}
