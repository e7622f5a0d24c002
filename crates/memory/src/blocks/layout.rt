// Loops over owners and blocks.
ghost use Rattle.std.specs.Prelude.{◌≡◌, ◌≤◌, length, take};
ghost use Rattle.memory.specs.Texts.{blocks_for};
ghost use Rattle.memory.specs.Blocks.{gathered, owned, unused, released, IsLastUnused, Placed};

use crate::BLOCK_BYTES;
use crate::number::Number;

// Gives back the blocks of a number.
pub(crate) fn release(owners: &mut [Option<Number>], number: Number)
    ensures { owners.new ≡ released number owners.old }
{
    for owner in owners.iter_mut() {
        if *owner == Some(number) {
            *owner = None;
        }
    }
}

// Copies the first bytes of a number's blocks into the whole buffer.
pub(crate) fn gather(
    owners: &[Option<Number>],
    blocks: &[[u8; BLOCK_BYTES]],
    number: Number,
    buffer: &mut [u8],
)
    requires { (length owners.now ≡ length blocks.now) × (length buffer.old ≤ length (gathered number owners.now blocks.now)) }
    ensures { buffer.new ≡ take (length buffer.old) (gathered number owners.now blocks.now) }
{
    // Counted: of what goes into `chunks_mut`, or into a slice that shrinks at each turn, a proof knows nothing after the loop.
    let mut done = 0;
    for (owner, block) in owners.iter().rev().zip(blocks.iter().rev()) {
        if *owner == Some(number) {
            let piece = (buffer.len() - done).min(BLOCK_BYTES);
            buffer[done..done + piece].copy_from_slice(&block[..piece]);
            done += piece;
        }
    }
}

// The last of these blocks without an owner.
fn last_unused(owners: &[Option<Number>]) -> Option<usize>
    ensures { IsLastUnused owners.now result }
{
    owners.iter().rposition(|owner| owner.is_none())
}

// Writes a text into unused blocks, from the last block down, and makes them the number's.
pub(crate) fn place(
    owners: &mut [Option<Number>],
    blocks: &mut [[u8; BLOCK_BYTES]],
    number: Number,
    text: &[u8],
)
    requires level { length owners.old ≡ length blocks.old }
    requires absent { owned number owners.old ≡ 0 }
    requires room { blocks_for (length text.now) ≤ unused owners.old }
    ensures { Placed number text.now owners.old blocks.old owners.new blocks.new }
{
    let mut end = owners.len();
    for piece in text.chunks(BLOCK_BYTES) {
        // There is one, since there is room.
        let Some(last) = last_unused(&owners[..end]) else {
            return;
        };
        blocks[last][0..piece.len()].copy_from_slice(piece);
        owners[last] = Some(number);
        end = last;
    }
}
