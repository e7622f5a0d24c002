// Where a refusal points, and the bytes that stand there: for a person who looks for the mistake.
ghost use Rattle.std.specs.Prelude.{◌≡◌, take, drop};
ghost use Rattle.report.specs.Spot.{spot_length, points_at, spotted, StandsAt};

use cues::answers::Refusal;
use tree::verdict::Reason;

// An offset in the text, or in the guide's bytes.
#[derive(Clone, Copy, PartialEq, Eq)]
pub enum Place {
    InText(usize),
    InGuide(usize),
}

// How many bytes are handed out, where there are so many.
const SPOT_LENGTH: usize = 16;

// Where the refusal points, or None where it points nowhere.
pub fn place_of(refusal: Refusal) -> Option<Place>
    ensures { result ≡ points_at refusal }
{
    let Refusal::Check(refusal) = refusal else {
        return None;
    };
    match refusal.reason {
        Reason::GuideFault(fault) => Some(Place::InGuide(fault.place)),
        Reason::ByteNotAllowed | Reason::ByteNotNext | Reason::TextLeft => {
            Some(Place::InText(refusal.bytes))
        }
        _ => None,
    }
}

// The bytes from an offset on; an offset past the end counts as the end.
fn part_from(bytes: &[u8], at: usize) -> &[u8]
    ensures { result.now ≡ take spot_length (drop at bytes.now) }
{
    let rest = &bytes[at.min(bytes.len())..];
    &rest[0..rest.len().min(SPOT_LENGTH)]
}

// The part of the text or of the guide's bytes at which the refusal points; otherwise the empty start of the text.
pub fn spot<'a>(refusal: Refusal, text: &'a [u8], guide: &'a [u8]) -> &'a [u8]
    ensures bytes { result.now ≡ spotted (points_at refusal) text.now guide.now }
    ensures stands { StandsAt (points_at refusal) text.now guide.now result.now }
{
    match place_of(refusal) {
        Some(Place::InText(at)) => part_from(text, at),
        Some(Place::InGuide(at)) => part_from(guide, at),
        None => &text[0..0],
    }
}
