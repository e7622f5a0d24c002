// What the reader of a link table does next.
ghost use Rattle.std.specs.Prelude.{◌≡◌, ℕ, ◌*◌, ◌≤◌};
ghost use Rattle.guide.specs.Steps.{Begun, decided, Decided};

use crate::records::{Record, split_record};
use crate::{Defect, Fault};

// The reader's phase: the table's length is wrong, its first record is to be read, or a link is to be followed.
#[derive(Clone, Copy)]
pub enum Phase {
    WrongLength,
    Begin,
    Walk,
}

// The reader stops at the end; it closes the newest open node, or finishes so where none is open; it opens a rule's node; it tells a leaf.
#[derive(Clone, Copy)]
pub enum Step {
    Stop,
    Close(Result<(), Fault>),
    Open {
        value: u16,
        child: u16,
        sibling: u16,
    },
    Tell {
        value: u8,
        sibling: u16,
    },
}

// The longest table that is read.
const MOST_BYTES: usize = 64_000;

// The phase in which the reader of a table begins, and the bytes that it has to read.
pub(crate) fn first_phase(bytes: &[u8]) -> (Phase, &[u8])
    ensures { Begun bytes.now result.0 result.1.now }
{
    if bytes.len() % 8 != 0 || bytes.len() > MOST_BYTES {
        return (Phase::WrongLength, &bytes[0..0]);
    }
    (Phase::Begin, bytes)
}

// The step in a phase, by the next record and the link to follow, where `read` records were read.
// The link is matched as it stands in its record, where 0 leads nowhere.
fn decide(
    phase: Phase,
    record: Option<Result<Record, Defect>>,
    link: u16,
    read: usize,
) -> Result<Step, Fault>
    requires { 8 * read ≤ 64000 }
    ensures { result ≡ decided phase «record» link read }
{
    let place = 8 * read;
    match (phase, record, link) {
        (Phase::WrongLength, _, _) => Err(Defect::TableLength.at(0)),
        (Phase::Begin, None, _) => Ok(Step::Stop),
        (Phase::Walk, None, 0) => Ok(Step::Close(Ok(()))),
        (Phase::Walk, Some(_), 0) => Ok(Step::Close(Err(Defect::RecordsUnread.at(place)))),
        (Phase::Walk, None, _) => Err(Defect::BadLink.at(place)),
        (Phase::Walk, Some(_), _) if link as usize != read => Err(Defect::BadLink.at(place)),
        (_, Some(Err(defect)), _) => Err(defect.at(place)),
        (
            _,
            Some(
                Ok(
                    Record::Rule {
                        value,
                        child,
                        sibling,
                    },
                ),
            ),
            _,
        ) => Ok(Step::Open {
            value,
            child,
            sibling,
        }),
        (_, Some(Ok(Record::Leaf { value, sibling })), _) => Ok(Step::Tell { value, sibling }),
    }
}

// The next step, and the part of the table behind the next record.
pub(crate) fn next_step(
    phase: Phase,
    unread: &[u8],
    link: u16,
    read: usize,
) -> Result<(Step, &[u8]), Fault>
    requires { 8 * read ≤ 64000 }
    ensures { Decided phase read unread.now link result }
{
    let (record, rest) = split_record(unread);
    Ok((decide(phase, record, link, read)?, rest))
}
