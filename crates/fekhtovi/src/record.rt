// An answer as bytes.
ghost use Rattle.std.specs.Prelude.{◌≡◌, ◌*◌, length};
ghost use Rattle.fekhtovi.specs.Record.{numbers_in, all_bytes, encoded};

use crate::answer::FekhtoviAnswer;

// The bytes of a record: ten numbers of eight bytes.
pub(crate) const RECORD: usize = 80;

// The numbers in the order of a record.
fn numbers(answer: FekhtoviAnswer) -> [u64; 10]
    ensures { result ≡ numbers_in answer }
{
    [
        answer.refusal as u64,
        answer.rules as u64,
        answer.steps as u64,
        answer.events as u64,
        answer.fault as u64,
        answer.rule as u64,
        answer.cleared as u64,
        answer.free as u64,
        answer.bytes as u64,
        answer.place as u64,
    ]
}

// Writes numbers into bytes, eight for each. No loop over chunks: std says nothing of what a slice ends as whose chunks are lent so.
fn put(numbers: &[u64], bytes: &mut [u8])
    requires { length bytes.old ≡ 8 * length numbers.now }
    ensures { bytes.new ≡ all_bytes numbers.now }
{
    if let [number, others @ ..] = numbers {
        let (eight, behind) = bytes.split_at_mut(8);
        eight.copy_from_slice(&number.to_be_bytes());
        put(others, behind);
    }
}

// Writes the record of an answer.
pub(crate) fn write_record(answer: FekhtoviAnswer, place: &mut [u8])
    requires { length place.old ≡ 80 }
    ensures { place.new ≡ encoded answer }
{
    put(&numbers(answer), place);
}
