// The calls of a script, one by one on one memory.
ghost use Rattle.std.specs.Prelude.{◌≡◌, ◌+◌, [], length, drop};
ghost use Rattle.std.specs.Result.{result_and};
ghost use Rattle.cues.specs.Sheet.{answer, next, buffer_after};
ghost use Rattle.fekhtovi.specs.declared.refused.Refused.TheVariants.{Call as RefusedCall};
ghost use Rattle.fekhtovi.specs.Answer.{refusing};
ghost use Rattle.fekhtovi.specs.Replay.{handing, may_load, call_in, result_of, answer_to, buffer_for, held_if_made, held_after, room_for, left, Replayed};
ghost use Rattle.fekhtovi.specs.Script.{scripted_in};

use crate::answer::FekhtoviAnswer;
use crate::bars::bar_all;
use crate::chosen::opened;
use crate::record::{RECORD, write_record};
use crate::refused::Refused;
use crate::script::{Call, Calls, Head};
use cues::answers::Answer;
use cues::requests::{Lent, Request, perform};
use grammar::barred::Barred;
use grammar::blanks::Blanks;
use grammar::either::Either;
use grammar::house::House;
use guide::written::{Form, Written};
use memory::Memory;
use packed::base::Base;
use walk::state::Frame;

// The frames that count.
const FRAMES: usize = 1_024;

// Loads what a call hands in under a cue number.
fn load<M: Memory>(
    memory: &mut M,
    number: u16,
    call: Call<'_>,
    frames: &mut [Frame; FRAMES],
) -> Result<Answer, Refused>
    ensures answers { let c = scripted_in call.entry in result ≡ result_and (may_load c) (refusing RefusedCall (answer M.Memory.block_count (M.Memory.texts memory.old) (handing (Request.Load number) c []))) }
    ensures texts { let c = scripted_in call.entry in M.Memory.texts memory.new ≡ held_if_made (may_load c) (M.Memory.texts memory.old) (next M.Memory.block_count (M.Memory.texts memory.old) (handing (Request.Load number) c [])) }
{
    let Call { head, fields } = call;
    let (base, form) = opened(head.form, fields.table)?;
    let mut guide = Written::new(form, fields.guide);
    let mut chosen = Barred::new(Blanks::new(base, head.blanks != 0));
    let bars = fields.bars.iter().map(|pair| u16::from_be_bytes(*pair));
    bar_all(&mut chosen, bars)?;
    let count = usize::from(head.frames).min(FRAMES);
    let mut lent = Lent {
        text: fields.text,
        grammar: &chosen,
        guide: &mut guide,
        frames: &mut frames[0..count],
        buffer: &mut [],
    };
    perform(memory, Request::Load(number), &mut lent).map_err(Refused::from)
}

// The bytes that a call takes of those for the answers: its record, and a fetch's buffer.
fn room_for(head: Head) -> usize
    ensures { result ≡ 80 + buffer_for head.request head.buffer }
{
    match head.request {
        Request::Fetch(_) => RECORD + usize::from(head.buffer),
        _ => RECORD,
    }
}

// The grammar of a load. A call that reads none is lent one of the same type: then the calls stand once in the library.
type Chosen<'a> = Barred<Blanks<Base<'a>>>;

// Makes one call, with a fetch's buffer. A call that is no load reads no grammar and no guide, and is lent what is at hand.
fn make<M: Memory>(
    memory: &mut M,
    call: Call<'_>,
    idle: &Chosen<'_>,
    frames: &mut [Frame; FRAMES],
    buffer: &mut [u8],
) -> Result<Answer, Refused>
    ensures answers { result ≡ result_of M.Memory.block_count (M.Memory.texts memory.old) (scripted_in call.entry) buffer.old }
    ensures texts { M.Memory.texts memory.new ≡ held_after M.Memory.block_count (M.Memory.texts memory.old) (scripted_in call.entry) buffer.old }
    ensures copy { buffer.new ≡ buffer_after (M.Memory.texts memory.old) (call_in (scripted_in call.entry) buffer.old) buffer.old }
{
    if let Request::Load(number) = call.head.request {
        return load(memory, number, call, frames);
    }
    let mut guide = Written::new(Form::Listing, call.fields.guide);
    let mut lent = Lent {
        text: call.fields.text,
        grammar: idle,
        guide: &mut guide,
        frames,
        buffer,
    };
    perform(memory, call.head.request, &mut lent).map_err(Refused::from)
}

// Makes one call, and leaves its record and a fetch's buffer in its place of the answers.
fn make_into<M: Memory>(
    memory: &mut M,
    call: Call<'_>,
    idle: &Chosen<'_>,
    frames: &mut [Frame; FRAMES],
    place: &mut [u8],
)
    requires { length place.old ≡ room_for (scripted_in call) }
    ensures left { place.new ≡ left M.Memory.block_count (M.Memory.texts memory.old) (scripted_in call.entry) place.old }
    ensures texts { M.Memory.texts memory.new ≡ held_after M.Memory.block_count (M.Memory.texts memory.old) (scripted_in call.entry) (drop 80 place.old) }
{
    let (record, buffer) = place.split_at_mut(RECORD);
    let answer = make(memory, call, idle, frames, buffer).map_or_else(
        FekhtoviAnswer::from,
        FekhtoviAnswer::from,
    );
    write_record(answer, record);
}

// Makes the calls of a script, until it ends or the answers are full, and says how many bytes of answers were written.
pub(crate) fn replay_on<M: Memory>(memory: &mut M, script: &[u8], answers: &mut [u8]) -> usize
    ensures { Replayed M.Memory.block_count (M.Memory.texts memory.old) script.now answers.old result answers.new }
{
    let idle: Chosen<'_> = Barred::new(Blanks::new(Either::First(House), false));
    let mut frames = [Frame::BLANK; FRAMES];
    // Counted: of a slice that shrinks at each turn a proof does not know what was written before.
    let mut written = 0;
    let calls = Calls { rest: script };
    for call in calls {
        let room = room_for(call.head);
        if room > answers.len() - written {
            return written;
        }
        make_into(
            memory,
            call,
            &idle,
            &mut frames,
            &mut answers[written..written + room],
        );
        written += room;
    }
    written
}
