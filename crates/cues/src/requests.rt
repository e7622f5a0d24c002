// One entry for the four calls, and the law over every run of them.
ghost use Rattle.std.specs.Prelude.{◌≡◌};
ghost use Rattle.memory.specs.Texts.{no_texts};
ghost use Rattle.cues.specs.Sheet.{Performs};
ghost use Rattle.cues.specs.Law.{Begins, OnlyWhatIsLeftCounts, Performed};
ghost use Rattle.cues.specs.Requests.{call_of, state_of, FramesSpared, SameParts};

use crate::answers::{Answer, Refusal};
use crate::calls;
use grammar::Grammar;
use guide::Guide;
use memory::Memory;
use walk::state::Frame;

// A call without what is lent to it: scripts hold requests before anything is lent, and a clear has no guide whose type it could name.
#[derive(Clone, Copy, PartialEq, Eq)]
pub enum Request {
    Load(u16),
    Clear(u16),
    Fetch(u16),
    Free,
}

// What is lent to a request: a load reads the text, the grammar and the guide, and works in the frames; a fetch writes the buffer.
#[derive(Drop)]
pub struct Lent<'a, B, G> {
    pub text: &'a [u8],
    pub grammar: &'a B,
    pub guide: &'a mut G,
    pub frames: &'a mut [Frame],
    pub buffer: &'a mut [u8],
}

// Performs a request by the cue sheet, from which the law follows.
fn answer_to<M: Memory, B: Grammar, G: Guide>(
    memory: &mut M,
    request: Request,
    lent: &mut Lent<'_, B, G>,
) -> Result<Answer, Refusal>
    ensures sheet { Performs M.Memory.block_count (state_of (M.Memory.texts memory.old) G.Guide.told lent.old) (call_of B.Grammar.meaning G.Guide.told request lent.old) result (state_of (M.Memory.texts memory.new) G.Guide.told lent.new) }
    ensures frames { FramesSpared request lent.old.frames.now lent.new.frames.now }
    ensures parts { SameParts lent.old lent.new }
{
    match request {
        Request::Load(number) => calls::load(
            memory,
            number,
            lent.text,
            lent.grammar,
            lent.guide,
            lent.frames,
        )
        .map(Answer::Loaded),
        Request::Clear(number) => calls::clear(memory, number).map(Answer::Cleared),
        Request::Fetch(number) => calls::fetch(memory, number, lent.buffer).map(Answer::Fetched),
        Request::Free => Ok(Answer::Free(calls::free(memory))),
    }
}

// Performs one request. What a request does not need of what is lent it leaves alone. The contract is the law over every run of
// requests that led to this one.
pub fn perform<M: Memory, B: Grammar, G: Guide>(
    memory: &mut M,
    request: Request,
    lent: &mut Lent<'_, B, G>,
) -> Result<Answer, Refusal>
    ensures performed { Performed M.Memory.block_count (state_of (M.Memory.texts memory.old) G.Guide.told lent.old) (call_of B.Grammar.meaning G.Guide.told request lent.old) result (state_of (M.Memory.texts memory.new) G.Guide.told lent.new) }
    ensures frames { FramesSpared request lent.old.frames.now lent.new.frames.now }
    ensures parts { SameParts lent.old lent.new }
{
    answer_to(memory, request, lent)
}

// The same texts held, the same answer: the order in which they came makes no difference.
pub fn only_what_is_left_counts()
    ensures { OnlyWhatIsLeftCounts }
{}

// A memory that holds no text is where every run begins.
pub fn runs_begin_empty<M: Memory>(memory: &M)
    ensures { M.Memory.texts memory.now ≡ no_texts → Begins M.Memory.block_count (M.Memory.texts memory.now) }
{}
