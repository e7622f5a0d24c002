// What the product answers, in the form in which both checkers are compared.
use crate::answers::{Answer, Refused, Told};
use crate::scenes::{Call, Layers, Scene};
use cues::answers;
use cues::answers::Refusal;
use cues::requests::{Lent, perform};
use grammar::barred::Barred;
use grammar::house::House;
use grammar::spaced::Spaced;
use grammar::{Grammar, Mark, Part};
use guide::written::Written;
use guide::{Event, Fault, Guide};
use memory::blocks::Blocks;
use packed::Packed;
use second_checker::answers::{Loaded, Said};
use second_checker::plain::{Piece, Plain, Rule};
use second_checker::{Move, narrow, numbers};
use std::alloc::{AllocError, Global};
use tree::verdict;
use tree::verdict::Reason;
use walk::state::Frame;

// The answer, what the guide says next, and whether the grammar answers every question as the plain one.
#[derive(Clone, Copy)]
pub struct Heard {
    pub answer: Answer,
    pub told: Told,
    pub same_grammar: bool,
}

// Whether the product refuses a table.
pub(crate) fn table_refusal(table: &[u8]) -> Refused {
    let fault = Packed::try_from(table).err();
    Refused(fault.map(|fault| (fault.number(), usize::from(fault.rule()))))
}

// Whether the product refuses to bar a rule number.
pub(crate) fn bar_refusal(number: u16) -> Refused {
    let refusal = Barred::new(House).bar(number).err();
    Refused(refusal.map(|refusal| (refusal.number(), usize::from(number))))
}

// Makes the call under the scene's grammar.
pub(crate) fn make_call(
    heap: Global,
    memory: &mut Blocks,
    scene: &Scene,
    call: &Call,
    buffer: &mut [u8],
) -> Result<Heard, AllocError> {
    match &scene.table {
        None => under(heap, memory, scene, call, buffer, House),
        Some(table) => {
            let (grammar, _) = Packed::open(table.as_slice());
            under(heap, memory, scene, call, buffer, grammar)
        }
    }
}

// A number that is refused changes nothing.
fn barring<B: Grammar>(below: B, bars: &[u16]) -> Barred<B> {
    let mut grammar = Barred::new(below);
    for number in bars {
        let _ = grammar.bar(*number);
    }
    grammar
}

// Each pile of layers is a type of its own.
fn under<B: Grammar + Drop>(
    heap: Global,
    memory: &mut Blocks,
    scene: &Scene,
    call: &Call,
    buffer: &mut [u8],
    below: B,
) -> Result<Heard, AllocError> {
    let bars = scene.bars.as_slice();
    let plain = &scene.plain;
    match scene.layers {
        Layers::Bare => with(heap, memory, plain, call, buffer, &below),
        Layers::Blanks => with(heap, memory, plain, call, buffer, &Spaced::new(below)),
        Layers::Bars => with(heap, memory, plain, call, buffer, &barring(below, bars)),
        Layers::BlanksOverBars => {
            let grammar = Spaced::new(barring(below, bars));
            with(heap, memory, plain, call, buffer, &grammar)
        }
        Layers::BarsOverBlanks => {
            let grammar = barring(Spaced::new(below), bars);
            with(heap, memory, plain, call, buffer, &grammar)
        }
        Layers::BlanksTwice => {
            let grammar = Spaced::new(Spaced::new(below));
            with(heap, memory, plain, call, buffer, &grammar)
        }
    }
}

fn with<B: Grammar>(
    heap: Global,
    memory: &mut Blocks,
    plain: &Plain,
    call: &Call,
    buffer: &mut [u8],
    grammar: &B,
) -> Result<Heard, AllocError> {
    let mut frames = vec![in heap; Frame::BLANK; call.frames]?;
    let mut lent = Lent {
        text: call.text.as_slice(),
        grammar,
        guide: &mut Written::new(call.form, call.guide.as_slice()),
        frames: &mut frames,
        buffer,
    };
    let answer = perform(memory, call.request, &mut lent);
    Ok(Heard {
        answer: Answer::from(answer),
        told: Told::from(lent.guide.next()),
        same_grammar: answers_alike(grammar, plain),
    })
}

impl From<Result<answers::Answer, Refusal>> for Answer {
    fn from(answer: Result<answers::Answer, Refusal>) -> Answer {
        Answer(answer.map(said_by).map_err(refusal_by))
    }
}

impl From<Result<Option<Event>, Fault>> for Told {
    fn from(told: Result<Option<Event>, Fault>) -> Told {
        Told(told.map(|event| event.map(move_by)).map_err(fault_by))
    }
}

// By functions, as the three below: what they turn and into what are types of other crates, for which no `From` can stand here.
fn said_by(answer: answers::Answer) -> Said {
    match answer {
        answers::Answer::Loaded(accepted) => Said::Loaded(Loaded {
            rules: accepted.rules as usize,
            bytes: accepted.bytes,
            steps: accepted.steps as usize,
        }),
        answers::Answer::Cleared(number) => Said::Cleared(number),
        answers::Answer::Fetched(length) => Said::Fetched(length),
        answers::Answer::Free(blocks) => Said::Free(usize::from(blocks)),
    }
}

fn refusal_by(refusal: Refusal) -> numbers::Refusal {
    let fault = match refusal {
        Refusal::Check(
            verdict::Refusal {
                reason: Reason::GuideFault(fault),
                ..
            },
        ) => Some(fault_by(fault)),
        _ => None,
    };
    numbers::Refusal {
        number: refusal.number(),
        events: refusal.events() as usize,
        bytes: refusal.bytes(),
        fault,
    }
}

fn fault_by(fault: Fault) -> numbers::Fault {
    numbers::Fault {
        number: fault.defect.number(),
        place: fault.place,
    }
}

fn move_by(event: Event) -> Move {
    match event {
        Event::Enter(rule) => Move::Enter(rule),
        Event::Byte(byte) => Move::Byte(byte),
        Event::Leave => Move::Leave,
    }
}

// Whether the grammar answers each of its questions as the plain one does, past the last rule too.
fn answers_alike<B: Grammar>(grammar: &B, plain: &Plain) -> bool {
    let count = plain.rules.len();
    let mut numbers = (0..count.saturating_add(3)).map(narrow);
    grammar.start() == plain.start
        && grammar.symbols() == plain.symbols
        && usize::from(grammar.rules()) == count
        && numbers.all(|number| match plain.rule(number) {
            Some(rule) => has_rule(grammar, number, rule),
            None => has_gap(grammar, number),
        })
}

fn has_gap<B: Grammar>(grammar: &B, number: u16) -> bool {
    grammar.left(number).is_none()
        && grammar.mark(number).is_none()
        && grammar.parts(number).is_none()
        && grammar.part(number, 0).is_none()
}

fn has_rule<B: Grammar>(grammar: &B, number: u16, rule: &Rule) -> bool {
    let mark = if rule.loose { Mark::Loose } else { Mark::Tight };
    let Some(count) = grammar.parts(number) else {
        return false;
    };
    let mut pieces = (0..count).zip(rule.pieces.iter());
    grammar.left(number) == Some(rule.left)
        && grammar.mark(number) == Some(mark)
        && usize::from(count) == rule.pieces.len()
        && pieces.all(|(k, piece)| match grammar.part(number, k) {
            Some(part) => is_piece(part, *piece),
            None => false,
        })
        && grammar.part(number, count).is_none()
}

// The order of the three exceptions does not matter, nor how often one is told.
fn is_piece(part: Part, piece: Piece) -> bool {
    match (part, piece) {
        (Part::Symbol(a), Piece::Symbol(b)) => a == b,
        (Part::Range { low, high }, Piece::Range(from, to)) => low == from && high == to,
        (Part::Except(a, b, c), Piece::Except(x, y, z)) => {
            let these = [a, b, c];
            let those = [x, y, z];
            these.iter().all(|byte| those.contains(byte))
                && those.iter().all(|byte| these.contains(byte))
        }
        _ => false,
    }
}
