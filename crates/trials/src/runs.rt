// Whole runs of calls on one memory, each call compared with the second checker.
use crate::answers::{Answer, Told};
use crate::calls::{bare_call, load_call, random_buffer, random_request};
use crate::lines::compare_line;
use crate::product::make_call;
use crate::random::Random;
use crate::scenes::{Call, Scene, Taste, make_scene};
use crate::tally::Tally;
use cues::calls::free;
use cues::requests::Request;
use guide::written::Form;
use memory::blocks::Blocks;
use second_checker::answers::{Refusal, Said};
use second_checker::failure::answered;
use second_checker::numbers;
use second_checker::reading::{Guided, read_link_table, read_listing};
use second_checker::sheet::Sheet;
use std::alloc::{AllocError, Global};

const CALLS: usize = 80;

const LINES: usize = 4;

pub(crate) fn run(heap: Global, seed: u64, tally: &mut Tally) -> Result<(), AllocError> {
    tally.begin_run(seed);
    let mut random = Random::new(seed);
    let taste = taste_of(seed);
    let mut memory = Blocks::new();
    let mut sheet = Sheet::new(heap);
    let mut scene = make_scene(heap, &mut random, taste, tally)?;
    for _ in 0..CALLS {
        if random.chance(15) {
            scene = make_scene(heap, &mut random, taste, tally)?;
        }
        let request = random_request(&mut random, taste, &sheet);
        let call = match request {
            Request::Load(_) => {
                tally.trees += 1;
                load_call(
                    heap,
                    &mut random,
                    request,
                    taste,
                    &scene.plain,
                    sheet.free(),
                )?
            }
            _ => {
                let buffer = random_buffer(&mut random, request, &sheet);
                bare_call(heap, request, buffer)?
            }
        };
        compare_call(heap, &mut memory, &mut sheet, &scene, &call, tally)?;
    }
    fetch_all(heap, &mut memory, &mut sheet, &scene, tally)?;
    for _ in 0..LINES {
        compare_line(heap, &mut random, tally)?;
    }
    Ok(())
}

fn taste_of(seed: u64) -> Taste {
    match seed % 20 {
        0..=9 => Taste::Small,
        10..=13 => Taste::Long,
        14..=17 => Taste::Deep,
        _ => Taste::Counted,
    }
}

// Every number of the memory, and the two beside them.
fn fetch_all(
    heap: Global,
    memory: &mut Blocks,
    sheet: &mut Sheet,
    scene: &Scene,
    tally: &mut Tally,
) -> Result<(), AllocError> {
    for number in 0..=121u16 {
        let call = bare_call(heap, Request::Fetch(number), 4_100)?;
        compare_call(heap, memory, sheet, scene, &call, tally)?;
    }
    Ok(())
}

// Makes the call on both sides, and notes each difference.
fn compare_call(
    heap: Global,
    memory: &mut Blocks,
    sheet: &mut Sheet,
    scene: &Scene,
    call: &Call,
    tally: &mut Tally,
) -> Result<(), AllocError> {
    tally.begin_call();
    let guided = match call.form {
        Form::Listing => read_listing(heap, call.guide.as_slice())?,
        Form::Links => read_link_table(heap, call.guide.as_slice())?,
    };
    let mut written = pattern(heap, call.buffer)?;
    let mut buffer = pattern(heap, call.buffer)?;
    let said = second_answer(heap, sheet, scene, call, &guided, &mut written)?;
    let answer = Answer(said.map_err(numbers::Refusal::from));
    let told = Told(guided.told_behind(said).map_err(numbers::Fault::from));
    let heard = make_call(heap, memory, scene, call, &mut buffer)?;
    tally.hear(heard.answer);
    tally.compare(heap, "answer", &heard.answer, &answer)?;
    tally.compare(heap, "guide", &heard.told, &told)?;
    if !heard.same_grammar {
        tally.disagree(heap, "grammar", "one", "another")?;
    }
    if buffer.as_slice() != written.as_slice() {
        tally.disagree(heap, "buffer", "one", "another")?;
    }
    let by_product = usize::from(free(memory));
    tally.fewest_free = tally.fewest_free.min(by_product);
    tally.compare(heap, "free", &by_product, &sheet.free())
}

// What a buffer holds before a call.
fn pattern(heap: Global, length: usize) -> Result<Vec<u8>, AllocError> {
    (0..=250u8).cycle().take(length).collect(heap)
}

fn second_answer(
    heap: Global,
    sheet: &mut Sheet,
    scene: &Scene,
    call: &Call,
    guided: &Guided,
    buffer: &mut [u8],
) -> Result<Result<Said, Refusal>, AllocError> {
    match call.request {
        Request::Load(number) => {
            let text = call.text.as_slice();
            let load = sheet.load(heap, number, text, &scene.plain, guided, call.frames);
            Ok(answered(load)?.map(Said::Loaded))
        }
        Request::Clear(number) => {
            let cleared = sheet.clear(number).map_err(Refusal::from);
            Ok(cleared.map(|()| Said::Cleared(number)))
        }
        Request::Fetch(number) => {
            let fetched = sheet.fetch(number, buffer).map_err(Refusal::from);
            Ok(fetched.map(Said::Fetched))
        }
        Request::Free => Ok(Ok(Said::Free(sheet.free()))),
    }
}
