// The calls of a script.
ghost use Rattle.std.specs.Prelude.{◌≡◌, ◌<◌, length, IfSome};
ghost use Rattle.fekhtovi.specs.Script.{request_of, head_of, field_of, fields_of, call_of, ReadAs, GivesCall, handed_in, scripted_in};
ghost use Rattle.std.specs.Iterator.{at_most};

use cues::requests::Request;

// What is asked. The form and the blanks stay the numbers that they are in C, since only a load asks whether they are lawful.
#[derive(Clone, Copy)]
pub struct Head {
    pub(crate) request: Request,
    pub(crate) form: u8,
    pub(crate) blanks: u8,
    pub(crate) frames: u16,
    pub(crate) buffer: u16,
}

// What a load is handed. Each rule number to bar is a pair of bytes.
#[derive(Clone, Copy)]
pub struct Fields<'a> {
    pub(crate) table: &'a [u8],
    pub(crate) bars: &'a [[u8; 2]],
    pub(crate) text: &'a [u8],
    pub(crate) guide: &'a [u8],
}

#[derive(Clone, Copy)]
pub struct Call<'a> {
    pub(crate) head: Head,
    pub(crate) fields: Fields<'a>,
}

// The request with a kind and a cue number. No TryFrom: both the numbers and `Request` belong to other crates.
fn request_of(kind: u8, number: u16) -> Option<Request>
    ensures { result ≡ request_of kind number }
{
    match kind {
        1 => Some(Request::Load(number)),
        2 => Some(Request::Clear(number)),
        3 => Some(Request::Fetch(number)),
        4 => Some(Request::Free),
        _ => None,
    }
}

// The head that a script begins with, and what is behind it.
fn first_head(script: &[u8]) -> Option<(Head, &[u8])>
    ensures read { ReadAs (λ head. head) (head_of script.now) result }
    ensures shorter { IfSome result (λ p. length p.1.now < length script.now) }
{
    let [kind, form, blanks, n1, n0, f1, f0, b1, b0, rest @ ..] = script else {
        return None;
    };
    let request = request_of(*kind, u16::from_be_bytes([*n1, *n0]))?;
    let head = Head {
        request,
        form: *form,
        blanks: *blanks,
        frames: u16::from_be_bytes([*f1, *f0]),
        buffer: u16::from_be_bytes([*b1, *b0]),
    };
    Some((head, rest))
}

// A field's bytes, whose number stands in two bytes before them, and what is behind the field; None where they are not all there.
fn first_field(bytes: &[u8]) -> Option<(&[u8], &[u8])>
    ensures read { ReadAs (λ field. field.now) (field_of bytes.now) result }
    ensures shorter { IfSome result (λ p. length p.1.now < length bytes.now) }
{
    let (length, rest) = bytes.split_first_chunk()?;
    rest.split_at_checked(usize::from(u16::from_be_bytes(*length)))
}

// The four fields of a call. None where a byte of the rule numbers to bar has no second one.
fn first_fields(bytes: &[u8]) -> Option<(Fields<'_>, &[u8])>
    ensures read { ReadAs handed_in (fields_of bytes.now) result }
    ensures shorter { IfSome result (λ p. length p.1.now < length bytes.now) }
{
    let (table, rest) = first_field(bytes)?;
    let (bars, rest) = first_field(rest)?;
    let (bars, []) = bars.as_chunks() else {
        return None;
    };
    let (text, rest) = first_field(rest)?;
    let (guide, rest) = first_field(rest)?;
    let fields = Fields {
        table,
        bars,
        text,
        guide,
    };
    Some((fields, rest))
}

// The first call of a script, and the rest of the script; None where no whole call stands.
fn first_call(script: &[u8]) -> Option<(Call<'_>, &[u8])>
    ensures read { ReadAs scripted_in (call_of script.now) result }
    ensures shorter { IfSome result (λ p. length p.1.now < length script.now) }
{
    let (head, rest) = first_head(script)?;
    let (fields, rest) = first_fields(rest)?;
    Some((Call { head, fields }, rest))
}

// The calls of a script in their order, up to where no whole call stands.
#[derive(Drop)]
pub(crate) struct Calls<'a> {
    pub(crate) rest: &'a [u8],
}

impl<'a> Iterator for Calls<'a> {
    type Item = Call<'a>;

    ghost next_gives = { λ before call after. GivesCall before.rest.now call after.rest.now };

    ghost remaining = { λ calls. at_most (length calls.rest.now) };

    fn next(&mut self) -> Option<Call<'a>> {
        let (call, rest) = first_call(self.rest)?;
        self.rest = rest;
        Some(call)
    }
}
