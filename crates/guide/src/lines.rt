// One line of a listing.
ghost use Rattle.std.specs.Prelude.{◌≡◌, ℕ, ◌+◌, ◌<◌, ◌≤◌, length, IfSome, ◌==◌, position};
ghost use Rattle.guide.specs.Listing.{decimal as decimal_value, rule_number, hex_digit, hex_byte, line_event};
ghost use Rattle.guide.specs.Lines.{decimal_digit, written, FirstLine, HasForm, LineAt, LineRead};

use crate::Event;

// The three forms of a line, with its digits where they stand in the listing.
#[derive(Clone, Copy)]
pub enum Form<'a> {
    Open(&'a [u8]),
    Value(&'a [u8]),
    Close,
}

// A line in form, and the offset in the listing at which it begins.
#[derive(Clone, Copy)]
pub struct Line<'a> {
    offset: usize,
    form: Form<'a>,
}

fn decimal_digit(b: u8) -> Option<u8>
    ensures value { result ≡ decimal_digit b }
    ensures below { IfSome result (λ v. v < 10) }
{
    match b {
        b'0'..=b'9' => Some(b - b'0'),
        _ => None,
    }
}

// The number that at most four decimal digits write.
fn decimal(digits: &[u8]) -> Option<u16>
    requires { length digits.now ≤ 4 }
    ensures { result ≡ decimal_value 0 digits.now }
{
    let mut n: u16 = 0;
    for d in digits {
        n = 10 * n + u16::from(decimal_digit(*d)?);
    }
    Some(n)
}

// A rule number: up to 4 digits, the first no zero unless it stands alone.
fn rule_number(digits: &[u8]) -> Option<u16>
    ensures { result ≡ rule_number digits.now }
{
    match digits {
        [] | [b'0', _, ..] | [_, _, _, _, _, ..] => None,
        _ => decimal(digits),
    }
}

fn hex_digit(b: u8) -> Option<u8>
    ensures { result ≡ hex_digit b }
{
    match b {
        b'a'..=b'f' => Some(b - b'a' + 10),
        _ => decimal_digit(b),
    }
}

// A byte in two lower-case hexadecimal digits.
fn hex_byte(digits: &[u8]) -> Option<u8>
    ensures { result ≡ hex_byte digits.now }
{
    let [high, low] = digits else {
        return None;
    };
    Some(16 * hex_digit(*high)? + hex_digit(*low)?)
}

// The form of a line by its first byte.
fn form_of(line: &[u8]) -> Option<Form<'_>>
    ensures { HasForm line.now result }
{
    let [first, digits @ ..] = line else {
        return None;
    };
    match *first {
        b'(' => Some(Form::Open(digits)),
        b'=' => Some(Form::Value(digits)),
        b')' if digits.is_empty() => Some(Form::Close),
        _ => None,
    }
}

// The event that a form tells, or None where its digits are wrong.
fn event_of(form: Form<'_>) -> Option<Event>
    ensures { result ≡ line_event (written form.entry) }
{
    match form {
        Form::Open(digits) => Some(Event::Enter(rule_number(digits)?)),
        Form::Value(digits) => Some(Event::Byte(hex_byte(digits)?)),
        Form::Close => Some(Event::Leave),
    }
}

// Where the first byte 10 stands.
fn ending(rest: &[u8]) -> Option<usize>
    ensures { result ≡ position (λ b. b == 10) rest.now }
{
    rest.iter().position(|b| *b == 10)
}

// The first line without its ending, or None where no byte 10 ends it.
fn first_line(rest: &[u8]) -> Option<&[u8]>
    ensures { FirstLine rest.now result }
{
    Some(&rest[..ending(rest)?])
}

// The line that begins at an offset, or None where it has no ending or no form.
fn line_at(listing: &[u8], offset: usize) -> Option<Line<'_>>
    requires { offset ≤ length listing.now }
    ensures { LineAt listing.now offset result }
{
    let line = first_line(&listing[offset..])?;
    let form = form_of(line)?;
    Some(Line { offset, form })
}

// The length of a form's line without its ending.
fn form_length(form: Form<'_>) -> usize
    ensures { result ≡ length (written form.entry) }
{
    match form {
        Form::Open(digits) | Form::Value(digits) => 1 + digits.len(),
        Form::Close => 1,
    }
}

// The event of the line at an offset, and the offset behind the line's ending; None where the line is not in order.
pub(crate) fn read_line(listing: &[u8], offset: usize) -> Option<(Event, usize)>
    requires { offset ≤ length listing.now }
    ensures { LineRead listing.now offset result }
{
    let line = line_at(listing, offset)?;
    let event = event_of(line.form)?;
    Some((event, line.offset + form_length(line.form) + 1))
}
