// The lines of a script.
use cues::requests::Request;
use grammar::barred::BarRefusal;
use packed::fault::TableFault;
use std::alloc::{AllocError, AllocFailed};
use std::fmt;

// What the next calls are handed. Bytes and listings are still as they stand in the line.
#[derive(Clone, Copy)]
pub enum Setting<'a> {
    House,
    Table(&'a str),
    Blanks(bool),
    Bar(u16),
    NoBars,
    Text(&'a str),
    TextBytes(&'a str),
    Listing(&'a str),
    Links(&'a str),
    Frames(u16),
    Buffer(u16),
}

// What a line orders: to make a call, or to set what the next calls are handed.
#[derive(Clone, Copy)]
pub enum Order<'a> {
    Call(Request),
    Set(Setting<'a>),
}

// Why a line has no answer.
#[derive(Clone, Copy)]
pub enum Trouble {
    UnknownWord,
    NothingWanted,
    NotANumber,
    NotBytes,
    NotOnOrOff,
    TableRefused,
    RuleTooLarge,
    NotText,
    MemoryOut,
}

impl From<AllocError> for Trouble {
    fn from(_error: AllocError) -> Trouble {
        Trouble::MemoryOut
    }
}

impl<T: Drop> From<AllocFailed<T>> for Trouble {
    fn from(_error: AllocFailed<T>) -> Trouble {
        Trouble::MemoryOut
    }
}

impl From<TableFault> for Trouble {
    fn from(_fault: TableFault) -> Trouble {
        Trouble::TableRefused
    }
}

impl From<BarRefusal> for Trouble {
    fn from(_refusal: BarRefusal) -> Trouble {
        Trouble::RuleTooLarge
    }
}

impl fmt::Display for Trouble {
    fn fmt<W: fmt::Write>(&self, f: &mut fmt::Formatter<W>) -> fmt::Result {
        f.write_str(match self {
            Trouble::UnknownWord => "the first word is not known",
            Trouble::NothingWanted => "nothing may stand behind this word",
            Trouble::NotANumber => "a number from 0 to 65535 is wanted",
            Trouble::NotBytes => "bytes are wanted, as two hexadecimal digits each",
            Trouble::NotOnOrOff => "on or off is wanted",
            Trouble::TableRefused => "the table is refused",
            Trouble::RuleTooLarge => "only rule numbers below 1024 can be barred",
            Trouble::NotText => "the line is not UTF-8 text",
            Trouble::MemoryOut => "memory ran out",
        })
    }
}

// A line is a word, and what stands behind its first blank. An empty line and one that begins with # order nothing.
pub(crate) fn read_order(line: &str) -> Result<Option<Order<'_>>, Trouble> {
    if line.is_empty() || line.starts_with('#') {
        return Ok(None);
    }
    let (word, rest) = line.split_once(' ').unwrap_or((line, ""));
    Ok(Some(match word {
        "load" => Order::Call(Request::Load(number(rest)?)),
        "clear" => Order::Call(Request::Clear(number(rest)?)),
        "fetch" => Order::Call(Request::Fetch(number(rest)?)),
        "free" => Order::Call(alone(rest, Request::Free)?),
        _ => Order::Set(read_setting(word, rest)?),
    }))
}

fn read_setting<'a>(word: &str, rest: &'a str) -> Result<Setting<'a>, Trouble> {
    Ok(match word {
        "house" => alone(rest, Setting::House)?,
        "table" => Setting::Table(rest),
        "blanks" => Setting::Blanks(on_or_off(rest)?),
        "bar" => Setting::Bar(number(rest)?),
        "nobars" => alone(rest, Setting::NoBars)?,
        "text" => Setting::Text(rest),
        "bytes" => Setting::TextBytes(rest),
        "listing" => Setting::Listing(rest),
        "links" => Setting::Links(rest),
        "frames" => Setting::Frames(number(rest)?),
        "buffer" => Setting::Buffer(number(rest)?),
        _ => return Err(Trouble::UnknownWord),
    })
}

fn number(word: &str) -> Result<u16, Trouble> {
    word.parse::<u16>().map_err(|_| Trouble::NotANumber)
}

fn on_or_off(word: &str) -> Result<bool, Trouble> {
    match word {
        "on" => Ok(true),
        "off" => Ok(false),
        _ => Err(Trouble::NotOnOrOff),
    }
}

// What a word means behind which nothing may stand.
fn alone<T: Drop>(rest: &str, meant: T) -> Result<T, Trouble> {
    if rest.is_empty() {
        Ok(meant)
    } else {
        Err(Trouble::NothingWanted)
    }
}
