// A guide in either of its written forms.
ghost use Rattle.std.specs.Prelude.{◌≡◌};
ghost use Rattle.guide.specs.Told.{InRange};
ghost use Rattle.guide.specs.Written.{form_of, written_told};
ghost use Rattle.guide.specs.declared.written.Written.TheVariants.{Listing, Links};

use crate::link_table::LinkTable;
use crate::listing::Listing;
use crate::{Event, Fault, Guide};

// The forms: the lines of a listing, and the records of a link table.
#[derive(Clone, Copy, PartialEq, Eq)]
pub enum Form {
    Listing,
    Links,
}

// A number that no form has.
#[derive(Clone, Copy, PartialEq, Eq)]
pub struct UnknownForm(pub u8);

impl TryFrom<u8> for Form {
    type Error = UnknownForm;

    ghost try_from_gives = { λ number r. r ≡ form_of number };

    fn try_from(number: u8) -> Result<Form, UnknownForm> {
        match number {
            1 => Ok(Form::Listing),
            2 => Ok(Form::Links),
            _ => Err(UnknownForm(number)),
        }
    }
}

// The reader of the bytes in their form.
#[derive(Drop)]
pub enum Written<'a> {
    Listing(Listing<'a>),
    Links(LinkTable<'a>),
}

impl<'a> Written<'a> {
    pub fn new(form: Form, bytes: &'a [u8]) -> Written<'a>
        ensures { ⟦<Written<'a> as Guide>⟧.told result ≡ written_told form bytes.now }
    {
        match form {
            Form::Listing => Written::Listing(Listing::new(bytes)),
            Form::Links => Written::Links(LinkTable::new(bytes)),
        }
    }
}

impl<'a> Guide for Written<'a> {
    ghost told = { elim [ Listing s ↦ ⟦<Listing<'a> as Guide>⟧.told s | Links s ↦ ⟦<LinkTable<'a> as Guide>⟧.told s ] };

    ghost bounds = { elim [ Listing s ↦ ⟦<Listing<'a> as Guide>⟧.bounds s | Links s ↦ ⟦<LinkTable<'a> as Guide>⟧.bounds s ] };

    fn next(&mut self) -> Result<Option<Event>, Fault> {
        match self {
            Written::Listing(listing) => listing.next(),
            Written::Links(table) => table.next(),
        }
    }
}
