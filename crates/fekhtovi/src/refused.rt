// Why a check or a call is refused.
ghost use Rattle.std.specs.Prelude.{◌≡◌};
ghost use Rattle.fekhtovi.specs.declared.refused.Refused.TheVariants.{Form, Table, Bar, Call};
ghost use Rattle.cues.specs.declared.answers.Refusal.TheVariants.{Check};
ghost use Rattle.fekhtovi.specs.Answer.{refused_number};

use cues::answers::Refusal;
use grammar::barred::BarRefusal;
use guide::written::UnknownForm;
use packed::fault::TableFault;
use tree::verdict;

// The first question with the answer no: about the guide's form, the table, or the rule numbers to bar, which all come before the call
// itself, or the call's own.
#[derive(Clone, Copy)]
pub(crate) enum Refused {
    Form(UnknownForm),
    Table(TableFault),
    Bar(BarRefusal),
    Call(Refusal),
}

impl Refused {
    // The number under which the refusal is reported. That of a form is the library's own.
    pub(crate) fn number(self) -> u8
        ensures { result ≡ refused_number self }
    {
        match self {
            Refused::Form(_) => 255,
            Refused::Table(fault) => fault.number(),
            Refused::Bar(refusal) => refusal.number(),
            Refused::Call(refusal) => refusal.number(),
        }
    }
}

impl From<UnknownForm> for Refused {
    ghost from_gives = { λ form refused. refused ≡ Form form };

    fn from(form: UnknownForm) -> Refused {
        Refused::Form(form)
    }
}

impl From<TableFault> for Refused {
    ghost from_gives = { λ fault refused. refused ≡ Table fault };

    fn from(fault: TableFault) -> Refused {
        Refused::Table(fault)
    }
}

impl From<BarRefusal> for Refused {
    ghost from_gives = { λ refusal refused. refused ≡ Bar refusal };

    fn from(refusal: BarRefusal) -> Refused {
        Refused::Bar(refusal)
    }
}

impl From<Refusal> for Refused {
    ghost from_gives = { λ refusal refused. refused ≡ Call refusal };

    fn from(refusal: Refusal) -> Refused {
        Refused::Call(refusal)
    }
}

impl From<verdict::Refusal> for Refused {
    ghost from_gives = { λ refusal refused. refused ≡ Call (Check refusal) };

    fn from(refusal: verdict::Refusal) -> Refused {
        Refused::Call(Refusal::from(refusal))
    }
}
