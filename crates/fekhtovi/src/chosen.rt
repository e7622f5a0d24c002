// The grammar and the form of a guide that a caller brings.
ghost use Rattle.std.specs.Prelude.{◌≡◌, IfOk, Ok};
ghost use Rattle.guide.specs.Written.{form_of};
ghost use Rattle.packed.specs.Base.{base_meaning};
ghost use Rattle.fekhtovi.specs.Answer.{answered};
ghost use Rattle.fekhtovi.specs.Check.{may_open};

use crate::refused::Refused;
use grammar::Grammar;
use guide::written::Form;
use packed::base;
use packed::base::Base;

// The grammar of a table, and the form with a number. The guide's reader is made by whoever lends it: handed back from here, it would be
// copied.
pub(crate) fn opened(form: u8, table: &[u8]) -> Result<(Base<'_>, Form), Refused>
    ensures answer { answered result ≡ may_open form table.now }
    ensures base { IfOk result (λ p. ⟦<Base<'static> as Grammar>⟧.meaning p.0 ≡ base_meaning table.now) }
    ensures form { IfOk result (λ p. Ok p.1 ≡ form_of form) }
{
    let form = Form::try_from(form)?;
    Ok((base::open(table)?, form))
}
