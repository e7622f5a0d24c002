// The grammar that a caller brings as bytes: a packed table, or none for the house grammar.
ghost use Rattle.std.specs.Prelude.{◌≡◌, IfOk};
ghost use Rattle.packed.specs.Check.{answered};
ghost use Rattle.packed.specs.Base.{base_meaning, base_answer};

use crate::Packed;
use crate::fault::TableFault;
use grammar::Grammar;
use grammar::either::Either;
use grammar::house::House;

pub type Base<'a> = Either<House, Packed<'a>>;

// The grammar of the table, or why the table is refused. Without any bytes it is the house grammar.
pub fn open<'a>(table: &'a [u8]) -> Result<Base<'a>, TableFault>
    ensures grammar { IfOk result (λ base. ⟦<Base<'a> as Grammar>⟧.meaning base ≡ base_meaning table.now) }
    ensures answer { answered result ≡ base_answer table.now }
{
    if table.is_empty() {
        return Ok(Either::First(House));
    }
    Ok(Either::Second(Packed::try_from(table)?))
}
