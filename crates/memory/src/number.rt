// Numbers under which texts can be held.
ghost use Rattle.std.specs.Prelude.{◌≡◌, ◌<◌, ◌≤◌, Ok};
ghost use Rattle.memory.specs.Texts.{last_number, is_number, ask};
ghost use Rattle.memory.specs.declared.Refusal.TheVariants.{NumberOutside};

use crate::{Refusal, is_number};
use std::marker::Model;

// A number from 1 to 120.
#[derive(Clone, Copy, PartialEq, Eq)]
pub(crate) struct Number(u8);

impl Model for Number {
    ghost use Rattle.std.specs.Prelude.{ℕ, ◌<◌, ◌≤◌};
    ghost use Rattle.memory.specs.Texts.{last_number};

    ghost Value = { ℕ };

    ghost view = { λ n. n.0 };

    ghost inverse = { λ n. record { 0 = n } };

    ghost invariant = { λ n. (0 < n.0) × (n.0 ≤ last_number) };
}

impl Number {
    // Where what is noted for it stands among what is noted for all.
    pub(crate) fn index(self) -> usize
        ensures same { result ≡ self }
        ensures above { 0 < result }
        ensures last { result ≤ last_number }
    {
        usize::from(self.0)
    }
}

impl TryFrom<u16> for Number {
    type Error = Refusal;

    ghost try_from_gives = { λ n r. r ≡ ask (is_number n) NumberOutside (Ok n) };

    fn try_from(number: u16) -> Result<Number, Refusal> {
        if !is_number(number) {
            return Err(Refusal::NumberOutside);
        }
        Ok(Number(number as u8))
    }
}
