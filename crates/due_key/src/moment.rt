ghost use Rattle.std.specs.Prelude.{◌≡◌, ◌<◌, ◌^◌, max};
ghost use Rattle.std.specs.Option.{SomeIff};

use std::fmt;
use std::marker::Model;

/// A moment in milliseconds, below 2^62. The caller chooses its origin: the start of a script, or of the program.
#[derive(Clone, Copy, Debug, PartialEq, Eq, PartialOrd, Ord)]
pub struct Moment {
    number: u64,
}

impl Model for Moment {
    ghost use Rattle.std.specs.Prelude.{ℕ, ◌<◌, ◌^◌};

    ghost Value = { ℕ };

    ghost view = { λ moment. moment.number };

    ghost invariant = { λ moment. moment.number < 2 ^ 62 };

    ghost inverse = { λ number. record { number = number } };
}

impl Moment {
    /// Makes a moment of a number; `None` exactly from 2^62 on.
    pub fn new(number: u64) -> Option<Moment>
        ensures { SomeIff result (number < 2 ^ 62) number }
    {
        if number < 1 << 62 {
            Some(Moment { number })
        } else {
            None
        }
    }

    /// Returns the moment 0.
    pub fn zero() -> Moment
        ensures { result ≡ 0 }
    {
        Moment { number: 0 }
    }

    /// Returns its milliseconds.
    pub fn get(self) -> u64
        ensures value { result ≡ self }
        ensures range { result < 2 ^ 62 }
    {
        self.number
    }

    /// Returns the later of the two.
    pub fn later(self, other: Moment) -> Moment
        ensures later { result ≡ max self other }
        ensures range { result < 2 ^ 62 }
    {
        Moment {
            number: self.number.max(other.number),
        }
    }
}

impl fmt::Display for Moment {
    ghost use Rattle.std.specs.Prelude.{Some};
    ghost use Rattle.std.specs.Fmt.{decimal};

    ghost output = { λ moment. Some (decimal moment) };

    fn fmt<W: fmt::Write>(&self, f: &mut fmt::Formatter<W>) -> fmt::Result {
        let number = self.number;
        write!(f, "{number}")
    }
}
