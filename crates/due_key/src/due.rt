ghost use Rattle.std.specs.Prelude.{◌≡◌, pos, ◌+ℤ◌, ◌-ℤ◌};
ghost use Rattle.due_key.specs.Range.{IsDue, IsBetween};
ghost use Rattle.due_key.specs.declared.offset.TheConstants.{LOWEST_OFFSET, HIGHEST_OFFSET};

use crate::moment::Moment;
use crate::offset::Offset;
use std::fmt;
use std::marker::Model;

/// A due date in milliseconds: the exact sum of a moment and an offset, negative where the offset
/// is further below 0 than the arrival is after the moment 0. Since it always is such a sum, its
/// difference from a moment can't overflow.
#[derive(Clone, Copy, Debug, PartialEq, Eq, PartialOrd, Ord)]
pub struct Due {
    number: i64,
}

impl Model for Due {
    ghost use Rattle.std.specs.Prelude.{ℤ};
    ghost use Rattle.due_key.specs.Range.{IsDue};

    ghost Value = { ℤ };

    ghost view = { λ due. due.number };

    ghost invariant = { λ due. IsDue due.number };

    ghost inverse = { λ number. record { number = number } };
}

impl Due {
    /// Returns the due date of an arrival at this moment with this offset.
    pub fn of(arrival: Moment, offset: Offset) -> Due
        ensures sum { result ≡ (pos arrival +ℤ offset) }
        ensures range { IsBetween LOWEST_OFFSET HIGHEST_OFFSET offset }
    {
        Due {
            number: arrival.get() as i64 + offset.get(),
        }
    }

    /// Returns its milliseconds.
    pub fn get(self) -> i64
        ensures value { result ≡ self }
        ensures range { IsDue result }
    {
        self.number
    }

    /// Returns the number of milliseconds by which a slot at this moment is late: negative where it is early.
    pub fn lateness(self, moment: Moment) -> i64
        ensures { result ≡ (pos moment -ℤ self) }
    {
        moment.get() as i64 - self.number
    }
}

impl fmt::Display for Due {
    ghost use Rattle.std.specs.Prelude.{Some};
    ghost use Rattle.std.specs.Fmt.{signed_decimal};

    ghost output = { λ due. Some (signed_decimal due) };

    fn fmt<W: fmt::Write>(&self, f: &mut fmt::Formatter<W>) -> fmt::Result {
        let number = self.number;
        write!(f, "{number}")
    }
}
