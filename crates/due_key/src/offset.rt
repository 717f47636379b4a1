ghost use Rattle.std.specs.Prelude.{◌≡◌};
ghost use Rattle.due_key.specs.Range.{nearest, IsBetween};
ghost use Rattle.due_key.specs.declared.offset.TheConstants.{LOWEST_OFFSET, HIGHEST_OFFSET};

use std::fmt;
use std::marker::Model;

/// The lowest offset in milliseconds, nearly nine minutes before the arrival.
pub const LOWEST_OFFSET: i64 = -524_287;

/// The highest offset in milliseconds.
pub const HIGHEST_OFFSET: i64 = 524_287;

/// The due date of a request relative to its arrival, in milliseconds from -524287 to 524287, as
/// HAProxy's `http-request set-priority-offset` sets it.
#[derive(Clone, Copy, Debug, PartialEq, Eq, PartialOrd, Ord)]
pub struct Offset {
    number: i64,
}

impl Model for Offset {
    ghost use Rattle.std.specs.Prelude.{ℤ};
    ghost use Rattle.due_key.specs.Range.{IsBetween};
    ghost use Rattle.due_key.specs.declared.offset.TheConstants.{LOWEST_OFFSET, HIGHEST_OFFSET};

    ghost Value = { ℤ };

    ghost view = { λ offset. offset.number };

    ghost invariant = { λ offset. IsBetween LOWEST_OFFSET HIGHEST_OFFSET offset.number };

    ghost inverse = { λ number. record { number = number } };
}

impl Offset {
    /// Returns the offset of this number of milliseconds, or the nearer end of the range.
    pub fn clamp(number: i64) -> Offset
        ensures { result ≡ nearest LOWEST_OFFSET HIGHEST_OFFSET number }
    {
        Offset {
            number: number.clamp(LOWEST_OFFSET, HIGHEST_OFFSET),
        }
    }

    /// Returns its milliseconds.
    pub fn get(self) -> i64
        ensures value { result ≡ self }
        ensures range { IsBetween LOWEST_OFFSET HIGHEST_OFFSET result }
    {
        self.number
    }
}

impl fmt::Display for Offset {
    ghost use Rattle.std.specs.Prelude.{Some};
    ghost use Rattle.std.specs.Fmt.{signed_decimal};

    ghost output = { λ offset. Some (signed_decimal offset) };

    fn fmt<W: fmt::Write>(&self, f: &mut fmt::Formatter<W>) -> fmt::Result {
        let number = self.number;
        write!(f, "{number}")
    }
}
