ghost use Rattle.std.specs.Prelude.{◌≡◌};
ghost use Rattle.due_key.specs.Range.{nearest, IsBetween};
ghost use Rattle.due_key.specs.declared.class.TheConstants.{LOWEST_CLASS, HIGHEST_CLASS};

use crate::due::Due;
use crate::key::Key;
use std::fmt;
use std::marker::Model;

/// The lowest class: it is served first.
pub const LOWEST_CLASS: i64 = -2047;

/// The highest class.
pub const HIGHEST_CLASS: i64 = 2047;

/// A priority class, from -2047 to 2047, as HAProxy's `http-request set-priority-class` sets it.
/// The requests of a queue with the lowest class are served first.
#[derive(Clone, Copy, Debug, PartialEq, Eq, PartialOrd, Ord)]
pub struct Class {
    number: i16,
}

impl Model for Class {
    ghost use Rattle.std.specs.Prelude.{ℤ};
    ghost use Rattle.due_key.specs.Range.{IsBetween};
    ghost use Rattle.due_key.specs.declared.class.TheConstants.{LOWEST_CLASS, HIGHEST_CLASS};

    ghost Value = { ℤ };

    ghost view = { λ class. class.number };

    ghost invariant = { λ class. IsBetween LOWEST_CLASS HIGHEST_CLASS class.number };

    ghost inverse = { λ number. record { number = number } };
}

impl Class {
    /// Returns the class of this number, or the nearer end of the range.
    pub fn clamp(number: i64) -> Class
        ensures { result ≡ nearest LOWEST_CLASS HIGHEST_CLASS number }
    {
        Class {
            number: number.clamp(LOWEST_CLASS, HIGHEST_CLASS) as i16,
        }
    }

    pub fn get(self) -> i64
        ensures value { result ≡ self }
        ensures range { IsBetween LOWEST_CLASS HIGHEST_CLASS result }
    {
        i64::from(self.number)
    }

    /// Returns the key of a request of this class, with this due date and ticket.
    pub fn key(self, due: Due, ticket: u64) -> Key
        ensures key { result ≡ record { class = self; due = due; ticket = ticket } }
        ensures range { IsBetween LOWEST_CLASS HIGHEST_CLASS result.class }
    {
        Key {
            class: self,
            due,
            ticket,
        }
    }
}

impl fmt::Display for Class {
    ghost use Rattle.std.specs.Prelude.{Some};
    ghost use Rattle.std.specs.Fmt.{signed_decimal};

    ghost output = { λ class. Some (signed_decimal class) };

    fn fmt<W: fmt::Write>(&self, f: &mut fmt::Formatter<W>) -> fmt::Result {
        let number = self.number;
        write!(f, "{number}")
    }
}
