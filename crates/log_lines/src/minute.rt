ghost use Rattle.std.specs.Prelude.{◌≡◌, ◌+◌, ◌/◌, ◌<◌, Some, IfOk, replicate, slice_set};
ghost use Rattle.std.specs.Option.{option_map_or};
ghost use Rattle.log_lines.specs.Lateness.{capped, no_slot, with_slot, greater_lateness, held_of, second_index, second_at};

use std::alloc::{AllocError, Global};
use std::marker::Model;

/// The number of seconds that are kept.
const SECONDS: usize = 60;

/// The slots that were given in a second.
#[derive(Clone, Copy, Debug, PartialEq, Eq)]
pub(crate) struct Second {
    /// The number of the second, since the proxy began.
    pub number: u64,
    /// The number of slots that were given.
    pub slots: u64,
    /// The number of these that were given after the request's due date.
    pub late: u64,
    /// The greatest lateness, in milliseconds; `None` where no slot was given.
    pub worst: Option<i64>,
}

/// The lateness of the slots of the last minute, second by second.
#[derive(Drop)]
pub(crate) struct Minute {
    seconds: Vec<Second>,
}

impl Second {
    /// Makes a second without a slot.
    pub fn new(number: u64) -> Second
        ensures { result ≡ no_slot number }
    {
        Second {
            number,
            slots: 0,
            late: 0,
            worst: None,
        }
    }

    /// Returns the second with one more slot, given this many milliseconds late.
    pub fn with(self, lateness: i64) -> Second
        ensures { result ≡ with_slot self lateness }
    {
        Second {
            number: self.number,
            slots: self.slots.saturating_add(1),
            late: if 0 < lateness {
                self.late.saturating_add(1)
            } else {
                self.late
            },
            worst: Some(greater(self.worst, lateness)),
        }
    }

    /// Returns the sum of both, with the number of this one.
    pub fn and(self, other: Second) -> Second
        ensures { result ≡ record { number = self.number; slots = capped (self.slots + other.slots); late = capped (self.late + other.late); worst = option_map_or (λ worst. Some (greater_lateness self.worst worst)) other.worst self.worst } }
    {
        Second {
            number: self.number,
            slots: self.slots.saturating_add(other.slots),
            late: self.late.saturating_add(other.late),
            worst: match other.worst {
                None => self.worst,
                Some(worst) => Some(greater(self.worst, worst)),
            },
        }
    }
}

impl Model for Minute {
    ghost use Rattle.std.specs.Prelude.{◌≡◌, List, length};
    ghost use Rattle.log_lines.specs.declared.minute.Second.{Second};

    ghost Value = { List Second };

    ghost view = { λ minute. minute.seconds.items };

    ghost invariant = { λ minute. length minute.seconds.items ≡ 60 };
}

impl Minute {
    /// Makes a minute without a slot.
    pub fn new(alloc: Global) -> Result<Minute, AllocError>
        ensures { IfOk result (λ minute. minute ≡ replicate 60 (no_slot 0)) }
    {
        let seconds = vec![in alloc; Second::new(0); SECONDS]?;
        Ok(Minute { seconds })
    }

    /// Counts a slot that was given at this moment, in milliseconds, this many milliseconds late.
    pub fn add(&mut self, moment: u64, lateness: i64)
        ensures { self.new ≡ slice_set self.old (second_index (moment / 1000)) (with_slot (held_of (moment / 1000) (second_at self.old (second_index (moment / 1000)))) lateness) }
    {
        let number = moment / 1000;
        let index = second_index(number);
        let second = self.at(index);
        self.put(index, held_of(number, second).with(lateness));
    }

    fn at(&self, index: usize) -> Second
        requires { index < 60 }
        ensures { result ≡ second_at self.now index }
    {
        self.seconds[index]
    }

    fn put(&mut self, index: usize, second: Second)
        requires { index < 60 }
        ensures { self.new ≡ slice_set self.old index second }
    {
        self.seconds[index] = second;
    }

    /// Returns the sum of the sixty seconds up to this moment, in milliseconds.
    pub fn sum(&self, moment: u64) -> Second {
        let now = moment / 1000;
        self.seconds
            .iter()
            .fold(Second::new(now), |sum, second| with_recent(sum, *second))
    }
}

// Returns the position of a second among sixty.
fn second_index(number: u64) -> usize
    ensures index { result ≡ second_index number }
    ensures in_range { result < 60 }
{
    (number % SECONDS as u64) as usize
}

// Returns the contents for a second at its position: nothing, where they belong to another second.
fn held_of(number: u64, second: Second) -> Second
    ensures { result ≡ held_of number second }
{
    if second.number == number {
        second
    } else {
        Second::new(number)
    }
}

// Adds a second that is at most a minute before the sum's.
fn with_recent(sum: Second, second: Second) -> Second {
    if second.number <= sum.number && sum.number - second.number < SECONDS as u64 {
        sum.and(second)
    } else {
        sum
    }
}

fn greater(worst: Option<i64>, lateness: i64) -> i64
    ensures { result ≡ greater_lateness worst lateness }
{
    match worst {
        None => lateness,
        Some(worst) if worst < lateness => lateness,
        Some(worst) => worst,
    }
}
