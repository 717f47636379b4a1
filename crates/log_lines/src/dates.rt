//! Moments as dates and times of day.

ghost use Rattle.std.specs.Prelude.{◌≡◌, ◌-◌, ◌^◌, min, pos};

use jiff::Timestamp;
use std::alloc::{AllocError, Global};

/// The text of the last second that was written.
#[derive(Drop)]
struct Second {
    format: &'static str,
    number: i64,
    text: String,
}

/// The wall clock of a proxy: its time at moment 0, and texts of times.
#[derive(Drop)]
pub struct Dates {
    alloc: Global,
    /// Milliseconds from the Unix epoch to moment 0.
    base: i64,
    now: Second,
    due: Second,
    began: Second,
}

/// The formats of ISO 8601 and of HAProxy, without the milliseconds.
const ISO: &str = "%Y-%m-%dT%H:%M:%S";

const PLAIN: &str = "%d/%b/%Y:%H:%M:%S";

impl Dates {
    /// Makes the clock whose moment 0 is this number of milliseconds after the Unix epoch.
    pub fn new(alloc: Global, base: i64) -> Dates {
        Dates {
            alloc,
            base,
            now: Second::of(alloc, ISO),
            due: Second::of(alloc, ISO),
            began: Second::of(alloc, PLAIN),
        }
    }

    /// Writes the time this number of milliseconds after moment 0, as `2026-11-27T11:10:00.123Z`.
    pub fn push_now(&mut self, text: &mut String, millis: i64) -> Result<(), AllocError> {
        let millis = self.base.saturating_add(millis);
        self.now.push(self.alloc, text, millis)?;
        text.push('Z')
    }

    /// Writes a due date in the same form.
    pub fn push_due(&mut self, text: &mut String, millis: i64) -> Result<(), AllocError> {
        let millis = self.base.saturating_add(millis);
        self.due.push(self.alloc, text, millis)?;
        text.push('Z')
    }

    /// Writes when an exchange began, as `27/Nov/2026:11:10:00.123`.
    pub fn push_began(&mut self, text: &mut String, millis: i64) -> Result<(), AllocError> {
        let millis = self.base.saturating_add(millis);
        self.began.push(self.alloc, text, millis)
    }
}

impl Second {
    fn of(alloc: Global, format: &'static str) -> Second {
        Second {
            format,
            number: i64::MIN,
            text: String::new(alloc),
        }
    }

    fn push(&mut self, alloc: Global, text: &mut String, millis: i64) -> Result<(), AllocError> {
        let number = millis.div_euclid(1000);
        if number != self.number {
            self.text = text_of(alloc, number, self.format)?;
            self.number = number;
        }
        let rest = millis.rem_euclid(1000);
        write!(text, "{}.{rest:03}", self.text)
    }
}

// A time beyond the calendar becomes an empty text.
fn text_of(alloc: Global, second: i64, format: &str) -> Result<String, AllocError> {
    let Ok(stamp) = Timestamp::from_second(second) else {
        return Ok(String::new(alloc));
    };
    match stamp.strftime(alloc, format) {
        Ok(text) => Ok(text),
        Err(_) => Err(AllocError),
    }
}

/// A number of milliseconds that doesn't fit becomes the greatest one.
pub(crate) fn signed(millis: u64) -> i64
    ensures { result ≡ pos (min millis (2 ^ 63 - 1)) }
{
    i64::try_from(millis).unwrap_or(i64::MAX)
}
