//! Times in words: seconds, to three decimal places.

use due_key::Due;
use std::alloc::AllocError;

const SECOND: u64 = 1000;

/// Writes a number of milliseconds as seconds.
pub fn push_seconds(text: &mut String, millis: u64) -> Result<(), AllocError> {
    let whole = millis / SECOND;
    let part = millis % SECOND;
    write!(text, "{whole}.{part:03} s")
}

/// Writes a number of milliseconds as seconds, aligned with others below each other.
pub fn push_moment(text: &mut String, millis: u64) -> Result<(), AllocError> {
    let whole = millis / SECOND;
    let part = millis % SECOND;
    write!(text, "{whole:>3}.{part:03} s")
}

/// Writes a due date, which may lie before the beginning.
pub fn push_due(text: &mut String, due: Due) -> Result<(), AllocError> {
    if due.get() < 0 {
        text.push_str("-")?;
    }
    push_seconds(text, due.get().unsigned_abs())
}

/// Writes a lateness in milliseconds; a negative one is early.
pub fn push_lateness(text: &mut String, late: i64) -> Result<(), AllocError> {
    push_seconds(text, late.unsigned_abs())?;
    text.push_str(if 0 < late { " late" } else { " early" })
}
