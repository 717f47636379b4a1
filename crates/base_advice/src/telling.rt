//! The fault of a line in words.

use crate::blame::{Blame, LineFault, blame_of, line_at};
use crate::marking::{push_marked_line, span_of};
use std::alloc::{AllocError, Global};

/// Writes what is wrong with the first faulty line of a script, which has this number, 0 where the
/// script is too long: the line, a mark below the word at fault, or after the line where it ends
/// too early, and the cause.
pub fn explain_script_line(
    alloc: Global,
    script: &[u8],
    number: usize,
) -> Result<String, AllocError> {
    let mut text = String::new(alloc);
    if number == 0 {
        text.push_str("  A script has at most 4194304 bytes.\n")?;
        return Ok(text);
    }
    let line = line_at(script, number);
    let blame = blame_of(alloc, script, number)?;
    let span = blame.word_index.and_then(|index| span_of(line, index));
    push_marked_line(&mut text, number, line, span)?;
    push_cause(&mut text, &blame)?;
    Ok(text)
}

/// Writes the line of a trace with this number; nothing for line 0.
pub fn explain_trace_line(
    alloc: Global,
    trace: &[u8],
    number: usize,
) -> Result<String, AllocError> {
    let mut text = String::new(alloc);
    if number != 0 {
        let line = line_at(trace, number);
        push_marked_line(&mut text, number, line, span_of(line, 0))?;
    }
    Ok(text)
}

fn push_cause(text: &mut String, blame: &Blame) -> Result<(), AllocError> {
    match blame.cause {
        LineFault::NoLine => text.push_str(
            "  No line begins so: an event begins with its moment.\n",
        )?,
        LineFault::NoEvent => text.push_str("  No event has this name.\n")?,
        LineFault::NoMoment => text.push_str(
            "  An event begins with its moment, in milliseconds.\n",
        )?,
        LineFault::Wanted(wanted, looks) => write!(text, "  {wanted} The line is {looks}.\n")?,
        LineFault::Length(looks) => write!(text, "  The line is {looks}.\n")?,
        LineFault::Behind => text.push_str("  Header lines stand before the first event.\n")?,
        LineFault::Again => text.push_str("  A server of this name stands in an earlier line.\n")?,
        LineFault::Many => text.push_str("  There are at most 64 servers.\n")?,
    }
    match blame.meant {
        Some(meant) => write!(text, "  Did you mean {meant}?\n"),
        None => Ok(()),
    }
}
