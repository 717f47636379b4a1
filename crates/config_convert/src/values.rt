//! Times, options and other values: those that the profile has, and the effects of the others.

use crate::fates::{Fate, fate_of};
use crate::lines::{Line, words_of};
use crate::notes::Weight;
use crate::output::Output;
use std::alloc::AllocError;

/// Which lines of a section count.
#[derive(Clone, Copy, Debug, PartialEq, Eq)]
pub(crate) struct Role {
    /// The lines about clients.
    pub(crate) front: bool,
    /// The lines about servers.
    pub(crate) back: bool,
}

const REDISPATCH: &str =
    "It would have gone to another server at each such retry: here it does at the last one alone.";

/// Translates a line of `timeout`.
pub(crate) fn take_timeout(
    output: &mut Output,
    role: Role,
    line: &Line,
    checked: bool,
) -> Result<(), AllocError> {
    let (ours, counts) = match line.word(1) {
        b"client" => (true, role.front),
        b"connect" | b"server" | b"queue" => (true, role.back),
        _ => (false, true),
    };
    if !counts {
        return Ok(());
    }
    if ours && !line.is_odd {
        return output.keep(line.number, line.words.as_slice());
    }
    lose_by_fate(output, line, 2, checked)
}

/// Translates a line of `option`.
pub(crate) fn take_option(
    output: &mut Output,
    role: Role,
    line: &Line,
    checked: bool,
) -> Result<(), AllocError> {
    match line.word(1) {
        b"redispatch" if role.back => take_redispatch(output, line),
        b"abortonclose" if role.back => keep_option(output, line),
        b"httplog" | b"dontlognull" if role.front => keep_option(output, line),
        b"redispatch" | b"abortonclose" | b"httplog" | b"dontlognull" => Ok(()),
        _ => lose_by_fate(output, line, 2, checked),
    }
}

// Writes the option without the words that may stand after it.
fn keep_option(output: &mut Output, line: &Line) -> Result<(), AllocError> {
    output.keep(line.number, line.words.get(..2).unwrap_or(&[]))
}

fn take_redispatch(output: &mut Output, line: &Line) -> Result<(), AllocError> {
    match line.word(2) {
        b"0" => take_back(output, line.word(1), line),
        b"" | b"-1" => keep_option(output, line),
        _ => {
            keep_option(output, line)?;
            output.note(line, 2, Weight::Slight, REDISPATCH)
        }
    }
}

/// Translates a line of `no`, which takes an option back.
pub(crate) fn take_no(output: &mut Output, line: &Line) -> Result<(), AllocError> {
    take_back(output, line.word(2), line)
}

fn take_back(output: &mut Output, option: &[u8], line: &Line) -> Result<(), AllocError> {
    let mut words = words_of(output.alloc, b"option")?;
    words.push(Vec::from_slice(output.alloc, option)?)?;
    output.take_back(&words)?;
    output.comment(line, "It takes back what stands before.")
}

/// Writes a line that the profile doesn't have as a comment, by its effect.
pub(crate) fn lose_by_fate(
    output: &mut Output,
    line: &Line,
    label: usize,
    checked: bool,
) -> Result<(), AllocError> {
    let Fate { weight, reason } = fate_of(line.word(0), line.word(1));
    let of_checks = matches!(
        line.word(0),
        b"http-check" | b"tcp-check" | b"external-check"
    ) || matches!(line.word(1), b"httpchk" | b"check")
        || line.word(1).ends_with(b"-check".as_slice());
    let weight = if of_checks && !checked { None } else { weight };
    output.lose(line, label, weight, reason)
}
