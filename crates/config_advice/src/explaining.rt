//! `check --explain`: every faulty line of a configuration, and its replacement.
//!
//! The configuration's own reader finds the faults. A line that it names is corrected as the
//! explanation says, by leaving it out or by moving its section into the one `listen`, and the file
//! is read again.

ghost use Rattle.std.specs.Prelude.{◌↔◌, IfOk, IsNone, IsOk, IsTrue};
ghost use Rattle.proxy_config.specs.File.{reading};

use crate::advising::{advice, has_own_advice, sentence};
use crate::knowns::meant;
use crate::sections::{is_merged, is_one_of, is_other, is_section};
use base_advice::{Span, push_marked_line, span_of};
use proxy_config::{ConfigFault, FaultCause, MOST_BYTES, ReadError, read};
use proxy_words::{Lines, Words, without_comment};
use std::alloc::{AllocError, Global};

/// The most faulty lines that are named: each of them costs several readings of the file.
const MOST_FAULTS: usize = 1000;

/// The most words of a line that are searched for the one at fault.
const MOST_WORDS: usize = 64;

/// The explanation of a configuration.
#[derive(Debug, Drop)]
pub struct Explanation {
    pub text: String,
    /// The number of lines that would have to change.
    pub faulty: usize,
    /// The configuration has no fault.
    pub whole: bool,
}

/// Explains every faulty line, up to a thousand. At worst it reads the file again for each of the
/// first 63 words of a faulty line, and twice more. Fails only where memory is refused.
pub fn explain(alloc: Global, bytes: &[u8]) -> Result<Explanation, AllocError>
    ensures whole { IfOk result (λ told. IsTrue told.whole ↔ IsOk (reading bytes.now)) }
{
    let whole = fault_of(alloc, bytes)?.is_none();
    let mut text = String::new(alloc);
    let faulty = if whole {
        0
    } else {
        push_faults(alloc, &mut text, bytes)?
    };
    Ok(Explanation {
        text,
        faulty,
        whole,
    })
}

// Writes the explanation of each faulty line, and returns how many there are.
fn push_faults(alloc: Global, text: &mut String, bytes: &[u8]) -> Result<usize, AllocError> {
    if MOST_BYTES < bytes.len() {
        text.push_str("The file is longer than 1048576 bytes.\n")?;
        return Ok(0);
    }
    let mut lines = lines_of(alloc, bytes)?;
    for turn in 0..MOST_FAULTS {
        let Some(fault) = first_fault(alloc, &lines)? else {
            return Ok(turn);
        };
        if fault.cause == FaultCause::Missing {
            text.push_str(missing(fault))?;
            return Ok(turn);
        }
        let word = word_at_fault(alloc, &lines, fault)?;
        describe(alloc, text, &lines, fault, word)?;
        set_right(alloc, &mut lines, fault, word)?;
    }
    if first_fault(alloc, &lines)?.is_some() {
        text.push_str("Then there is more.\n\n")?;
    }
    Ok(MOST_FAULTS)
}

fn missing(fault: ConfigFault) -> &'static str {
    if fault.line == 0 {
        "Then there is no listen.\n\n"
    } else {
        "Then the listen lacks a bind or a server.\n\n"
    }
}

fn lines_of(alloc: Global, bytes: &[u8]) -> Result<Vec<Vec<u8>>, AllocError> {
    let mut all = Vec::new(alloc);
    let mut lines = Lines::new(bytes);
    'lines: while let Some(line) = lines.next() {
        all.push(Vec::from_slice(alloc, line)?)?;
    }
    Ok(all)
}

fn first_fault(alloc: Global, lines: &[Vec<u8>]) -> Result<Option<ConfigFault>, AllocError> {
    fault_of_front(alloc, lines, lines.len(), b"".as_slice())
}

fn fault_of(alloc: Global, bytes: &[u8]) -> Result<Option<ConfigFault>, AllocError>
    ensures { IfOk result (λ fault. IsNone fault ↔ IsOk (reading bytes.now)) }
{
    match read(alloc, bytes) {
        Ok(_) => Ok(None),
        Err(ReadError::Fault(fault)) => Ok(Some(fault)),
        Err(ReadError::NoMemory) => Err(AllocError),
    }
}

/// Returns the fault of the file where the line is cut to its first words.
fn fault_of_front(
    alloc: Global,
    lines: &[Vec<u8>],
    at: usize,
    front: &[u8],
) -> Result<Option<ConfigFault>, AllocError> {
    let mut bytes = Vec::new(alloc);
    for (i, line) in lines.iter().enumerate() {
        if i > 0 {
            let end = line_end(&bytes);
            bytes.extend_from_slice(end)?;
        }
        bytes.extend_from_slice(if i == at { front } else { line })?;
    }
    fault_of(alloc, &bytes)
}

/// The line's end that keeps its meaning: a carriage return right before a line feed doesn't belong to the line.
fn line_end(line: &[u8]) -> &'static [u8] {
    if line.ends_with(b"\r".as_slice()) {
        b"\r\n".as_slice()
    } else {
        b"\n".as_slice()
    }
}

/// Returns the line number of a fault.
fn line_index(fault: ConfigFault) -> usize {
    (fault.line as usize).saturating_sub(1)
}

/// Leaves the line out, keeps its valid beginning, or moves a section into the one `listen`.
fn set_right(
    alloc: Global,
    lines: &mut Vec<Vec<u8>>,
    fault: ConfigFault,
    word: Option<usize>,
) -> Result<(), AllocError> {
    let at = line_index(fault);
    let kept = if fault.cause == FaultCause::Section {
        merge(alloc, lines, at)?
    } else {
        front_instead(alloc, lines, at, word.unwrap_or(0))?
    };
    if let Some(line) = lines.get_mut(at) {
        *line = kept;
    }
    Ok(())
}

/// Returns what replaces a refused section's first line. The line that ended the `listen` before
/// goes, so that the section's lines belong to the `listen`; where that can't be, the section's
/// lines go.
fn merge(alloc: Global, lines: &mut Vec<Vec<u8>>, at: usize) -> Result<Vec<u8>, AllocError> {
    let merged = lines
        .get(at)
        .is_some_and(|line| is_merged(first_word(line)));
    let begun = lines
        .iter()
        .take(at)
        .any(|line| first_word(line) == b"listen".as_slice());
    if !merged {
        let end = next_section(lines, at);
        leave_out(alloc, lines, at, end);
    } else if begun {
        let start = left_at(lines, at);
        leave_out(alloc, lines, start, at);
    } else {
        return Vec::from_slice(alloc, b"listen merged");
    }
    Ok(Vec::new(alloc))
}

/// Returns the index of the line where the next section begins.
fn next_section(lines: &[Vec<u8>], at: usize) -> usize {
    for (i, line) in lines.iter().enumerate() {
        if at < i && is_section(first_word(line)) {
            return i;
        }
    }
    lines.len()
}

/// Returns the index of the line where another section has ended the `listen` before this line; this line's own
/// index where none has.
fn left_at(lines: &[Vec<u8>], at: usize) -> usize {
    let mut inside = false;
    for (i, line) in lines.iter().enumerate() {
        let word = first_word(line);
        if i >= at || inside && is_other(word) {
            return i;
        }
        inside = inside || word == b"listen".as_slice();
    }
    at
}

fn leave_out(alloc: Global, lines: &mut [Vec<u8>], start: usize, end: usize) {
    for (i, line) in lines.iter_mut().enumerate() {
        if start <= i && i < end {
            *line = Vec::new(alloc);
        }
    }
}

/// Lines whose beginning is valid without the words at fault.
const FRONTS: [&str; 5] = ["bind", "server", "listen", "defaults", "global"];

/// Returns what replaces a faulty line: the words before the one at fault where they are enough, or
/// nothing. A `listen` stays one.
fn front_instead(
    alloc: Global,
    lines: &[Vec<u8>],
    at: usize,
    word_index: usize,
) -> Result<Vec<u8>, AllocError> {
    let Some(line) = lines.get(at) else {
        return Ok(Vec::new(alloc));
    };
    let word = first_word(line);
    if word_index > 0 && is_one_of(&FRONTS, word) {
        let front = front_of(line, word_index).unwrap_or(b"".as_slice());
        let left = fault_of_front(alloc, lines, at, front)?;
        if left.is_none_or(|fault| line_index(fault) != at) {
            return Vec::from_slice(alloc, front);
        }
    }
    if word == b"listen".as_slice() {
        Vec::from_slice(alloc, b"listen merged")
    } else {
        Ok(Vec::new(alloc))
    }
}

fn first_word(line: &[u8]) -> &[u8] {
    word_at(line, 0)
}

fn word_at(line: &[u8], word_index: usize) -> &[u8] {
    let mut words = Words::new(without_comment(line));
    for _ in 0..word_index {
        if words.next().is_none() {
            break;
        }
    }
    words.next().unwrap_or(b"".as_slice())
}

/// Writes a line with its number, marks the word at fault, and tells the cause, the word that may
/// have been meant and the replacement.
fn describe(
    alloc: Global,
    text: &mut String,
    lines: &[Vec<u8>],
    fault: ConfigFault,
    word: Option<usize>,
) -> Result<(), AllocError> {
    let Some(line) = lines.get(line_index(fault)) else {
        return Ok(());
    };
    let span = word.and_then(|index| span_of(without_comment(line), index));
    push_marked_line(text, fault.line as usize, line, span)?;
    let cause = fault.cause;
    let first = first_word(line);
    let said = sentence(cause, first);
    writeln!(text, "  {cause}: {said}")?;
    push_meant(alloc, text, line, cause, word)?;
    let at_fault = word.map_or(b"".as_slice(), |index| word_at(line, index));
    if let Some(advice) = advice(cause, first, word_at(line, 1), at_fault) {
        writeln!(text, "  instead: {advice}")?;
    }
    text.push('\n')
}

/// Writes the known word that may have been meant by an unknown one, where HAProxy doesn't know it either.
fn push_meant(
    alloc: Global,
    text: &mut String,
    line: &[u8],
    cause: FaultCause,
    word: Option<usize>,
) -> Result<(), AllocError> {
    let (FaultCause::Keyword, Some(index)) = (cause, word) else {
        return Ok(());
    };
    let first = first_word(line);
    if has_own_advice(first, word_at(line, 1)) {
        return Ok(());
    }
    match meant(alloc, first, index, word_at(line, index))? {
        Some(meant) => writeln!(text, "  Did you mean {meant}?"),
        None => Ok(()),
    }
}

/// Returns the index of the word at fault among a line's words; `None` where the line ends too early.
///
/// Words are read from the left. So the word is the last one of the shortest beginning of the line
/// that has the fault; where the line has too many words, it is the first one after the longest
/// beginning without the fault.
fn word_at_fault(
    alloc: Global,
    lines: &[Vec<u8>],
    fault: ConfigFault,
) -> Result<Option<usize>, AllocError> {
    let at = line_index(fault);
    let Some(line) = lines.get(at) else {
        return Ok(None);
    };
    let mut fine = None;
    for count in 1..MOST_WORDS {
        let Some(front) = front_of(line, count) else {
            break;
        };
        let faulty = fault_of_front(alloc, lines, at, front)? == Some(fault);
        if faulty && fault.cause != FaultCause::Words {
            return Ok(Some(count - 1));
        }
        if !faulty {
            fine = Some(count);
        }
    }
    Ok(fine)
}

/// Returns the line up to the end of its first `words` words; `None` where it has fewer, or `words` is 0.
fn front_of(line: &[u8], words: usize) -> Option<&[u8]> {
    let Span { end, .. } = span_of(without_comment(line), words.checked_sub(1)?)?;
    line.get(..end)
}
