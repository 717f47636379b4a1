//! Faulty lines with their numbers, and a mark below a word.

ghost use Rattle.std.specs.Prelude.{◌≤◌, ◌<◌, length, IfSome};

use std::alloc::AllocError;

/// The position of a word in its line.
#[derive(Clone, Copy, Debug, PartialEq, Eq)]
pub struct Span {
    pub start: usize,
    pub end: usize,
}

/// Returns where the word with this index in a line stands, counted from 0; `None` where the line has no such word.
pub fn span_of(line: &[u8], word_index: usize) -> Option<Span>
    ensures { IfSome result (λ span. (span.start < span.end) × (span.end ≤ length line.now)) }
{
    let mut seen = 0usize;
    let mut start = None;
    for (i, byte) in line.iter().enumerate() {
        let blank = *byte == b' ' || *byte == b'\t';
        match start {
            Some(start) if blank && seen == word_index => return Some(Span { start, end: i }),
            Some(_) if blank => {
                seen = seen.saturating_add(1);
                start = None;
            }
            None if !blank => start = Some(i),
            _ => {}
        }
    }
    let start = start?;
    if seen == word_index {
        Some(Span {
            start,
            end: line.len(),
        })
    } else {
        None
    }
}

/// Writes a line with its number, and below it a mark: below the span, or after the line where
/// there is none. Unprintable bytes are shown as question marks, and a tab as one blank.
pub fn push_marked_line(
    text: &mut String,
    number: usize,
    line: &[u8],
    span: Option<Span>,
) -> Result<(), AllocError> {
    let before = text.len();
    write!(text, "line {number}: ")?;
    let head = text.len().saturating_sub(before);
    push_printable(text, line)?;
    text.push('\n')?;
    let span = span.unwrap_or(Span {
        start: line.len(),
        end: line.len().saturating_add(1),
    });
    push_times(text, ' ', head)?;
    push_times(text, ' ', span.start)?;
    push_times(text, '^', span.end.saturating_sub(span.start))?;
    text.push('\n')
}

/// Writes bytes in printable form: unprintable ones as question marks, and a tab as one blank.
pub fn push_printable(text: &mut String, bytes: &[u8]) -> Result<(), AllocError> {
    for byte in bytes {
        text.push(match *byte {
            b'\t' => ' ',
            b' '..=b'~' => char::from(*byte),
            _ => '?',
        })?;
    }
    Ok(())
}

fn push_times(text: &mut String, sign: char, times: usize) -> Result<(), AllocError> {
    for _ in 0..times {
        text.push(sign)?;
    }
    Ok(())
}
