//! The word of a script's faulty line that can't stand there, and why.

use crate::forms::{EVENTS, Form, HEADERS, ROLL, form_of};
use crate::slips::nearest;
use proxy_words::{Lines, Words, long_number};
use std::alloc::{AllocError, Global};
use std::str;

/// The cause of a line's fault.
#[derive(Clone, Copy, Debug)]
pub(crate) enum LineFault {
    /// No line begins so.
    NoLine,
    /// No event has this name.
    NoEvent,
    /// An event's name stands in the place of its moment.
    NoMoment,
    /// What the word has to be, and the form of the line.
    Wanted(&'static str, &'static str),
    /// The line ends too early, or goes on for too long; and the form of the line.
    Length(&'static str),
    /// The line is a header line, and stands after an event.
    Behind,
    /// The server's name is in an earlier line.
    Again,
    /// 64 servers stand before it.
    Many,
}

/// A line's fault: the index of the word that can't stand there, where it is one, and the cause.
#[derive(Clone, Copy, Debug)]
pub(crate) struct Blame {
    pub(crate) word_index: Option<usize>,
    pub(crate) cause: LineFault,
    /// The known word that may have been meant.
    pub(crate) meant: Option<&'static str>,
}

impl Blame {
    fn new(word_index: Option<usize>, cause: LineFault) -> Blame {
        Blame {
            word_index,
            cause,
            meant: None,
        }
    }
}

/// Returns the fault of a script's line with this number, counted from 1; the line is the first faulty one.
pub(crate) fn blame_of(alloc: Global, script: &[u8], number: usize) -> Result<Blame, AllocError> {
    let line = line_at(script, number);
    let first = word_at(line, 0);
    if let Some(form) = form_of(&HEADERS, first) {
        let shape = misfit(form, line, 1);
        return Ok(shape.unwrap_or_else(|| blame_of_header(script, number, word_at(line, 1))));
    }
    if long_number(first).is_some() {
        return blame_of_event(alloc, line);
    }
    if first == ROLL.keyword.as_bytes() {
        let shape = misfit(&ROLL, line, 1);
        return Ok(shape.unwrap_or(Blame::new(None, LineFault::Length(ROLL.looks))));
    }
    if form_of(&EVENTS, first).is_some() {
        return Ok(Blame::new(Some(0), LineFault::NoMoment));
    }
    Ok(Blame {
        word_index: Some(0),
        cause: LineFault::NoLine,
        meant: near(alloc, first, &STARTS)?,
    })
}

/// The words with which a line may begin, beside moments.
const STARTS: [&str; 7] = [
    "places",
    "log",
    "retries",
    "redispatch",
    "queue-timeout",
    "server",
    "roll",
];

const NAMES: [&str; 7] = ["arrive", "done", "fail", "abort", "tick", "check", "limit"];

// Returns the fault of a line that begins with a moment.
fn blame_of_event(alloc: Global, line: &[u8]) -> Result<Blame, AllocError> {
    let name = word_at(line, 1);
    if let Some(form) = form_of(&EVENTS, name) {
        let shape = misfit(form, line, 2);
        return Ok(shape.unwrap_or(Blame::new(None, LineFault::Length(form.looks))));
    }
    Ok(Blame {
        word_index: Some(1),
        cause: LineFault::NoEvent,
        meant: near(alloc, name, &NAMES)?,
    })
}

fn near(
    alloc: Global,
    word: &[u8],
    known: &[&'static str],
) -> Result<Option<&'static str>, AllocError> {
    match str::from_utf8(word) {
        Ok(word) => nearest(alloc, word, known),
        Err(_) => Ok(None),
    }
}

// Returns the first word after the keyword that can't stand there; `None` where each can.
fn misfit(form: &Form, line: &[u8], start: usize) -> Option<Blame> {
    let mut words = Words::new(line).skip(start);
    for (at, kind) in form.word_kinds.iter().enumerate() {
        let Some(word) = words.next() else {
            let ends = at == form.least || at == form.word_kinds.len();
            return if ends {
                None
            } else {
                Some(Blame::new(None, LineFault::Length(form.looks)))
            };
        };
        if !kind.takes(word) {
            return Some(Blame::new(
                Some(start.saturating_add(at)),
                LineFault::Wanted(kind.wants(), form.looks),
            ));
        }
    }
    words.next()?;
    let behind = start.saturating_add(form.word_kinds.len());
    Some(Blame::new(Some(behind), LineFault::Length(form.looks)))
}

// Returns the fault of a header line whose words are right.
fn blame_of_header(script: &[u8], number: usize, name: &[u8]) -> Blame {
    if Lines::new(script).take(number).any(is_event) {
        return Blame::new(Some(0), LineFault::Behind);
    }
    let again = Lines::new(script).take(number.saturating_sub(1)).any(|line| word_at(line, 0)
        == b"server".as_slice()
        && word_at(line, 1) == name);
    if again {
        Blame::new(Some(1), LineFault::Again)
    } else {
        Blame::new(Some(0), LineFault::Many)
    }
}

// Says whether a line that isn't faulty is an event.
fn is_event(line: &[u8]) -> bool {
    let first = word_at(line, 0);
    long_number(first).is_some() || first == ROLL.keyword.as_bytes()
}

/// Returns the line with this number, counted from 1; an empty one where there is none.
pub(crate) fn line_at(script: &[u8], number: usize) -> &[u8] {
    Lines::new(script)
        .nth(number.saturating_sub(1))
        .unwrap_or(b"".as_slice())
}

fn word_at(line: &[u8], word_index: usize) -> &[u8] {
    Words::new(line).nth(word_index).unwrap_or(b"".as_slice())
}
