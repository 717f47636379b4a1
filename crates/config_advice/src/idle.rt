//! Lines that the configuration's reader accepts and that have no effect.

use crate::sections::{is_global, is_section};
use base_advice::push_printable;
use proxy_words::{Lines, Words, without_comment};
use std::alloc::{AllocError, Global};

/// The most kinds of lines that are named.
const MOST_KINDS: usize = 64;

const LOG: &str = "no log is sent to a log server";

/// Words of `global` that have no effect, and why.
const GLOBALS: [(&str, &str); 9] = [
    ("daemon", "the program stays in the foreground"),
    ("user", "the program stays with the user who started it"),
    ("group", "the program stays with the user who started it"),
    ("chroot", "the program sees the whole file system"),
    ("maxconn", "--places of run bounds the live requests"),
    ("nbthread", "--loops of run says how many threads serve"),
    ("pidfile", "no such file is written"),
    ("stats", "there is no socket of statistics"),
    ("log", LOG),
];

/// The same for other sections.
const OTHERS: [(&str, &str); 3] = [("log", LOG), ("httplog", LOG), ("dontlognull", LOG)];

/// Names each kind of line that is accepted and has no effect, once, where it first stands. The
/// text is empty where there is none.
pub fn idle_lines(alloc: Global, bytes: &[u8]) -> Result<String, AllocError> {
    let mut text = String::new(alloc);
    let mut kinds = Vec::new(alloc);
    let mut within_global = false;
    for (at, line) in Lines::new(bytes).enumerate() {
        let mut words = Words::new(without_comment(line));
        let first = words.next().unwrap_or(b"".as_slice());
        if is_section(first) {
            within_global = is_global(first);
        } else if let Some(kind) = kind_of(within_global, first, words.next()) {
            if !kinds.contains(&kind.word) && kinds.len() < MOST_KINDS {
                kinds.push(kind.word)?;
                push_kind(&mut text, at.saturating_add(1), &kind)?;
            }
        }
    }
    Ok(text)
}

/// A kind of line: its word, and why it has no effect.
#[derive(Clone, Copy)]
struct Kind<'a> {
    word: &'a [u8],
    reason: &'static str,
    /// The text before and after the word.
    around: (&'static str, &'static str),
}

fn kind_of<'a>(within_global: bool, first: &'a [u8], second: Option<&'a [u8]>) -> Option<Kind<'a>> {
    if first.is_empty() {
        return None;
    }
    if within_global {
        let reason = reason_in(&GLOBALS, first).unwrap_or("nothing in global has one");
        let around = ("", " in global");
        return Some(Kind {
            word: first,
            reason,
            around,
        });
    }
    let (word, around) = match first {
        b"option" => (second?, ("option ", "")),
        b"log" => (first, ("", "")),
        _ => return None,
    };
    let reason = reason_in(&OTHERS, word)?;
    Some(Kind {
        word,
        reason,
        around,
    })
}

fn reason_in(rows: &[(&'static str, &'static str)], word: &[u8]) -> Option<&'static str> {
    for (name, reason) in rows {
        if word == name.as_bytes() {
            return Some(*reason);
        }
    }
    None
}

fn push_kind(text: &mut String, line: usize, kind: &Kind) -> Result<(), AllocError> {
    let (before, behind) = kind.around;
    write!(text, "warning: line {line}: {before}")?;
    push_printable(text, kind.word)?;
    let reason = kind.reason;
    writeln!(text, "{behind} has no effect: {reason}")
}
