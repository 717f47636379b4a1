ghost use Rattle.std.specs.Prelude.{◌≡◌};
ghost use Rattle.proxy_words.specs.Text.{words};
ghost use Rattle.view_traces.specs.Kinds.{begins_window, has_roll, is_of_header, is_of_trace, is_trace, of_arrival, of_event, tells};

use proxy_words::{Lines, Words};

/// Says whether a text is a trace and not a script, by its first line that belongs to one kind
/// alone; a text without such a line means the same as both. At most one pass, and mostly a look at
/// the first event.
pub fn is_trace(text: &[u8]) -> bool
    ensures { result ≡ is_trace text.now }
{
    let mut lines = Lines::new(text);
    'lines: while let Some(line) = lines.next() {
        if let Some(of_trace) = tells(line) {
            return of_trace;
        }
    }
    false
}

/// Says whether a line of a script begins with the word that begins a window: its dispatcher then
/// keeps the entries of the last window alone. One pass.
pub fn has_roll(script: &[u8]) -> bool
    ensures { result ≡ has_roll script.now }
{
    let mut lines = Lines::new(script);
    'lines: while let Some(line) = lines.next() {
        if begins_window(line) {
            return true;
        }
    }
    false
}

fn begins_window(line: &[u8]) -> bool
    ensures { result ≡ begins_window (words line.now) }
{
    match Words::new(line).next() {
        None => false,
        Some(first) => first == b"roll".as_slice(),
    }
}

// Says whether a line belongs to a trace alone, or to a script alone.
fn tells(line: &[u8]) -> Option<bool>
    ensures { result ≡ tells (words line.now) }
{
    let mut words = Words::new(line);
    let first = words.next()?;
    if is_of_header(first) {
        return Some(false);
    }
    if is_of_trace(first) {
        return Some(true);
    }
    of_event(words)
}

// Decides by the words after a moment.
fn of_event(mut words: Words) -> Option<bool>
    ensures { result ≡ of_event words.entry }
{
    let name = words.next()?;
    if name == b"arrive".as_slice() {
        of_arrival(words)
    } else {
        None
    }
}

// `C O` belongs to a script and `T C D NAME` to a trace; both have lines of three words, which read
// as `C O NAME` or as `T C D`.
fn of_arrival(mut words: Words) -> Option<bool>
    ensures { result ≡ of_arrival words.entry }
{
    let _first = words.next()?;
    let _second = words.next()?;
    if words.next().is_none() {
        return Some(false);
    }
    if words.next().is_some() {
        Some(true)
    } else {
        None
    }
}

fn is_of_header(word: &[u8]) -> bool
    ensures { result ≡ is_of_header word.now }
{
    word == b"places".as_slice()
        || word == b"log".as_slice()
        || word == b"retries".as_slice()
        || word == b"redispatch".as_slice()
        || word == b"queue-timeout".as_slice()
        || word == b"server".as_slice()
}

fn is_of_trace(word: &[u8]) -> bool
    ensures { result ≡ is_of_trace word.now }
{
    word == b"direct".as_slice()
        || word == b"join".as_slice()
        || word == b"grant".as_slice()
        || word == b"move".as_slice()
        || word == b"free".as_slice()
        || word == b"retry".as_slice()
        || word == b"left".as_slice()
        || word == b"health".as_slice()
        || word == b"end".as_slice()
        || word == b"refused".as_slice()
        || word == b"queue".as_slice()
}
