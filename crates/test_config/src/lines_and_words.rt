use crate::assertions::holds;
use proxy_words::{
    Lines, Parts, Words, is_name, long_number, milliseconds, number, signed_long_number,
    without_comment,
};
use std::process::Abort;

/// The iterator that cuts a text.
enum By {
    Lines,
    Words,
    Parts,
}

struct CutRow {
    by: By,
    text: &'static str,
    pieces: &'static [&'static str],
}

static CUTS: [CutRow; 4] = [
    // Lines end at line feeds.
    CutRow {
        by: By::Lines,
        text: "a\r\n\n b\r",
        pieces: &["a", "", " b\r"],
    },
    // Words stand between blanks.
    CutRow {
        by: By::Words,
        text: " \tserver  a\t",
        pieces: &["server", "a"],
    },
    // Parts stand between commas.
    CutRow {
        by: By::Parts,
        text: "fast , slow\t,, a b",
        pieces: &["fast", "slow", "", "a b"],
    },
    // An empty text has one part.
    CutRow {
        by: By::Parts,
        text: " \t",
        pieces: &[""],
    },
];

/// A text that is being cut.
#[derive(Drop)]
enum Cut {
    Lines(Lines<'static>),
    Words(Words<'static>),
    Parts(Parts<'static>),
}

fn begin(row: &CutRow) -> Cut {
    let text = row.text.as_bytes();
    match row.by {
        By::Lines => Cut::Lines(Lines::new(text)),
        By::Words => Cut::Words(Words::new(text)),
        By::Parts => Cut::Parts(Parts::new(text)),
    }
}

fn next(cut: &mut Cut) -> Option<&'static [u8]> {
    match cut {
        Cut::Lines(lines) => lines.next(),
        Cut::Words(words) => words.next(),
        Cut::Parts(parts) => parts.next(),
    }
}

fn is_cut(rt: &impl Abort, row: &CutRow) {
    let mut cut = begin(row);
    for piece in row.pieces {
        holds(
            rt,
            next(&mut cut) == Some(piece.as_bytes()),
            row.text,
            piece,
        );
    }
    holds(rt, next(&mut cut).is_none(), row.text, "its end");
    holds(rt, next(&mut cut).is_none(), row.text, "behind its end");
}

#[test]
fn lines_words_and_parts_are_cut_at_their_ends(rt: HostRuntime) {
    for row in &CUTS {
        is_cut(&rt, row);
    }
}

/// The reading of a word as a number, a name or a line.
enum Is {
    Number(Option<u32>),
    LongNumber(Option<u64>),
    Signed(Option<i64>),
    Milliseconds(Option<u64>),
    Name(bool),
    WithoutComment(&'static str),
}

type WordRow = (&'static str, Is);

static WORDS: [WordRow; 36] = [
    // A number has at most nine digits.
    ("999999999", Is::Number(Some(999_999_999))),
    ("000000080", Is::Number(Some(80))),
    ("1000000000", Is::Number(None)),
    ("", Is::Number(None)),
    ("1x", Is::Number(None)),
    // A long number has at most eighteen.
    (
        "999999999999999999",
        Is::LongNumber(Some(999_999_999_999_999_999)),
    ),
    ("0000000000000000000", Is::LongNumber(None)),
    // A signed number has at most one sign.
    ("-524287", Is::Signed(Some(-524_287))),
    ("-0", Is::Signed(Some(0))),
    ("12", Is::Signed(Some(12))),
    (
        "-999999999999999999",
        Is::Signed(Some(-999_999_999_999_999_999)),
    ),
    ("--1", Is::Signed(None)),
    ("+1", Is::Signed(None)),
    ("-", Is::Signed(None)),
    // A time has a unit, and microseconds are rounded up.
    ("1500us", Is::Milliseconds(Some(2))),
    ("2000us", Is::Milliseconds(Some(2))),
    ("0us", Is::Milliseconds(Some(0))),
    ("7", Is::Milliseconds(Some(7))),
    ("7ms", Is::Milliseconds(Some(7))),
    ("7s", Is::Milliseconds(Some(7_000))),
    ("7m", Is::Milliseconds(Some(420_000))),
    ("7h", Is::Milliseconds(Some(25_200_000))),
    ("999999999d", Is::Milliseconds(Some(86_399_999_913_600_000))),
    // Words that aren't times.
    ("1x", Is::Milliseconds(None)),
    ("ms", Is::Milliseconds(None)),
    ("1 s", Is::Milliseconds(None)),
    ("1000000000us", Is::Milliseconds(None)),
    ("-1", Is::Milliseconds(None)),
    // A name has at most 32 bytes.
    ("a-B_9.:", Is::Name(true)),
    ("12345678901234567890123456789012", Is::Name(true)),
    ("123456789012345678901234567890123", Is::Name(false)),
    ("", Is::Name(false)),
    ("*", Is::Name(false)),
    ("\u{e9}", Is::Name(false)),
    // A comment may begin anywhere.
    ("a#b # c", Is::WithoutComment("a")),
    ("a b", Is::WithoutComment("a b")),
];

fn is_so(word: &[u8], is: &Is) -> bool {
    match is {
        Is::Number(found) => number(word) == *found,
        Is::LongNumber(found) => long_number(word) == *found,
        Is::Signed(found) => signed_long_number(word) == *found,
        Is::Milliseconds(found) => milliseconds(word) == *found,
        Is::Name(found) => is_name(word) == *found,
        Is::WithoutComment(line) => without_comment(word) == line.as_bytes(),
    }
}

#[test]
fn words_are_numbers_times_names_and_comments_as_they_are_written(rt: HostRuntime) {
    for (word, is) in &WORDS {
        holds(&rt, is_so(word.as_bytes(), is), "words", word);
    }
}
