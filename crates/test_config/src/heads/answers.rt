use super::fields::{Named, are, is_field};
use crate::assertions::holds;
use req_view::{AnswerHead, HeadRefusal, Version, Viewed, answer_head};
use std::alloc::Global;
use std::process::Abort;

/// An answer's bytes, and the length and the parts of its head.
struct Answer {
    text: &'static str,
    length: usize,
    status: u16,
    reason: &'static [u8],
    version: Version,
    fields: &'static [Named],
    values_of_a: &'static [&'static [u8]],
}

static ANSWERS: [Answer; 3] = [
    Answer {
        text: "HTTP/1.0 404 Not  here \r\nA: 1\r\nB:\t2 \r\na: 3\r\n\r\nbody",
        length: 46,
        status: 404,
        reason: b"Not  here ",
        version: Version::Http10,
        fields: &[(b"A", b"1"), (b"B", b"2"), (b"a", b"3")],
        values_of_a: &[b"1", b"3"],
    },
    // An answer needs no field and no reason phrase.
    Answer {
        text: "HTTP/1.1 200 OK\r\n\r\n",
        length: 19,
        status: 200,
        reason: b"OK",
        version: Version::Http11,
        fields: &[],
        values_of_a: &[],
    },
    Answer {
        text: "HTTP/1.1 000\n\n",
        length: 14,
        status: 0,
        reason: b"",
        version: Version::Http11,
        fields: &[],
        values_of_a: &[],
    },
];

fn has_parts(rt: &impl Abort, head: &AnswerHead, row: &Answer) {
    holds(rt, head.status() == row.status, "status", row.text);
    holds(rt, head.reason() == row.reason, "reason", row.text);
    holds(rt, head.version() == row.version, "version", row.text);
    let count = row.fields.len();
    holds(rt, head.field_count() == count, "fields", row.text);
    for (i, named) in row.fields.iter().enumerate() {
        is_field(rt, head.field(i), named, row.text);
    }
}

fn tells_its_parts(rt: &impl Abort, alloc: Global, row: &Answer) {
    let Viewed::Whole(head, length) = answer_head(alloc, row.text.as_bytes()) else {
        panic!(rt; "no head: {}", row.text);
    };
    holds(rt, length == row.length, "length", row.text);
    has_parts(rt, &head, row);
    are(rt, head.values(b"A"), row.values_of_a, row.text);
    drop(head);
}

#[test]
fn a_whole_answer_head_tells_its_parts(rt: HostRuntime) {
    for row in &ANSWERS {
        tells_its_parts(&rt, rt.alloc(), row);
    }
}

fn waits(alloc: Global, bytes: &[u8]) -> bool {
    let seen = answer_head(alloc, bytes);
    let waits = matches!(seen, Viewed::More);
    drop(seen);
    waits
}

#[test]
fn parts_of_an_answer_head_wait_for_more(rt: HostRuntime) {
    let whole = b"HTTP/1.1 200 OK\r\nA: b\r\n\r\n";
    for len in 0..whole.len() {
        let waits = waits(rt.alloc(), &whole[..len]);
        holds(&rt, waits, "a part", "waits");
    }
}

static NO_ANSWERS: [&str; 3] = [
    "HTTP/1.1 2x0 OK\r\n\r\n",
    "HTTP/2.0 200 OK\r\n\r\n",
    "GET / HTTP/1.1\r\n\r\n",
];

fn is_refused(alloc: Global, bytes: &[u8]) -> bool {
    let seen = answer_head(alloc, bytes);
    let refused = matches!(seen, Viewed::Refused(HeadRefusal::HeadFault));
    drop(seen);
    refused
}

#[test]
fn what_is_no_answer_head(rt: HostRuntime) {
    for text in &NO_ANSWERS {
        let refused = is_refused(rt.alloc(), text.as_bytes());
        holds(&rt, refused, "no answer", text);
    }
}
