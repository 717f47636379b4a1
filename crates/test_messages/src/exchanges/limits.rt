use crate::assertions::{holds, same};
use crate::exchanges::relays::{GET, Relay, Side, TURNS};
use crate::fakes::Feed;
use crate::repeats::{Repeated, bytes_of};
use relay_http::{Fault, MOST_INTERIMS};
use req_view::{HEAD_BYTES, HEAD_FIELDS};
use std::alloc::Global;
use std::process::Abort;
use std::thread::Threads;

/// A message at a limit or past it, and how many bytes of it are written.
struct Limit {
    what: &'static str,
    side: Side,
    bytes: Repeated,
    expected: Result<usize, Fault>,
}

const HEAD: &[u8] = b"GET / HTTP/1.1\r\nHost: h\r\n";

const LONG_HEAD: &[u8] = b"GET / HTTP/1.1\r\nHost: h\r\nX: ";

// the bytes before a size line's extension
const SIZE_START: &[u8] = b"POST / HTTP/1.1\r\nHost: h\r\nTransfer-Encoding: chunked\r\n\r\n1;";

// and before trailers
const TRAILER_START: &[u8] =
    b"POST / HTTP/1.1\r\nHost: h\r\nTransfer-Encoding: chunked\r\n\r\n0\r\n";

const INTERIM: &[u8] = b"HTTP/1.1 103 X\r\n\r\n";

const ANSWER: &[u8] = b"HTTP/1.1 200 OK\r\nContent-Length: 0\r\n\r\n";

const CLOSE: &[u8] = b"Connection: close\r\n";

const CHUNK_TEXT: &[u8] =
    b"POST / HTTP/1.1\r\nHost: h\r\nTransfer-Encoding: chunked\r\nConnection: close\r\n\r\n1\r\na\r\n0\r\n\r\n";

const NO_CHUNK_TEXT: &[u8] =
    b"POST / HTTP/1.1\r\nHost: h\r\nTransfer-Encoding: chunked\r\nConnection: close\r\n\r\n0\r\n\r\n";

static LIMITS: [Limit; 10] = [
    Limit {
        what: "the longest head",
        side: Side::Request,
        bytes: Repeated {
            start: LONG_HEAD,
            unit: b"x",
            count: HEAD_BYTES - LONG_HEAD.len() - 4,
            end: b"\r\n\r\n",
        },
        expected: Ok(HEAD_BYTES + CLOSE.len()),
    },
    Limit {
        what: "a head too long",
        side: Side::Request,
        bytes: Repeated {
            start: LONG_HEAD,
            unit: b"x",
            count: HEAD_BYTES + 1 - LONG_HEAD.len() - 4,
            end: b"\r\n\r\n",
        },
        expected: Err(Fault::Head),
    },
    Limit {
        what: "the most fields",
        side: Side::Request,
        bytes: Repeated {
            start: HEAD,
            unit: b"X: 1\r\n",
            count: HEAD_FIELDS - 1,
            end: b"\r\n",
        },
        expected: Ok(HEAD.len() + 6 * (HEAD_FIELDS - 1) + 2 + CLOSE.len()),
    },
    Limit {
        what: "a field too many",
        side: Side::Request,
        bytes: Repeated {
            start: HEAD,
            unit: b"X: 1\r\n",
            count: HEAD_FIELDS,
            end: b"\r\n",
        },
        expected: Err(Fault::Head),
    },
    Limit {
        what: "the longest size line",
        side: Side::Request,
        bytes: Repeated {
            start: SIZE_START,
            unit: b"x",
            count: 256 - 4,
            end: b"\r\na\r\n0\r\n\r\n",
        },
        expected: Ok(CHUNK_TEXT.len()),
    },
    Limit {
        what: "a size line too long",
        side: Side::Request,
        bytes: Repeated {
            start: SIZE_START,
            unit: b"x",
            count: 257 - 4,
            end: b"\r\na\r\n0\r\n\r\n",
        },
        expected: Err(Fault::Framing),
    },
    Limit {
        what: "the longest trailers",
        side: Side::Request,
        bytes: Repeated {
            start: TRAILER_START,
            unit: b"x",
            count: 16_384 - 4,
            end: b"\r\n\r\n",
        },
        expected: Ok(NO_CHUNK_TEXT.len()),
    },
    Limit {
        what: "trailers too long",
        side: Side::Request,
        bytes: Repeated {
            start: TRAILER_START,
            unit: b"x",
            count: 16_385 - 4,
            end: b"\r\n\r\n",
        },
        expected: Err(Fault::Framing),
    },
    Limit {
        what: "the most heads before an answer",
        side: Side::AnswerTo(GET),
        bytes: Repeated {
            start: b"",
            unit: INTERIM,
            count: MOST_INTERIMS,
            end: ANSWER,
        },
        expected: Ok(MOST_INTERIMS * INTERIM.len() + ANSWER.len() + CLOSE.len()),
    },
    Limit {
        what: "a head before an answer too many",
        side: Side::AnswerTo(GET),
        bytes: Repeated {
            start: b"",
            unit: INTERIM,
            count: MOST_INTERIMS + 1,
            end: ANSWER,
        },
        expected: Err(Fault::Framing),
    },
];

fn is_limit(rt: &(impl Abort + Threads), alloc: Global, limit: &Limit) {
    let bytes = bytes_of(rt, alloc, &limit.bytes);
    let mut relay = Relay::new(rt, alloc, TURNS);
    let outcome = match relay.hand_on(rt, alloc, &limit.side, &mut Feed::of(bytes.as_slice())) {
        Ok(()) => Ok(relay.output.bytes.len()),
        Err(fault) => Err(fault),
    };
    same(rt, outcome, limit.expected, limit.what);
    // Of an answer that is refused only the first bytes were sent.
    if outcome.is_err() && matches!(limit.side, Side::AnswerTo(_)) {
        let written = relay.output.bytes.as_slice();
        holds(rt, bytes.as_slice().starts_with(written), limit.what);
    }
}

#[test]
fn messages_at_a_limit(rt: HostRuntime) {
    for limit in &LIMITS {
        is_limit(&rt, rt.alloc(), limit);
    }
}

/// A message with one byte repeated for ever after its start, and how it ends after this number of turns.
struct Endless {
    what: &'static str,
    side: Side,
    start: &'static [u8],
    byte: u8,
    turns: u64,
    fault: Fault,
}

static ENDLESS_REQUESTS: [Endless; 6] = [
    Endless {
        what: "a first line, few turns",
        side: Side::Request,
        start: b"",
        byte: b'x',
        turns: 100,
        fault: Fault::Turns,
    },
    Endless {
        what: "a first line",
        side: Side::Request,
        start: b"",
        byte: b'x',
        turns: TURNS,
        fault: Fault::Head,
    },
    Endless {
        what: "empty lines, few turns",
        side: Side::Request,
        start: b"",
        byte: b'\n',
        turns: 100,
        fault: Fault::Turns,
    },
    Endless {
        what: "a size line",
        side: Side::Request,
        start: SIZE_START,
        byte: b'x',
        turns: TURNS,
        fault: Fault::Framing,
    },
    Endless {
        what: "trailers",
        side: Side::Request,
        start: TRAILER_START,
        byte: b'x',
        turns: TURNS,
        fault: Fault::Framing,
    },
    Endless {
        what: "trailers, few turns",
        side: Side::Request,
        start: TRAILER_START,
        byte: b'x',
        turns: 1000,
        fault: Fault::Turns,
    },
];

static ENDLESS_ANSWERS: [Endless; 4] = [
    Endless {
        what: "an answer's first line",
        side: Side::AnswerTo(GET),
        start: b"",
        byte: b'x',
        turns: TURNS,
        fault: Fault::Head,
    },
    Endless {
        what: "empty lines before an answer, few turns",
        side: Side::AnswerTo(GET),
        start: b"",
        byte: b'\n',
        turns: 100,
        fault: Fault::Turns,
    },
    Endless {
        what: "an answer to the end, few turns",
        side: Side::AnswerTo(GET),
        start: b"HTTP/1.1 200 OK\r\n\r\n",
        byte: b'x',
        turns: 1000,
        fault: Fault::Turns,
    },
    Endless {
        what: "a size line of an answer",
        side: Side::AnswerTo(GET),
        start: b"HTTP/1.1 200 OK\r\nTransfer-Encoding: chunked\r\n\r\n1;",
        byte: b'x',
        turns: TURNS,
        fault: Fault::Framing,
    },
];

fn ends(rt: &(impl Abort + Threads), alloc: Global, row: &Endless) {
    let mut input = Feed::of(row.start);
    input.most = 1;
    input.for_ever = Some(row.byte);
    let mut relay = Relay::new(rt, alloc, row.turns);
    let result = relay.hand_on(rt, alloc, &row.side, &mut input);
    same(rt, result, Err(row.fault), row.what);
}

#[test]
fn an_input_without_end_ends(rt: HostRuntime) {
    for row in &ENDLESS_REQUESTS {
        ends(&rt, rt.alloc(), row);
    }
}

#[test]
fn an_answer_without_end_ends(rt: HostRuntime) {
    for row in &ENDLESS_ANSWERS {
        ends(&rt, rt.alloc(), row);
    }
}
