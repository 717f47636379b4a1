//! Tests of exchanges, each cut in many ways in both directions, with the sides in many orders.

use crate::playing::{Cut, Move, Stage, Table};
use exchange_events::TimeoutKind;
use std::alloc::Global;
use std::process::Abort;
use std::test::Fail;
use std::thread::Threads;

/// The moves, the bytes that both sides got, the number of passes posted as done and as failed and
/// of repeated requests, and the stage at the end.
pub(crate) struct Row {
    pub(crate) name: &'static str,
    pub(crate) moves: &'static [Move],
    pub(crate) aborts: bool,
    pub(crate) sent: &'static [u8],
    pub(crate) told: &'static [u8],
    pub(crate) counts: (u64, u64, u64),
    pub(crate) stage: Stage,
}

pub(crate) const GET: &[u8] = b"GET /a HTTP/1.1\r\nHost: h\r\n\r\n";

const POST: &[u8] = b"POST /a HTTP/1.1\r\nHost: h\r\nContent-Length: 5\r\n\r\nab";

const UPLOAD: &[u8] = b"POST /a HTTP/1.1\r\nHost: h\r\nContent-Length: 5\r\n\r\nabcde";

const EXPECTS: &[u8] =
    b"POST /a HTTP/1.1\r\nHost: h\r\nContent-Length: 2\r\nExpect: 100-continue\r\n\r\n";

pub(crate) const HI: &[u8] = b"HTTP/1.1 200 OK\r\nContent-Length: 2\r\n\r\nhi";

pub(crate) const BAD: &[u8] =
    b"HTTP/1.1 400 Bad Request\r\nContent-Length: 0\r\nConnection: close\r\n\r\n";

const GATEWAY: &[u8] =
    b"HTTP/1.1 502 Bad Gateway\r\nContent-Length: 0\r\nConnection: close\r\n\r\n";

const UNAVAILABLE: &[u8] =
    b"HTTP/1.1 503 Service Unavailable\r\nContent-Length: 0\r\nConnection: close\r\n\r\n";

const HINTS: &[u8] = b"HTTP/1.1 103 Early Hints\r\n\r\n";

const THREE_HINTS: &[u8] =
    b"HTTP/1.1 103 Early Hints\r\n\r\nHTTP/1.1 103 Early Hints\r\n\r\nHTTP/1.1 103 Early Hints\r\n\r\n";

// answers, early and late
static ANSWERS: [Row; 8] = [
    Row {
        name: "an answer by length",
        moves: &[
            Move::Client(GET),
            Move::Grant,
            Move::Connected(true),
            Move::Server(HI),
        ],
        aborts: false,
        sent: GET,
        told: HI,
        counts: (1, 0, 0),
        stage: Stage::Settling,
    },
    Row {
        name: "an early answer: the rest of the request doesn't come",
        moves: &[
            Move::Client(POST),
            Move::Grant,
            Move::Connected(true),
            Move::Server(HI),
        ],
        aborts: false,
        sent: POST,
        told: HI,
        counts: (1, 0, 0),
        stage: Stage::Leaving,
    },
    Row {
        name: "a server that takes no more, and answers",
        moves: &[
            Move::Client(POST),
            Move::Grant,
            Move::Connected(true),
            Move::ServerDeaf,
            Move::Server(HI),
        ],
        aborts: false,
        sent: POST,
        told: HI,
        counts: (1, 0, 0),
        stage: Stage::Leaving,
    },
    Row {
        name: "leave to send a body",
        moves: &[
            Move::Client(EXPECTS),
            Move::Grant,
            Move::Connected(true),
            Move::Client(b"ab"),
            Move::Server(HI),
        ],
        aborts: false,
        sent: b"POST /a HTTP/1.1\r\nHost: h\r\nContent-Length: 2\r\n\r\nab",
        told: b"HTTP/1.1 100 Continue\r\n\r\nHTTP/1.1 200 OK\r\nContent-Length: 2\r\n\r\nhi",
        counts: (1, 0, 0),
        stage: Stage::Settling,
    },
    Row {
        name: "an answer to the end",
        moves: &[
            Move::Client(GET),
            Move::Grant,
            Move::Connected(true),
            Move::Server(b"HTTP/1.1 200 OK\r\n\r\nhi"),
            Move::ServerEnd,
        ],
        aborts: false,
        sent: GET,
        told: b"HTTP/1.1 200 OK\r\nConnection: close\r\n\r\nhi",
        counts: (1, 0, 0),
        stage: Stage::Leaving,
    },
    Row {
        name: "a body in chunks, and what comes behind the request stays",
        moves: &[
            Move::Client(
                b"POST /a HTTP/1.1\r\nHost: h\r\nTransfer-Encoding: chunked\r\n\r\n2\r\nab\r\n0\r\n\r\nGET",
            ),
            Move::Grant,
            Move::Connected(true),
            Move::Server(HI),
        ],
        aborts: false,
        sent: b"POST /a HTTP/1.1\r\nHost: h\r\nTransfer-Encoding: chunked\r\n\r\n2\r\nab\r\n0\r\n\r\n",
        told: HI,
        counts: (1, 0, 0),
        stage: Stage::Settling,
    },
    Row {
        name: "the same without the option",
        moves: &[
            Move::Client(GET),
            Move::ClientEnd,
            Move::Grant,
            Move::Connected(true),
            Move::Server(HI),
        ],
        aborts: false,
        sent: GET,
        told: HI,
        counts: (1, 0, 0),
        stage: Stage::Settling,
    },
    Row {
        name: "a connection that was used before breaks",
        moves: &[
            Move::Client(GET),
            Move::Grant,
            Move::Connected(false),
            Move::ServerEnd,
            Move::Connected(true),
            Move::Server(HI),
        ],
        aborts: false,
        sent: b"GET /a HTTP/1.1\r\nHost: h\r\n\r\nGET /a HTTP/1.1\r\nHost: h\r\n\r\n",
        told: HI,
        counts: (1, 0, 1),
        stage: Stage::Settling,
    },
];

// connections and messages that break
static FAULTS: [Row; 11] = [
    Row {
        name: "no answer",
        moves: &[
            Move::Client(GET),
            Move::Grant,
            Move::Connected(true),
            Move::Server(b"nonsense\r\n\r\n"),
        ],
        aborts: false,
        sent: GET,
        told: GATEWAY,
        counts: (1, 0, 0),
        stage: Stage::Leaving,
    },
    Row {
        name: "an answer whose length isn't certain",
        moves: &[
            Move::Client(GET),
            Move::Grant,
            Move::Connected(true),
            Move::Server(
                b"HTTP/1.1 200 OK\r\nContent-Length: 2\r\nTransfer-Encoding: chunked\r\n\r\n0\r\n\r\n",
            ),
        ],
        aborts: false,
        sent: GET,
        told: GATEWAY,
        counts: (1, 0, 0),
        stage: Stage::Leaving,
    },
    Row {
        name: "nine heads before the answer, none of which was taken",
        moves: &[
            Move::Client(GET),
            Move::Grant,
            Move::Connected(true),
            Move::Stall,
            Move::Server(THREE_HINTS),
            Move::Server(THREE_HINTS),
            Move::Server(THREE_HINTS),
            Move::Server(HI),
            Move::Flow,
        ],
        aborts: false,
        sent: GET,
        told: GATEWAY,
        counts: (1, 0, 0),
        stage: Stage::Leaving,
    },
    Row {
        name: "the end before an answer",
        moves: &[
            Move::Client(GET),
            Move::Grant,
            Move::Connected(true),
            Move::ServerEnd,
        ],
        aborts: false,
        sent: GET,
        told: GATEWAY,
        counts: (1, 0, 0),
        stage: Stage::Leaving,
    },
    Row {
        name: "one that takes no more, and ends",
        moves: &[
            Move::Client(POST),
            Move::Grant,
            Move::Connected(true),
            Move::ServerDeaf,
            Move::ServerEnd,
        ],
        aborts: false,
        sent: POST,
        told: GATEWAY,
        counts: (1, 0, 0),
        stage: Stage::Leaving,
    },
    Row {
        name: "a head before the answer, and the end",
        moves: &[
            Move::Client(GET),
            Move::Grant,
            Move::Connected(true),
            Move::Server(HINTS),
            Move::ServerEnd,
        ],
        aborts: false,
        sent: GET,
        told: HINTS,
        counts: (1, 0, 0),
        stage: Stage::Leaving,
    },
    Row {
        name: "a silent server",
        moves: &[
            Move::Client(GET),
            Move::Grant,
            Move::Connected(true),
            Move::Over(TimeoutKind::Server),
        ],
        aborts: false,
        sent: GET,
        told: GATEWAY,
        counts: (1, 0, 0),
        stage: Stage::Leaving,
    },
    Row {
        name: "an answer that breaks off",
        moves: &[
            Move::Client(GET),
            Move::Grant,
            Move::Connected(true),
            Move::Server(b"HTTP/1.1 200 OK\r\nContent-Length: 3\r\n\r\nhi"),
            Move::ServerEnd,
        ],
        aborts: false,
        sent: GET,
        told: b"HTTP/1.1 200 OK\r\nContent-Length: 3\r\n\r\nhi",
        counts: (1, 0, 0),
        stage: Stage::Leaving,
    },
    Row {
        name: "bad chunks of an answer",
        moves: &[
            Move::Client(GET),
            Move::Grant,
            Move::Connected(true),
            Move::Server(b"HTTP/1.1 200 OK\r\nTransfer-Encoding: chunked\r\n\r\n2\r\nab"),
            Move::Server(b"X"),
        ],
        aborts: false,
        sent: GET,
        told: b"HTTP/1.1 200 OK\r\nTransfer-Encoding: chunked\r\n\r\n2\r\nab",
        counts: (1, 0, 0),
        stage: Stage::Leaving,
    },
    Row {
        name: "a client that leaves",
        moves: &[
            Move::Client(GET),
            Move::Grant,
            Move::Connected(true),
            Move::ClientFailed,
            Move::Server(HI),
        ],
        aborts: false,
        sent: GET,
        told: b"",
        counts: (1, 0, 0),
        stage: Stage::Over,
    },
    Row {
        name: "a client that sends no more while it waits, with the option",
        moves: &[Move::Client(GET), Move::ClientEnd],
        aborts: true,
        sent: b"",
        told: b"",
        counts: (0, 0, 0),
        stage: Stage::Over,
    },
];

// without a server, without a request
static REFUSALS: [Row; 5] = [
    Row {
        name: "no server",
        moves: &[
            Move::Client(GET),
            Move::Grant,
            Move::Unreachable,
            Move::Unserved,
        ],
        aborts: false,
        sent: b"",
        told: UNAVAILABLE,
        counts: (0, 1, 0),
        stage: Stage::Telling,
    },
    Row {
        name: "no pass",
        moves: &[Move::Client(GET), Move::Over(TimeoutKind::Queue)],
        aborts: false,
        sent: b"",
        told: UNAVAILABLE,
        counts: (0, 0, 0),
        stage: Stage::Telling,
    },
    Row {
        name: "half a head",
        moves: &[Move::Client(b"GET /a HT"), Move::Over(TimeoutKind::Client)],
        aborts: false,
        sent: b"",
        told: BAD,
        counts: (0, 0, 0),
        stage: Stage::Telling,
    },
    Row {
        name: "a head whose length of the body is no number",
        moves: &[Move::Client(b"POST /a HTTP/1.1\r\nHost: h\r\nContent-Length: x\r\n\r\n")],
        aborts: false,
        sent: b"",
        told: BAD,
        counts: (0, 0, 0),
        stage: Stage::Telling,
    },
    Row {
        name: "no head",
        moves: &[Move::Client(b"GET\r\n\r\n")],
        aborts: false,
        sent: b"",
        told: BAD,
        counts: (0, 0, 0),
        stage: Stage::Telling,
    },
];

// refusals although something came
static BROKEN: [Row; 6] = [
    Row {
        name: "bad chunks of a request, of which a byte went on",
        moves: &[
            Move::Client(b"POST /a HTTP/1.1\r\nHost: h\r\nTransfer-Encoding: chunked\r\n\r\n"),
            Move::Grant,
            Move::Connected(true),
            Move::Client(b"2\r\nab"),
            Move::Client(b"X"),
        ],
        aborts: false,
        sent: b"POST /a HTTP/1.1\r\nHost: h\r\nTransfer-Encoding: chunked\r\n\r\n2\r\nab",
        told: BAD,
        counts: (1, 0, 0),
        stage: Stage::Leaving,
    },
    Row {
        name: "an answer that breaks off before the client took a byte of it",
        moves: &[
            Move::Client(GET),
            Move::Grant,
            Move::Connected(true),
            Move::Stall,
            Move::Server(b"HTTP/1.1 200 OK\r\nContent-Length: 3\r\n\r\nhi"),
            Move::ServerEnd,
            Move::Flow,
        ],
        aborts: false,
        sent: GET,
        told: GATEWAY,
        counts: (1, 0, 0),
        stage: Stage::Leaving,
    },
    Row {
        name: "a head before the answer that wasn't taken, and the end",
        moves: &[
            Move::Client(GET),
            Move::Grant,
            Move::Connected(true),
            Move::Stall,
            Move::Server(HINTS),
            Move::ServerEnd,
            Move::Flow,
        ],
        aborts: false,
        sent: GET,
        told: GATEWAY,
        counts: (1, 0, 0),
        stage: Stage::Leaving,
    },
    Row {
        name: "bad chunks of an answer that wasn't taken",
        moves: &[
            Move::Client(GET),
            Move::Grant,
            Move::Connected(true),
            Move::Stall,
            Move::Server(b"HTTP/1.1 200 OK\r\nTransfer-Encoding: chunked\r\n\r\n2\r\nabX"),
            Move::Flow,
        ],
        aborts: false,
        sent: GET,
        told: GATEWAY,
        counts: (1, 0, 0),
        stage: Stage::Leaving,
    },
    Row {
        name: "a leave that was taken, and an answer that wasn't",
        moves: &[
            Move::Client(EXPECTS),
            Move::Grant,
            Move::Connected(true),
            Move::Stall,
            Move::Server(b"HTTP/1.1 200 OK\r\nContent-Length: 3\r\n\r\nhi"),
            Move::ServerEnd,
            Move::Flow,
        ],
        aborts: false,
        sent: b"POST /a HTTP/1.1\r\nHost: h\r\nContent-Length: 2\r\n\r\n",
        told: b"HTTP/1.1 100 Continue\r\n\r\nHTTP/1.1 502 Bad Gateway\r\nContent-Length: 0\r\nConnection: close\r\n\r\n",
        counts: (1, 0, 0),
        stage: Stage::Leaving,
    },
    Row {
        name: "an answer to the end that wasn't taken",
        moves: &[
            Move::Client(GET),
            Move::Grant,
            Move::Connected(true),
            Move::Stall,
            Move::Server(b"HTTP/1.1 200 OK\r\n\r\nhi"),
            Move::ServerEnd,
            Move::Flow,
        ],
        aborts: false,
        sent: GET,
        told: b"HTTP/1.1 200 OK\r\nConnection: close\r\n\r\nhi",
        counts: (1, 0, 0),
        stage: Stage::Leaving,
    },
];

// a connection that broke before the server took a byte of it
static AGAIN: [Row; 2] = [
    Row {
        name: "a request with a body goes out on another connection as it stands",
        moves: &[
            Move::Hold,
            Move::Client(UPLOAD),
            Move::Grant,
            Move::Connected(true),
            Move::ServerEnd,
            Move::Free,
            Move::Connected(true),
            Move::Server(HI),
        ],
        aborts: false,
        sent: UPLOAD,
        told: HI,
        counts: (1, 0, 1),
        stage: Stage::Settling,
    },
    Row {
        name: "and is refused where there is none",
        moves: &[
            Move::Hold,
            Move::Client(UPLOAD),
            Move::Grant,
            Move::Connected(true),
            Move::ServerEnd,
            Move::Free,
            Move::Over(TimeoutKind::Connect),
        ],
        aborts: false,
        sent: b"",
        told: UNAVAILABLE,
        counts: (1, 0, 1),
        stage: Stage::Leaving,
    },
];

// Where a row fails: its name, and how the bytes were cut.
pub(crate) fn first_fault(
    rt: &(impl Abort + Threads),
    alloc: Global,
    rows: &'static [Row],
) -> Option<(&'static str, Cut)> {
    for row in rows {
        let fault = fault_of(rt, alloc, row);
        if let Some(cut) = fault {
            return Some((row.name, cut));
        }
    }
    None
}

fn fault_of(rt: &(impl Abort + Threads), alloc: Global, row: &Row) -> Option<Cut> {
    for number in 0..120usize {
        let cut = cut_of(number);
        if !holds(rt, alloc, row, cut) {
            return Some(cut);
        }
    }
    None
}

// Pieces of some sizes, each cut in two up to byte 70, and random ones.
fn cut_of(number: usize) -> Cut {
    match number {
        0 => Cut::Pieces(1),
        1 => Cut::Pieces(2),
        2 => Cut::Pieces(3),
        3 => Cut::Pieces(7),
        4 => Cut::Pieces(4096),
        _ if number < 75 => Cut::Two(number - 4),
        _ => Cut::Random(number as u64),
    }
}

fn holds(rt: &(impl Abort + Threads), alloc: Global, row: &Row, cut: Cut) -> bool {
    let mut table = Table::new(alloc, row.aborts, cut);
    let stage = table.play(rt, row.moves);
    let wire = &table.wire;
    wire.sent.as_slice() == row.sent
        && wire.told.as_slice() == row.told
        && (wire.done, wire.failed, wire.retries) == row.counts
        && stage == row.stage
}

#[test]
fn answers(rt: HostRuntime) -> Result<(), Fail> {
    let fault = first_fault(&rt, rt.alloc(), &ANSWERS);
    assert_eq!(rt; fault, None);
    Ok(())
}

#[test]
fn faults(rt: HostRuntime) -> Result<(), Fail> {
    let fault = first_fault(&rt, rt.alloc(), &FAULTS);
    assert_eq!(rt; fault, None);
    Ok(())
}

#[test]
fn refusals(rt: HostRuntime) -> Result<(), Fail> {
    let fault = first_fault(&rt, rt.alloc(), &REFUSALS);
    assert_eq!(rt; fault, None);
    Ok(())
}

#[test]
fn refusals_of_what_was_begun(rt: HostRuntime) -> Result<(), Fail> {
    let fault = first_fault(&rt, rt.alloc(), &BROKEN);
    assert_eq!(rt; fault, None);
    Ok(())
}

#[test]
fn requests_that_go_out_anew(rt: HostRuntime) -> Result<(), Fail> {
    let fault = first_fault(&rt, rt.alloc(), &AGAIN);
    assert_eq!(rt; fault, None);
    Ok(())
}

// They are refused before a pass is asked for where they came with the head, and otherwise as soon as they come.
#[test]
fn bad_chunks_of_a_request_are_refused(rt: HostRuntime) -> Result<(), Fail> {
    let moves = [
        Move::Client(b"POST /a HTTP/1.1\r\nHost: h\r\nTransfer-Encoding: chunked\r\n\r\n2\r\nabX"),
        Move::Grant,
        Move::Connected(true),
    ];
    let mut late = Table::new(rt.alloc(), false, Cut::Pieces(1));
    let stage = late.play(&rt, &moves);
    assert_eq!(rt; late.wire.told.as_slice(), BAD);
    assert_eq!(rt; stage, Stage::Leaving);
    let mut early = Table::new(rt.alloc(), false, Cut::Pieces(4096));
    let stage = early.play(&rt, &moves[..1]);
    assert_eq!(rt; early.wire.told.as_slice(), BAD);
    assert_eq!(rt; stage, Stage::Telling);
    Ok(())
}
