use crate::assertions::{holds, same};
use crate::exchanges::relays::{GET, OLD_GET, Relay, Side, TURNS};
use crate::fakes::{Feed, Log};
use crate::passes::Held;
use relay_http::{Code, Exchange, Fault};
use req_view::{View, Viewed, view};
use std::alloc::Global;
use std::process::Abort;
use std::thread::Threads;

// Each call answers that the exchange is closed; nothing is read or written.
fn answers_closed(
    rt: &(impl Abort + Threads),
    alloc: Global,
    exchange: &mut Exchange,
    view: &View,
) {
    let held = Held::take(rt, alloc).expect(rt, "a pass");
    let mut reader = Feed::of(GET);
    let mut writer = Log::new(alloc);
    holds(rt, exchange.is_closed(), "before a read");
    let read = exchange.read_request(alloc, &mut reader);
    holds(rt, matches!(read, Err(Fault::Closed)), "a read");
    holds(rt, exchange.is_closed(), "before leave");
    let leave = exchange.go_on(view, &mut writer);
    same(rt, leave, Err(Fault::Closed), "leave");
    holds(rt, exchange.is_closed(), "before a request");
    let forwarded = exchange.forward(&held.pass, view, &mut reader, &mut writer);
    same(rt, forwarded, Err(Fault::Closed), "a request");
    holds(rt, exchange.is_closed(), "before an answer");
    let answered = exchange.answer(alloc, &held.pass, view, &mut reader, &mut writer);
    same(rt, answered, Err(Fault::Closed), "an answer");
    held.post();
    same(
        rt,
        (reader.reads, writer.writes),
        (0, 0),
        "reads and writes",
    );
}

// The exchange is closed, and tells the client so if no byte of an answer was sent.
fn is_over(rt: &(impl Abort + Threads), alloc: Global, exchange: &mut Exchange, view: &View) {
    answers_closed(rt, alloc, exchange, view);
    if !exchange.begun() {
        let mut writer = Log::new(alloc);
        let told = exchange.refuse(Code::Unavailable, &mut writer);
        same(rt, told, Ok(()), "a refusal");
        holds(rt, !writer.bytes.is_empty(), "a refusal");
    }
}

/// A message that meets a fault, with this number of turns, and what the client was sent of an answer before that.
struct Faulty {
    side: Side,
    bytes: &'static [u8],
    turns: u64,
    fault: Fault,
    told: &'static [u8],
}

static REQUESTS: [Faulty; 9] = [
    Faulty {
        side: Side::Request,
        bytes: b"GET / HTTP/2.0\r\n",
        turns: TURNS,
        fault: Fault::Head,
        told: b"",
    },
    Faulty {
        side: Side::Request,
        bytes: b"GET / HTTP/2.0",
        turns: TURNS,
        fault: Fault::Head,
        told: b"",
    },
    Faulty {
        side: Side::Request,
        bytes: b"GET / HTTP/1.1\r\n",
        turns: TURNS,
        fault: Fault::Read,
        told: b"",
    },
    Faulty {
        side: Side::Request,
        bytes: GET,
        turns: 0,
        fault: Fault::Turns,
        told: b"",
    },
    Faulty {
        side: Side::Request,
        bytes: b"GET / HTTP/1.1\r\nHost: h\r\nContent-Length: x\r\n\r\n",
        turns: TURNS,
        fault: Fault::Framing,
        told: b"",
    },
    Faulty {
        side: Side::Request,
        bytes: GET,
        turns: 1,
        fault: Fault::Turns,
        told: b"",
    },
    Faulty {
        side: Side::Request,
        bytes: b"GET / HTTP/1.1\r\nHost: h\r\nContent-Length: 1\r\n\r\n",
        turns: TURNS,
        fault: Fault::Read,
        told: b"",
    },
    Faulty {
        side: Side::Request,
        bytes: b"GET / HTTP/1.1\r\nHost: h\r\nTransfer-Encoding: chunked\r\n\r\nx",
        turns: TURNS,
        fault: Fault::Framing,
        told: b"",
    },
    Faulty {
        side: Side::Request,
        bytes: b"GET / HTTP/1.1\r\nHost: h\r\nContent-Length: 2\r\n\r\na",
        turns: 2,
        fault: Fault::Turns,
        told: b"",
    },
];

// The request takes two turns.
static ANSWERS: [Faulty; 10] = [
    Faulty {
        side: Side::AnswerTo(GET),
        bytes: b"HTTP/2.0 200 OK\r\n",
        turns: TURNS,
        fault: Fault::Head,
        told: b"",
    },
    Faulty {
        side: Side::AnswerTo(GET),
        bytes: b"",
        turns: TURNS,
        fault: Fault::Read,
        told: b"",
    },
    Faulty {
        side: Side::AnswerTo(GET),
        bytes: b"HTTP/1.1 101 X\r\n\r\n",
        turns: TURNS,
        fault: Fault::Framing,
        told: b"",
    },
    Faulty {
        side: Side::AnswerTo(GET),
        bytes: b"HTTP/1.1 200 OK\r\n\r\n",
        turns: 2,
        fault: Fault::Turns,
        told: b"",
    },
    Faulty {
        side: Side::AnswerTo(GET),
        bytes: b"HTTP/1.1 200 OK\r\n\r\n",
        turns: 3,
        fault: Fault::Turns,
        told: b"",
    },
    Faulty {
        side: Side::AnswerTo(GET),
        bytes: b"HTTP/1.1 103 X\r\n\r\nHTTP/1.1 101 X\r\n\r\n",
        turns: TURNS,
        fault: Fault::Framing,
        told: b"HTTP/1.1 103 X\r\n\r\n",
    },
    Faulty {
        side: Side::AnswerTo(GET),
        bytes: b"HTTP/1.1 200 OK\r\nContent-Length: 3\r\n\r\nab",
        turns: TURNS,
        fault: Fault::Read,
        told: b"HTTP/1.1 200 OK\r\nContent-Length: 3\r\nConnection: close\r\n\r\nab",
    },
    Faulty {
        side: Side::AnswerTo(GET),
        bytes: b"HTTP/1.1 200 OK\r\n\r\nab",
        turns: 4,
        fault: Fault::Turns,
        told: b"HTTP/1.1 200 OK\r\nConnection: close\r\n\r\nab",
    },
    // Of interim heads alone the client gets what it can take, and the answer is missing.
    Faulty {
        side: Side::AnswerTo(GET),
        bytes: b"HTTP/1.1 100 Continue\r\n\r\nHTTP/1.1 103 X\r\n\r\n",
        turns: TURNS,
        fault: Fault::Read,
        told: b"HTTP/1.1 103 X\r\n\r\n",
    },
    Faulty {
        side: Side::AnswerTo(OLD_GET),
        bytes: b"HTTP/1.1 100 Continue\r\n\r\nHTTP/1.1 103 X\r\n\r\n",
        turns: TURNS,
        fault: Fault::Read,
        told: b"",
    },
];

fn closes(rt: &(impl Abort + Threads), alloc: Global, view: &View, number: usize, row: &Faulty) {
    let mut relay = Relay::new(rt, alloc, row.turns);
    let result = relay.hand_on(rt, alloc, &row.side, &mut Feed::of(row.bytes));
    same(rt, (number, result), (number, Err(row.fault)), "a row");
    let begun = relay.exchange.begun();
    same(rt, (number, begun), (number, !row.told.is_empty()), "a row");
    if let Side::AnswerTo(_) = row.side {
        same(rt, relay.output.bytes.as_slice(), row.told, "a row");
    }
    is_over(rt, alloc, &mut relay.exchange, view);
}

fn each_closes(rt: &(impl Abort + Threads), alloc: Global, rows: &[Faulty]) {
    let Viewed::Whole(view, _) = view(alloc, GET) else {
        panic!(rt; "no head");
    };
    for (number, row) in rows.iter().enumerate() {
        closes(rt, alloc, &view, number, row);
    }
}

#[test]
fn each_fault_of_a_request_closes_the_exchange(rt: HostRuntime) {
    each_closes(&rt, rt.alloc(), &REQUESTS);
}

#[test]
fn each_fault_of_an_answer_closes_the_exchange(rt: HostRuntime) {
    each_closes(&rt, rt.alloc(), &ANSWERS);
}
