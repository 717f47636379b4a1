//! Tests of messages that are stopped one step later each time.
use crate::assertions::{holds, same};
use crate::exchanges::relays::{GET, Relay, Side, TURNS};
use crate::fakes::Feed;
use relay_http::{Closing, Exchange, Fault, Stage};
use std::alloc::Global;
use std::process::Abort;
use std::thread::Threads;

/// The way to stop a message at a step.
enum Stop {
    /// The input ends after this number of bytes, the first of which are the head.
    Cut { head: usize },
    /// The read of this number fails; each read is of one byte.
    Read,
    /// The write of this number fails; each write is of one byte.
    Write,
    /// There is only this number of turns, and a read takes one for each byte.
    Turns,
}

/// A message that is stopped at each step before it is whole.
struct Steps {
    what: &'static str,
    side: Side,
    bytes: &'static [u8],
    text: &'static [u8],
    stop: Stop,
    fault: Fault,
    first: usize,
    whole: usize,
    last: usize,
}

// 77 bytes, the last of which is after the body
const POST: &[u8] =
    b"POST /a HTTP/1.1\r\nHost: h\r\nConnection: x-a\r\nX-A: 1\r\nContent-Length: 3\r\n\r\nabcd";

// 70 bytes
const POST_TEXT: &[u8] =
    b"POST /a HTTP/1.1\r\nHost: h\r\nContent-Length: 3\r\nConnection: close\r\n\r\nabc";

// 58 bytes
const ANSWER: &[u8] = b"HTTP/1.1 103 X\r\n\r\nHTTP/1.1 200 OK\r\nContent-Length: 2\r\n\r\nab";

// 77 bytes
const ANSWER_TEXT: &[u8] =
    b"HTTP/1.1 103 X\r\n\r\nHTTP/1.1 200 OK\r\nContent-Length: 2\r\nConnection: close\r\n\r\nab";

// 40 bytes
const BY_LENGTH: &[u8] = b"HTTP/1.1 200 OK\r\nContent-Length: 2\r\n\r\nab";

const BY_LENGTH_TEXT: &[u8] =
    b"HTTP/1.1 200 OK\r\nContent-Length: 2\r\nConnection: close\r\n\r\nab";

static STEPS: [Steps; 7] = [
    Steps {
        what: "a request cut after each byte",
        side: Side::Request,
        bytes: POST,
        text: POST_TEXT,
        stop: Stop::Cut { head: 73 },
        fault: Fault::Read,
        first: 0,
        whole: 76,
        last: 77,
    },
    Steps {
        what: "each read of a request",
        side: Side::Request,
        bytes: POST,
        text: POST_TEXT,
        stop: Stop::Read,
        fault: Fault::Read,
        first: 1,
        whole: 77,
        last: 77,
    },
    Steps {
        what: "each write of a request",
        side: Side::Request,
        bytes: POST,
        text: POST_TEXT,
        stop: Stop::Write,
        fault: Fault::Write,
        first: 1,
        whole: 71,
        last: 71,
    },
    Steps {
        what: "each read of an answer",
        side: Side::AnswerTo(GET),
        bytes: ANSWER,
        text: ANSWER_TEXT,
        stop: Stop::Read,
        fault: Fault::Read,
        first: 1,
        whole: 59,
        last: 59,
    },
    Steps {
        what: "each write of an answer",
        side: Side::AnswerTo(GET),
        bytes: ANSWER,
        text: ANSWER_TEXT,
        stop: Stop::Write,
        fault: Fault::Write,
        first: 1,
        whole: 78,
        last: 78,
    },
    Steps {
        what: "each turn of a request",
        side: Side::Request,
        bytes: GET,
        text: b"",
        stop: Stop::Turns,
        fault: Fault::Turns,
        first: 0,
        whole: 26,
        last: 25,
    },
    // Two of its turns go to the request, one to each byte, and one to each write: before each byte
    // of the body is read, and at the end.
    Steps {
        what: "each turn of an answer",
        side: Side::AnswerTo(GET),
        bytes: BY_LENGTH,
        text: BY_LENGTH_TEXT,
        stop: Stop::Turns,
        fault: Fault::Turns,
        first: 0,
        whole: 45,
        last: 45,
    },
];

fn input_at(steps: &Steps, step: usize) -> Feed<'static> {
    let len = match steps.stop {
        Stop::Cut { .. } => step.min(steps.bytes.len()),
        _ => steps.bytes.len(),
    };
    let mut input = Feed::of(&steps.bytes[..len]);
    match steps.stop {
        Stop::Read => {
            input.most = 1;
            input.fails_at = step;
        }
        Stop::Turns => input.most = 1,
        _ => {}
    }
    input
}

fn relay_at(rt: &(impl Abort + Threads), alloc: Global, steps: &Steps, step: usize) -> Relay {
    let turns = match steps.stop {
        Stop::Turns => step as u64,
        _ => TURNS,
    };
    let mut relay = Relay::new(rt, alloc, turns);
    if let Stop::Write = steps.stop {
        relay.output.most = 1;
        relay.output.fails_at = step;
    }
    relay
}

// Says whether an exchange was closed by this fault, and by whether a byte of an answer was written.
fn is_closed_by(exchange: &Exchange, fault: Fault) -> bool {
    match exchange.closing() {
        Some(Closing::Reading(met) | Closing::Forwarding(met) | Closing::Answering(met)) => {
            met == fault && !exchange.begun()
        }
        Some(Closing::Breaking(met)) => met == fault && exchange.begun(),
        Some(Closing::Leaving(_)) | None => false,
    }
}

// Checks what was written when it was stopped.
fn is_stopped(rt: &(impl Abort + Threads), relay: &Relay, steps: &Steps, step: usize) {
    let written = relay.output.bytes.len();
    same(rt, relay.exchange.stage(), Stage::Failed, steps.what);
    let closed = is_closed_by(&relay.exchange, steps.fault);
    holds(rt, closed, steps.what);
    match steps.stop {
        Stop::Cut { head } => holds(rt, head <= step || written == 0, steps.what),
        Stop::Read => {}
        Stop::Write => same(rt, written.saturating_add(1), step, steps.what),
        Stop::Turns => same(rt, relay.exchange.turns(), 0, steps.what),
    }
}

fn is_handed_on_to(rt: &(impl Abort + Threads), alloc: Global, steps: &Steps, step: usize) {
    let mut relay = relay_at(rt, alloc, steps, step);
    let result = relay.hand_on(rt, alloc, &steps.side, &mut input_at(steps, step));
    let written = relay.output.bytes.as_slice();
    holds(rt, steps.text.starts_with(written), steps.what);
    let begun = matches!(steps.side, Side::AnswerTo(_)) && !written.is_empty();
    same(rt, relay.exchange.begun(), begun, steps.what);
    if steps.whole <= step {
        same(rt, (step, result), (step, Ok(())), steps.what);
        same(rt, written, steps.text, steps.what);
    } else {
        same(rt, (step, result), (step, Err(steps.fault)), steps.what);
        is_stopped(rt, &relay, steps, step);
    }
}

fn is_handed_on_step_by_step(rt: &(impl Abort + Threads), alloc: Global, steps: &Steps) {
    for step in steps.first..=steps.last {
        is_handed_on_to(rt, alloc, steps, step);
    }
}

#[test]
fn a_message_is_stopped_at_each_of_its_steps(rt: HostRuntime) {
    for steps in &STEPS {
        is_handed_on_step_by_step(&rt, rt.alloc(), steps);
    }
}
