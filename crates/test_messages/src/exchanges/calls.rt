use crate::assertions::{holds, same};
use crate::exchanges::relays::{GET, Relay, Side, TURNS};
use crate::fakes::{Feed, Log};
use relay_http::{Code, Exchange, Fault};
use req_view::{View, Viewed, view};
use std::alloc::Global;
use std::process::Abort;
use std::thread::Threads;

const POST: &[u8] =
    b"POST /a HTTP/1.1\r\nHost: h\r\nConnection: x-a\r\nX-A: 1\r\nContent-Length: 3\r\n\r\nabcd";

const POST_TEXT: &[u8] =
    b"POST /a HTTP/1.1\r\nHost: h\r\nContent-Length: 3\r\nConnection: close\r\n\r\nabc";

const WAITING: &[u8] =
    b"POST / HTTP/1.1\r\nHost: h\r\nContent-Length: 3\r\nExpect: 100-Continue\r\n\r\n";

fn is_one_write(
    rt: &(impl Abort + Threads),
    alloc: Global,
    side: &Side,
    bytes: &[u8],
    text: &[u8],
) {
    let mut relay = Relay::new(rt, alloc, TURNS);
    let result = relay.hand_on(rt, alloc, side, &mut Feed::of(bytes));
    same(rt, result, Ok(()), "a message");
    same(rt, relay.output.bytes.as_slice(), text, "a message");
    same(rt, relay.output.writes, 1, "its writes");
}

// Bytes that are read together are written together.
#[test]
fn a_head_and_its_body_are_one_write(rt: HostRuntime) {
    is_one_write(&rt, rt.alloc(), &Side::Request, POST, POST_TEXT);
    is_one_write(
        &rt,
        rt.alloc(),
        &Side::AnswerTo(GET),
        b"HTTP/1.1 200 OK\r\nContent-Length: 2\r\n\r\nab",
        b"HTTP/1.1 200 OK\r\nContent-Length: 2\r\nConnection: close\r\n\r\nab",
    );
}

// Reads the request, whose body came after its head.
fn read_whole(rt: &(impl Abort + Threads), alloc: Global, exchange: &mut Exchange) -> View {
    exchange.renew();
    let view = exchange
        .read_request(alloc, &mut Feed::of(POST))
        .expect(rt, "a request");
    same(rt, exchange.held(), b"abcd".as_slice(), "held");
    view
}

// An exchange holds the bytes after a head, and a renewed one takes up a part of them.
#[test]
fn a_request_is_taken_up(rt: HostRuntime) {
    let mut relay = Relay::new(&rt, rt.alloc(), TURNS);
    let view = read_whole(&rt, rt.alloc(), &mut relay.exchange);
    let result = relay.forward(&rt, rt.alloc(), &view, b"ab", b"cd");
    same(&rt, result, Ok(()), "a request");
    same(&rt, relay.output.bytes.as_slice(), POST_TEXT, "a request");
}

// The `100` for a request has 25 bytes or none.
fn is_given_leave(
    rt: &(impl Abort + Threads),
    alloc: Global,
    number: usize,
    head: &[u8],
    len: usize,
) {
    let mut exchange = Exchange::new(alloc, TURNS).expect(rt, "memory");
    let mut output = Log::new(alloc);
    exchange.renew();
    let view = exchange
        .read_request(alloc, &mut Feed::of(head))
        .expect(rt, "a request");
    let result = exchange.go_on(&view, &mut output);
    same(rt, (number, result), (number, Ok(())), "a row");
    same(rt, (number, output.bytes.len()), (number, len), "a row");
    holds(rt, !exchange.begun(), "a row");
}

#[test]
fn leave_is_given_to_those_who_wait(rt: HostRuntime) {
    let rows: [(&[u8], usize); 6] = [
        (WAITING, 25),
        (
            b"POST / HTTP/1.1\r\nHost: h\r\nTransfer-Encoding: chunked\r\nExpect: 100-continue\r\n\r\n",
            25,
        ),
        (
            b"POST / HTTP/1.1\r\nHost: h\r\nContent-Length: 3\r\n\r\n",
            0,
        ),
        (
            b"POST / HTTP/1.1\r\nHost: h\r\nExpect: 100-continue\r\n\r\n",
            0,
        ),
        (
            b"POST / HTTP/1.1\r\nHost: h\r\nContent-Length: 0\r\nExpect: 100-continue\r\n\r\n",
            0,
        ),
        (
            b"POST / HTTP/1.0\r\nContent-Length: 3\r\nExpect: 100-continue\r\n\r\n",
            0,
        ),
    ];
    for (number, (head, len)) in rows.iter().enumerate() {
        is_given_leave(&rt, rt.alloc(), number, head, *len);
    }
}

fn is_refused(rt: &(impl Abort + Threads), alloc: Global, code: Code, text: &[u8]) {
    let mut exchange = Exchange::new(alloc, 0).expect(rt, "memory");
    let mut output = Log::new(alloc);
    exchange.renew();
    let result = exchange.refuse(code, &mut output);
    same(rt, result, Ok(()), "a refusal");
    same(rt, output.bytes.as_slice(), text, "a refusal");
}

#[test]
fn refusals(rt: HostRuntime) {
    let rows: [(Code, &[u8]); 3] = [
        (
            Code::BadRequest,
            b"HTTP/1.1 400 Bad Request\r\nContent-Length: 0\r\nConnection: close\r\n\r\n",
        ),
        (
            Code::BadGateway,
            b"HTTP/1.1 502 Bad Gateway\r\nContent-Length: 0\r\nConnection: close\r\n\r\n",
        ),
        (
            Code::Unavailable,
            b"HTTP/1.1 503 Service Unavailable\r\nContent-Length: 0\r\nConnection: close\r\n\r\n",
        ),
    ];
    for (code, text) in rows {
        is_refused(&rt, rt.alloc(), code, text);
    }
}

// The client isn't told once more, where the write of its refusal failed.
#[test]
fn a_second_refusal(rt: HostRuntime) {
    let mut exchange = Exchange::new(rt.alloc(), 0).expect(&rt, "memory");
    let mut output = Log::new(rt.alloc());
    output.fails_at = 1;
    exchange.renew();
    let first = exchange.refuse(Code::BadGateway, &mut output);
    same(&rt, first, Err(Fault::Write), "a refusal");
    holds(&rt, !exchange.begun(), "a refusal");
    let second = exchange.refuse(Code::Unavailable, &mut output);
    same(&rt, second, Err(Fault::Closed), "a second refusal");
    let written = (output.writes, output.bytes.len());
    same(&rt, written, (1, 0), "a second refusal");
}

fn reads(alloc: Global, exchange: &mut Exchange, head: &[u8]) -> bool {
    exchange.renew();
    exchange.read_request(alloc, &mut Feed::of(head)).is_ok()
}

#[test]
fn no_turn_at_all(rt: HostRuntime) {
    let Viewed::Whole(view, _) = view(rt.alloc(), WAITING) else {
        panic!(rt; "no head");
    };
    let mut relay = Relay::new(&rt, rt.alloc(), 0);
    let is_read = reads(rt.alloc(), &mut relay.exchange, WAITING);
    holds(&rt, !is_read, "a read");
    relay.exchange.renew();
    relay.exchange.take_up(b"abc");
    let leave = relay.exchange.go_on(&view, &mut relay.output);
    same(&rt, leave, Err(Fault::Turns), "leave");
    let forwarded = relay.forward(&rt, rt.alloc(), &view, b"abc", b"");
    same(&rt, forwarded, Err(Fault::Turns), "a request");
    same(&rt, relay.output.writes, 0, "its writes");
}
