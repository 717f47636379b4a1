ghost use Rattle.relay_http.specs.States.{Serves};

use crate::assertions::{holds, same};
use crate::exchanges::relays::{GET, Relay, TURNS};
use crate::fakes::{Feed, Log};
use crate::passes::Held;
use grant_board::Pass;
use relay_http::{Exchange, Fault, Stage};
use req_view::View;
use std::alloc::Global;
use std::io;
use std::process::Abort;
use std::test::Fail;
use std::thread::Threads;

const ANSWER: &[u8] =
    b"HTTP/1.1 103 X\r\nA: 1\r\n\r\nHTTP/1.1 200 OK\r\nB: 2\r\nContent-Length: 2\r\n\r\nab";

const ANSWER_TEXT: &[u8] =
    b"HTTP/1.1 103 X\r\nA: 1\r\n\r\nHTTP/1.1 200 OK\r\nB: 2\r\nContent-Length: 2\r\nConnection: close\r\n\r\nab";

fn read(alloc: Global, exchange: &mut Exchange) -> Result<View, Fault> {
    exchange.renew();
    let mut client = GET;
    exchange.read_request(alloc, &mut client)
}

// Where the first read finds no memory, the second one reads.
fn read_in_the_end(
    rt: &(impl Abort + Threads),
    alloc: Global,
    exchange: &mut Exchange,
) -> Result<View, Fault> {
    match read(alloc, exchange) {
        Ok(view) => Ok(view),
        Err(fault) => {
            same(rt, fault, Fault::NoMemory, "the first read");
            same(rt, exchange.stage(), Stage::Failed, "the exchange");
            read(alloc, exchange)
        }
    }
}

fn answer(alloc: Global, relay: &mut Relay, pass: &Pass, view: &View) -> Result<(), Fault>
    requires { Serves pass.now.verdict }
{
    relay.output.bytes.clear();
    relay.exchange.renew();
    relay.exchange.take_up(b"");
    let mut client = io::empty();
    relay
        .exchange
        .forward(pass, view, &mut client, &mut io::sink())?;
    let mut server = Feed::of(ANSWER);
    relay
        .exchange
        .answer(alloc, pass, view, &mut server, &mut relay.output)
}

// The same for the answer, to the same request.
fn is_answered(
    rt: &(impl Abort + Threads),
    alloc: Global,
    relay: &mut Relay,
    pass: &Pass,
    view: &View,
)
    requires { Serves pass.now.verdict }
{
    let first = answer(alloc, relay, pass, view);
    let written = relay.output.bytes.as_slice();
    holds(rt, ANSWER_TEXT.starts_with(written), "a part of it");
    if first == Err(Fault::NoMemory) {
        same(rt, relay.exchange.stage(), Stage::Failed, "the exchange");
        let second = answer(alloc, relay, pass, view);
        same(rt, second, Ok(()), "the second time");
    } else {
        same(rt, first, Ok(()), "the first time");
    }
}

// With one allocation refused, as `rt try --test --fail-alloc N` does, the call answers want of
// memory, and the next call doesn't.
#[test]
fn a_refused_growth_is_want_of_memory(rt: HostRuntime) -> Result<(), Fail> {
    let alloc = rt.alloc();
    let exchange = match Exchange::new(alloc, TURNS) {
        Ok(exchange) => exchange,
        Err(_) => Exchange::new(alloc, TURNS)?,
    };
    let mut output = Log::new(alloc);
    if output.bytes.reserve(200).is_err() {
        output.bytes.reserve(200)?;
    }
    let mut relay = Relay { exchange, output };
    let held = match Held::take(&rt, alloc) {
        Ok(held) => held,
        Err(_) => Held::take(&rt, alloc).expect(&rt, "a pass"),
    };
    let view = read_in_the_end(&rt, alloc, &mut relay.exchange);
    if let Ok(view) = &view {
        is_answered(&rt, alloc, &mut relay, &held.pass, view);
    }
    held.post();
    same(&rt, view.is_ok(), true, "the request");
    same(
        &rt,
        relay.output.bytes.as_slice(),
        ANSWER_TEXT,
        "the answer",
    );
    Ok(())
}
