ghost use Rattle.std.specs.Prelude.{◌≤◌, length};
ghost use Rattle.relay_http.specs.States.{Serves};

use crate::fakes::{Feed, Log};
use crate::passes::Held;
use grant_board::Pass;
use http_bodies::INBOX_BYTES;
use relay_http::{Exchange, Fault};
use req_view::View;
use std::alloc::Global;
use std::io;
use std::process::Abort;
use std::thread::Threads;

pub(crate) const TURNS: u64 = 1_000_000;

pub(crate) const GET: &[u8] = b"GET / HTTP/1.1\r\nHost: h\r\n\r\n";

pub(crate) const OLD_GET: &[u8] = b"GET / HTTP/1.0\r\n\r\n";

/// The message under test.
pub(crate) enum Side {
    Request,
    /// The answer to this request, which has no body.
    AnswerTo(&'static [u8]),
}

/// An exchange, and the sink of the message under test.
#[derive(Drop)]
pub(crate) struct Relay {
    pub(crate) exchange: Exchange,
    pub(crate) output: Log,
}

impl Relay {
    pub(crate) fn new(rt: &(impl Abort + Threads), alloc: Global, turns: u64) -> Relay {
        Relay {
            exchange: Exchange::new(alloc, turns).expect(rt, "memory"),
            output: Log::new(alloc),
        }
    }

    /// Hands the message on by the exchange, renewed, on a pass of its own.
    pub(crate) fn hand_on(
        &mut self,
        rt: &(impl Abort + Threads),
        alloc: Global,
        side: &Side,
        input: &mut Feed<'_>,
    ) -> Result<(), Fault> {
        let held = Held::take(rt, alloc)?;
        let result = self.hand_on_by(alloc, &held.pass, side, input);
        held.post();
        result
    }

    /// The same on this pass. The request is handed on before its answer.
    pub(crate) fn hand_on_by(
        &mut self,
        alloc: Global,
        pass: &Pass,
        side: &Side,
        input: &mut Feed<'_>,
    ) -> Result<(), Fault>
        requires { Serves pass.now.verdict }
    {
        match side {
            Side::Request => self.hand_on_request(alloc, pass, input),
            Side::AnswerTo(request) => self.hand_on_answer(alloc, pass, request, input),
        }
    }

    fn hand_on_request(
        &mut self,
        alloc: Global,
        pass: &Pass,
        input: &mut Feed<'_>,
    ) -> Result<(), Fault>
        requires { Serves pass.now.verdict }
    {
        self.exchange.renew();
        let view = self.exchange.read_request(alloc, input)?;
        self.exchange.forward(pass, &view, input, &mut self.output)
    }

    fn hand_on_answer(
        &mut self,
        alloc: Global,
        pass: &Pass,
        request: &[u8],
        input: &mut Feed<'_>,
    ) -> Result<(), Fault>
        requires { Serves pass.now.verdict }
    {
        let mut client = request;
        self.exchange.renew();
        let view = self.exchange.read_request(alloc, &mut client)?;
        self.exchange
            .forward(pass, &view, &mut client, &mut io::sink())?;
        self.exchange
            .answer(alloc, pass, &view, input, &mut self.output)
    }

    /// Hands on a request that was read, by the exchange, renewed: the part of its body that it
    /// takes up, and the rest.
    pub(crate) fn forward(
        &mut self,
        rt: &(impl Abort + Threads),
        alloc: Global,
        view: &View,
        taken_up: &[u8],
        rest: &[u8],
    ) -> Result<(), Fault>
        requires { length taken_up.now ≤ INBOX_BYTES }
    {
        let held = Held::take(rt, alloc)?;
        let mut rest = Feed::of(rest);
        self.exchange.renew();
        self.exchange.take_up(taken_up);
        let result = self
            .exchange
            .forward(&held.pass, view, &mut rest, &mut self.output);
        held.post();
        result
    }
}

/// The name of a message, its bytes, and what they become.
pub(crate) type Row = (&'static str, &'static [u8], Result<&'static [u8], Fault>);

fn becomes(rt: &(impl Abort + Threads), alloc: Global, relay: &mut Relay, side: &Side, row: &Row) {
    let (what, bytes, expected) = *row;
    relay.output.bytes.clear();
    let outcome = match relay.hand_on(rt, alloc, side, &mut Feed::of(bytes)) {
        Ok(()) => Ok(relay.output.bytes.as_slice()),
        Err(fault) => Err(fault),
    };
    assert_eq!(rt; outcome, expected, "{what}");
}

/// Fails the test where a row becomes something else. One exchange hands all of them on.
pub(crate) fn become_of_each(
    rt: &(impl Abort + Threads),
    alloc: Global,
    side: &Side,
    rows: &[Row],
) {
    let mut relay = Relay::new(rt, alloc, TURNS);
    for row in rows {
        becomes(rt, alloc, &mut relay, side, row);
    }
}
