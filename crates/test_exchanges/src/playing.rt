//! An exchange over a list of events, with all bytes cut and in some order.
ghost use Rattle.std.specs.Prelude.{◌<◌};

use crate::till::Till;
use base_verdict::Ending;
use exchange_events::{Event, Exchange, Outcome, Rules, Step, TimeoutKind};
use exchange_machine::Terms;
use grant_board::Pass;
use http_texts::{Additions, Persistence};
use std::alloc::Global;
use std::net::{IpAddr, Ipv4Addr};
use std::process::Abort;
use std::thread::Threads;

/// A move of the script.
#[derive(Clone, Copy)]
pub(crate) enum Move {
    /// The client sends these bytes.
    Client(&'static [u8]),
    /// The server sends these bytes.
    Server(&'static [u8]),
    Grant,
    Unserved,
    /// The server is reached, on a new connection or a used one.
    Connected(bool),
    /// The same on a new connection, and the server is told that the client has this address.
    Named([u8; 4]),
    Unreachable,
    ClientEnd,
    ClientFailed,
    ServerEnd,
    ServerFailed,
    ServerDeaf,
    Over(TimeoutKind),
    /// The client asks again, and may.
    Again,
    /// It may not ask again.
    Barred,
    /// The client is sent the whole answer of its server.
    Answered(bool),
    /// No byte has come from it yet.
    Silent(bool),
    /// Its server's connection can be used again.
    Clean(bool),
    /// Its request may go out on a used connection.
    Used(bool),
    /// The client takes no more bytes.
    Stall,
    /// It takes them again.
    Flow,
    /// The server takes no bytes yet.
    Hold,
    /// It takes them.
    Free,
}

/// How bytes are cut, and in which order the two sides move.
#[derive(Clone, Copy, Debug, PartialEq, Eq)]
pub(crate) enum Cut {
    /// In pieces of this size.
    Pieces(usize),
    /// The first bytes of a side in two pieces, cut at this byte.
    Two(usize),
    /// At random, and in a random order.
    Random(u64),
}

const ALL: usize = 4096;

impl Cut {
    // Returns the size of the next piece.
    fn next(&mut self) -> usize {
        match *self {
            Cut::Pieces(size) => size,
            Cut::Two(at) => {
                *self = Cut::Pieces(ALL);
                at
            }
            Cut::Random(seed) => {
                let next = seed
                    .wrapping_mul(6_364_136_223_846_793_005)
                    .wrapping_add(1_442_695_040_888_963_407);
                *self = Cut::Random(next);
                (next >> 33) as usize % 9 + 1
            }
        }
    }

    // Says whether the other side moves first.
    fn flips(&mut self) -> bool {
        match *self {
            Cut::Pieces(_) | Cut::Two(_) => true,
            Cut::Random(_) => self.next() % 2 == 0,
        }
    }
}

// The terms of a connection that both sides would keep.
fn terms(fresh: bool, client: Option<IpAddr>) -> Terms {
    Terms {
        adds: Additions {
            asks: Persistence::Persist,
            client,
        },
        willing: true,
        fresh,
    }
}

/// The stage of an exchange.
#[derive(Clone, Copy, Debug, PartialEq, Eq)]
pub(crate) enum Stage {
    Asking,
    Waiting,
    Dialing,
    Forwarding,
    Settling,
    Leaving,
    Telling,
    Over,
}

/// The bytes that both sides got, and the number of passes posted as done and as failed, and of repeated requests.
#[derive(Drop)]
pub(crate) struct Wire {
    pub(crate) sent: Vec<u8>,
    pub(crate) told: Vec<u8>,
    pub(crate) done: u64,
    pub(crate) failed: u64,
    pub(crate) retries: u64,
}

// The bytes that a side sends, and how many of them were taken.
#[derive(Drop)]
struct Queue {
    bytes: Vec<u8>,
    taken: usize,
}

impl Queue {
    // Returns at most this number of the next bytes.
    fn piece(&self, most: usize) -> &[u8] {
        let rest = self.bytes.as_slice().get(self.taken..).unwrap_or(b"");
        &rest[..most.min(rest.len())]
    }
}

// Says whether the exchange is as the move says.
fn is_so(exchange: &Exchange, each: Move) -> bool {
    match each {
        Move::Answered(whole) => exchange.is_answered() == whole,
        Move::Silent(silent) => exchange.is_silent() == silent,
        Move::Clean(clean) => exchange.is_clean() == clean,
        Move::Used(used) => exchange.takes_used() == used,
        _ => false,
    }
}

/// A client, its proxy and a server.
#[derive(Drop)]
pub(crate) struct Table {
    alloc: Global,
    rules: Rules,
    client_cut: Cut,
    server_cut: Cut,
    stalled: bool,
    held: bool,
    till: Option<Till>,
    client: Queue,
    server: Queue,
    pub(crate) wire: Wire,
}

impl Table {
    pub(crate) fn new(alloc: Global, aborts: bool, cut: Cut) -> Table {
        Table {
            alloc,
            rules: Rules { aborts },
            client_cut: cut,
            server_cut: cut,
            stalled: false,
            held: false,
            till: None,
            client: Queue {
                bytes: Vec::new(alloc),
                taken: 0,
            },
            server: Queue {
                bytes: Vec::new(alloc),
                taken: 0,
            },
            wire: Wire {
                sent: Vec::new(alloc),
                told: Vec::new(alloc),
                done: 0,
                failed: 0,
                retries: 0,
            },
        }
    }

    /// Plays all moves, and after each one what follows from it. Returns the stage at the end.
    pub(crate) fn play(&mut self, rt: &(impl Abort + Threads), moves: &[Move]) -> Stage {
        let mut exchange = Exchange::new(self.alloc);
        for each in moves {
            exchange = self.happens(rt, exchange, *each);
            exchange = self.flush(rt, exchange);
            exchange = self.deliver(rt, exchange);
        }
        self.end(rt, exchange)
    }

    fn happens(&mut self, rt: &(impl Abort + Threads), exchange: Exchange, each: Move) -> Exchange {
        let event = match each {
            Move::Again => return self.ask_again(rt, exchange),
            Move::Barred => return self.is_barred(rt, exchange),
            Move::Answered(_) | Move::Silent(_) | Move::Clean(_) | Move::Used(_) => {
                assert!(rt; is_so(&exchange, each));
                return exchange;
            }
            Move::Client(bytes) => {
                self.client
                    .bytes
                    .extend_from_slice(bytes)
                    .expect(rt, "memory");
                return exchange;
            }
            Move::Server(bytes) => {
                self.server
                    .bytes
                    .extend_from_slice(bytes)
                    .expect(rt, "memory");
                return exchange;
            }
            Move::Stall | Move::Flow => {
                self.stalled = matches!(each, Move::Stall);
                return exchange;
            }
            Move::Hold | Move::Free => {
                self.held = matches!(each, Move::Hold);
                return exchange;
            }
            Move::Grant => Event::Granted(self.grant(rt)),
            Move::Unserved => Event::Unserved,
            Move::Connected(fresh) => Event::Connected(terms(fresh, None)),
            Move::Named(address) => {
                let address = IpAddr::V4(Ipv4Addr::from_octets(address));
                Event::Connected(terms(true, Some(address)))
            }
            Move::Unreachable => Event::Unreachable,
            Move::ClientEnd => Event::ClientEnd,
            Move::ClientFailed => Event::ClientFailed,
            Move::ServerEnd => Event::ServerEnd,
            Move::ServerFailed => Event::ServerFailed,
            Move::ServerDeaf => Event::ServerDeaf,
            Move::Over(clock) => Event::TimeOver(clock),
        };
        self.tell(rt, exchange, event).0
    }

    fn ask_again(&mut self, rt: &(impl Abort + Threads), exchange: Exchange) -> Exchange {
        assert!(rt; exchange.may_ask_again());
        match exchange.ask_again(self.alloc) {
            Ok(next) => next,
            Err(_exchange) => panic!(rt; "a client that may ask again can't"),
        }
    }

    fn is_barred(&mut self, rt: &(impl Abort + Threads), exchange: Exchange) -> Exchange {
        assert!(rt; !exchange.may_ask_again());
        match exchange.ask_again(self.alloc) {
            Ok(_next) => panic!(rt; "a client that may not ask again does"),
            Err(exchange) => exchange,
        }
    }

    fn grant(&mut self, rt: &(impl Abort + Threads)) -> Pass {
        let (till, pass) = Till::open(rt, self.alloc);
        self.till = Some(till);
        pass
    }

    // Reports one event to the exchange. Returns the exchange, and how many bytes it took.
    fn tell(
        &mut self,
        rt: &(impl Abort + Threads),
        exchange: Exchange,
        event: Event,
    ) -> (Exchange, usize) {
        let Step {
            next,
            used,
            outcome,
        } = exchange.step(self.alloc, self.rules, event);
        self.give(rt, outcome);
        (next, used)
    }

    fn give(&mut self, rt: &(impl Abort + Threads), outcome: Outcome) {
        match outcome {
            Outcome::Quiet => {}
            Outcome::Posts(pass, ending) => self.post(rt, pass, ending),
            Outcome::Retries => self.wire.retries = self.wire.retries.wrapping_add(1),
            Outcome::Starved => panic!(rt; "no memory for a request"),
            Outcome::StarvedPosts(_pass, _ending) => panic!(rt; "no memory for a head"),
            Outcome::Returns(_pass) => panic!(rt; "a pass that wasn't waited for"),
        }
    }

    fn post(&mut self, rt: &(impl Abort + Threads), pass: Pass, ending: Ending) {
        if ending == Ending::Done {
            self.wire.done = self.wire.done.wrapping_add(1);
        } else {
            self.wire.failed = self.wire.failed.wrapping_add(1);
        }
        match &mut self.till {
            Some(till) => till.post(rt, pass, ending),
            None => panic!(rt; "a pass of no board"),
        }
    }

    // Both sides take the bytes that are for them.
    fn flush(&mut self, rt: &(impl Abort + Threads), mut exchange: Exchange) -> Exchange {
        for _ in 0..10_000u64 {
            let wants = exchange.wants();
            let client = wants.writes_client && !self.stalled;
            let server = wants.writes_server && !self.held;
            if client && (!server || self.client_cut.flips()) {
                exchange = self.to_client(rt, exchange);
            } else if server {
                exchange = self.to_server(rt, exchange);
            } else {
                return exchange;
            }
        }
        exchange
    }

    fn to_client(&mut self, rt: &(impl Abort + Threads), exchange: Exchange) -> Exchange {
        let most = self.client_cut.next();
        let waiting = exchange.to_client();
        let count = waiting.len().min(most);
        self.wire
            .told
            .extend_from_slice(&waiting[..count])
            .expect(rt, "memory");
        self.tell(rt, exchange, Event::ClientTook(count)).0
    }

    fn to_server(&mut self, rt: &(impl Abort + Threads), exchange: Exchange) -> Exchange {
        let most = self.server_cut.next();
        let waiting = exchange.to_server();
        let count = waiting.len().min(most);
        self.wire
            .sent
            .extend_from_slice(&waiting[..count])
            .expect(rt, "memory");
        self.tell(rt, exchange, Event::ServerTook(count)).0
    }

    // Delivers the bytes that both sides sent, as long as they are taken.
    fn deliver(&mut self, rt: &(impl Abort + Threads), mut exchange: Exchange) -> Exchange {
        for _ in 0..10_000u64 {
            let (next, used) = self.both(rt, exchange);
            exchange = self.flush(rt, next);
            if used == 0 {
                return exchange;
            }
        }
        exchange
    }

    // Delivers a piece of each side, one after the other, and returns how many bytes were taken.
    fn both(&mut self, rt: &(impl Abort + Threads), exchange: Exchange) -> (Exchange, usize) {
        if self.server_cut.flips() {
            let (next, used) = self.of_server(rt, exchange);
            let (last, also) = self.of_client(rt, next);
            return (last, used.saturating_add(also));
        }
        let (next, used) = self.of_client(rt, exchange);
        let (last, also) = self.of_server(rt, next);
        (last, used.saturating_add(also))
    }

    fn of_client(&mut self, rt: &(impl Abort + Threads), exchange: Exchange) -> (Exchange, usize) {
        if self.client.piece(ALL).is_empty() {
            return (exchange, 0);
        }
        let most = self.client_cut.next();
        let piece = self.client.piece(most);
        let copy = Vec::from_slice(self.alloc, piece).expect(rt, "memory");
        let (next, used) = self.tell(rt, exchange, Event::ClientBytes(copy.as_slice()));
        self.client.taken = self.client.taken.saturating_add(used);
        (next, used)
    }

    fn of_server(&mut self, rt: &(impl Abort + Threads), exchange: Exchange) -> (Exchange, usize) {
        if self.server.piece(ALL).is_empty() {
            return (exchange, 0);
        }
        let most = self.server_cut.next();
        let piece = self.server.piece(most);
        let copy = Vec::from_slice(self.alloc, piece).expect(rt, "memory");
        let (next, used) = self.tell(rt, exchange, Event::ServerBytes(copy.as_slice()));
        self.server.taken = self.server.taken.saturating_add(used);
        (next, used)
    }

    // Returns its stage, and posts a pass that it still has.
    fn end(&mut self, rt: &(impl Abort + Threads), exchange: Exchange) -> Stage {
        match exchange {
            Exchange::Asking(_) => Stage::Asking,
            Exchange::Waiting(_) => Stage::Waiting,
            Exchange::Dialing(dialing) => {
                let pass = dialing.abandon();
                self.post(rt, pass, Ending::Done);
                Stage::Dialing
            }
            Exchange::Forwarding(forwarding) => {
                let pass = forwarding.abandon();
                self.post(rt, pass, Ending::Done);
                Stage::Forwarding
            }
            Exchange::Settling(_) => Stage::Settling,
            Exchange::Leaving(_) => Stage::Leaving,
            Exchange::Telling(_) => Stage::Telling,
            Exchange::Over => Stage::Over,
        }
    }
}
