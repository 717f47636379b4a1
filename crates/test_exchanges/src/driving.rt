//! Tests of the driver over streams that give and take bytes in random pieces, and are empty or
//! full in between: the texts are the same in each order.
ghost use Rattle.std.specs.Prelude.{◌<◌, ◌≤◌, ◌≡◌, length};

use crate::till::Till;
use base_verdict::Ending;
use exchange_driver::{Driven, Duplex, Line, Moved, Settings, drive};
use exchange_events::{Event, Exchange, Outcome, Rules, Step};
use exchange_machine::Terms;
use http_texts::{Additions, Persistence};
use std::alloc::{AllocError, Global};
use std::cell::Cell;
use std::io;
use std::io::{Error, ErrorKind, Read, Write};
use std::process::Abort;
use std::rc::Rc;
use std::test::Fail;
use std::thread::Threads;

/// Pseudo-random numbers.
#[derive(Clone, Copy)]
struct Chance {
    seed: u64,
}

impl Chance {
    fn below(&mut self, most: usize) -> usize
        requires { 0 < most }
    {
        self.seed = self
            .seed
            .wrapping_mul(6_364_136_223_846_793_005)
            .wrapping_add(1_442_695_040_888_963_407);
        (self.seed >> 33) as usize % most
    }

    // Returns the size of a piece, at most this number of bytes.
    fn piece(&mut self, most: usize) -> usize {
        self.below(most.max(1)).saturating_add(1)
    }

    fn flips(&mut self) -> bool {
        self.below(2) == 0
    }
}

/// The counts of both streams of a side.
#[derive(Drop)]
struct Counts {
    given: Cell<usize>,
    taken: Cell<usize>,
    /// The number of times that there was nothing to read or no room to write.
    blocks: Cell<usize>,
}

impl Counts {
    fn new() -> Counts {
        Counts {
            given: Cell::new(0),
            taken: Cell::new(0),
            blocks: Cell::new(0),
        }
    }

    // Returns the number of bytes that went over both streams.
    fn moved(&self) -> usize {
        self.given.get().wrapping_add(self.taken.get())
    }

    fn block(&self) -> Error {
        self.blocks.set(self.blocks.get().wrapping_add(1));
        Error::from(ErrorKind::WouldBlock)
    }
}

/// The bytes that a side sends.
#[derive(Drop)]
struct Script {
    bytes: Vec<u8>,
    /// The last byte comes once the side took this number of bytes.
    last_behind: usize,
    ends: bool,
    /// A piece has at most this number of bytes.
    piece: usize,
}

/// The source of a side's bytes, in pieces.
#[derive(Drop)]
struct Source {
    script: Script,
    counts: Rc<Counts>,
    chance: Chance,
}

/// The sink of a side's bytes, in pieces.
#[derive(Drop)]
struct Sink {
    piece: usize,
    counts: Rc<Counts>,
    chance: Chance,
    bytes: Vec<u8>,
}

impl Source {
    // Returns the number of bytes that are there now.
    fn there(&self) -> usize {
        let rest = self
            .script
            .bytes
            .len()
            .saturating_sub(self.counts.given.get());
        if self.counts.taken.get() < self.script.last_behind {
            rest.saturating_sub(1)
        } else {
            rest
        }
    }
}

impl Read for Source {
    fn read(&mut self, buf: &mut [u8]) -> io::Result<usize> {
        let given = self.counts.given.get();
        if self.script.ends && given >= self.script.bytes.len() {
            return Ok(0);
        }
        let most = self.there().min(self.chance.piece(self.script.piece));
        if most == 0 || self.counts.blocks.get() == 0 || self.chance.below(3) == 0 {
            return Err(self.counts.block());
        }
        let count = copy_from(self.script.bytes.as_slice(), given, most, buf);
        self.counts.given.set(given.wrapping_add(count));
        Ok(count)
    }
}

// Copies the bytes at a place, as long as there is room and at most this number.
fn copy_from(bytes: &[u8], place: usize, most: usize, buf: &mut [u8]) -> usize
    ensures within { result ≤ length buf.new }
    ensures length { length buf.new ≡ length buf.old }
{
    let rest = bytes.get(place..).unwrap_or(b"");
    let count = most.min(rest.len()).min(buf.len());
    buf[..count].copy_from_slice(&rest[..count]);
    count
}

impl Write for Sink {
    fn write(&mut self, buf: &[u8]) -> io::Result<usize> {
        if self.chance.below(3) == 0 {
            return Err(self.counts.block());
        }
        let count = buf.len().min(self.chance.piece(self.piece));
        match self.bytes.extend_from_slice(&buf[..count]) {
            Ok(()) => {
                self.counts
                    .taken
                    .set(self.counts.taken.get().wrapping_add(count));
                Ok(count)
            }
            Err(_) => Err(Error::from(ErrorKind::OutOfMemory)),
        }
    }

    fn flush(&mut self) -> io::Result<()> {
        Ok(())
    }
}

fn line(
    alloc: Global,
    script: Script,
    counts: &Rc<Counts>,
    seed: u64,
) -> Result<Line<Duplex<Source, Sink>>, AllocError> {
    let chance = Chance { seed };
    let sink = Sink {
        piece: script.piece,
        counts: counts.clone()?,
        chance,
        bytes: Vec::new(alloc),
    };
    let source = Source {
        script,
        counts: counts.clone()?,
        chance,
    };
    Ok(Line::new(alloc, Duplex::new(source, sink)))
}

/// The bytes that both sides send, in pieces of at most this size, and the bytes that each must get.
#[derive(Clone, Copy)]
struct Row<'a> {
    piece: usize,
    client: &'a [u8],
    server: &'a [u8],
    /// The server's input ends after its bytes.
    ends: bool,
    sent: &'a [u8],
    told: &'a [u8],
}

impl Row<'_> {
    fn of_client(&self, alloc: Global) -> Result<Script, AllocError> {
        Ok(Script {
            bytes: Vec::from_slice(alloc, self.client)?,
            last_behind: 0,
            ends: false,
            piece: self.piece,
        })
    }

    // Its last byte comes once it was sent all of the request: otherwise a whole answer would end
    // the request early.
    fn of_server(&self, alloc: Global) -> Result<Script, AllocError> {
        Ok(Script {
            bytes: Vec::from_slice(alloc, self.server)?,
            last_behind: self.sent.len(),
            ends: self.ends,
            piece: self.piece,
        })
    }
}

const TERMS: Terms = Terms {
    adds: Additions {
        asks: Persistence::Persist,
        client: None,
    },
    willing: true,
    fresh: true,
};

/// The most times that an exchange is driven.
const MOST: u32 = 1 << 20;

/// What an exchange is served with, and its board once it has a pass.
#[derive(Drop)]
struct Desk {
    settings: Settings,
    till: Option<Till>,
}

impl Desk {
    // Gives a pass to an exchange that waits, and connects one that has a pass.
    fn serve(&mut self, rt: &(impl Abort + Threads), exchange: Exchange) -> Exchange {
        match &exchange {
            Exchange::Waiting(_) => {
                let (till, pass) = Till::open(rt, self.settings.alloc);
                self.till = Some(till);
                self.tell(rt, exchange, Event::Granted(pass))
            }
            Exchange::Dialing(_) => self.tell(rt, exchange, Event::Connected(TERMS)),
            _ => exchange,
        }
    }

    fn tell(&mut self, rt: &(impl Abort + Threads), exchange: Exchange, event: Event) -> Exchange {
        let Step {
            next,
            used: _,
            outcome,
        } = exchange.step(self.settings.alloc, self.settings.rules, event);
        self.take(rt, outcome);
        next
    }

    fn take(&mut self, rt: &(impl Abort + Threads), outcome: Outcome) {
        match outcome {
            Outcome::Quiet => {}
            Outcome::Posts(pass, ending) | Outcome::StarvedPosts(pass, ending) => {
                assert_eq!(rt; ending, Ending::Done);
                match &mut self.till {
                    Some(till) => till.post(rt, pass, ending),
                    None => panic!(rt; "a pass of no board"),
                }
            }
            Outcome::Retries => panic!(rt; "a connection didn't break"),
            Outcome::Starved => panic!(rt; "no memory"),
            Outcome::Returns(_pass) => panic!(rt; "a pass that wasn't waited for"),
        }
    }

    // Posts a pass that the exchange still has.
    fn end(&mut self, rt: &(impl Abort + Threads), exchange: Exchange) {
        match exchange {
            Exchange::Dialing(dialing) => {
                let pass = dialing.abandon();
                self.take(rt, Outcome::Posts(pass, Ending::Done));
            }
            Exchange::Forwarding(forwarding) => {
                let pass = forwarding.abandon();
                self.take(rt, Outcome::Posts(pass, Ending::Done));
            }
            Exchange::Asking(_)
            | Exchange::Waiting(_)
            | Exchange::Settling(_)
            | Exchange::Leaving(_)
            | Exchange::Telling(_)
            | Exchange::Over => {}
        }
    }
}

fn is_over(exchange: &Exchange) -> bool {
    match exchange {
        Exchange::Settling(_) | Exchange::Leaving(_) | Exchange::Telling(_) => {
            exchange.to_client().is_empty()
        }
        Exchange::Over => true,
        _ => false,
    }
}

fn is_told(moved: Option<Moved>) -> bool {
    match moved {
        Some(moved) => {
            moved.spend();
            true
        }
        None => false,
    }
}

/// Both sides of an exchange, and their counts.
#[derive(Drop)]
struct Sides {
    client: Line<Duplex<Source, Sink>>,
    server: Line<Duplex<Source, Sink>>,
    near: Rc<Counts>,
    far: Rc<Counts>,
    chance: Chance,
}

impl Sides {
    fn new(alloc: Global, row: &Row<'_>, seed: u64) -> Result<Sides, AllocError> {
        let near = Rc::new(alloc, Counts::new())?;
        let far = Rc::new(alloc, Counts::new())?;
        Ok(Sides {
            client: line(alloc, row.of_client(alloc)?, &near, seed)?,
            server: line(alloc, row.of_server(alloc)?, &far, seed.wrapping_add(99))?,
            near,
            far,
            chance: Chance { seed },
        })
    }

    // Drives it once, after a poll that reported some of both sides. What it says of moved bytes is checked.
    fn drive(
        &mut self,
        rt: &(impl Abort + Threads),
        desk: &mut Desk,
        exchange: Exchange,
    ) -> Exchange {
        self.client.wake(self.chance.flips(), self.chance.flips());
        self.server.wake(self.chance.flips(), self.chance.flips());
        let (at_client, at_server) = (self.near.moved(), self.far.moved());
        let mut buffer = [0u8; 4096];
        let piece = self.chance.piece(4096);
        let size = if piece == 0 || 4096 < piece {
            4096
        } else {
            piece
        };
        let Driven {
            exchange,
            outcome,
            client,
            server,
            rest: _,
        } = drive(
            exchange,
            desk.settings,
            &mut self.client,
            &mut self.server,
            &mut buffer[..size],
        );
        assert_eq!(rt; is_told(client), self.near.moved() != at_client);
        assert_eq!(rt; is_told(server), self.far.moved() != at_server);
        desk.take(rt, outcome);
        exchange
    }

    // Says whether each side got its text, after some waiting.
    fn have(self, row: &Row<'_>) -> bool {
        let waited = self.near.blocks.get() > 0 && self.far.blocks.get() > 0;
        let Sides { client, server, .. } = self;
        waited && has(client, row.told) && has(server, row.sent)
    }
}

fn has(line: Line<Duplex<Source, Sink>>, bytes: &[u8]) -> bool {
    match line.into_socket() {
        Some(side) => side.writes.bytes.as_slice() == bytes,
        None => false,
    }
}

// Says whether each side gets its text in this order.
fn holds(
    rt: &(impl Abort + Threads),
    alloc: Global,
    row: &Row<'_>,
    seed: u64,
) -> Result<bool, AllocError> {
    let mut sides = Sides::new(alloc, row, seed)?;
    let mut desk = Desk {
        settings: Settings {
            alloc,
            rules: Rules { aborts: false },
            turns: 3,
        },
        till: None,
    };
    let mut exchange = Exchange::new(alloc);
    for _ in 0..MOST {
        if is_over(&exchange) {
            break;
        }
        exchange = desk.serve(rt, exchange);
        exchange = sides.drive(rt, &mut desk, exchange);
    }
    desk.end(rt, exchange);
    Ok(sides.have(row))
}

// Returns the first of this number of orders in which a row fails.
fn first_fault(
    rt: &(impl Abort + Threads),
    alloc: Global,
    row: &Row<'_>,
    orders: u64,
) -> Result<Option<u64>, AllocError> {
    for seed in 0..orders {
        if !holds(rt, alloc, row, seed)? {
            return Ok(Some(seed));
        }
    }
    Ok(None)
}

#[test]
fn small_messages(rt: HostRuntime) -> Result<(), Fail> {
    let rows = [
        Row {
            piece: 9,
            client: b"GET /a HTTP/1.1\r\nHost: h\r\n\r\n",
            server: b"HTTP/1.1 200 OK\r\nContent-Length: 2\r\n\r\nhi",
            ends: false,
            sent: b"GET /a HTTP/1.1\r\nHost: h\r\n\r\n",
            told: b"HTTP/1.1 200 OK\r\nContent-Length: 2\r\n\r\nhi",
        },
        Row {
            piece: 5,
            client: b"POST /a HTTP/1.1\r\nHost: h\r\nTransfer-Encoding: chunked\r\n\r\n02;x=y\r\nab\r\n0\r\nA: b\r\n\r\n",
            server: b"HTTP/1.1 200 OK\r\nTransfer-Encoding: chunked\r\n\r\n00A \t\r\n0123456789\r\n0;x\r\n\r\n",
            ends: false,
            sent: b"POST /a HTTP/1.1\r\nHost: h\r\nTransfer-Encoding: chunked\r\n\r\n2\r\nab\r\n0\r\n\r\n",
            told: b"HTTP/1.1 200 OK\r\nTransfer-Encoding: chunked\r\n\r\na\r\n0123456789\r\n0\r\n\r\n",
        },
        Row {
            piece: 9,
            client: b"POST /a HTTP/1.1\r\nHost: h\r\nContent-Length: 5\r\nExpect: 100-continue\r\n\r\nabcde",
            server: b"HTTP/1.1 103 Early Hints\r\n\r\nHTTP/1.1 200 OK\r\n\r\nhi",
            ends: true,
            sent: b"POST /a HTTP/1.1\r\nHost: h\r\nContent-Length: 5\r\n\r\nabcde",
            told: b"HTTP/1.1 100 Continue\r\n\r\nHTTP/1.1 103 Early Hints\r\n\r\nHTTP/1.1 200 OK\r\nConnection: close\r\n\r\nhi",
        },
    ];
    for row in &rows {
        assert_eq!(rt; first_fault(&rt, rt.alloc(), row, 60)?, None);
    }
    Ok(())
}

/// More bytes than can wait for a side that takes nothing.
const LARGE: usize = 50_000;

fn message(alloc: Global, head: &[u8], end: &[u8]) -> Result<Vec<u8>, AllocError> {
    let mut text = Vec::from_slice(alloc, head)?;
    for number in 0..LARGE {
        text.extend_from_slice(&[(number % 251) as u8])?;
    }
    text.extend_from_slice(end)?;
    Ok(text)
}

#[test]
fn large_messages(rt: HostRuntime) -> Result<(), Fail> {
    let request = message(
        rt.alloc(),
        b"POST /a HTTP/1.1\r\nHost: h\r\nContent-Length: 50000\r\n\r\n",
        b"",
    )?;
    let answer = message(
        rt.alloc(),
        b"HTTP/1.1 200 OK\r\nTransfer-Encoding: chunked\r\n\r\nc350\r\n",
        b"\r\n0\r\n\r\n",
    )?;
    let row = Row {
        piece: 6000,
        client: request.as_slice(),
        server: answer.as_slice(),
        ends: false,
        sent: request.as_slice(),
        told: answer.as_slice(),
    };
    assert_eq!(rt; first_fault(&rt, rt.alloc(), &row, 10)?, None);
    Ok(())
}
