//! Both ends of a connection, which follow the script up to a moment.
ghost use Rattle.std.specs.Prelude.{◌≡◌, ◌≤◌, length, IfOk};

use crate::script::{Move, Script};
use std::alloc::Global;
use std::cell::Cell;
use std::io;
use std::io::{Error, ErrorKind, Read, Write};
use std::rc::Rc;

/// The side that a stream belongs to.
#[derive(Clone, Copy, Debug, PartialEq, Eq)]
pub(crate) enum Side {
    Client,
    Server,
}

/// The script, and how much of it has happened.
#[derive(Drop)]
pub(crate) struct Past {
    pub(crate) script: Script,
    pub(crate) count: Cell<usize>,
}

impl Past {
    pub(crate) fn new(script: Script) -> Past {
        Past {
            script,
            count: Cell::new(0),
        }
    }

    fn move_at(&self, place: usize) -> Option<&Move> {
        match self.script.steps.as_slice().get(place) {
            Some(step) => Some(&step.what),
            None => None,
        }
    }

    /// Returns what the exchange is told of the move at a place; `None` where it hasn't happened.
    pub(crate) fn told_at(&self, place: usize) -> Option<Told> {
        match self.move_at(place) {
            Some(what) => Some(told_of(what)),
            None => None,
        }
    }

    // Returns the move at a place; `None` where it hasn't happened.
    fn at(&self, place: usize) -> Option<&Move> {
        if place < self.count.get() {
            self.move_at(place)
        } else {
            None
        }
    }

    fn len(&self) -> usize {
        self.script.steps.len()
    }
}

/// What the exchange is told of a move.
#[derive(Clone, Copy, Debug, PartialEq, Eq)]
pub(crate) enum Told {
    Nothing,
    Granted,
    Unserved,
    /// The client has left.
    Gone,
    /// The client sends no more.
    Ended,
    Connected { fresh: bool },
    Unreachable,
    Late,
}

fn told_of(what: &Move) -> Told {
    match what {
        Move::Grant => Told::Granted,
        Move::Unserved => Told::Unserved,
        Move::ClientReset => Told::Gone,
        Move::ClientEnd => Told::Ended,
        Move::Connected { fresh } => Told::Connected { fresh: *fresh },
        Move::Unreachable => Told::Unreachable,
        Move::Late => Told::Late,
        _ => Told::Nothing,
    }
}

// What a move means for a reader of one side.
enum Comes<'a> {
    Bytes(&'a [u8]),
    End,
    Failure,
    Nothing,
}

fn coming(side: Side, what: &Move) -> Comes<'_> {
    match (side, what) {
        (Side::Client, Move::Client(bytes)) | (Side::Server, Move::Server(bytes)) => {
            Comes::Bytes(bytes.as_slice())
        }
        (Side::Client, Move::ClientEnd) | (Side::Server, Move::ServerEnd) => Comes::End,
        (Side::Client, Move::ClientReset) | (Side::Server, Move::ServerReset) => Comes::Failure,
        _ => Comes::Nothing,
    }
}

/// The source of a side's bytes. A read returns one piece at most.
#[derive(Drop)]
pub(crate) struct Source {
    past: Rc<Past>,
    side: Side,
    /// The next move that is read, and how much of it has been.
    next: usize,
    given: usize,
}

impl Source {
    /// Reads what happens from this place on.
    pub(crate) fn new(past: Rc<Past>, side: Side, place: usize) -> Source {
        Source {
            past,
            side,
            next: place,
            given: 0,
        }
    }
}

impl Read for Source {
    fn read(&mut self, buf: &mut [u8]) -> io::Result<usize> {
        for _ in 0..=self.past.len() {
            let Some(what) = self.past.at(self.next) else {
                break;
            };
            match coming(self.side, what) {
                Comes::Nothing => self.next = self.next.saturating_add(1),
                Comes::End => return Ok(0),
                Comes::Failure => return Err(Error::from(ErrorKind::ConnectionReset)),
                Comes::Bytes(bytes) => {
                    let rest = bytes.get(self.given..).unwrap_or(b"");
                    let count = rest.len().min(buf.len());
                    buf[..count].copy_from_slice(&rest[..count]);
                    if count < rest.len() {
                        self.given = self.given.saturating_add(count);
                    } else {
                        self.next = self.next.saturating_add(1);
                        self.given = 0;
                    }
                    return Ok(count);
                }
            }
        }
        Err(Error::from(ErrorKind::WouldBlock))
    }
}

/// The bytes that a side took. It takes one piece at a time, and no more until it is reported as ready again.
#[derive(Drop)]
pub(crate) struct Sink {
    past: Rc<Past>,
    side: Side,
    next: usize,
    /// The number of bytes that it still takes.
    left: u64,
    piece: usize,
    rests: bool,
    broken: bool,
    pub(crate) taken: Vec<u8>,
}

impl Sink {
    /// Takes what the moves from this place on allow.
    pub(crate) fn new(alloc: Global, past: Rc<Past>, side: Side, place: usize) -> Sink {
        let piece = past.script.terms.piece;
        Sink {
            past,
            side,
            next: place,
            left: u64::MAX,
            piece,
            rests: false,
            broken: false,
            taken: Vec::new(alloc),
        }
    }

    // Applies the moves since the last call.
    fn catch_up(&mut self) {
        for _ in 0..self.past.len() {
            let Some(what) = self.past.at(self.next) else {
                return;
            };
            self.next = self.next.saturating_add(1);
            match (self.side, what) {
                (Side::Client, Move::ClientTakes(count))
                | (Side::Server, Move::ServerTakes(count)) => self.left = *count,
                (Side::Client, Move::ClientReset) | (Side::Server, Move::ServerDeaf) => {
                    self.broken = true
                }
                _ => {}
            }
        }
    }

    fn take(&mut self, bytes: &[u8]) -> io::Result<usize>
        ensures { IfOk result (λ count. count ≤ length bytes.now) }
    {
        let most = bytes.len().min(self.piece);
        let count = if self.left < most as u64 {
            self.left as usize
        } else {
            most
        };
        match self.taken.extend_from_slice(&bytes[..count]) {
            Ok(()) => {
                self.left = self.left.saturating_sub(count as u64);
                Ok(count)
            }
            Err(_) => Err(Error::from(ErrorKind::OutOfMemory)),
        }
    }
}

impl Write for Sink {
    fn write(&mut self, buf: &[u8]) -> io::Result<usize> {
        self.catch_up();
        if self.broken {
            return Err(Error::from(ErrorKind::BrokenPipe));
        }
        if self.left == 0 || self.rests {
            self.rests = false;
            return Err(Error::from(ErrorKind::WouldBlock));
        }
        self.rests = self.piece < usize::MAX;
        self.take(buf)
    }

    fn flush(&mut self) -> io::Result<()> {
        Ok(())
    }
}
