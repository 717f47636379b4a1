//! The events of a client's connection, one a line.

use crate::texts::decoded;
use proxy_words::{Words, long_number};
use std::alloc::{AllocError, Global};

/// An event of the script.
#[derive(Drop)]
pub(crate) enum Move {
    /// The client sends these bytes, which one read returns.
    Client(Vec<u8>),
    ClientEnd,
    ClientReset,
    /// The client takes this number of bytes more, and then none.
    ClientTakes(u64),
    /// The server sends these bytes.
    Server(Vec<u8>),
    ServerEnd,
    ServerReset,
    /// The server takes no more bytes, and may still send.
    ServerDeaf,
    ServerTakes(u64),
    /// The exchange that waits gets a pass.
    Grant,
    /// The exchange that waits is refused.
    Unserved,
    /// The server is reached, on a new connection or a used one.
    Connected { fresh: bool },
    Unreachable,
    /// The timeout that runs expires.
    Late,
}

/// A move, and whether it happens together with the one before it.
#[derive(Drop)]
pub(crate) struct Step {
    pub(crate) what: Move,
    pub(crate) together: bool,
}

/// The terms of service of the connection's exchanges.
#[derive(Clone, Copy)]
pub(crate) struct Terms {
    /// Clients may send several requests.
    pub(crate) keeps: bool,
    /// `option abortonclose`.
    pub(crate) aborts: bool,
    /// Servers are asked to keep their connections open.
    pub(crate) asks: bool,
    /// Servers are told the client's address (`option forwardfor`).
    pub(crate) names: bool,
    /// The most bytes that one write takes.
    pub(crate) piece: usize,
}

/// The events of a client's connection.
#[derive(Drop)]
pub(crate) struct Script {
    pub(crate) terms: Terms,
    pub(crate) steps: Vec<Step>,
}

impl Script {
    /// Makes an empty script.
    pub(crate) fn new(alloc: Global) -> Script {
        Script {
            terms: Terms {
                keeps: false,
                aborts: false,
                asks: false,
                names: false,
                piece: usize::MAX,
            },
            steps: Vec::new(alloc),
        }
    }

    /// Returns the place after the moves that happen together with the one at `place`.
    pub(crate) fn end_of(&self, place: usize) -> usize {
        let mut last = place.saturating_add(1);
        for next in last..self.steps.len() {
            match self.steps.as_slice().get(next) {
                Some(step) if step.together => last = next.saturating_add(1),
                _ => break,
            }
        }
        last
    }

    /// Sets the connection's terms, from a line's words after `exchange`.
    pub(crate) fn set_terms(&mut self, words: Words<'_>) -> bool {
        for word in words {
            match word {
                b"keep" => self.terms.keeps = true,
                b"aborts" => self.terms.aborts = true,
                b"asks" => self.terms.asks = true,
                b"names" => self.terms.names = true,
                size => match long_number(size) {
                    Some(size) if size > 0 => self.terms.piece = size as usize,
                    _ => return false,
                },
            }
        }
        true
    }

    /// Adds a step by its line. Says whether the line is one.
    pub(crate) fn add(&mut self, alloc: Global, line: &[u8]) -> Result<bool, AllocError> {
        let mut words = Words::new(line);
        let mut name = words.next();
        let together = matches!(name, Some(b"and"));
        if together {
            name = words.next();
        }
        let Some(name) = name else {
            return Ok(false);
        };
        match move_of(alloc, name, words.next())? {
            None => Ok(false),
            Some(what) => {
                self.steps.push(Step { what, together })?;
                Ok(true)
            }
        }
    }
}

fn move_of(
    alloc: Global,
    name: &[u8],
    argument: Option<&[u8]>,
) -> Result<Option<Move>, AllocError> {
    let Some(argument) = argument else {
        return Ok(plain_move(name));
    };
    Ok(match name {
        b"client" => Some(Move::Client(decoded(alloc, argument)?)),
        b"server" => Some(Move::Server(decoded(alloc, argument)?)),
        b"client-takes" => long_number(argument).map(|count| Move::ClientTakes(count)),
        b"server-takes" => long_number(argument).map(|count| Move::ServerTakes(count)),
        _ => None,
    })
}

fn plain_move(name: &[u8]) -> Option<Move> {
    match name {
        b"client-end" => Some(Move::ClientEnd),
        b"client-reset" => Some(Move::ClientReset),
        b"client-flows" => Some(Move::ClientTakes(u64::MAX)),
        b"server-end" => Some(Move::ServerEnd),
        b"server-reset" => Some(Move::ServerReset),
        b"server-deaf" => Some(Move::ServerDeaf),
        b"server-flows" => Some(Move::ServerTakes(u64::MAX)),
        b"grant" => Some(Move::Grant),
        b"unserved" => Some(Move::Unserved),
        b"connected" => Some(Move::Connected { fresh: true }),
        b"connected-again" => Some(Move::Connected { fresh: false }),
        b"unreachable" => Some(Move::Unreachable),
        b"late" => Some(Move::Late),
        _ => None,
    }
}
