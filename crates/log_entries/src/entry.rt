ghost use Rattle.std.specs.Prelude.{◌≡◌};
ghost use Rattle.log_entries.specs.States.{key_of};

use crate::allowance::Intake;
use crate::queue::Queue;
use base_verdict::Cause;
use due_key::{Class, Due, Key, Moment};

/// An accepted arrival. A log consists mostly of entries, so its integers are only as wide as
/// needed, and the widest stand first.
#[derive(Clone, Copy, Debug, PartialEq, Eq)]
pub struct Arrival {
    /// The number of the accepted arrival, counted from 1.
    pub ticket: u64,
    pub due: Due,
    pub class: Class,
    /// The place that holds its row until it ends. No line of a trace shows it.
    pub place: u16,
    /// The server that the request is pinned to.
    pub pin: Option<u8>,
}

impl Arrival {
    /// Returns the pin as a server's number.
    pub fn pin(&self) -> Option<usize>
        ensures { result ≡ self.now.pin }
    {
        self.pin.map(usize::from)
    }

    /// Returns the request's key.
    pub fn key(&self) -> Key
        ensures { result ≡ key_of self.now }
    {
        Key {
            class: self.class,
            due: self.due,
            ticket: self.ticket,
        }
    }
}

/// An entry of a log: an event with its effective moment, or a decision of the dispatcher in it.
/// Tickets name requests; servers are numbered from 0 in file order.
#[derive(Clone, Copy, Debug, PartialEq, Eq)]
pub enum Entry {
    /// Event: a request arrives.
    Arrive(Moment, Arrival),
    /// Event: the request with this ticket is over, and its slot is returned.
    Done(Moment, u64),
    /// Event: a connection failed for the request with this ticket, which has a slot.
    Fail(Moment, u64),
    /// Event: the client of the waiting request with this ticket gave up.
    Abort(Moment, u64),
    /// Event: time has passed, and requests may have waited too long.
    Tick(Moment),
    /// Event: a health check of the server succeeded or failed.
    Check(Moment, usize, bool),
    /// Event: the server serves at most this number of requests from now on, or is closed.
    Limit(Moment, usize, Intake),
    /// The ticket takes a slot of the server when it arrives.
    Direct(u64, usize),
    /// The ticket begins to wait in the queue.
    Joined(u64, Queue),
    /// The ticket leaves the queue for a slot of the server.
    Granted(u64, Queue, usize),
    /// The ticket leaves the server's queue for the backend's, and its pin is gone.
    Moved(u64, usize),
    /// The ticket's slot at the server is freed.
    Freed(u64, usize),
    /// The ticket keeps its slot at the server for another connection, after this number failed.
    Retried(u64, usize, u32),
    /// The ticket is told that it isn't served, and why.
    Left(u64, Cause),
    /// The server's health changed: it is up now, or down.
    Health(usize, bool),
    /// The ticket's row is removed, and its place is free.
    Ended(u64),
}
