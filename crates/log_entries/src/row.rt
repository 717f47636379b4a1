use crate::queue::Queue;
use base_verdict::Cause;
use due_key::{Key, Moment};

/// The phase of a live request.
#[derive(Clone, Copy, Debug, PartialEq, Eq)]
pub enum Phase {
    /// Not placed yet, or no longer: only inside an event.
    Loose,
    /// It waits in a queue since this moment.
    Waiting(Queue, Moment),
    /// It has a slot of this server.
    Serving(usize),
    /// It is told that it isn't served, and why; its place is free once the caller has reported that.
    Told(Cause),
}

/// A live request.
#[derive(Clone, Copy, Debug, PartialEq, Eq)]
pub struct Row {
    /// Its class, due date and ticket, which never change.
    pub key: Key,
    /// The server that it is pinned to (`use-server`).
    pub pin: Option<usize>,
    /// The number of its connections that failed.
    pub failures: u32,
    pub phase: Phase,
}

impl Phase {
    ghost use Rattle.std.specs.Prelude.{◌≡◌};
    ghost use Rattle.log_entries.specs.Rows.{server_in, queue_in};

    /// Returns the server whose slot it has.
    pub fn server(self) -> Option<usize>
        ensures { result ≡ server_in self }
    {
        match self {
            Phase::Serving(server) => Some(server),
            Phase::Loose | Phase::Waiting(_, _) | Phase::Told(_) => None,
        }
    }

    /// Returns the queue that it waits in.
    pub fn queue(self) -> Option<Queue>
        ensures { result ≡ queue_in self }
    {
        match self {
            Phase::Waiting(queue, _) => Some(queue),
            Phase::Loose | Phase::Serving(_) | Phase::Told(_) => None,
        }
    }
}
