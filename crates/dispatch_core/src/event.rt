use due_key::Moment;
use log_entries::Intake;

/// An event of a dispatcher, and the moment that it is handed in with: each but an arrival, which is a call of its own, since it
/// takes memory and answers a ticket. Tickets name requests; servers are numbered from 0 in file order.
#[derive(Clone, Copy, Debug, PartialEq, Eq)]
pub enum Event {
    /// The request with this ticket is over.
    Done {
        moment: Moment,
        ticket: u64,
    },
    /// A connection of the request with this ticket failed before anything was sent over it.
    Fail {
        moment: Moment,
        ticket: u64,
    },
    /// The request with this ticket, which waits, is given up.
    Abort {
        moment: Moment,
        ticket: u64,
    },
    /// Time passed, and requests may have waited too long.
    Tick {
        moment: Moment,
    },
    /// A check of the server ended; it answered, or not.
    Check {
        moment: Moment,
        server: usize,
        answered: bool,
    },
    /// The server takes so many requests from now on, or none.
    Limit {
        moment: Moment,
        server: usize,
        limit: Intake,
    },
}
