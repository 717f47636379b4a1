use due_key::Moment;
use server_pick::Cursor;

/// The place of a live request, and its ticket.
#[derive(Clone, Copy, Debug, PartialEq, Eq)]
pub struct Ticketed {
    pub place: usize,
    pub ticket: u64,
}

/// The position of a state.
#[derive(Clone, Copy, Debug)]
pub struct Position {
    /// The server that balancing picked last.
    pub cursor: Cursor,
    /// The moment of the last event.
    pub last: Moment,
    /// The last ticket that was given.
    pub ticket: u64,
}
