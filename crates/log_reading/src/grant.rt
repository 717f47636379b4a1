use due_key::{Class, Due, Moment};
use log_entries::Queue;

/// A wait in a queue that ended with the grant of a slot. Positions count the entries of a log from
/// 1, events included. A ticket with two grants has two stays.
#[derive(Clone, Copy, Debug, PartialEq, Eq)]
pub struct Stay {
    pub ticket: u64,
    /// The position of the last entry that put the ticket into the queue.
    pub joined: usize,
    /// The position of the grant.
    pub slot: usize,
    /// The due date of the ticket's last arrival.
    pub due: Due,
}

/// A grant of a slot to a waiting request.
#[derive(Clone, Copy, Debug, PartialEq, Eq)]
pub struct SlotGrant {
    /// The queue that the request left.
    pub queue: Queue,
    /// The class of the ticket's last arrival.
    pub class: Class,
    /// The moment of the event in which the slot was granted.
    pub moment: Moment,
    pub stay: Stay,
}
