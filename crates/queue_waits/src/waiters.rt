use due_key::Key;
use log_entries::Queue;

/// A waiting request.
#[derive(Clone, Copy, Debug, PartialEq, Eq)]
pub struct Waiter {
    /// Its class, due date and ticket.
    pub key: Key,
    /// The queue that it waits in.
    pub queue: Queue,
    /// The position in the log of the entry by which it joined that queue; the first entry's is 1;
    /// 0 where it joined before the log.
    pub joined: usize,
}
