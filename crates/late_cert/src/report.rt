use base_lists::Items;
use due_key::{Class, Due};
use log_entries::Queue;
use log_reading::Stay;

/// A list of stays, in order.
pub type Stays = Items<Stay>;

/// The claim on the requests of one class that were granted slots from one queue. Positions count
/// the log's entries from 1.
#[derive(Debug, Drop)]
pub struct Report {
    pub queue: Queue,
    pub class: Class,
    /// The number of these requests.
    pub granted: usize,
    /// The greatest lateness in milliseconds: the moment of the grant minus the due date.
    pub worst: i64,
    /// The due date of a stay with that lateness.
    pub due: Due,
    /// The cut: the critical stays joined after this position, so they can't use the slots up to it.
    pub after: usize,
    /// The slot of that stay.
    pub to: usize,
    /// The stays with slots after the cut up to `to`, in order: as many as these slots, all due by
    /// `due`, so one of them is at least as late whoever gets which slot.
    pub critical: Stays,
}

/// The reports of a log, in order.
pub type Reports = Items<Report>;
