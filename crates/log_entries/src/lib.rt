//! The log of a dispatcher, and the definition of a legal log: the vocabulary that the core, the
//! certificate and the replay share. `specs/` judges a log entry by entry and produces none.
#![tactic(auto)]

mod allowance;
mod entry;
mod laws;
mod queue;
mod refusal;
mod row;
mod setup;

pub use allowance::{Allowance, Intake};
pub use entry::{Arrival, Entry};
pub use laws::{
    calls_are_determined, closed_servers_take_nobody, entries_go_on_from_entries,
    legal_logs_are_determined, legal_logs_are_dispatched, legal_logs_keep_within,
    runs_are_dispatched, windows_begin_at_bases, worked_logs_are_legal, wrong_logs_are_not_legal,
};
pub use queue::{Queue, order_of_queues};
pub use refusal::Refusal;
pub use row::{Phase, Row};
pub use setup::{ServerSet, Servers, Setup};
