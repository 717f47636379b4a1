//! The access log and the event log of a running proxy: each loop puts the records of ended
//! exchanges into a ring of its own, and a thread joins them with the dispatcher's log. No loop
//! waits for it; where it is too slow, lines are left out and counted.
#![tactic(auto)]

mod log;
mod scribe;
mod tallies;
#[cfg(test)]
mod tests;

pub use log::{Access, Extent, Logs, RecordSink, RequestLog};
pub use log_lines::CheckFailure;
pub use scribe::{LogSubject, Scribe, ScribeEnd, base_of};
