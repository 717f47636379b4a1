//! The replay of a script: from its bytes, over any reader, to the bytes of its trace and its reports, over any writer.
#![tactic(auto)]

mod call;
mod defaults;
mod events;
mod fault;
mod laws;
mod reads;
mod reports;
mod run;
mod streams;
mod transfers;

pub use events::{Replayed, replay_events};
pub use fault::{Fault, status_of};
pub use laws::a_script_has_one_trace;
pub use reports::reports_of;
pub use streams::{replay, replay_between, trace_of};
pub use transfers::MOST_READS;
