//! A window of a log that can be read back: beside its base and its entries it keeps the grants of
//! slots that they tell of, each with its class, its due date and where its wait began. A tail
//! holds what a reader, who reads entry by entry and window after window, hasn't read yet.
#![tactic(auto)]

mod base;
mod grant;
mod laws;
mod log;
mod read;
mod tail;

pub use base::{Base, BaseRow};
pub use grant::{SlotGrant, Stay};
pub use laws::{
    entries_add_up, grants_tell_no_place, judged_logs_are_readable, readable_logs_are_timely,
    rows_have_arrived, worked_logs,
};
pub use log::Log;
pub use read::Unreadable;
pub use tail::{Batch, Tail};
