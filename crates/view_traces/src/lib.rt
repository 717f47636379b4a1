//! The reading of traces: from their lines to the entries and the reports.
#![tactic(auto)]

mod decision;
mod event;
mod fault;
mod fields;
mod kind;
mod reader;
mod report;
mod servers;
mod timed;
mod trace;
mod window;

pub use fault::{TraceCause, TraceError};
pub use kind::{has_roll, is_trace};
pub use reader::{MOST_BYTES, read_trace};
pub use report::ReportLine;
pub use trace::Trace;
pub use window::trace_of_window;
