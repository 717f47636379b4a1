//! Scripts of steps for a dispatcher, and the trace, which is the text of the dispatcher's answers
//! and its reports.
#![tactic(auto)]

mod header;
mod line;
mod name;
mod names;
mod report;
mod setting;
mod step;
mod trace;
mod writing;

pub use header::{Header, MOST_BYTES, ScriptError, is_faulty, read};
pub use line::{Line, step_in};
pub use name::Name;
pub use names::Names;
pub use report::{push_reports, push_roll};
pub use setting::Setting;
pub use step::{Step, intake_of};
pub use trace::{push_entries, push_refusal};
