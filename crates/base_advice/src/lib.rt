//! What to say of a faulty line of a configuration, a script or a trace: the line with a mark below
//! its word at fault, the known word that is nearest to one that isn't known, and for lines of
//! scripts and traces the form that fits.
#![tactic(auto)]

mod blame;
mod forms;
mod kept;
mod marking;
mod slips;
mod telling;

pub use kept::Kept;
pub use marking::{Span, push_marked_line, push_printable, span_of};
pub use slips::nearest;
pub use telling::{explain_script_line, explain_trace_line};
