//! A dispatcher that can report: the greatest lateness so far of each queue and class, the reports
//! of the window with their critical sets, and the number of requests that each server was given in
//! it. It makes room in a full log by returning the window's reports and beginning the next one.
#![tactic(auto)]

mod dispatcher;
mod lines;
mod reporting;

pub use dispatcher::ReportingCore;
pub use lines::ServerLine;
pub use reporting::EndedWindow;
