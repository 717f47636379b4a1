//! The certificate of least lateness: for each queue and class of a log a report that names the
//! greatest lateness and shows, by its critical stays, that no other assignment of the same slots
//! has a smaller one.
#![tactic(auto)]

mod check;
mod laws;
mod making;
mod report;
mod running;
mod table;
mod worsts;

pub use check::audit;
pub use laws::{
    chosen_is_sound, reports_are_determined, reports_of_legal_logs_are_sound,
    running_worst_is_certified, sound_is_least, worked_reports,
};
pub use log_reading::Stay;
pub use making::certify;
pub use report::{Report, Reports, Stays};
pub use table::Running;
