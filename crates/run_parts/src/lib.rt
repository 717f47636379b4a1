//! What a service is made of before it serves, and what goes on beside serving: how much it takes
//! on, the parts of its dispatcher, where clients come, its logs and numbers, and what is printed
//! at the end.
#![tactic(auto)]

mod crew;
mod descriptors;
mod fault;
mod lending;
mod limits;
mod listening;
mod log_copy;
mod opening;
mod parts;
mod preparing;
mod sharing;
mod telling;
mod watching;
mod writing;

pub use crew::{Crew, crew_of};
pub use fault::ServeFault;
pub use lending::Lends;
pub use limits::{LoopSizes, MOST_LOOPS, MOST_WAITING, MOST_WORKERS, RunLimits};
pub use listening::{Listening, open};
pub use log_copy::LogCopy;
pub use opening::{Doors, RunOptions, announce};
pub use parts::{Parts, parts_of};
pub use sharing::{Asked, ServiceParts, front_of, service_parts_of};
pub use telling::tell_all;
pub use watching::{announce_admin, end_watching, start_watching};
pub use writing::{Writing, close_logs, end_writing, start_writing};

// The options of a run contain these.
pub use log_requests::Logs;
pub use relay_workers::ProxyKeys;
pub use run_gate::{GateShared, Site};
pub use shared_desk::LogKey;
