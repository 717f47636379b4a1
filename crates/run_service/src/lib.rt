//! What `dueproxy run` does: from the bytes of a configuration to clients that are served as it
//! says, by event loops, to what is printed at the end, and how it ends.
#![tactic(auto)]

mod ending;
mod fault;
mod looping;
mod parts;
mod recording;
mod running;
mod serving;

pub use fault::{RunFault, status_of};
pub use loop_events::Proxy;
pub use looping::{LoopsFault, SeatSource, serve};
pub use recording::serve_recorded;
pub use running::run;
pub use serving::{listen_and_serve, serve_at};

// The options of a service, and how it ends.
pub use run_parts::{Asked, Doors, LogCopy, Logs, RunOptions, ServeFault};
