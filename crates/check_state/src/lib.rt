//! Whether a server is up, by the results of its health checks. The crate allocates nothing and uses no handle.
#![tactic(auto)]

mod health;
mod laws;

pub use health::{Change, Health};
pub use laws::{runs_decide, shortened_lists_stand};
