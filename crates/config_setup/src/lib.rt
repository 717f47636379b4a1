//! The setup of a dispatcher that a configuration describes, for a number of places and a log of a given size.
#![tactic(auto)]

mod setup;

pub use setup::{configured_limits_of, limits_of, setup_of};
