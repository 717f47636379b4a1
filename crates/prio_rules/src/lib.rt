//! What a configuration's rules wish for a request: its class, its offset and its server.
//!
//! Nothing here allocates or copies a part of the request.
#![tactic(auto)]

mod conditions;
mod fields;
pub mod laws;
mod samples;
mod wish;

pub use wish::{Wish, decide};
