//! Sets of places, of which there are at most 4,096: one bit each, in an array of fixed size, so
//! that a set allocates nothing.
#![tactic(auto)]

mod block;
mod set;

pub use block::Block;
pub use set::{MOST_PLACES, PlaceSet};
