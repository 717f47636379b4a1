//! Pending queues: pairs of a key and a value, with the least key first.
//!
//! A queue has room for a number of pairs that is fixed when it is made, and the memory of a pair
//! is allocated when its node is made. So adding, removing and merging allocate nothing and can't
//! fail.
#![tactic(auto)]

mod list_queue;
mod queue;

pub use list_queue::ListQueue;
pub use queue::PendQueue;
