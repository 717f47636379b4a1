//! The waiting requests: the queue of each server and the backend's, by key, with the order in
//! which they joined and the position in the log where each did. All memory is allocated when they
//! are made.
#![tactic(auto)]

mod by_place;
mod falls;
mod order;
mod queues;
mod waiters;
mod waiting;

pub use order::JoinOrder;
pub use waiters::Waiter;
pub use waiting::{Taken, WaitQueues};
