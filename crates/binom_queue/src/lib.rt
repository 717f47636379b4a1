//! Binomial queues: the pending queue as a row of heap-ordered trees, whose sizes are the binary
//! digits of its length.
//!
//! Adding, removing and merging link and separate existing trees, so they allocate nothing. Every
//! recursion goes from a root to a child or to the next tree at each call, and no such walk is
//! longer than twice the number of binary digits of the length.
#![tactic(auto)]

mod binom_queue;
mod forest;
mod grow;
mod links;
mod search;
mod single;

pub use binom_queue::BinomQueue;
pub use single::Single;
