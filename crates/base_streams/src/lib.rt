//! Ends of byte streams that count their calls and the calls that failed.
//!
//! The standard contracts of readers and writers tell which bytes came and went, and say nothing of
//! a call that failed. A function over a `Source` or a `Sink` can say for each fault on which side
//! it arose, and how many calls it made.
#![tactic(auto)]

mod counted;
mod streams;

pub use counted::Counted;
pub use streams::{Failed, Sink, Source};
