//! Lines on their way to a file. A thread of its own writes them, so that whoever adds a line waits
//! for no disk and for no reader.
#![tactic(auto)]

mod pending;
mod sink;
mod target;
#[cfg(test)]
mod tests;

pub use pending::Pending;
pub use sink::Sink;
pub use target::Way;
