//! The dispatcher beside its board: each call makes one event of the dispatcher and offers the
//! verdicts that follow, so that what is out at the board is what is outstanding of the log. A
//! `Book` is what stands behind the lock.
//!
//! What is outstanding of a log, the verdicts that its entries are and the endings that came back
//! are defined here, too.
#![tactic(auto)]

mod book;
mod keeping;
mod name;
mod offering;
mod verdicts;

pub use book::{Book, Deferred, Wanted};
pub use name::DeskName;
pub use verdicts::verdict_in;
