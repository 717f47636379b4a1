//! The tables of a loop: values by tokens that name one connection for ever, and the time that each
//! may still wait.
//!
//! All memory is allocated when they are made: no later call allocates.
#![tactic(auto)]

mod agenda;
mod cells;
pub mod laws;
mod running;
mod subject;
mod timers;
mod token;
mod token_table;

pub use agenda::Agenda;
pub use running::Running;
pub use subject::{Subject, numbers_differ};
pub use timers::{Overdue, Timers};
pub use token::{Hole, MOST_CELLS, Token};
pub use token_table::TokenTable;
