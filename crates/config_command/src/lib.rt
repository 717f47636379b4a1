//! The command line: its subcommands and options, and what a user asked for.
#![tactic(auto)]

mod commands;
mod converting;
mod inputs;
mod logging;
mod running;
mod steering;
mod version;
mod watching;
mod words;

pub use converting::Sections;
pub use inputs::Input;
pub use logging::LogWords;
pub use running::{RANGES, RunNumbers};
pub use steering::{ControlWords, SentCommand};
pub use watching::{AdminFault, AdminWords, admin_address};
pub use words::{DrawnQueue, ServiceWords, Subcommand, parse};
