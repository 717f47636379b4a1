//! What is printed of windows: the reports of each one that ended, and at the end a line for each
//! server of what it was given in all of them. A thread of its own prints, so that one who hands a
//! window over never waits for a reader of standard output.
#![tactic(auto)]

mod handed;
mod printed;
mod printer;
mod sums;
mod text;

pub use handed::{Handed, HandedOver, Numbered};
pub use printed::{PrintFault, PrintedWindows};
pub use printer::{WindowPrinter, lines_of};
pub use sums::Sums;
pub use text::{end_text, push_servers, push_window};
