//! What reads a configuration's file, and what `check` says of it: how many servers it has, its
//! first faulty line, or every faulty line with its remedy; and why a file couldn't be read or
//! written, or an address couldn't be listened at.
#![tactic(auto)]

mod addresses;
mod checking;
mod files;

pub use addresses::{address_remedy, say_address_reason};
pub use checking::{CheckOutput, Checked, check, check_in_full, read_file, say_faults, status_of};
pub use files::{remedy, say_reason};
