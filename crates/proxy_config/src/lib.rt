//! The proxy's configuration: HAProxy's syntax in the profile that `docs/FORMATS.md` states.
#![tactic(auto)]

mod addresses;
mod conditions;
mod draft;
mod faults;
mod keywords;
pub mod laws;
mod names;
mod parts;
mod pieces;
mod progress;
mod reading;
mod rules;
mod samples;
mod settings;
mod values;
mod wishes;

pub use base_lists::Items;
pub use faults::{ConfigFault, FaultCause, ReadError};
pub use parts::{
    Acl, Action, Address, Bind, Checks, Condition, Config, Expression, Guard, Host, Operand, Pin,
    Rule, Server, Subject, Term, Test, Text,
};
pub use reading::{MOST_BYTES, read};
