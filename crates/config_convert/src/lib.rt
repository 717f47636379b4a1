//! `dueproxy convert`: translates a configuration of HAProxy to one that `check` accepts, and tells what changes.
//!
//! A frontend, its backend and their defaults are joined to one `listen`. The configuration's own
//! reader has accepted the result before it is returned.
#![tactic(auto)]

mod acls;
mod binds;
mod choosing;
mod conditions;
mod fates;
mod joining;
mod lines;
mod notes;
mod output;
mod rules;
mod sections;
mod servers;
mod settling;
mod values;

pub use notes::{Note, Weight, push_note};
pub use settling::{Conversion, Unconverted, convert, status_of};
