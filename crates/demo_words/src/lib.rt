//! The plan and the texts of the demo: its requests and servers, and the lines that tell of them.
#![tactic(auto)]

mod colour;
mod plan;
mod seconds;
mod server;
mod teller;
mod words;

pub use colour::{Looks, Tone};
pub use plan::{GAP, PLAN, VISITS, Visit, names_of, request_of};
pub use server::Server;
pub use teller::Teller;
pub use words::{push_reports, push_table};
