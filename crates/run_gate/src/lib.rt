//! The gate of a proxy on real sockets: where clients come from, connections to servers, the
//! addresses of their names, checks, and the clock; and pauses of a millisecond.
//!
//! No clause says what a socket gives or takes. What is proved here is that nothing goes wrong
//! whatever it does, and what depends on no socket: how long is waited, what counts as gone, when a
//! check is over.
#![tactic(auto)]

mod addresses;
mod answer;
mod clients;
mod dialing;
mod front;
mod gate;
mod leaving;
mod looking;
mod name;
mod pauses;
mod probing;
mod site;
#[cfg(test)]
mod tests;
mod waits;

pub use addresses::Addresses;
pub use clients::Clients;
pub use front::{GateShared, within};
pub use gate::SocketGate;
pub use leaving::{Told, told_of};
pub use pauses::Pauses;
pub use probing::Checked;
pub use site::Site;

// What a gate returns of a window.
pub use run_windows::HandedOver;
