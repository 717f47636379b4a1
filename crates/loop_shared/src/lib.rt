//! The state that all threads of a proxy share: the requests that wait for a pass and those that
//! wait for a place, the seats, the mailboxes, and the end.
//!
//! A request that arrived is put at its place, and then the place is looked at: where its pass is
//! there, the thread that looked goes on with it. A thread that is told of an offer at a place
//! looks there afterwards. So one of the two should find the pass, in whichever order they come. No
//! clause says that; it is argued here only.
#![tactic(auto)]

mod admission;
mod clients;
mod descriptors;
mod dialing;
mod first_outside;
mod granted;
mod leaving;
mod looking;
mod mail;
mod outside;
mod owed;
mod owed_admission;
mod owed_looks;
mod parked;
mod parked_cells;
mod polls;
mod posting;
mod presence;
mod ringing;
mod shared;
mod steering;
mod stopping;
mod timeouts;
mod unused;
mod waiting;
mod watching;
mod windows;

pub use admission::Admission;
pub use descriptors::{ConnectionBounds, ServerConnections, most_connections};
pub use dialing::{DialFault, Dialed};
pub use first_outside::{NobodyOutside, NothingToAdmit};
pub use granted::GrantedRequest;
pub use leaving::HasLeft;
pub use looking::Looked;
pub use mail::Mailbox;
pub use outside::{Outside, Outsider};
pub use owed::{NobodyThere, OwedLook};
pub use owed_admission::OwedAdmission;
pub use owed_looks::OwedLooks;
pub use parked::{GivenUpSet, Parked};
pub use parked_cells::empty_cells;
pub use polls::polls_of;
pub use presence::Presence;
pub use ringing::run_checks;
pub use shared::{Shared, SharedParts};
pub use steering::run_controls;
pub use stopping::{Over, Refusing, Stopping};
pub use timeouts::timed;
pub use unused::UnusedCounts;
pub use watching::{Watched, watch, watch_anew};
pub use windows::run_windows;

// The loops get the items of the layers below from this crate.
pub use relay_workers::{Gate, Proxy, Stop, join_all, split_off};
pub use run_gate::{GateShared, Site, SocketGate};
