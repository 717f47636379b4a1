//! The event loops of a proxy: a client costs its exchange alone, and no thread.
//!
//! Each loop is a thread with a `Poll` of its own. A client is a guest of the loop that accepted
//! it, until its request waits for a pass: then it lies at its place, which all loops share
//! (`loop_shared`), and the loop that finds its pass there serves it to the last byte. Bytes go
//! both ways as they come, through one state machine.
//!
//! A loop sleeps only when it owes no look at a place.
#![tactic(auto)]

mod accepting;
mod accounting;
mod admitting;
mod asking_again;
mod dialing;
mod granting;
mod guest;
mod keeping;
mod lingering;
mod looping;
mod parking;
mod resetting;
mod reusing;
mod rooms;
mod serving;
mod threads;
mod timing;

pub use threads::{Lends, UnstartedLoop, loops_of, run_all};

// Whoever starts loops gets the items of the layers below from this crate.
pub use loop_shared::{
    GateShared, Outside, Proxy, ServerConnections, Shared, SharedParts, Site, UnusedCounts,
    empty_cells, join_all, most_connections, polls_of, split_off,
};
