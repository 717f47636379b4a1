//! The state of a dispatcher beside its log: the live requests by place, those that wait, the cursor
//! of balancing, the last moment and the last ticket. Each kind of entry has one method, which notes
//! the entry and applies it, so that the state always agrees with its log. A request that isn't
//! served has two methods, `tell` where it has no phase and `dismiss` where it waits. The crate uses
//! no handle, and allocates only when a state is made and at arrivals.
#![tactic(auto)]

mod arriving;
mod checking;
mod expiry;
mod failing;
mod leaving;
mod moving;
mod position;
mod serving;
mod state;
mod windows;

pub use failing::Fate;
pub use position::{Position, Ticketed};
pub use state::DispatchState;
