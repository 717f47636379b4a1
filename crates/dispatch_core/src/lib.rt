//! The dispatcher: it puts arrivals on a server or in a queue, grants freed slots by due date, and
//! notes every decision in its log, which stays legal. It uses no handle, and allocates only when
//! it is made and at arrivals.
#![tactic(auto)]

mod dispatcher;
mod event;
mod events;
mod healths;

pub use crate::dispatcher::Core;
pub use crate::event::Event;
pub use dispatch_state::Ticketed;
pub use log_entries::{Phase, Queue, Refusal, ServerSet, Servers, Setup};
pub use log_reading::Log;
