//! Who waits outside: clients beyond the places wait here, by class and due date, until a place is free.
//!
//! An outsider's key is decided once, when it comes. Its due date stays the same when it gets a place,
//! unless it is late by more than an offset can express.
#![tactic(auto)]

mod admission;
mod room;

pub use admission::{admission_keeps_the_order, remaining};
pub use room::{OutsideOrder, RoomFault};
