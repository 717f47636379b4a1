//! Seats that go from thread to thread: one without a pass, and one with the pass that it took; and
//! seats that are lent.
//!
//! A pass can only be posted by the seat that has it. So the two are one value here, and whichever
//! thread holds that value may post the pass. Of seats that are lent, those that are idle and those
//! that are held are together all that there are.
#![tactic(auto)]

mod asking;
mod counted;
mod held;
mod idle;
mod lent;
mod seats;

pub use asking::TakeResult;
pub use counted::{LentThing, LentThings};
pub use held::Held;
pub use idle::Idle;
pub use lent::{Lent, Taken};
pub use seats::Seats;
