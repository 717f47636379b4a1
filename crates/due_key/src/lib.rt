//! The due date of a waiting request, and the key by which queues order requests: class, due date
//! and ticket, lower first. All are plain numbers, in range by their types: nothing is allocated,
//! and only `Moment::new` can fail.
#![tactic(auto)]

mod class;
mod due;
mod key;
mod moment;
mod offset;

pub use class::{Class, HIGHEST_CLASS, LOWEST_CLASS};
pub use due::Due;
pub use key::{Key, order_of_keys};
pub use moment::Moment;
pub use offset::Offset;
