//! The dispatcher behind a lock, with its board beside it: the state that threads share. A call of
//! a `Desk` waits for the lock and makes the book's call of the same name; passes are taken and
//! posted at the board, which no lock guards. A `DeskKey` opens it for calls that change what it
//! holds, and each of them returns what it `Changed`.
#![tactic(auto)]

mod changed;
mod desk;
mod followed;
mod keys;
mod locked;
mod opened;
mod unread;

pub use changed::{Changed, LogRead, TailChanged};
pub use desk::{Desk, DeskBook, DeskQueue};
pub use keys::{DeskKey, DeskKeys, LogKey, WakeKey};
pub use locked::{Held, Looking};
pub use opened::OpenDesk;
