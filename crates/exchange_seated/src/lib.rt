//! An exchange and the seat at which its pass was taken, as one value: the pass leaves only
//! together with its seat, to be posted. And an exchange with its server's connection, which goes
//! to another exchange only where this one ended clean.
#![tactic(auto)]

mod linked;
mod notice;
mod queued;
mod seated;
mod unused;

pub use linked::{Carried, Linked};
pub use notice::Notice;
pub use queued::WaitingExchange;
pub use seated::{Given, Posting, Seated, Served, Stage};
pub use unused::Unused;
