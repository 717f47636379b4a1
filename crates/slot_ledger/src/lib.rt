//! The live requests by place: a row for each, an index of their tickets, the free places, and the
//! number of requests in each phase. All memory is allocated when the ledger is made.
#![tactic(auto)]

mod counts;
mod ledger;
mod places;
mod tickets;

pub use ledger::Ledger;
pub use places::Cell;
