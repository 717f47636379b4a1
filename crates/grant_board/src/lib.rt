//! The grant board: it brings verdicts to the threads that act on them, and endings back.
//!
//! Each request has a place, and the board has a word for each place. The keeper's seat offers a
//! verdict for a ticket at its place. One of the relays' seats takes it, which gives a `Pass`, and
//! posts how its exchange ended. The keeper collects that, and the place is empty again. Each of
//! these is one or two atomic steps on the place's word, so no thread waits for another, and only
//! `Board::open` allocates. After the places' words each server has a word with its bound: no more
//! of its passes are out than that.
#![tactic(auto)]

mod board;
mod keeper;
pub mod laws;
mod opening;
mod pass;
mod plays;
mod relay;
mod relaying;
mod returned;
mod tally;
mod view;

pub use board::{Board, BoardName};
pub use keeper::KeeperSeat;
pub use opening::Closing;
pub use pass::{Pass, Taking};
pub use relay::{Met, RelaySeat};
pub use returned::Return;
