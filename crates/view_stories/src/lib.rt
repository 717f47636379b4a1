//! The story of one request of a log in words: when it came, where it waited and for which others,
//! when it was served and how late.
#![tactic(auto)]

mod chapter;
mod critical;
mod lines;
mod overtaking;
mod teller;

pub use lines::MOST_LINES;
pub use teller::{Telling, push_story};
