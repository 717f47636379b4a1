//! The commands `draw` and `explain`: from a script, which is replayed first, or a trace to its
//! picture or to the story of one ticket.
#![tactic(auto)]

mod input;
mod picture;
mod tale;
mod there;

pub use input::InputFault;
pub use picture::{DrawFault, draw};
pub use tale::{StoryFault, write_story};
pub use there::waits_in;
