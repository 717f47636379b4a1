//! What the proxy's formats share: lines, words, comments, names, numbers and times, on borrowed bytes.
//!
//! Nothing here allocates. No text is decoded: a byte beyond ASCII is a part of a word like any other.

#![tactic(auto)]

pub mod names;
pub mod numerals;
pub mod parts;
pub mod text;
pub mod times;

pub use names::is_name;
pub use numerals::{long_number, number, signed_long_number};
pub use parts::Parts;
pub use text::{Lines, Words, without_comment};
pub use times::milliseconds;
