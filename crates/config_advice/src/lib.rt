//! The explanations of `check --explain`: every faulty line and its replacement, and the lines without effect.
#![tactic(auto)]

mod advising;
mod explaining;
mod idle;
mod knowns;
mod sections;

pub use explaining::{Explanation, explain};
pub use idle::idle_lines;
