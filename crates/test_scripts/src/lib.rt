//! Tests of scripts, of their replays and of the lines of windows. They are a crate of their own,
//! so that the crates under test aren't proved a second time with them.
#![tactic(auto)]

#[cfg(test)]
mod assertions;
#[cfg(test)]
mod lines;
#[cfg(test)]
mod replays;
#[cfg(test)]
mod samples;
#[cfg(test)]
mod texts;
#[cfg(test)]
mod windows;
