//! Tests of keys, of logs, of windows that are read back, and of their reports. They are a crate of
//! their own, so that the crates under test aren't proved a second time with them.
#![tactic(auto)]

#[cfg(test)]
mod assertions;
#[cfg(test)]
mod certificates;
#[cfg(test)]
mod health;
#[cfg(test)]
mod keys;
#[cfg(test)]
mod lists;
#[cfg(test)]
mod logs;
#[cfg(test)]
mod readable;
#[cfg(test)]
mod tails;
#[cfg(test)]
mod texts;
