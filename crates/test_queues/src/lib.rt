//! Tests of the queues and of the requests that wait in them. They are a crate of their own, so
//! that the crates under test aren't proved a second time with them.
#![tactic(auto)]

#[cfg(test)]
mod assertions;
#[cfg(test)]
mod lists;
#[cfg(test)]
mod memory;
#[cfg(test)]
mod trees;
#[cfg(test)]
mod waiting;
