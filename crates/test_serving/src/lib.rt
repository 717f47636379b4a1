//! Tests of `run`. They are a crate of their own, so that the crates under test aren't proved a
//! second time with them.
#![tactic(auto)]

#[cfg(test)]
mod echoes;
#[cfg(test)]
mod faked;
#[cfg(test)]
mod names;
#[cfg(test)]
mod operators;
#[cfg(test)]
mod peers;
#[cfg(test)]
mod records;
#[cfg(test)]
mod runs;
mod sizes;
#[cfg(test)]
mod staying;
#[cfg(test)]
mod stories;
#[cfg(test)]
mod texts;
