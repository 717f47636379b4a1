//! Tests of the dispatcher and of its parts. They are a crate of their own, so that the crates
//! under test aren't proved a second time with them.
#![tactic(auto)]

#[cfg(test)]
mod assertions;
#[cfg(test)]
mod dispatcher;
#[cfg(test)]
mod ledger;
#[cfg(test)]
mod picks;
#[cfg(test)]
mod traces;
