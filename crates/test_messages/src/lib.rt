//! Tests of messages that are handed on. They are a crate of their own, so that the crates under
//! test aren't proved a second time with them.
#![tactic(auto)]

#[cfg(test)]
mod assertions;
#[cfg(test)]
mod bodies;
#[cfg(test)]
mod counted;
#[cfg(test)]
mod exchanges;
#[cfg(test)]
mod fakes;
#[cfg(test)]
mod passes;
#[cfg(test)]
mod repeats;
#[cfg(test)]
mod texts;
