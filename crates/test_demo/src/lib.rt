//! Tests of the demo, on real sockets, and of its lines. They are a crate of their own, so that the
//! crates under test aren't proved a second time with them.
#![tactic(auto)]

#[cfg(test)]
mod lines;
#[cfg(test)]
mod runs;
