//! Tests of the board and of seats that move between threads. They are a crate of their own, so
//! that the crates under test aren't proved a second time with them.
#![tactic(auto)]

#[cfg(test)]
mod assertions;
#[cfg(test)]
mod boards;
#[cfg(test)]
mod lending;
#[cfg(test)]
mod seats;
