//! Tests of the loops' tables and of who waits outside. They are a crate of their own, so that the
//! crates under test aren't proved a second time with them.
#![tactic(auto)]

#[cfg(test)]
mod agendas;
#[cfg(test)]
mod assertions;
#[cfg(test)]
mod rooms;
#[cfg(test)]
mod tables;
