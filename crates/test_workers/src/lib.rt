//! Tests of workers and checkers, of gates on sockets and of the window printer. They are a crate
//! of their own, so that the crates under test aren't proved a second time with them.
#![tactic(auto)]

#[cfg(test)]
mod gates;
#[cfg(test)]
mod texts;
#[cfg(test)]
mod windows;
#[cfg(test)]
mod workers;
