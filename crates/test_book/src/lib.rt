//! Tests of the dispatcher with its board and of the layers between them. They are a crate of their
//! own, so that the crates under test aren't proved a second time with them.
#![tactic(auto)]

#[cfg(test)]
mod assertions;
#[cfg(test)]
mod books;
#[cfg(test)]
mod desks;
#[cfg(test)]
mod places;
#[cfg(test)]
mod windows;
