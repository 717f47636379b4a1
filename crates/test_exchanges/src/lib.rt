//! Tests of bodies and exchanges in all pieces. They are a crate of their own, so that the crates
//! under test aren't proved a second time with them.
#![tactic(auto)]

#[cfg(test)]
mod bodies;
#[cfg(test)]
mod chains;
#[cfg(test)]
mod driving;
#[cfg(test)]
mod exchanges;
#[cfg(test)]
mod metering;
#[cfg(test)]
mod playing;
#[cfg(test)]
mod signals;
#[cfg(test)]
mod till;
