//! Tests of the means to steer and watch `run`: commands and their socket, lines of requests and of
//! windows, pages. They are a crate of their own, so that the crates under test aren't proved a
//! second time with them.
#![tactic(auto)]

#[cfg(test)]
mod commands;
#[cfg(test)]
mod counts;
#[cfg(test)]
mod lines;
#[cfg(test)]
mod numbers;
#[cfg(test)]
mod pages;
#[cfg(test)]
mod patience;
#[cfg(test)]
mod printing;
#[cfg(test)]
mod questions;
#[cfg(test)]
mod sockets;
#[cfg(test)]
mod steering;
#[cfg(test)]
mod unprinted;
