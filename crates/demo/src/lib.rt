//! `dueproxy demo`: what `run` does, on three servers and twelve requests that are in the program.
//!
//! Servers, proxy and clients are threads and real sockets on the loopback. Who came, who waits and
//! who is next is read from the dispatcher's own log. What is counted and judged at the end is a
//! function of that log.
#![tactic(auto)]

mod acting;
mod conducting;
mod ending;
mod fault;
mod keeping;
mod picture;
mod stage;
mod watcher;

pub use demo_words::{Looks, Teller};
pub use fault::DemoFault;
pub use stage::demo;
