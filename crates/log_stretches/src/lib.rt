//! Where each request of a log was, and when: its stays in queues and its services by servers; who
//! waited how long, and whether those that waited together got their slots in the order of their
//! keys.
#![tactic(auto)]

mod course;
mod order;
mod services;
mod stretch;
#[cfg(test)]
mod tests;

pub use course::{Came, Course};
pub use order::{Stayed, are_in_order, stays_in};
pub use services::{Served, services_in};
pub use stretch::{Lane, Stretch, stretches_of};
