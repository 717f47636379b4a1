//! Blocking calls that hand messages on: from a client's bytes to a server's, and back.
#![tactic(auto)]

mod aside;
mod asking;
mod calls;
mod closing;
mod exchange;
mod leave;
mod messages;
mod refusing;
mod sending;
mod steps;

pub use aside::Aside;
pub use closing::Closing;
pub use exchange::{Exchange, Stage};
pub use http_texts::{
    Additions, Code, Fault, Framing, MOST_INTERIMS, Persistence, Plan, answer_plan, request_framing,
};
