//! Messages as texts: the meaning of their heads, what is handed on of them, and the proxy's own answers.
#![tactic(auto)]

mod additions;
mod fault;
mod fields;
mod framings;
mod head_texts;
mod heads;
mod kept_connections;
mod laws;
mod leave;
mod lines;
mod persistence;
mod plans;
mod refusals;
mod roles;

pub use additions::Additions;
pub use fault::{Fault, fault_of};
pub use framings::request_framing;
pub use head_texts::{answer_head_text, given_leave, interim_head, request_head};
pub use heads::{Added, Wording, put_answer, put_interim, put_request};
pub use http_bodies::Framing;
pub use kept_connections::{answer_says, is_kept_by_server};
pub use laws::{texts_of_a_request_are_comparable, texts_of_an_answer_are_comparable};
pub use persistence::Persistence;
pub use plans::{Plan, answer_plan};
pub use refusals::Code;
pub use roles::{MOST_INTERIMS, Role, is_framed, role_of};
