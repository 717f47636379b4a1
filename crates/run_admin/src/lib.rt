//! A small listener for HTTP, which tells how a running proxy does: it reads a head, answers with a
//! page or with numbers, and closes.
//!
//! It is a thread of its own beside those that serve, and has a few connections at once: what a
//! client sends or takes slowly lies in buffers of its own, and each connection is over after some
//! seconds.
#![tactic(auto)]

mod admin;
mod answering;
mod client;
mod page;
mod pages;
mod paths;
mod question;
mod reception;

pub use admin::Admin;
pub use answering::{NumberSource, Pages, Readiness};
pub use page::{AdminPage, Answers, Status, push_answer};
pub use paths::{AdminWanted, wanted_at};
pub use question::{Asked, MOST_HEAD, Method, Question, asked_of};
pub use reception::attend;
