//! What steers a running proxy: the commands, a line each, with their answers; the control socket;
//! and what is done by the commands.
//!
//! The socket's thread is beside those that serve. It waits for no client: what one sends or takes
//! slowly lies in its own buffers, and one that does nothing for a while is closed.
#![tactic(auto)]

mod asking;
mod binding;
mod client;
mod command;
mod controls;
mod ending;
mod haproxy;
mod helm;
mod inbox;
mod json;
mod obeying;
mod pieces;
mod reception;
mod replies;
mod scanning;
mod state;
mod steered;
mod steering;
mod stopping;
#[cfg(test)]
mod tests;
mod wishes;
mod word;

pub use asking::ask;
pub use binding::{BindFault, bound_at};
pub use command::{Command, Form, command_of};
pub use controls::Controls;
pub use haproxy::{push_servers_state, push_stat};
pub use helm::CommandExecutor;
pub use inbox::{Inbox, MOST_LINE};
pub use json::json_of;
pub use pieces::Misfit;
pub use reception::attend;
pub use scanning::{Scan, Scanned};
pub use state::{ProxyState, ServerState, push_state};
pub use steered::{Standing, Steered};
pub use steering::{Answer, Awaited, Steers, Tended};
pub use wishes::{IntakeWish, Wishes};
pub use word::Word;
