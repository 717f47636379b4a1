//! The vocabulary between the dispatcher and the code that carries out its decisions: what a
//! request is told, and how an exchange with a server ended. The crate allocates nothing and uses
//! no handle.
#![tactic(auto)]

mod cause;

pub use cause::Cause;

/// The dispatcher's decision on a request that waits no more.
#[derive(Clone, Copy, Debug, PartialEq, Eq)]
pub enum Verdict {
    /// The request has a slot of this server. Servers are numbered from 0 in file order.
    Serve(usize),
    /// The request isn't served, for this cause.
    Told(Cause),
}

/// How an exchange with a server ended.
#[derive(Clone, Copy, Debug, PartialEq, Eq)]
pub enum Ending {
    /// The answer was handed on, or the exchange can't be tried again.
    Done,
    /// The connection failed before a byte of the request was sent, so another try is safe.
    Failed,
}
