use due_key::Moment;
use late_cert::Reports;
use log_entries::{Intake, Refusal};
use log_texts::Names;
use std::alloc::AllocError;

/// The state of a server in its dispatcher.
#[derive(Clone, Copy, Debug, PartialEq, Eq)]
pub struct Standing {
    /// It is up, by the results of its checks.
    pub up: bool,
    /// The number of requests that it serves.
    pub served: usize,
    /// The number of requests in its own queue.
    pub waiting: usize,
}

/// A running proxy that can be steered.
pub trait Steered {
    /// Returns the servers' names, in file order.
    fn names(&self) -> &Names;

    /// Returns the state of a server.
    fn standing(&self, server: usize) -> Standing;

    /// Returns the number of requests in the backend's queue.
    fn waiting(&self) -> usize;

    /// Returns the most requests that may be served or wait.
    fn places(&self) -> usize;

    /// Returns the number of clients.
    fn clients(&self) -> u64;

    /// Returns the reports of the present window. Fails only where memory is refused.
    fn reports(&self) -> Result<Reports, AllocError>;

    /// Sets how many requests a server takes. Refused as the dispatcher's `limit` is.
    fn limit(&mut self, server: usize, intake: Intake) -> Result<(), Refusal>;

    /// Has its log files opened again. False: it writes none.
    fn reopen(&self) -> bool;

    /// Returns the present moment.
    fn moment(&mut self) -> Moment;

    /// Accepts no more clients.
    fn stop(&mut self);

    /// Says whether no client is there, and no more come.
    fn is_empty(&self) -> bool;

    /// Tells each waiting request that it isn't served, and so each one that comes to wait later.
    fn refuse(&mut self);

    /// Ends the proxy, whoever is there.
    fn close(&mut self);

    fn is_over(&self) -> bool;
}
