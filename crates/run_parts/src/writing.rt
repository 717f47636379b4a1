//! The thread that writes the logs.

ghost use Rattle.std.specs.Prelude.{◌≡◌, ◌↔◌, IsTrue, None};
ghost use Rattle.run_parts.specs.declared.writing.Writing.TheVariants as writings;

use crate::lending::Lends;
use locked_book::DeskName;
use log_requests::{RequestLog, ScribeEnd};
use run_gate::GateShared;
use shared_desk::LogKey;
use std::sync::Wait;
use std::sync::ledger::Ledger;
use std::thread::{JoinHandle, Scope, Threads};
use std::time::Clock;

/// The result of starting a thread beside serving.
pub enum Writing<T> {
    /// It isn't wanted.
    Nothing,
    Runs(JoinHandle<T>),
    /// The thread was refused, or the work is another's already.
    Failed,
}

impl<T> Writing<T> {
    /// Says whether it was wanted and couldn't be started.
    pub fn has_failed(&self) -> bool
        ensures { IsTrue result ↔ (self.now ≡ writings.Failed) }
    {
        matches!(self, Writing::Failed)
    }
}

/// Starts a thread of the scope that writes the logs, where they are wanted, with the key to the
/// desk's log.
pub fn start_writing<
    's,
    E,
    R: Clock + Threads + Wait + Sync,
    N: DeskName + Ledger + Send + Sync + 's,
    S: Lends<N> + Sync + 's,
>(
    scope: &Scope<'s, E>,
    rt: &'s R,
    shared: &'s S,
    front: &'s GateShared<'_>,
    key: LogKey<N>,
) -> Writing<ScribeEnd>
    ensures { result ≡ writings.Nothing → front.now.log ≡ None }
{
    let Some(log) = front.log else {
        return Writing::Nothing;
    };
    let Some(scribe) = log.take_scribe(rt) else {
        return Writing::Failed;
    };
    let site = log_requests::LogSubject {
        names: front.windows.names(),
        address: front.listener.local_addr().ok(),
    };
    let started = scope
        .spawn(move || {
            let desk = (&shared.proxy().desk, &key);
            scribe.write_all(rt, log, desk, site)
        })
        .ok();
    match started {
        Some(handle) => Writing::Runs(handle),
        None => Writing::Failed,
    }
}

/// Ends the thread, after it has written what is left.
pub fn end_writing<R: Threads + Wait>(rt: &R, front: &GateShared<'_>, writing: Writing<ScribeEnd>) {
    if let Some(log) = front.log {
        log.end();
    }
    match writing {
        Writing::Runs(handle) => {
            handle.join(rt);
        }
        Writing::Nothing | Writing::Failed => {}
    }
}

/// Waits for the files for a while. Prints to standard error what isn't written then.
pub fn close_logs<R: Eprint + Wait + Clock>(rt: &R, log: Option<&RequestLog>) {
    let Some(log) = log else {
        return;
    };
    let (access, events) = log.close(rt);
    if access != 0 {
        let _ = eprintln!(rt; "access log: {access} lines not written");
    }
    if events != 0 {
        let _ = eprintln!(rt; "event log: {events} lines not written");
    }
}
