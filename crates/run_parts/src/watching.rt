//! The thread that answers at the admin address.

ghost use Rattle.std.specs.Prelude.{◌≡◌, ◌⊎◌, None};
ghost use Rattle.run_parts.specs.declared.writing.Writing.TheVariants as writings;

use crate::descriptors::{count_descriptors, push_descriptors};
use crate::writing::Writing;
use due_key::Moment;
use log_lines::{push_metrics, state_of};
use log_requests::RequestLog;
use run_admin::{Admin, NumberSource, Pages, Readiness, attend};
use run_gate::GateShared;
use std::alloc::AllocError;
use std::sync::Wait;
use std::thread::{Scope, Threads};
use std::time::{Clock, Duration};

/// The numbers of a proxy, as its front has them.
#[derive(Drop)]
struct Looking<'a, R> {
    rt: &'a R,
    front: &'a GateShared<'a>,
    log: &'a RequestLog,
}

impl<'a, R: Clock + Wait> NumberSource for Looking<'a, R> {
    fn now(&self) -> u64 {
        let passed = self.front.start.elapsed(self.rt);
        let passed = passed.unwrap_or(Duration::from_millis(0));
        u64::try_from(passed.as_millis()).unwrap_or(u64::MAX)
    }

    fn health(&self) -> Readiness {
        match self.log.numbers(self.rt) {
            Some(numbers) if numbers.is_stopping() => Readiness::Stops,
            Some(numbers) if numbers.is_served() => Readiness::Serves,
            _ => Readiness::Unserved,
        }
    }

    fn metrics(&self) -> Result<String, AllocError> {
        let mut text = String::new(self.front.alloc);
        if let Some(numbers) = self.log.numbers(self.rt) {
            push_metrics(&mut text, self.front.windows.names(), &numbers)?;
        }
        if let Some(told) = count_descriptors() {
            push_descriptors(&mut text, told)?;
        }
        Ok(text)
    }

    fn state(&self) -> Result<String, AllocError> {
        let moment = Moment::new(self.now()).unwrap_or(Moment::zero());
        match self.log.numbers(self.rt) {
            None => Ok(String::new(self.front.alloc)),
            Some(numbers) => state_of(
                self.front.alloc,
                self.front.windows.names(),
                &numbers,
                moment,
            ),
        }
    }
}

/// Prints the admin address to standard error, where there is one.
pub fn announce_admin<R: Eprint>(rt: &R, front: &GateShared<'_>) {
    if let Some(address) = front.admin.and_then(|admin| admin.address()) {
        let _ = eprintln!(rt; "admin at http://{address}/");
    }
}

/// Starts a thread of the scope that answers, where that is wanted.
pub fn start_watching<'s, E, R: Clock + Threads + Wait + Sync>(
    scope: &Scope<'s, E>,
    rt: &'s R,
    front: &'s GateShared<'_>,
) -> Writing<()>
    ensures { result ≡ writings.Nothing → (front.now.admin ≡ None) ⊎ (front.now.log ≡ None) }
{
    let (Some(admin), Some(log)) = (front.admin, front.log) else {
        return Writing::Nothing;
    };
    let started = scope.spawn(move || answer_all(rt, front, admin, log)).ok();
    match started {
        Some(handle) => Writing::Runs(handle),
        None => Writing::Failed,
    }
}

// Answers all questions. Where there is no memory for it, none are answered, and the proxy serves on.
fn answer_all<R: Clock + Wait>(rt: &R, front: &GateShared<'_>, admin: &Admin, log: &RequestLog) {
    let looking = Looking { rt, front, log };
    let mut pages = Pages::new(front.alloc, looking);
    let _ = attend(rt, admin, &mut pages);
}

/// Ends the answers.
pub fn end_watching<R: Threads + Wait>(rt: &R, front: &GateShared<'_>, watching: Writing<()>) {
    if let Some(admin) = front.admin {
        admin.end();
    }
    match watching {
        Writing::Runs(handle) => handle.join(rt),
        Writing::Nothing | Writing::Failed => {}
    }
}
