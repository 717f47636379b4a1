//! Checks of servers, each a connection that is begun and looked at later.

ghost use Rattle.std.specs.Prelude.{◌≡◌, ◌≢◌, ◌↔◌, IfOk, IfErr, IsSome, is_none};
ghost use Rattle.std.specs.IoError.{error_kind};
ghost use Rattle.std.specs.declared.io.ErrorKind.TheVariants as kinds;
ghost use Rattle.log_lines.specs.declared.events.CheckFailure.TheVariants as failures;
ghost use Rattle.mio.specs.Net.{stream_fd};
ghost use Rattle.run_gate.specs.Polls.{room_event, tells_failure, tells_any};
ghost use Rattle.run_gate.specs.Probes.{EndsBy, HasFailed, is_late};

use crate::leaving::{Told, told_of_begun};
use crate::waits::has_passed;
use due_key::Moment;
use log_requests::CheckFailure;
use mio::net::TcpStream;
use relay_workers::EndedCheck;
use std::io::{self, ErrorKind};
use std::net::{Net, SocketAddr};
use std::os::fd::AsRawFd;

/// A running check.
#[derive(Drop)]
pub(crate) struct Probe {
    stream: TcpStream,
    since: Moment,
    /// The most milliseconds that it may take; `None` is without limit.
    patience: Option<u64>,
}

/// How a check ended. Only this file makes it.
#[derive(Drop)]
pub struct Checked {
    /// `None`: it passed.
    failure: Option<CheckFailure>,
}

impl Checked {
    /// Returns why it failed, where it did.
    pub(crate) fn failure(&self) -> Option<CheckFailure>
        ensures { result ≡ self.now.failure }
    {
        self.failure
    }
}

impl EndedCheck for Checked {
    ghost passed = { λ checked. is_none checked.failure };

    fn has_passed(&self) -> bool {
        self.failure.is_none()
    }
}

impl Probe {
    /// Begins a check at an address, where there is one, without waiting. It may fail at once.
    pub(crate) fn begin<R: Net>(
        rt: &R,
        address: Option<SocketAddr>,
        since: Moment,
        patience: Option<u64>,
    ) -> Result<Probe, Checked>
        ensures begun { IfOk result (λ probe. IsSome address × (probe.since ≡ since) × (probe.patience ≡ patience)) }
        ensures failed { IfErr result (HasFailed address) }
    {
        let Some(address) = address else {
            return Err(failed(CheckFailure::NoAddress));
        };
        match TcpStream::connect(rt, address) {
            Err(error) => Err(failed(failure_of(&error))),
            Ok(stream) => Ok(Probe {
                stream,
                since,
                patience,
            }),
        }
    }

    /// Returns what the system tells of its connection now.
    pub(crate) fn told(&self) -> Told
        ensures { (result.connection ≡ stream_fd self.now.stream) × (result.asked ≡ room_event) }
    {
        told_of_begun(self.stream.as_raw_fd())
    }

    /// Returns how it ended, by what the system tells of its connection; `None` where it isn't over.
    pub(crate) fn ended(&self, told: Told, now: Moment) -> Option<Checked>
        requires { (told.connection ≡ stream_fd self.now.stream) × (told.asked ≡ room_event) }
        ensures { EndsBy (tells_failure told.bits) (tells_any told.bits) (is_late self.now.since self.now.patience now) result }
    {
        if told.is_failure() {
            return Some(failed(self.failure()));
        }
        if told.is_any() {
            return Some(Checked { failure: None });
        }
        if self.is_late(now) {
            return Some(failed(CheckFailure::Late));
        }
        None
    }

    // Says whether its time has passed.
    fn is_late(&self, now: Moment) -> bool
        ensures { result ≡ is_late self.now.since self.now.patience now }
    {
        match self.patience {
            Some(millis) => has_passed(self.since, millis, now),
            None => false,
        }
    }

    // Returns why a connection failed, by the system's error.
    fn failure(&self) -> CheckFailure
        ensures { result ≢ failures.NoAddress }
    {
        match self.stream.take_error() {
            Ok(Some(error)) => failure_of(&error),
            _ => CheckFailure::Failed,
        }
    }
}

fn failed(failure: CheckFailure) -> Checked
    ensures { result ≡ record { failure = Some failure } }
{
    Checked {
        failure: Some(failure),
    }
}

// Returns the failure of a check that met this error.
fn failure_of(error: &io::Error) -> CheckFailure
    ensures refused { (result ≡ failures.Refused) ↔ (error_kind error.now ≡ kinds.ConnectionRefused) }
    ensures late { (result ≡ failures.Late) ↔ (error_kind error.now ≡ kinds.TimedOut) }
    ensures known { result ≢ failures.NoAddress }
{
    match error.kind() {
        ErrorKind::ConnectionRefused => CheckFailure::Refused,
        ErrorKind::TimedOut => CheckFailure::Late,
        _ => CheckFailure::Failed,
    }
}
