ghost use Rattle.std.specs.Prelude.{◌≡◌, true, IfOk, is_some};
ghost use Rattle.log_requests.specs.Sinks.{AreUnwanted, IsLogOf};

use crate::scribe::Scribe;
use log_lines::{Account, CheckFailure, Format, Lost, ProxyNumbers};
use log_sink::Sink;
use rtrb::{Consumer, Producer, RingBuffer};
use std::alloc::{AllocError, Global};
use std::sync::atomic::{AtomicBool, AtomicU64, Ordering};
use std::sync::{Arc, Mutex, MutexGuard, Wait};
use std::time::{Clock, Instant};

/// The most records that wait in each ring for the writing thread.
const RING: usize = 8192;

/// The target of the lines of exchanges.
#[derive(Drop)]
pub struct Access {
    pub sink: Arc<Sink>,
    pub format: Format,
    /// The lines of windows go there too.
    pub has_windows: bool,
}

/// The logs that are wanted.
#[derive(Drop)]
pub struct Logs {
    pub access: Option<Access>,
    pub events: Option<Arc<Sink>>,
    /// The counters of a fresh proxy, where they are wanted.
    pub numbers: Option<ProxyNumbers>,
}

/// The number of servers and loops, and the origin of moments, with its time in milliseconds since the Unix epoch.
#[derive(Clone, Copy)]
pub struct Extent {
    pub servers: usize,
    pub loops: usize,
    pub start: Instant,
    pub base: i64,
}

/// The logs of a proxy, which its threads share.
#[derive(Drop)]
pub struct RequestLog {
    pub(crate) access: Option<Access>,
    pub(crate) events: Option<Arc<Sink>>,
    numbers: Option<Mutex<ProxyNumbers>>,
    rings: Mutex<Vec<Producer<NumberedRecord>>>,
    /// The number of records so far, with those that found no room.
    told: AtomicU64,
    scribe: Mutex<Option<Scribe>>,
    /// The number of records that found no room.
    lost: AtomicU64,
    /// The numbers of lines of exchanges and of events that were lost and never reported.
    untold: AtomicU64,
    unsaid: AtomicU64,
    /// How each server's last failed check failed, where one did.
    failures: Mutex<Vec<Option<CheckFailure>>>,
    /// The number of requests that wait outside for a place.
    outside: AtomicU64,
    stopping: AtomicBool,
    over: AtomicBool,
}

/// A record of an ended exchange, and the number of records before it, by any loop.
#[derive(Drop)]
pub(crate) struct NumberedRecord {
    pub(crate) number: u64,
    pub(crate) account: Box<Account>,
}

/// The receiving ends of the rings.
pub(crate) type Ends = Vec<Consumer<NumberedRecord>>;

/// The sink for a loop's records.
#[derive(Drop)]
pub struct RecordSink<'a> {
    ring: Producer<NumberedRecord>,
    log: &'a RequestLog,
}

impl RequestLog {
    /// Makes the logs of a proxy. There is a ring for each loop where exchanges are logged or
    /// counted. `None`: nothing is wanted.
    pub fn new(alloc: Global, logs: Logs, extent: Extent) -> Result<Option<RequestLog>, AllocError>
        ensures { IfOk result (IsLogOf logs) }
    {
        if are_unwanted(&logs) {
            return Ok(None);
        }
        let Logs {
            access,
            events,
            numbers,
        } = logs;
        let has_rings = access.is_some() || numbers.is_some();
        let count = if has_rings { extent.loops } else { 0 };
        let (rings, ends) = rings_of(alloc, count)?;
        let scribe = Scribe::new(alloc, ends, extent)?;
        let failures = no_failures(alloc, extent.servers)?;
        Ok(Some(RequestLog {
            access,
            events,
            numbers: shared(numbers),
            rings: Mutex::new(rings),
            told: AtomicU64::new(0),
            scribe: Mutex::new(Some(scribe)),
            lost: AtomicU64::new(0),
            untold: AtomicU64::new(0),
            unsaid: AtomicU64::new(0),
            failures: Mutex::new(failures),
            outside: AtomicU64::new(0),
            stopping: AtomicBool::new(false),
            over: AtomicBool::new(false),
        }))
    }

    /// Takes the state of the writing thread; once.
    pub fn take_scribe<R: Wait>(&self, rt: &R) -> Option<Scribe> {
        self.scribe.lock(rt).take()
    }

    /// Takes the sink for a loop's records. `None` where no lines are wanted, or all are taken.
    pub fn teller<R: Wait>(&self, rt: &R) -> Option<RecordSink<'_>> {
        let popped = self.rings.lock(rt).pop();
        let ring = popped?;
        Some(RecordSink { ring, log: self })
    }

    /// Returns the counters, where they are wanted. The counting thread waits while the guard is held.
    pub fn numbers<R: Wait>(&self, rt: &R) -> Option<MutexGuard<'_, ProxyNumbers>> {
        let numbers = self.numbers.as_ref()?;
        Some(numbers.lock(rt))
    }

    /// Counts what was left out.
    pub(crate) fn lose<R: Wait>(&self, rt: &R, lost: Lost) {
        if let Some(mut numbers) = self.numbers(rt) {
            numbers.lose(lost);
        }
    }

    /// Has the log files opened again. False where no log goes to a file.
    pub fn reopen<R: Wait>(&self, rt: &R) -> bool {
        let access = match &self.access {
            Some(access) => access.sink.reopen(rt),
            None => false,
        };
        let events = match &self.events {
            Some(events) => events.reopen(rt),
            None => false,
        };
        access || events
    }

    /// Notes how a check of a server failed.
    pub fn note_failure<R: Wait>(&self, rt: &R, server: usize, failure: CheckFailure) {
        let mut failures = self.failures.lock(rt);
        if let Some(last) = failures.get_mut(server) {
            *last = Some(failure);
        }
    }

    /// Returns how the last failed check of a server failed.
    pub(crate) fn failure_of<R: Wait>(&self, rt: &R, server: usize) -> Option<CheckFailure> {
        let failures = self.failures.lock(rt);
        failures.get(server).copied().flatten()
    }

    /// Sets the number of requests that wait outside for a place.
    pub fn note_outside(&self, requests: u64) {
        self.outside.store(requests, Ordering::SeqCst);
    }

    pub(crate) fn outside(&self) -> u64 {
        self.outside.load(Ordering::SeqCst)
    }

    /// Notes that no more clients are accepted.
    pub fn note_stop(&self) {
        self.stopping.store(true, Ordering::SeqCst);
    }

    pub(crate) fn is_stopping(&self) -> bool {
        self.stopping.load(Ordering::SeqCst)
    }

    /// Notes that all loops have ended.
    pub fn end(&self) {
        self.over.store(true, Ordering::SeqCst);
    }

    /// Counts lost lines of exchanges and of events that the logs don't report.
    pub(crate) fn note_untold(&self, exchanges: u64, events: u64) {
        self.untold.store(exchanges, Ordering::SeqCst);
        self.unsaid.store(events, Ordering::SeqCst);
    }

    pub(crate) fn is_over(&self) -> bool {
        self.over.load(Ordering::SeqCst)
    }

    /// Returns the number of records so far.
    pub(crate) fn told(&self) -> u64 {
        self.told.load(Ordering::SeqCst)
    }

    /// Returns how many records found no room since the last call.
    pub(crate) fn take_lost(&self) -> u64 {
        self.lost.swap(0, Ordering::SeqCst)
    }

    /// Waits for a while until all lines are written. Returns how many lines of exchanges and of
    /// events weren't written and weren't reported.
    pub fn close<R: Wait + Clock>(&self, rt: &R) -> (u64, u64) {
        let access = match &self.access {
            Some(access) => access.sink.end(rt),
            None => 0,
        };
        let events = match &self.events {
            Some(events) => events.end(rt),
            None => 0,
        };
        let untold = self.untold.load(Ordering::SeqCst);
        let unsaid = self.unsaid.load(Ordering::SeqCst);
        (access.saturating_add(untold), events.saturating_add(unsaid))
    }
}

impl RecordSink<'_> {
    /// Hands on the record of an ended exchange. Where its ring is full it is only counted; no thread waits.
    pub fn account_for(&mut self, account: Box<Account>) {
        let number = self.log.told.fetch_add(1, Ordering::SeqCst);
        if self.ring.push(NumberedRecord { number, account }).is_err() {
            self.log.lost.fetch_add(1, Ordering::SeqCst);
        }
    }
}

// Says whether no log is wanted.
fn are_unwanted(logs: &Logs) -> bool
    ensures none { result ≡ true → AreUnwanted logs.now }
{
    match logs {
        Logs {
            access: None,
            events: None,
            numbers: None,
        } => true,
        _ => false,
    }
}

// Returns a list in which no server's check has failed.
fn no_failures(alloc: Global, servers: usize) -> Result<Vec<Option<CheckFailure>>, AllocError> {
    let mut failures = Vec::with_capacity(alloc, servers)?;
    for _ in 0..servers {
        failures.push(None)?;
    }
    Ok(failures)
}

// Puts the counters behind a lock, where there are some.
fn shared(numbers: Option<ProxyNumbers>) -> Option<Mutex<ProxyNumbers>>
    ensures { is_some result ≡ is_some numbers }
{
    match numbers {
        None => None,
        Some(numbers) => Some(Mutex::new(numbers)),
    }
}

fn rings_of(
    alloc: Global,
    count: usize,
) -> Result<(Vec<Producer<NumberedRecord>>, Ends), AllocError> {
    let mut rings = Vec::new(alloc);
    let mut ends = Vec::new(alloc);
    for _ in 0..count {
        let (ring, end) = RingBuffer::new(alloc, RING)?;
        rings.push(ring)?;
        ends.push(end)?;
    }
    Ok((rings, ends))
}
