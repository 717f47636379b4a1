ghost use Rattle.std.specs.Prelude.{◌≡◌, true};

use crate::histogram::{Histogram, LATENESS, WAITS};
use crate::minute::Minute;
use crate::queued::QueueKeys;
use crate::server::ServerNumbers;
use crate::tally::Tally;
use log_entries::Intake;
use std::alloc::{AllocError, Global};
use std::collections::BTreeMap;

/// The sizes of a proxy.
#[derive(Clone, Copy, Debug, PartialEq, Eq)]
pub struct Proportions {
    /// The most requests that are served or wait in its queues.
    pub places: usize,
    /// The most entries of a window of its log.
    pub entries: usize,
}

/// The numbers of a class: how long its requests waited for their slots, and how late they got
/// them, in milliseconds.
#[derive(Drop)]
pub(crate) struct ClassNumbers {
    pub waits: Histogram,
    pub lateness: Histogram,
    pub minute: Minute,
}

/// The number of requests that weren't served, by reason.
#[derive(Clone, Copy, Debug, PartialEq, Eq)]
pub(crate) struct Refused {
    pub aborted: u64,
    pub timeout: u64,
    pub retries: u64,
    pub no_server: u64,
    /// It had no place: it waited for one as long as it may, the proxy stopped, or memory was short.
    pub unplaced: u64,
    /// No head came that the proxy accepts: it was malformed, too long or cut off.
    pub no_head: u64,
}

/// What was left uncounted.
#[derive(Clone, Copy, Debug, PartialEq, Eq)]
pub struct Lost {
    /// Lines of exchanges, and of events.
    pub lines: u64,
    pub events: u64,
    /// Exchanges that are counted nowhere.
    pub exchanges: u64,
    /// Entries of the dispatcher's log for which memory was refused.
    pub entries: u64,
    /// The number of times that a part of the dispatcher's log wasn't read.
    pub gaps: u64,
}

/// The numbers of a proxy.
#[derive(Drop)]
pub struct ProxyNumbers {
    pub(crate) alloc: Global,
    pub(crate) proportions: Proportions,
    /// In file order.
    pub(crate) servers: Vec<ServerNumbers>,
    /// The backend's queue, then those of the servers.
    pub(crate) queues: Vec<QueueKeys>,
    pub(crate) classes: BTreeMap<i64, ClassNumbers>,
    /// The exchanges without a server, by status; -1 for none.
    pub(crate) unserved: Tally,
    pub(crate) refused: Refused,
    pub(crate) lost: Lost,
    /// The number of requests that have a place, and of those that wait outside for one.
    pub(crate) live: u64,
    pub(crate) outside: u64,
    /// The number of entries in the present window, and of windows that ended.
    pub(crate) entries: u64,
    pub(crate) windows: u64,
    /// The number of bytes that were read from clients, and written to them.
    pub(crate) received: u64,
    pub(crate) sent: u64,
    /// No more clients are accepted.
    pub(crate) stopping: bool,
}

impl ProxyNumbers {
    /// Makes the numbers of a proxy that has done nothing, whose servers have these limits.
    pub fn new(
        alloc: Global,
        limits: &[u32],
        proportions: Proportions,
    ) -> Result<ProxyNumbers, AllocError> {
        let mut servers = Vec::with_capacity(alloc, limits.len())?;
        let mut queues = Vec::new(alloc);
        queues.push(QueueKeys::new(alloc))?;
        for limit in limits {
            servers.push(ServerNumbers::new(alloc, Intake::Open(*limit)))?;
            queues.push(QueueKeys::new(alloc))?;
        }
        Ok(ProxyNumbers {
            alloc,
            proportions,
            servers,
            queues,
            classes: BTreeMap::new(alloc),
            unserved: Tally::new(alloc),
            refused: Refused::new(),
            lost: Lost::nothing(),
            live: 0,
            outside: 0,
            entries: 0,
            windows: 0,
            received: 0,
            sent: 0,
            stopping: false,
        })
    }

    /// Says whether some server is up and takes requests.
    pub fn is_served(&self) -> bool {
        self.servers
            .iter()
            .any(|server| server.up && server.intake != Intake::Closed)
    }

    /// Notes that no more clients are accepted.
    pub fn stop(&mut self)
        ensures { self.new ≡ record self.old { stopping = true } }
    {
        self.stopping = true;
    }

    /// Sets the number of requests that wait outside for a place.
    pub fn note_outside(&mut self, requests: u64)
        ensures { self.new ≡ record self.old { outside = requests } }
    {
        self.outside = requests;
    }

    pub fn is_stopping(&self) -> bool
        ensures { result ≡ self.now.stopping }
    {
        self.stopping
    }
}

impl ClassNumbers {
    pub(crate) fn new(alloc: Global) -> Result<ClassNumbers, AllocError> {
        Ok(ClassNumbers {
            waits: Histogram::new(alloc, &WAITS)?,
            lateness: Histogram::new(alloc, &LATENESS)?,
            minute: Minute::new(alloc)?,
        })
    }
}

impl Refused {
    fn new() -> Refused {
        Refused {
            aborted: 0,
            timeout: 0,
            retries: 0,
            no_server: 0,
            unplaced: 0,
            no_head: 0,
        }
    }
}
