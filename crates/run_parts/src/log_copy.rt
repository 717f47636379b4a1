ghost use Rattle.std.specs.Prelude.{◌≡◌, ◌⊎◌, length};

use log_entries::Entry;
use std::alloc::Global;
use std::mem;
use std::sync::atomic::{AtomicBool, Ordering};
use std::sync::{Mutex, Wait};

/// The copied entries of a proxy's log that nobody has taken yet: the proxy adds them while it
/// serves, and the observer takes them.
#[derive(Drop)]
pub struct LogCopy {
    alloc: Global,
    entries: Mutex<Vec<Entry>>,
    closed: AtomicBool,
    over: AtomicBool,
}

impl LogCopy {
    /// Makes an empty copy.
    pub fn new(alloc: Global) -> LogCopy {
        LogCopy {
            alloc,
            entries: Mutex::new(Vec::new(alloc)),
            closed: AtomicBool::new(false),
            over: AtomicBool::new(false),
        }
    }

    /// Takes the entries that were added since the last call, in order.
    pub fn take<R: Wait>(&self, rt: &R) -> Vec<Entry> {
        let mut entries = self.entries.lock(rt);
        mem::replace(&mut *entries, Vec::new(self.alloc))
    }

    /// Says whether no more entries will come.
    pub fn is_over(&self) -> bool {
        self.over.load(Ordering::SeqCst)
    }

    /// Notes that the proxy decides no more.
    pub fn close(&self) {
        self.closed.store(true, Ordering::SeqCst);
    }

    pub fn is_closed(&self) -> bool {
        self.closed.load(Ordering::SeqCst)
    }

    /// Notes that no more entries will come.
    pub fn end(&self) {
        self.over.store(true, Ordering::SeqCst);
    }

    /// Adds all of these entries, or none where memory is refused; returns how many it added.
    pub fn add<R: Wait>(&self, rt: &R, later: &[Entry]) -> usize
        ensures { (result ≡ length later.now) ⊎ (result ≡ 0) }
    {
        let mut entries = self.entries.lock(rt);
        match entries.extend_from_slice(later) {
            Ok(()) => later.len(),
            Err(_) => 0,
        }
    }
}
