ghost use Rattle.std.specs.Prelude.{◌≡◌, ◌≢◌, IsTrue, ◌↔◌};
ghost use Rattle.std.specs.Option.{IsSomeAnd};
ghost use Rattle.log_lines.specs.Following as following;

use base_verdict::Cause;
use due_key::{Class, Moment};
use log_entries::Queue;
use log_stretches::Came;

/// A grant of a slot to a request that waited.
#[derive(Clone, Copy, Debug, PartialEq, Eq)]
pub struct GrantNumbers {
    pub queue: Queue,
    pub class: Class,
    pub ticket: u64,
}

/// A stay in a queue.
#[derive(Clone, Copy, Debug, PartialEq, Eq)]
pub struct StayNumbers {
    pub queue: Queue,
    /// The number of the window in which it began.
    pub window: u64,
    /// The number of grants in that window before it began.
    pub since: usize,
}

/// A slot that a request was given.
#[derive(Clone, Copy, Debug, PartialEq, Eq)]
pub struct SlotNumbers {
    pub moment: Moment,
    pub server: usize,
    /// The number of the window in which it was given.
    pub window: u64,
    /// The stay that it ended; `None` where the request didn't wait for it.
    pub stay: Option<StayNumbers>,
    /// The number of slots that requests of the same queue got during the stay, within the window of the slot.
    pub ahead: usize,
    /// The number of those among them that were of the same class and came later.
    pub overtakers: usize,
}

/// The numbers of a request.
#[derive(Clone, Copy, Debug, PartialEq, Eq)]
pub struct Numbers {
    pub came: Came,
    /// The number of its connections that failed.
    pub failures: u32,
    /// The number of slots that it was given: more than one only by redispatch.
    pub slots: u32,
    /// Its present stay, where it waits.
    pub stay: Option<StayNumbers>,
    /// The last slot that it was given.
    pub slot: Option<SlotNumbers>,
    /// Why it wasn't served.
    pub cause: Option<Cause>,
}

impl Numbers {
    /// Returns how long it waited for its last slot since it came, in milliseconds.
    pub fn waited(&self) -> Option<u64>
        ensures { result ≡ following.waited self.now }
    {
        let slot = self.slot?;
        Some(slot.moment.get().saturating_sub(self.came.moment.get()))
    }

    /// Returns how late it got its last slot, in milliseconds; negative where that was before its due date.
    pub fn lateness(&self) -> Option<i64>
        ensures { result ≡ following.slot_lateness self.now }
    {
        let slot = self.slot?;
        Some(self.came.arrival.due.lateness(slot.moment))
    }
}

impl SlotNumbers {
    /// Says whether the stay before it began in an earlier window.
    pub fn is_over_an_end(&self) -> bool
        ensures { IsTrue result ↔ IsSomeAnd self.now.stay (λ stay. stay.window ≢ self.now.window) }
    {
        match self.stay {
            None => false,
            Some(stay) => stay.window != self.window,
        }
    }
}
