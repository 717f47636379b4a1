ghost use Rattle.std.specs.Prelude.{◌≡◌, ◌≢◌, ◌<◌, ◌↔◌, IsTrue};
ghost use Rattle.std.specs.Bool.{OnTrue, OnFalse};

use std::sync::atomic::{AtomicBool, AtomicU64, Ordering};

/// The number of clients that may come, and of those that were accepted. All threads share it.
#[derive(Drop)]
pub struct Clients {
    taken: AtomicU64,
    /// 0 is without limit.
    most: u64,
    given_up: AtomicBool,
}

impl Clients {
    /// Makes the counter for this number of clients; 0 is without limit.
    pub fn new(most: u64) -> Clients
        ensures { result.most ≡ most }
    {
        Clients {
            taken: AtomicU64::new(0),
            most,
            given_up: AtomicBool::new(false),
        }
    }

    /// Counts one more client, where one more may come. Says whether it did.
    pub fn take(&self) -> bool
        ensures { OnFalse result (self.now.most ≢ 0) }
    {
        self.most == 0 || is_fewer(self.taken.fetch_add(1, Ordering::SeqCst), self.most)
    }

    /// Returns how many clients may come; 0 is without limit.
    pub fn most(&self) -> u64
        ensures { result ≡ self.now.most }
    {
        self.most
    }

    /// Says whether no more clients may come.
    pub fn are_all_taken(&self) -> bool
        ensures { OnTrue result (self.now.most ≢ 0) }
    {
        self.most != 0 && !is_fewer(self.taken.load(Ordering::SeqCst), self.most)
    }

    /// Notes that a thread accepts no more clients, though more may come.
    pub fn give_up(&self) {
        self.given_up.store(true, Ordering::SeqCst);
    }

    /// Says whether a thread has noted that.
    pub fn are_given_up(&self) -> bool {
        self.given_up.load(Ordering::SeqCst)
    }
}

// Says whether fewer clients were taken than may come.
fn is_fewer(taken: u64, most: u64) -> bool
    ensures { IsTrue result ↔ (taken < most) }
{
    taken < most
}
