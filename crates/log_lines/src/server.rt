use crate::tally::Tally;
use log_entries::Intake;
use std::alloc::Global;

/// The counters of a server.
#[derive(Drop)]
pub(crate) struct ServerNumbers {
    /// The exchanges that it had last, by the status that their clients were told; -1 for none.
    pub statuses: Tally,
    /// The number of slots that it gave to requests on arrival, and to requests that had waited.
    pub direct: u64,
    pub granted: u64,
    /// The number of its connections that failed, and of requests that kept their slot for another one.
    pub failures: u64,
    pub retries: u64,
    /// The number of requests that it serves.
    pub served: u64,
    /// It is up, by the results of its checks.
    pub up: bool,
    /// Its present limit.
    pub intake: Intake,
}

impl ServerNumbers {
    /// Makes the counters of a server with this limit that has done nothing.
    pub fn new(alloc: Global, intake: Intake) -> ServerNumbers {
        ServerNumbers {
            statuses: Tally::new(alloc),
            direct: 0,
            granted: 0,
            failures: 0,
            retries: 0,
            served: 0,
            up: true,
            intake,
        }
    }

    /// Counts one more request that it serves, which had waited or not.
    pub(crate) fn serve(&mut self, waited: bool) {
        self.served = self.served.saturating_add(1);
        if waited {
            self.granted = self.granted.saturating_add(1);
        } else {
            self.direct = self.direct.saturating_add(1);
        }
    }

    pub(crate) fn free(&mut self) {
        self.served = self.served.saturating_sub(1);
    }
}
