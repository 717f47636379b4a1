use super::state::Plain;
use log_entries::{Intake, Phase, Queue, ServerSet};

impl Plain {
    pub fn servers(&self) -> usize {
        self.setup.servers.len()
    }

    pub fn server(&self, server: usize) -> Option<ServerSet> {
        self.setup.servers.as_slice().get(server).copied()
    }

    /// Returns a server's present limit.
    pub fn limit(&self, server: usize) -> Option<Intake> {
        self.limits.get(server).copied()
    }

    pub fn served(&self, server: usize) -> usize {
        let mut count: usize = 0;
        for place in &self.rows {
            if let Some(row) = place
                && row.phase == Phase::Serving(server)
            {
                count = count.saturating_add(1);
            }
        }
        count
    }

    pub fn queued(&self, queue: Queue) -> usize {
        let mut count: usize = 0;
        for place in &self.rows {
            if let Some(row) = place
                && waits_in(row.phase, queue)
            {
                count = count.saturating_add(1);
            }
        }
        count
    }

    /// Returns the number of requests that a server serves and that wait in its own queue.
    pub fn load(&self, server: usize) -> usize {
        self.served(server)
            .saturating_add(self.queued(Queue::Server(server)))
    }

    /// Says whether a server is up, by all results of its checks or by those before the last one.
    pub fn is_up_by_results(&self, server: usize, but_the_last: bool) -> bool {
        match (self.server(server), self.results.get(server)) {
            (Some(it), Some(results)) => {
                let count = results.len().saturating_sub(usize::from(but_the_last));
                is_up_by(it.rise_fall, results.get(..count).unwrap_or(&[]))
            }
            _ => false,
        }
    }

    pub fn is_up(&self, server: usize) -> bool {
        self.ups.get(server) == Some(&true)
    }

    pub fn is_usable(&self, server: usize) -> bool {
        self.weight(server) > 0 && self.is_up(server)
    }

    pub fn is_free(&self, server: usize) -> bool {
        match self.limit(server) {
            Some(Intake::Open(limit)) => limit == 0 || self.served(server) < limit as usize,
            Some(Intake::Closed) | None => false,
        }
    }

    /// Says whether balancing may put a request on the server.
    pub fn has_room(&self, server: usize) -> bool {
        let Some(it) = self.server(server) else {
            return false;
        };
        let Some(Intake::Open(limit)) = self.limit(server) else {
            return false;
        };
        let limit = limit as usize;
        let most = limit.saturating_add(it.maxqueue as usize);
        (limit == 0 || self.load(server) < most) && self.is_usable(server)
    }

    /// Says whether a server takes a request that is pinned to it.
    fn takes_pinned(&self, server: usize) -> bool {
        let Some(it) = self.server(server) else {
            return false;
        };
        let most = it.maxqueue as usize;
        let has_space = most == 0 || self.queued(Queue::Server(server)) < most;
        let is_open = self.limit(server) != Some(Intake::Closed);
        self.is_up(server) && is_open && (self.is_free(server) || has_space)
    }

    pub fn working_pin(&self, pin: Option<usize>) -> Option<usize> {
        match pin {
            Some(server) if self.takes_pinned(server) => pin,
            _ => None,
        }
    }

    /// Says whether a slot of a server may go to a request in this phase.
    pub fn may_go_to(&self, server: usize, phase: Phase) -> bool {
        match phase {
            Phase::Waiting(Queue::Backend, _) => self.is_usable(server),
            Phase::Waiting(Queue::Server(own), _) => own == server && self.is_up(server),
            Phase::Loose | Phase::Serving(_) | Phase::Told(_) => false,
        }
    }
}

pub fn waits(phase: Phase) -> bool {
    matches!(phase, Phase::Waiting(_, _))
}

pub fn waits_in(phase: Phase, queue: Queue) -> bool {
    match phase {
        Phase::Waiting(own, _) => own == queue,
        Phase::Loose | Phase::Serving(_) | Phase::Told(_) => false,
    }
}

// A server that isn't checked is up, and one that is checked is up by its results, the oldest first.
fn is_up_by(rise_fall: Option<(u32, u32)>, results: &[bool]) -> bool {
    match rise_fall {
        None => true,
        Some((rise, fall)) => !is_down(rise as usize, fall as usize, results),
    }
}

// Says whether `fall` failures stand in a row with no `rise` successes in a row after them.
fn is_down(rise: usize, fall: usize, results: &[bool]) -> bool {
    for at in 0..results.len() {
        let rest = &results[at..];
        if begins_with(fall, false, rest) && !has_run(rise, true, rest) {
            return true;
        }
    }
    false
}

fn has_run(count: usize, which: bool, results: &[bool]) -> bool {
    for at in 0..results.len() {
        if begins_with(count, which, &results[at..]) {
            return true;
        }
    }
    false
}

fn begins_with(count: usize, which: bool, results: &[bool]) -> bool {
    let Some(front) = results.get(..count) else {
        return false;
    };
    for one in front {
        if *one != which {
            return false;
        }
    }
    true
}
