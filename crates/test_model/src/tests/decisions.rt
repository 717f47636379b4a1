use super::servers::waits_in;
use super::state::Plain;
use base_verdict::Cause;
use due_key::Moment;
use log_entries::{Entry, Phase, Queue, Row};

/// The servers that balancing chooses from.
#[derive(Clone, Copy)]
enum Among {
    /// Those that a request may be put on that avoids this one.
    Candidates(Option<usize>),
    /// Those that are free while a request waits that may take their slot.
    Takers,
}

impl Plain {
    /// Returns the placement of a request without a phase that avoids a server where it can.
    pub fn placement(&self, ticket: u64, pin: Option<usize>, avoid: Option<usize>) -> Entry {
        let chosen = match self.working_pin(pin) {
            Some(server) => Some(server),
            None => self.pick(Among::Candidates(avoid)),
        };
        match chosen {
            Some(server) if self.is_free(server) => Entry::Direct(ticket, server),
            Some(server) => Entry::Joined(ticket, Queue::Server(server)),
            None if self.has_usable() => Entry::Joined(ticket, Queue::Backend),
            None => Entry::Left(ticket, Cause::NoServer),
        }
    }

    /// Returns the next grant, if one is lawful: the server that takes next takes the least key that it may.
    pub fn grant(&self) -> Option<Entry> {
        let server = match self.first_weightless_taker() {
            Some(server) => server,
            None => self.pick(Among::Takers)?,
        };
        let row = self.first_for(server)?;
        match row.phase {
            Phase::Waiting(queue, _) => Some(Entry::Granted(row.key.ticket, queue, server)),
            Phase::Loose | Phase::Serving(_) | Phase::Told(_) => None,
        }
    }

    /// Returns the request with the least key in a queue.
    pub fn first_in(&self, queue: Queue) -> Option<&Row> {
        let mut first = None;
        for place in &self.rows {
            if let Some(row) = place
                && waits_in(row.phase, queue)
            {
                first = Some(lesser(first, row));
            }
        }
        first
    }

    /// Returns the expired request with the lowest ticket.
    pub fn first_expired(&self) -> Option<u64> {
        let mut first: Option<u64> = None;
        for place in &self.rows {
            if let Some(row) = place
                && self.has_expired(self.moment, row.phase)
            {
                let ticket = row.key.ticket;
                first = Some(first.unwrap_or(ticket).min(ticket));
            }
        }
        first
    }

    /// Says whether a tick at this moment would tell a timeout.
    pub fn some_expire(&self, moment: Moment) -> bool {
        let now = self.effective(moment);
        for place in &self.rows {
            if let Some(row) = place
                && self.has_expired(now, row.phase)
            {
                return true;
            }
        }
        false
    }

    fn has_expired(&self, now: Moment, phase: Phase) -> bool {
        let timeout = self.setup.queue_timeout;
        match phase {
            Phase::Waiting(_, since) => {
                timeout > 0 && since.get().saturating_add(timeout) <= now.get()
            }
            Phase::Loose | Phase::Serving(_) | Phase::Told(_) => false,
        }
    }

    fn has_usable(&self) -> bool {
        for server in 0..self.servers() {
            if self.is_usable(server) {
                return true;
            }
        }
        false
    }

    // Returns the request with the least key among those that may take a slot of the server.
    fn first_for(&self, server: usize) -> Option<&Row> {
        let mut first = None;
        for place in &self.rows {
            if let Some(row) = place
                && self.may_go_to(server, row.phase)
            {
                first = Some(lesser(first, row));
            }
        }
        first
    }

    fn can_take(&self, server: usize) -> bool {
        self.is_free(server) && self.first_for(server).is_some()
    }

    fn first_weightless_taker(&self) -> Option<usize> {
        for server in 0..self.servers() {
            if self.weight(server) == 0 && self.can_take(server) {
                return Some(server);
            }
        }
        None
    }

    // Says whether a server has room; the one to avoid counts only where no other has room.
    fn is_candidate(&self, server: usize, avoid: Option<usize>) -> bool {
        self.has_room(server) && (avoid != Some(server) || !self.another_has_room(server))
    }

    fn another_has_room(&self, server: usize) -> bool {
        for other in 0..self.servers() {
            if other != server && self.has_room(other) {
                return true;
            }
        }
        false
    }

    fn is_among(&self, among: Among, server: usize) -> bool {
        match among {
            Among::Candidates(avoid) => self.is_candidate(server, avoid),
            Among::Takers => self.can_take(server),
        }
    }

    // Returns, among those with the least load for their weight, the first one after the cursor,
    // where the first server follows the last.
    fn pick(&self, among: Among) -> Option<usize> {
        let servers = self.servers();
        let next = self.cursor.saturating_add(1).min(servers);
        let mut best = None;
        for server in (next..servers).chain(0..next) {
            if self.is_among(among, server) && self.is_better(server, best) {
                best = Some(server);
            }
        }
        best
    }

    // Says whether the server has less load than the best one so far, or is the first.
    fn is_better(&self, server: usize, best: Option<usize>) -> bool {
        match best {
            Some(other) => self.share(server, other) < self.share(other, server),
            None => true,
        }
    }

    fn share(&self, one: usize, two: usize) -> usize {
        self.load(one).saturating_mul(self.weight(two) as usize)
    }
}

// Returns the one with the lesser key.
fn lesser<'a>(first: Option<&'a Row>, row: &'a Row) -> &'a Row {
    match first {
        Some(other) if other.key <= row.key => other,
        _ => row,
    }
}
