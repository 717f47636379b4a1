//! How the numbers of a proxy follow its log.

ghost use Rattle.std.specs.Prelude.{◌≡◌};
ghost use Rattle.log_lines.specs.Counts.{one_more};
ghost use Rattle.log_lines.specs.Refusals.{both_lost, nothing_lost, with_cause};

use crate::account::Account;
use crate::follower::Follower;
use crate::letters::cause_told;
use crate::numbers::{Numbers, SlotNumbers};
use crate::queued::QueueKeys;
use crate::totals::{ClassNumbers, Lost, ProxyNumbers, Refused};
use base_verdict::Cause;
use due_key::Key;
use log_entries::{Entry, Queue};
use std::alloc::AllocError;

impl ProxyNumbers {
    /// Counts the next entry of the log, together with the follower. `O(log n)` in the waiting
    /// requests. An entry for which memory is refused is counted as lost.
    pub fn note(&mut self, follower: &Follower, entry: &Entry)
        ensures entries { self.new.entries ≡ one_more self.old.entries }
    {
        let entries = self.entries.saturating_add(1);
        if self.take_in(follower, entry).is_err() {
            self.lost.entries = self.lost.entries.saturating_add(1);
        }
        self.entries = entries;
    }

    /// Counts the end of a window.
    pub fn roll(&mut self)
        ensures { self.new ≡ record self.old { entries = 0; windows = one_more self.old.windows } }
    {
        self.entries = 0;
        self.windows = self.windows.saturating_add(1);
    }

    /// Counts lost entries, with this number of ends of windows among them. Nothing is known any
    /// more of the requests that wait or are served.
    pub fn skip(&mut self, ends: u64) {
        let alloc = self.alloc;
        self.lost.gaps = self.lost.gaps.saturating_add(1);
        self.windows = self.windows.saturating_add(ends);
        self.live = 0;
        for queue in self.queues.as_mut_slice() {
            queue.forget(alloc);
        }
        for server in self.servers.as_mut_slice() {
            server.served = 0;
        }
    }

    /// Counts an exchange that ended, after all entries of its request.
    pub fn end(&mut self, follower: &Follower, account: &Account) {
        self.received = self.received.saturating_add(account.received);
        self.sent = self.sent.saturating_add(account.sent);
        if account.asked.is_none() {
            self.refused.no_head = self.refused.no_head.saturating_add(1);
        } else if account.ticket.is_none() {
            self.refused.unplaced = self.refused.unplaced.saturating_add(1);
        }
        if is_aborted(follower, account) {
            self.refused = self.refused.with(cause_told(Cause::Aborted, account.ended));
        }
        let status = match account.status {
            None => -1,
            Some(status) => i64::from(status),
        };
        let server = account
            .server
            .and_then(|server| self.servers.get_mut(server));
        let counted = match server {
            None => self.unserved.add(status),
            Some(server) => server.statuses.add(status),
        };
        if counted.is_err() {
            self.lost.exchanges = self.lost.exchanges.saturating_add(1);
        }
    }

    /// Adds what was left uncounted since the last call.
    pub fn lose(&mut self, lost: Lost)
        ensures { self.new ≡ record self.old { lost = both_lost self.old.lost lost } }
    {
        self.lost = self.lost.and(lost);
    }

    fn take_in(&mut self, follower: &Follower, entry: &Entry) -> Result<(), AllocError> {
        match *entry {
            Entry::Arrive(_, _) => self.live = self.live.saturating_add(1),
            Entry::Ended(_) => self.live = self.live.saturating_sub(1),
            Entry::Direct(ticket, server) => self.serve(follower, ticket, server, false)?,
            Entry::Joined(ticket, queue) => self.join(follower, ticket, queue)?,
            Entry::Granted(ticket, queue, server) => {
                self.leave(follower, ticket, queue)?;
                self.serve(follower, ticket, server, true)?;
            }
            Entry::Moved(ticket, server) => {
                self.leave(follower, ticket, Queue::Server(server))?;
                self.join(follower, ticket, Queue::Backend)?;
            }
            Entry::Left(ticket, cause) => self.refuse(follower, ticket, cause)?,
            Entry::Fail(_, ticket) => self.fail(follower, ticket),
            _ => self.take_of_server(entry),
        }
        Ok(())
    }

    // Counts an entry that names only a server.
    fn take_of_server(&mut self, entry: &Entry) {
        match *entry {
            Entry::Freed(_, server) => {
                if let Some(server) = self.servers.get_mut(server) {
                    server.free();
                }
            }
            Entry::Retried(_, server, _) => {
                if let Some(server) = self.servers.get_mut(server) {
                    server.retries = server.retries.saturating_add(1);
                }
            }
            Entry::Health(server, up) => {
                if let Some(server) = self.servers.get_mut(server) {
                    server.up = up;
                }
            }
            Entry::Limit(_, server, intake) => {
                if let Some(server) = self.servers.get_mut(server) {
                    server.intake = intake;
                }
            }
            _ => {}
        }
    }

    // Counts a slot that a request was given.
    fn serve(
        &mut self,
        follower: &Follower,
        ticket: u64,
        server: usize,
        waited: bool,
    ) -> Result<(), AllocError> {
        if let Some(server) = self.servers.get_mut(server) {
            server.serve(waited);
        }
        match follower.numbers(ticket) {
            None => Ok(()),
            Some(numbers) => self.delay(follower, &numbers),
        }
    }

    // Counts how long a request that got a slot waited, and how late it is.
    fn delay(&mut self, follower: &Follower, numbers: &Numbers) -> Result<(), AllocError> {
        let moment = follower.moment();
        let came = numbers.came;
        let waited = moment.get().saturating_sub(came.moment.get()) as i64;
        let lateness = came.arrival.due.lateness(moment);
        let class = came.arrival.class.get();
        if !self.classes.contains_key(&class) {
            let fresh = ClassNumbers::new(self.alloc)?;
            self.classes.insert(class, fresh)?;
        }
        if let Some(told) = self.classes.get_mut(&class) {
            told.waits.add(waited);
            told.lateness.add(lateness);
            told.minute.add(moment.get(), lateness);
        }
        Ok(())
    }

    fn join(&mut self, follower: &Follower, ticket: u64, queue: Queue) -> Result<(), AllocError> {
        match (key_of(follower, ticket), self.queue(queue)) {
            (Some(key), Some(queued)) => queued.join(key),
            _ => Ok(()),
        }
    }

    fn leave(&mut self, follower: &Follower, ticket: u64, queue: Queue) -> Result<(), AllocError> {
        match (key_of(follower, ticket), self.queue(queue)) {
            (Some(key), Some(queued)) => queued.leave(key),
            _ => Ok(()),
        }
    }

    // Counts a request that isn't served. Why one was aborted is known once its exchange has ended.
    fn refuse(&mut self, follower: &Follower, ticket: u64, cause: Cause) -> Result<(), AllocError> {
        if cause != Cause::Aborted {
            self.refused = self.refused.with(cause);
        }
        match queue_of(follower, ticket) {
            None => Ok(()),
            Some(queue) => self.leave(follower, ticket, queue),
        }
    }

    // Counts a failed connection of a request's server.
    fn fail(&mut self, follower: &Follower, ticket: u64) {
        let Some(server) = server_of(follower, ticket) else {
            return;
        };
        if let Some(server) = self.servers.get_mut(server) {
            server.failures = server.failures.saturating_add(1);
        }
    }

    fn queue(&mut self, queue: Queue) -> Option<&mut QueueKeys> {
        let number = match queue {
            Queue::Backend => 0,
            Queue::Server(server) => server.saturating_add(1),
        };
        self.queues.get_mut(number)
    }
}

impl Refused {
    /// Returns the counts with one more request that left for this cause.
    pub(crate) fn with(self, cause: Cause) -> Refused
        ensures { result ≡ with_cause cause self }
    {
        match cause {
            Cause::Aborted => Refused {
                aborted: self.aborted.saturating_add(1),
                ..self
            },
            Cause::Timeout => Refused {
                timeout: self.timeout.saturating_add(1),
                ..self
            },
            Cause::Retries => Refused {
                retries: self.retries.saturating_add(1),
                ..self
            },
            Cause::NoServer => Refused {
                no_server: self.no_server.saturating_add(1),
                ..self
            },
        }
    }
}

impl Lost {
    /// Returns the sum of both.
    pub fn and(self, other: Lost) -> Lost
        ensures { result ≡ both_lost self other }
    {
        Lost {
            lines: self.lines.saturating_add(other.lines),
            events: self.events.saturating_add(other.events),
            exchanges: self.exchanges.saturating_add(other.exchanges),
            entries: self.entries.saturating_add(other.entries),
            gaps: self.gaps.saturating_add(other.gaps),
        }
    }

    /// Returns zero for all.
    pub fn nothing() -> Lost
        ensures { result ≡ nothing_lost }
    {
        Lost {
            lines: 0,
            events: 0,
            exchanges: 0,
            entries: 0,
            gaps: 0,
        }
    }
}

// Says whether the request of an exchange was aborted.
fn is_aborted(follower: &Follower, account: &Account) -> bool {
    match account.ticket.and_then(|ticket| follower.numbers(ticket)) {
        None => false,
        Some(numbers) => numbers.cause == Some(Cause::Aborted),
    }
}

// Returns the queue in which a request waits.
fn queue_of(follower: &Follower, ticket: u64) -> Option<Queue> {
    let numbers = follower.numbers(ticket)?;
    let _slot: Option<SlotNumbers> = numbers.slot;
    let stay = numbers.stay?;
    Some(stay.queue)
}

// Returns the server whose slot a request has.
fn server_of(follower: &Follower, ticket: u64) -> Option<usize> {
    let numbers = follower.numbers(ticket)?;
    let slot: SlotNumbers = numbers.slot?;
    Some(slot.server)
}

// Returns the key with which a request waits.
fn key_of(follower: &Follower, ticket: u64) -> Option<Key> {
    let numbers = follower.numbers(ticket)?;
    Some(numbers.came.arrival.key())
}
