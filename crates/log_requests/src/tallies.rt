//! The counts that are kept while a dispatcher's log is read.

use locked_book::DeskName;
use log_entries::{Entry, Queue};
use log_lines::Follower;
use shared_desk::Desk;
use std::alloc::{AllocError, Global};
use std::sync::Wait;

/// The last results of a server's checks, as far as they are equal.
#[derive(Clone, Copy)]
struct ResultStreak {
    ok: bool,
    checks: u32,
}

/// The number of requests that wait in a queue, and the last line on it.
#[derive(Clone, Copy)]
struct QueueLength {
    waiting: usize,
    told: bool,
    /// When that line was written; `None` where there was none.
    since: Option<u64>,
}

/// The number of requests that each server serves and that wait in each queue, and the results of the checks.
#[derive(Drop)]
pub(crate) struct Tallies {
    served: Vec<usize>,
    runs: Vec<ResultStreak>,
    /// The backend's queue, then those of the servers.
    lengths: Vec<QueueLength>,
}

/// The least time between two lines on a queue, in milliseconds.
const SELDOM: u64 = 1000;

impl Tallies {
    /// Makes the counts for this number of servers, of which nothing is known.
    pub(crate) fn new(alloc: Global, servers: usize) -> Result<Tallies, AllocError> {
        let mut served = Vec::new(alloc);
        let mut runs = Vec::new(alloc);
        let mut lengths = Vec::new(alloc);
        lengths.push(QueueLength::new())?;
        for _ in 0..servers {
            served.push(0)?;
            runs.push(ResultStreak {
                ok: true,
                checks: 0,
            })?;
            lengths.push(QueueLength::new())?;
        }
        Ok(Tallies {
            served,
            runs,
            lengths,
        })
    }

    /// Replaces the counts by what a desk says, where entries of its log weren't read. What the
    /// desk does at the same time may be counted twice or not at all.
    pub(crate) fn set_anew<N: DeskName, R: Wait>(&mut self, rt: &R, desk: &Desk<N>) {
        for (server, served) in self.served.as_mut_slice().iter_mut().enumerate() {
            *served = desk.look(rt).book().served(server);
        }
        for (number, length) in self.lengths.as_mut_slice().iter_mut().enumerate() {
            length.waiting = desk.look(rt).book().queued(queue_of(number));
        }
    }

    /// Counts the next entry of the log, together with the follower.
    pub(crate) fn note(&mut self, follower: &Follower, entry: &Entry) {
        match *entry {
            Entry::Direct(_, server) => self.serves(server),
            Entry::Joined(_, queue) => self.joins(queue),
            Entry::Granted(_, queue, server) => {
                self.leaves(queue);
                self.serves(server);
            }
            Entry::Moved(_, server) => {
                self.leaves(Queue::Server(server));
                self.joins(Queue::Backend);
            }
            Entry::Freed(_, server) => self.is_free(server),
            Entry::Left(ticket, _) => self.gives_up(follower, ticket),
            Entry::Check(_, server, ok) => self.note_check(server, ok),
            _ => {}
        }
    }

    /// Returns the number of requests that all servers serve.
    pub(crate) fn served_by_all(&self) -> usize {
        self.served
            .iter()
            .fold(0usize, |sum, served| sum.saturating_add(*served))
    }

    /// Returns the number of requests that this server serves.
    pub(crate) fn served(&self, server: Option<usize>) -> usize {
        match server {
            None => 0,
            Some(server) => self.served.get(server).copied().unwrap_or(0),
        }
    }

    /// Returns how many checks of a server in a row had the result of its last one.
    pub(crate) fn checks(&self, server: usize) -> u32 {
        match self.runs.get(server) {
            None => 0,
            Some(run) => run.checks,
        }
    }

    /// Returns a queue that is empty or not, unlike its last report, and which of both it is.
    pub(crate) fn take_change(&mut self, now: u64) -> Option<(Queue, bool)> {
        let number = self
            .lengths
            .iter()
            .position(|length| length.has_changed(now))?;
        let length = self.lengths.get_mut(number)?;
        let waits = 0 < length.waiting;
        length.told = waits;
        length.since = Some(now);
        Some((queue_of(number), waits))
    }

    fn serves(&mut self, server: usize) {
        if let Some(served) = self.served.get_mut(server) {
            *served = served.saturating_add(1);
        }
    }

    fn is_free(&mut self, server: usize) {
        if let Some(served) = self.served.get_mut(server) {
            *served = served.saturating_sub(1);
        }
    }

    fn joins(&mut self, queue: Queue) {
        if let Some(length) = self.lengths.get_mut(number_of(queue)) {
            length.waiting = length.waiting.saturating_add(1);
        }
    }

    fn leaves(&mut self, queue: Queue) {
        if let Some(length) = self.lengths.get_mut(number_of(queue)) {
            length.waiting = length.waiting.saturating_sub(1);
        }
    }

    fn gives_up(&mut self, follower: &Follower, ticket: u64) {
        if let Some(numbers) = follower.numbers(ticket) {
            if let Some(stay) = numbers.stay {
                self.leaves(stay.queue);
            }
        }
    }

    fn note_check(&mut self, server: usize, ok: bool) {
        if let Some(run) = self.runs.get_mut(server) {
            if run.ok == ok {
                run.checks = run.checks.saturating_add(1);
            } else {
                run.ok = ok;
                run.checks = 1;
            }
        }
    }
}

impl QueueLength {
    fn new() -> QueueLength {
        QueueLength {
            waiting: 0,
            told: false,
            since: None,
        }
    }

    fn has_changed(&self, now: u64) -> bool {
        let is_soon = match self.since {
            None => false,
            Some(since) => now.saturating_sub(since) < SELDOM,
        };
        (0 < self.waiting) != self.told && !is_soon
    }
}

fn queue_of(number: usize) -> Queue {
    match number.checked_sub(1) {
        None => Queue::Backend,
        Some(server) => Queue::Server(server),
    }
}

fn number_of(queue: Queue) -> usize {
    match queue {
        Queue::Backend => 0,
        Queue::Server(server) => server.saturating_add(1),
    }
}
