use super::servers::waits;
use due_key::{Key, Moment};
use log_entries::{Arrival, Entry, Intake, Phase, Queue, Row, ServerSet, Setup};
use std::alloc::Global;
use std::process::Abort;

/// The state that a log leaves: the rows in a list and the results of the checks in lists, without
/// counters, heaps or indexes.
#[derive(Drop)]
pub struct Plain {
    pub setup: Setup,
    pub rows: Vec<Option<Row>>,
    pub results: Vec<Vec<bool>>,
    /// Which servers are up, by their results.
    pub ups: Vec<bool>,
    /// The present limit of each server.
    pub limits: Vec<Intake>,
    pub moment: Moment,
    pub ticket: u64,
    /// The server that balancing picked last.
    pub cursor: usize,
    /// The number of entries in the window.
    pub used: usize,
}

impl Plain {
    pub fn new(rt: &impl Abort, alloc: Global, setup: Setup) -> Plain {
        let servers = setup.servers.len();
        let mut results = Vec::new(alloc);
        let mut limits = Vec::new(alloc);
        for server in setup.servers.as_slice() {
            results.push(Vec::new(alloc)).expect(rt, "memory");
            limits.push(Intake::Open(server.limit)).expect(rt, "memory");
        }
        Plain {
            rows: vacant(rt, alloc, setup.places),
            results,
            ups: vec![in alloc; true; servers].expect(rt, "memory"),
            limits,
            moment: Moment::zero(),
            ticket: 0,
            cursor: servers.saturating_sub(1),
            used: 0,
            setup,
        }
    }

    pub fn row_of(&self, ticket: u64) -> Option<&Row> {
        for place in &self.rows {
            if let Some(row) = place
                && row.key.ticket == ticket
            {
                return Some(row);
            }
        }
        None
    }

    pub fn is_full(&self) -> bool {
        for place in &self.rows {
            if place.is_none() {
                return false;
            }
        }
        true
    }

    /// Returns the number of requests that wait, or that don't.
    pub fn count(&self, those_that_wait: bool) -> u64 {
        let mut count: u64 = 0;
        for place in &self.rows {
            if let Some(row) = place
                && waits(row.phase) == those_that_wait
            {
                count = count.saturating_add(1);
            }
        }
        count
    }

    /// Returns the ticket of one of those that wait, or that don't, with this number of them in
    /// places before its own.
    pub fn nth_ticket(&self, those_that_wait: bool, nth: u64) -> Option<u64> {
        let mut before: u64 = 0;
        for place in &self.rows {
            if let Some(row) = place
                && waits(row.phase) == those_that_wait
            {
                if before == nth {
                    return Some(row.key.ticket);
                }
                before = before.saturating_add(1);
            }
        }
        None
    }

    pub fn pin_of(&self, ticket: u64) -> Option<usize> {
        self.row_of(ticket)?.pin
    }

    /// Applies an entry.
    pub fn take(&mut self, rt: &impl Abort, entry: Entry) {
        self.used = self.used.saturating_add(1);
        match entry {
            Entry::Arrive(moment, arrival) => self.arrive(moment, arrival),
            Entry::Done(moment, _) | Entry::Abort(moment, _) | Entry::Tick(moment) => {
                self.moment = moment;
            }
            Entry::Fail(moment, ticket) => {
                self.moment = moment;
                self.fail(ticket);
            }
            Entry::Check(moment, server, ok) => {
                self.moment = moment;
                self.add_result(rt, server, ok);
            }
            Entry::Limit(moment, server, limit) => {
                self.moment = moment;
                self.set_limit(server, limit);
            }
            Entry::Direct(ticket, server) => {
                self.put_on(ticket, server);
                self.enter(ticket, Phase::Serving(server));
            }
            Entry::Joined(ticket, queue) => {
                if let Queue::Server(server) = queue {
                    self.put_on(ticket, server);
                }
                self.enter(ticket, Phase::Waiting(queue, self.moment));
            }
            Entry::Granted(ticket, _, server) => {
                if self.weight(server) != 0 {
                    self.cursor = server;
                }
                self.enter(ticket, Phase::Serving(server));
            }
            Entry::Moved(ticket, _) => {
                self.unpin(ticket);
                self.enter(ticket, Phase::Waiting(Queue::Backend, self.moment));
            }
            Entry::Freed(ticket, _) => self.enter(ticket, Phase::Loose),
            Entry::Left(ticket, cause) => self.enter(ticket, Phase::Told(cause)),
            Entry::Ended(ticket) => self.set(ticket, None),
            Entry::Retried(_, _, _) | Entry::Health(_, _) => {}
        }
    }

    /// Begins the next window: the present state is its base.
    pub fn roll(&mut self, rt: &impl Abort) {
        self.used = 0;
        for server in 0..self.servers() {
            self.shorten(rt, server);
        }
    }

    // Keeps only the results that decide a server's health: where it is up the failures since the
    // last success, and where it is down as many failures as take it down, and the successes since
    // the last failure.
    fn shorten(&mut self, rt: &impl Abort, server: usize) {
        let up = self.is_up(server);
        let fall = if up { 0 } else { self.fall(server) };
        if let Some(results) = self.results.get_mut(server) {
            let against = last_of(results, !up);
            results.clear();
            for _ in 0..fall {
                results.push(false).expect(rt, "memory");
            }
            for _ in 0..against {
                results.push(!up).expect(rt, "memory");
            }
        }
    }

    // Returns how many failures in a row take a server down; 0 where it isn't checked.
    fn fall(&self, server: usize) -> usize {
        match self.server(server) {
            Some(
                ServerSet {
                    rise_fall: Some((_, fall)),
                    ..
                },
            ) => fall as usize,
            _ => 0,
        }
    }

    /// Returns the weight of a server; 0 where no server has the number.
    pub fn weight(&self, server: usize) -> u32 {
        match self.server(server) {
            Some(it) => it.weight,
            None => 0,
        }
    }

    fn set(&mut self, ticket: u64, row: Option<Row>) {
        for place in 0..self.rows.len() {
            if let Some(Some(found)) = self.rows.get(place)
                && found.key.ticket == ticket
            {
                self.fill(place, row);
                return;
            }
        }
    }

    fn arrive(&mut self, moment: Moment, arrival: Arrival) {
        self.moment = moment;
        self.ticket = arrival.ticket;
        let row = Row {
            key: Key {
                class: arrival.class,
                due: arrival.due,
                ticket: arrival.ticket,
            },
            pin: arrival.pin(),
            failures: 0,
            phase: Phase::Loose,
        };
        self.fill(usize::from(arrival.place), Some(row));
    }

    fn fill(&mut self, place: usize, row: Option<Row>) {
        if let Some(cell) = self.rows.get_mut(place) {
            *cell = row;
        }
    }

    fn set_limit(&mut self, server: usize, limit: Intake) {
        if let Some(cell) = self.limits.get_mut(server) {
            *cell = limit;
        }
    }

    fn add_result(&mut self, rt: &impl Abort, server: usize, ok: bool) {
        if let Some(results) = self.results.get_mut(server) {
            results.push(ok).expect(rt, "memory");
        }
        let up = self.is_up_by_results(server, false);
        if let Some(cell) = self.ups.get_mut(server) {
            *cell = up;
        }
    }

    // Counts one more failure; a redispatched request loses its pin.
    fn fail(&mut self, ticket: u64) {
        if let Some(&row) = self.row_of(ticket) {
            let failures = row.failures.saturating_add(1);
            self.set(ticket, Some(Row { failures, ..row }));
            if self.is_redispatched(failures) {
                self.unpin(ticket);
            }
        }
    }

    /// Says whether the retry after this number of failures is the last one and goes to another server.
    pub fn is_redispatched(&self, failures: u32) -> bool {
        self.setup.redispatch && failures == self.setup.retries
    }

    fn unpin(&mut self, ticket: u64) {
        if let Some(&row) = self.row_of(ticket) {
            self.set(ticket, Some(Row { pin: None, ..row }));
        }
    }

    fn enter(&mut self, ticket: u64, phase: Phase) {
        if let Some(&row) = self.row_of(ticket) {
            self.set(ticket, Some(Row { phase, ..row }));
        }
    }

    // A request that is put on its pinned server doesn't move the cursor of balancing.
    fn put_on(&mut self, ticket: u64, server: usize) {
        if self.pin_of(ticket) != Some(server) {
            self.cursor = server;
        }
    }
}

// Returns how many results at the end are of this kind.
fn last_of(results: &[bool], which: bool) -> usize {
    let mut count: usize = 0;
    for ok in results.iter().rev() {
        if *ok != which {
            break;
        }
        count = count.saturating_add(1);
    }
    count
}

fn vacant<T: Drop>(rt: &impl Abort, alloc: Global, places: usize) -> Vec<Option<T>> {
    let mut rows = Vec::new(alloc);
    for _ in 0..places {
        rows.push(None).expect(rt, "memory");
    }
    rows
}
