ghost use Rattle.std.specs.Prelude.{◌≡◌};

use crate::log::{Access, Ends, Extent, RequestLog};
use crate::tallies::Tallies;
use locked_book::DeskName;
use log_entries::Entry;
use log_lines::{
    Account, Dates, Follower, Line, Load, Lost, Numbers, ProxyEvent, push_event, push_line,
    push_lost,
};
use log_reading::Batch;
use log_texts::Names;
use shared_desk::{Desk, LogKey};
use std::alloc::{AllocError, Global};
use std::collections::VecDeque;
use std::net::SocketAddr;
use std::sync::Wait;
use std::thread;
use std::time::{Clock, Duration, Instant, SystemTime, UNIX_EPOCH};

/// The dispatcher's log is read each time this number of milliseconds has passed.
const PAUSE: u64 = 10;

/// Lines are handed over in blocks of this number of bytes.
const BLOCK: usize = 1 << 15;

/// The most entries that wait to be read.
const TAIL: usize = 1 << 17;

/// The most records of exchanges that the thread holds at a time.
const MOST: usize = 16_384;

/// The most requests that the follower knows: where more records than that are lost, their numbers are forgotten.
const MOST_KNOWN: usize = 1 << 17;

/// The state of the thread that writes the logs.
#[derive(Drop)]
pub struct Scribe {
    alloc: Global,
    ends: Ends,
    accounts: VecDeque<Box<Account>>,
    batch: Batch,
    follower: Follower,
    tallies: Tallies,
    dates: Dates,
    start: Instant,
    text: String,
    /// The number of lines of exchanges that were left out and not reported yet.
    lost: u64,
    /// The same for lines of events.
    unsaid: u64,
    stopping: bool,
}

/// What a scribe leaves that has ended. Only a scribe makes it.
#[derive(Drop)]
pub struct ScribeEnd {
    lost: u64,
    unsaid: u64,
}

/// Returns the wall clock at moment 0, in milliseconds since the Unix epoch; 0 where no clock can be read.
pub fn base_of<R: Clock>(rt: &R, start: Instant) -> i64 {
    let passed = start.elapsed(rt).unwrap_or(Duration::from_millis(0));
    let Ok(now) = SystemTime::now(rt) else {
        return 0;
    };
    let Ok(since) = now.duration_since(UNIX_EPOCH) else {
        return 0;
    };
    i64::try_from(since.saturating_sub(passed).as_millis()).unwrap_or(i64::MAX)
}

/// The proxy that the logs are about.
#[derive(Clone, Copy)]
pub struct LogSubject<'a> {
    /// The names of its servers.
    pub names: &'a Names,
    /// The address where clients connect.
    pub address: Option<SocketAddr>,
}

impl Scribe {
    /// Makes the state of the writing thread, with the ends of the rings, for servers that have served nothing.
    pub(crate) fn new(alloc: Global, ends: Ends, extent: Extent) -> Result<Scribe, AllocError> {
        Ok(Scribe {
            alloc,
            ends,
            accounts: VecDeque::with_capacity(alloc, MOST)?,
            batch: Batch::with_room(alloc, TAIL)?,
            follower: Follower::new(alloc),
            tallies: Tallies::new(alloc, extent.servers)?,
            dates: Dates::new(alloc, extent.base),
            start: extent.start,
            text: String::new(alloc),
            lost: 0,
            unsaid: 0,
            stopping: false,
        })
    }

    /// Writes the lines of a desk's log, which the key opens, until all loops have ended and all is
    /// written.
    pub fn write_all<N: DeskName, R: Clock + Wait>(
        self,
        rt: &R,
        log: &RequestLog,
        desk: (&Desk<N>, &LogKey<N>),
        site: LogSubject<'_>,
    ) -> ScribeEnd {
        let LogSubject { names, address } = site;
        let mut scribe = self;
        match desk.0.follow(rt, scribe.alloc, TAIL) {
            Ok(begun) => begun.forget(desk.1),
            Err(_) => return scribe.end(),
        }
        scribe.say(rt, log, names, ProxyEvent::Started);
        if let Some(address) = address {
            scribe.say(rt, log, names, ProxyEvent::Listening(address));
        }
        for _ in rt.forever() {
            let is_last = log.is_over();
            for _ in rt.forever() {
                if !scribe.go_on(rt, log, desk, names) {
                    break;
                }
            }
            if is_last {
                break;
            }
            thread::sleep(rt, Duration::from_millis(PAUSE));
        }
        scribe.say(rt, log, names, ProxyEvent::Stopped);
        log.note_untold(scribe.lost, scribe.unsaid);
        scribe.end()
    }

    fn end(self) -> ScribeEnd
        ensures { (result.lost ≡ self.lost) × (result.unsaid ≡ self.unsaid) }
    {
        ScribeEnd {
            lost: self.lost,
            unsaid: self.unsaid,
        }
    }

    // Writes what has happened since the last call. Returns true where there may be more already.
    fn go_on<N: DeskName, R: Clock + Wait>(
        &mut self,
        rt: &R,
        log: &RequestLog,
        desk: (&Desk<N>, &LogKey<N>),
        names: &Names,
    ) -> bool {
        // The loops go on meanwhile: what they hand on from here is taken the next time, so that no
        // line stands before an earlier one.
        let has_more = self.gather(log.told());
        // The log has the entries of each exchange whose record was taken.
        desk.0.read_new(rt, &mut self.batch).forget(desk.1);
        self.take_in(rt, log, desk.0, names);
        self.count_ends(rt, log);
        self.write_lines(rt, log, names);
        self.tell_changes(rt, log, names);
        has_more
    }

    // Takes the records of ended exchanges, in the order in which the loops handed them on, up to
    // the given number. Returns true where there are more.
    fn gather(&mut self, until: u64) -> bool {
        for _ in self.accounts.len()..MOST {
            let Some(ring) = self.next_ring(until) else {
                return false;
            };
            let Some(end) = self.ends.get_mut(ring) else {
                return false;
            };
            if let Ok(told) = end.pop() {
                let _ = self.accounts.push_back(told.account);
            }
        }
        true
    }

    // Returns the ring with the earliest record, below the given number.
    fn next_ring(&mut self, until: u64) -> Option<usize> {
        let mut least = until;
        let mut found = None;
        for (ring, end) in self.ends.iter_mut().enumerate() {
            if let Ok(told) = end.peek() {
                if told.number < least {
                    least = told.number;
                    found = Some(ring);
                }
            }
        }
        found
    }

    // Takes the new entries of the dispatcher's log.
    fn take_in<N: DeskName, R: Clock + Wait>(
        &mut self,
        rt: &R,
        log: &RequestLog,
        desk: &Desk<N>,
        names: &Names,
    ) {
        let end = self.batch.end;
        for number in 0..self.batch.entries.len() {
            if end == Some(number) {
                self.begin_next_window(rt, log, names);
            }
            if let Some(entry) = self.batch.entries.get(number).copied() {
                self.take_entry(rt, log, names, &entry);
            }
        }
        if end == Some(self.batch.entries.len()) {
            self.begin_next_window(rt, log, names);
        }
        if let Some(ends) = self.batch.lost {
            self.forget(rt, log, ends);
            for _ in 0..ends {
                self.follower.roll();
            }
            self.tallies.set_anew(rt, desk);
            self.say(rt, log, names, ProxyEvent::Gap);
        }
    }

    // Forgets all earlier requests, after this number of windows that ended unread.
    fn forget<R: Wait>(&mut self, rt: &R, log: &RequestLog, ends: u64) {
        self.follower.forget();
        if let Some(mut numbers) = log.numbers(rt) {
            numbers.skip(ends);
        }
    }

    fn begin_next_window<R: Clock + Wait>(&mut self, rt: &R, log: &RequestLog, names: &Names) {
        let number = self.follower.window();
        self.follower.roll();
        if let Some(mut numbers) = log.numbers(rt) {
            numbers.roll();
        }
        self.say(rt, log, names, ProxyEvent::Window(number));
    }

    fn take_entry<R: Clock + Wait>(
        &mut self,
        rt: &R,
        log: &RequestLog,
        names: &Names,
        entry: &Entry,
    ) {
        self.tallies.note(&self.follower, entry);
        if let Some(mut numbers) = log.numbers(rt) {
            numbers.note(&self.follower, entry);
        }
        if self.follower.follow(*entry).is_err() {
            self.forget(rt, log, 0);
        }
        if MOST_KNOWN < self.follower.len() {
            self.follower.forget_first();
        }
        match *entry {
            Entry::Health(server, up) => {
                let checks = self.tallies.checks(server);
                let failure = log.failure_of(rt, server);
                let event = ProxyEvent::Health {
                    server,
                    up,
                    checks,
                    failure,
                };
                self.say(rt, log, names, event);
            }
            Entry::Limit(_, server, intake) => {
                self.say(rt, log, names, ProxyEvent::Limit { server, intake });
            }
            _ => {}
        }
    }

    // Writes the queues that fill or become empty, and the beginning of the end.
    fn tell_changes<R: Clock + Wait>(&mut self, rt: &R, log: &RequestLog, names: &Names) {
        if log.events.is_none() {
            return;
        }
        let now = self.now(rt);
        if let Some((queue, waits)) = self.tallies.take_change(now) {
            let event = if waits {
                ProxyEvent::Fills(queue)
            } else {
                ProxyEvent::Empties(queue)
            };
            self.say(rt, log, names, event);
        }
        if !self.stopping && log.is_stopping() {
            self.stopping = true;
            self.say(rt, log, names, ProxyEvent::Stopping);
        }
    }

    // Counts the exchanges that ended.
    fn count_ends<R: Wait>(&mut self, rt: &R, log: &RequestLog) {
        let Some(mut numbers) = log.numbers(rt) else {
            return;
        };
        if log.is_stopping() {
            numbers.stop();
        }
        numbers.note_outside(log.outside());
        for account in self.accounts.iter() {
            numbers.end(&self.follower, account);
        }
    }

    fn write_lines<R: Clock + Wait>(&mut self, rt: &R, log: &RequestLog, names: &Names) {
        let before = self.lost;
        let untold = log.take_lost();
        match &log.access {
            None => self.drop_records(rt),
            Some(access) => {
                let unwritten = access.sink.take_lost(rt);
                self.lost = self.lost.saturating_add(unwritten).saturating_add(untold);
                self.write_to(rt, access, names);
            }
        }
        log.lose(
            rt,
            Lost {
                lines: self.lost.saturating_sub(before),
                exchanges: untold,
                ..Lost::nothing()
            },
        );
        if let Some(access) = &log.access {
            self.write_lost(rt, access);
        }
    }

    // Drops the records, where no lines of exchanges are wanted.
    fn drop_records<R: Wait>(&mut self, rt: &R) {
        for _ in rt.forever() {
            let Some(account) = self.accounts.pop_front() else {
                break;
            };
            if let Some(ticket) = account.ticket {
                let _ = self.follower.take(ticket);
            }
        }
    }

    fn write_to<R: Clock + Wait>(&mut self, rt: &R, access: &Access, names: &Names) {
        let mut lines = 0;
        self.text.clear();
        for _ in rt.forever() {
            let Some(account) = self.accounts.pop_front() else {
                break;
            };
            lines = self.add_line(rt, access, names, &account, lines);
        }
        self.hand_over(rt, access, lines);
    }

    // Hands over the text of `lines` lines.
    fn hand_over<R: Wait>(&mut self, rt: &R, access: &Access, lines: u64) {
        if lines != 0 && !access.sink.add(rt, self.text.as_str(), lines) {
            self.lost = self.lost.saturating_add(lines);
        }
        self.text.clear();
    }

    // Appends a line after `lines` others, and returns how many there are then.
    fn add_line<R: Wait>(
        &mut self,
        rt: &R,
        access: &Access,
        names: &Names,
        account: &Account,
        lines: u64,
    ) -> u64 {
        let numbers = match account.ticket {
            None => None,
            Some(ticket) => self.follower.take(ticket),
        };
        let load = Load {
            all: self.tallies.served_by_all(),
            own: self.tallies.served(account.server),
        };
        let told = numbers.as_ref();
        let line = line_of(account, told, names, load);
        let made = push_line(
            self.alloc,
            &mut self.text,
            &mut self.dates,
            access.format,
            &line,
        );
        if made.is_err() {
            // A part of it may stand there.
            self.text.clear();
            self.lost = self.lost.saturating_add(lines).saturating_add(1);
            return 0;
        }
        if self.text.len() < BLOCK {
            return lines.saturating_add(1);
        }
        self.hand_over(rt, access, lines.saturating_add(1));
        0
    }

    // Writes how many lines were left out, once others can be written again.
    fn write_lost<R: Clock + Wait>(&mut self, rt: &R, access: &Access) {
        if self.lost == 0 || access.sink.is_failing(rt) {
            return;
        }
        let now = self.now(rt);
        self.text.clear();
        let made = push_lost(
            &mut self.text,
            &mut self.dates,
            access.format,
            now,
            self.lost,
        );
        if made.is_ok() && access.sink.add_tally(rt, self.text.as_str(), self.lost) {
            self.lost = 0;
        }
    }

    fn say<R: Clock + Wait>(&mut self, rt: &R, log: &RequestLog, names: &Names, event: ProxyEvent) {
        let Some(sink) = &log.events else {
            return;
        };
        let mut missed = sink.take_lost(rt);
        self.unsaid = self.unsaid.saturating_add(missed);
        if self.unsaid != 0
            && !sink.is_failing(rt)
            && self.makes(rt, names, ProxyEvent::Lost(self.unsaid))
        {
            if sink.add_tally(rt, self.text.as_str(), self.unsaid) {
                self.unsaid = 0;
            }
        }
        if !self.makes(rt, names, event) || !sink.add(rt, self.text.as_str(), 1) {
            self.unsaid = self.unsaid.saturating_add(1);
            missed = missed.saturating_add(1);
        }
        log.lose(
            rt,
            Lost {
                events: missed,
                ..Lost::nothing()
            },
        );
    }

    // Makes the line of an event. False where there is no memory for it.
    fn makes<R: Clock>(&mut self, rt: &R, names: &Names, event: ProxyEvent) -> bool {
        let now = self.now(rt);
        self.text.clear();
        push_event(&mut self.text, &mut self.dates, names, now, event).is_ok()
    }

    fn now<R: Clock>(&self, rt: &R) -> u64 {
        let passed = self.start.elapsed(rt).unwrap_or(Duration::from_millis(0));
        u64::try_from(passed.as_millis()).unwrap_or(u64::MAX)
    }
}

fn line_of<'x>(
    account: &'x Account,
    numbers: Option<&'x Numbers>,
    names: &'x Names,
    load: Load,
) -> Line<'x> {
    Line {
        account,
        numbers,
        names,
        load,
    }
}

#[cfg(test)]
mod order;
