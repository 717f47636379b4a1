//! The twelve clients, one after the other, and what is told meanwhile.

use crate::fault::DemoFault;
use crate::watcher::Watcher;
use demo_words::{GAP, Looks, PLAN, VISITS, request_of};
use log_entries::Entry;
use run_service::LogCopy;
use std::alloc::Global;
use std::io::{Read, Write};
use std::net::TcpStream;
use std::sync::Wait;
use std::thread;
use std::time::{Clock, Duration, Instant};

/// The log is read each time this number of milliseconds has passed, and at most this often.
const PAUSE: u64 = 5;

const LOOKS: u64 = 2000;

/// The most milliseconds that the whole demo may take.
const MOST: u64 = 7000;

/// An answer is waited for this number of milliseconds. It is there as soon as its request is over.
const PATIENCE: u64 = 200;

/// The beginning of an answer to a request that was served.
const SERVED: &[u8] = b"HTTP/1.1 200 ";

/// The log, and the number of requests that were answered.
#[derive(Drop)]
pub(crate) struct Seen {
    pub(crate) entries: Vec<Entry>,
    pub(crate) answered: usize,
}

/// What the conductor waits for.
#[derive(Clone, Copy)]
enum Awaited {
    /// This number of requests came.
    Came(usize),
    /// This number of requests are over.
    Ended(usize),
    /// This number of milliseconds have passed.
    Elapsed(u64),
}

/// The conductor of the clients, with what it has seen since the beginning.
#[derive(Drop)]
struct Conductor<'a, R> {
    rt: &'a R,
    watcher: Watcher<'a, R>,
    start: Instant,
    entries: Vec<Entry>,
}

/// Sends the requests one after the other, each once the log has the one before, and tells what
/// comes into the log until all are over. A request that doesn't end is given up in the end.
pub(crate) fn conduct<R: Clock + Print + Wait>(
    rt: &R,
    alloc: Global,
    copy: &LogCopy,
    clients: Vec<TcpStream>,
    looks: Looks,
) -> Result<Seen, DemoFault> {
    let mut clients = clients;
    let start = match Instant::now(rt) {
        Ok(start) => start,
        Err(error) => return Err(DemoFault::Clock(error)),
    };
    let mut conductor = Conductor {
        rt,
        watcher: Watcher::new(rt, alloc, copy, looks)?,
        start,
        entries: Vec::new(alloc),
    };
    for (number, client) in clients.iter_mut().enumerate() {
        conductor.send(alloc, number, client)?;
    }
    conductor.wait_for(Awaited::Ended(VISITS))?;
    let answered = answers_of(&mut clients);
    let Conductor { entries, .. } = conductor;
    Ok(Seen { entries, answered })
}

impl<R: Clock + Print + Wait> Conductor<'_, R> {
    // Sends the request with this number, counted from 0, and waits until it is in the log and it
    // is time for the next one.
    fn send(
        &mut self,
        alloc: Global,
        number: usize,
        client: &mut TcpStream,
    ) -> Result<(), DemoFault> {
        let Some(visit) = PLAN.get(number) else {
            return Ok(());
        };
        let count = number.saturating_add(1);
        let request = request_of(alloc, count, visit)?;
        // Where it can't be written, it doesn't come, and isn't answered.
        let _ = client.write_all(request.as_bytes());
        self.wait_for(Awaited::Came(count))?;
        let until = self.elapsed().saturating_add(GAP);
        self.wait_for(Awaited::Elapsed(until))
    }

    // Tells what comes into the log until the awaited event, until the proxy has ended, or until
    // the demo has taken too long.
    fn wait_for(&mut self, awaited: Awaited) -> Result<(), DemoFault> {
        for _ in 0..LOOKS {
            let is_over = self.watcher.is_over();
            let later = self.watcher.look()?;
            self.entries.extend_from_slice(later.as_slice())?;
            if is_over || self.is_there(awaited) || MOST <= self.elapsed() {
                return Ok(());
            }
            thread::sleep(self.rt, Duration::from_millis(PAUSE));
        }
        Ok(())
    }

    fn is_there(&self, awaited: Awaited) -> bool {
        match awaited {
            Awaited::Came(count) => count
                <= self.entries.iter().filter(|entry| comes(entry)).count(),
            Awaited::Ended(count) => count
                <= self.entries.iter().filter(|entry| ends(entry)).count(),
            Awaited::Elapsed(millis) => millis <= self.elapsed(),
        }
    }

    fn elapsed(&self) -> u64 {
        match self.start.elapsed(self.rt) {
            Ok(passed) => u64::try_from(passed.as_millis()).unwrap_or(MOST),
            Err(_) => MOST,
        }
    }
}

fn comes(entry: &Entry) -> bool {
    matches!(entry, Entry::Arrive(..))
}

fn ends(entry: &Entry) -> bool {
    matches!(entry, Entry::Ended(_))
}

// Returns the number of clients that a server answered.
fn answers_of(clients: &mut [TcpStream]) -> usize {
    let mut answered = 0usize;
    for client in clients.iter_mut() {
        if is_answered(client) {
            answered = answered.saturating_add(1);
        }
    }
    answered
}

fn is_answered(client: &mut TcpStream) -> bool {
    let mut front = [0u8; SERVED.len()];
    let patience = Some(Duration::from_millis(PATIENCE));
    client.set_read_timeout(patience).is_ok()
        && client.read_exact(&mut front).is_ok()
        && &front[..] == SERVED
}
