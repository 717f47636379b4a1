//! The thread of the listener.

use crate::admin::Admin;
use crate::client::{CALM, CROWDED, Client, Fate};
use crate::page::Answers;
use mio::unix::SourceFd;
use mio::{Events, Interest, Poll, Token};
use std::alloc::AllocError;
use std::io::ErrorKind;
use std::net::TcpStream;
use std::os::fd::AsRawFd;
use std::sync::Wait;
use std::time::{Clock, Duration, Instant};

/// The most clients at once; others wait until one leaves.
const MOST_CLIENTS: usize = 16;

pub(crate) const LISTENER: usize = MOST_CLIENTS;

pub(crate) const WAKER: usize = MOST_CLIENTS + 1;

const EVENTS: usize = 32;

const BUFFER: usize = 4096;

/// The longest wait of the thread while it has clients, in milliseconds.
const SELDOM: u64 = 100;

// The state of the listener's thread.
#[derive(Drop)]
struct Reception<'a, R> {
    rt: &'a R,
    admin: &'a Admin,
    clients: Vec<Option<Client>>,
    buffer: Vec<u8>,
    start: Instant,
    /// Some client has more to do at once.
    more: bool,
}

/// Answers all clients until the listener ends. Fails where the system refuses memory or the poll.
pub fn attend<R: Clock + Wait, A: Answers>(
    rt: &R,
    admin: &Admin,
    answers: &mut A,
) -> Result<(), AllocError> {
    let alloc = admin.alloc;
    let Some(poll) = admin.take_poll(rt) else {
        return Err(AllocError);
    };
    let Ok(start) = Instant::now(rt) else {
        return Err(AllocError);
    };
    let mut clients = Vec::with_capacity(alloc, MOST_CLIENTS)?;
    for _ in 0..MOST_CLIENTS {
        clients.push(None)?;
    }
    let events = Events::with_capacity(alloc, EVENTS)?;
    let mut reception = Reception {
        rt,
        admin,
        clients,
        buffer: vec![in alloc; 0u8; BUFFER]?,
        start,
        more: false,
    };
    reception.go_round(poll, events, answers);
    Ok(())
}

impl<'a, R: Clock + Wait> Reception<'a, R> {
    fn go_round<A: Answers>(&mut self, poll: Poll, events: Events, answers: &mut A) {
        let mut poll = poll;
        let mut events = events;
        for _ in self.rt.forever() {
            if self.admin.is_over() {
                return;
            }
            // Every client is tried, whichever the poll reports: they are few.
            let _ = poll.poll(&mut events, self.patience());
            self.accept(&poll);
            self.attend_to_all(answers);
        }
    }

    // Returns how long the next wait lasts at most; `None` is without limit.
    fn patience(&self) -> Option<Duration> {
        if self.more {
            Some(Duration::from_millis(0))
        } else if self.clients.iter().any(|client| client.is_some()) {
            Some(Duration::from_millis(SELDOM))
        } else {
            None
        }
    }

    // Accepts the clients that wait at the listener, as long as there is room.
    fn accept(&mut self, poll: &Poll) {
        let admin = self.admin;
        for number in 0..MOST_CLIENTS {
            if !matches!(self.clients.get(number), Some(None)) {
                continue;
            }
            match admin.listener.accept() {
                Ok((stream, _)) => self.greet(poll, number, stream),
                Err(error) if error.kind() == ErrorKind::Interrupted => {}
                Err(_) => return,
            }
        }
    }

    fn greet(&mut self, poll: &Poll, number: usize, stream: TcpStream) {
        if stream.set_nonblocking(true).is_err() {
            return;
        }
        let fd = stream.as_raw_fd();
        let mut source = SourceFd(&fd);
        let interest = Interest::READABLE | Interest::WRITABLE;
        if poll
            .registry()
            .register(&mut source, Token(number), interest)
            .is_err()
        {
            return;
        }
        let client = Client::new(self.admin.alloc, stream, self.now());
        if let Some(slot) = self.clients.get_mut(number) {
            *slot = Some(client);
        }
    }

    fn attend_to_all<A: Answers>(&mut self, answers: &mut A) {
        let now = self.now();
        let is_full = self.clients.iter().all(|client| client.is_some());
        let patience = if is_full { CROWDED } else { CALM };
        self.more = false;
        for slot in self.clients.iter_mut() {
            let Some(mut client) = slot.take() else {
                continue;
            };
            match client.work(answers, self.buffer.as_mut_slice(), (now, patience)) {
                Fate::Closes => {
                    // There is room for a client that waits.
                    self.more = true;
                    continue;
                }
                Fate::More => self.more = true,
                Fate::Stays => {}
            }
            *slot = Some(client);
        }
    }

    // Milliseconds since the thread began.
    fn now(&self) -> u64 {
        match self.start.elapsed(self.rt) {
            Ok(passed) => u64::try_from(passed.as_millis()).unwrap_or(u64::MAX),
            Err(_) => 0,
        }
    }
}
