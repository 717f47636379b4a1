//! The thread of a control socket.

use crate::client::{Client, Fate};
use crate::controls::Controls;
use crate::steering::{Awaited, Steers, Tended};
use libc::net as c;
use libc::types::pollfd;
use mio::unix::SourceFd;
use mio::{Events, Interest, Poll, Token};
use std::alloc::AllocError;
use std::io::ErrorKind;
use std::os::fd::AsRawFd;
use std::os::unix::net::UnixStream;
use std::sync::Wait;
use std::time::{Clock, Duration, Instant};

/// The most clients at once, with those that wait for an answer; others wait until one leaves.
const MOST_CLIENTS: usize = 32;

pub(crate) const LISTENER: usize = MOST_CLIENTS;

pub(crate) const WAKER: usize = MOST_CLIENTS + 1;

const EVENTS: usize = 32;

const BUFFER: usize = 4096;

/// A client that neither sends nor takes a byte for this number of milliseconds is closed, unless
/// it waits for an answer.
const PATIENCE: u64 = 10_000;

/// The longest waits of the thread while it has clients, in milliseconds: in general, while
/// something is awaited, and while there is more to do.
const SELDOM: i32 = 1000;

const SOON: i32 = 10;

/// The descriptor of standard input.
const INPUT: i32 = 0;

// The state of the control socket's thread.
struct Reception<'a, R> {
    rt: &'a R,
    controls: &'a Controls,
    clients: Vec<Option<Client>>,
    buffer: Vec<u8>,
    start: Instant,
    /// The thread waits for the end of standard input.
    watches_input: bool,
    /// Some client has more to do at once.
    more: bool,
}

/// Attends to the control socket and to standard input until the proxy has ended. Fails where the
/// system refuses memory or the poll.
pub fn attend<R: Clock + Wait, S: Steers>(
    rt: &R,
    controls: &Controls,
    steers: &mut S,
) -> Result<(), AllocError> {
    let alloc = controls.alloc;
    let Some(poll) = controls.take_poll(rt) else {
        return Err(AllocError);
    };
    let Ok(start) = Instant::now(rt) else {
        return Err(AllocError);
    };
    let mut clients = Vec::with_capacity(alloc, MOST_CLIENTS)?;
    for _ in 0..MOST_CLIENTS {
        clients.push(None)?;
    }
    let events = Events::with_capacity(alloc, EVENTS)?;
    let mut reception = Reception {
        rt,
        controls,
        clients,
        buffer: vec![in alloc; 0u8; BUFFER]?,
        start,
        watches_input: controls.ends_with_input,
        more: false,
    };
    reception.go_round(poll, events, steers);
    reception.keep_who_waits();
    Ok(())
}

impl<'a, R: Clock + Wait> Reception<'a, R> {
    fn go_round<S: Steers>(&mut self, poll: Poll, events: Events, steers: &mut S) {
        let mut poll = poll;
        let mut events = events;
        for _ in self.rt.forever() {
            let tended = steers.tend();
            if tended == Tended::Over {
                return;
            }
            let millis = self.patience(tended);
            if self.wait(&poll, millis) {
                self.watches_input = false;
                steers.end_of_input();
            }
            // Every client is tried, whichever the poll reports: they are few.
            let _ = poll.poll(&mut events, Some(Duration::from_millis(0)));
            self.accept(&poll);
            self.attend_to_all(steers);
        }
    }

    // Returns how long the next wait lasts at most, in milliseconds; -1 is without limit.
    fn patience(&self, tended: Tended) -> i32 {
        if self.more {
            return 0;
        }
        let awaits = self.clients.iter().flatten().any(|client| matches!(
            client.awaits(),
            Some(Awaited::Drained(_))
        ));
        if tended == Tended::Soon || awaits {
            SOON
        } else if self.clients.iter().any(|client| client.is_some()) {
            SELDOM
        } else {
            -1
        }
    }

    // Waits for the poll and for standard input, and says whether standard input ended.
    fn wait(&self, poll: &Poll, millis: i32) -> bool {
        let mut asked = [question(poll.as_raw_fd()), question(INPUT)];
        if !self.watches_input {
            // `poll` ignores a negative descriptor.
            asked[1].fd = -1;
        }
        if c::poll(&mut asked, millis) <= 0 || asked[1].revents == 0 {
            return false;
        }
        let mut thrown = [0u8; 512];
        libc::read(INPUT, &mut thrown) <= 0
    }

    // Accepts the clients that wait at the socket, as long as there is room.
    fn accept(&mut self, poll: &Poll) {
        let controls = self.controls;
        let Some(listener) = &controls.listener else {
            return;
        };
        for number in 0..MOST_CLIENTS {
            if !matches!(self.clients.get(number), Some(None)) {
                continue;
            }
            match listener.accept() {
                Ok((stream, _)) => self.greet(poll, number, stream),
                Err(error) if error.kind() == ErrorKind::Interrupted => {}
                Err(_) => return,
            }
        }
    }

    fn greet(&mut self, poll: &Poll, number: usize, stream: UnixStream) {
        if stream.set_nonblocking(true).is_err() {
            return;
        }
        let fd = stream.as_raw_fd();
        let mut source = SourceFd(&fd);
        let interest = Interest::READABLE | Interest::WRITABLE;
        if poll
            .registry()
            .register(&mut source, Token(number), interest)
            .is_err()
        {
            return;
        }
        let now = self.now();
        let client = Client::new(self.controls.alloc, stream, now);
        if let Some(slot) = self.clients.get_mut(number) {
            *slot = Some(client);
        }
    }

    fn attend_to_all<S: Steers>(&mut self, steers: &mut S) {
        let now = self.now();
        self.more = false;
        for slot in self.clients.iter_mut() {
            let Some(mut client) = slot.take() else {
                continue;
            };
            match client.work(steers, self.buffer.as_mut_slice(), now) {
                Fate::Closes => {
                    // The place is free for a client that waits.
                    self.more = true;
                    continue;
                }
                Fate::More => self.more = true,
                Fate::Stays => {
                    if client.awaits().is_none() && PATIENCE <= now.saturating_sub(client.moved) {
                        self.more = true;
                        continue;
                    }
                }
            }
            *slot = Some(client);
        }
    }

    // Milliseconds since the thread began.
    fn now(&self) -> u64 {
        match self.start.elapsed(self.rt) {
            Ok(passed) => u64::try_from(passed.as_millis()).unwrap_or(u64::MAX),
            Err(_) => 0,
        }
    }

    // Keeps the clients that wait for the proxy's end connected until the controls are dropped.
    fn keep_who_waits(self) {
        let Reception {
            rt,
            controls,
            clients,
            buffer: _,
            start: _,
            watches_input: _,
            more: _,
        } = self;
        for client in clients {
            if let Some(client) = client {
                if client.awaits() == Some(Awaited::End) {
                    controls.keep(rt, client.into_stream());
                }
            }
        }
    }
}

fn question(fd: i32) -> pollfd {
    pollfd {
        fd,
        events: c::POLLIN,
        revents: 0,
    }
}
