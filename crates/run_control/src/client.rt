use crate::inbox::Inbox;
use crate::steering::{Answer, Awaited, Steers};
use libc::net as c;
use libc::types::pollfd;
use std::alloc::{AllocError, Global};
use std::io::{ErrorKind, Read, Write};
use std::os::fd::AsRawFd;
use std::os::unix::net::UnixStream;

/// The answer to a line that is too long, before the connection is closed.
const TOO_LONG: &str = "error: a line has at most 4096 bytes\n";

/// The most steps that are made for one client before the others get their turn.
const STEPS: usize = 64;

/// A client of the control socket.
#[derive(Drop)]
pub(crate) struct Client {
    pub(crate) stream: UnixStream,
    inbox: Inbox,
    /// The bytes of its answers, and how many were sent.
    outbox: Vec<u8>,
    sent: usize,
    awaits: Option<Awaited>,
    /// It sends no more, or is read no more.
    ended: bool,
    /// The moment when it last sent or took a byte, in milliseconds.
    pub(crate) moved: u64,
}

/// What the reception does with a client after a turn.
#[derive(Clone, Copy, Debug, PartialEq, Eq)]
pub(crate) enum Fate {
    /// It stays, and waits until the poll reports it.
    Stays,
    /// It stays, and there is more to do for it at once.
    More,
    /// Its connection is closed.
    Closes,
}

// The result of one step.
#[derive(Clone, Copy, Debug, PartialEq, Eq)]
enum Step {
    /// Something was done.
    Done,
    /// Nothing can be done until the poll reports the client.
    Waits,
    /// The client is done.
    Over,
}

impl Client {
    pub(crate) fn new(alloc: Global, stream: UnixStream, now: u64) -> Client {
        Client {
            stream,
            inbox: Inbox::new(alloc),
            outbox: Vec::new(alloc),
            sent: 0,
            awaits: None,
            ended: false,
            moved: now,
        }
    }

    /// Returns what the client waits for; while it waits its silence doesn't count against it.
    pub(crate) fn awaits(&self) -> Option<Awaited> {
        self.awaits
    }

    /// Returns the connection.
    pub(crate) fn into_stream(self) -> UnixStream {
        let Client {
            stream,
            inbox: _,
            outbox: _,
            sent: _,
            awaits: _,
            ended: _,
            moved: _,
        } = self;
        stream
    }

    /// Does all that can be done for the client without waiting.
    pub(crate) fn work<S: Steers>(&mut self, steers: &mut S, buffer: &mut [u8], now: u64) -> Fate {
        for _ in 0..STEPS {
            match self.step(steers, buffer, now) {
                Ok(Step::Done) => {}
                Ok(Step::Waits) => return Fate::Stays,
                Ok(Step::Over) | Err(_) => return Fate::Closes,
            }
        }
        Fate::More
    }

    // Sends what waits first, then obeys its lines, then reads. A client that waits for something isn't read.
    fn step<S: Steers>(
        &mut self,
        steers: &mut S,
        buffer: &mut [u8],
        now: u64,
    ) -> Result<Step, AllocError> {
        if self.sent < self.outbox.len() {
            return Ok(self.send(now));
        }
        if let Some(awaited) = self.awaits {
            if self.has_left() {
                return Ok(Step::Over);
            }
            return self.look(steers, awaited);
        }
        if let Some(line) = self.inbox.take_line()? {
            let answer = steers.obey(line.as_slice())?;
            self.answer(answer)?;
            return Ok(Step::Done);
        }
        if self.ended {
            return Ok(Step::Over);
        }
        if self.inbox.is_too_long() {
            self.ended = true;
            self.say(TOO_LONG)?;
            return Ok(Step::Done);
        }
        self.hear(buffer, now)
    }

    // Says whether the client neither sends nor takes any more. One that only sends no more may
    // still wait for an answer.
    fn has_left(&self) -> bool {
        let mut asked = [pollfd {
            fd: self.stream.as_raw_fd(),
            events: 0,
            revents: 0,
        }];
        c::poll(&mut asked, 0) > 0 && asked[0].revents != 0
    }

    fn answer(&mut self, answer: Answer) -> Result<(), AllocError> {
        match answer {
            Answer::Now(text) => self.say(text.as_str()),
            Answer::Later(awaited) => {
                self.awaits = Some(awaited);
                Ok(())
            }
            Answer::Then(text, awaited) => {
                self.awaits = Some(awaited);
                self.say(text.as_str())
            }
        }
    }

    // Adds an answer, and the empty line that ends it.
    fn say(&mut self, text: &str) -> Result<(), AllocError> {
        self.outbox.clear();
        self.sent = 0;
        self.outbox.extend_from_slice(text.as_bytes())?;
        self.outbox.extend_from_slice(b"\n".as_slice())
    }

    fn look<S: Steers>(&mut self, steers: &mut S, awaited: Awaited) -> Result<Step, AllocError> {
        match steers.look(awaited)? {
            None => Ok(Step::Waits),
            Some(text) => {
                self.awaits = None;
                self.say(text.as_str())?;
                Ok(Step::Done)
            }
        }
    }

    fn send(&mut self, now: u64) -> Step {
        let Some(rest) = self.outbox.get(self.sent..) else {
            return Step::Over;
        };
        match self.stream.write(rest) {
            Ok(0) => Step::Over,
            Ok(count) => {
                self.sent = self.sent.saturating_add(count);
                self.moved = now;
                Step::Done
            }
            Err(error) => after(error.kind()),
        }
    }

    fn hear(&mut self, buffer: &mut [u8], now: u64) -> Result<Step, AllocError> {
        match self.stream.read(buffer) {
            Ok(0) => {
                self.ended = true;
                Ok(Step::Done)
            }
            Ok(count) => {
                if let Some(came) = buffer.get(..count) {
                    self.inbox.add(came)?;
                }
                self.moved = now;
                Ok(Step::Done)
            }
            Err(error) => Ok(after(error.kind())),
        }
    }
}

fn after(kind: ErrorKind) -> Step {
    match kind {
        ErrorKind::WouldBlock => Step::Waits,
        ErrorKind::Interrupted => Step::Done,
        _ => Step::Over,
    }
}
