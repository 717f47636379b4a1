//! A client's connection: its head, its answer, and its end.

use crate::page::{AdminPage, Answers, Status, push_answer};
use crate::question::{Asked, MOST_HEAD, Method, Question, asked_of};
use std::alloc::{AllocError, Global};
use std::io::{ErrorKind, Read, Write};
use std::net::{Shutdown, TcpStream};

/// The most steps that are made for one client before the others get their turn.
const STEPS: usize = 64;

/// The time that a client may take, in milliseconds since it connected.
#[derive(Clone, Copy, Debug, PartialEq, Eq)]
pub(crate) struct Patience {
    /// Until its whole head has come.
    head: u64,
    /// Until its answer is sent and its connection closed.
    all: u64,
}

/// While there is room for more clients.
pub(crate) const CALM: Patience = Patience {
    head: 2000,
    all: 5000,
};

/// While other clients may wait for its room.
pub(crate) const CROWDED: Patience = Patience {
    head: 200,
    all: 1000,
};

/// The stage of a client.
#[derive(Clone, Copy, Debug, PartialEq, Eq)]
enum Stage {
    Reads,
    Writes,
    /// The whole answer is sent. What the client still sends is thrown away, so that the system
    /// doesn't discard the answer.
    Leaves,
}

/// A client of the admin listener.
#[derive(Drop)]
pub(crate) struct Client {
    stream: TcpStream,
    alloc: Global,
    stage: Stage,
    head: Vec<u8>,
    /// The text of the answer and how much of it has been sent.
    outbox: String,
    sent: usize,
    /// The moment when it connected, in milliseconds.
    came: u64,
}

/// What the reception does with a client after a turn.
#[derive(Clone, Copy, Debug, PartialEq, Eq)]
pub(crate) enum Fate {
    /// It stays, and waits until the poll reports it.
    Stays,
    /// It stays, and there is more to do for it at once.
    More,
    /// Its connection is closed.
    Closes,
}

// The result of one step.
#[derive(Clone, Copy, Debug, PartialEq, Eq)]
enum Step {
    Done,
    /// Nothing can be done until the poll reports the client.
    Waits,
    Over,
}

impl Client {
    pub(crate) fn new(alloc: Global, stream: TcpStream, now: u64) -> Client {
        Client {
            stream,
            alloc,
            stage: Stage::Reads,
            head: Vec::new(alloc),
            outbox: String::new(alloc),
            sent: 0,
            came: now,
        }
    }

    /// Does all that can be done for the client without waiting.
    pub(crate) fn work<A: Answers>(
        &mut self,
        answers: &mut A,
        buffer: &mut [u8],
        (now, patience): (u64, Patience),
    ) -> Fate {
        for _ in 0..STEPS {
            match self.step(answers, buffer) {
                Ok(Step::Done) => {}
                Ok(Step::Waits) => return self.wait(now, patience),
                Ok(Step::Over) | Err(_) => return Fate::Closes,
            }
        }
        Fate::More
    }

    // Keeps the client until its time is over.
    fn wait(&mut self, now: u64, patience: Patience) -> Fate {
        let passed = now.saturating_sub(self.came);
        let is_late = patience.head <= passed;
        match self.stage {
            _ if patience.all <= passed => Fate::Closes,
            Stage::Reads if is_late => match self.refuse(Status::TooSlow) {
                Ok(()) => Fate::More,
                Err(_) => Fate::Closes,
            },
            Stage::Leaves if is_late => Fate::Closes,
            _ => Fate::Stays,
        }
    }

    fn step<A: Answers>(&mut self, answers: &mut A, buffer: &mut [u8]) -> Result<Step, AllocError> {
        match self.stage {
            Stage::Reads => self.hear(answers, buffer),
            Stage::Writes => Ok(self.send()),
            Stage::Leaves => Ok(self.leave(buffer)),
        }
    }

    fn hear<A: Answers>(&mut self, answers: &mut A, buffer: &mut [u8]) -> Result<Step, AllocError> {
        let count = match self.stream.read(buffer) {
            Ok(0) => return Ok(Step::Over),
            Ok(count) => count,
            Err(error) => return Ok(after(error.kind())),
        };
        if let Some(came) = buffer.get(..count) {
            self.head.extend_from_slice(came)?;
        }
        self.look(answers)?;
        Ok(Step::Done)
    }

    // Answers the client once its whole head has come.
    fn look<A: Answers>(&mut self, answers: &mut A) -> Result<(), AllocError> {
        let (page, has_body) = match asked_of(self.head.as_slice()) {
            Asked::Part if self.head.len() <= MOST_HEAD => return Ok(()),
            Asked::Part => return self.refuse(Status::TooLong),
            Asked::Nothing => return self.refuse(Status::BadRequest),
            Asked::Whole(question) if question.method == Method::Other => {
                return self.refuse(Status::NotAllowed);
            }
            Asked::Whole(question) => (answers.answer(&question)?, has_body(&question)),
        };
        self.write_page(&page, has_body)
    }

    fn refuse(&mut self, status: Status) -> Result<(), AllocError> {
        let number = status.number();
        let page = AdminPage {
            status,
            kind: "text/plain; charset=utf-8",
            body: format!(in self.alloc; "{number}\n")?,
        };
        self.write_page(&page, true)
    }

    fn write_page(&mut self, page: &AdminPage, has_body: bool) -> Result<(), AllocError> {
        self.outbox.clear();
        self.sent = 0;
        self.stage = Stage::Writes;
        push_answer(&mut self.outbox, page, has_body)
    }

    fn send(&mut self) -> Step {
        let Some(rest) = self.outbox.as_bytes().get(self.sent..) else {
            return Step::Over;
        };
        if rest.is_empty() {
            let _ = self.stream.shutdown(Shutdown::Write);
            self.stage = Stage::Leaves;
            return Step::Done;
        }
        match self.stream.write(rest) {
            Ok(0) => Step::Over,
            Ok(count) => {
                self.sent = self.sent.saturating_add(count);
                Step::Done
            }
            Err(error) => after(error.kind()),
        }
    }

    fn leave(&mut self, buffer: &mut [u8]) -> Step {
        match self.stream.read(buffer) {
            Ok(0) => Step::Over,
            Ok(_) => Step::Done,
            Err(error) => after(error.kind()),
        }
    }
}

fn has_body(question: &Question) -> bool {
    question.method != Method::Head
}

fn after(kind: ErrorKind) -> Step {
    match kind {
        ErrorKind::WouldBlock => Step::Waits,
        ErrorKind::Interrupted => Step::Done,
        _ => Step::Over,
    }
}
