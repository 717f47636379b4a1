ghost use Rattle.std.specs.Prelude.{◌≡◌, ◌≤◌, ◌<◌, ◌+◌, ◌∷◌, ◌++◌, ℕ, [], length, take, drop, None, true, false, is_some, IfSome};
ghost use Rattle.std.specs.Io.KnownBytes.{Consumes, Appends};
ghost use Rattle.exchange_driver.specs.Answers.{Said, came, went, is_full, with_answers};
ghost use Rattle.exchange_driver.specs.Wires.{HasHeard, is_still_at};

use crate::socket::{ReadResult, Socket, WriteResult};
use exchange_machine::forget;
use std::alloc::Global;
use std::marker::Model;

/// One side of an exchange: its socket, where there is one, and the bytes from it that the exchange
/// hasn't taken yet.
#[derive(Drop)]
pub struct Line<S: Socket> {
    socket: Option<S>,
    waits: Vec<u8>,
}

impl<S: Socket> Model for Line<S> {
    ghost use Rattle.std.specs.Prelude.{vec_capacity};
    ghost use Rattle.exchange_driver.specs.Wires.{Wire, is_there, known_of, told_of};

    ghost Value = { Wire };

    ghost view = { λ line. record {
      there = is_there line.socket;
      left = known_of S.left line.socket;
      taken = known_of S.taken line.socket;
      waits = line.waits.items;
      room = vec_capacity line.waits;
      dry = told_of S.dry line.socket;
      full = told_of S.full line.socket;
      answers = known_of S.answers line.socket;
    } };
}

impl<S: Socket> Line<S> {
    /// Makes a line without a socket: nothing comes from it, and it takes nothing.
    pub fn without_socket(alloc: Global) -> Line<S>
        ensures none { result.there ≡ false }
        ensures left { result.left ≡ None }
        ensures waits { result.waits ≡ [] }
        ensures quiet { (result.dry ≡ true) × (result.full ≡ true) }
    {
        Line {
            socket: None,
            waits: Vec::new(alloc),
        }
    }

    /// Makes a line of a socket, with no bytes that wait.
    pub fn new(alloc: Global, socket: S) -> Line<S>
        ensures there { result.there ≡ true }
        ensures left { result.left ≡ S.left socket }
        ensures taken { result.taken ≡ S.taken socket }
        ensures waits { result.waits ≡ [] }
        ensures told { (result.dry ≡ S.dry socket) × (result.full ≡ S.full socket) }
        ensures answers { result.answers ≡ S.answers socket }
    {
        Line {
            socket: Some(socket),
            waits: Vec::new(alloc),
        }
    }

    /// Returns the socket, where there is one.
    pub fn socket(&self) -> Option<&S>
        ensures { is_some result ≡ self.now.there }
    {
        self.socket.as_ref()
    }

    /// Returns the socket, and drops the bytes that wait.
    pub fn into_socket(self) -> Option<S>
        ensures there { is_some result ≡ self.there }
        ensures left { IfSome result (λ socket. S.left socket ≡ self.left) }
        ensures taken { IfSome result (λ socket. S.taken socket ≡ self.taken) }
        ensures answers { IfSome result (λ socket. S.answers socket ≡ self.answers) }
        ensures told { IfSome result (λ socket. (S.dry socket ≡ self.dry) × (S.full socket ≡ self.full)) }
    {
        let Line { socket, waits: _ } = self;
        socket
    }

    /// Frees the memory for waiting bytes, where none wait.
    pub fn rest(&mut self)
        ensures left { (self.new.left ≡ self.old.left) × (self.new.taken ≡ self.old.taken) }
        ensures waits { self.new.waits ≡ self.old.waits }
        ensures told { (self.new.there ≡ self.old.there) × (self.new.dry ≡ self.old.dry) × (self.new.full ≡ self.old.full) }
        ensures answers { self.new.answers ≡ self.old.answers }
    {
        if self.waits.is_empty() {
            self.waits.shrink_to_fit();
        }
    }

    /// The poll reports the socket as ready to read or to write: the last answer of that kind no longer stands.
    pub fn wake(&mut self, reads: bool, writes: bool)
        ensures dry { self.new.dry ≡ is_still_at self.old.there self.old.dry reads }
        ensures full { self.new.full ≡ is_still_at self.old.there self.old.full writes }
        ensures there { self.new.there ≡ self.old.there }
        ensures left { (self.new.left ≡ self.old.left) × (self.new.taken ≡ self.old.taken) }
        ensures waits { (self.new.waits ≡ self.old.waits) × (self.new.room ≡ self.old.room) }
        ensures answers { self.new.answers ≡ self.old.answers }
    {
        if let Some(socket) = &mut self.socket {
            socket.wake(reads, writes);
        }
    }

    /// Says whether nothing was there at the last read, or there is no socket.
    pub fn is_dry(&self) -> bool
        ensures { result ≡ self.now.dry }
    {
        match &self.socket {
            None => true,
            Some(socket) => socket.is_dry(),
        }
    }

    /// Says whether it was full at the last write, or there is no socket.
    pub fn is_full(&self) -> bool
        ensures { result ≡ self.now.full }
    {
        match &self.socket {
            None => true,
            Some(socket) => socket.is_full(),
        }
    }

    /// Returns the bytes that wait to be taken.
    pub fn waiting(&self) -> &[u8]
        ensures { result.now ≡ self.now.waits }
    {
        self.waits.as_slice()
    }

    /// Removes the first bytes, which were taken. `O(n)`.
    pub(crate) fn taken(&mut self, count: usize)
        ensures left { (self.new.left ≡ self.old.left) × (self.new.taken ≡ self.old.taken) }
        ensures waits { self.new.waits ≡ drop count self.old.waits }
        ensures told { (self.new.dry ≡ self.old.dry) × (self.new.full ≡ self.old.full) }
        ensures there { self.new.there ≡ self.old.there }
        ensures answers { self.new.answers ≡ self.old.answers }
    {
        forget(&mut self.waits, count);
    }

    /// Reads once into the buffer, all of which may have to wait. Where there is no memory for
    /// that, the read counts as failed.
    pub(crate) fn read_now(&mut self, buffer: &mut [u8]) -> ReadResult
        requires { 0 < length buffer.old }
        ensures within { came result ≤ length buffer.new }
        ensures length { length buffer.new ≡ length buffer.old }
        ensures some { (count : ℕ) → result ≡ ReadResult.Bytes count → 0 < count }
        ensures room { length self.new.waits + came result ≤ self.new.room }
        ensures left { Consumes self.old.left self.new.left (take (came result) buffer.new) }
        ensures dry { result ≡ ReadResult.Nothing → self.new.dry ≡ true }
        ensures waits { self.new.waits ≡ self.old.waits }
        ensures taken { (self.new.taken ≡ self.old.taken) × (self.new.full ≡ self.old.full) }
        ensures there { self.new.there ≡ self.old.there }
        ensures none { self.old.there ≡ false → came result ≡ 0 }
        ensures heard { HasHeard result self.old self.new }
    {
        if self.waits.reserve(buffer.len()).is_err() {
            return ReadResult::Ended { well: false };
        }
        match &mut self.socket {
            None => ReadResult::Nothing,
            Some(socket) => socket.read_now(buffer),
        }
    }

    /// Keeps the bytes that were read and not taken.
    pub(crate) fn keep(&mut self, bytes: &[u8])
        requires { length self.old.waits + length bytes.now ≤ self.old.room }
        ensures left { (self.new.left ≡ self.old.left) × (self.new.taken ≡ self.old.taken) }
        ensures waits { self.new.waits ≡ self.old.waits ++ bytes.now }
        ensures told { (self.new.dry ≡ self.old.dry) × (self.new.full ≡ self.old.full) }
        ensures there { self.new.there ≡ self.old.there }
        ensures answers { self.new.answers ≡ self.old.answers }
    {
        match self.waits.extend_from_slice(bytes) {
            Ok(()) => {}
            Err(_) => unreachable!(),
        }
    }

    /// Writes once.
    pub(crate) fn write_now(&mut self, bytes: &[u8]) -> WriteResult
        requires { 0 < length bytes.now }
        ensures within { went result ≤ length bytes.now }
        ensures some { (count : ℕ) → result ≡ WriteResult.Bytes count → 0 < count }
        ensures taken { Appends self.old.taken self.new.taken (take (went result) bytes.now) }
        ensures full { self.new.full ≡ is_full result }
        ensures left { (self.new.left ≡ self.old.left) × (self.new.dry ≡ self.old.dry) }
        ensures waits { (self.new.waits ≡ self.old.waits) × (self.new.room ≡ self.old.room) }
        ensures there { self.new.there ≡ self.old.there }
        ensures none { self.old.there ≡ false → went result ≡ 0 }
        ensures said { self.new.answers ≡ with_answers (Said result ∷ []) self.old.answers }
    {
        match &mut self.socket {
            None => WriteResult::Full,
            Some(socket) => socket.write_now(bytes),
        }
    }
}
