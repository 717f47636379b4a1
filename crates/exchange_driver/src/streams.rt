ghost use Rattle.std.specs.Prelude.{◌≡◌, ◌≤◌, ◌<◌, ℕ, true, false, length, take, IfSome, MatchOption};
ghost use Rattle.std.specs.Io.KnownBytes.{Consumes, Appends, IsAtEnd, Keeps};
ghost use Rattle.exchange_driver.specs.Answers.{came, went, is_nothing, is_full};
ghost use Rattle.exchange_driver.specs.Calls as calls;

use crate::calls::{LastRead, LastWrite, heard_of, read_told, said_of, write_told};
use crate::meter::Meter;
use crate::socket::{ReadResult, Socket, WriteResult};
use std::cell::Cell;
use std::io::{Read, Write};
use std::marker::Model;
use std::net::TcpStream;

/// The most times that a call is made again after a signal.
const SIGNALS: u32 = 1 << 16;

/// A non-blocking reader and a non-blocking writer, as a socket.
#[derive(Drop)]
pub struct Duplex<R: Read + Drop, W: Write + Drop> {
    pub reads: R,
    pub writes: W,
    last_read: Option<LastRead>,
    last_write: Option<LastWrite>,
}

/// A non-blocking connection.
#[derive(Drop)]
pub struct Live {
    stream: TcpStream,
    last_read: Option<LastRead>,
    last_write: Option<LastWrite>,
    /// Its counters, where they are wanted.
    meter: Cell<Option<Meter>>,
}

impl Model for Live {
    ghost use Rattle.exchange_driver.specs.Answers.{is_nothing, is_full};
    ghost use Rattle.exchange_driver.specs.Calls.{Standing, read_told, write_told};

    ghost Value = { Standing };

    ghost view = { λ live. record { is_dry = is_nothing (read_told live.last_read); is_full = is_full (write_told live.last_write) } };
}

impl<R: Read + Drop, W: Write + Drop> Duplex<R, W> {
    pub fn new(reads: R, writes: W) -> Duplex<R, W>
        ensures reads { result.reads ≡ reads }
        ensures writes { result.writes ≡ writes }
        ensures untried { (result.last_read ≡ None) × (result.last_write ≡ None) }
    {
        Duplex {
            reads,
            writes,
            last_read: None,
            last_write: None,
        }
    }
}

impl Live {
    pub fn new(stream: TcpStream) -> Live
        ensures untried { (result.is_dry ≡ false) × (result.is_full ≡ false) }
    {
        Live {
            stream,
            last_read: None,
            last_write: None,
            meter: Cell::new(None),
        }
    }

    /// Returns what went over it since the count began; `None` where it isn't counted.
    pub fn meter(&self) -> Option<Meter> {
        self.meter.get()
    }

    /// Begins to count from 0.
    pub fn count_anew(&self) {
        self.meter.set(Some(Meter::new()));
    }

    fn note_heard(&self, heard: ReadResult) {
        if let (Some(mut meter), ReadResult::Bytes(count)) = (self.meter.get(), heard) {
            meter.note_received(count);
            self.meter.set(Some(meter));
        }
    }

    fn note_said(&self, said: WriteResult, bytes: &[u8]) {
        if let (Some(mut meter), WriteResult::Bytes(count)) = (self.meter.get(), said) {
            meter.note_sent(&bytes[..count.min(bytes.len())]);
            self.meter.set(Some(meter));
        }
    }

    /// Returns the stream, for registration with a poll or for a look at its state.
    pub fn stream(&self) -> &TcpStream {
        &self.stream
    }
}

impl<R: Read + Drop, W: Write + Drop> Socket for Duplex<R, W> {
    ghost use Rattle.std.specs.Prelude.{None};

    ghost left = { λ side. R.remaining side.reads };

    ghost taken = { λ side. W.contents side.writes };

    ghost dry = { λ side. is_nothing (calls.read_told side.last_read) };

    ghost full = { λ side. is_full (calls.write_told side.last_write) };

    ghost answers = { λ _. None };

    fn read_now(&mut self, buffer: &mut [u8]) -> ReadResult {
        self.last_read = read_ready(&mut self.reads, buffer);
        read_told(self.last_read)
    }

    fn write_now(&mut self, bytes: &[u8]) -> WriteResult {
        self.last_write = write_ready(&mut self.writes, bytes);
        write_told(self.last_write)
    }

    fn wake(&mut self, reads: bool, writes: bool) {
        if reads {
            self.last_read = None;
        }
        if writes {
            self.last_write = None;
        }
    }

    fn is_dry(&self) -> bool {
        read_told(self.last_read).is_nothing()
    }

    fn is_full(&self) -> bool {
        write_told(self.last_write).is_full()
    }
}

impl Socket for Live {
    ghost use Rattle.std.specs.Prelude.{None};

    ghost left = { λ _. None };

    ghost taken = { λ _. None };

    ghost dry = { λ live. live.is_dry };

    ghost full = { λ live. live.is_full };

    ghost answers = { λ _. None };

    fn read_now(&mut self, buffer: &mut [u8]) -> ReadResult {
        self.last_read = read_ready(&mut self.stream, buffer);
        let heard = read_told(self.last_read);
        self.note_heard(heard);
        heard
    }

    fn write_now(&mut self, bytes: &[u8]) -> WriteResult {
        self.last_write = write_ready(&mut self.stream, bytes);
        let said = write_told(self.last_write);
        self.note_said(said, bytes);
        said
    }

    fn wake(&mut self, reads: bool, writes: bool) {
        if reads {
            self.last_read = None;
        }
        if writes {
            self.last_write = None;
        }
    }

    fn is_dry(&self) -> bool {
        read_told(self.last_read).is_nothing()
    }

    fn is_full(&self) -> bool {
        write_told(self.last_write).is_full()
    }
}

impl ReadResult {
    fn is_nothing(&self) -> bool
        ensures { result ≡ is_nothing self.now }
    {
        match self {
            ReadResult::Nothing => true,
            ReadResult::Bytes(_) => false,
            ReadResult::Ended { well: _ } => false,
        }
    }
}

impl WriteResult {
    fn is_full(&self) -> bool
        ensures { result ≡ is_full self.now }
    {
        match self {
            WriteResult::Full => true,
            WriteResult::Bytes(_) => false,
            WriteResult::Failed => false,
        }
    }
}

// Reads once, and again where a signal interrupted it.
fn read_ready<R: Read>(reads: &mut R, buffer: &mut [u8]) -> Option<LastRead>
    requires { 0 < length buffer.old }
    ensures within { came (calls.read_told result) ≤ length buffer.new }
    ensures length { length buffer.new ≡ length buffer.old }
    ensures some { (count : ℕ) → calls.read_told result ≡ ReadResult.Bytes count → 0 < count }
    ensures left { Consumes (R.remaining reads.old) (R.remaining reads.new) (take (came (calls.read_told result)) buffer.new) }
    ensures end { calls.read_told result ≡ ReadResult.Ended true → IsAtEnd (R.remaining reads.new) }
{
    for _signal in 0..SIGNALS {
        if let Some(last) = try_read(reads, buffer) {
            return Some(last);
        }
    }
    None
}

// Writes once, and again where a signal interrupted it.
fn write_ready<W: Write>(writes: &mut W, bytes: &[u8]) -> Option<LastWrite>
    ensures within { went (calls.write_told result) ≤ length bytes.now }
    ensures some { (count : ℕ) → calls.write_told result ≡ WriteResult.Bytes count → 0 < count }
    ensures taken { Appends (W.contents writes.old) (W.contents writes.new) (take (went (calls.write_told result)) bytes.now) }
{
    for _signal in 0..SIGNALS {
        if let Some(last) = try_write(writes, bytes) {
            return Some(last);
        }
    }
    None
}

// Reads once. `None` where a signal interrupted the call.
fn try_read<R: Read>(reads: &mut R, buffer: &mut [u8]) -> Option<LastRead>
    requires { 0 < length buffer.old }
    ensures within { IfSome result (λ last. came last.result ≤ length buffer.new) }
    ensures length { length buffer.new ≡ length buffer.old }
    ensures some { IfSome result (λ last. (count : ℕ) → last.result ≡ ReadResult.Bytes count → 0 < count) }
    ensures left { MatchOption result (Keeps (R.remaining reads.old) (R.remaining reads.new))
        (λ last. Consumes (R.remaining reads.old) (R.remaining reads.new) (take (came last.result) buffer.new)) }
    ensures end { IfSome result (λ last. last.result ≡ ReadResult.Ended true → IsAtEnd (R.remaining reads.new)) }
{
    heard_of(reads.read(buffer))
}

// Writes once. `None` where a signal interrupted the call.
fn try_write<W: Write>(writes: &mut W, bytes: &[u8]) -> Option<LastWrite>
    ensures within { IfSome result (λ last. went last.result ≤ length bytes.now) }
    ensures some { IfSome result (λ last. (count : ℕ) → last.result ≡ WriteResult.Bytes count → 0 < count) }
    ensures taken { MatchOption result (Keeps (W.contents writes.old) (W.contents writes.new))
        (λ last. Appends (W.contents writes.old) (W.contents writes.new) (take (went last.result) bytes.now)) }
{
    said_of(writes.write(bytes))
}
