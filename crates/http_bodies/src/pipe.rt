ghost use Rattle.std.specs.Prelude.{◌≡◌, ◌⊎◌, ◌+◌, ◌^◌, ◌<◌, ◌≤◌, ◌++◌, ℕ, List, [], length, drop, true, false, Err, IfOk, OnOk, IfErr, OnErr};
ghost use Rattle.std.specs.Io.KnownBytes.{IsAtEnd, Keeps};
ghost use Rattle.http_bodies.specs.Readings.{Feeds};
ghost use Rattle.http_bodies.specs.Stops.{is_done, is_bad};
ghost use Rattle.base_streams.specs.Streams.{Stream};
ghost use Rattle.http_bodies.specs.Steps.{ends, Moves, Breaks, LacksNothing, IsAll};
ghost use Rattle.http_bodies.specs.Texts.{Emits, Remains, Stops, WaitsBehind};

use crate::coding::Coding;
use crate::fault::Fault;
use crate::feeding::State;
use crate::inbox::{INBOX_BYTES, Inbox};
use crate::outbox::{OUTBOX_BYTES, Outbox};
use crate::text;
use base_streams::{Sink, Source};
use std::alloc::{AllocError, Global};

/// The bytes that were read and aren't used, the bytes that wait to be written, and the number of
/// reads and writes that may still be made.
#[derive(Drop)]
pub struct Pipe {
    inbox: Inbox,
    outbox: Outbox,
    turns: u64,
}

impl Pipe {
    /// Makes an empty pipe. It takes 84 KiB, once for its life.
    pub fn new(alloc: Global, turns: u64) -> Result<Pipe, AllocError>
        ensures inbox { IfOk result (λ pipe. pipe.inbox ≡ []) }
        ensures outbox { IfOk result (λ pipe. pipe.outbox ≡ []) }
        ensures turns { IfOk result (λ pipe. pipe.turns ≡ turns) }
    {
        Ok(Pipe {
            inbox: Inbox::new(alloc)?,
            outbox: Outbox::new(alloc)?,
            turns,
        })
    }

    /// Makes the pipe empty as `new` does, without allocating.
    pub fn renew(&mut self, turns: u64)
        ensures inbox { self.new.inbox ≡ [] }
        ensures outbox { self.new.outbox ≡ [] }
        ensures turns { self.new.turns ≡ turns }
    {
        self.inbox.clear();
        self.outbox.keep_front(0);
        self.turns = turns;
    }

    /// Returns the number of reads and writes that it may still make.
    pub fn turns(&self) -> u64
        ensures { result ≡ self.now.turns }
    {
        self.turns
    }

    /// Returns the bytes that were read and aren't used yet.
    pub fn held(&self) -> &[u8]
        ensures value { result.now ≡ self.now.inbox }
        ensures small { length self.now.inbox ≤ INBOX_BYTES }
    {
        self.inbox.as_slice()
    }

    /// Holds these bytes in place of the old ones. `O(n)`.
    pub fn hold(&mut self, bytes: &[u8])
        requires { length bytes.now ≤ INBOX_BYTES }
        ensures inbox { self.new.inbox ≡ bytes.now }
        ensures outbox { self.new.outbox ≡ self.old.outbox }
        ensures turns { self.new.turns ≡ self.old.turns }
    {
        self.inbox.hold(bytes);
    }

    /// Removes the first held bytes.
    pub fn consume(&mut self, count: usize)
        requires { count ≤ length self.old.inbox }
        ensures inbox { self.new.inbox ≡ drop count self.old.inbox }
        ensures outbox { self.new.outbox ≡ self.old.outbox }
        ensures turns { self.new.turns ≡ self.old.turns }
    {
        self.inbox.consume(count);
    }

    /// Drops the bytes that wait to be written.
    pub fn forget_waiting(&mut self)
        ensures inbox { self.new.inbox ≡ self.old.inbox }
        ensures outbox { self.new.outbox ≡ [] }
        ensures turns { self.new.turns ≡ self.old.turns }
    {
        self.outbox.keep_front(0);
    }

    /// Appends the text after what waits, and writes to the sink where there is no room for it.
    pub fn emit<K: Sink>(&mut self, sink: &mut K, bytes: &[u8]) -> Result<(), Fault>
        requires { (K.stream sink.old).calls + self.old.turns < 2 ^ 64 }
        ensures ok { OnOk result (Emits (K.stream sink.old) (K.stream sink.new) self.old.turns self.new.turns self.old.outbox self.new.outbox bytes.now) }
        ensures late { OnOk result (WaitsBehind (K.stream sink.old) (K.stream sink.new) self.old.outbox self.new.outbox bytes.now) }
        ensures beyond { OnOk result (OUTBOX_BYTES < length (self.old.outbox ++ bytes.now) → self.new.outbox ≡ []) }
        ensures full { OnErr result (OUTBOX_BYTES < length (self.old.outbox ++ bytes.now)) }
        ensures err { IfErr result (λ fault. (stop : Stops (K.stream sink.old) (K.stream sink.new) self.old.turns self.new.turns (self.old.outbox ++ bytes.now) fault)
            × Remains stop.front.front self.old.outbox self.new.outbox) }
        ensures inbox { self.new.inbox ≡ self.old.inbox }
    {
        text::emit(&mut self.outbox, &mut self.turns, sink, bytes)
    }

    /// Writes all that waits.
    pub fn flush<K: Sink>(&mut self, sink: &mut K) -> Result<(), Fault>
        requires { (K.stream sink.old).calls + self.old.turns < 2 ^ 64 }
        ensures ok { OnOk result (Emits (K.stream sink.old) (K.stream sink.new) self.old.turns self.new.turns self.old.outbox self.new.outbox []) }
        ensures empty { OnOk result (self.new.outbox ≡ []) }
        ensures waiting { OnErr result (self.new.outbox ≡ self.old.outbox) }
        ensures some { OnErr result (0 < length self.old.outbox) }
        ensures err { IfErr result (Stops (K.stream sink.old) (K.stream sink.new) self.old.turns self.new.turns self.old.outbox) }
        ensures inbox { self.new.inbox ≡ self.old.inbox }
    {
        text::flush(&mut self.outbox, &mut self.turns, sink)
    }

    // Feeds the coding with the held bytes, and appends its text after what waits. Returns true
    // where the body is whole, false where nothing is held any more or there is no room.
    pub(crate) fn feed(&mut self, coding: &mut Coding) -> Result<bool, Fault>
        ensures moves { (s w : Stream) → (used : List ℕ) × (text : List ℕ) × Feeds coding.old coding.new used text
            × Moves (ends self.old s w) (ends self.new s w) used text }
        ensures whole { IfOk result (λ whole. whole ≡ true → is_done coding.new ≡ true) }
        ensures part { IfOk result (λ whole. whole ≡ false → (is_done coding.new ≡ false) × (is_bad coding.new ≡ false) × ((self.new.inbox ≡ []) ⊎ (OUTBOX_BYTES < length self.new.outbox + 18))) }
        ensures never { IfErr result (λ fault. (fault ≡ Fault.Framing) × (is_bad coding.new ≡ true)) }
    {
        let fed = coding.feed(self.inbox.as_slice(), &mut self.outbox);
        self.inbox.consume(fed.used);
        match fed.state {
            State::Done => Ok(true),
            State::Bad => Err(Fault::Framing),
            State::Full => Ok(false),
            State::Hungry => Ok(false),
        }
    }

    /// Reads once, and returns the number of bytes: 0 at the end of the input. It writes nothing.
    pub fn fill<S: Source>(&mut self, source: &mut S) -> Result<usize, Fault>
        requires room { length self.old.inbox < INBOX_BYTES }
        requires countable { (S.stream source.old).calls + self.old.turns < 2 ^ 64 }
        ensures ok { (w : Stream) → OnOk result (Moves (ends self.old (S.stream source.old) w) (ends self.new (S.stream source.new) w) [] []) }
        ensures more { IfOk result (λ count. length self.new.inbox ≡ length self.old.inbox + count) }
        ensures end { IfOk result (λ count. count ≡ 0 → IsAtEnd (S.stream source.new).bytes) }
        ensures none { IfOk result (λ count. count ≡ 0 → self.new.inbox ≡ self.old.inbox) }
        ensures spent { OnOk result (self.new.turns < self.old.turns) }
        ensures waiting { self.new.outbox ≡ self.old.outbox }
        ensures kept { OnErr result ((self.new.inbox ≡ self.old.inbox) × Keeps (S.stream source.old).bytes (S.stream source.new).bytes) }
        ensures err { (w : Stream) → IfErr result (Breaks (ends self.old (S.stream source.old) w) (ends self.new (S.stream source.new) w) [] [] LacksNothing (IsAll self.old.inbox)) }
        ensures once { (S.stream source.new).calls ≤ (S.stream source.old).calls + 1 }
        ensures unasked { result ≡ Err Fault.Turns → S.stream source.new ≡ S.stream source.old }
    {
        if self.turns == 0 {
            return Err(Fault::Turns);
        }
        self.turns -= 1;
        match self.inbox.fill(source) {
            Ok(count) => Ok(count),
            Err(_) => Err(Fault::Read),
        }
    }
}
