ghost use Rattle.std.specs.Prelude.{◌≡◌, ◌==◌, ◌+◌, ◌≤◌, ◌<◌, ◌++◌, ℕ, List, [], length, take, drop, IfOk, OnOk, IsTrue};
ghost use Rattle.http_bodies.specs.Readings.{start_of};
ghost use Rattle.http_bodies.specs.Stops.{Tells, is_bad, is_done};
ghost use Rattle.http_bodies.specs.declared.coding.Coding as codings;
ghost use Rattle.exchange_machine.specs.Ways.{Hears, IsUsedUp, is_read};
ghost use Rattle.base_lists.specs.Fronts.{IsFront};

use http_bodies::{Coding, Fed, Framing, OUTBOX_BYTES, Outbox, State};
use std::alloc::{AllocError, Global};

/// One direction of an exchange: a head's text, and then a body. Bytes of the body are taken as
/// long as there is room for their text, and the text waits to be sent.
#[derive(Drop)]
pub struct Way {
    coding: Coding,
    out: Outbox,
}

impl Way {
    /// Makes an empty way. It takes 16 KiB, once for its life.
    pub fn new(alloc: Global) -> Result<Way, AllocError>
        ensures { IfOk result (λ way. way.out ≡ []) }
    {
        let out = Outbox::new(alloc)?;
        Ok(Way {
            coding: Coding::Length(0),
            out,
        })
    }

    /// Appends a text to what waits: a head, or a refusal.
    pub fn put(&mut self, text: &[u8])
        requires { length self.old.out + length text.now ≤ OUTBOX_BYTES }
        ensures out { self.new.out ≡ self.old.out ++ text.now }
        ensures coding { self.new.coding ≡ self.old.coding }
    {
        self.out.push(text);
    }

    /// Begins a body after it.
    pub fn begin(&mut self, framing: Framing, framed: bool)
        ensures coding { self.new.coding ≡ start_of framing framed }
        ensures out { self.new.out ≡ self.old.out }
        ensures hears { (text went : List ℕ) → text ≡ went ++ self.old.out → Hears (start_of framing framed) self.new.coding text self.new.out [] went }
    {
        self.coding = Coding::new(framing, framed);
    }

    /// Takes bytes of the body, up to its end and as long as there is room. `O(n)`.
    pub fn take(&mut self, input: &[u8]) -> Fed
        ensures within { result.used ≤ length input.now }
        ensures hears { (start : codings.Coding) (text came went : List ℕ) → Hears start self.old.coding text self.old.out came went
            → Hears start self.new.coding text self.new.out (came ++ take result.used input.now) went }
        ensures state { Tells self.new.coding (result.used == length input.now) result.state }
        ensures all { IsUsedUp self.new (drop result.used input.now) }
        ensures grows { IsFront self.old.out self.new.out }
        ensures full { result.state ≡ State.Full → OUTBOX_BYTES < length self.new.out + 18 }
    {
        self.coding.feed(input, &mut self.out)
    }

    /// Says whether the body is whole.
    pub fn is_whole(&self) -> bool
        ensures { result ≡ is_done self.now.coding }
    {
        self.coding.is_whole()
    }

    /// Says whether the bytes so far aren't the front of any body.
    pub fn is_broken(&self) -> bool
        ensures { result ≡ is_bad self.now.coding }
    {
        self.coding.is_broken()
    }

    /// Says whether the body was read whole, where the input is over or not.
    pub fn is_read(&self, over: bool) -> bool
        ensures { result ≡ is_read self.now.coding over }
    {
        match &self.coding {
            Coding::ToEnd => over,
            Coding::Length(_) | Coding::Chunked(_, _) => self.coding.is_whole(),
        }
    }

    /// Says whether the body goes on to the end of the input.
    pub fn goes_to_end(&self) -> bool
        ensures to_end { IsTrue result → self.now.coding ≡ Coding.ToEnd }
        ensures each { self.now.coding ≡ Coding.ToEnd → IsTrue result }
    {
        self.coding == Coding::ToEnd
    }

    /// Returns the bytes to send next.
    pub fn waiting(&self) -> &[u8]
        ensures { result.now ≡ self.now.out }
    {
        self.out.as_slice()
    }

    /// Removes the first bytes, which were sent.
    pub fn went(&mut self, count: usize)
        requires { count ≤ length self.old.out }
        ensures hears { (start : codings.Coding) (text came went : List ℕ) → Hears start self.old.coding text self.old.out came went
            → Hears start self.new.coding text self.new.out came (went ++ take count self.old.out) }
        ensures out { self.new.out ≡ drop count self.old.out }
        ensures coding { self.new.coding ≡ self.old.coding }
    {
        self.out.sent(count);
    }

    /// Keeps the first bytes alone, and removes those after them.
    pub fn keep_front(&mut self, count: usize)
        ensures { self.new.out ≡ take count self.old.out }
    {
        self.out.keep_front(count);
    }
}
