ghost use Rattle.std.specs.Prelude.{◌≡◌, ◌==◌, ◌<◌, ◌+◌, ◌≤◌, ◌⊎◌, false, length, take, drop};
ghost use Rattle.http_bodies.specs.Readings.{Hands, read, start_of};
ghost use Rattle.http_bodies.specs.Stops.{LacksRoom, Tells, is_done, is_bad};

use crate::chunked::{after_all, feed_chunked};
use crate::coding::{Coding, Part};
use crate::framing::Framing;
use crate::outbox::{OUTBOX_BYTES, Outbox};
use crate::plain::{feed_length, feed_to_end};

/// Why a feed took no more bytes.
#[derive(Clone, Copy, Debug, PartialEq, Eq)]
pub enum State {
    /// All input was taken.
    Hungry,
    /// There is no room for the text of the next byte.
    Full,
    /// The body is whole.
    Done,
    /// The bytes can't become a body.
    Bad,
}

/// How many bytes a feed took, and why no more.
#[derive(Clone, Copy, Debug, PartialEq, Eq)]
pub struct Fed {
    pub used: usize,
    pub state: State,
}

fn is_done(coding: Coding) -> bool
    ensures { result ≡ is_done coding }
{
    match coding {
        Coding::Length(left) => left == 0,
        Coding::ToEnd => false,
        Coding::Chunked(_, part) => matches!(part, Part::Done),
    }
}

fn is_bad(coding: Coding) -> bool
    ensures { result ≡ is_bad coding }
{
    match coding {
        Coding::Length(_) => false,
        Coding::ToEnd => false,
        Coding::Chunked(_, part) => matches!(part, Part::Bad),
    }
}

fn state_of(coding: Coding, all: bool) -> State
    ensures { Tells coding all result }
{
    if is_done(coding) {
        State::Done
    } else if is_bad(coding) {
        State::Bad
    } else if all {
        State::Hungry
    } else {
        State::Full
    }
}

impl Coding {
    /// Makes the coding of a body of this framing. `framed` is false where a chunked body is handed
    /// on as its data alone.
    pub fn new(framing: Framing, framed: bool) -> Coding
        ensures { result ≡ start_of framing framed }
    {
        match framing {
            Framing::Empty => Coding::Length(0),
            Framing::Length(count) => Coding::Length(count),
            Framing::Chunked => Coding::Chunked(framed, Part::Digits(0, 0)),
            Framing::ToEnd => Coding::ToEnd,
        }
    }

    /// Says whether the body is whole.
    pub fn is_whole(&self) -> bool
        ensures { result ≡ is_done self.now }
    {
        is_done(*self)
    }

    /// Says whether the bytes so far aren't the front of any body.
    pub fn is_broken(&self) -> bool
        ensures { result ≡ is_bad self.now }
    {
        is_bad(*self)
    }

    /// Says whether this input can't go on the body, whatever follows it. `O(n)`.
    pub fn breaks(&self, input: &[u8]) -> bool
        ensures { result ≡ is_bad (read self.now input.now).coding }
    {
        match self {
            Coding::Length(_) => false,
            Coding::ToEnd => false,
            Coding::Chunked(framed, part) => {
                let last = after_all(*framed, *part, input);
                is_bad(Coding::Chunked(*framed, last))
            }
        }
    }

    /// Takes input up to the body's end, as long as there is room for its text. `O(n)`.
    pub fn feed(&mut self, input: &[u8], out: &mut Outbox) -> Fed
        ensures within { result.used ≤ length input.now }
        ensures hands { Hands self.old self.new (take result.used input.now) out.old out.new }
        ensures state { Tells self.new (result.used == length input.now) result.state }
        ensures room { result.state ≡ State.Full → LacksRoom self.new out.new (drop result.used input.now) }
        ensures full { result.state ≡ State.Full → OUTBOX_BYTES < length out.new + 18 }
    {
        let used = self.take(input, out);
        let state = state_of(*self, used == input.len());
        Fed { used, state }
    }

    fn take(&mut self, input: &[u8], out: &mut Outbox) -> usize
        ensures within { result ≤ length input.now }
        ensures hands { Hands self.old self.new (take result input.now) out.old out.new }
        ensures room { is_done self.new ≡ false → is_bad self.new ≡ false → (result ≡ length input.now) ⊎ LacksRoom self.new out.new (drop result input.now) }
        ensures all { length out.new + 18 ≤ OUTBOX_BYTES → is_done self.new ≡ false → is_bad self.new ≡ false → result ≡ length input.now }
    {
        match *self {
            Coding::Length(left) => {
                let mut rest = left;
                let used = feed_length(&mut rest, input, out);
                *self = Coding::Length(rest);
                used
            }
            Coding::ToEnd => feed_to_end(input, out),
            Coding::Chunked(framed, part) => {
                let mut next = part;
                let used = feed_chunked(framed, &mut next, input, out);
                *self = Coding::Chunked(framed, next);
                used
            }
        }
    }
}
