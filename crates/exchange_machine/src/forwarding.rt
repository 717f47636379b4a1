ghost use Rattle.std.specs.Prelude.{◌≡◌, ◌-◌, ◌≤◌, ◌++◌, [], length, min, take, drop, IfOk, OnErr, false, true, IsTrue};
ghost use Rattle.http_bodies.specs.Stops.{is_bad, is_done};
ghost use Rattle.http_bodies.specs.declared.coding.Coding as codings;
ghost use Rattle.exchange_machine.specs.Changes.{Uses, begun_after, left_after, looks_again};
ghost use Rattle.exchange_machine.specs.Histories.{ExchangeHistory, client_came, server_came, server_got, client_got};
ghost use Rattle.exchange_machine.specs.Answerings.{has_answered};
ghost use Rattle.exchange_machine.specs.Reasons.{HasEnded, Shows};
ghost use Rattle.exchange_machine.specs.Stages as stages;
ghost use Rattle.exchange_machine.specs.Ways.{IsUsedUp};
ghost use Rattle.req_view.specs.declared.viewing.TheConstants.{HEAD_BYTES};

use crate::held::{forget, looks_again};
use crate::sides::Down;
use crate::signs::Sign;
use crate::way::Way;
use grant_board::Pass;
use http_bodies::Framing;
use http_texts::{Additions, Persistence};
use req_view::{HEAD_BYTES, View};
use std::alloc::AllocError;

/// An exchange with both sides active: the request goes to the server, and the answer to the client.
pub struct Forwarding {
    pub(crate) view: View,
    pub(crate) pass: Pass,
    pub(crate) up: Way,
    pub(crate) up_held: Vec<u8>,
    /// The server takes no more of the request, whose rest isn't read.
    pub(crate) cut: bool,
    pub(crate) phase: Down,
    pub(crate) down: Way,
    pub(crate) down_held: Vec<u8>,
    pub(crate) reached: bool,
    pub(crate) framing: Framing,
    /// The server's connection was opened for this request.
    pub(crate) fresh: bool,
    /// What was added to the request.
    pub(crate) adds: Additions,
    /// The proxy is willing to serve its client further.
    pub(crate) willing: bool,
    /// What the client is told of its own connection.
    pub(crate) says: Persistence,
    /// The server keeps its connection open.
    pub(crate) kept: bool,
    /// The server's input was read to its end.
    pub(crate) ended: bool,
    /// The end came without an error.
    pub(crate) well: bool,
    /// A line has ended in the held bytes since the last look for a head.
    pub(crate) looks: bool,
    /// The client took a byte after the `100`.
    pub(crate) begun: bool,
    /// The number of bytes of the `100` that the client is still to take.
    pub(crate) leave_left: usize,
    /// A connection is awaited in place of one that broke.
    pub(crate) dialing: bool,
}

impl Forwarding {
    /// Returns its pass.
    pub fn pass(&self) -> &Pass
        ensures { result.now ≡ self.now.pass }
    {
        &self.pass
    }

    /// Takes bytes of the client, no more than there is room for, and returns how many.
    pub fn client_bytes(&mut self, input: &[u8]) -> usize
        ensures only { self.new ≡ record self.old { up = self.new.up } }
        ensures uses { Uses self.old self.new }
        ensures within { result ≤ length input.now }
        ensures cut { self.old.cut ≡ true → result ≡ 0 }
        ensures all { self.old.cut ≡ false → IsUsedUp self.new.up (drop result input.now) }
        ensures passes { (h : ExchangeHistory) → stages.IsForwarding self.old h → self.old.up_held.items ≡ []
            → stages.IsForwarding self.new (client_came h (take result input.now)) }
    {
        if self.cut {
            return 0;
        }
        let fed = self.up.take(input);
        fed.used
    }

    /// Says whether no bytes from after the request's head are held.
    pub fn holds_none(&self) -> bool
        ensures none { IsTrue result → self.now.up_held.items ≡ [] }
        ensures each { self.now.up_held.items ≡ [] → IsTrue result }
    {
        self.up_held.is_empty()
    }

    /// Uses the bytes from after the request's head, before any new ones.
    pub fn use_held(&mut self)
        ensures passes { (h : ExchangeHistory) → stages.IsForwarding self.old h → stages.IsForwarding self.new h }
        ensures phase { self.new.phase ≡ self.old.phase }
        ensures only { self.new ≡ record self.old { up = self.new.up; up_held = self.new.up_held } }
        ensures all { IsUsedUp self.new.up self.new.up_held.items }
        ensures uses { Uses self.old self.new }
    {
        let fed = self.up.take(self.up_held.as_slice());
        forget(&mut self.up_held, fed.used);
    }

    /// Uses the bytes from after the answer's head, before any new ones.
    pub fn use_answer_held(&mut self)
        requires { self.old.phase ≡ Down.Body }
        ensures passes { (h : ExchangeHistory) → stages.IsForwarding self.old h → stages.IsForwarding self.new h }
        ensures body { self.new.phase ≡ Down.Body }
        ensures only { self.new ≡ record self.old { down = self.new.down; down_held = self.new.down_held } }
        ensures all { IsUsedUp self.new.down self.new.down_held.items }
        ensures uses { Uses self.old self.new }
    {
        let fed = self.down.take(self.down_held.as_slice());
        forget(&mut self.down_held, fed.used);
    }

    /// The server takes no more: no more of the request is sent or taken.
    pub fn cut_off(&mut self)
        ensures passes { (h : ExchangeHistory) → stages.IsForwarding self.old h → stages.IsForwarding self.new h }
        ensures cut { self.new ≡ record self.old { cut = true } }
    {
        self.cut = true;
    }

    /// Says whether a connection is awaited in place of one that broke.
    pub fn is_dialing(&self) -> bool
        ensures { result ≡ self.now.dialing }
    {
        self.dialing
    }

    /// The server was reached, on a new connection or a used one.
    pub fn connect(&mut self, fresh: bool)
        ensures passes { (h : ExchangeHistory) → stages.IsForwarding self.old h → stages.IsForwarding self.new h }
        ensures there { self.new ≡ record self.old { fresh = fresh; dialing = false } }
    {
        self.fresh = fresh;
        self.dialing = false;
    }

    /// Says whether the server takes no more.
    pub fn is_cut(&self) -> bool
        ensures { result ≡ self.now.cut }
    {
        self.cut
    }

    /// The server sends no more, or its connection can't be read: all bytes that came were taken before.
    pub fn server_ended(&mut self, well: bool)
        ensures passes { (h : ExchangeHistory) → stages.IsForwarding self.old h → HasEnded h.signs → (well ≡ true → Shows h.signs Sign.ServerEnded)
            → stages.IsForwarding self.new h }
        ensures ended { self.new ≡ record self.old { ended = true; well = well } }
    {
        self.ended = true;
        self.well = well;
    }

    /// Says whether the server's input was read to its end.
    pub fn has_ended(&self) -> bool
        ensures { result ≡ self.now.ended }
    {
        self.ended
    }

    /// Says whether the request was read to its end.
    pub fn is_asked(&self) -> bool
        ensures { result ≡ is_done self.now.up.coding }
    {
        self.up.is_whole()
    }

    /// Says whether the bytes of the request's body aren't the front of any body.
    pub fn is_asked_badly(&self) -> bool
        ensures { result ≡ is_bad self.now.up.coding }
    {
        self.up.is_broken()
    }

    /// Says whether the bytes of the answer's body aren't the front of any body.
    pub fn is_answered_badly(&self) -> bool
        ensures { result ≡ is_bad self.now.down.coding }
    {
        self.down.is_broken()
    }

    /// Says whether the client took a byte of the answer, or of an interim head.
    pub fn has_begun(&self) -> bool
        ensures { result ≡ self.now.begun }
    {
        self.begun
    }

    /// Says whether the answer goes on to the end of the server's input.
    pub fn goes_to_end(&self) -> bool
        ensures end { IsTrue result → (self.now.phase ≡ Down.Body) × (self.now.down.coding ≡ codings.Coding.ToEnd) }
        ensures each { self.now.phase ≡ Down.Body → self.now.down.coding ≡ codings.Coding.ToEnd → IsTrue result }
    {
        self.phase == Down::Body && self.down.goes_to_end()
    }

    /// Says whether the answer's head was handed on.
    pub fn is_at_body(&self) -> bool
        ensures body { IsTrue result → self.now.phase ≡ Down.Body }
        ensures each { self.now.phase ≡ Down.Body → IsTrue result }
    {
        self.phase == Down::Body
    }

    /// Says whether the answer was read to its end.
    pub fn is_answered(&self) -> bool
        ensures whole { IsTrue result → (self.now.phase ≡ Down.Body) × (is_done self.now.down.coding ≡ true) }
        ensures each { self.now.phase ≡ Down.Body → is_done self.now.down.coding ≡ true → IsTrue result }
    {
        match self.phase {
            Down::Heads(_) => false,
            Down::Body => self.down.is_whole(),
        }
    }

    /// Says whether the answer was read whole: to its marked end, or else to the end of the server's input.
    pub fn has_answered(&self) -> bool
        ensures { result ≡ has_answered self.now }
    {
        match self.phase {
            Down::Heads(_) => false,
            Down::Body => self.down.is_read(self.well && self.down_held.is_empty()),
        }
    }

    /// Says whether no bytes from the server are held.
    pub fn holds_no_answer(&self) -> bool
        ensures none { IsTrue result → self.now.down_held.items ≡ [] }
        ensures each { self.now.down_held.items ≡ [] → IsTrue result }
    {
        self.down_held.is_empty()
    }

    /// Returns the bytes that the server is to be sent.
    pub fn to_server(&self) -> &[u8]
        ensures { result.now ≡ self.now.up.out }
    {
        self.up.waiting()
    }

    /// The server took this number of them.
    pub fn server_took(&mut self, count: usize)
        requires { count ≤ length self.old.up.out }
        ensures took { (h : ExchangeHistory) → stages.IsForwarding self.old h → stages.IsForwarding self.new (server_got h (take count self.old.up.out)) }
        ensures out { self.new.up.out ≡ drop count self.old.up.out }
        ensures reached { self.new ≡ record self.old { up = self.new.up; reached = true } }
    {
        self.reached = true;
        self.up.went(count);
    }

    /// Returns the bytes that the client is to be sent.
    pub fn to_client(&self) -> &[u8]
        ensures { result.now ≡ self.now.down.out }
    {
        self.down.waiting()
    }

    /// The client took this number of them.
    pub fn client_took(&mut self, count: usize)
        requires { count ≤ length self.old.down.out }
        ensures took { (h : ExchangeHistory) → stages.IsForwarding self.old h → stages.IsForwarding self.new (client_got h (take count self.old.down.out)) }
        ensures out { self.new.down.out ≡ drop count self.old.down.out }
        ensures begun { self.new ≡ record self.old { down = self.new.down; begun = begun_after self.old.begun self.old.leave_left count; leave_left = left_after self.old.leave_left count } }
    {
        let (begun, leave_left) = leave_told(self.begun, self.leave_left, count);
        self.begun = begun;
        self.leave_left = leave_left;
        self.down.went(count);
    }

    /// Takes bytes of the answer's body, whether or not the request was sent whole, and returns how many.
    pub fn server_bytes(&mut self, input: &[u8]) -> usize
        requires body { self.old.phase ≡ Down.Body }
        requires first { self.old.down_held.items ≡ [] }
        ensures only { self.new ≡ record self.old { down = self.new.down } }
        ensures all { IsUsedUp self.new.down (drop result input.now) }
        ensures uses { Uses self.old self.new }
        ensures within { result ≤ length input.now }
        ensures passes { (h : ExchangeHistory) → stages.IsForwarding self.old h → stages.IsForwarding self.new (server_came h (take result input.now)) }
    {
        let fed = self.down.take(input);
        fed.used
    }

    /// Takes bytes of the heads before the answer's body, and returns how many. At most 16 KiB are held.
    pub fn server_head_bytes(&mut self, input: &[u8]) -> Result<usize, AllocError>
        ensures only { self.new ≡ record self.old { down_held = self.new.down_held; looks = self.new.looks } }
        ensures uses { Uses self.old self.new }
        ensures within { IfOk result (λ used. used ≤ length input.now) }
        ensures all { IfOk result (λ used. used ≡ min (length input.now) (HEAD_BYTES - length self.old.down_held.items)) }
        ensures held { IfOk result (λ used. self.new.down_held.items ≡ self.old.down_held.items ++ take used input.now) }
        ensures looks { IfOk result (λ used. self.new.looks ≡ looks_again self.old.looks (take used input.now) (length self.new.down_held.items)) }
        ensures passes { IfOk result (λ used. (h : ExchangeHistory) → stages.IsForwarding self.old h → stages.IsForwarding self.new (server_came h (take used input.now))) }
        ensures err { OnErr result ((h : ExchangeHistory) → stages.IsForwarding self.old h → stages.IsForwarding self.new h) }
    {
        let room = HEAD_BYTES.saturating_sub(self.down_held.len());
        let used = input.len().min(room);
        let came = &input[..used];
        match self.down_held.extend_from_slice(came) {
            Ok(()) => {
                self.looks = looks_again(self.looks, came, self.down_held.len());
                Ok(used)
            }
            Err(_) => Err(AllocError),
        }
    }
}

// Says whether bytes after the `100` were taken, and how many bytes of it weren't, once `count` more were.
fn leave_told(begun: bool, left: usize, count: usize) -> (bool, usize)
    ensures { (result.0 ≡ begun_after begun left count) × (result.1 ≡ left_after left count) }
{
    if count <= left {
        (begun, left - count)
    } else {
        (true, 0)
    }
}
