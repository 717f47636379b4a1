//! The end of an exchange at which both sides were active: its pass, and what is left.

ghost use Rattle.std.specs.Prelude.{◌≡◌, ◌≢◌, ◌⊎◌, [], true, false, IsTrue};
ghost use Rattle.http_bodies.specs.Stops.{is_bad, is_done};
ghost use Rattle.exchange_machine.specs.Answerings.{has_answered};
ghost use Rattle.exchange_machine.specs.Changes.{IsLeftOf, EndsRefused};
ghost use Rattle.exchange_machine.specs.Histories.{ExchangeHistory, posted, retried};
ghost use Rattle.exchange_machine.specs.Reasons.{Reason};
ghost use Rattle.exchange_machine.specs.Repeatables as repeats;
ghost use Rattle.exchange_machine.specs.Settlings as settling;
ghost use Rattle.exchange_machine.specs.Stages as stages;
ghost use Rattle.base_verdict.specs.declared.Ending.TheVariants as ending;

use crate::dialing::Dialing;
use crate::forwarding::Forwarding;
use crate::leaving::Leaving;
use crate::repeating::{is_bare, is_idempotent};
use crate::settling::Settling;
use crate::sides::Down;
use crate::texts::put_text;
use crate::waiting::{Asked, Waiting};
use grant_board::Pass;
use http_texts::{Code, Persistence};

/// What is left of an exchange whose pass is to be posted.
#[derive(Drop)]
pub enum Rest {
    /// Its client may ask again.
    Settling(Settling),
    /// The connection is closed once the last bytes are sent.
    Leaving(Leaving),
}

/// A pass to be posted as done, and what is left: the client may ask again, or the connection is closed.
pub struct Settled {
    pub pass: Pass,
    pub rest: Rest,
}

/// A pass to be posted as done, and a connection that is closed once the last bytes are sent.
pub struct Ended {
    pub pass: Pass,
    pub rest: Leaving,
}

impl Forwarding {
    /// The client is sent this refusal in place of an answer of which it took no byte, after what
    /// it took of the `100`.
    pub fn refuse(self, code: Code) -> Ended
        requires { self.begun ≡ false }
        ensures refused { EndsRefused self code result }
        ensures leaves { (h : ExchangeHistory) → (is : stages.IsForwarding self h) → Reason h.signs self.view is.behind h.server_in code
            → stages.IsLeaving result.rest (posted h result.pass ending.Done) }
    {
        let leave_left = self.leave_left;
        let Ended { pass, rest } = self.end();
        let Leaving { mut out, .. } = rest;
        out.keep_front(leave_left);
        let _ = put_text(&mut out, code.text());
        Ended {
            pass,
            rest: Leaving {
                out,
                whole: false,
                clean: false,
            },
        }
    }

    /// The server's input ended before the answer did: 502.
    pub fn refuse_unanswered(self) -> Ended
        requires none { self.begun ≡ false }
        requires ended { self.ended ≡ true }
        ensures refused { EndsRefused self Code.BadGateway result }
        ensures leaves { (h : ExchangeHistory) → stages.IsForwarding self h → stages.IsLeaving result.rest (posted h result.pass ending.Done) }
    {
        self.refuse(Code::BadGateway)
    }

    /// The bytes after the answer's head can't be its body: 502.
    pub fn refuse_broken(self) -> Ended
        requires none { self.begun ≡ false }
        requires body { self.phase ≡ Down.Body }
        requires bad { is_bad self.down.coding ≡ true }
        ensures refused { EndsRefused self Code.BadGateway result }
        ensures leaves { (h : ExchangeHistory) → stages.IsForwarding self h → stages.IsLeaving result.rest (posted h result.pass ending.Done) }
    {
        self.refuse(Code::BadGateway)
    }

    /// The bytes after the request's head can't be its body: 400.
    pub fn refuse_request(self) -> Ended
        requires none { self.begun ≡ false }
        requires bad { is_bad self.up.coding ≡ true }
        ensures refused { EndsRefused self Code.BadRequest result }
        ensures leaves { (h : ExchangeHistory) → stages.IsForwarding self h → stages.IsLeaving result.rest (posted h result.pass ending.Done) }
    {
        self.refuse(Code::BadRequest)
    }

    /// The client has left: nothing more is written, and the pass is posted as done, since the
    /// server isn't to blame.
    pub fn abandon(self) -> Pass
        ensures ends { (h : ExchangeHistory) → stages.IsForwarding self h → stages.IsOver (posted h result ending.Done) }
        ensures pass { result ≡ self.pass }
    {
        let Ended { pass, rest: _ } = self.end();
        pass
    }

    /// Says whether the request may be sent again on another connection: no byte of an answer came
    /// and it has no body; and no byte of it reached a server, or the present connection was used
    /// before and the request is idempotent.
    pub fn can_repeat(&self) -> bool
        ensures may { IsTrue result → repeats.IsSentAgain self.now }
        ensures each { repeats.IsSentAgain self.now → IsTrue result }
    {
        (!self.reached || !self.fresh && is_idempotent(self.view.method()))
            && self.phase == Down::Heads(0)
            && self.down_held.is_empty()
            && is_bare(self.framing)
    }

    /// The server's connection broke: the same request is sent on another one, under the same pass.
    pub fn again(self) -> Dialing
        requires { repeats.IsRepeatable self }
        ensures dials { (h : ExchangeHistory) → stages.IsForwarding self h → (h.server_in ≡ []) × stages.IsDialing result (retried h) }
        ensures same { (result.pass ≡ self.pass) × (result.reached ≡ self.reached) × (result.waiting.asked.view ≡ self.view)
            × (result.waiting.asked.framing ≡ self.framing) × (result.waiting.asked.held ≡ self.up_held) }
    {
        let Forwarding {
            view,
            pass,
            up: _,
            up_held,
            cut: _,
            phase: _,
            down: _,
            down_held: _,
            reached,
            framing,
            fresh: _,
            adds: _,
            willing: _,
            says: _,
            kept: _,
            ended: _,
            well: _,
            looks: _,
            begun: _,
            leave_left: _,
            dialing: _,
        } = self;
        Dialing {
            waiting: Waiting {
                asked: Asked {
                    view,
                    framing,
                    held: up_held,
                },
            },
            pass,
            reached,
        }
    }

    /// Says whether no byte of the request reached a server, and no byte of an answer came.
    pub fn is_untouched(&self) -> bool
        ensures may { IsTrue result → repeats.IsUntouched self.now }
        ensures each { repeats.IsUntouched self.now → IsTrue result }
    {
        !self.reached && self.phase == Down::Heads(0) && self.down_held.is_empty()
    }

    /// The server's connection broke before it took a byte: the bytes that wait for the server are
    /// sent on another one as they are, under the same pass.
    pub fn redial(&mut self)
        requires { repeats.IsUntouched self.old }
        ensures dials { (h : ExchangeHistory) → stages.IsForwarding self.old h → (h.server_in ≡ []) × stages.IsForwarding self.new (retried h) }
        ensures same { self.new ≡ record self.old { cut = false; ended = false; well = false; dialing = true } }
    {
        self.cut = false;
        self.ended = false;
        self.well = false;
        self.dialing = true;
    }

    /// Says whether both messages were read to their ends, and the client was told that it may ask again.
    pub fn is_whole(&self) -> bool
        ensures whole { IsTrue result → (self.now.phase ≡ Down.Body) × (is_done self.now.up.coding ≡ true) × (is_done self.now.down.coding ≡ true)
            × (self.now.says ≢ Persistence.Close) }
        ensures each { self.now.phase ≡ Down.Body → is_done self.now.up.coding ≡ true → is_done self.now.down.coding ≡ true
            → self.now.says ≢ Persistence.Close → IsTrue result }
    {
        if self.says == Persistence::Close {
            return false;
        }
        match self.phase {
            Down::Heads(_) => false,
            Down::Body => self.up.is_whole() && self.down.is_whole(),
        }
    }

    /// Says whether nothing is left on the server's side: both messages were read to their marked
    /// ends, the request has no body and was sent whole, nothing came after the answer, and the
    /// server was asked to keep its connection open, and does. (A server that doesn't read a body
    /// would take it for the next request.)
    pub fn is_clean(&self) -> bool
        ensures { result ≡ settling.is_clean self.now }
    {
        asks_to_persist(self.adds.asks)
            && self.kept
            && self.up.waiting().is_empty()
            && self.down_held.is_empty()
            && self.up.is_whole()
            && self.is_done_at()
            && is_bare(self.framing)
    }

    // Says whether the answer was read to its marked end.
    fn is_done_at(&self) -> bool
        ensures { result ≡ settling.is_done_at self.now.phase self.now.down.coding }
    {
        match self.phase {
            Down::Heads(_) => false,
            Down::Body => self.down.is_whole(),
        }
    }

    /// Ends the exchange: its pass is to be posted. Where both messages were whole the client may ask again.
    pub fn settle(self) -> Settled
        ensures pass { result.pass ≡ self.pass }
        ensures left { IsLeftOf self result.rest }
        ensures ends { (h : ExchangeHistory) → stages.IsForwarding self h → settling.IsRest result.rest (posted h result.pass ending.Done) }
        ensures whole { settling.IsMarked (has_answered self) result.rest }
        ensures clean { settling.IsCleanAs (settling.is_clean self) result.rest }
    {
        if self.is_whole() {
            return self.settle_whole();
        }
        let whole = self.has_answered();
        let clean = self.is_clean();
        let Ended { pass, rest } = self.end_as(whole, clean);
        Settled {
            pass,
            rest: Rest::Leaving(rest),
        }
    }

    fn settle_whole(self) -> Settled
        requires { (self.phase ≡ Down.Body) × (is_done self.up.coding ≡ true) × (is_done self.down.coding ≡ true) × (self.says ≢ Persistence.Close) }
        ensures pass { result.pass ≡ self.pass }
        ensures left { IsLeftOf self result.rest }
        ensures ends { (h : ExchangeHistory) → stages.IsForwarding self h → settling.IsRest result.rest (posted h result.pass ending.Done) }
        ensures whole { settling.IsMarked (has_answered self) result.rest }
        ensures clean { settling.IsCleanAs (settling.is_clean self) result.rest }
    {
        let clean = self.is_clean();
        let Forwarding {
            view: _,
            pass,
            up: _,
            up_held,
            cut: _,
            phase: _,
            down,
            down_held: _,
            reached: _,
            framing: _,
            fresh: _,
            adds: _,
            willing: _,
            says: _,
            kept: _,
            ended: _,
            well: _,
            looks: _,
            begun: _,
            leave_left: _,
            dialing: _,
        } = self;
        Settled {
            pass,
            rest: Rest::Settling(Settling {
                out: down,
                behind: up_held,
                clean,
            }),
        }
    }

    /// Ends the exchange at any stage: its pass is to be posted as done, since nothing is tried again.
    pub fn end(self) -> Ended
        ensures ends { (h : ExchangeHistory) → stages.IsForwarding self h → stages.IsLeaving result.rest (posted h result.pass ending.Done) }
        ensures pass { result.pass ≡ self.pass }
        ensures rest { (result.rest.out ≡ self.down) × (result.rest.whole ≡ false) × (result.rest.clean ≡ false) }
    {
        self.end_as(false, false)
    }

    // Ends it, with the knowledge whether its answer was read whole, and whether its server's
    // connection can be used again.
    fn end_as(self, whole: bool, clean: bool) -> Ended
        requires whole { whole ≡ true → has_answered self ≡ true }
        requires clean { clean ≡ true → settling.is_clean self ≡ true }
        ensures ends { (h : ExchangeHistory) → stages.IsForwarding self h → stages.IsLeaving result.rest (posted h result.pass ending.Done) }
        ensures pass { result.pass ≡ self.pass }
        ensures rest { (result.rest.out ≡ self.down) × (result.rest.whole ≡ whole) × (result.rest.clean ≡ clean) }
    {
        let Forwarding {
            view: _,
            pass,
            up: _,
            up_held: _,
            cut: _,
            phase: _,
            down,
            down_held: _,
            reached: _,
            framing: _,
            fresh: _,
            adds: _,
            willing: _,
            says: _,
            kept: _,
            ended: _,
            well: _,
            looks: _,
            begun: _,
            leave_left: _,
            dialing: _,
        } = self;
        Ended {
            pass,
            rest: Leaving {
                out: down,
                whole,
                clean,
            },
        }
    }
}

// Says whether a server was asked to keep its connection open.
fn asks_to_persist(asks: Persistence) -> bool
    ensures { result ≡ settling.asks_to_persist asks }
{
    match asks {
        Persistence::Persist => true,
        Persistence::Close | Persistence::KeepAlive => false,
    }
}
