ghost use Rattle.std.specs.Prelude.{◌≡◌, [], false, IfOk, IfErr};
ghost use Rattle.exchange_machine.specs.Changes.{IsBegunOn};
ghost use Rattle.exchange_machine.specs.Histories.{ExchangeHistory, connected_on, posted};
ghost use Rattle.exchange_machine.specs.Repeatables as repeats;
ghost use Rattle.exchange_machine.specs.Stages as stages;
ghost use Rattle.http_texts.specs.Replies.{leave_text};
ghost use Rattle.http_texts.specs.Texts.{request_text};
ghost use Rattle.base_verdict.specs.declared.Ending.TheVariants as ending;

use crate::forwarding::Forwarding;
use crate::repeating::{is_bare, is_idempotent};
use crate::sides::Down;
use crate::texts::{put_leave, put_request};
use crate::waiting::{Asked, Waiting};
use crate::way::Way;
use grant_board::Pass;
use http_texts::{Additions, Persistence};
use std::alloc::Global;

/// An exchange that has its pass, and whose server is being connected to.
pub struct Dialing {
    pub(crate) waiting: Waiting,
    pub(crate) pass: Pass,
    /// A byte of the request reached the server, on a connection that broke.
    pub(crate) reached: bool,
}

/// The terms of use of a server's connection.
#[derive(Clone, Copy, Debug, PartialEq, Eq)]
pub struct Terms {
    /// The fields that are added to the request.
    pub adds: Additions,
    /// The proxy is willing to serve its client further.
    pub willing: bool,
    /// The connection was opened for this request.
    pub fresh: bool,
}

impl Dialing {
    /// The client has left: the pass is posted as done, since the server isn't to blame.
    pub fn abandon(self) -> Pass
        ensures ends { (h : ExchangeHistory) → stages.IsDialing self h → stages.IsOver (posted h result ending.Done) }
        ensures pass { result ≡ self.pass }
    {
        let Dialing {
            waiting: _,
            pass,
            reached: _,
        } = self;
        pass
    }

    /// Returns its pass.
    pub fn pass(&self) -> &Pass
        ensures { result.now ≡ self.now.pass }
    {
        &self.pass
    }

    /// Says whether a byte of the request reached a server on an earlier connection.
    pub fn has_reached(&self) -> bool
        ensures { result ≡ self.now.reached }
    {
        self.reached
    }

    /// Says whether the request may go out on a used connection, which its server may be closing:
    /// it has no body and is idempotent (RFC 9110, section 9.2.2), so it can be sent again.
    pub fn takes_used(&self) -> bool
        ensures { result ≡ repeats.takes_used self.now }
    {
        is_idempotent(self.waiting.asked.view.method()) && is_bare(self.waiting.asked.framing)
    }

    /// The server can't be reached, and no byte reached one before: the pass is posted as failed,
    /// and the exchange may wait for another.
    pub fn fail(self) -> (Waiting, Pass)
        requires { self.reached ≡ false }
        ensures waits { (h : ExchangeHistory) → stages.IsDialing self h → stages.IsWaiting result.0 (posted h result.1 ending.Failed) }
        ensures same { (result.0 ≡ self.waiting) × (result.1 ≡ self.pass) }
    {
        let Dialing {
            waiting,
            pass,
            reached: _,
        } = self;
        (waiting, pass)
    }

    /// The exchange makes no more tries: the pass is posted as done, and the client is to be told why.
    pub fn give_up(self) -> (Waiting, Pass)
        ensures waits { (h : ExchangeHistory) → stages.IsDialing self h → stages.IsWaiting result.0 (posted h result.1 ending.Done) }
        ensures same { (result.0 ≡ self.waiting) × (result.1 ≡ self.pass) }
    {
        let Dialing {
            waiting,
            pass,
            reached: _,
        } = self;
        (waiting, pass)
    }

    /// The server was reached: the request's head is sent, and both sides are active from now on.
    /// Where there is no memory or no room for the head, nothing changes.
    pub fn connected(
        self,
        alloc: Global,
        mut up: Way,
        mut down: Way,
        terms: Terms,
    ) -> Result<Forwarding, Dialing>
        requires up { up.out ≡ [] }
        requires down { down.out ≡ [] }
        ensures passes { IfOk result (λ forwarding. (h : ExchangeHistory) → stages.IsDialing self h → stages.IsForwarding forwarding (connected_on h terms.adds)) }
        ensures begins { IfOk result (IsBegunOn self terms) }
        ensures same { IfErr result (λ dialing. dialing ≡ self) }
    {
        let fits = put_request(
            &mut up,
            alloc,
            &self.waiting.asked.view,
            self.waiting.asked.framing,
            terms.adds,
        );
        if !fits {
            return Err(self);
        }
        put_leave(&mut down, &self.waiting.asked.view);
        Ok(self.begin(alloc, up, down, terms))
    }

    // Begins both sides, after the request's head and the `100`.
    fn begin(self, alloc: Global, mut up: Way, down: Way, terms: Terms) -> Forwarding
        requires up { up.out ≡ request_text terms.adds self.waiting.asked.view self.waiting.asked.framing }
        requires down { down.out ≡ leave_text self.waiting.asked.view }
        ensures passes { (h : ExchangeHistory) → stages.IsDialing self h → stages.IsForwarding result (connected_on h terms.adds) }
        ensures begins { IsBegunOn self terms result }
    {
        up.begin(self.waiting.asked.framing, true);
        let leave_left = down.waiting().len();
        let Dialing {
            waiting,
            pass,
            reached,
        } = self;
        let Waiting { asked } = waiting;
        let Asked {
            view,
            framing,
            held,
        } = asked;
        Forwarding {
            view,
            pass,
            up,
            up_held: held,
            cut: false,
            phase: Down::Heads(0),
            down,
            down_held: Vec::new(alloc),
            reached,
            framing,
            fresh: terms.fresh,
            adds: terms.adds,
            willing: terms.willing,
            says: Persistence::Close,
            kept: false,
            ended: false,
            well: false,
            looks: false,
            begun: false,
            leave_left,
            dialing: false,
        }
    }
}
