ghost use Rattle.std.specs.Prelude.{◌≡◌, ◌<◌, ◌↔◌, [], ◌∷◌, IfSome, IfNone, IsTrue};
ghost use Rattle.std.specs.Bool.{OnTrue, OnFalse};
ghost use Rattle.relay_workers.specs.Carrying.{IsUntouched};
ghost use Rattle.relay_workers.specs.Gates.{noted};
ghost use Rattle.relay_workers.specs.Gates.Notice.{HasLeft};
ghost use Rattle.relay_workers.specs.Waiting.{asked_for, Holds, TakesPass, SpendsPauses};
ghost use Rattle.shared_desk.specs.Seats.{IsSameSeat};

use crate::admitting::Admitted;
use crate::gate::{Gate, Pause};
use crate::proxy::{Proxy, Worker};
use grant_board::{Pass, RelaySeat, Taking};
use locked_book::DeskName;
use std::io::{Read, Write};
use std::sync::Wait;

/// A client whose request has its pass. It can't be dropped: the pass has to be posted.
pub struct Granted<N: DeskName, C: Read + Write> {
    pub admitted: Admitted<N, C>,
    pub pass: Pass,
    pub ghost its_place: { pass.place ≡ admitted.at.place },
    pub ghost its_ticket: { pass.ticket ≡ admitted.at.ticket },
}

impl<N: DeskName, C: Read + Write> Granted<N, C> {
    // Joins a client and the pass of its request's place and ticket.
    fn new(admitted: Admitted<N, C>, pass: Pass) -> Granted<N, C>
        requires { (pass.place ≡ admitted.at.place) × (pass.ticket ≡ admitted.at.ticket) }
        ensures { (result.admitted ≡ admitted) × (result.pass ≡ pass) }
    {
        Granted { admitted, pass }
    }
}

/// From a place to a pass: tries to take it, and between two tries asks whether the client has
/// left, pauses, and makes a turn. A request whose client has left, or whose pauses are spent, is
/// given up; where that is refused because it has its verdict, its pass is taken.
///
/// `None` where all pauses were spent and no pass is there even then: the place stays occupied, and
/// the gate takes the client back.
pub fn wait<R: Wait, N: DeskName, G: Gate + Drop, P: Pause + Drop>(
    rt: &R,
    proxy: &Proxy<N>,
    seat: &mut RelaySeat,
    hand: &mut Worker<G, P>,
    admitted: Admitted<N, G::Client>,
) -> Option<Granted<N, G::Client>>
    requires named { (seat.old.board ≡ N.board) × (seat.old.view.terms ≡ N.terms) }
    requires idle { seat.old.view.passes ≡ [] }
    requires place { admitted.at.place < N.terms.places }
    ensures granted { IfSome result (λ it. seat.new.view.passes ≡ it.pass ∷ []) }
    ensures its_own { IfSome result (λ it. (it.pass.place ≡ admitted.at.place) × (it.pass.ticket ≡ admitted.at.ticket)) }
    ensures its_request { IfSome result (λ it. (it.admitted.at ≡ admitted.at) × (it.admitted.view ≡ admitted.view)) }
    ensures client { IfSome result (λ it. IsUntouched G.Client.remaining G.Client.contents admitted.client it.admitted.client) }
    ensures takes { IfSome result (λ it. TakesPass N.terms N.setup admitted.at it.pass
        (record { notes = G.notes hand.old.runner.gate; left = P.left hand.old.pause; view = seat.old.view })
        (record { notes = G.notes hand.new.runner.gate; left = P.left hand.new.pause; view = seat.new.view })) }
    ensures none { IfNone result (seat.new.view.passes ≡ []) }
    ensures spent { IfNone result ((client_then : G.Client) × IsUntouched G.Client.remaining G.Client.contents admitted.client client_then
        × SpendsPauses N.terms N.setup admitted.at client_then
        (record { notes = G.notes hand.old.runner.gate; left = P.left hand.old.pause; view = seat.old.view })
        (record { notes = G.notes hand.new.runner.gate; left = P.left hand.new.pause; view = seat.new.view })) }
    ensures same { IsSameSeat seat.old seat.new }
    ensures exchange { hand.new.runner.exchange ≡ hand.old.runner.exchange }
{
    let mut admitted = admitted;
    let mut patience = Patience::Waits;
    for _ in rt.forever() {
        match seat.try_take(proxy.desk.board(), admitted.at.place, admitted.at.ticket) {
            Taking::Taken(pass) => return Some(Granted::new(admitted, pass)),
            Taking::NotYet => {}
        }
        if patience.is_spent() {
            admitted.release(&mut hand.runner.gate);
            return None;
        }
        patience = hold(rt, proxy, hand, &mut admitted, patience);
    }
    unreachable!()
}

// Whether a request still waits for its pass.
#[derive(Clone, Copy)]
enum Patience {
    Waits,
    // Its client has left, and it was given up.
    GaveUp,
    // All pauses were spent, and it was given up.
    Spent,
}

impl Patience {
    // Says whether all pauses were spent.
    fn is_spent(self) -> bool
        ensures { IsTrue result ↔ (self ≡ Patience.Spent) }
    {
        matches!(self, Patience::Spent)
    }
}

// Does what is to be done after a try that found no pass.
fn hold<R: Wait, N: DeskName, G: Gate + Drop, P: Pause + Drop>(
    rt: &R,
    proxy: &Proxy<N>,
    hand: &mut Worker<G, P>,
    admitted: &mut Admitted<N, G::Client>,
    patience: Patience,
) -> Patience
    ensures holds { Holds N.terms N.setup admitted.old.at.ticket (G.notes hand.old.runner.gate) (G.notes hand.new.runner.gate) (P.left hand.old.pause) (P.left hand.new.pause) patience result }
    ensures kept { (admitted.new.at ≡ admitted.old.at) × (admitted.new.view ≡ admitted.old.view) }
    ensures client { IsUntouched G.Client.remaining G.Client.contents admitted.old.client admitted.new.client }
    ensures exchange { hand.new.runner.exchange ≡ hand.old.runner.exchange }
{
    let ticket = admitted.at.ticket;
    if has_left(&mut hand.runner.gate, admitted, patience) {
        let _ = proxy.give_up(rt, &mut hand.runner.gate, ticket);
        return Patience::GaveUp;
    }
    if hand.pause.turn() {
        let _ = proxy.turn(rt, &mut hand.runner.gate);
        return patience;
    }
    let _ = proxy.give_up(rt, &mut hand.runner.gate, ticket);
    let _ = proxy.turn(rt, &mut hand.runner.gate);
    Patience::Spent
}

// Says whether a client that waits has left. One that has left before isn't asked again.
fn has_left<N: DeskName, G: Gate>(
    gate: &mut G,
    admitted: &mut Admitted<N, G::Client>,
    patience: Patience,
) -> bool
    ensures kept { (admitted.new.at ≡ admitted.old.at) × (admitted.new.view ≡ admitted.old.view) }
    ensures client { IsUntouched G.Client.remaining G.Client.contents admitted.old.client admitted.new.client }
    ensures left { OnTrue result ((patience ≡ Patience.Waits) × (G.notes gate.new ≡ noted HasLeft (G.notes gate.old))) }
    ensures there { OnFalse result (G.notes gate.new ≡ asked_for patience (G.notes gate.old)) }
{
    match patience {
        Patience::Waits => gate.gone(&mut admitted.client),
        Patience::GaveUp | Patience::Spent => false,
    }
}
