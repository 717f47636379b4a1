ghost use Rattle.std.specs.Prelude.{◌≡◌, ℕ, [], Err, IfSome, IfNone};
ghost use Rattle.relay_http.specs.States.{IsFresh};
ghost use Rattle.relay_http.specs.declared.exchange.Stage.TheVariants.{Asked};
ghost use Rattle.relay_workers.specs.Gates.{noted};
ghost use Rattle.relay_workers.specs.Gates.Notice.{NoMore};
ghost use Rattle.relay_workers.specs.Serving.{with_client, HasEnded, HasSpentPauses, HasWorked};
ghost use Rattle.relay_workers.specs.Tallies.{tally_noted};
ghost use Rattle.shared_desk.specs.Seats.{IsSameSeat};

use crate::admitting::admit;
use crate::finishing::finish;
use crate::gate::{Gate, Pause};
use crate::outcome::Outcome;
use crate::proxy::{Proxy, Worker};
use crate::stopping::Stopped;
use crate::tally::Tally;
use crate::waiting::wait;
use board_seats::Idle;
use grant_board::RelaySeat;
use locked_book::DeskName;
use std::sync::Wait;

/// Serves one client after the other, until no more come, and counts the outcome of each. It stops
/// where all pauses of a wait are spent.
pub fn worker<R: Wait, N: DeskName, G: Gate + Drop, P: Pause + Drop>(
    rt: &R,
    proxy: &Proxy<N>,
    idle: &mut Idle<N>,
    hand: &mut Worker<G, P>,
) -> Result<Tally, Stopped>
    ensures same { IsSameSeat idle.old.seat idle.new.seat }
    ensures worked { HasWorked G.Client.remaining G.Client.contents G.Server.remaining G.Server.contents N.terms N.setup proxy.now.config result
        hand.old.runner.exchange hand.new.runner.exchange
        (record { notes = G.notes hand.old.runner.gate; left = P.left hand.old.pause; view = idle.old.seat.view })
        (record { notes = G.notes hand.new.runner.gate; left = P.left hand.new.pause; view = idle.new.seat.view }) }
{
    let mut tally = Tally::zero();
    for _ in rt.forever() {
        match serve_next(rt, proxy, &mut idle.seat, hand, &mut tally) {
            Next::Served => {}
            Next::NoMore => return Ok(tally),
            Next::Spent => return Err(Stopped::PausesSpent),
        }
    }
    unreachable!()
}

// What came of the wish for another client.
enum Next {
    Served,
    NoMore,
    // All pauses of its wait were spent.
    Spent,
}

// Serves the next client, and counts its outcome.
fn serve_next<R: Wait, N: DeskName, G: Gate + Drop, P: Pause + Drop>(
    rt: &R,
    proxy: &Proxy<N>,
    seat: &mut RelaySeat,
    hand: &mut Worker<G, P>,
    tally: &mut Tally,
) -> Next
    requires named { (seat.old.board ≡ N.board) × (seat.old.view.terms ≡ N.terms) }
    requires idle { seat.old.view.passes ≡ [] }
    ensures idle { seat.new.view.passes ≡ [] }
    ensures same { IsSameSeat seat.old seat.new }
    ensures served { result ≡ Next.Served → (outcome : Outcome) × (client : G.Client) × (pauses : ℕ)
        × HasEnded G.Client.remaining G.Client.contents G.Server.remaining G.Server.contents N.terms N.setup proxy.now.config hand.new.runner.exchange outcome client
        (with_client client pauses (record { notes = G.notes hand.old.runner.gate; left = P.left hand.old.pause; view = seat.old.view }))
        (record { notes = G.notes hand.new.runner.gate; left = P.left hand.new.pause; view = seat.new.view })
        × (tally.new ≡ tally_noted outcome tally.old) }
    ensures most { hand.new.runner.exchange.most ≡ hand.old.runner.exchange.most }
    ensures no_more { result ≡ Next.NoMore → (tally.new ≡ tally.old) × (seat.new.view ≡ seat.old.view) × (G.notes hand.new.runner.gate ≡ noted NoMore (G.notes hand.old.runner.gate)) × (hand.new.runner.exchange ≡ hand.old.runner.exchange)
        × (P.left hand.new.pause ≡ P.left hand.old.pause) }
    ensures asked { result ≡ Next.Spent → hand.new.runner.exchange.stage ≡ Asked }
    ensures spent { result ≡ Next.Spent → (client : G.Client) × (pauses : ℕ)
        × HasSpentPauses G.Client.remaining G.Client.contents N.terms N.setup proxy.now.config hand.new.runner.exchange client
        (with_client client pauses (record { notes = G.notes hand.old.runner.gate; left = P.left hand.old.pause; view = seat.old.view }))
        (record { notes = G.notes hand.new.runner.gate; left = P.left hand.new.pause; view = seat.new.view }) }
{
    let Some(client) = hand.runner.gate.next() else {
        return Next::NoMore;
    };
    hand.pause.begin();
    hand.runner.exchange.renew();
    let Some(outcome) = attend(rt, proxy, seat, hand, client) else {
        return Next::Spent;
    };
    tally.note(outcome);
    Next::Served
}

// Serves one client, from its request to the end of its answer. `None` where its pauses were spent.
fn attend<R: Wait, N: DeskName, G: Gate + Drop, P: Pause + Drop>(
    rt: &R,
    proxy: &Proxy<N>,
    seat: &mut RelaySeat,
    hand: &mut Worker<G, P>,
    client: G::Client,
) -> Option<Outcome>
    requires named { (seat.old.board ≡ N.board) × (seat.old.view.terms ≡ N.terms) }
    requires idle { seat.old.view.passes ≡ [] }
    requires fresh { IsFresh hand.old.runner.exchange.most hand.old.runner.exchange }
    requires rested { P.left hand.old.pause ≡ P.most hand.old.pause }
    ensures idle { seat.new.view.passes ≡ [] }
    ensures same { IsSameSeat seat.old seat.new }
    ensures most { hand.new.runner.exchange.most ≡ hand.old.runner.exchange.most }
    ensures ended { IfSome result (λ outcome. HasEnded G.Client.remaining G.Client.contents G.Server.remaining G.Server.contents N.terms N.setup proxy.now.config hand.new.runner.exchange outcome client
        (record { notes = G.notes hand.old.runner.gate; left = P.left hand.old.pause; view = seat.old.view })
        (record { notes = G.notes hand.new.runner.gate; left = P.left hand.new.pause; view = seat.new.view })) }
    ensures asked { IfNone result (hand.new.runner.exchange.stage ≡ Asked) }
    ensures given_up { IfNone result (HasSpentPauses G.Client.remaining G.Client.contents N.terms N.setup proxy.now.config hand.new.runner.exchange client
        (record { notes = G.notes hand.old.runner.gate; left = P.left hand.old.pause; view = seat.old.view })
        (record { notes = G.notes hand.new.runner.gate; left = P.left hand.new.pause; view = seat.new.view })) }
{
    let mut admitted = match admit(rt, proxy, &mut hand.runner, client) {
        Ok(admitted) => admitted,
        Err(outcome) => return Some(outcome),
    };
    for _ in rt.forever() {
        let Some(granted) = wait(rt, proxy, seat, hand, admitted) else {
            return None;
        };
        match finish(rt, proxy, seat, &mut hand.runner, granted) {
            Ok(outcome) => return Some(outcome),
            Err(again) => admitted = again,
        }
    }
    unreachable!()
}
