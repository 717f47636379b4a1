//! The seats of a crew's members.
//!
//! What a thread left of a value that it was lent has no name in a contract. So what may have been
//! done with a member's seat is in its type, and no code but this file's reaches the seat in it.

ghost use Rattle.std.specs.Prelude.{◌≡◌, ◌+◌, [], ◌++◌, true, All, reverse, vec_len, IfSome, IfNone};
ghost use Rattle.std.specs.List.{flat_map};
ghost use Rattle.relay_http.specs.States.{IsFresh};
ghost use Rattle.relay_workers.specs.Crews.{IsMemberSeat};
ghost use Rattle.relay_workers.specs.Seats.{IsLent, IsUnused};
ghost use Rattle.relay_workers.specs.Serving.{HasLeftSeat, SomeHasWorked};

use crate::finished::Finished;
use crate::gate::{Gate, Pause};
use crate::proxy::{Proxy, Worker};
use crate::stopping::{Stopped, TURNS};
use crate::tally::Tally;
use crate::working::worker;
use board_seats::Idle;
use grant_board::RelaySeat;
use locked_book::DeskName;
use std::marker::PhantomData;
use std::sync::Wait;

/// The seat of a member whose gate is a G. It has done nothing, or is as a worker left it whose work
/// a gate noted. It can't be dropped: the first seat joins it.
pub(crate) struct MemberSeat<N: DeskName, G: Gate> {
    idle: Idle<N>,
    of: PhantomData<G>,
    ghost its: { ∥ IsMemberSeat N.terms (HasLeftSeat G.Client.remaining G.Client.contents G.Server.remaining G.Server.contents N.terms N.setup) idle.seat ∥₁ },
}

impl<N: DeskName, G: Gate + Drop> MemberSeat<N, G> {
    /// Makes it of a seat that was split off.
    fn new(idle: Idle<N>) -> MemberSeat<N, G>
        requires { IsUnused N.terms idle.seat }
        ensures { result.idle ≡ idle }
    {
        MemberSeat {
            idle,
            of: PhantomData,
        }
    }

    /// Serves the clients of a gate, as `worker` does, and keeps the gate.
    pub(crate) fn work<R: Wait, P: Pause + Drop>(
        &mut self,
        rt: &R,
        proxy: &Proxy<N>,
        hand: Worker<G, P>,
    ) -> (Result<Tally, Stopped>, Finished<G>)
        requires unused { IsUnused N.terms self.old.idle.seat }
        requires fresh { IsFresh TURNS hand.runner.exchange }
        ensures { SomeHasWorked G.Client.remaining G.Client.contents G.Server.remaining G.Server.contents N.terms N.setup result.0 (G.notes hand.runner.gate) (G.notes result.1.gate) }
    {
        let mut hand = hand;
        let result = worker(rt, proxy, &mut self.idle, &mut hand);
        (result, Finished::new(hand))
    }

    /// Returns the seat, to be joined.
    fn into_seat(self) -> RelaySeat
        ensures seat { result ≡ self.idle.seat }
        ensures named { result.board ≡ N.board }
        ensures terms { result.view.terms ≡ N.terms }
        ensures idle { result.view.passes ≡ [] }
    {
        let MemberSeat { idle, of: _ } = self;
        idle.seat()
    }
}

/// Splits off a seat for each member of a crew. `None`, and no seat is split off, where there is no
/// memory for them.
pub(crate) fn split_members<N: DeskName, G: Gate + Drop>(
    proxy: &Proxy<N>,
    first: &mut RelaySeat,
    count: usize,
) -> Option<Vec<MemberSeat<N, G>>>
    requires named { (first.old.board ≡ N.board) × (first.old.view.terms ≡ N.terms) }
    requires first { first.old.view.first ≡ true }
    ensures count { IfSome result (λ seats. vec_len seats ≡ count) }
    ensures unused { IfSome result (λ seats. All (λ seat. IsUnused N.terms seat.idle.seat) seats.items) }
    ensures split { IfSome result (λ seats. first.new ≡ record first.old { view = record first.old.view { split = first.old.view.split + count } }) }
    ensures none { IfNone result (first.new ≡ first.old) }
{
    let mut seats = Vec::with_capacity(proxy.alloc, count).ok()?;
    for _ in 0..count {
        seats.push_reserved(MemberSeat::new(Idle::new(first.split(proxy.desk.board()))));
    }
    Some(seats)
}

/// Joins the seats of all members again, the last one first.
pub(crate) fn join_members<N: DeskName, G: Gate + Drop>(
    proxy: &Proxy<N>,
    first: &mut RelaySeat,
    seats: Vec<MemberSeat<N, G>>,
)
    requires named { (first.old.board ≡ N.board) × (first.old.view.terms ≡ N.terms) }
    requires first { first.old.view.first ≡ true }
    ensures lent { IsLent first.old first.new (vec_len seats) 0 }
    ensures split { first.new.view.split ≡ first.old.view.split }
    ensures takes { first.new.view.takes ≡ first.old.view.takes ++ flat_map (λ seat. seat.idle.seat.view.takes) (reverse seats.items) }
    ensures posts { first.new.view.posts ≡ first.old.view.posts ++ flat_map (λ seat. seat.idle.seat.view.posts) (reverse seats.items) }
{
    let mut seats = seats;
    while let Some(seat) = seats.pop() {
        first.join(proxy.desk.board(), seat.into_seat());
    }
    seats.destroy_empty();
}
