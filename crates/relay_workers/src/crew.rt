ghost use Rattle.std.specs.Prelude.{◌≡◌, ◌+◌, ◌≤◌, ◌⊎◌, List, true, All, [], length, vec_len};
ghost use Rattle.std.specs.Thread.{IsSend};
ghost use Rattle.std.specs.Vec.Iter.{into_iter_items};
ghost use Rattle.proxy_config.specs.declared.parts.Server.{Server};
ghost use Rattle.relay_workers.specs.Crews.{CrewHasChecked, EndsAs, IsOfAll, IsOfCrew, JoinsSeats};
ghost use Rattle.relay_workers.specs.Seats.{IsUnused};
ghost use Rattle.relay_workers.specs.Serving.{HasLeftSeat, SomeHasWorked};
ghost use Rattle.relay_workers.specs.Tallies.{of_both};
ghost use Rattle.relay_workers.specs.declared.stopping.Stopped.TheVariants.{NoMemory};

use crate::checking::checker;
use crate::finished::Finished;
use crate::flag::Stop;
use crate::gate::{Gate, Pause};
use crate::member_seat::{MemberSeat, join_members, split_members};
use crate::proxy::{Proxy, Worker};
use crate::stopping::Stopped;
use crate::tally::Tally;
use grant_board::RelaySeat;
use locked_book::DeskName;
use std::marker::PhantomData;
use std::snapshot::Snapshot;
use std::sync::Wait;
use std::thread::{Promise, Scope, Threads};
use std::{thread, vec};

/// Serves with a thread for each member of a crew, and one more for the checks of servers, until no
/// more clients come to any member. The seat is the board's first one; each member gets a seat that
/// is split off it, and joined again.
///
/// Returns the sum of the members' tallies, or why the first one stopped that did; `NoMemory` also
/// where a thread can't be started. With it comes the gate for the checks, as they left it.
pub fn serve<
    R: Threads + Wait + Sync,
    N: DeskName + Send + Sync,
    G: Gate + Send + Drop,
    P: Pause + Send + Drop,
>(
    rt: &R,
    proxy: &Proxy<N>,
    seat: RelaySeat,
    crew: Vec<(G, P)>,
    checks: (G, P),
) -> (RelaySeat, Result<Tally, Stopped>, Finished<G>)
    requires named { (seat.board ≡ N.board) × (seat.view.terms ≡ N.terms) }
    requires first { seat.view.first ≡ true }
    requires idle { seat.view.passes ≡ [] }
    ensures same { (result.0.board ≡ seat.board) × (result.0.view.terms ≡ seat.view.terms) × (result.0.view.first ≡ true) }
    ensures idle { result.0.view.passes ≡ [] }
    ensures looks { result.0.view.looks ≡ seat.view.looks }
    ensures joined { result.0.view.split + seat.view.joined ≡ result.0.view.joined + seat.view.split }
    ensures each { (result.0.view.split ≡ seat.view.split + vec_len crew) ⊎ (result.1 ≡ Err NoMemory) }
    ensures all { (result.1 ≡ Err NoMemory) ⊎ IsOfCrew (SomeHasWorked G.Client.remaining G.Client.contents G.Server.remaining G.Server.contents N.terms N.setup) G.notes crew.items result.1 }
    ensures checks { CrewHasChecked N.terms N.setup proxy.now.config.servers (G.notes checks.0) (P.most checks.1) (G.notes result.2.gate) }
    ensures joins { JoinsSeats N.terms (HasLeftSeat G.Client.remaining G.Client.contents G.Server.remaining G.Server.contents N.terms N.setup) seat.view result.0.view }
{
    let mut first = seat;
    let Some(mut seats) = split_members(proxy, &mut first, crew.len()) else {
        let (gate, _pause) = checks;
        return (first, Err(Stopped::NoMemory), Finished::of(gate));
    };
    let (all, checked) = run_all(rt, proxy, &mut seats, crew, checks);
    join_members(proxy, &mut first, seats);
    (first, all, checked)
}

// Runs all threads in a scope.
fn run_all<
    R: Threads + Wait + Sync,
    N: DeskName + Send + Sync,
    S: Lends<N> + Sync,
    G: Gate + Send + Drop,
    P: Pause + Send + Drop,
>(
    rt: &R,
    shared: &S,
    seats: &mut Vec<MemberSeat<N, G>>,
    crew: Vec<(G, P)>,
    checks: (G, P),
) -> (Result<Tally, Stopped>, Finished<G>)
    requires few { vec_len crew ≤ vec_len seats.old }
    requires unused { All (λ seat. IsUnused N.terms seat.idle.seat) seats.old.items }
    ensures seats { vec_len seats.new ≡ vec_len seats.old }
    ensures all { IsOfCrew (SomeHasWorked G.Client.remaining G.Client.contents G.Server.remaining G.Server.contents N.terms N.setup) G.notes crew.items result.0 }
    ensures checks { CrewHasChecked N.terms N.setup (S.servers shared.now) (G.notes checks.0) (P.most checks.1) (G.notes result.1.gate) }
{
    let stop = Stop::new();
    let stop = &stop;
    let mut members = crew.into_iter();
    let lent = seats.as_mut_slice();
    thread::scope(
        thread::scope_env(),
        rt,
        move |scope| -> (Result<Tally, Stopped>, Finished<G>)
            requires few { length (into_iter_items members) ≤ length lent.now }
            requires unused { All (λ seat. IsUnused N.terms seat.idle.seat) lent.now }
            ensures all { IsOfCrew (SomeHasWorked G.Client.remaining G.Client.contents G.Server.remaining G.Server.contents N.terms N.setup) G.notes (into_iter_items members) result.0 }
            ensures checks { CrewHasChecked N.terms N.setup (S.servers shared.entry.now) (G.notes checks.0) (P.most checks.1) (G.notes result.1.gate) }
        { run_threads(scope, rt, shared, lent, &mut members, checks, stop) },
    )
}

// Runs a crew, and a thread for the checks beside it. Where that can't be started, the checks are
// told to stop before they begin.
fn run_threads<
    's,
    E,
    R: Threads + Wait + Sync,
    N: DeskName + Send + Sync + 's,
    S: Lends<N> + Sync + 's,
    G: Gate + Send + Drop + 's,
    P: Pause + Send + Drop + 's,
>(
    scope: &Scope<'s, E>,
    rt: &'s R,
    shared: &'s S,
    seats: &'s mut [MemberSeat<N, G>],
    crew: &mut vec::IntoIter<(G, P)>,
    checks: (G, P),
    stop: &'s Stop,
) -> (Result<Tally, Stopped>, Finished<G>)
    requires few { length (into_iter_items crew.old) ≤ length seats.old }
    requires unused { All (λ seat. IsUnused N.terms seat.idle.seat) seats.old }
    ensures all { IsOfCrew (SomeHasWorked G.Client.remaining G.Client.contents G.Server.remaining G.Server.contents N.terms N.setup) G.notes (into_iter_items crew.old) result.0 }
    ensures checks { CrewHasChecked N.terms N.setup (S.servers shared.now) (G.notes checks.0) (P.most checks.1) (G.notes result.1.gate) }
{
    let promise = EndOfChecks::<N, S, G, P> {
        shared: Snapshot::of(shared),
        checks: Snapshot::of(&checks),
        of: PhantomData,
    };
    let checking = scope.spawn_with(
        promise,
        move || -> Finished<G>
            requires { IsSend G.Client.row × IsSend G.Server.row × IsSend G.Check.row × IsSend G.Receipt.row }
            ensures { CrewHasChecked N.terms N.setup (S.servers shared.entry.now) (G.notes checks.0) (P.most checks.1) (G.notes result.gate) }
        {
            let (mut gate, mut pause) = checks;
            checker(rt, shared.proxy(), &mut gate, &mut pause, &stop.view());
            Finished::of(gate)
        },
    );
    let all = run_crew(scope, rt, shared, seats, crew);
    stop.tell();
    match checking {
        Ok(handle) => (all, handle.join(rt)),
        Err(refused) => (all.and(Err(Stopped::NoMemory)), (refused.value)()),
    }
}

// Promises how the thread for these checks ends.
#[derive(Drop)]
struct EndOfChecks<N: DeskName, S: Lends<N>, G: Gate + Drop, P: Pause> {
    shared: Snapshot<S>,
    checks: Snapshot<(G, P)>,
    of: PhantomData<N>,
}

impl<N: DeskName, S: Lends<N>, G: Gate + Drop, P: Pause> Promise<Finished<G>>
    for EndOfChecks<N, S, G, P> {
    ghost kept_by = { λ promise result. CrewHasChecked N.terms N.setup (S.servers promise.shared.value) (G.notes promise.checks.value.0) (P.most promise.checks.value.1) (G.notes result.gate) };
}

// How the thread of a member ends: its result, and its gate.
type End<G> = (Result<Tally, Stopped>, Finished<G>);

// Promises how the thread of a member with this gate ends.
#[derive(Drop)]
struct EndOf<N: DeskName, G: Gate + Drop>(Snapshot<G>, PhantomData<N>);

impl<N: DeskName, G: Gate + Drop> Promise<End<G>> for EndOf<N, G> {
    ghost kept_by = { λ promise result. EndsAs (SomeHasWorked G.Client.remaining G.Client.contents G.Server.remaining G.Server.contents N.terms N.setup) G.notes promise.0.value result };
}

// Starts a thread for each member, which has a seat. One that can't be started isn't run.
fn run_crew<
    's,
    E,
    R: Threads + Wait + Sync,
    N: DeskName + Send + Sync + 's,
    S: Lends<N> + Sync + 's,
    G: Gate + Send + Drop + 's,
    P: Pause + Send + Drop + 's,
>(
    scope: &Scope<'s, E>,
    rt: &'s R,
    shared: &'s S,
    seats: &'s mut [MemberSeat<N, G>],
    crew: &mut vec::IntoIter<(G, P)>,
) -> Result<Tally, Stopped>
    requires few { length (into_iter_items crew.old) ≤ length seats.old }
    requires unused { All (λ seat. IsUnused N.terms seat.idle.seat) seats.old }
    ensures { IsOfAll (SomeHasWorked G.Client.remaining G.Client.contents G.Server.remaining G.Server.contents N.terms N.setup) G.notes (into_iter_items crew.old) result }
{
    let Some((seat, rest)) = seats.split_first_mut() else {
        return Ok(Tally::zero());
    };
    let Some((gate, pause)) = crew.next() else {
        return Ok(Tally::zero());
    };
    let promise = EndOf::<N, G>(Snapshot::of(&gate), PhantomData);
    let started = scope
        .spawn_with(
            promise,
            move || -> End<G>
                requires sends { IsSend G.Client.row × IsSend G.Server.row × IsSend G.Check.row × IsSend G.Receipt.row }
                requires unused { IsUnused N.terms seat.now.idle.seat }
                ensures { EndsAs (SomeHasWorked G.Client.remaining G.Client.contents G.Server.remaining G.Server.contents N.terms N.setup) G.notes gate result }
            {
                match Worker::new(shared.proxy().alloc, gate, pause) {
                    Ok(hand) => seat.work(rt, shared.proxy(), hand),
                    Err((gate, _pause)) => (Err(Stopped::NoMemory), Finished::of(gate)),
                }
            },
        )
        .ok();
    let others = run_crew(scope, rt, shared, rest, crew);
    let Some(handle) = started else {
        return first_stop(Err(Stopped::NoMemory), others);
    };
    let (mine, _) = handle.join(rt);
    first_stop(mine, others)
}

// Returns the sum, or why the first one stopped that did.
fn first_stop(
    mine: Result<Tally, Stopped>,
    others: Result<Tally, Stopped>,
) -> Result<Tally, Stopped>
    ensures { result ≡ of_both mine others }
{
    Ok(mine?.sum(others?))
}

// Lends threads a proxy. Whether a type parameter may be shared is known only from a bound, so this
// trait shows it once, for `Proxy`, where `serve` begins.
trait Lends<N: DeskName> {
    // The servers of its configuration.
    ghost servers: { Self → List Server };

    fn proxy(&self) -> &Proxy<N>
        ensures { result.now.config.servers ≡ servers self.now };
}

impl<N: DeskName> Lends<N> for Proxy<N> {
    ghost servers = { λ proxy. proxy.config.servers };

    fn proxy(&self) -> &Proxy<N> {
        self
    }
}
