ghost use Rattle.std.specs.Prelude.{◌≡◌, Bool, Option};
ghost use Rattle.std.specs.Bool.{OnTrue, OnFalse};
ghost use Rattle.proxy_config.specs.declared.parts.Checks.{Checks};
ghost use Rattle.relay_workers.specs.Checks.{later_by, IsDue, Looks, IsRound, HasEndedChecks};
ghost use Rattle.relay_workers.specs.Gates.{noted};
ghost use Rattle.relay_workers.specs.Gates.Notice.{Found, NotYet};
ghost use Rattle.relay_workers.specs.Turning.{Reports};

use crate::flag::StopFlag;
use crate::gate::{EndedCheck, Gate, Pause};
use crate::proxy::Proxy;
use due_key::Moment;
use locked_book::DeskName;
use proxy_config::{Checks, Server};
use std::sync::Wait;

const MOST_SERVERS: usize = 64;

/// Checks each server with `check`, at once and then each time its `inter` has passed since its
/// last check ended, and tells the dispatcher. It ends when it is told to stop, or its pauses are
/// spent. It allocates only where the log is full, for the reports of the window that ends.
pub fn checker<R: Wait, N: DeskName, G: Gate, P: Pause, S: StopFlag>(
    rt: &R,
    proxy: &Proxy<N>,
    gate: &mut G,
    pause: &mut P,
    stop: &S,
)
    ensures { HasEndedChecks (S.told stop.now) N.terms N.setup proxy.now.config.servers (G.notes gate.old) (P.most pause.old) (G.notes gate.new) (P.left pause.new) }
{
    let mut next_checks = [Moment::zero(); MOST_SERVERS];
    pause.begin();
    for _ in rt.forever() {
        if let Some(_sign) = stop.sign() {
            return;
        }
        check_each(rt, proxy, gate, &mut next_checks);
        if !pause.turn() {
            return;
        }
    }
}

// Looks once at each server whose check is due.
fn check_each<R: Wait, N: DeskName, G: Gate>(
    rt: &R,
    proxy: &Proxy<N>,
    gate: &mut G,
    next_checks: &mut [Moment; MOST_SERVERS],
)
    ensures { IsRound N.terms N.setup proxy.now.config.servers next_checks.old next_checks.new (G.notes gate.old) (G.notes gate.new) }
{
    let now = gate.moment();
    for number in 0..MOST_SERVERS {
        let next = next_checks[number];
        next_checks[number] = look(rt, proxy, gate, At { now, number, next });
    }
}

// A server in a round that began now, and when its next check is due.
#[derive(Clone, Copy)]
struct At {
    now: Moment,
    number: usize,
    next: Moment,
}

// Looks at a server where its check is due. Returns when its next check is due then.
fn look<R: Wait, N: DeskName, G: Gate>(rt: &R, proxy: &Proxy<N>, gate: &mut G, at: At) -> Moment
    ensures { (checks : Option Checks) × IsDue proxy.now.config.servers at.number at.next at.now checks
        × Looks N.terms N.setup at.now at.number checks at.next result (G.notes gate.old) (G.notes gate.new) }
{
    let At { now, number, next } = at;
    match due(proxy.config.servers.as_slice(), at) {
        Some(checks) => {
            if check_one(rt, proxy, gate, number) {
                after(now, checks.inter)
            } else {
                next
            }
        }
        None => next,
    }
}

// Returns the checks of a server, where one is due.
fn due(servers: &[Server], at: At) -> Option<Checks>
    ensures { IsDue servers.now at.number at.next at.now result }
{
    let checks = servers.get(at.number)?.check?;
    if at.next <= at.now {
        Some(checks)
    } else {
        None
    }
}

// Looks at the check of a server, and reports its result where it is over. Says whether it is.
fn check_one<R: Wait, N: DeskName, G: Gate>(
    rt: &R,
    proxy: &Proxy<N>,
    gate: &mut G,
    server: usize,
) -> bool
    ensures over { OnTrue result ((ok : Bool) × Reports N.terms N.setup server ok (noted (Found server ok) (G.notes gate.old)) (G.notes gate.new)) }
    ensures not_yet { OnFalse result (G.notes gate.new ≡ noted (NotYet server) (G.notes gate.old)) }
{
    match gate.probe(server) {
        Some(check) => {
            let ok = check.has_passed();
            // A result that the dispatcher refuses is dropped.
            let _ = proxy.note_check(rt, gate, server, ok);
            true
        }
        None => false,
    }
}

// Returns a moment this number of milliseconds later, or the last moment.
fn after(moment: Moment, millis: u64) -> Moment
    ensures { result ≡ later_by millis moment }
{
    let last = (1 << 62) - 1;
    match Moment::new(moment.get().saturating_add(millis).min(last)) {
        Some(later) => later,
        None => unreachable!(),
    }
}
