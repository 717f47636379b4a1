//! The first request outside: it is admitted, or somebody found that nothing is to be admitted.

ghost use Rattle.std.specs.Prelude.{◌≡◌, ◌==◌, true, false, Err, IfOk, IfErr, is_some};
ghost use Rattle.log_entries.specs.declared.refusal.Refusal.TheVariants.{PlacesFull};
ghost use Rattle.loop_shared.specs.Admissions.{TakesFirst, FindsNoPlace};

use crate::outside::{Outside, Outsider};
use crate::shared::Shared;
use dispatch_state::Ticketed;
use locked_book::DeskName;
use log_entries::Refusal;
use relay_workers::{Gate, Proxy, arrive_late};
use std::sync::Wait;
use std::sync::ledger::Ledger;

/// Somebody looked outside, and no request waits there, or no place is free for the first one.
#[derive(Drop)]
pub struct NothingToAdmit {
    // It is private, so no other module makes one.
    seen: (),
}

/// Somebody looked outside, and no request waited there. A request that comes may ask for a place
/// then, since it passes none that came before it (`Shared::arrive`).
#[derive(Drop)]
pub struct NobodyOutside {
    // It is private, so no other module makes one.
    seen: (),
}

impl NobodyOutside {
    // Where nobody waits, nothing is to be admitted.
    pub(crate) fn admit(self) -> NothingToAdmit {
        let NobodyOutside { seen: _ } = self;
        NothingToAdmit { seen: () }
    }
}

impl<N: DeskName + Ledger> Shared<'_, N> {
    /// Says that no request waits for a place; `None` where one does.
    pub fn seen_nobody_outside(&self) -> Option<NobodyOutside> {
        nobody_of(self.outsiders())
    }
}

// Says that nobody waits where this number of requests waits outside.
fn nobody_of(outsiders: u64) -> Option<NobodyOutside>
    ensures { is_some result ≡ (outsiders == 0) }
{
    if outsiders == 0 {
        Some(NobodyOutside { seen: () })
    } else {
        None
    }
}

// Lets the first request outside arrive, with its class, its due date and its pin, and takes it out
// unless all places are taken. `Err`: it waits on, or nobody is first.
pub(crate) fn admit_one<R: Wait, N: DeskName, G: Gate>(
    rt: &R,
    proxy: &Proxy<N>,
    gate: &mut G,
    outside: &mut Outside,
) -> Result<(Outsider, Result<Ticketed, Refusal>), NothingToAdmit>
    ensures ok { IfOk result (λ it. TakesFirst N.terms N.setup outside.old outside.new it.0 it.1 (G.notes gate.old) (G.notes gate.new)) }
    ensures err { IfErr result (λ _. FindsNoPlace N.terms N.setup outside.old (G.notes gate.old) (G.notes gate.new) × (outside.new ≡ outside.old)) }
{
    let Some((deferred, token)) = outside.next() else {
        return Err(NothingToAdmit { seen: () });
    };
    let arrived = arrive_late(rt, proxy, gate, deferred);
    if lacks_place(&arrived) {
        return Err(NothingToAdmit { seen: () });
    }
    match outside.take(token) {
        None => unreachable!(),
        Some(outsider) => Ok((outsider, arrived)),
    }
}

// Says whether a request was refused since all places are taken.
fn lacks_place(arrived: &Result<Ticketed, Refusal>) -> bool
    ensures full { result ≡ true → arrived.now ≡ Err PlacesFull }
    ensures other { result ≡ false → arrived.now ≡ Err PlacesFull → ⊥ }
{
    matches!(arrived, Err(Refusal::PlacesFull))
}
