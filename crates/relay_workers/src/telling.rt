ghost use Rattle.std.specs.Prelude.{◌≡◌};
ghost use Rattle.relay_workers.specs.Gates.{noted};
ghost use Rattle.relay_workers.specs.Gates.Notice.{Told};
ghost use Rattle.shared_desk.specs.Changes.{Change};

use crate::gate::Gate;
use locked_book::DeskName;
use shared_desk::Changed;

/// What a call of a desk returns beside its answer. It can't be dropped: a gate is told of it.
pub(crate) trait Tells {
    /// What the call changed.
    ghost change: { Self → Change };

    /// Tells a gate what the call changed.
    fn tell<G: Gate>(self, gate: &mut G)
        ensures { G.notes gate.new ≡ noted (Told (change self)) (G.notes gate.old) };
}

impl<N: DeskName> Tells for Changed<N> {
    ghost change = { λ changed. changed };

    fn tell<G: Gate>(self, gate: &mut G) {
        gate.wake(self);
    }
}
