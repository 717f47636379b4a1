ghost use Rattle.std.specs.Prelude.{◌≡◌};

use crate::gate::{Gate, Pause};
use crate::proxy::Worker;

/// The gate of a thread that has ended. Nobody can ask it for anything.
#[derive(Drop)]
pub struct Finished<G: Drop> {
    gate: G,
}

impl<G: Gate + Drop> Finished<G> {
    /// Keeps the gate of a thread that ends.
    pub(crate) fn of(gate: G) -> Finished<G>
        ensures { result.gate ≡ gate }
    {
        Finished { gate }
    }

    /// Keeps the gate of a worker, which ends with that.
    pub(crate) fn new<P: Pause + Drop>(hand: Worker<G, P>) -> Finished<G>
        ensures { result.gate ≡ hand.runner.gate }
    {
        let Worker { runner, pause: _ } = hand;
        Finished { gate: runner.gate }
    }
}
