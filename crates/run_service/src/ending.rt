//! How the loops' end becomes the service's.

ghost use Rattle.std.specs.Prelude.{◌≡◌};
ghost use Rattle.run_service.specs.Faults.{of_loops};

use crate::looping::LoopsFault;
use run_parts::ServeFault;

/// Returns the fault of a service whose loops ended early.
pub(crate) fn fault_of(fault: LoopsFault) -> ServeFault
    ensures { result ≡ of_loops fault }
{
    match fault {
        LoopsFault::NoMemory => ServeFault::NoMemory,
        LoopsFault::SeatsLost => ServeFault::SeatsLost,
    }
}
