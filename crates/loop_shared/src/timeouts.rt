ghost use Rattle.std.specs.Prelude.{◌≡◌, ℕ, Option, IfOk, OnOk, OnErr};
ghost use Rattle.loop_shared.specs.Timed.{IsTimed};

use loop_table::Timers;
use std::alloc::{AllocError, Global};

/// Adds the timeout of a setting to a table, where there is one, for the cells below `room`. Those
/// that are there stay.
pub fn timed(
    alloc: Global,
    timers: &mut Timers,
    millis: Option<u64>,
    room: usize,
) -> Result<Option<usize>, AllocError>
    ensures number { IfOk result (λ number. IsTimed timers.new room millis number) }
    ensures kept { OnOk result ((other number : Option ℕ) → IsTimed timers.old room other number → IsTimed timers.new room other number) }
    ensures err { OnErr result (timers.new ≡ timers.old) }
{
    match millis {
        None => Ok(None),
        Some(millis) => Ok(Some(timers.add(alloc, millis, room)?)),
    }
}
