ghost use Rattle.std.specs.Prelude.{◌≡◌, ◌≤◌, ℕ, ℤ, pos, ◌+ℤ◌, ◌-ℤ◌, ◌≤ℤ◌};
ghost use Rattle.due_key.specs.Range.{nearest, IsBetween};
ghost use Rattle.due_key.specs.declared.offset.TheConstants.{LOWEST_OFFSET, HIGHEST_OFFSET};
ghost use Rattle.queue_outside.specs.Admission.{due_at};

use due_key::{Due, Moment, Offset};

/// Returns the offset of a request that was due at `due` and arrives now, or the nearest offset
/// that can be written.
pub fn remaining(due: Due, now: Moment) -> Offset
    ensures { result ≡ nearest LOWEST_OFFSET HIGHEST_OFFSET (due -ℤ pos now) }
{
    Offset::clamp(due.get() - now.get() as i64)
}

/// A request that arrives with the remaining offset has its old due date, or one 524,287
/// milliseconds before its arrival where the old one is earlier than that. So of two requests the
/// one that was due no later, and is admitted no later, is still due no later afterwards.
pub fn admission_keeps_the_order()
    ensures kept { (due : ℤ) (now : ℕ) → (pos now +ℤ LOWEST_OFFSET) ≤ℤ due → due ≤ℤ (pos now +ℤ HIGHEST_OFFSET) → due_at due now ≡ due }
    ensures late { (due : ℤ) (now : ℕ) → due ≤ℤ (pos now +ℤ LOWEST_OFFSET) → due_at due now ≡ pos now +ℤ LOWEST_OFFSET }
    ensures reached { (offset : ℤ) (came now : ℕ) → IsBetween LOWEST_OFFSET HIGHEST_OFFSET offset → came ≤ now → (pos came +ℤ offset) ≤ℤ (pos now +ℤ HIGHEST_OFFSET) }
    ensures waited { (offset : ℤ) (came now : ℕ) → IsBetween LOWEST_OFFSET HIGHEST_OFFSET offset → came ≤ now → pos now ≤ℤ (pos came +ℤ offset +ℤ HIGHEST_OFFSET) → due_at (pos came +ℤ offset) now ≡ pos came +ℤ offset }
    ensures ordered { (a b : ℤ) (first second : ℕ) → a ≤ℤ b → first ≤ second → due_at a first ≤ℤ due_at b second }
{}
