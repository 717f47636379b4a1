ghost use Rattle.std.specs.Prelude.{◌≡◌, ◌+◌, ◌==◌, ◌≤◌, ◌++◌, ◌⊎◌, false, ℕ, List, [], length, take, drop};
ghost use Rattle.http_bodies.specs.Readings.{Feeds};
ghost use Rattle.http_bodies.specs.Stops.{LacksRoom};

use crate::coding::Coding;
use crate::outbox::{OUTBOX_BYTES, Outbox};

// Takes bytes of a body with a length, as long as there is room for them.
pub(crate) fn feed_length(left: &mut u64, input: &[u8], out: &mut Outbox) -> usize
    ensures within { result ≤ length input.now }
    ensures given { out.new ≡ out.old ++ take result input.now }
    ensures feeds { Feeds (Coding.Length left.old) (Coding.Length left.new) (take result input.now) (take result input.now) }
    ensures room { (left.new == 0) ≡ false → (result ≡ length input.now) ⊎ LacksRoom (Coding.Length left.new) out.new (drop result input.now) }
    ensures all { length out.new + 18 ≤ OUTBOX_BYTES → (left.new == 0) ≡ false → result ≡ length input.now }
{
    let most = input.len().min(out.room());
    let count = (most as u64).min(*left) as usize;
    out.push(&input[..count]);
    *left -= count as u64;
    count
}

// Takes bytes of a body that goes on to the end of the input, as long as there is room for them.
pub(crate) fn feed_to_end(input: &[u8], out: &mut Outbox) -> usize
    ensures within { result ≤ length input.now }
    ensures given { out.new ≡ out.old ++ take result input.now }
    ensures feeds { Feeds Coding.ToEnd Coding.ToEnd (take result input.now) (take result input.now) }
    ensures room { (result ≡ length input.now) ⊎ LacksRoom Coding.ToEnd out.new (drop result input.now) }
    ensures all { length out.new + 18 ≤ OUTBOX_BYTES → result ≡ length input.now }
{
    let count = input.len().min(out.room());
    out.push(&input[..count]);
    count
}
