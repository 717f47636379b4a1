ghost use Rattle.std.specs.Prelude.{◌≡◌, ◌/◌, max, min};

use loop_shared::ConnectionBounds;

/// The most guests of a loop.
const MOST_GUESTS: u64 = 16_384;

/// The most lingering clients of a loop.
const MOST_LINGERING: u64 = 4096;

/// The most unused connections of a loop.
const MOST_UNUSED: u64 = 4096;

/// The number of cells of a loop for each kind of occupants.
#[derive(Clone, Copy)]
pub(crate) struct LoopRooms {
    pub(crate) guests: usize,
    pub(crate) lingering: usize,
    pub(crate) unused: usize,
}

/// Returns the rooms of one of this number of loops, within the bounds of all connections. Each
/// loop may have all clients and all unused connections, and its part of the lingering clients.
pub(crate) fn rooms_of(most: ConnectionBounds, loops: usize) -> LoopRooms
    ensures guests { result.guests ≡ min most.clients 16384 }
    ensures lingering { result.lingering ≡ min (most.lingering / max loops 1) 4096 }
    ensures unused { result.unused ≡ min most.unused 4096 }
{
    LoopRooms {
        guests: most.clients.min(MOST_GUESTS) as usize,
        lingering: (most.lingering / loops.max(1) as u64).min(MOST_LINGERING) as usize,
        unused: most.unused.min(MOST_UNUSED) as usize,
    }
}
