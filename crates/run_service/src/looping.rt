//! A proxy on event loops, from its first client to its last.

ghost use Rattle.std.specs.Prelude.{◌≡◌, ◌≤◌, ◌+◌, ◌^◌, true, []};
ghost use Rattle.run_service.specs.Returns.{ReturnsSeats};

use crate::parts::parts_of;
use grant_board::RelaySeat;
use locked_book::DeskName;
use loop_events::{Shared, Site, join_all, run_all, split_off};
use run_parts::LoopSizes;
use std::alloc::AllocError;
use std::net::{Net, TcpListener, TcpStream};
use std::sync::Wait;
use std::sync::ledger::{Blank, Ledger};
use std::thread::Threads;
use std::time::Clock;

/// The source of the seats of places and threads.
#[derive(Drop)]
pub struct SeatSource {
    /// The board's first seat, from which the others are split off.
    pub first: RelaySeat,
    /// The blank on which they are accounted for.
    pub ledger: Blank,
}

/// Why loops ended while clients still came, or what was missing when they had ended.
#[derive(Clone, Copy, Debug, PartialEq, Eq)]
pub enum LoopsFault {
    /// The system refused memory, a poll, or a thread.
    NoMemory,
    /// A seat was still lent at the end; no path is known to that.
    SeatsLost,
}

/// Serves until as many clients as may come were served. Each place and each thread gets a seat
/// that is split off the first one, and joined again.
pub fn serve<
    'a,
    R: Net<Listener = TcpListener, Stream = TcpStream> + Clock + Print + Threads + Wait + Sync,
    N: DeskName + Ledger + Send + Sync,
>(
    rt: &R,
    site: &'a Site<'a, N>,
    source: SeatSource,
    sizes: LoopSizes,
) -> (RelaySeat, Result<(), LoopsFault>)
    requires named { (source.first.board ≡ N.board) × (source.first.view.terms ≡ N.terms) }
    requires first { source.first.view.first ≡ true }
    requires idle { source.first.view.passes ≡ [] }
    requires ledger { (source.ledger.name ≡ N.name) × (source.ledger.parts ≡ N.parts) }
    requires room { 2 ^ 64 ≤ source.ledger.parts + 1 }
    requires places { sizes.places ≡ N.terms.places }
    ensures same { (result.0.board ≡ source.first.board) × (result.0.view.terms ≡ source.first.view.terms) × (result.0.view.first ≡ true) }
    ensures idle { result.0.view.passes ≡ [] }
    ensures joined { ReturnsSeats result.1 source.first result.0 }
{
    let proxy = site.proxy;
    let front = site.front;
    let SeatSource { first, ledger } = source;
    let mut first = first;
    let mut seats = Vec::new(proxy.alloc);
    if !split_off(proxy, &mut first, &mut seats, seats_of(sizes)) {
        join_all(proxy, &mut first, seats);
        return (first, Err(LoopsFault::NoMemory));
    }
    let lent = seats.len();
    let (seats, served) = match parts_of(rt, proxy, front, sizes) {
        Err(_) => (seats, Err(AllocError)),
        Ok((parts, loops)) => {
            let shared = Shared::new(proxy, front, (seats, ledger), parts);
            run_all(rt, &shared, loops);
            shared.end()
        }
    };
    let all_back = seats.len() == lent;
    join_all(proxy, &mut first, seats);
    if !all_back {
        return (first, Err(LoopsFault::SeatsLost));
    }
    match served {
        Ok(()) => (first, Ok(())),
        Err(_) => (first, Err(LoopsFault::NoMemory)),
    }
}

// Each place and each thread has one.
fn seats_of(sizes: LoopSizes) -> usize {
    sizes.places.saturating_add(sizes.loops)
}
