ghost use Rattle.std.specs.Prelude.{◌<◌, ◌≤◌, ◌+◌, ◌^◌, IfOk};
ghost use Rattle.config_setup.specs.Setups as setups;
ghost use Rattle.proxy_config.specs.Sound.{IsSoundConfig};
ghost use Rattle.run_parts.specs.Parts.{AreNew};

use crate::preparing::LOG;
use config_setup::{limits_of, setup_of};
use dispatch_core::Core;
use grant_board::{Board, KeeperSeat, RelaySeat};
use late_cert::Running;
use proxy_config::Config;
use shared_desk::DeskQueue;
use std::alloc::{AllocError, Global};
use std::sync::ledger::Blank;
use std::thread::Threads;

/// The parts of a desk, and the seat of its relays.
pub struct Parts {
    pub core: Core<DeskQueue>,
    pub running: Running,
    pub board: Board,
    pub keeper: KeeperSeat,
    pub relay: RelaySeat,
    /// The blank on which its seats are accounted for.
    pub ledger: Blank,
}

/// Makes the parts for a configuration, with this number of live requests.
pub fn parts_of<R: Threads>(
    rt: &R,
    alloc: Global,
    config: &Config,
    places: usize,
) -> Result<Parts, AllocError>
    requires config { IsSoundConfig config.now }
    requires places { (0 < places) × (places ≤ 4096) }
    ensures parts { IfOk result (AreNew (setups.setup_of config.now places 262144)) }
    ensures ledger { IfOk result (λ parts. 2 ^ 64 ≤ parts.ledger.parts + 1) }
{
    let setup = setup_of(alloc, config, places, LOG)?;
    let limits = limits_of(alloc, &setup)?;
    let running = Running::new(alloc, limits.len())?;
    let core = Core::new(alloc, setup)?;
    let (board, keeper, relay) = Board::open(rt, alloc, places, &limits)?;
    Ok(Parts {
        core,
        running,
        board,
        keeper,
        relay,
        ledger: Blank::new(u64::MAX),
    })
}
