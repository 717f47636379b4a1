ghost use Rattle.std.specs.Prelude.{◌≡◌, ◌<◌, ◌≤◌, [], length, true};
ghost use Rattle.config_setup.specs.Setups.{SetupIsAsked};
ghost use Rattle.log_entries.specs.Histories.{first_window};
ghost use Rattle.grant_board.specs.KeeperCalls.{new_keeper};
ghost use Rattle.grant_board.specs.RelayCalls.{new_relay};
ghost use Rattle.locked_book.specs.Books.{terms_for};
ghost use Rattle.proxy_config.specs.Sound.{IsSoundConfig};
ghost use Rattle.dispatch_reports.specs.Reporting.{IsNew};
ghost use Rattle.shared_desk.specs.Seats.{IsSameSeat};

use board_seats::Idle;
use config_setup::{limits_of, setup_of};
use dispatch_core::Core;
use dispatch_reports::EndedWindow;
use due_key::Moment;
use grant_board::{Board, Closing, KeeperSeat, RelaySeat};
use late_cert::Running;
use locked_book::DeskName;
use proxy_config::{Config, read};
use relay_workers::{
    EndedCheck, Gate, Pause, Proxy, ProxyKeys, Slot, Stop, Stopped, Tally, Worker, checker, worker,
};
use shared_desk::{Changed, DeskQueue, WakeKey};
use std::alloc::Global;
use std::io::{self, Read, Write};
use std::marker::Brand;
use std::process::Abort;
use std::sync::Wait;
use std::sync::atomic::{AtomicU64, Ordering};
use std::thread::Threads;

mod checks;
mod crews;
mod fakes;
mod outcomes;
mod scenes;
mod waits;

// What the peers of a proxy were sent, the outcomes of its clients, and what was left on its board.
#[derive(Drop)]
struct Found {
    tally: Result<Tally, Stopped>,
    seen: fakes::Seen,
    closing: Closing,
}

/// A configuration, a fresh dispatcher with its setup, and the board that was opened for it.
#[derive(Drop)]
pub(crate) struct Opened {
    config: Config,
    core: Core<DeskQueue>,
    board: Board,
    seat: KeeperSeat,
    relay: RelaySeat,
    running: Running,
    ghost asked: { SetupIsAsked config core.setup },
    ghost first: { core ≡ first_window core.setup [] },
    ghost named: { (seat.board ≡ board) × (relay.board ≡ board) },
    ghost keeper: { seat.view ≡ new_keeper (terms_for core.setup) },
    ghost views: { relay.view ≡ new_relay (terms_for core.setup) true },
    ghost told_nothing: { IsNew running (length core.setup.servers) },
}

// One server, whose health one check result decides.
const ONE_SLOT: &[u8] =
    b"listen w\n    bind :80\n    server a 127.0.0.1:9001 maxconn 1 check rise 1 fall 1\n";

const TWO_SLOTS: &[u8] =
    b"listen w\n    bind :80\n    server a 127.0.0.1:9001 maxconn 2 check rise 1 fall 1\n";

/// Opens what a configuration describes, with four places and a log of this length.
pub(crate) fn open(rt: &(impl Abort + Threads), alloc: Global, config: Config, log: usize) -> Opened
    requires sound { IsSoundConfig config }
    requires log { (0 < log) × (log ≤ 262144) }
    ensures sound { IsSoundConfig result.config }
{
    let setup = setup_of(alloc, &config, 4, log).expect(rt, "memory");
    assert!(rt; setup.sound());
    let limits = limits_of(alloc, &setup).expect(rt, "memory");
    let running = Running::new(alloc, limits.len()).expect(rt, "memory");
    let core = Core::new(alloc, setup).expect(rt, "a dispatcher");
    let (board, seat, relay) = Board::open(rt, alloc, 4, &limits).expect(rt, "a board");
    Opened {
        config,
        core,
        board,
        seat,
        relay,
        running,
    }
}

// The same for a configuration's text.
fn open_text(rt: &(impl Abort + Threads), alloc: Global, text: &[u8], log: usize) -> Opened
    requires log { (0 < log) × (log ≤ 262144) }
    ensures sound { IsSoundConfig result.config }
{
    let config = read(alloc, text).expect(rt, "a configuration");
    open(rt, alloc, config, log)
}

/// Makes a proxy of what was opened, with the keys that aren't its own, and the first of the seats
/// that take passes.
pub(crate) fn start<N: DeskName, R: Threads>(
    rt: &R,
    alloc: Global,
    opened: Opened,
) -> (Proxy<N>, ProxyKeys<N>, Idle<N>)
    requires named { opened.board ≡ N.board }
    requires terms { N.terms ≡ terms_for opened.core.setup }
    requires setup { N.setup ≡ opened.core.setup }
    requires sound { IsSoundConfig opened.config }
    ensures { result.2.seat.view ≡ new_relay N.terms true }
{
    let Opened {
        config,
        core,
        board,
        seat,
        relay,
        running,
    } = opened;
    let (proxy, keys) = Proxy::new(rt, alloc, config, (core, running), (board, seat));
    (proxy, keys, Idle::new(relay))
}

// Serves all clients of a gate, with these pauses.
fn work_with<N: DeskName, R: Wait>(
    rt: &R,
    proxy: &Proxy<N>,
    idle: &mut Idle<N>,
    gate: fakes::Fake<'_>,
    pauses: fakes::Few,
) -> Result<Tally, Stopped>
    ensures { IsSameSeat idle.old.seat idle.new.seat }
{
    let Ok(mut hand) = Worker::new(proxy.alloc, gate, pauses) else {
        return Err(Stopped::NoMemory);
    };
    worker(rt, proxy, idle, &mut hand)
}

/// Returns what is left on a proxy's board once its threads have ended.
pub(crate) fn close<N: DeskName>(proxy: Proxy<N>, idle: Idle<N>) -> Closing
    requires first { idle.seat.view.first ≡ true }
    requires settled { idle.seat.view.split ≡ idle.seat.view.joined }
{
    let Proxy { desk, .. } = proxy;
    let (closing, _) = desk.close(idle.seat());
    closing
}
