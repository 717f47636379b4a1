//! A service whose log is copied while it serves.

ghost use Rattle.std.specs.Prelude.{◌≡◌, ◌≤◌, ◌+◌, ◌^◌, true, []};
ghost use Rattle.config_setup.specs.Setups.{SetupIsAsked};
ghost use Rattle.log_entries.specs.declared.setup.Setup.{Setup};
ghost use Rattle.locked_book.specs.Books.{terms_for};
ghost use Rattle.proxy_config.specs.Sound.{IsSoundConfig};
ghost use Rattle.run_parts.specs.Parts.{AreNew};

use crate::looping::SeatSource;
use crate::serving::{proxy_of, serve_clients};
use late_cert::Reports;
use locked_book::DeskName;
use loop_events::Proxy;
use proxy_config::Config;
use run_parts::{
    Crew, GateShared, Lends, LogCopy, LogKey, Logs, LoopSizes, Parts, ProxyKeys, RunLimits,
    RunOptions, ServeFault, Site, crew_of, front_of, parts_of, service_parts_of,
};
use std::marker::Brand;
use std::net::{Net, TcpListener, TcpStream};
use std::sync::Wait;
use std::sync::ledger::Ledger;
use std::thread;
use std::thread::{Scope, Threads};
use std::time::{Clock, Duration};

/// The log is copied each time this number of milliseconds has passed.
const PAUSE: u64 = 5;

/// The parts of a service whose log is copied, and the target of the copy.
#[derive(Clone, Copy)]
struct Watched<'a> {
    crew: Crew,
    copy: &'a LogCopy,
}

/// Serves as a configuration says at an open listener. Meanwhile the entries of the log's first
/// window are copied, and the reports of the last window are returned, where
/// `listen_and_serve` prints them.
pub fn serve_recorded<
    R: Net<Listener = TcpListener, Stream = TcpStream>
        + Clock
        + Print
        + Eprint
        + AllocGlobal
        + Threads
        + Wait
        + Sync
        + Copy
        + Send
        + 'static,
>(
    rt: &R,
    config: Config,
    listener: TcpListener,
    sizes: RunLimits,
    copy: &LogCopy,
) -> Result<Reports, ServeFault>
    requires config { IsSoundConfig config }
{
    let served = serve_all(rt, config, listener, sizes, copy);
    copy.end();
    served
}

fn serve_all<
    R: Net<Listener = TcpListener, Stream = TcpStream>
        + Clock
        + Print
        + Eprint
        + AllocGlobal
        + Threads
        + Wait
        + Sync
        + Copy
        + Send
        + 'static,
>(
    rt: &R,
    config: Config,
    listener: TcpListener,
    sizes: RunLimits,
    copy: &LogCopy,
) -> Result<Reports, ServeFault>
    requires config { IsSoundConfig config }
{
    let crew = crew_of(rt, &config, sizes);
    let parts = parts_of(rt, rt.alloc(), &config, crew.threads.places)?;
    serve_on::<Brand, _>(rt, config, parts, listener, Watched { crew, copy })
}

// The same at a desk that is made of these parts.
fn serve_on<
    N: DeskName + Ledger + Send + Sync,
    R: Net<Listener = TcpListener, Stream = TcpStream>
        + Clock
        + Print
        + Eprint
        + AllocGlobal
        + Threads
        + Wait
        + Sync
        + Copy
        + Send
        + 'static,
>(
    rt: &R,
    config: Config,
    parts: Parts,
    listener: TcpListener,
    watched: Watched<'_>,
) -> Result<Reports, ServeFault>
    requires named { parts.board ≡ N.board }
    requires ledger { (parts.ledger.name ≡ N.name) × (parts.ledger.parts ≡ N.parts) }
    requires room { 2 ^ 64 ≤ parts.ledger.parts + 1 }
    requires sound { IsSoundConfig config }
    requires parts { (setup : Setup) × AreNew setup parts × SetupIsAsked config setup × (N.terms ≡ terms_for setup) × (N.setup ≡ setup) × (setup.places ≡ watched.crew.threads.places) }
{
    let alloc = rt.alloc();
    let (proxy, keys, source) = proxy_of::<N, _>(rt, alloc, config, parts);
    let options = RunOptions {
        keeping: None,
        reusing: None,
        window: None,
        forwarded_for: false,
        controls: None,
        logs: Logs {
            access: None,
            events: None,
            numbers: None,
        },
        admin: None,
    };
    let ProxyKeys { log: key, wake } = keys;
    let beside = service_parts_of(rt, &proxy.config, options, watched.crew, wake)?;
    let front = front_of(alloc, &proxy.config, listener, &beside);
    let site = Site {
        proxy: &proxy,
        front: &front,
    };
    serve_watched(rt, &site, (&front, key), source, watched)?;
    let reports = proxy.desk.look(rt).book().report(alloc)?;
    Ok(reports)
}

// Serves until no more clients come. The last entries are copied when all threads have ended.
fn serve_watched<
    N: DeskName + Ledger + Send + Sync,
    R: Net<Listener = TcpListener, Stream = TcpStream>
        + Clock
        + Print
        + Eprint
        + Threads
        + Wait
        + Sync
        + Copy
        + Send
        + 'static,
    S: Lends<N> + Sync,
>(
    rt: &R,
    shared: &S,
    front: (&GateShared<'_>, LogKey<N>),
    source: SeatSource,
    watched: Watched<'_>,
) -> Result<(), ServeFault>
    requires named { (source.first.board ≡ N.board) × (source.first.view.terms ≡ N.terms) }
    requires first { source.first.view.first ≡ true }
    requires idle { source.first.view.passes ≡ [] }
    requires ledger { (source.ledger.name ≡ N.name) × (source.ledger.parts ≡ N.parts) }
    requires room { 2 ^ 64 ≤ source.ledger.parts + 1 }
    requires places { watched.crew.threads.places ≡ N.terms.places }
{
    let Watched { crew, copy } = watched;
    thread::scope(
        thread::scope_env(),
        rt,
        move |scope|
            requires named { (source.first.board ≡ N.board) × (source.first.view.terms ≡ N.terms) }
            requires first { source.first.view.first ≡ true }
            requires idle { source.first.view.passes ≡ [] }
            requires ledger { (source.ledger.name ≡ N.name) × (source.ledger.parts ≡ N.parts) }
            requires room { 2 ^ 64 ≤ source.ledger.parts + 1 }
            requires places { crew.threads.places ≡ N.terms.places }
        {
            if !start_copying(scope, rt, shared, copy) {
                return Err(ServeFault::NoMemory);
            }
            let served = serve_lent(rt, shared, front, source, crew.threads);
            copy.close();
            served
        },
    )
}

fn serve_lent<
    N: DeskName + Ledger + Send + Sync,
    R: Net<Listener = TcpListener, Stream = TcpStream>
        + Clock
        + Print
        + Eprint
        + Threads
        + Wait
        + Sync
        + Copy
        + Send
        + 'static,
    S: Lends<N> + Sync,
>(
    rt: &R,
    shared: &S,
    front: (&GateShared<'_>, LogKey<N>),
    source: SeatSource,
    threads: LoopSizes,
) -> Result<(), ServeFault>
    requires named { (source.first.board ≡ N.board) × (source.first.view.terms ≡ N.terms) }
    requires first { source.first.view.first ≡ true }
    requires idle { source.first.view.passes ≡ [] }
    requires ledger { (source.ledger.name ≡ N.name) × (source.ledger.parts ≡ N.parts) }
    requires room { 2 ^ 64 ≤ source.ledger.parts + 1 }
    requires places { threads.places ≡ N.terms.places }
{
    serve_clients(rt, shared, front, source, threads)
}

// Starts a thread of the scope that copies the log, and says whether that succeeded.
fn start_copying<
    's,
    E,
    R: Clock + Threads + Wait + Sync,
    N: DeskName + Ledger + Send + Sync + 's,
    S: Lends<N> + Sync + 's,
>(scope: &Scope<'s, E>, rt: &'s R, shared: &'s S, copy: &'s LogCopy) -> bool {
    let started = scope.spawn(move || copy_all(rt, shared.proxy(), copy)).ok();
    started.is_some()
}

// Copies the log as it grows, until nothing more is decided.
fn copy_all<N: DeskName + Ledger, R: Clock + Wait>(rt: &R, proxy: &Proxy<N>, copy: &LogCopy) {
    let mut copied = 0;
    for _ in rt.forever() {
        let is_last = copy.is_closed();
        let read = proxy
            .desk
            .look(rt)
            .book()
            .entries_after(proxy.alloc, copied);
        if let Ok(later) = read {
            copied = copy.add(rt, later.as_slice()).saturating_add(copied);
        }
        if is_last {
            return;
        }
        thread::sleep(rt, Duration::from_millis(PAUSE));
    }
}
