ghost use Rattle.std.specs.Prelude.{◌≡◌, ◌≤◌, ◌+◌, ◌^◌, [], true, IfOk};
ghost use Rattle.config_setup.specs.Setups.{SetupIsAsked};
ghost use Rattle.log_entries.specs.declared.setup.Setup.{Setup};
ghost use Rattle.locked_book.specs.Books.{terms_for};
ghost use Rattle.proxy_config.specs.Sound.{IsSoundConfig};
ghost use Rattle.run_parts.specs.Crews.{IsCrewFor};
ghost use Rattle.run_parts.specs.Parts.{AreNew};

use crate::ending::fault_of;
use crate::looping::{LoopsFault, SeatSource, serve};
use grant_board::RelaySeat;
use locked_book::DeskName;
use loop_events::Proxy;
use proxy_config::Config;
use run_parts::{
    Asked, Crew, Doors, GateShared, Lends, LogKey, LoopSizes, Parts, ProxyKeys, RunLimits,
    RunOptions, ServeFault, ServiceParts, Site, announce, announce_admin, close_logs, crew_of,
    end_watching, end_writing, front_of, open, parts_of, service_parts_of, start_watching,
    start_writing, tell_all,
};
use std::alloc::Global;
use std::marker::Brand;
use std::net::{Net, TcpListener, TcpStream};
use std::sync::Wait;
use std::sync::ledger::Ledger;
use std::thread;
use std::thread::Threads;
use std::time::Clock;

/// Serves as a configuration says, and prints the reports. It ends once this number of clients were
/// served, where they are counted.
pub fn listen_and_serve<
    R: Net<Listener = TcpListener, Stream = TcpStream>
        + Clock
        + Print
        + Eprint
        + AllocGlobal
        + Threads
        + Wait
        + Sync
        + Copy
        + Send
        + 'static,
>(rt: &R, config: Config, options: RunOptions, sizes: RunLimits) -> Result<Asked, ServeFault>
    requires config { IsSoundConfig config }
    ensures asked { IfOk result (λ it. (it.config.value ≡ config) × (it.options.value ≡ options)) }
    ensures sizes { IfOk result (λ it. IsCrewFor sizes it.crew) }
{
    let listener = open(rt, &config)?.listener();
    serve_at(rt, config, Doors { listener, options }, sizes)
}

/// The same at an open listener.
pub fn serve_at<
    R: Net<Listener = TcpListener, Stream = TcpStream>
        + Clock
        + Print
        + Eprint
        + AllocGlobal
        + Threads
        + Wait
        + Sync
        + Copy
        + Send
        + 'static,
>(rt: &R, config: Config, doors: Doors, sizes: RunLimits) -> Result<Asked, ServeFault>
    requires config { IsSoundConfig config }
    ensures asked { IfOk result (λ it. (it.config.value ≡ config) × (it.options.value ≡ doors.options)) }
    ensures sizes { IfOk result (λ it. IsCrewFor sizes it.crew) }
{
    let crew = crew_of(rt, &config, sizes);
    announce(rt, &doors.listener, &config, crew)?;
    let parts = parts_of(rt, rt.alloc(), &config, crew.threads.places)?;
    serve_on::<Brand, _>(rt, config, parts, doors, crew)
}

// The same at a desk that is made of these parts.
fn serve_on<
    N: DeskName + Ledger + Send + Sync,
    R: Net<Listener = TcpListener, Stream = TcpStream>
        + Clock
        + Print
        + Eprint
        + AllocGlobal
        + Threads
        + Wait
        + Sync
        + Copy
        + Send
        + 'static,
>(rt: &R, config: Config, parts: Parts, doors: Doors, crew: Crew) -> Result<Asked, ServeFault>
    requires named { parts.board ≡ N.board }
    requires ledger { (parts.ledger.name ≡ N.name) × (parts.ledger.parts ≡ N.parts) }
    requires room { 2 ^ 64 ≤ parts.ledger.parts + 1 }
    requires sound { IsSoundConfig config }
    requires parts { (setup : Setup) × AreNew setup parts × SetupIsAsked config setup × (N.terms ≡ terms_for setup) × (N.setup ≡ setup) × (setup.places ≡ crew.threads.places) }
    ensures { IfOk result (λ it. (it.config.value ≡ config) × (it.options.value ≡ doors.options) × (it.crew ≡ crew)) }
{
    let alloc = rt.alloc();
    let (proxy, keys, source) = proxy_of::<N, _>(rt, alloc, config, parts);
    let Doors { listener, options } = doors;
    let ProxyKeys { log: key, wake } = keys;
    let beside = service_parts_of(rt, &proxy.config, options, crew, wake)?;
    let front = front_of(alloc, &proxy.config, listener, &beside);
    announce_admin(rt, &front);
    let site = Site {
        proxy: &proxy,
        front: &front,
    };
    let ended = serve_clients(rt, &site, (&front, key), source, crew.threads);
    drop(front);
    let ServiceParts {
        asked,
        windows,
        log,
        ..
    } = beside;
    let told = tell_all(rt, &proxy, windows);
    close_logs(rt, log.as_ref());
    told?;
    ended?;
    Ok(asked)
}

/// Makes a fresh proxy of these parts, which are what the configuration describes, and the source
/// of its relays' seats.
pub(crate) fn proxy_of<N: DeskName + Ledger, R: Threads>(
    rt: &R,
    alloc: Global,
    config: Config,
    parts: Parts,
) -> (Proxy<N>, ProxyKeys<N>, SeatSource)
    requires named { parts.board ≡ N.board }
    requires sound { IsSoundConfig config }
    requires parts { (setup : Setup) × AreNew setup parts × SetupIsAsked config setup × (N.terms ≡ terms_for setup) × (N.setup ≡ setup) }
    ensures config { result.0.config ≡ config }
    ensures named { (result.2.first.board ≡ N.board) × (result.2.first.view.terms ≡ N.terms) }
    ensures first { result.2.first.view.first ≡ true }
    ensures idle { result.2.first.view.passes ≡ [] }
    ensures ledger { result.2.ledger ≡ parts.ledger }
{
    let Parts {
        core,
        running,
        board,
        keeper,
        relay,
        ledger,
    } = parts;
    let (proxy, keys) = Proxy::new(rt, alloc, config, (core, running), (board, keeper));
    let source = SeatSource {
        first: relay,
        ledger,
    };
    (proxy, keys, source)
}

/// Serves until no more clients come. Threads beside the loops look names up and print windows; all
/// windows that were handed over are printed at the end.
pub(crate) fn serve_clients<
    N: DeskName + Ledger + Send + Sync,
    R: Net<Listener = TcpListener, Stream = TcpStream>
        + Clock
        + Print
        + Eprint
        + Threads
        + Wait
        + Sync
        + Copy
        + Send
        + 'static,
    S: Lends<N> + Sync,
>(
    rt: &R,
    shared: &S,
    front: (&GateShared<'_>, LogKey<N>),
    source: SeatSource,
    threads: LoopSizes,
) -> Result<(), ServeFault>
    requires named { (source.first.board ≡ N.board) × (source.first.view.terms ≡ N.terms) }
    requires first { source.first.view.first ≡ true }
    requires idle { source.first.view.passes ≡ [] }
    requires ledger { (source.ledger.name ≡ N.name) × (source.ledger.parts ≡ N.parts) }
    requires room { 2 ^ 64 ≤ source.ledger.parts + 1 }
    requires places { threads.places ≡ N.terms.places }
{
    let addresses = front.0.addresses;
    addresses.start(rt)?;
    let served = serve_printing(rt, shared, front, source, threads);
    addresses.close(rt);
    served
}

// The same, where a thread that looks names up runs already.
fn serve_printing<
    N: DeskName + Ledger + Send + Sync,
    R: Net<Listener = TcpListener, Stream = TcpStream>
        + Clock
        + Print
        + Eprint
        + Threads
        + Wait
        + Sync,
    S: Lends<N> + Sync,
>(
    rt: &R,
    shared: &S,
    front: (&GateShared<'_>, LogKey<N>),
    source: SeatSource,
    threads: LoopSizes,
) -> Result<(), ServeFault>
    requires named { (source.first.board ≡ N.board) × (source.first.view.terms ≡ N.terms) }
    requires first { source.first.view.first ≡ true }
    requires idle { source.first.view.passes ≡ [] }
    requires ledger { (source.ledger.name ≡ N.name) × (source.ledger.parts ≡ N.parts) }
    requires room { 2 ^ 64 ≤ source.ledger.parts + 1 }
    requires places { threads.places ≡ N.terms.places }
{
    let (front, key) = front;
    let windows = front.windows;
    thread::scope(
        thread::scope_env(),
        rt,
        move |scope|
            requires named { (source.first.board ≡ N.board) × (source.first.view.terms ≡ N.terms) }
            requires first { source.first.view.first ≡ true }
            requires idle { source.first.view.passes ≡ [] }
            requires ledger { (source.ledger.name ≡ N.name) × (source.ledger.parts ≡ N.parts) }
            requires room { 2 ^ 64 ≤ source.ledger.parts + 1 }
            requires places { threads.places ≡ N.terms.places }
        {
            let Some(printing) = scope.spawn(move || windows.print_all(rt)).ok() else {
                return Err(ServeFault::NoMemory);
            };
            let writing = start_writing(scope, rt, shared, front, key);
            let watching = start_watching(scope, rt, front);
            let (_, served) = if writing.has_failed() || watching.has_failed() {
                unserved(source)
            } else {
                serve_lent(rt, shared, source, threads)
            };
            end_watching(rt, front, watching);
            end_writing(rt, front, writing);
            windows.end(rt);
            printing.join(rt);
            match served {
                Ok(()) => Ok(()),
                Err(fault) => Err(fault_of(fault)),
            }
        },
    )
}

// Serves no client, since a thread couldn't be started.
fn unserved(source: SeatSource) -> (RelaySeat, Result<(), LoopsFault>) {
    let SeatSource { first, ledger: _ } = source;
    (first, Err(LoopsFault::NoMemory))
}

fn serve_lent<
    R: Net<Listener = TcpListener, Stream = TcpStream> + Clock + Print + Threads + Wait + Sync,
    N: DeskName + Ledger + Send + Sync,
    S: Lends<N> + Sync,
>(rt: &R, shared: &S, source: SeatSource, threads: LoopSizes) -> (RelaySeat, Result<(), LoopsFault>)
    requires named { (source.first.board ≡ N.board) × (source.first.view.terms ≡ N.terms) }
    requires first { source.first.view.first ≡ true }
    requires idle { source.first.view.passes ≡ [] }
    requires ledger { (source.ledger.name ≡ N.name) × (source.ledger.parts ≡ N.parts) }
    requires room { 2 ^ 64 ≤ source.ledger.parts + 1 }
    requires places { threads.places ≡ N.terms.places }
{
    serve(rt, shared.lend(), source, threads)
}
