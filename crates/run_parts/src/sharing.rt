//! What the threads of a proxy share beside its dispatcher.

ghost use Rattle.std.specs.Prelude.{◌≡◌, IfOk, is_some, true};
ghost use Rattle.std.specs.Arc.{arc_value};
ghost use Rattle.std.specs.Option.{option_map};
ghost use Rattle.run_gate.specs.Names.{LooksUpNames};
ghost use Rattle.run_parts.specs.Logging.{CountsToo, WritesLogs, windows_sink};

use crate::crew::Crew;
use crate::fault::ServeFault;
use crate::opening::RunOptions;
use crate::preparing::{LOG, names_of};
use config_setup::configured_limits_of;
use log_lines::{Proportions, ProxyNumbers};
use log_requests::{Extent, Logs, RequestLog, base_of};
use log_sink::Sink;
use proxy_config::Config;
use run_admin::Admin;
use run_control::Controls;
use run_gate::{Addresses, Clients, GateShared};
use run_windows::WindowPrinter;
use shared_desk::WakeKey;
use std::alloc::{AllocError, Global};
use std::net::TcpListener;
use std::snapshot::Snapshot;
use std::sync::Arc;
use std::time::{Clock, Instant};

/// What a service was asked for. Only `service_parts_of` makes it, for the parts that it makes.
#[derive(Drop)]
pub struct Asked {
    config: Snapshot<Config>,
    options: Snapshot<RunOptions>,
    crew: Crew,
}

/// The parts beside serving; no loop waits for them.
#[derive(Drop)]
pub struct ServiceParts {
    pub asked: Asked,
    /// The key to what calls of the desk change.
    pub wakes: WakeKey,
    pub windows: WindowPrinter,
    pub addresses: Addresses,
    pub controls: Option<Controls>,
    pub keeping: Option<u64>,
    pub reusing: Option<u64>,
    pub window: Option<u64>,
    pub forwarded_for: bool,
    pub log: Option<RequestLog>,
    pub admin: Option<Admin>,
    /// Moments are milliseconds since this one.
    pub start: Instant,
}

/// Makes them for a configuration, with the options, the crew, and the key to what calls of the desk
/// change.
pub fn service_parts_of<R: Clock + AllocGlobal>(
    rt: &R,
    config: &Config,
    options: RunOptions,
    crew: Crew,
    wakes: WakeKey,
) -> Result<ServiceParts, ServeFault>
    ensures asked { IfOk result (λ parts. (parts.asked.config.value ≡ config.now) × (parts.asked.options.value ≡ options) × (parts.asked.crew ≡ crew)) }
    ensures names { IfOk result (λ parts. LooksUpNames config.now parts.addresses) }
    ensures means { IfOk result (λ parts. (parts.controls ≡ options.controls) × (parts.admin ≡ options.admin)) }
    ensures options { IfOk result (λ parts. (parts.keeping ≡ options.keeping) × (parts.reusing ≡ options.reusing) × (parts.window ≡ options.window) × (parts.forwarded_for ≡ options.forwarded_for)) }
    ensures log { IfOk result (λ parts. WritesLogs options.logs (is_some options.admin) parts.log) }
    ensures windows { IfOk result (λ parts. (option_map arc_value parts.windows.sink ≡ windows_sink options.logs.access) × (is_some parts.windows.base ≡ is_some options.window)) }
{
    let asked = Asked {
        config: Snapshot::of(config),
        options: Snapshot::of(&options),
        crew,
    };
    let alloc = rt.alloc();
    let Ok(start) = Instant::now(rt) else {
        return Err(ServeFault::Read);
    };
    let RunOptions {
        keeping,
        reusing,
        window,
        forwarded_for,
        controls,
        logs,
        admin,
    } = options;
    let servers = config.servers.len();
    let names = names_of(alloc, config)?;
    let base = base_of(rt, start);
    let windows = WindowPrinter::new(alloc, names, servers)?
        .dated(window.map(|_| base))
        .onto(sink_of(&logs)?);
    let extent = Extent {
        servers,
        loops: crew.threads.loops,
        start,
        base,
    };
    let counted = (config, crew.threads.places);
    let log = log_of(alloc, logs, admin.is_some(), counted, extent)?;
    Ok(ServiceParts {
        asked,
        wakes,
        windows,
        addresses: Addresses::new(alloc, config)?,
        controls,
        keeping,
        reusing,
        window,
        forwarded_for,
        log,
        admin,
        start,
    })
}

// Makes the log of a service, which counts too where that is wanted, for a configuration with this
// number of places.
fn log_of(
    alloc: Global,
    logs: Logs,
    counts: bool,
    counted: (&Config, usize),
    extent: Extent,
) -> Result<Option<RequestLog>, AllocError>
    ensures { IfOk result (WritesLogs logs counts) }
{
    let kept = also_counting(alloc, logs, counts, counted)?;
    let log = RequestLog::new(alloc, kept, extent)?;
    Ok(log)
}

// Adds the counters of a fresh proxy to its logs, where that is wanted.
fn also_counting(
    alloc: Global,
    logs: Logs,
    wanted: bool,
    counted: (&Config, usize),
) -> Result<Logs, AllocError>
    ensures { IfOk result (CountsToo wanted logs) }
{
    let (config, places) = counted;
    if wanted {
        counting(alloc, logs, config, places)
    } else {
        Ok(logs)
    }
}

// Adds the counters of a fresh proxy to its logs.
fn counting(alloc: Global, logs: Logs, config: &Config, places: usize) -> Result<Logs, AllocError>
    ensures { IfOk result (CountsToo true logs) }
{
    let Logs { access, events, .. } = logs;
    let numbers = Some(numbers_of(alloc, config, places)?);
    Ok(Logs {
        access,
        events,
        numbers,
    })
}

// Makes the counters of a fresh proxy.
fn numbers_of(alloc: Global, config: &Config, places: usize) -> Result<ProxyNumbers, AllocError> {
    let limits = configured_limits_of(alloc, config)?;
    let proportions = Proportions {
        places,
        entries: LOG,
    };
    ProxyNumbers::new(alloc, limits.as_slice(), proportions)
}

// Returns the sink that the lines of windows share with those of the access log.
fn sink_of(logs: &Logs) -> Result<Option<Arc<Sink>>, AllocError>
    ensures { IfOk result (λ sink. option_map arc_value sink ≡ windows_sink logs.now.access) }
{
    match &logs.access {
        Some(access) if access.has_windows => Ok(Some(Arc::try_clone(&access.sink)?)),
        _ => Ok(None),
    }
}

/// Makes the data that the gates share.
pub fn front_of<'a>(
    alloc: Global,
    config: &'a Config,
    listener: TcpListener,
    beside: &'a ServiceParts,
) -> GateShared<'a>
    ensures config { result.config.now ≡ config.now }
    ensures clients { result.clients.most ≡ beside.now.asked.crew.requests }
    ensures options { (result.keeping ≡ beside.now.keeping) × (result.reusing ≡ beside.now.reusing) × (result.window ≡ beside.now.window) × (result.forwarded_for ≡ beside.now.forwarded_for) }
    ensures start { result.start ≡ beside.now.start }
    ensures listener { result.listener ≡ listener }
    ensures shared { (result.addresses.now ≡ beside.now.addresses) × (result.wakes.now ≡ beside.now.wakes) × (result.windows.now ≡ beside.now.windows) }
    ensures steered { option_map (λ it. it.now) result.controls ≡ beside.now.controls }
    ensures told { (option_map (λ it. it.now) result.log ≡ beside.now.log) × (option_map (λ it. it.now) result.admin ≡ beside.now.admin) }
{
    GateShared {
        alloc,
        config,
        listener,
        clients: Clients::new(beside.asked.crew.requests),
        start: beside.start,
        addresses: &beside.addresses,
        wakes: &beside.wakes,
        windows: &beside.windows,
        controls: beside.controls.as_ref(),
        log: beside.log.as_ref(),
        admin: beside.admin.as_ref(),
        keeping: beside.keeping,
        reusing: beside.reusing,
        window: beside.window,
        forwarded_for: beside.forwarded_for,
    }
}
