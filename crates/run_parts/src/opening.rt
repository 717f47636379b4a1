//! What a proxy is asked for beside its configuration, and what it prints at its start.

use crate::crew::Crew;
use crate::fault::ServeFault;
use crate::preparing::never_queues;
use log_requests::Logs;
use proxy_config::Config;
use run_admin::Admin;
use run_control::Controls;
use std::net::TcpListener;

/// The options of a proxy beside its configuration.
#[derive(Drop)]
pub struct RunOptions {
    /// The longest pause of a client between two requests, in milliseconds. `None`: a client's
    /// connection has one request.
    pub keeping: Option<u64>,
    /// The most unused connections of a server that stay open. `None`: a server's connection has one request.
    pub reusing: Option<u64>,
    /// The length of a window in milliseconds. `None`: a window ends once the log is full.
    pub window: Option<u64>,
    /// Servers are told the client's address.
    pub forwarded_for: bool,
    /// The means by which it is steered while it serves.
    pub controls: Option<Controls>,
    /// The logs that are written.
    pub logs: Logs,
    /// The admin listener. Its numbers are counted only where there is one.
    pub admin: Option<Admin>,
}

/// The listener, and the options.
#[derive(Drop)]
pub struct Doors {
    pub listener: TcpListener,
    pub options: RunOptions,
}

/// Prints to standard error that it listens, and where no request can ever wait also that.
pub fn announce<R: Eprint>(
    rt: &R,
    listener: &TcpListener,
    config: &Config,
    crew: Crew,
) -> Result<(), ServeFault> {
    let Ok(address) = listener.local_addr() else {
        return Err(ServeFault::Read);
    };
    let servers = config.servers.len();
    let workers = crew.workers;
    let places = crew.threads.places;
    let _ = eprintln!(rt;
        "listening at {address}: servers {servers} workers {workers} places {places}"
    );
    if never_queues(config) {
        let _ = rt.eprintln("no server has a maxconn: no request will wait, and no order is kept");
    }
    Ok(())
}
