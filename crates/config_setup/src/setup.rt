ghost use Rattle.std.specs.Prelude.{◌≡◌, ◌<◌, ◌≤◌, IfOk, map};
ghost use Rattle.log_entries.specs.Setups.{IsSound};
ghost use Rattle.proxy_config.specs.Sound.{IsSoundConfig};
ghost use Rattle.config_setup.specs.Setups as setups;

use log_entries::{ServerSet, Servers, Setup};
use proxy_config::{Config, Server};
use std::alloc::{AllocError, Global};

/// Returns the setup of a dispatcher for this number of live requests, with a log of this number of entries.
pub fn setup_of(
    alloc: Global,
    config: &Config,
    places: usize,
    log: usize,
) -> Result<Setup, AllocError>
    requires config { IsSoundConfig config.now }
    requires places { (0 < places) × (places ≤ 4096) }
    requires log { (0 < log) × (log ≤ 262144) }
    ensures setup { IfOk result (λ setup. setup ≡ setups.setup_of config.now places log) }
    ensures sound { IfOk result IsSound }
{
    let servers = servers_of(alloc, config)?;
    Ok(Setup {
        servers,
        places,
        log,
        retries: config.retries,
        redispatch: config.redispatch,
        queue_timeout: config.queue_timeout.unwrap_or(0),
    })
}

fn servers_of(alloc: Global, config: &Config) -> Result<Servers, AllocError>
    ensures { IfOk result (λ servers. servers ≡ map setups.set_of config.now.servers) }
{
    let servers = config.servers.as_slice();
    let mut sets = Vec::new(alloc);
    for server in servers {
        sets.push(set_of(server))?;
    }
    Ok(Servers::from_vec(sets))
}

fn set_of(server: &Server) -> ServerSet
    ensures { result ≡ setups.set_of server.now }
{
    ServerSet {
        limit: server.maxconn,
        maxqueue: server.maxqueue,
        weight: server.weight,
        rise_fall: match server.check {
            Some(checks) => Some((checks.rise, checks.fall)),
            None => None,
        },
    }
}

/// Returns the limits of a setup's servers, in file order.
pub fn limits_of(alloc: Global, setup: &Setup) -> Result<Vec<u32>, AllocError>
    ensures { IfOk result (λ limits. limits.items ≡ map (λ server. server.limit) setup.now.servers) }
{
    let servers = setup.servers.as_slice();
    let mut limits = Vec::new(alloc);
    for server in servers {
        limits.push(server.limit)?;
    }
    Ok(limits)
}

/// Returns the limits of a configuration's servers, in file order.
pub fn configured_limits_of(alloc: Global, config: &Config) -> Result<Vec<u32>, AllocError>
    ensures { IfOk result (λ limits. limits.items ≡ map (λ server. server.maxconn) config.now.servers) }
{
    let servers = config.servers.as_slice();
    let mut limits = Vec::new(alloc);
    for server in servers {
        limits.push(server.maxconn)?;
    }
    Ok(limits)
}
