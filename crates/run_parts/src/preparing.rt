//! What is known of a configuration before it is served.

ghost use Rattle.std.specs.Prelude.{◌↔◌, IsTrue};
ghost use Rattle.run_parts.specs.Queues.{NeverQueues};

use log_texts::Names;
use proxy_config::Config;
use std::alloc::{AllocError, Global};
use std::str;

/// The room of a window's log, in entries.
pub(crate) const LOG: usize = 262_144;

/// Returns the names of its servers, in file order.
pub(crate) fn names_of(alloc: Global, config: &Config) -> Result<Names, AllocError> {
    let servers = config.servers.as_slice();
    let mut names = Vec::new(alloc);
    for server in servers {
        let name = str::from_utf8(server.name.as_slice()).unwrap_or_default();
        names.push(String::from_str(alloc, name)?)?;
    }
    Ok(Names::new(names))
}

/// Says whether no request can ever have to wait for a slot: no server has a limit.
pub(crate) fn never_queues(config: &Config) -> bool
    ensures { IsTrue result ↔ NeverQueues config.now }
{
    config
        .servers
        .as_slice()
        .iter()
        .all(|server| server.maxconn == 0)
}
