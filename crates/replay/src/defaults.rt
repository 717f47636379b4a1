ghost use Rattle.std.specs.Prelude.{◌≡◌, [], IfOk, length};
ghost use Rattle.std.specs.Option.{unwrap_or};
ghost use Rattle.log_entries.specs.Setups.{IsSound};
ghost use Rattle.log_texts.specs.Headers.{SettingsAreWithin};
ghost use Rattle.replay.specs.Defaults.{default_servers as default_servers_are, default_names as default_names_are, names_of, script_setup};

use log_entries::{ServerSet, Servers, Setup};
use log_texts::{Header, Names};
use std::alloc::{AllocError, Global};

/// Returns the setup of the dispatcher, and the names of its servers: those of the header lines,
/// with defaults where they set nothing.
pub(crate) fn script_setup(alloc: Global, header: Header) -> Result<(Setup, Names), AllocError>
    ensures setup { IfOk result (λ made. made.0 ≡ script_setup header) }
    ensures names { IfOk result (λ made. made.1 ≡ names_of header) }
    ensures sound { IfOk result (λ made. IsSound made.0) }
{
    let places = header.places().unwrap_or(64);
    let log = header.log().unwrap_or(262_144);
    let retries = header.retries().unwrap_or(3);
    let redispatch = header.redispatch();
    let queue_timeout = header.queue_timeout().unwrap_or(0);
    let (names, servers) = header.into_servers();
    let names = if servers.is_empty() {
        default_names(alloc)?
    } else {
        names
    };
    let servers = if servers.is_empty() {
        default_servers(alloc)?
    } else {
        servers
    };
    let setup = Setup {
        servers,
        places,
        log,
        retries,
        redispatch,
        queue_timeout,
    };
    Ok((setup, names))
}

fn default_servers(alloc: Global) -> Result<Servers, AllocError>
    ensures { IfOk result (λ servers. servers ≡ default_servers_are) }
{
    let server = ServerSet {
        limit: 1,
        maxqueue: 0,
        weight: 1,
        rise_fall: None,
    };
    Ok(Servers::from_vec(vec![in alloc; server]?))
}

fn default_names(alloc: Global) -> Result<Names, AllocError>
    ensures { IfOk result (λ names. names ≡ default_names_are) }
{
    let name = String::from_str(alloc, "s1")?;
    Ok(Names::new(vec![in alloc; name]?))
}
