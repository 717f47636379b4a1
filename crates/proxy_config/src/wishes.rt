//! Pins whose servers may stand later.

ghost use Rattle.std.specs.Prelude.{◌≡◌, Ok, IfOk, IfErr};
ghost use Rattle.proxy_config.specs.File.{FileAnswers};
ghost use Rattle.proxy_config.specs.Outcomes.{Gives, Sees};
ghost use Rattle.proxy_config.specs.Progress.{with_pins};
ghost use Rattle.proxy_config.specs.Wishes as grammar;

use crate::conditions::guard;
use crate::faults::{ConfigFault, FaultCause, LineError, ReadError};
use crate::parts::{Acl, Guard, Pin, Server, Text};
use crate::pieces::word;
use crate::rules::server_index;
use base_lists::Items;
use proxy_words::{Words, is_name};
use std::alloc::Global;

/// A `use-server` line before all servers are known.
#[derive(Drop)]
pub(crate) struct UnresolvedUseServer {
    pub line: u64,
    /// The server's name.
    pub server: Text,
    /// The fault of a guard counts where the server is declared.
    pub guard: Result<Guard, FaultCause>,
}

/// Reads `use-server NAME` and a guard, in the line with this number.
#[tactic(auto, unfolding(crate::specs::Wishes::wish_line))]
pub(crate) fn wish_line(
    alloc: Global,
    line: u64,
    acls: &Items<Acl>,
    words: Words,
) -> Result<UnresolvedUseServer, LineError>
    ensures { Gives (λ x. x) result (grammar.wish_line line acls.now words.entry) }
{
    let (name, words) = word(words)?;
    if !is_name(name) {
        return Err(FaultCause::Name.into());
    }
    let guard = guard_or_fault(alloc, acls, words)?;
    let server = Items::copied(alloc, name)?;
    Ok(UnresolvedUseServer {
        line,
        server,
        guard,
    })
}

fn guard_or_fault(
    alloc: Global,
    acls: &Items<Acl>,
    words: Words,
) -> Result<Result<Guard, FaultCause>, LineError>
    ensures ok { IfOk result (λ guard. guard ≡ grammar.guard_of acls.now words.entry) }
    ensures err { IfErr result (λ e. e ≡ LineError.NoMemory) }
{
    match guard_to_end(alloc, acls, words) {
        Ok(guard) => Ok(Ok(guard)),
        Err(LineError::Fault(cause)) => Ok(Err(cause)),
        Err(LineError::NoMemory) => Err(LineError::NoMemory),
    }
}

fn guard_to_end(alloc: Global, acls: &Items<Acl>, words: Words) -> Result<Guard, LineError>
    ensures { Gives (λ x. x) result (grammar.guard_of acls.now words.entry) }
{
    let (first, words) = word(words)?;
    guard(alloc, acls, first, words)
}

/// Returns the pins, once all servers are known.
pub(crate) fn pins_of(
    alloc: Global,
    servers: &Items<Server>,
    wishes: Items<UnresolvedUseServer>,
) -> Result<Items<Pin>, ReadError>
    ensures { FileAnswers result (with_pins servers.now wishes Ok) }
{
    let mut pins = Items::new(alloc);
    'wishes: for wish in wishes.into_vec() {
        let line = wish.line;
        match asked_pin(servers, wish) {
            Ok(pin) => pins.push(pin)?,
            Err(cause) => return Err(ReadError::Fault(ConfigFault { line, cause })),
        }
    }
    Ok(pins)
}

fn asked_pin(servers: &Items<Server>, wish: UnresolvedUseServer) -> Result<Pin, FaultCause>
    ensures { Sees (λ x. x) result (grammar.asked_pin servers.now wish) }
{
    let UnresolvedUseServer {
        line: _,
        server,
        guard,
    } = wish;
    let server = server_index(server.as_slice(), servers).ok_or(FaultCause::Unknown)?;
    let guard = guard?;
    Ok(Pin { server, guard })
}
