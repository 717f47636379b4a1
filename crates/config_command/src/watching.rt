//! The options of `run` for its admin address.

ghost use Rattle.std.specs.Prelude.{◌≡◌, false, IfOk, IfErr};
ghost use Rattle.std.specs.Net.Grammar.{IsSocketText};
ghost use Rattle.config_command.specs.Watching.{Excuses, IsOfMachine};

use clap::{Arg, ArgAction, ArgMatches, Command};
use std::alloc::{AllocError, Global};
use std::net::SocketAddr;

/// The admin address of a proxy.
#[derive(Debug, PartialEq, Eq, Drop)]
pub struct AdminWords {
    /// The address as it was given. `None`: there is none.
    pub address: Option<String>,
    /// Other machines may reach the address.
    pub is_open: bool,
}

/// Why a word is refused as an admin address.
#[derive(Clone, Copy, Debug, PartialEq, Eq)]
pub enum AdminFault {
    /// It isn't an IP address with a port.
    NoAddress,
    /// Other machines may reach it, and the option that allows that is missing.
    Reached,
}

const ADMIN: &str =
    "Answers /metrics, /state.json, /health and a page at this address, as 127.0.0.1:8404";

const OPEN: &str = "Lets --admin have an address that other machines reach: anybody may look";

/// Adds the options for the admin address to the command `run`.
pub(crate) fn with_admin<'a>(
    alloc: Global,
    command: Command<'a>,
) -> Result<Command<'a>, AllocError> {
    let admin = Arg::new(alloc, "admin")
        .long("admin")
        .action(ArgAction::Set)
        .value_name("ADDRESS")
        .help(ADMIN);
    let open = Arg::new(alloc, "admin-open")
        .long("admin-open")
        .action(ArgAction::SetTrue)
        .help(OPEN);
    command.arg(admin)?.arg(open)
}

/// Returns what the options of `run` say of the admin address.
pub(crate) fn admin_of(alloc: Global, words: &ArgMatches) -> Result<AdminWords, AllocError> {
    let address = match words.get_str("admin") {
        None => None,
        Some(address) => Some(String::from_str(alloc, address)?),
    };
    Ok(AdminWords {
        address,
        is_open: words.get_flag("admin-open"),
    })
}

/// Returns the address that a word names: a loopback address, unless others are allowed.
pub fn admin_address(word: &str, is_open: bool) -> Result<SocketAddr, AdminFault>
    ensures address { IfOk result (λ address. IsSocketText word.now address) }
    ensures near { IfOk result (λ address. is_open ≡ false → IsOfMachine address) }
    ensures fault { IfErr result (λ fault. Excuses word.now is_open fault) }
{
    let Ok(address) = word.parse::<SocketAddr>() else {
        return Err(AdminFault::NoAddress);
    };
    if is_open || address.ip().is_loopback() {
        Ok(address)
    } else {
        Err(AdminFault::Reached)
    }
}
