//! Addresses that the proxy listens at.

use std::io::{Error, ErrorKind};
use std::net::SocketAddrV4;

/// Prints to standard error what the system says of an address that can't be listened at, and below
/// that the advice where there is one.
pub fn say_address_reason(rt: &impl Eprint, address: SocketAddrV4, error: Error) {
    let _ = eprintln!(rt; "{address}: {error}");
    if let Some(remedy) = address_remedy(error.kind()) {
        let _ = eprintln!(rt; "  {remedy}");
    }
}

/// Returns the advice for a failure of this kind at an address.
pub fn address_remedy(kind: ErrorKind) -> Option<&'static str> {
    match kind {
        ErrorKind::AddrInUse => Some(
            "A program listens there already, this one perhaps: ss -ltnp shows which. End it, or bind another port.",
        ),
        ErrorKind::PermissionDenied => Some(
            "A port below 1024 is for root, or for a program with CAP_NET_BIND_SERVICE: setcap, or a unit's AmbientCapabilities, gives that. Or bind a port from 1024 on.",
        ),
        ErrorKind::AddrNotAvailable => Some(
            "No interface of this machine has this address: ip address shows those that there are, and bind *:PORT takes all of them.",
        ),
        _ => None,
    }
}
