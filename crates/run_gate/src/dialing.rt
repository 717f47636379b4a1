//! Connections to servers.

use crate::addresses::address_at;
use proxy_config::{Address, Host};
use std::net::{Net, TcpListener, TcpStream, ToSocketAddrs};
use std::str;
use std::time::{Clock, Duration, Instant};

/// Connects to an address within a time. The system looks a name up, without a limit of its own,
/// and its addresses are tried one after the other.
pub(crate) fn dial<R: Net<Listener = TcpListener, Stream = TcpStream> + Clock>(
    rt: &R,
    address: &Address,
    limit: Option<Duration>,
) -> Option<TcpStream> {
    match &address.host {
        Host::Ip(octets) => dial_one_of(rt, address_at(*octets, address.port), limit),
        Host::Name(name) => {
            let name = str::from_utf8(name.as_slice()).ok()?;
            dial_one_of(rt, (name, address.port), limit)
        }
    }
}

fn dial_one_of<R: Net<Listener = TcpListener, Stream = TcpStream> + Clock, A: ToSocketAddrs>(
    rt: &R,
    addresses: A,
    limit: Option<Duration>,
) -> Option<TcpStream> {
    let start = Instant::now(rt).ok()?;
    for address in addresses.to_socket_addrs(rt).ok()? {
        let stream = match limit {
            None => TcpStream::connect(rt, address),
            Some(limit) => {
                let left = limit.saturating_sub(start.elapsed(rt).ok()?);
                if left.is_zero() {
                    return None;
                }
                TcpStream::connect_timeout(rt, &address, left)
            }
        };
        if let Ok(stream) = stream {
            return Some(stream);
        }
    }
    None
}
