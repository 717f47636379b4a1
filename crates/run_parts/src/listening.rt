//! The listener of a proxy.

ghost use Rattle.std.specs.Prelude.{◌≡◌, Option, ℤ, Err, IfOk};
ghost use Rattle.std.specs.declared.net.socket_addr.SocketAddrV4.{SocketAddrV4};
ghost use Rattle.run_parts.specs.Binds.{ListensAt};
ghost use Rattle.run_parts.specs.declared.fault.ServeFault.TheVariants.{Listen};

use crate::fault::ServeFault;
use libc::net::listen;
use proxy_config::{Bind, Config};
use std::net::{Ipv4Addr, Net, SocketAddrV4, TcpListener, TcpStream};
use std::os::fd::AsRawFd;

/// The most connections that wait to be accepted, where the system allows that.
const BACKLOG: i32 = 4096;

/// A listener, and the address at which it listens. Only `listen_at` makes it.
#[derive(Drop)]
pub struct Listening {
    listener: TcpListener,
    at: SocketAddrV4,
}

impl Listening {
    /// Returns the listener.
    pub fn listener(self) -> TcpListener
        ensures { result ≡ self.listener }
    {
        self.listener
    }
}

/// Listens at the address of a configuration.
pub fn open<R: Net<Listener = TcpListener, Stream = TcpStream>>(
    rt: &R,
    config: &Config,
) -> Result<Listening, ServeFault>
    ensures at { IfOk result (λ it. ListensAt config.now.bind it.at) }
    ensures told { (at : SocketAddrV4) → (code : Option ℤ) → result ≡ Err (Listen at code) → ListensAt config.now.bind at }
{
    let listening = listen_at(rt, address_of(config.bind))?;
    if listen(listening.listener.as_raw_fd(), BACKLOG) != 0 {
        return Err(ServeFault::Read);
    }
    Ok(listening)
}

fn listen_at<R: Net<Listener = TcpListener, Stream = TcpStream>>(
    rt: &R,
    address: SocketAddrV4,
) -> Result<Listening, ServeFault>
    ensures at { IfOk result (λ it. it.at ≡ address) }
    ensures told { (at : SocketAddrV4) → (code : Option ℤ) → result ≡ Err (Listen at code) → at ≡ address }
{
    match TcpListener::bind(rt, address) {
        Ok(listener) => Ok(Listening {
            listener,
            at: address,
        }),
        Err(error) => {
            let code = error.raw_os_error();
            Err(ServeFault::Listen { address, code })
        }
    }
}

// Returns the address of a configuration: at all of the machine's addresses where it gives none.
fn address_of(bind: Bind) -> SocketAddrV4
    ensures { ListensAt bind result }
{
    let ip = match bind.ip {
        Some(ip) => Ipv4Addr::from(ip),
        None => Ipv4Addr::UNSPECIFIED,
    };
    SocketAddrV4::new(ip, bind.port)
}
