ghost use Rattle.std.specs.Prelude.{◌≡◌, None, IfOk, IfSome, slice_get};
ghost use Rattle.run_gate.specs.Names.{LooksUpNames, name_sought, name_to_find};
ghost use Rattle.run_gate.specs.Numbers.{IsAddressOf, IsSocketAddress};

use crate::name::Name;
use proxy_config::{Address, Config, Host};
use std::alloc::{AllocError, Global};
use std::net::{IpAddr, Ipv4Addr, SocketAddr};
use std::sync::{Arc, Wait};

/// The addresses of a configuration's servers.
#[derive(Drop)]
pub struct Addresses {
    /// The name of each server in file order, where it has one.
    pub(crate) names: Vec<Option<Arc<Name>>>,
}

impl Addresses {
    /// Makes the addresses of these servers, before any look-up.
    pub fn new(alloc: Global, config: &Config) -> Result<Addresses, AllocError>
        ensures { IfOk result (LooksUpNames config.now) }
    {
        let servers = config.servers.as_slice();
        let mut names = Vec::with_capacity(alloc, servers.len())?;
        for server in servers {
            names.push(name_of(alloc, &server.address)?)?;
        }
        Ok(Addresses { names })
    }

    /// Returns the address of a server of the same configuration: the one that is given in numbers,
    /// or that of the last look-up of its name. `None` where that failed, or there is no answer
    /// yet. It doesn't wait for a look-up.
    pub fn of<R: Wait>(&self, rt: &R, config: &Config, server: usize) -> Option<SocketAddr>
        ensures numbers { IfSome (slice_get config.now.servers server) (λ it. IsAddressOf it.address result) }
        ensures nobody { slice_get config.now.servers server ≡ None → result ≡ None }
    {
        let it = config.servers.as_slice().get(server)?;
        match &it.address.host {
            Host::Ip(octets) => Some(address_at(*octets, it.address.port)),
            Host::Name(_) => self.found(rt, server),
        }
    }

    // Returns the address of the last look-up of a server's name.
    fn found<R: Wait>(&self, rt: &R, server: usize) -> Option<SocketAddr> {
        match self.names.as_slice().get(server)? {
            Some(name) => name.address(rt),
            None => None,
        }
    }

    /// Has the name of a server looked up again, where it has one. It doesn't wait for the answer.
    pub fn look_again<R: Wait>(&self, rt: &R, server: usize) {
        if let Some(Some(name)) = self.names.as_slice().get(server) {
            name.look_again(rt);
        }
    }

    /// Ends the look-ups. One that is under way goes on, and nobody waits for it.
    pub fn close<R: Wait>(&self, rt: &R) {
        for name in self.names.as_slice() {
            if let Some(name) = name {
                name.close(rt);
            }
        }
    }
}

/// Returns the socket address of an IPv4 address and a port.
pub(crate) fn address_at(octets: [u8; 4], port: u16) -> SocketAddr
    ensures { IsSocketAddress octets port result }
{
    SocketAddr::new(IpAddr::V4(Ipv4Addr::from(octets)), port)
}

// Returns the name of an address that isn't given in numbers.
fn name_of(alloc: Global, address: &Address) -> Result<Option<Arc<Name>>, AllocError>
    ensures { IfOk result (λ name. name_sought name ≡ name_to_find address.now) }
{
    let Host::Name(name) = &address.host else {
        return Ok(None);
    };
    let host = Vec::from_slice(alloc, name.as_slice())?;
    let name = Arc::new(alloc, Name::new(host, address.port))?;
    Ok(Some(name))
}
