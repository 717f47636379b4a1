ghost use Rattle.std.specs.Prelude.{◌≡◌, ◌↔◌, IfOk, IsTrue};
ghost use Rattle.log_entries.specs.States.{opening_limits};
ghost use Rattle.log_entries.specs.Setups.{IsSound};

use crate::allowance::{Allowance, Intake};
use base_lists::Items;
use std::alloc::{AllocError, Global};

/// The setup of a server.
#[derive(Clone, Copy, Debug, PartialEq, Eq)]
pub struct ServerSet {
    /// `maxconn`: the most requests that it serves at once, until the limit is changed; 0 is without limit.
    pub limit: u32,
    /// `maxqueue`: the most requests in its own queue; 0 is without limit.
    pub maxqueue: u32,
    /// `weight`, 0 to 256.
    pub weight: u32,
    /// `rise` and `fall`, where the server is checked.
    pub rise_fall: Option<(u32, u32)>,
}

/// The servers in file order.
pub type Servers = Items<ServerSet>;

/// The setup of a dispatcher.
#[derive(Debug, Drop)]
pub struct Setup {
    pub servers: Servers,
    /// The most live requests, 1 to 4096.
    pub places: usize,
    /// The most log entries, 1 to 262144.
    pub log: usize,
    /// `retries`: the number of further tries for a request whose connection fails, at most 999,999,999.
    pub retries: u32,
    /// `option redispatch`: the last retry goes to another server.
    pub redispatch: bool,
    /// `timeout queue` in milliseconds, below 2^62; 0: requests wait without limit.
    pub queue_timeout: u64,
}

impl Setup {
    ghost use Rattle.log_entries.specs.Setups.{IsSound};

    /// Says whether a dispatcher can be made for the setup: 1 to 64 servers with weights of at most
    /// 256 and, where they are checked, `rise` and `fall` of at least 1, and the limits above.
    pub fn sound(&self) -> bool
        ensures { IsTrue result ↔ IsSound self.now }
    {
        !self.servers.is_empty()
            && self.servers.len() <= 64
            && self.servers.as_slice().iter().all(|server| server.sound())
            && 0 < self.places
            && self.places <= 4096
            && 0 < self.log
            && self.log <= 262_144
            && self.retries <= 999_999_999
            && self.queue_timeout < 1 << 62
    }

    /// Returns the limit of each server at first, in file order.
    pub fn opening_limits(&self, alloc: Global) -> Result<Vec<Allowance>, AllocError>
        ensures { IfOk result (λ limits. limits.items ≡ opening_limits self.now.servers) }
    {
        let servers = self.servers.as_slice();
        let mut limits = Vec::with_capacity(alloc, servers.len())?;
        for server in servers {
            limits.push_reserved(Allowance {
                limit: Intake::Open(server.limit),
                served: 0,
            });
        }
        Ok(limits)
    }
}

impl ServerSet {
    ghost use Rattle.log_entries.specs.Setups.{is_within, has_rise_and_fall};

    fn sound(&self) -> bool
        ensures { result ≡ is_within self.now }
    {
        self.weight <= 256 && self.has_rise_and_fall()
    }

    fn has_rise_and_fall(&self) -> bool
        ensures { result ≡ has_rise_and_fall self.now.rise_fall }
    {
        match self.rise_fall {
            None => true,
            Some((rise, fall)) => 0 < rise && 0 < fall,
        }
    }
}
