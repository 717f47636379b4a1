ghost use Rattle.std.specs.Prelude.{◌≡◌, ◌<◌, List, Bool, IsTrue, IfOk, All, Some, [], length, replicate, slice_get};
ghost use Rattle.check_state.specs.Standing.{Standing, change_between};
ghost use Rattle.log_entries.specs.declared.setup.ServerSet.{ServerSet};
ghost use Rattle.log_entries.specs.Health.{with_result};
ghost use Rattle.log_entries.specs.Setups.{is_within};
ghost use Rattle.dispatch_core.specs.Checks.{AreHealths, IsHealthBy};
ghost use Rattle.dispatch_state.specs.LoggedStates.{is_up_at};

use check_state::{Change, Health};
use log_entries::ServerSet;
use std::alloc::{AllocError, Global};
use std::marker::Model;

/// The healths of the servers that are checked.
#[derive(Debug, Drop)]
pub(crate) struct Healths {
    list: Vec<Option<Health>>,
}

impl Model for Healths {
    ghost use Rattle.std.specs.Prelude.{List, Option};
    ghost use Rattle.check_state.specs.Standing.{Standing};

    ghost Value = { List (Option Standing) };

    ghost view = { λ healths. healths.list.items };
}

impl Healths {
    /// Makes the healths of servers without any result.
    pub(crate) fn new(alloc: Global, servers: &[ServerSet]) -> Result<Healths, AllocError>
        requires { All (λ server. IsTrue (is_within server)) servers.now }
        ensures { IfOk result (λ healths. AreHealths servers.now (replicate (length servers.now) []) healths) }
    {
        let mut list = Vec::with_capacity(alloc, servers.len())?;
        for server in servers {
            list.push_reserved(health_of(server));
        }
        Ok(Healths { list })
    }

    /// Returns the healths by server; `None` for one that isn't checked.
    pub(crate) fn all(&self) -> &[Option<Health>]
        ensures { result.now ≡ self.now }
    {
        self.list.as_slice()
    }

    /// Takes the result of a check, of a server that is checked. `O(1)`.
    pub(crate) fn result(&mut self, server: usize, ok: bool) -> Change
        requires { (standing : Standing) × (slice_get self.old server ≡ Some (Some standing)) }
        ensures healths { (servers : List ServerSet) (results : List (List Bool)) → AreHealths servers results self.old → AreHealths servers (with_result server ok results) self.new }
        ensures change { (servers : List ServerSet) (results : List (List Bool)) → AreHealths servers results self.old → result ≡ change_between (is_up_at servers results server) (is_up_at servers (with_result server ok results) server) }
    {
        let Some(health) = &mut self.list[server] else {
            unreachable!()
        };
        health.result(ok)
    }

    /// Says whether a server that is checked is up. `O(1)`.
    pub(crate) fn up(&self, server: usize) -> bool
        requires { (standing : Standing) × (slice_get self.now server ≡ Some (Some standing)) }
        ensures { (servers : List ServerSet) (results : List (List Bool)) → AreHealths servers results self.now → result ≡ is_up_at servers results server }
    {
        let Some(health) = &self.list[server] else {
            unreachable!()
        };
        health.up()
    }
}

/// Returns the health of a server without any result; `None` where it isn't checked.
fn health_of(server: &ServerSet) -> Option<Health>
    requires { IsTrue (is_within server.now) }
    ensures { IsHealthBy server.now.rise_fall [] result }
{
    match server.rise_fall {
        None => None,
        Some((rise, fall)) => Some(Health::new(rise, fall)),
    }
}
