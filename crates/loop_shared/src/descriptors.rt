//! The number of clients that there are descriptors for.

ghost use Rattle.std.specs.Prelude.{◌≡◌, ◌-◌, ◌/◌, max, min};
ghost use Rattle.loop_shared.specs.Descriptors.{most_clients};

use libc::types::rlimit;

/// The most descriptors of a process beside its clients and servers: its standard streams, the
/// listener, a check of each server, its logs, and operators' connections (32 for steering and 16
/// for the admin address).
const OWN: u64 = 128;

/// The descriptors of a loop: its poll, that poll's copy, and its mailbox.
const EACH_LOOP: u64 = 3;

/// The most connections at a time.
#[derive(Clone, Copy, Debug, PartialEq, Eq)]
pub struct ConnectionBounds {
    /// Of clients that are served or wait.
    pub clients: u64,
    /// Of clients that linger after their last answer.
    pub lingering: u64,
    /// Of servers, unused.
    pub unused: u64,
}

/// The servers' connections: the most in use, and the most that stay open unused.
#[derive(Clone, Copy)]
pub struct ServerConnections {
    pub used: usize,
    pub unused: usize,
}

/// Returns the numbers of connections that the process has descriptors for, with this number of
/// loops and these servers' connections.
pub fn most_connections(loops: usize, servers: ServerConnections) -> ConnectionBounds {
    let mut limit = rlimit {
        rlim_cur: 0,
        rlim_max: 0,
    };
    if libc::getrlimit(libc::RLIMIT_NOFILE, &mut limit) != 0 {
        return most_within(0, 0, 0);
    }
    let own = (loops as u64).saturating_mul(EACH_LOOP).saturating_add(OWN);
    let descriptors = limit.rlim_cur.saturating_sub(own);
    most_within(descriptors, servers.used as u64, servers.unused as u64)
}

// Divides the descriptors: an eighth are for lingering clients, and up to another eighth for unused
// connections of servers, where these are wanted. A client has one, and at most one more for a
// server: clients get all others except those for the servers' connections, or half of them where
// that is more. There is always room for one client.
fn most_within(descriptors: u64, servers: u64, wanted: u64) -> ConnectionBounds
    ensures lingering { result.lingering ≡ descriptors / 8 }
    ensures unused { result.unused ≡ min (descriptors / 8) wanted }
    ensures clients { result.clients ≡ most_clients (descriptors - descriptors / 8 - min (descriptors / 8) wanted) servers }
{
    let lingering = descriptors / 8;
    let unused = lingering.min(wanted);
    let others = descriptors - lingering - unused;
    ConnectionBounds {
        clients: (others / 2).max(others.saturating_sub(servers)).max(1),
        lingering,
        unused,
    }
}
