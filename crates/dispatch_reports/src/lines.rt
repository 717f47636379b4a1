ghost use Rattle.std.specs.Prelude.{◌≡◌, count_by};
ghost use Rattle.dispatch_reports.specs.Lines.{is_direct, is_granted, server_line_of};

use dispatch_core::Core;
use due_key::Key;
use log_entries::Entry;
use pend_queue::PendQueue;

/// The line of a server in the report of a window.
#[derive(Clone, Copy, Debug, PartialEq, Eq)]
pub struct ServerLine {
    /// It is up, by the results of its checks.
    pub up: bool,
    /// The number of requests that it was given on arrival.
    pub direct: usize,
    /// The number of requests that it was given after a wait.
    pub granted: usize,
}

/// Returns the line of a server. `O(n)` in the window's entries.
pub(crate) fn server_line_of<Q: PendQueue<Key, usize>>(core: &Core<Q>, server: usize) -> ServerLine
    ensures { result ≡ server_line_of core.now server }
{
    let entries = core.log().entries();
    ServerLine {
        up: core.up(server),
        direct: direct_in(entries, server),
        granted: granted_in(entries, server),
    }
}

// Returns how many requests the entries give a server on arrival, and how many after a wait.
fn direct_in(entries: &[Entry], server: usize) -> usize
    ensures { result ≡ count_by (is_direct server) entries.now }
{
    entries
        .iter()
        .filter(|entry| is_direct(server, entry))
        .count()
}

fn granted_in(entries: &[Entry], server: usize) -> usize
    ensures { result ≡ count_by (is_granted server) entries.now }
{
    entries
        .iter()
        .filter(|entry| is_granted(server, entry))
        .count()
}

fn is_direct(server: usize, entry: &Entry) -> bool
    ensures { result ≡ is_direct server entry.now }
{
    match entry {
        Entry::Direct(_, other) => *other == server,
        _ => false,
    }
}

fn is_granted(server: usize, entry: &Entry) -> bool
    ensures { result ≡ is_granted server entry.now }
{
    match entry {
        Entry::Granted(_, _, other) => *other == server,
        _ => false,
    }
}
