ghost use Rattle.std.specs.Prelude.{◌≡◌, ℕ, ◌<◌, ◌↔◌, IsTrue, MatchOption, length};
ghost use Rattle.log_entries.specs.Grants.{CanTake, IsSettled, IsNextTaker};
ghost use Rattle.log_entries.specs.Picks.{weight_of};
ghost use Rattle.log_entries.specs.States.{cursor_after_granting};
ghost use Rattle.slot_ledger.specs.Ledgers.{scene_in};
ghost use Rattle.slot_ledger.specs.Cells.{rows_in};
ghost use Rattle.server_pick.specs.Heads.{AreHeads, IsLawfulTake, has_stay, queue_of, goes_first};
ghost use Rattle.server_pick.specs.Picked.{IsFirstWeightless};
ghost use Rattle.server_pick.specs.Sets.{IsIn};

use crate::balance::pick;
use crate::cursor::Cursor;
use crate::heads::Heads;
use crate::server_set::Set64;
use crate::servers::{is_free, is_usable, weight};
use due_key::Key;
use log_entries::Queue;
use slot_ledger::Ledger;

/// Returns the server that takes next: one of weight 0 first, otherwise the pick of those that can
/// take; `None` only where all is settled.
pub fn next_taker<H: Drop>(ledger: &Ledger<H>, cursor: &mut Cursor) -> Option<usize>
    ensures next { MatchOption result (IsSettled (scene_in ledger.now)) (IsNextTaker (scene_in ledger.now) cursor.old) }
    ensures cursor { MatchOption result (cursor.new ≡ cursor.old) (λ server. cursor.new ≡ cursor_after_granting ledger.now.setup server cursor.old) }
{
    let takers = takers(ledger);
    if takers.is_empty() {
        return None;
    }
    if let Some(server) = first_weightless(ledger, &takers) {
        return Some(server);
    }
    pick(ledger, cursor, &takers)
}

/// Returns the queue whose head the next taker takes: its own, or the backend's where the server is
/// usable and the key there is smaller. `O(1)`.
pub fn next_queue<H: Drop>(ledger: &Ledger<H>, heads: &Heads, server: usize) -> Queue
    requires heads { AreHeads heads.now server (rows_in ledger.now.cells) }
    ensures queue { result ≡ queue_of (scene_in ledger.now) heads.now server }
    ensures lawful { (cursor : ℕ) → IsNextTaker (scene_in ledger.now) cursor server → IsLawfulTake (scene_in ledger.now) cursor heads.now server result }
{
    queue_of(ledger, heads, server)
}

/// Returns the servers that can take.
fn takers<H: Drop>(ledger: &Ledger<H>) -> Set64
    ensures { (server : ℕ) → IsIn result server ↔ CanTake (scene_in ledger.now) server }
{
    let mut set = Set64::new();
    'filling: for server in 0..ledger.setup().servers.len() {
        set.insert_if(server, can_take(ledger, server));
    }
    set
}

/// Says whether a server is free and has a request to take.
fn can_take<H: Drop>(ledger: &Ledger<H>, server: usize) -> bool
    ensures { IsTrue result ↔ CanTake (scene_in ledger.now) server }
{
    is_free(ledger, server) && has_stay(ledger, server)
}

/// Says whether a request waits in a queue that a slot of the server may go to.
fn has_stay<H: Drop>(ledger: &Ledger<H>, server: usize) -> bool
    ensures { result ≡ has_stay (scene_in ledger.now) server }
{
    ledger.up(server) && 0 < ledger.queued(Queue::Server(server))
        || is_usable(ledger, server) && 0 < ledger.queued(Queue::Backend)
}

/// Returns the first server of weight 0 in a set.
fn first_weightless<H: Drop>(ledger: &Ledger<H>, among: &Set64) -> Option<usize>
    requires { (server : ℕ) → IsIn among.now server → server < length ledger.now.setup.servers }
    ensures { IsFirstWeightless (scene_in ledger.now) (IsIn among.now) result }
{
    'looking: for server in 0..ledger.setup().servers.len() {
        if among.contains(server) && weight(ledger, server) == 0 {
            return Some(server);
        }
    }
    None
}

/// Returns the queue whose head the server takes: its own, or the backend's where the server is
/// usable and the key there is smaller.
fn queue_of<H: Drop>(ledger: &Ledger<H>, heads: &Heads, server: usize) -> Queue
    ensures { result ≡ queue_of (scene_in ledger.now) heads.now server }
{
    if is_usable(ledger, server) && goes_first(heads.backend, heads.own) {
        Queue::Backend
    } else {
        Queue::Server(server)
    }
}

/// Says whether the head of the backend's queue goes before the head of a server's.
fn goes_first(other: Option<Key>, own: Option<Key>) -> bool
    ensures { result ≡ goes_first other own }
{
    match other {
        None => false,
        Some(other) => match own {
            None => true,
            Some(own) => other < own,
        },
    }
}
