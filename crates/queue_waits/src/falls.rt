//! Servers that fall: the requests of a queue are moved one after the other by rising key, and the
//! queue itself is merged as a whole.
ghost use Rattle.std.specs.Prelude.{◌≡◌, ◌≢◌, ◌⊎◌, ◌+◌, ◌<◌, ◌≤◌, ℕ, [], ◌∷◌, Some, IfOk, length, drop, slice_get, vec_capacity};
ghost use Rattle.std.specs.List.Sorted.{IsPermutation, IsSortedByKey};
ghost use Rattle.std.specs.Option.{option_map_or};
ghost use Rattle.due_key.specs.declared.key.Key.{Key};
ghost use Rattle.due_key.specs.Order.{key_cmp};
ghost use Rattle.log_entries.specs.declared.queue.Queue.TheVariants.{Server};
ghost use Rattle.pend_queue.specs.Pairs.{inserted};
ghost use Rattle.queue_waits.specs.Falls.{lines_in, IsFalling, MayFall};
ghost use Rattle.queue_waits.specs.InQueues.{AreLinedUp, pair_in, pairs_in};
ghost use Rattle.queue_waits.specs.Lines.{lines_of, line_at, with_line, with_moved};

use crate::queues::Queues;
use crate::waiters::Waiter;
use due_key::Key;
use log_entries::Queue;
use pend_queue::PendQueue;
use std::alloc::{AllocError, Global};

/// The server that fell last, and the content of its queue while its requests are moved.
#[derive(Drop)]
pub(crate) struct Fall {
    pub(crate) server: usize,
    // The pairs of its queue, by rising key.
    pub(crate) sorted: Vec<(Key, usize)>,
    // The number of these that were moved; 0 unless others weren't moved yet.
    pub(crate) told: usize,
}

impl Fall {
    /// Makes the state without a fall. It allocates the memory for the pairs of all places.
    pub(crate) fn none(alloc: Global, places: usize) -> Result<Fall, AllocError>
        ensures told { IfOk result (λ fall. fall.told ≡ 0) }
        ensures room { IfOk result (λ fall. places ≤ vec_capacity fall.sorted) }
    {
        Ok(Fall {
            server: 0,
            sorted: Vec::with_capacity(alloc, places)?,
            told: 0,
        })
    }

    // Begins the fall of a server, before any of its requests is moved. `O(p + n log n)` in the
    // places and the requests in its queue.
    fn begin(&mut self, server: usize, waiters: &[Option<Waiter>])
        requires { length waiters.now ≤ vec_capacity self.old.sorted }
        ensures server { self.new.server ≡ server }
        ensures told { self.new.told ≡ 0 }
        ensures pairs { IsPermutation (pairs_in (Server server) 0 waiters.now) self.new.sorted.items }
        ensures sorted { IsSortedByKey (λ pair. pair.0) key_cmp self.new.sorted.items }
        ensures capacity { vec_capacity self.new.sorted ≡ vec_capacity self.old.sorted }
    {
        self.server = server;
        self.told = 0;
        gather_pairs(&mut self.sorted, server, waiters);
        self.sorted.sort_unstable_by_key(|pair| pair.0);
    }
}

// Gathers the pairs of all requests that wait in a server's queue.
fn gather_pairs(pairs: &mut Vec<(Key, usize)>, server: usize, waiters: &[Option<Waiter>])
    requires { length waiters.now ≤ vec_capacity pairs.old }
    ensures pairs { pairs.new.items ≡ pairs_in (Server server) 0 waiters.now }
    ensures capacity { vec_capacity pairs.new ≡ vec_capacity pairs.old }
{
    pairs.clear();
    for place in 0..waiters.len() {
        if let Some(key) = key_in(waiters[place], server) {
            pairs.push_reserved((key, place));
        }
    }
}

// Returns the key of the request, if it waits in a server's queue.
fn key_in(cell: Option<Waiter>, server: usize) -> Option<Key>
    ensures { (place : ℕ) → pair_in (Server server) place cell ≡ option_map_or (λ key. (key, place) ∷ []) result [] }
{
    let waiter = cell?;
    match waiter.queue {
        Queue::Server(own) if own == server => Some(waiter.key),
        _ => None,
    }
}

/// Ends a fall of which some requests weren't moved yet: those that were leave the queue one by
/// one. This never happens while the requests of a queue are moved in a row.
pub(crate) fn settle<Q: PendQueue<Key, usize>>(queues: &mut Queues<Q>, fall: &mut Fall)
    requires { MayFall (lines_of queues.old) fall.old }
    ensures moved { lines_of queues.new ≡ lines_in (lines_of queues.old) fall.old }
    ensures links { queues.new.links ≡ queues.old.links }
    ensures all_links { fall.old.told ≡ 0 → queues.new.all_links ≡ queues.old.all_links }
    ensures ended { fall.new ≡ record fall.old { told = 0 } }
{
    for at in 0..fall.told {
        if let Some(node) = queues.pop(Queue::Server(fall.server)) {
            queues.set_aside(node);
        }
    }
    fall.told = 0;
}

/// Looks at the queue of a server, which isn't empty, to move its requests. `O(1)` where some of
/// them were moved, otherwise `O(p + n log n)` in the places and the requests in the queue.
pub(crate) fn look_at<Q: PendQueue<Key, usize>>(
    queues: &mut Queues<Q>,
    fall: &mut Fall,
    server: usize,
    waiters: &[Option<Waiter>],
)
    requires within { server < length queues.old.own }
    requires somebody { line_at (lines_of queues.old) (Server server) ≢ [] }
    requires falling { MayFall (lines_of queues.old) fall.old }
    requires lined_up { AreLinedUp (lines_in (lines_of queues.old) fall.old) waiters.now }
    requires listing { length waiters.now ≤ vec_capacity fall.old.sorted }
    ensures lines { lines_in (lines_of queues.new) fall.new ≡ lines_in (lines_of queues.old) fall.old }
    ensures server { fall.new.server ≡ server }
    ensures falling { IsFalling (lines_of queues.new) fall.new }
    ensures listing { vec_capacity fall.new.sorted ≡ vec_capacity fall.old.sorted }
    ensures links { queues.new.links ≡ queues.old.links }
    ensures all_links { (fall.old.told ≡ 0) ⊎ (fall.old.server ≡ server) → queues.new.all_links ≡ queues.old.all_links }
{
    if fall.told == 0 || fall.server != server {
        settle(queues, fall);
        fall.begin(server, waiters);
    }
}

/// Moves the next request of the server that falls, and returns its pair. The last one takes the
/// queue along, as a whole.
pub(crate) fn move_next<Q: PendQueue<Key, usize>>(
    queues: &mut Queues<Q>,
    fall: &mut Fall,
) -> (Key, usize)
    requires { IsFalling (lines_of queues.old) fall.old }
    ensures first { slice_get (line_at (lines_in (lines_of queues.old) fall.old) (Server fall.old.server)) 0 ≡ Some result }
    ensures moved { let lined = lines_in (lines_of queues.old) fall.old in lines_in (lines_of queues.new) fall.new ≡ with_moved (with_line lined (Server fall.old.server) (drop 1 (line_at lined (Server fall.old.server)))) (inserted key_cmp result lined.moved) }
    ensures falling { MayFall (lines_of queues.new) fall.new }
    ensures same { (fall.new.server ≡ fall.old.server) × (fall.new.sorted ≡ fall.old.sorted) }
    ensures links { queues.new.links ≡ queues.old.links }

    // No link, or those of one merge in all queues together.
    ensures before { fall.new.told ≢ 0 → queues.new.all_links ≡ queues.old.all_links }
    ensures last { fall.new.told ≡ 0 → queues.new.all_links ≡ queues.old.all_links + Q.links_of_merge (length queues.old.moved) (length fall.old.sorted.items) }
{
    let pair = fall.sorted[fall.told];
    fall.told += 1;
    if fall.told == fall.sorted.len() {
        queues.take_over(fall.server);
        fall.told = 0;
    }
    pair
}
