ghost use Rattle.std.specs.Prelude.{◌≡◌, ◌≢◌, ◌+◌, ◌<◌, ◌≤◌, ◌↔◌, [], IfOk, IsTrue, length, replicate, drop, slice_get, option_map};
ghost use Rattle.due_key.specs.Order.{key_cmp};
ghost use Rattle.log_entries.specs.declared.queue.Queue.TheVariants.{Backend, Server};
ghost use Rattle.log_entries.specs.Queues.{IsQueueOf};

use due_key::Key;
use log_entries::Queue;
use pend_queue::PendQueue;
use server_pick::Heads;
use std::alloc::{AllocError, Global};
use std::marker::Model;

/// The queue of each server, and the backend's, with room for all requests in each.
#[derive(Drop)]
pub(crate) struct Queues<Q: PendQueue<Key, usize>> {
    own: Vec<Q>,
    backend: Q,
    // The requests that were moved into the backend's queue and aren't merged into it yet: the
    // queues of servers that fell, each merged as a whole.
    moved: Q,
    places: usize,
}

impl<Q: PendQueue<Key, usize>> Model for Queues<Q> {
    ghost use Rattle.std.specs.Prelude.{◌+◌, map};
    ghost use Rattle.std.specs.List.{sum_by};
    ghost use Rattle.queue_waits.specs.Lines.{Queued, HaveRoom};

    ghost Value = { Queued };

    ghost view = { λ queues. record { own = map Q.pairs queues.own.items; backend = Q.pairs queues.backend; moved = Q.pairs queues.moved; room = queues.places; links = Q.links queues.backend; all_links = sum_by Q.links queues.own.items + Q.links queues.backend + Q.links queues.moved } };

    ghost invariant = { λ queues. HaveRoom queues.places (map Q.room queues.own.items) (Q.room queues.backend) (Q.room queues.moved) };
}

impl<Q: PendQueue<Key, usize>> Queues<Q> {
    ghost use Rattle.queue_waits.specs.Lines.{lines_of, line_at, first_key, with_line, with_moved, gathered, taken_over};
    ghost use Rattle.pend_queue.specs.Pairs.{KeyIsAbsent, HaveNoCommonKey, inserted, pair_at, pairs_without};

    /// Makes empty queues for this number of servers and the backend.
    pub(crate) fn new(alloc: Global, servers: usize, places: usize) -> Result<Queues<Q>, AllocError>
        ensures { IfOk result (λ queues. lines_of queues ≡ record { own = replicate servers []; backend = []; moved = []; room = places }) }
    {
        let mut own = Vec::with_capacity(alloc, servers)?;
        for server in 0..servers {
            own.push_reserved(Q::with_room(alloc, places)?);
        }
        Ok(Queues {
            own,
            backend: Q::with_room(alloc, places)?,
            moved: Q::with_room(alloc, places)?,
            places,
        })
    }

    /// Returns the least keys of a server's queue and of the backend's.
    pub(crate) fn heads(&self, server: usize) -> Heads
        requires { server < length self.now.own }
        ensures own { result.own ≡ first_key (line_at (lines_of self.now) (Server server)) }
        ensures backend { result.backend ≡ first_key self.now.backend }
    {
        Heads {
            own: self.own[server].first().copied(),
            backend: self.backend.first().copied(),
        }
    }

    /// Inserts a request into a queue.
    pub(crate) fn push(&mut self, queue: Queue, node: Q::Node)
        requires within { IsQueueOf (length self.old.own) queue }
        requires room { length (line_at (lines_of self.old) queue) < self.old.room }
        requires absent { KeyIsAbsent key_cmp (Q.pair_of node).0 (line_at (lines_of self.old) queue) }
        ensures { lines_of self.new ≡ with_line (lines_of self.old) queue (inserted key_cmp (Q.pair_of node) (line_at (lines_of self.old) queue)) }
    {
        match queue {
            Queue::Backend => self.backend.push(node),
            Queue::Server(server) => self.own[server].push(node),
        }
    }

    /// Takes out the first request of a queue.
    pub(crate) fn pop(&mut self, queue: Queue) -> Option<Q::Node>
        requires { IsQueueOf (length self.old.own) queue }
        ensures links { queue ≢ Backend → self.new.links ≡ self.old.links }
        ensures first { option_map Q.pair_of result ≡ slice_get (line_at (lines_of self.old) queue) 0 }
        ensures rest { lines_of self.new ≡ with_line (lines_of self.old) queue (drop 1 (line_at (lines_of self.old) queue)) }
    {
        match queue {
            Queue::Backend => self.backend.pop(),
            Queue::Server(server) => self.own[server].pop(),
        }
    }

    /// Takes out the request with a key.
    pub(crate) fn remove(&mut self, queue: Queue, key: &Key) -> Option<Q::Node>
        requires { IsQueueOf (length self.old.own) queue }
        ensures its { option_map Q.pair_of result ≡ pair_at key_cmp key.now (line_at (lines_of self.old) queue) }
        ensures rest { lines_of self.new ≡ with_line (lines_of self.old) queue (pairs_without key_cmp key.now (line_at (lines_of self.old) queue)) }
    {
        match queue {
            Queue::Backend => self.backend.remove(key),
            Queue::Server(server) => self.own[server].remove(key),
        }
    }

    /// Keeps a moved request apart until the moved ones are merged.
    pub(crate) fn set_aside(&mut self, node: Q::Node)
        requires room { length self.old.moved < self.old.room }
        requires absent { KeyIsAbsent key_cmp (Q.pair_of node).0 self.old.moved }
        ensures aside { lines_of self.new ≡ with_moved (lines_of self.old) (inserted key_cmp (Q.pair_of node) self.old.moved) }
        ensures links { self.new.links ≡ self.old.links }
    {
        self.moved.push(node);
    }

    /// Says whether a server's queue is empty.
    pub(crate) fn is_empty(&self, server: usize) -> bool
        requires { server < length self.now.own }
        ensures { IsTrue result ↔ (line_at (lines_of self.now) (Server server) ≡ []) }
    {
        self.own[server].is_empty()
    }

    /// Merges the queue of a server that fell into the moved requests.
    pub(crate) fn take_over(&mut self, server: usize)
        requires within { server < length self.old.own }
        requires room { length self.old.moved + length (line_at (lines_of self.old) (Server server)) ≤ self.old.room }
        requires apart { HaveNoCommonKey key_cmp self.old.moved (line_at (lines_of self.old) (Server server)) }
        ensures merged { lines_of self.new ≡ taken_over (lines_of self.old) server }
        ensures links { self.new.links ≡ self.old.links }

        // One merge and nothing else, in all queues together.
        ensures all_links { self.new.all_links ≡ self.old.all_links + Q.links_of_merge (length self.old.moved) (length (line_at (lines_of self.old) (Server server))) }
    {
        self.moved.merge(&mut self.own[server]);
    }

    /// Merges the moved requests into the backend's queue.
    pub(crate) fn gather(&mut self)
        requires room { length self.old.backend + length self.old.moved ≤ self.old.room }
        requires apart { HaveNoCommonKey key_cmp self.old.backend self.old.moved }
        ensures merged { lines_of self.new ≡ gathered (lines_of self.old) }

        // One merge and nothing else: no other call of a queue says how many links it makes.
        ensures links { self.new.links ≡ self.old.links + Q.links_of_merge (length self.old.backend) (length self.old.moved) }
        ensures all_links { self.new.all_links ≡ self.old.all_links + Q.links_of_merge (length self.old.backend) (length self.old.moved) }
    {
        self.backend.merge(&mut self.moved);
    }
}
