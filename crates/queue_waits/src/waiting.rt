ghost use Rattle.std.specs.Prelude.{◌≡◌, ◌<◌, [], map, None, Some, IfOk, MatchOption, Contains, replicate, slice_get};
ghost use Rattle.log_entries.specs.declared.queue.Queue.TheVariants.{Server};
ghost use Rattle.log_entries.specs.Queues.{IsQueueOf};
ghost use Rattle.queue_waits.specs.Order.{next_after};
ghost use Rattle.queue_waits.specs.Waitlists.{list_of, MergesOnce, MovesWhole, LinksBackendAlone, FallsAlone, WaitsAt, HasNoKey, NoneWaitsIn, WaitsFirstIn, AreFirst, IsOrderOf, with_waiter, without_waiter, with_waiter_anew, moved_waiter, since_before, in_next_window};

use crate::by_place::{empty, put, take};
use crate::falls::{Fall, look_at, move_next, settle};
use crate::order::JoinOrder;
use crate::queues::Queues;
use crate::waiters::Waiter;
use due_key::Key;
use log_entries::Queue;
use pend_queue::PendQueue;
use server_pick::Heads;
use std::alloc::{AllocError, Global};
use std::marker::Model;

/// The waiting requests.
#[derive(Drop)]
pub struct WaitQueues<Q: PendQueue<Key, usize>> {
    queues: Queues<Q>,
    fall: Fall,
    // By place.
    waiters: Vec<Option<Waiter>>,
    order: JoinOrder,
}

/// A request that was taken out of its queue, with the node that it waited with.
#[derive(Drop)]
pub struct Taken<N> {
    pub place: usize,
    pub waiter: Waiter,
    pub node: N,
}

impl<Q: PendQueue<Key, usize>> Model for WaitQueues<Q> {
    ghost use Rattle.std.specs.Prelude.{length};
    ghost use Rattle.queue_waits.specs.Lines.{lines_of};
    ghost use Rattle.queue_waits.specs.Waitlists.{WaitingQueues};
    ghost use Rattle.queue_waits.specs.Falls.{falling_server, AreKept};

    ghost Value = { WaitingQueues };

    ghost view = { λ it. record { waiters = it.waiters.items; order = it.order.places; servers = length it.queues.own; links = it.queues.links; all_links = it.queues.all_links; falling = falling_server it.fall.server it.fall.told } };

    ghost invariant = { λ it. AreKept (lines_of it.queues) it.fall it.waiters.items it.order };
}

impl<Q: PendQueue<Key, usize>> WaitQueues<Q> {
    ghost use Rattle.queue_waits.specs.declared.waiters.Waiter.{Waiter};

    /// Makes empty queues for this number of servers and the backend, each with room for all
    /// places. `O(s n)` in the servers and places. Beside the queues a place takes 32 bytes for its
    /// pair in a queue whose server falls.
    pub fn new(alloc: Global, servers: usize, places: usize) -> Result<WaitQueues<Q>, AllocError>
        ensures nobody { IfOk result (λ made. list_of made ≡ record { waiters = replicate places None; order = []; servers = servers }) }
        ensures falling { IfOk result (λ made. made.falling ≡ None) }
    {
        Ok(WaitQueues {
            queues: Queues::new(alloc, servers, places)?,
            fall: Fall::none(alloc, places)?,
            waiters: empty(alloc, places)?,
            order: JoinOrder::with_room(alloc, places)?,
        })
    }

    /// Lets the request at a place wait. The queue's own cost beside `O(1)`.
    pub fn join(&mut self, place: usize, waiter: Waiter, node: Q::Node)
        requires vacant { slice_get self.old.waiters place ≡ Some None }
        requires within { IsQueueOf self.old.servers waiter.queue }
        requires own_key { HasNoKey self.old.waiters waiter.key }
        requires pair { Q.pair_of node ≡ (waiter.key, place) }
        ensures waits { list_of self.new ≡ with_waiter (list_of self.old) place waiter }
        ensures falling { self.new.falling ≡ None }
    {
        settle(&mut self.queues, &mut self.fall);
        self.queues.gather();
        self.queues.push(waiter.queue, node);
        put(&mut self.waiters, place, Some(waiter));
        self.order.append(place);
    }

    /// Returns the keys of the first requests of a server's queue and of the backend's. The queues' own cost.
    pub fn heads(&mut self, server: usize) -> Heads
        requires { server < self.old.servers }
        ensures heads { AreFirst server result (list_of self.new) }
        ensures same { list_of self.new ≡ list_of self.old }
        ensures links { MergesOnce Q.links_of_merge self.old self.new }
        ensures alone { self.old.falling ≡ None → LinksBackendAlone self.old self.new }
        ensures falling { self.new.falling ≡ None }
    {
        settle(&mut self.queues, &mut self.fall);
        self.queues.gather();
        self.queues.heads(server)
    }

    /// Takes out the first request of a queue; the queue's own cost beside `O(1)`. `None` only
    /// where the queue is empty.
    pub fn take(&mut self, queue: Queue) -> Option<Taken<Q::Node>>
        requires { IsQueueOf self.old.servers queue }
        ensures first { MatchOption result (NoneWaitsIn queue self.old.waiters) (λ it. WaitsFirstIn queue self.old.waiters it.place it.waiter) }
        ensures pair { MatchOption result Unit (λ it. Q.pair_of it.node ≡ (it.waiter.key, it.place)) }
        ensures left { MatchOption result (list_of self.new ≡ list_of self.old) (λ it. list_of self.new ≡ without_waiter (list_of self.old) it.place) }
        ensures falling { self.new.falling ≡ None }
    {
        settle(&mut self.queues, &mut self.fall);
        self.queues.gather();
        let Some(node) = self.queues.pop(queue) else {
            return None;
        };
        let place = *Q::pair(&node).1;
        let Some(waiter) = take(&mut self.waiters, place) else {
            unreachable!()
        };
        self.order.remove(place);
        Some(Taken {
            place,
            waiter,
            node,
        })
    }

    /// Ends the wait of the request at a place. The queue's own cost beside `O(1)`.
    pub fn leave(&mut self, place: usize) -> Q::Node
        requires { (waiter : Waiter) × WaitsAt self.old.waiters place waiter }
        ensures pair { (waiter : Waiter) × WaitsAt self.old.waiters place waiter × (Q.pair_of result ≡ (waiter.key, place)) }
        ensures left { list_of self.new ≡ without_waiter (list_of self.old) place }
        ensures falling { self.new.falling ≡ None }
    {
        settle(&mut self.queues, &mut self.fall);
        self.queues.gather();
        let Some(waiter) = take(&mut self.waiters, place) else {
            unreachable!()
        };
        let Some(node) = self.queues.remove(waiter.queue, &waiter.key) else {
            unreachable!()
        };
        self.order.remove(place);
        node
    }

    /// Moves the first request of a server's queue into the backend's, by the entry at a position
    /// of the log, and returns its place. While all requests of a queue are moved one after the
    /// other, the first one costs `O(p + n log n)` in the places and the requests in the queue, and
    /// each other one `O(1)`; the queue is merged as a whole, and with the backend's at the next
    /// call that looks at that one.
    pub fn shift(&mut self, server: usize, joined: usize) -> Option<usize>
        requires { server < self.old.servers }
        ensures shifted { MatchOption result (NoneWaitsIn (Server server) self.old.waiters × (list_of self.new ≡ list_of self.old)) (λ place. (waiter : Waiter) × WaitsFirstIn (Server server) self.old.waiters place waiter × (list_of self.new ≡ with_waiter_anew (list_of self.old) place (moved_waiter waiter joined))) }

        // Nothing is inserted into the backend's queue yet.
        ensures links { self.new.links ≡ self.old.links }

        // No request is taken out of its queue on its own.
        ensures whole { FallsAlone server self.old → MatchOption result (self.new.all_links ≡ self.old.all_links) (λ place. MovesWhole Q.links_of_merge self.old self.new) }
        ensures falling { FallsAlone server self.old → FallsAlone server self.new }
    {
        if self.queues.is_empty(server) {
            return None;
        }
        look_at(&mut self.queues, &mut self.fall, server, &self.waiters);
        let (key, place) = move_next(&mut self.queues, &mut self.fall);
        put(&mut self.waiters, place, Some(moved(key, joined)));
        self.order.remove(place);
        self.order.append(place);
        Some(place)
    }

    /// Begins a new log: all waiting requests joined before its first entry. `O(n)` in the places.
    pub fn begin_window(&mut self)
        ensures window { list_of self.new ≡ in_next_window (list_of self.old) }
        ensures links { self.new.links ≡ self.old.links }
        ensures queues { (self.new.all_links ≡ self.old.all_links) × (self.new.falling ≡ self.old.falling) }
    {
        forget_joinings(&mut self.waiters);
    }

    /// Returns the place of the request that joined first, of all queues. `O(1)`.
    pub fn oldest(&self) -> Option<usize>
        ensures oldest { result ≡ slice_get self.now.order 0 }
        ensures order { IsOrderOf self.now.waiters self.now.order }
    {
        self.order.first()
    }

    /// Returns the place of the request that joined next after the one at a place. `O(1)`.
    pub fn after(&self, place: usize) -> Option<usize>
        requires { Contains self.now.order place }
        ensures { result ≡ next_after place self.now.order }
    {
        self.order.after(place)
    }
}

/// Makes a request in the backend's queue.
fn moved(key: Key, joined: usize) -> Waiter
    ensures { result ≡ record { key = key; queue = Queue.Backend; joined = joined } }
{
    Waiter {
        key,
        queue: Queue::Backend,
        joined,
    }
}

/// Notes that all waiting requests joined before the first entry of the log.
fn forget_joinings(waiters: &mut Vec<Option<Waiter>>)
    ensures { waiters.new.items ≡ map since_before waiters.old.items }
{
    for place in 0..waiters.len() {
        waiters[place] = joined_before(waiters[place]);
    }
}

/// Notes that the request at a place joined before the first entry of the log.
fn joined_before(cell: Option<Waiter>) -> Option<Waiter>
    ensures { result ≡ since_before cell }
{
    match cell {
        None => None,
        Some(waiter) => Some(Waiter {
            joined: 0,
            ..waiter
        }),
    }
}
