ghost use Rattle.std.specs.Prelude.{◌≡◌, ◌<◌, [], None, Some, replicate, slice_get, slice_set};
ghost use Rattle.queue_waits.specs.declared.waiters.Waiter.{Waiter};
ghost use Rattle.queue_waits.specs.Waitlists.{HasNoKey, list_of};

use crate::assertions::{holds, same};
use crate::lists::node_of;
use binom_queue::BinomQueue;
use due_key::{Class, Due, Key, Moment, Offset};
use log_entries::Queue;
use pend_queue::{ListQueue, PendQueue};
use queue_waits::{JoinOrder, WaitQueues, Waiter};
use std::alloc::Global;
use std::process::Abort;

type OfLists = WaitQueues<ListQueue<Key, usize>>;

type OfTrees = WaitQueues<BinomQueue<Key, usize>>;

// Reads the order from its front, and compares it with the expected places; `None` after the last.
fn stands(order: &JoinOrder, wanted: &[Option<usize>]) -> bool {
    let mut place = order.first();
    for want in wanted {
        if place != *want {
            return false;
        }
        if let Some(found) = place {
            if !order.contains(found) {
                return false;
            }
            place = order.after(found);
        }
    }
    place.is_none()
}

// A step of a test, which runs on an order.
#[derive(Clone, Copy)]
enum Step {
    Append(usize),
    Remove(usize),
    // These places stand in it, from its front on; `None` after the last.
    Stands([Option<usize>; 5]),
    // This place stands in it, or doesn't.
    Contains(usize, bool),
    First(Option<usize>),
    // The place after this one.
    After(usize, Option<usize>),
}

// Runs the steps on an order with this room.
fn play(rt: &impl Abort, alloc: Global, room: usize, steps: &[Step]) {
    let mut order = JoinOrder::with_room(alloc, room).expect(rt, "memory");
    play_on(rt, &mut order, room, steps);
}

fn play_on(rt: &impl Abort, order: &mut JoinOrder, room: usize, steps: &[Step])
    requires { order.old.room ≡ room }
{
    for step in steps {
        play_one(rt, order, room, step);
    }
}

fn play_one(rt: &impl Abort, order: &mut JoinOrder, room: usize, step: &Step)
    requires { order.old.room ≡ room }
    ensures { order.new.room ≡ room }
{
    match step {
        Step::Append(place) => append(rt, order, room, *place),
        Step::Remove(place) => remove(rt, order, *place),
        Step::Stands(wanted) => holds(rt, stands(order, wanted)),
        Step::Contains(place, is_in) => same(rt, order.contains(*place), *is_in),
        Step::First(first) => same(rt, order.first(), *first),
        Step::After(place, next) => same(rt, after(rt, order, *place), *next),
    }
}

fn append(rt: &impl Abort, order: &mut JoinOrder, room: usize, place: usize)
    requires { order.old.room ≡ room }
    ensures { order.new.room ≡ order.old.room }
{
    holds(rt, place < room);
    holds(rt, !order.contains(place));
    order.append(place);
}

fn remove(rt: &impl Abort, order: &mut JoinOrder, place: usize)
    ensures { order.new.room ≡ order.old.room }
{
    holds(rt, order.contains(place));
    order.remove(place);
}

fn after(rt: &impl Abort, order: &JoinOrder, place: usize) -> Option<usize> {
    holds(rt, order.contains(place));
    order.after(place)
}

#[test]
fn places_leave_from_the_front_the_middle_and_the_end(rt: HostRuntime) {
    let steps = [
        Step::First(None),
        Step::Append(3),
        Step::Append(0),
        Step::Append(4),
        Step::Append(1),
        Step::Stands([Some(3), Some(0), Some(4), Some(1), None]),
        Step::Contains(2, false),
        Step::Remove(0),
        Step::Stands([Some(3), Some(4), Some(1), None, None]),
        Step::Remove(3),
        Step::Stands([Some(4), Some(1), None, None, None]),
        Step::Append(3),
        Step::Remove(3),
        Step::Append(2),
        Step::Stands([Some(4), Some(1), Some(2), None, None]),
        Step::After(1, Some(2)),
        Step::After(2, None),
    ];
    play(&rt, rt.alloc(), 5, &steps);
}

#[test]
fn a_place_may_come_back(rt: HostRuntime) {
    let steps = [
        Step::Append(0),
        Step::Stands([Some(0), None, None, None, None]),
        Step::Remove(0),
        Step::Stands([None, None, None, None, None]),
        Step::Append(0),
        Step::Stands([Some(0), None, None, None, None]),
    ];
    play(&rt, rt.alloc(), 1, &steps);
}

fn key(ticket: u64) -> Key
    ensures { result.ticket ≡ ticket }
{
    Key {
        class: Class::clamp(0),
        due: Due::of(Moment::zero(), Offset::clamp(0)),
        ticket,
    }
}

// A request that waits since the fifth entry.
fn waiter(key: Key, queue: Queue) -> Waiter
    ensures { result ≡ record { key = key; queue = queue; joined = 5 } }
{
    Waiter {
        key,
        queue,
        joined: 5,
    }
}

// Makes empty queues with room for four requests, at two servers.
fn nobody<Q: PendQueue<Key, usize>>(rt: &impl Abort, alloc: Global) -> WaitQueues<Q>
    ensures { list_of result ≡ record { waiters = replicate 4 None; order = []; servers = 2 } }
{
    WaitQueues::new(alloc, 2, 4).expect(rt, "memory")
}

#[test]
fn nobody_waits_at_first(rt: HostRuntime) {
    let mut waiting: OfLists = nobody(&rt, rt.alloc());
    find_nobody(&rt, &mut waiting);
}

fn find_nobody<Q: PendQueue<Key, usize>>(rt: &impl Abort, waiting: &mut WaitQueues<Q>)
    requires { list_of waiting.old ≡ record { waiters = replicate 4 None; order = []; servers = 2 } }
{
    same(rt, waiting.oldest(), None);
    same(rt, waiting.heads(0).backend, None);
    same(rt, waiting.shift(1, 9), None);
    holds(rt, waiting.take(Queue::Server(0)).is_none());
}

#[test]
fn a_request_leaves_its_queue(rt: HostRuntime) {
    let mut waiting: OfLists = nobody(&rt, rt.alloc());
    join_and_leave(&rt, rt.alloc(), &mut waiting);
}

fn join_and_leave<Q: PendQueue<Key, usize>>(
    rt: &impl Abort,
    alloc: Global,
    waiting: &mut WaitQueues<Q>,
)
    requires { list_of waiting.old ≡ record { waiters = replicate 4 None; order = []; servers = 2 } }
{
    let waiter = waiter(key(7), Queue::Server(0));
    let node = node_of::<Q>(rt, alloc, waiter.key, 3);
    waiting.join(3, waiter, node);
    same(rt, waiting.oldest(), Some(3));
    same(rt, waiting.after(3), None);
    let node = waiting.leave(3);
    same(rt, *Q::pair(&node).1, 3);
    same(rt, waiting.oldest(), None);
}

#[test]
fn a_request_that_moves_waits_anew(rt: HostRuntime) {
    let mut waiting: OfLists = nobody(&rt, rt.alloc());
    join_and_move(&rt, rt.alloc(), &mut waiting, &key(7));
}

fn join_and_move<Q: PendQueue<Key, usize>>(
    rt: &impl Abort,
    alloc: Global,
    waiting: &mut WaitQueues<Q>,
    key: &Key,
)
    requires { list_of waiting.old ≡ record { waiters = replicate 4 None; order = []; servers = 2 } }
{
    let node = node_of::<Q>(rt, alloc, *key, 3);
    waiting.join(3, waiter(*key, Queue::Server(1)), node);
    same(rt, waiting.heads(1).own, Some(*key));
    same(rt, waiting.shift(1, 9), Some(3));
    let heads = waiting.heads(1);
    same(rt, (heads.own, heads.backend), (None, Some(*key)));
    let moved = Waiter {
        key: *key,
        queue: Queue::Backend,
        joined: 9,
    };
    same(rt, take_from_backend(rt, waiting), (3, moved));
}

fn take_from_backend<Q: PendQueue<Key, usize>>(
    rt: &impl Abort,
    waiting: &mut WaitQueues<Q>,
) -> (usize, Waiter)
    ensures { waiting.new.servers ≡ waiting.old.servers }
{
    let taken = waiting.take(Queue::Backend).expect(rt, "a request");
    (taken.place, taken.waiter)
}

#[test]
fn forty_of_two_servers_move(rt: HostRuntime) {
    let mut lists: OfLists = WaitQueues::new(rt.alloc(), 2, 40).expect(&rt, "memory");
    move_forty(&rt, rt.alloc(), &mut lists, false);
    let mut trees: OfTrees = WaitQueues::new(rt.alloc(), 2, 40).expect(&rt, "memory");
    move_forty(&rt, rt.alloc(), &mut trees, false);
}

// No caller looks while a server falls, but the calls allow it.
#[test]
fn a_fall_may_be_looked_at(rt: HostRuntime) {
    let mut lists: OfLists = WaitQueues::new(rt.alloc(), 2, 40).expect(&rt, "memory");
    move_forty(&rt, rt.alloc(), &mut lists, true);
    let mut trees: OfTrees = WaitQueues::new(rt.alloc(), 2, 40).expect(&rt, "memory");
    move_forty(&rt, rt.alloc(), &mut trees, true);
}

// Both servers fall, one after the other.
fn move_forty<Q: PendQueue<Key, usize>>(
    rt: &impl Abort,
    alloc: Global,
    waiting: &mut WaitQueues<Q>,
    looks: bool,
)
    requires { list_of waiting.old ≡ record { waiters = replicate 40 None; order = []; servers = 2 } }
{
    join_forty(rt, alloc, waiting);
    fall(rt, waiting, 0, looks);
    fall(rt, waiting, 1, looks);
    take_forty(rt, waiting);
}

// The later ones have the lower tickets.
fn join_forty<Q: PendQueue<Key, usize>>(rt: &impl Abort, alloc: Global, waiting: &mut WaitQueues<Q>)
    requires { list_of waiting.old ≡ record { waiters = replicate 40 None; order = []; servers = 2 } }
    ensures { waiting.new.servers ≡ 2 }
{
    for place in 0..40 {
        join_one(rt, alloc, waiting, place, &key(40 - place as u64));
    }
}

fn join_one<Q: PendQueue<Key, usize>>(
    rt: &impl Abort,
    alloc: Global,
    waiting: &mut WaitQueues<Q>,
    place: usize,
    key: &Key,
)
    requires servers { waiting.old.servers ≡ 2 }
    requires vacant { slice_get waiting.old.waiters place ≡ Some None }
    requires own_key { HasNoKey waiting.old.waiters key.now }
    ensures servers { waiting.new.servers ≡ 2 }
    ensures waits { (waiter : Waiter) × (waiter.key ≡ key.now) × (waiting.new.waiters ≡ slice_set waiting.old.waiters place (Some waiter)) }
{
    let node = node_of::<Q>(rt, alloc, *key, place);
    waiting.join(place, waiter(*key, Queue::Server(place % 2)), node);
}

// Moves the twenty requests of a server, the lowest ticket first, and looks after every third one.
fn fall<Q: PendQueue<Key, usize>>(
    rt: &impl Abort,
    waiting: &mut WaitQueues<Q>,
    server: usize,
    looks: bool,
)
    requires servers { waiting.old.servers ≡ 2 }
    requires within { server < 2 }
    ensures { waiting.new.servers ≡ 2 }
{
    for moved in 0..20 {
        if looks && moved % 3 == 2 {
            let heads = waiting.heads(server);
            same(
                rt,
                ticket_of(heads.own),
                Some(2 * moved as u64 + 2 - server as u64),
            );
        }
        same(rt, waiting.shift(server, 90), Some(38 + server - 2 * moved));
    }
    same(rt, waiting.shift(server, 90), None);
}

fn ticket_of(key: Option<Key>) -> Option<u64> {
    key.map(|key| key.ticket)
}

fn take_forty<Q: PendQueue<Key, usize>>(rt: &impl Abort, waiting: &mut WaitQueues<Q>)
    requires { waiting.old.servers ≡ 2 }
{
    for taken in 0..40 {
        same(rt, take_from_backend(rt, waiting).0, 39 - taken);
    }
}
