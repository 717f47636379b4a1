ghost use Rattle.std.specs.Prelude.{◌≡◌, ◌<◌, ◌≤◌, ◌^◌, []};
ghost use Rattle.std.specs.List.{AllByRecursion};

use crate::assertions::{holds, same};
use due_key::{Class, Due, Key, Moment, Offset, order_of_keys};
use pend_queue::{ListQueue, PendQueue};
use std::alloc::{AllocError, Global};
use std::process::Abort;

// The last moment.
const LAST: u64 = (1 << 62) - 1;

const LAST_TICKET: u64 = (1 << 40) - 1;

// Makes a moment. A number out of range, which no test has, would give 0, so this can't fail.
fn moment(number: u64) -> Moment
    ensures { number < 2 ^ 62 → result ≡ number }
{
    Moment::new(number).unwrap_or(Moment::zero())
}

fn key(class: i64, arrival: u64, offset: i64, ticket: u64) -> Key
    ensures { result.ticket ≡ ticket }
{
    Key {
        class: Class::clamp(class),
        due: Due::of(moment(arrival), Offset::clamp(offset)),
        ticket,
    }
}

pub fn node_of<Q: PendQueue<Key, usize>>(
    rt: &impl Abort,
    alloc: Global,
    key: Key,
    value: usize,
) -> Q::Node
    ensures { Q.pair_of result ≡ (key, value) }
{
    Q::node(alloc, key, value).expect(rt, "memory")
}

// An empty queue.
fn empty<Q: PendQueue<Key, usize>>(rt: &impl Abort, alloc: Global) -> Q
    ensures room { Q.room result ≡ 8 }
    ensures empty { Q.pairs result ≡ [] }
{
    Q::with_room(alloc, 8).expect(rt, "memory")
}

// Inserts a pair with a ticket from `tickets.0` up to below `tickets.1`, in place of one with the same key.
fn put<Q: PendQueue<Key, usize>>(
    rt: &impl Abort,
    alloc: Global,
    queue: &mut Q,
    pair: (Key, usize),
    tickets: (u64, u64),
)
    requires room { Q.room queue.old ≡ 8 }
    requires range { (tickets.0 ≤ pair.0.ticket) × (pair.0.ticket < tickets.1) }
    requires tickets { AllByRecursion (λ p. (tickets.0 ≤ p.0.ticket) × (p.0.ticket < tickets.1)) (Q.pairs queue.old) }
    ensures room { Q.room queue.new ≡ 8 }
    ensures tickets { AllByRecursion (λ p. (tickets.0 ≤ p.0.ticket) × (p.0.ticket < tickets.1)) (Q.pairs queue.new) }
{
    let (key, value) = pair;
    let node = node_of::<Q>(rt, alloc, key, value);
    let _ = queue.remove(&key);
    holds(rt, queue.len() < 8);
    queue.push(node);
}

// Merges a queue of the tickets from 100 on into one of smaller tickets.
fn merge<Q: PendQueue<Key, usize>>(rt: &impl Abort, into: &mut Q, other: &mut Q)
    requires room { Q.room into.old ≡ 8 }
    requires other_room { Q.room other.old ≡ 8 }
    requires tickets { AllByRecursion (λ p. (0 ≤ p.0.ticket) × (p.0.ticket < 100)) (Q.pairs into.old) }
    requires other_tickets { AllByRecursion (λ p. (100 ≤ p.0.ticket) × (p.0.ticket < 200)) (Q.pairs other.old) }
    ensures room { Q.room into.new ≡ 8 }
    ensures other_room { Q.room other.new ≡ 8 }
    ensures other_tickets { AllByRecursion (λ p. (100 ≤ p.0.ticket) × (p.0.ticket < 200)) (Q.pairs other.new) }
{
    order_of_keys();
    holds(rt, into.len() + other.len() <= 8);
    into.merge(other);
}

fn expect_first<Q: PendQueue<Key, usize>>(rt: &impl Abort, queue: &Q, key: Key) {
    same(rt, queue.first().copied(), Some(key));
}

fn expect_absent<Q: PendQueue<Key, usize>>(rt: &impl Abort, queue: &mut Q, key: Key)
    requires { Q.room queue.old ≡ 8 }
    ensures { Q.room queue.new ≡ 8 }
{
    holds(rt, queue.remove(&key).is_none());
}

fn expect_removed<Q: PendQueue<Key, usize>>(rt: &impl Abort, queue: &mut Q, key: Key, value: usize)
    requires { Q.room queue.old ≡ 8 }
    ensures { Q.room queue.new ≡ 8 }
{
    let node = queue.remove(&key).expect(rt, "the key");
    same(rt, Q::into_pair(node), (key, value));
}

// Takes all pairs out, the least key first, and compares their values.
fn drain<Q: PendQueue<Key, usize>>(rt: &impl Abort, queue: &mut Q, values: &[usize])
    requires { Q.room queue.old ≡ 8 }
    ensures { Q.room queue.new ≡ 8 }
{
    same(rt, queue.len(), values.len());
    for expected in values {
        let node = queue.pop().expect(rt, "a pair");
        same(rt, *Q::pair(&node).1, *expected);
    }
    holds(rt, queue.is_empty());
    holds(rt, queue.first().is_none());
    holds(rt, queue.pop().is_none());
}

// Tests room, look-ups and the order of keys at the ends of their ranges.
fn orders_and_removes<Q: PendQueue<Key, usize>>(rt: &impl Abort, alloc: Global) {
    let mut queue = empty::<Q>(rt, alloc);
    holds(rt, queue.is_empty());
    put_five(rt, alloc, &mut queue);
    take_five(rt, &mut queue);
}

fn put_five<Q: PendQueue<Key, usize>>(rt: &impl Abort, alloc: Global, queue: &mut Q)
    requires room { Q.room queue.old ≡ 8 }
    requires empty { Q.pairs queue.old ≡ [] }
    ensures room { Q.room queue.new ≡ 8 }
{
    let any = (0, 1 << 40);
    let last = key(3000, LAST, 600_000, LAST_TICKET);
    put(rt, alloc, queue, (last, 5), any);
    put(
        rt,
        alloc,
        queue,
        (key(2047, 0, -524_287, LAST_TICKET), 3),
        any,
    );
    put(rt, alloc, queue, (key(-2047, LAST, 600_000, 0), 2), any);
    put(rt, alloc, queue, (key(-3000, 0, -600_000, 0), 1), any);
    put(rt, alloc, queue, (key(2047, LAST, 524_287, 0), 4), any);
}

fn take_five<Q: PendQueue<Key, usize>>(rt: &impl Abort, queue: &mut Q)
    requires { Q.room queue.old ≡ 8 }
{
    same(rt, queue.len(), 5);
    holds(rt, !queue.is_empty());
    expect_first(rt, queue, key(-2047, 0, -524_287, 0));

    expect_removed(rt, queue, key(2047, 0, -524_287, LAST_TICKET), 3);
    expect_absent(rt, queue, key(2047, 0, -524_287, LAST_TICKET));
    expect_removed(rt, queue, key(2047, LAST, 524_287, LAST_TICKET), 5);
    expect_removed(rt, queue, key(-2047, 0, -524_287, 0), 1);
    expect_first(rt, queue, key(-2047, LAST, 524_287, 0));
    drain(rt, queue, &[2, 4]);
    expect_absent(rt, queue, key(0, 0, 0, 0));
}

// Merges two queues whose keys alternate, then uses the emptied one again.
fn merges<Q: PendQueue<Key, usize>>(rt: &impl Abort, alloc: Global) {
    let mut queue = empty::<Q>(rt, alloc);
    let mut other = empty::<Q>(rt, alloc);
    merge_alternating(rt, alloc, &mut queue, &mut other);
}

fn merge_alternating<Q: PendQueue<Key, usize>>(
    rt: &impl Abort,
    alloc: Global,
    queue: &mut Q,
    other: &mut Q,
)
    requires room { Q.room queue.old ≡ 8 }
    requires other_room { Q.room other.old ≡ 8 }
    requires empty { Q.pairs queue.old ≡ [] }
    requires other_empty { Q.pairs other.old ≡ [] }
{
    merge(rt, queue, other);
    holds(rt, queue.is_empty());
    put_three(rt, alloc, queue);
    put_four(rt, alloc, other);
    merge_and_drain(rt, alloc, queue, other);
}

fn put_three<Q: PendQueue<Key, usize>>(rt: &impl Abort, alloc: Global, queue: &mut Q)
    requires room { Q.room queue.old ≡ 8 }
    requires tickets { AllByRecursion (λ p. (0 ≤ p.0.ticket) × (p.0.ticket < 100)) (Q.pairs queue.old) }
    ensures room { Q.room queue.new ≡ 8 }
    ensures tickets { AllByRecursion (λ p. (0 ≤ p.0.ticket) × (p.0.ticket < 100)) (Q.pairs queue.new) }
{
    put(rt, alloc, queue, (key(0, 6, 0, 1), 6), (0, 100));
    put(rt, alloc, queue, (key(0, 2, 0, 2), 2), (0, 100));
    put(rt, alloc, queue, (key(0, 4, 0, 3), 4), (0, 100));
}

fn put_four<Q: PendQueue<Key, usize>>(rt: &impl Abort, alloc: Global, queue: &mut Q)
    requires room { Q.room queue.old ≡ 8 }
    requires tickets { AllByRecursion (λ p. (100 ≤ p.0.ticket) × (p.0.ticket < 200)) (Q.pairs queue.old) }
    ensures room { Q.room queue.new ≡ 8 }
    ensures tickets { AllByRecursion (λ p. (100 ≤ p.0.ticket) × (p.0.ticket < 200)) (Q.pairs queue.new) }
{
    put(rt, alloc, queue, (key(0, 3, 0, 100), 3), (100, 200));
    put(rt, alloc, queue, (key(0, 7, 0, 101), 7), (100, 200));
    put(rt, alloc, queue, (key(0, 1, 0, 102), 1), (100, 200));
    put(rt, alloc, queue, (key(0, 4, 0, 103), 5), (100, 200));
}

fn merge_and_drain<Q: PendQueue<Key, usize>>(
    rt: &impl Abort,
    alloc: Global,
    queue: &mut Q,
    other: &mut Q,
)
    requires room { Q.room queue.old ≡ 8 }
    requires other_room { Q.room other.old ≡ 8 }
    requires tickets { AllByRecursion (λ p. (0 ≤ p.0.ticket) × (p.0.ticket < 100)) (Q.pairs queue.old) }
    requires other_tickets { AllByRecursion (λ p. (100 ≤ p.0.ticket) × (p.0.ticket < 200)) (Q.pairs other.old) }
{
    merge(rt, queue, other);
    holds(rt, other.is_empty());
    drain(rt, queue, &[1, 2, 3, 4, 5, 6, 7]);
    put(rt, alloc, other, (key(0, 9, 0, 104), 9), (100, 200));
    drain(rt, other, &[9]);
}

#[test]
fn list_queue_orders_and_removes(rt: HostRuntime) {
    orders_and_removes::<ListQueue<Key, usize>>(&rt, rt.alloc());
}

#[test]
fn list_queue_merges(rt: HostRuntime) {
    merges::<ListQueue<Key, usize>>(&rt, rt.alloc());
}

#[test]
fn list_queue_refuses_a_room_past_memory(rt: HostRuntime) {
    let queue: Result<ListQueue<Key, usize>, AllocError> = PendQueue::with_room(
        rt.alloc(),
        usize::MAX,
    );
    holds(&rt, queue.is_err());
}

#[test]
fn list_queue_looks_up_by_key(rt: HostRuntime) {
    let mut queue = empty::<ListQueue<Key, usize>>(&rt, rt.alloc());
    look_up_three(&rt, rt.alloc(), &mut queue);
}

fn look_up_three(rt: &impl Abort, alloc: Global, queue: &mut ListQueue<Key, usize>)
    requires room { queue.old.room ≡ 8 }
    requires empty { queue.old.pairs ≡ [] }
{
    put(rt, alloc, queue, (key(0, 5, 0, 1), 10), (0, 100));
    put(rt, alloc, queue, (key(0, 7, 0, 2), 20), (0, 100));
    put(rt, alloc, queue, (key(0, 6, 0, 3), 30), (0, 100));
    same(rt, queue.get(&key(0, 5, 0, 1)).copied(), Some(10));
    same(rt, queue.get(&key(0, 7, 0, 2)).copied(), Some(20));
    same(rt, queue.get(&key(0, 6, 0, 3)).copied(), Some(30));
    same(rt, queue.get(&key(0, 6, 0, 4)).copied(), None);
    same(rt, queue.len(), 3);
}
