ghost use Rattle.std.specs.Prelude.{◌≡◌, ℕ, ◌+◌, ◌*◌, ◌/◌, ◌<◌, ◌≤◌, [], if◌then◌else◌};
ghost use Rattle.std.specs.List.{AllByRecursion};

use crate::assertions::{holds, same};
use binom_queue::BinomQueue;
use pend_queue::{ListQueue, PendQueue};
use std::alloc::Global;
use std::process::Abort;

const ROOM: usize = 1000;

// Makes a step of a linear congruential generator, whose upper bits are used.
fn next(random: &mut u64) -> u64 {
    *random = random
        .wrapping_mul(6_364_136_223_846_793_005)
        .wrapping_add(1_442_695_040_888_963_407);
    *random >> 33
}

// The random number that chooses the next call, and the answers of the calls.
#[derive(Drop)]
struct Course {
    random: u64,
    answers: Vec<u64>,
}

fn note(rt: &impl Abort, course: &mut Course, answer: (u64, u64)) {
    course.answers.push(answer.0).expect(rt, "memory");
    course.answers.push(answer.1).expect(rt, "memory");
}

// An empty queue.
fn empty<Q: PendQueue<u64, u64>>(rt: &impl Abort, alloc: Global) -> Q
    ensures room { Q.room result ≡ ROOM }
    ensures empty { Q.pairs result ≡ [] }
{
    Q::with_room(alloc, ROOM).expect(rt, "memory")
}

fn node_of<Q: PendQueue<u64, u64>>(rt: &impl Abort, alloc: Global, key: u64) -> Q::Node
    ensures { Q.pair_of result ≡ (key, key / 2) }
{
    Q::node(alloc, key, key / 2).expect(rt, "memory")
}

// Inserts a pair with a key from `range.0` up to below `range.1`, in place of one with the same key.
fn put<Q: PendQueue<u64, u64>>(
    rt: &impl Abort,
    alloc: Global,
    queue: &mut Q,
    key: u64,
    range: (u64, u64),
)
    requires room { Q.room queue.old ≡ ROOM }
    requires range { (range.0 ≤ key) × (key < range.1) }
    requires keys { AllByRecursion (λ p. (range.0 ≤ p.0) × (p.0 < range.1)) (Q.pairs queue.old) }
    ensures room { Q.room queue.new ≡ ROOM }
    ensures keys { AllByRecursion (λ p. (range.0 ≤ p.0) × (p.0 < range.1)) (Q.pairs queue.new) }
{
    let node = node_of::<Q>(rt, alloc, key);
    let _ = queue.remove(&key);
    holds(rt, queue.len() < ROOM);
    queue.push(node);
}

// Merges a queue of the keys from ROOM on into one of smaller keys.
fn merge<Q: PendQueue<u64, u64>>(rt: &impl Abort, queue: &mut Q, other: &mut Q)
    requires room { Q.room queue.old ≡ ROOM }
    requires other_room { Q.room other.old ≡ ROOM }
    requires keys { AllByRecursion (λ p. (0 ≤ p.0) × (p.0 < ROOM)) (Q.pairs queue.old) }
    requires other_keys { AllByRecursion (λ p. (ROOM ≤ p.0) × (p.0 < 2 * ROOM)) (Q.pairs other.old) }
    ensures room { Q.room queue.new ≡ ROOM }
    ensures other_room { Q.room other.new ≡ ROOM }
    ensures keys { AllByRecursion (λ p. (0 ≤ p.0) × (p.0 < 2 * ROOM)) (Q.pairs queue.new) }
    ensures emptied { Q.pairs other.new ≡ [] }
{
    holds(rt, queue.len() + other.len() <= ROOM);
    queue.merge(other);
}

// Makes a call that takes out at most one pair, and returns its answer.
fn take<Q: PendQueue<u64, u64>>(queue: &mut Q, random: u64, key: u64) -> (u64, u64)
    ensures room { Q.room queue.new ≡ Q.room queue.old }
    ensures keys { (low high : ℕ) → AllByRecursion (λ p. (low ≤ p.0) × (p.0 < high)) (Q.pairs queue.old) → AllByRecursion (λ p. (low ≤ p.0) × (p.0 < high)) (Q.pairs queue.new) }
{
    match random % 3 {
        0 => pair_of::<Q>(queue.pop()),
        1 => pair_of::<Q>(queue.remove(&key)),
        _ => (
            queue.len() as u64,
            queue.first().copied().unwrap_or(u64::MAX),
        ),
    }
}

fn pair_of<Q: PendQueue<u64, u64>>(node: Option<Q::Node>) -> (u64, u64) {
    match node {
        Some(node) => Q::into_pair(node),
        None => (u64::MAX, u64::MAX),
    }
}

// Makes a random call with a key of a range.
fn call<Q: PendQueue<u64, u64>>(
    rt: &impl Abort,
    alloc: Global,
    queue: &mut Q,
    range: (u64, u64),
    course: &mut Course,
)
    requires room { Q.room queue.old ≡ ROOM }
    requires some { range.0 < range.1 }
    requires keys { AllByRecursion (λ p. (range.0 ≤ p.0) × (p.0 < range.1)) (Q.pairs queue.old) }
    ensures room { Q.room queue.new ≡ ROOM }
    ensures keys { AllByRecursion (λ p. (range.0 ≤ p.0) × (p.0 < range.1)) (Q.pairs queue.new) }
{
    let (low, high) = range;
    let key = low + next(&mut course.random) % (high - low);
    let choice = next(&mut course.random);
    if choice % 8 < 4 {
        put(rt, alloc, queue, key, range);
        return;
    }
    note(rt, course, take(queue, choice / 8, key));
}

fn calls<Q: PendQueue<u64, u64>>(
    rt: &impl Abort,
    alloc: Global,
    queue: &mut Q,
    range: (u64, u64),
    course: &mut Course,
)
    requires room { Q.room queue.old ≡ ROOM }
    requires some { range.0 < range.1 }
    requires keys { AllByRecursion (λ p. (range.0 ≤ p.0) × (p.0 < range.1)) (Q.pairs queue.old) }
    ensures room { Q.room queue.new ≡ ROOM }
    ensures keys { AllByRecursion (λ p. (range.0 ≤ p.0) × (p.0 < range.1)) (Q.pairs queue.new) }
{
    for _ in 0..400 {
        call(rt, alloc, queue, range, course);
    }
}

// Takes all pairs out.
fn drain<Q: PendQueue<u64, u64>>(rt: &impl Abort, queue: &mut Q, course: &mut Course)
    ensures room { Q.room queue.new ≡ Q.room queue.old }
    ensures emptied { Q.pairs queue.new ≡ [] }
{
    while let Some(node) = queue.pop() {
        note(rt, course, Q::into_pair(node));
    }
}

// Makes calls on two queues, merges them, and makes calls on the results. Both are empty then.
fn round<Q: PendQueue<u64, u64>>(
    rt: &impl Abort,
    alloc: Global,
    queue: &mut Q,
    other: &mut Q,
    course: &mut Course,
)
    requires room { Q.room queue.old ≡ ROOM }
    requires other_room { Q.room other.old ≡ ROOM }
    requires empty { Q.pairs queue.old ≡ [] }
    requires other_empty { Q.pairs other.old ≡ [] }
    ensures room { Q.room queue.new ≡ ROOM }
    ensures other_room { Q.room other.new ≡ ROOM }
    ensures empty { Q.pairs queue.new ≡ [] }
    ensures other_empty { Q.pairs other.new ≡ [] }
{
    calls(rt, alloc, queue, (0, ROOM as u64), course);
    calls(rt, alloc, other, (ROOM as u64, 2 * ROOM as u64), course);
    merge(rt, queue, other);
    calls(rt, alloc, queue, (0, 2 * ROOM as u64), course);
    drain(rt, queue, course);
}

// 100 rounds of 1,200 calls.
fn rounds<Q: PendQueue<u64, u64>>(
    rt: &impl Abort,
    alloc: Global,
    queue: &mut Q,
    other: &mut Q,
    course: &mut Course,
)
    requires room { Q.room queue.old ≡ ROOM }
    requires other_room { Q.room other.old ≡ ROOM }
    requires empty { Q.pairs queue.old ≡ [] }
    requires other_empty { Q.pairs other.old ≡ [] }
{
    for _ in 0..100 {
        round(rt, alloc, queue, other, course);
    }
}

// Returns the answers.
fn answers<Q: PendQueue<u64, u64>>(rt: &impl Abort, alloc: Global) -> Vec<u64> {
    let mut queue = empty::<Q>(rt, alloc);
    let mut other = empty::<Q>(rt, alloc);
    let mut course = Course {
        random: 1,
        answers: Vec::new(alloc),
    };
    rounds(rt, alloc, &mut queue, &mut other, &mut course);
    let Course { random: _, answers } = course;
    answers
}

#[test]
fn both_queues_answer_alike(rt: HostRuntime) {
    let of_list = answers::<ListQueue<u64, u64>>(&rt, rt.alloc());
    let of_trees = answers::<BinomQueue<u64, u64>>(&rt, rt.alloc());
    holds(&rt, of_list.len() > 100_000);
    same(&rt, of_trees.as_slice(), of_list.as_slice());
}

// Inserts `count` keys from `low` on.
fn fill(rt: &impl Abort, alloc: Global, queue: &mut BinomQueue<u64, u64>, low: u64, count: u64)
    requires range { (low ≤ ROOM) × (count ≤ 100) }
    requires room { queue.old.room ≡ ROOM }
    requires empty { queue.old.pairs ≡ [] }
    ensures room { queue.new.room ≡ ROOM }
    ensures keys { AllByRecursion (λ p. (low ≤ p.0) × (p.0 < low + 100)) queue.new.pairs }
{
    for i in 0..count {
        put(rt, alloc, queue, low + i, (low, low + 100));
    }
}

// Merges queues of two lengths, and compares the number of links.
fn expect_links(rt: &impl Abort, alloc: Global, lengths: (u64, u64), links: u64)
    requires { (lengths.0 ≤ 100) × (lengths.1 ≤ 100) }
{
    let mut queue = empty::<BinomQueue<u64, u64>>(rt, alloc);
    let mut other = empty::<BinomQueue<u64, u64>>(rt, alloc);
    fill(rt, alloc, &mut queue, 0, lengths.0);
    fill(rt, alloc, &mut other, 100, lengths.1);
    merge_counted(rt, &mut queue, &mut other, lengths, links);
}

fn merge_counted(
    rt: &impl Abort,
    queue: &mut BinomQueue<u64, u64>,
    other: &mut BinomQueue<u64, u64>,
    lengths: (u64, u64),
    links: u64,
)
    requires lengths { (lengths.0 ≤ 100) × (lengths.1 ≤ 100) }
    requires room { queue.old.room ≡ ROOM }
    requires other_room { other.old.room ≡ ROOM }
    requires keys { AllByRecursion (λ p. (0 ≤ p.0) × (p.0 < 100)) queue.old.pairs }
    requires other_keys { AllByRecursion (λ p. (100 ≤ p.0) × (p.0 < 200)) other.old.pairs }
{
    holds(rt, queue.len() + other.len() <= ROOM);
    same(rt, queue.merge_counted(other), links);
    same(rt, queue.len() as u64, lengths.0 + lengths.1);
    holds(rt, other.is_empty());
}

#[test]
fn merges_count_their_links(rt: HostRuntime) {
    expect_links(&rt, rt.alloc(), (3, 5), 3);
    expect_links(&rt, rt.alloc(), (0, 7), 0);
    expect_links(&rt, rt.alloc(), (7, 1), 3);
    expect_links(&rt, rt.alloc(), (4, 3), 0);
    expect_links(&rt, rt.alloc(), (6, 6), 2);
}
