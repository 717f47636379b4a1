//! Tests that compare reports with a plain program that tries every assignment.

use super::{log_of, moment};
use crate::assertions::{holds, same};
use due_key::{Class, Due, Key, Offset};
use late_cert::{Report, audit, certify};
use log_entries::{Arrival, Entry, Queue};
use log_reading::{Log, SlotGrant};
use std::alloc::Global;
use std::process::Abort;

/// A fixed sequence of pseudo-random numbers: a linear congruential generator.
#[derive(Drop)]
struct Numbers {
    state: u64,
}

impl Numbers {
    /// Returns a number below a bound.
    fn below(&mut self, bound: u64) -> u64 {
        self.state = self
            .state
            .wrapping_mul(6_364_136_223_846_793_005)
            .wrapping_add(1_442_695_040_888_963_407);
        (self.state >> 33).checked_rem(bound).unwrap_or(0)
    }
}

/// A waiting request.
#[derive(Clone, Copy)]
struct Waiting {
    queue: Queue,
    key: Key,
}

/// The entries so far, and the requests that wait.
#[derive(Drop)]
struct Course {
    numbers: Numbers,
    now: u64,
    entries: Vec<Entry>,
    waiting: Vec<Waiting>,
}

/// Makes a readable log with up to seven grants. With `in_order` each takes the least key of its
/// queue, otherwise any.
fn random_log(rt: &impl Abort, alloc: Global, seed: u64, in_order: bool) -> Log {
    let mut course = Course {
        numbers: Numbers { state: seed },
        now: 0,
        entries: Vec::new(alloc),
        waiting: Vec::new(alloc),
    };
    play(rt, &mut course, in_order);
    log_of(rt, alloc, course.entries.as_slice())
}

fn play(rt: &impl Abort, course: &mut Course, in_order: bool) {
    for ticket in 1..32 {
        step(rt, course, ticket, in_order);
    }
}

/// Lets a request arrive, or grants a slot to one that waits.
fn step(rt: &impl Abort, course: &mut Course, ticket: u64, in_order: bool) {
    course.now = course.now.wrapping_add(course.numbers.below(4));
    if course.numbers.below(2) == 0 {
        come(rt, course, ticket);
        return;
    }
    let grants = course.entries.iter().filter(|it| is_grant(it)).count();
    let it = chosen(&mut course.numbers, course.waiting.as_slice(), in_order);
    match it {
        Some(it) if grants < 7 => go(rt, course, it),
        _ => {}
    }
}

fn come(rt: &impl Abort, course: &mut Course, ticket: u64) {
    let it = newcomer(&mut course.numbers, course.now, ticket);
    note(rt, course, arrival(course.now, &it));
    note(rt, course, Entry::Joined(ticket, it.queue));
    course.waiting.push(it).expect(rt, "memory");
}

fn go(rt: &impl Abort, course: &mut Course, it: Waiting) {
    course
        .waiting
        .retain(|other| other.key.ticket != it.key.ticket);
    note(rt, course, Entry::Done(moment(course.now), 0));
    note(rt, course, Entry::Granted(it.key.ticket, it.queue, 0));
}

fn note(rt: &impl Abort, course: &mut Course, entry: Entry) {
    course.entries.push(entry).expect(rt, "memory");
}

fn is_grant(entry: &Entry) -> bool {
    matches!(entry, Entry::Granted(_, _, _))
}

/// Makes a request of one of two classes in one of two queues, due around now.
fn newcomer(numbers: &mut Numbers, now: u64, ticket: u64) -> Waiting {
    let class = if numbers.below(4) == 0 { 1 } else { 0 };
    let offset = i64::try_from(numbers.below(16)).unwrap_or(0);
    let queue = if numbers.below(4) == 0 {
        Queue::Server(0)
    } else {
        Queue::Backend
    };
    let key = Key {
        class: Class::clamp(class),
        due: Due::of(moment(now), Offset::clamp(offset.wrapping_sub(8))),
        ticket,
    };
    Waiting { queue, key }
}

fn arrival(now: u64, it: &Waiting) -> Entry {
    let arrival = Arrival {
        ticket: it.key.ticket,
        class: it.key.class,
        due: it.key.due,
        pin: None,
        place: 0,
    };
    Entry::Arrive(moment(now), arrival)
}

/// Returns the least request of a queue, or any one that waits.
fn chosen(numbers: &mut Numbers, waiting: &[Waiting], in_order: bool) -> Option<Waiting> {
    let place = numbers.below(waiting.len() as u64) as usize;
    let any = waiting.get(place).copied()?;
    if !in_order {
        return Some(any);
    }
    waiting
        .iter()
        .copied()
        .filter(|it| it.queue == any.queue)
        .min_by_key(|it| it.key)
}

/// Returns the grants that a report is about.
fn group(rt: &impl Abort, alloc: Global, log: &Log, report: &Report) -> Vec<SlotGrant> {
    let grants = log
        .grants()
        .iter()
        .copied()
        .filter(|it| it.queue == report.queue && it.class == report.class)
        .collect(alloc);
    grants.expect(rt, "memory")
}

/// Returns the smallest greatest lateness of any assignment; `None` where there is none.
fn least(rt: &impl Abort, alloc: Global, group: &[SlotGrant]) -> Option<i64> {
    let orders = [1, 1, 2, 6, 24, 120, 720, 5040].as_slice();
    let mut least: Option<i64> = None;
    for order in 0..orders.get(group.len()).copied().unwrap_or(0) {
        if let Some(worst) = greatest(rt, alloc, group, order) {
            least = Some(least.map_or(worst, |it| it.min(worst)));
        }
    }
    least
}

/// Returns the greatest lateness with the slots in the permutation of this number, from 0. `None`
/// where one of them isn't after its stay joined.
fn greatest(rt: &impl Abort, alloc: Global, group: &[SlotGrant], order: usize) -> Option<i64> {
    let mut slots = Vec::from_slice(alloc, group).expect(rt, "memory");
    greatest_of(&mut slots, group, order)
}

fn greatest_of(slots: &mut Vec<SlotGrant>, group: &[SlotGrant], order: usize) -> Option<i64> {
    let mut left = order;
    let mut worst: Option<i64> = None;
    for grant in group {
        if slots.is_empty() {
            return None;
        }
        let slot = slots.remove(left % slots.len());
        left /= slots.len().wrapping_add(1).max(1);
        if slot.stay.slot <= grant.stay.joined {
            return None;
        }
        let late = grant.stay.due.lateness(slot.moment);
        worst = Some(worst.map_or(late, |it| it.max(late)));
    }
    worst
}

/// The result of comparing a log's reports with every assignment.
#[derive(Clone, Copy, PartialEq, Eq)]
enum Outcome {
    /// The report passes the audit, and no assignment is better than its worst.
    Sound,
    /// The report fails the audit, and no assignment is worse than its worst.
    Unsound,
    Wrong,
}

fn compared(rt: &impl Abort, alloc: Global, log: &Log, report: &Report) -> Outcome {
    let group = group(rt, alloc, log, report);
    match least(rt, alloc, group.as_slice()) {
        Some(least) if group.len() == report.granted => judged(least, audit(log, report), report),
        _ => Outcome::Wrong,
    }
}

fn judged(least: i64, passes: bool, report: &Report) -> Outcome {
    if least > report.worst {
        return Outcome::Wrong;
    }
    match passes {
        true if least == report.worst => Outcome::Sound,
        true => Outcome::Wrong,
        false => Outcome::Unsound,
    }
}

/// Returns how many of the reports of these logs had an outcome.
fn outcomes(rt: &impl Abort, alloc: Global, seeds: u64, in_order: bool, outcome: Outcome) -> usize {
    let mut number: usize = 0;
    for seed in 0..seeds {
        let log = random_log(rt, alloc, seed, in_order);
        number = number.wrapping_add(with_outcome(rt, alloc, &log, outcome));
    }
    number
}

fn with_outcome(rt: &impl Abort, alloc: Global, log: &Log, outcome: Outcome) -> usize {
    let reports = certify(alloc, log).expect(rt, "memory");
    let mut number: usize = 0;
    for report in reports.as_slice() {
        if compared(rt, alloc, log, report) == outcome {
            number = number.wrapping_add(1);
        }
    }
    number
}

#[test]
fn no_assignment_is_better_than_the_worst(rt: HostRuntime) {
    let alloc = rt.alloc();
    holds(&rt, outcomes(&rt, alloc, 40, true, Outcome::Sound) > 60);
    same(&rt, outcomes(&rt, alloc, 40, true, Outcome::Unsound), 0);
    same(&rt, outcomes(&rt, alloc, 40, true, Outcome::Wrong), 0);
}

#[test]
fn out_of_order_the_audit_tells_what_holds(rt: HostRuntime) {
    let alloc = rt.alloc();
    holds(&rt, outcomes(&rt, alloc, 40, false, Outcome::Sound) > 10);
    holds(&rt, outcomes(&rt, alloc, 40, false, Outcome::Unsound) > 10);
    same(&rt, outcomes(&rt, alloc, 40, false, Outcome::Wrong), 0);
}
