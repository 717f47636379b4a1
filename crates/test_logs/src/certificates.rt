ghost use Rattle.std.specs.Prelude.{◌≡◌, length};

use crate::assertions::{holds, same};
use due_key::{Class, Due, Key, Moment, Offset};
use late_cert::{Report, Reports, Stays, audit, certify};
use log_entries::{Arrival, Entry, Phase, Queue, Row, ServerSet, Servers, Setup};
use log_reading::{Base, Log, SlotGrant, Stay};
use std::alloc::Global;
use std::process::Abort;

mod every_assignment;
mod running;

const BACKEND: Queue = Queue::Backend;

/// Makes a moment. A number out of range, which no test has, would give 0, so this can't fail.
fn moment(number: u64) -> Moment {
    Moment::new(number).unwrap_or(Moment::zero())
}

fn arrive(at: u64, ticket: u64, class: i64, offset: i64) -> Entry {
    let at = moment(at);
    let arrival = Arrival {
        ticket,
        class: Class::clamp(class),
        due: Due::of(at, Offset::clamp(offset)),
        pin: None,
        place: 0,
    };
    Entry::Arrive(at, arrival)
}

fn done(at: u64, ticket: u64) -> Entry {
    Entry::Done(moment(at), ticket)
}

/// The base of a first window, with one server and two places.
fn opening(rt: &impl Abort, alloc: Global) -> Base
    ensures { length result.rows ≡ 2 }
{
    let server = ServerSet {
        limit: 1,
        maxqueue: 0,
        weight: 1,
        rise_fall: None,
    };
    let setup = Setup {
        servers: Servers::from_vec(vec![in alloc; server].expect(rt, "memory")),
        places: 2,
        log: 64,
        retries: 3,
        redispatch: false,
        queue_timeout: 0,
    };
    Base::opening(alloc, &setup).expect(rt, "memory")
}

/// A row of class 0 that waits in the backend's queue since this moment.
fn waiting(ticket: u64, since: u64, offset: i64) -> Row {
    let since = moment(since);
    let key = Key {
        class: Class::clamp(0),
        due: Due::of(since, Offset::clamp(offset)),
        ticket,
    };
    Row {
        key,
        pin: None,
        failures: 0,
        phase: Phase::Waiting(BACKEND, since),
    }
}

/// A window with tickets 2 and 3 waiting in its base.
fn both_wait_in_the_base(rt: &impl Abort, alloc: Global) -> Log {
    let mut base = opening(rt, alloc);
    base.set_row(0, Some(waiting(2, 1, 0)));
    base.set_row(1, Some(waiting(3, 2, -5)));
    let entries = [
        done(10, 1),
        Entry::Freed(1, 0),
        Entry::Ended(1),
        Entry::Granted(3, BACKEND, 0),
        done(20, 3),
        Entry::Freed(3, 0),
        Entry::Ended(3),
        Entry::Granted(2, BACKEND, 0),
    ];
    Log::read(alloc, base, entries.as_slice()).expect(rt, "a log")
}

/// A first window of these entries.
fn log_of(rt: &impl Abort, alloc: Global, entries: &[Entry]) -> Log {
    Log::read(alloc, opening(rt, alloc), entries).expect(rt, "a log")
}

/// Ticket 3 overtakes ticket 2 by its offset.
fn overtaking(rt: &impl Abort, alloc: Global) -> Log {
    let entries = [
        arrive(0, 1, 0, 0),
        Entry::Direct(1, 0),
        arrive(1, 2, 0, 0),
        Entry::Joined(2, BACKEND),
        arrive(2, 3, 0, -5),
        Entry::Joined(3, BACKEND),
        done(10, 1),
        Entry::Freed(1, 0),
        Entry::Ended(1),
        Entry::Granted(3, BACKEND, 0),
        done(20, 3),
        Entry::Freed(3, 0),
        Entry::Ended(3),
        Entry::Granted(2, BACKEND, 0),
    ];
    log_of(rt, alloc, entries.as_slice())
}

/// Ticket 2 has its slot before ticket 3, which is due earlier, arrives.
fn granted_before_the_next_came(rt: &impl Abort, alloc: Global) -> Log {
    let entries = [
        arrive(0, 1, 0, 0),
        Entry::Direct(1, 0),
        arrive(1, 2, 0, 99),
        Entry::Joined(2, BACKEND),
        done(10, 1),
        Entry::Freed(1, 0),
        Entry::Ended(1),
        Entry::Granted(2, BACKEND, 0),
        arrive(15, 3, 0, -10),
        Entry::Joined(3, BACKEND),
        done(20, 2),
        Entry::Freed(2, 0),
        Entry::Ended(2),
        Entry::Granted(3, BACKEND, 0),
    ];
    log_of(rt, alloc, entries.as_slice())
}

/// Tickets 2 and 3 have the same due date.
fn equal_due_dates(rt: &impl Abort, alloc: Global) -> Log {
    let entries = [
        arrive(0, 1, 0, 0),
        Entry::Direct(1, 0),
        arrive(1, 2, 0, 4),
        Entry::Joined(2, BACKEND),
        arrive(5, 3, 0, 0),
        Entry::Joined(3, BACKEND),
        done(6, 1),
        Entry::Freed(1, 0),
        Entry::Ended(1),
        Entry::Granted(2, BACKEND, 0),
        done(9, 2),
        Entry::Freed(2, 0),
        Entry::Ended(2),
        Entry::Granted(3, BACKEND, 0),
    ];
    log_of(rt, alloc, entries.as_slice())
}

/// Grants from three queues and of four classes.
fn four_queues_and_classes(rt: &impl Abort, alloc: Global) -> Log {
    let entries = [
        arrive(0, 1, 7, 0),
        Entry::Joined(1, Queue::Server(1)),
        arrive(0, 2, 3, 0),
        Entry::Joined(2, BACKEND),
        arrive(0, 3, -7, 0),
        Entry::Joined(3, Queue::Server(1)),
        arrive(0, 4, 9, 0),
        Entry::Joined(4, Queue::Server(0)),
        Entry::Granted(1, Queue::Server(1), 1),
        Entry::Granted(2, BACKEND, 1),
        Entry::Granted(3, Queue::Server(1), 1),
        Entry::Granted(4, Queue::Server(0), 0),
        Entry::Joined(2, BACKEND),
        Entry::Granted(2, BACKEND, 1),
    ];
    log_of(rt, alloc, entries.as_slice())
}

/// A stay in the backend's queue, due `offset` after `at`.
fn stay(ticket: u64, joined: usize, slot: usize, at: u64, offset: i64) -> Stay {
    Stay {
        ticket,
        joined,
        slot,
        due: Due::of(moment(at), Offset::clamp(offset)),
    }
}

/// The claim of a report on class 0 of the backend's queue.
#[derive(Clone, Copy)]
struct Claim<'a> {
    granted: usize,
    worst: i64,
    due: i64,
    /// The cut, and the slot.
    slots: (usize, usize),
    critical: &'a [Stay],
}

fn claiming(
    granted: usize,
    worst: i64,
    due: i64,
    slots: (usize, usize),
    critical: &[Stay],
) -> Claim<'_> {
    Claim {
        granted,
        worst,
        due,
        slots,
        critical,
    }
}

fn report(rt: &impl Abort, alloc: Global, claim: Claim<'_>) -> Report {
    let (after, to) = claim.slots;
    let critical = Vec::from_slice(alloc, claim.critical).expect(rt, "memory");
    Report {
        queue: BACKEND,
        class: Class::clamp(0),
        granted: claim.granted,
        worst: claim.worst,
        due: Due::of(Moment::zero(), Offset::clamp(claim.due)),
        after,
        to,
        critical: Stays::from_vec(critical),
    }
}

/// Says whether two reports claim the same.
fn are_alike(a: &Report, b: &Report) -> bool {
    a.queue == b.queue
        && a.class == b.class
        && a.granted == b.granted
        && a.worst == b.worst
        && a.due == b.due
        && a.after == b.after
        && a.to == b.to
        && a.critical.as_slice() == b.critical.as_slice()
}

/// Says whether these are this one report.
fn are_just(reports: &[Report], expected: &Report) -> bool {
    match reports {
        [only] => are_alike(only, expected),
        _ => false,
    }
}

/// Says whether a log has this one report, and it passes the audit.
fn is_certified(rt: &impl Abort, alloc: Global, log: &Log, claim: Claim<'_>) -> bool {
    let expected = report(rt, alloc, claim);
    let reports = certify(alloc, log).expect(rt, "memory");
    are_just(reports.as_slice(), &expected) && audit(log, &expected)
}

/// Says whether a report passes the audit of a log.
fn passes_on(rt: &impl Abort, alloc: Global, log: &Log, claim: Claim<'_>) -> bool {
    audit(log, &report(rt, alloc, claim))
}

#[test]
fn overtaking_by_offset(rt: HostRuntime) {
    let critical = [three(), two()];
    let log = overtaking(&rt, rt.alloc());
    let expected = claiming(2, 19, 1, (0, 14), critical.as_slice());
    holds(&rt, is_certified(&rt, rt.alloc(), &log, expected));
}

#[test]
fn stays_of_the_base_joined_at_its_end(rt: HostRuntime) {
    let critical = [stay(3, 0, 4, 2, -5), stay(2, 0, 8, 1, 0)];
    let second = [stay(2, 0, 8, 1, 0)];
    let log = both_wait_in_the_base(&rt, rt.alloc());
    let expected = claiming(2, 19, 1, (0, 8), critical.as_slice());
    holds(&rt, is_certified(&rt, rt.alloc(), &log, expected));
    let joined_before_the_cut = claiming(2, 19, 1, (4, 8), second.as_slice());
    holds(
        &rt,
        !passes_on(&rt, rt.alloc(), &log, joined_before_the_cut),
    );
}

#[test]
fn a_cut_after_an_earlier_grant(rt: HostRuntime) {
    let critical = [stay(3, 10, 14, 15, -10)];
    let log = granted_before_the_next_came(&rt, rt.alloc());
    let expected = claiming(2, 15, 5, (8, 14), critical.as_slice());
    holds(&rt, is_certified(&rt, rt.alloc(), &log, expected));
}

#[test]
fn equal_due_dates_are_critical_together(rt: HostRuntime) {
    let critical = [stay(2, 4, 10, 5, 0), stay(3, 6, 14, 5, 0)];
    let log = equal_due_dates(&rt, rt.alloc());
    let expected = claiming(2, 4, 5, (0, 14), critical.as_slice());
    holds(&rt, is_certified(&rt, rt.alloc(), &log, expected));
}

/// Returns what a report is about, and its number of grants.
fn about(reports: &Reports, place: usize) -> Option<(Queue, i64, usize)> {
    let it = reports.as_slice().get(place)?;
    Some((it.queue, it.class.get(), it.granted))
}

#[test]
fn reports_go_by_queue_and_class(rt: HostRuntime) {
    let log = four_queues_and_classes(&rt, rt.alloc());
    let reports = certify(rt.alloc(), &log).expect(&rt, "memory");
    same(&rt, about(&reports, 0), Some((BACKEND, 3, 2)));
    same(&rt, about(&reports, 1), Some((Queue::Server(0), 9, 1)));
    same(&rt, about(&reports, 2), Some((Queue::Server(1), -7, 1)));
    same(&rt, about(&reports, 3), Some((Queue::Server(1), 7, 1)));
    same(&rt, about(&reports, 4), None);
}

#[test]
fn a_log_without_a_grant_has_no_report(rt: HostRuntime) {
    let entries = [arrive(0, 1, 0, 0), Entry::Direct(1, 0)];
    let log = log_of(&rt, rt.alloc(), entries.as_slice());
    let reports = certify(rt.alloc(), &log).expect(&rt, "memory");
    holds(&rt, reports.is_empty());
}

fn two() -> Stay {
    stay(2, 4, 14, 1, 0)
}

fn three() -> Stay {
    stay(3, 6, 10, 2, -5)
}

/// Says whether a claim passes the audit of the log of the overtaking.
fn passes(rt: &impl Abort, alloc: Global, claim: Claim<'_>) -> bool {
    let log = overtaking(rt, alloc);
    passes_on(rt, alloc, &log, claim)
}

/// Fails the test where a claim passes the audit of that log, and prints which.
fn fails(rt: &impl Abort, alloc: Global, what: &str, claim: Claim<'_>) {
    let passed = passes(rt, alloc, claim);
    assert!(rt; !passed, "{what}");
}

#[test]
fn critical_stays_are_all_and_none_joined_before_the_cut(rt: HostRuntime) {
    let third_alone = [three()];
    let second = [two()];
    let other_order = [two(), three()];
    let claims = [
        (
            "third alone",
            claiming(2, 19, 1, (0, 14), third_alone.as_slice()),
        ),
        (
            "joined before the cut",
            claiming(2, 19, 1, (10, 14), second.as_slice()),
        ),
        (
            "other order",
            claiming(2, 19, 1, (0, 14), other_order.as_slice()),
        ),
    ];
    for (what, it) in claims {
        fails(&rt, rt.alloc(), what, it);
    }
}

#[test]
fn the_worst_is_exact(rt: HostRuntime) {
    let stays = [three(), two()];
    for (worst, is_it) in [(19, true), (18, false), (20, false)] {
        let it = claiming(2, worst, 1, (0, 14), stays.as_slice());
        same(&rt, passes(&rt, rt.alloc(), it), is_it);
    }
}

#[test]
fn counts_due_dates_slots_and_cuts_are_exact(rt: HostRuntime) {
    let stays = [three(), two()];
    let third = [three()];
    let claims = [
        ("one too few", claiming(1, 19, 1, (0, 14), stays.as_slice())),
        (
            "other due date",
            claiming(2, 19, 2, (0, 14), stays.as_slice()),
        ),
        ("other slot", claiming(2, 19, 1, (0, 10), third.as_slice())),
        (
            "cut at its end",
            claiming(2, 19, 1, (14, 14), stays.as_slice()),
        ),
    ];
    for (what, it) in claims {
        fails(&rt, rt.alloc(), what, it);
    }
}

/// Says whether a claim on this queue and class passes the audit of the log of the overtaking.
fn passes_elsewhere(
    rt: &impl Abort,
    alloc: Global,
    queue: Queue,
    class: i64,
    claim: Claim<'_>,
) -> bool {
    let log = overtaking(rt, alloc);
    let mut it = report(rt, alloc, claim);
    it.queue = queue;
    it.class = Class::clamp(class);
    audit(&log, &it)
}

#[test]
fn queues_and_classes_are_exact(rt: HostRuntime) {
    let stays = [three(), two()];
    let both = claiming(2, 19, 1, (0, 14), stays.as_slice());
    let none = claiming(0, 19, 1, (0, 14), stays.as_slice());
    let elsewhere = Queue::Server(0);
    holds(&rt, !passes_elsewhere(&rt, rt.alloc(), BACKEND, 1, both));
    holds(&rt, !passes_elsewhere(&rt, rt.alloc(), elsewhere, 0, none));
}

/// Says whether a report with this cut passes the audit where ticket 2 had its slot before ticket 3 came.
fn passes_with_cut(rt: &impl Abort, alloc: Global, after: usize, critical: &[Stay]) -> bool {
    let log = granted_before_the_next_came(rt, alloc);
    passes_on(rt, alloc, &log, claiming(2, 15, 5, (after, 14), critical))
}

#[test]
fn a_sound_report_needs_no_chosen_cut(rt: HostRuntime) {
    let both = [stay(2, 4, 8, 1, 99), stay(3, 10, 14, 15, -10)];
    let third = [stay(3, 10, 14, 15, -10)];
    holds(&rt, !passes_with_cut(&rt, rt.alloc(), 0, both.as_slice()));
    for (cut, passes) in [(8, true), (9, true), (10, false)] {
        let passed = passes_with_cut(&rt, rt.alloc(), cut, third.as_slice());
        same(&rt, passed, passes);
    }
}
