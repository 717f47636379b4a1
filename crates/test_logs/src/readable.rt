ghost use Rattle.std.specs.Prelude.{◌≡◌, ◌<◌, [], None, length, replicate};
ghost use Rattle.log_entries.specs.Setups.{IsSound};

use crate::assertions::{holds, same};
use check_state::Health;
use due_key::{Class, Due, Key, Moment, Offset};
use log_entries::{
    Allowance, Arrival, Entry, Intake, Phase, Queue, Row, ServerSet, Servers, Setup,
};
use log_reading::{Base, BaseRow, Log, SlotGrant, Stay, Unreadable};
use std::alloc::Global;
use std::process::Abort;

// Makes a moment. A number out of range, which no test has, would give 0, so this can't fail.
fn moment(number: u64) -> Moment {
    Moment::new(number).unwrap_or(Moment::zero())
}

fn arrival(ticket: u64, class: i64, at: Moment, offset: i64) -> Arrival
    ensures { result.ticket ≡ ticket }
{
    Arrival {
        ticket,
        class: Class::clamp(class),
        due: Due::of(at, Offset::clamp(offset)),
        pin: None,
        place: 0,
    }
}

// The base of a first window, with one server and two places.
fn opening(rt: &impl Abort, alloc: Global) -> Base
    ensures rows { result.rows ≡ replicate 2 None }
    ensures servers { (length result.results ≡ 1) × (length result.limits ≡ 1) }
{
    let server = ServerSet {
        limit: 1,
        maxqueue: 0,
        weight: 1,
        rise_fall: None,
    };
    let setup = Setup {
        servers: Servers::from_vec(vec![in alloc; server].expect(rt, "memory")),
        places: 2,
        log: 64,
        retries: 3,
        redispatch: false,
        queue_timeout: 0,
    };
    Base::opening(alloc, &setup).expect(rt, "memory")
}

// Ticket 7 waits in the backend's queue since 2, and is due at 5.
fn seven() -> Row {
    Row {
        key: Key {
            class: Class::clamp(0),
            due: Due::of(moment(2), Offset::clamp(3)),
            ticket: 7,
        },
        pin: None,
        failures: 0,
        phase: Phase::Waiting(Queue::Backend, moment(2)),
    }
}

// A base in which ticket 7 waits at the second place.
fn with_seven(rt: &impl Abort, alloc: Global) -> Base
    ensures { length result.rows ≡ 2 }
{
    let mut base = opening(rt, alloc);
    base.set_row(1, Some(seven()));
    base.set_healths(&[Some(Health::new(1, 2))]);
    base.set_limits(&[Allowance {
        limit: Intake::Open(3),
        served: 1,
    }]);
    base.set_position(moment(4), 7, 0);
    base
}

#[test]
fn a_log_keeps_its_grants(rt: HostRuntime) {
    let base = opening(&rt, rt.alloc());
    let mut log = Log::with_room(rt.alloc(), base, 4).expect(&rt, "memory");
    holds(&rt, log.is_empty());
    note_a_grant(&rt, &mut log);
}

fn note_a_grant(rt: &impl Abort, log: &mut Log)
    requires entries { log.old.entries ≡ [] }
    requires room { log.old.room ≡ 4 }
{
    let at = moment(3);
    let it = arrival(1, 2, at, 7);
    log.note(Entry::Arrive(at, it));
    log.note(Entry::Joined(1, Queue::Server(5)));
    log.note(Entry::Done(at, 8));
    log.note_grant(it.key(), Queue::Server(5), 5, 2);
    has_the_grant(rt, log, &it);
}

fn has_the_grant(rt: &impl Abort, log: &Log, it: &Arrival) {
    same(rt, log.len(), 4);
    same(rt, log.room(), 4);
    let granted = Entry::Granted(1, Queue::Server(5), 5);
    same(rt, log.entries().last().copied(), Some(granted));
    let stay = Stay {
        ticket: 1,
        joined: 2,
        slot: 4,
        due: it.due,
    };
    let grant = SlotGrant {
        queue: Queue::Server(5),
        class: it.class,
        moment: moment(3),
        stay,
    };
    same(rt, log.grants(), [grant].as_slice());
}

fn log_of(rt: &impl Abort, alloc: Global, base: Base, entries: &[Entry]) -> Log {
    Log::read(alloc, base, entries).expect(rt, "a log")
}

#[test]
fn the_last_arrival_and_the_last_joining_stand(rt: HostRuntime) {
    let (at, next) = (moment(3), moment(4));
    let (old, new) = (arrival(1, 2, at, 7), arrival(1, -3, next, 0));
    let entries = [
        Entry::Arrive(at, old),
        Entry::Joined(1, Queue::Backend),
        Entry::Joined(1, Queue::Server(0)),
        Entry::Arrive(next, new),
        Entry::Granted(1, Queue::Backend, 0),
        Entry::Joined(1, Queue::Backend),
        Entry::Granted(1, Queue::Backend, 0),
    ];
    let base = opening(&rt, rt.alloc());
    let log = log_of(&rt, rt.alloc(), base, entries.as_slice());
    same(&rt, log.entries(), entries.as_slice());
    same(&rt, log.room(), 7);
    have_last_joinings(&rt, log.grants());
    has_last_arrival(&rt, log.grants().first().copied(), &new);
}

fn have_last_joinings(rt: &impl Abort, grants: &[SlotGrant]) {
    let mut joinings = grants.iter().map(|grant| grant.stay.joined);
    same(rt, joinings.next(), Some(2));
    same(rt, joinings.next(), Some(6));
}

fn has_last_arrival(rt: &impl Abort, grant: Option<SlotGrant>, new: &Arrival) {
    let grant = grant.expect(rt, "a grant");
    same(rt, grant.class, new.class);
    same(rt, grant.stay.due, new.due);
    same(rt, grant.moment, moment(4));
}

// An entry of a window, in plain numbers.
enum Told {
    Arrive(u64, u64),
    Done(u64, u64),
    Joined(u64, Queue),
    Granted(u64, Queue),
}

// The entries after a base, in which ticket 7 waits or no request does, and why the window is refused.
struct Window {
    name: &'static str,
    waits: bool,
    told: &'static [Told],
    refused: Option<Unreadable>,
}

static WINDOWS: [Window; 6] = [
    Window {
        name: "nothing",
        waits: false,
        told: &[],
        refused: None,
    },
    Window {
        name: "a joining before any event",
        waits: false,
        told: &[Told::Joined(1, Queue::Backend)],
        refused: Some(Unreadable::NotReadable),
    },
    Window {
        name: "a moment before the last one",
        waits: false,
        told: &[Told::Arrive(3, 1), Told::Done(2, 1)],
        refused: Some(Unreadable::NotReadable),
    },
    Window {
        name: "a grant from a queue that wasn't joined",
        waits: false,
        told: &[
            Told::Arrive(3, 1),
            Told::Joined(1, Queue::Server(0)),
            Told::Granted(1, Queue::Backend),
        ],
        refused: Some(Unreadable::NotReadable),
    },
    Window {
        name: "a grant to a ticket that didn't arrive",
        waits: false,
        told: &[
            Told::Arrive(3, 1),
            Told::Joined(2, Queue::Backend),
            Told::Granted(2, Queue::Backend),
        ],
        refused: Some(Unreadable::NotReadable),
    },
    Window {
        name: "a grant from another queue than the one of the base",
        waits: true,
        told: &[Told::Done(9, 3), Told::Granted(7, Queue::Server(0))],
        refused: Some(Unreadable::NotReadable),
    },
];

fn entry_of(told: &Told) -> Entry {
    match *told {
        Told::Arrive(at, ticket) => Entry::Arrive(moment(at), arrival(ticket, 0, moment(at), 0)),
        Told::Done(at, ticket) => Entry::Done(moment(at), ticket),
        Told::Joined(ticket, queue) => Entry::Joined(ticket, queue),
        Told::Granted(ticket, queue) => Entry::Granted(ticket, queue, 0),
    }
}

fn refusal_of(rt: &impl Abort, alloc: Global, window: &Window) -> Option<Unreadable> {
    let base = if window.waits {
        with_seven(rt, alloc)
    } else {
        opening(rt, alloc)
    };
    let mut entries = Vec::new(alloc);
    for told in window.told {
        entries.push(entry_of(told)).expect(rt, "memory");
    }
    Log::read(alloc, base, entries.as_slice()).err()
}

#[test]
fn what_is_not_readable_is_refused(rt: HostRuntime) {
    for window in &WINDOWS {
        let refused = refusal_of(&rt, rt.alloc(), window);
        same(&rt, (window.name, refused), (window.name, window.refused));
    }
}

#[test]
fn a_window_has_its_base(rt: HostRuntime) {
    let entries = [
        Entry::Done(moment(9), 3),
        Entry::Granted(7, Queue::Backend, 0),
    ];
    let base = with_seven(&rt, rt.alloc());
    let mut log = Log::read(rt.alloc(), base, entries.as_slice()).expect(&rt, "a log");
    grants_to_seven(&rt, &log);
    let mut next = opening(&rt, rt.alloc());
    log.begin(&mut next);
    holds(
        &rt,
        log.is_empty() && log.grants().is_empty() && log.base().is_empty(),
    );
    same(&rt, next.rows(), [None, Some(seven())].as_slice());
}

fn grants_to_seven(rt: &impl Abort, log: &Log) {
    let key = seven().key;
    let row = BaseRow {
        ticket: 7,
        class: key.class,
        due: key.due,
        queue: Some(Queue::Backend),
    };
    same(rt, log.base(), [row].as_slice());
    let stay = Stay {
        ticket: 7,
        joined: 0,
        slot: 2,
        due: key.due,
    };
    same(rt, log.grants().first().map(|it| it.stay), Some(stay));
}
