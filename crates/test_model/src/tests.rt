mod calls;
mod chance;
mod decisions;
mod events;
mod servers;
mod state;

use self::calls::{Call, ask, made};
use self::chance::Chance;
use self::events::Stage;
use self::state::Plain;
use crate::assertions::{holds, same};
use base_verdict::Cause;
use binom_queue::BinomQueue;
use dispatch_core::{Core, Log};
use due_key::{Key, Moment};
use log_entries::{Entry, Intake, Queue, ServerSet, Servers, Setup};
use pend_queue::{ListQueue, PendQueue};
use std::alloc::Global;
use std::process::Abort;

fn server(limit: u32, maxqueue: u32, weight: u32) -> ServerSet {
    ServerSet {
        limit,
        maxqueue,
        weight,
        rise_fall: None,
    }
}

// A server whose health is checked.
fn probed(limit: u32, maxqueue: u32, weight: u32, rise: u32, fall: u32) -> ServerSet {
    let mut it = server(limit, maxqueue, weight);
    it.rise_fall = Some((rise, fall));
    it
}

// Each server that balancing may choose is checked, so there are times without one.
fn many_checks(rt: &impl Abort, alloc: Global) -> Setup {
    let list = [
        probed(2, 3, 2, 2, 3),
        probed(1, 1, 1, 1, 1),
        probed(3, 0, 5, 2, 2),
        server(1, 0, 0),
        probed(2, 2, 0, 2, 1),
    ];
    let servers = Vec::from_slice(alloc, &list).expect(rt, "memory");
    Setup {
        servers: Servers::from_vec(servers),
        places: 24,
        log: 3000,
        retries: 2,
        redispatch: true,
        queue_timeout: 60,
    }
}

// One server has no limit at first, one isn't checked, and waiting requests stay where they are.
fn few_checks(rt: &impl Abort, alloc: Global) -> Setup {
    let list = [
        probed(0, 4, 1, 3, 1),
        server(2, 2, 2),
        probed(1, 5, 256, 1, 4),
    ];
    let servers = Vec::from_slice(alloc, &list).expect(rt, "memory");
    Setup {
        servers: Servers::from_vec(servers),
        places: 20,
        log: 1500,
        retries: 1,
        redispatch: false,
        queue_timeout: 0,
    }
}

// Checks that the written entries are exactly those that the definitions demand.
fn follow(rt: &impl Abort, plain: &mut Plain, event: Entry, written: &[Entry]) {
    holds(rt, plain.has_place_for(&event));
    let mut stage = Stage::Granting;
    let mut expected = Some(event);
    for entry in written {
        same(rt, Some(*entry), expected);
        plain.take(rt, *entry);
        stage = stage.after(*entry);
        expected = plain.next(stage);
    }
    same(rt, expected, None);
}

// Checks that a call is answered as the definitions demand.
fn agree<Q: PendQueue<Key, usize>>(
    rt: &impl Abort,
    alloc: Global,
    core: &mut Core<Q>,
    plain: &mut Plain,
    moment: Moment,
    call: &Call,
) {
    let before = core.log().len();
    let refused = plain.refuses(*call);
    match ask(alloc, core, moment, *call) {
        Ok(place) => {
            same(rt, refused, None);
            let event = plain.event(moment, *call, place);
            let written = core.log().entries().get(before..).unwrap_or(&[]);
            follow(rt, plain, event, written);
        }
        Err(refusal) => {
            same(rt, refused, Some(refusal));
            same(rt, core.log().len(), before);
        }
    }
}

// Says whether the log's base has the present requests.
fn has_base(log: &Log, plain: &Plain) -> bool {
    let mut base = log.base().iter();
    for place in &plain.rows {
        if let Some(row) = place {
            match base.next() {
                Some(it)
                    if row.key.ticket == it.ticket
                        && row.key.class == it.class
                        && row.key.due == it.due
                        && row.phase.queue() == it.queue => {}
                _ => return false,
            }
        }
    }
    base.next().is_none()
}

// The windows that have ended: their entries, and how many of them were full.
#[derive(Drop)]
struct Course {
    entries: Vec<Entry>,
    windows: u32,
    full: u32,
}

impl Course {
    // Ends the window, and begins the next one with the state that it leaves.
    fn roll<Q: PendQueue<Key, usize>>(
        &mut self,
        rt: &impl Abort,
        core: &mut Core<Q>,
        plain: &mut Plain,
    ) {
        let entries = core.log().entries();
        self.entries.extend_from_slice(entries).expect(rt, "memory");
        self.windows = self.windows.saturating_add(1);
        if !core.has_room() {
            self.full = self.full.saturating_add(1);
        }
        core.roll();
        plain.roll(rt);
        holds(rt, core.log().is_empty() && has_base(core.log(), plain));
    }
}

// Compares this number of calls, and before each of them whether a stay has expired. Now and then
// the next window begins.
fn agree_on_all<Q: PendQueue<Key, usize>>(
    rt: &impl Abort,
    alloc: Global,
    core: &mut Core<Q>,
    plain: &mut Plain,
    calls: u32,
) -> Course {
    let mut chance = Chance::new(20_260_101);
    let mut course = Course {
        entries: Vec::new(alloc),
        windows: 0,
        full: 0,
    };
    for _ in 0..calls {
        let moment = chance.moment();
        same(rt, core.expired(moment), plain.some_expire(moment));
        let call = chance.call(plain);
        agree(rt, alloc, core, plain, moment, &call);
        if chance.rolls() {
            course.roll(rt, core, plain);
        }
    }
    course
}

// Compares this number of calls to dispatchers of a setup, which is given twice.
fn both_agree<Q: PendQueue<Key, usize>>(
    rt: &impl Abort,
    alloc: Global,
    setup: Setup,
    copy: Setup,
    calls: u32,
) -> Course {
    let mut core = made::<Q>(rt, alloc, setup);
    let mut plain = Plain::new(rt, alloc, copy);
    let course = agree_on_all(rt, alloc, &mut core, &mut plain, calls);
    drop(core);
    drop(plain);
    course
}

// A kind of decision.
#[derive(Clone, Copy)]
enum Kind {
    Direct,
    JoinedServer,
    JoinedBackend,
    GrantedFromServer,
    GrantedFromBackend,
    Moved,
    Retried,
    Risen,
    Closed,
    Left(Cause),
}

fn is_of(entry: &Entry, kind: Kind) -> bool {
    match (entry, kind) {
        (Entry::Direct(_, _), Kind::Direct)
        | (Entry::Joined(_, Queue::Server(_)), Kind::JoinedServer)
        | (Entry::Joined(_, Queue::Backend), Kind::JoinedBackend)
        | (Entry::Granted(_, Queue::Server(_), _), Kind::GrantedFromServer)
        | (Entry::Granted(_, Queue::Backend, _), Kind::GrantedFromBackend)
        | (Entry::Moved(_, _), Kind::Moved)
        | (Entry::Retried(_, _, _), Kind::Retried)
        | (Entry::Health(_, true), Kind::Risen)
        | (Entry::Limit(_, _, Intake::Closed), Kind::Closed) => true,
        (Entry::Left(_, cause), Kind::Left(of_it)) => *cause == of_it,
        _ => false,
    }
}

// Fails the test where a log has no decision of the kind.
fn has_kind(rt: &impl Abort, log: &[Entry], kind: Kind) {
    let mut found = false;
    for entry in log {
        found = found || is_of(entry, kind);
    }
    holds(rt, found);
}

// Checks that the log has decisions of every kind.
fn has_every_kind(rt: &impl Abort, log: &[Entry]) {
    has_kind(rt, log, Kind::Direct);
    has_kind(rt, log, Kind::JoinedServer);
    has_kind(rt, log, Kind::JoinedBackend);
    has_kind(rt, log, Kind::GrantedFromServer);
    has_kind(rt, log, Kind::GrantedFromBackend);
    has_kind(rt, log, Kind::Moved);
    has_kind(rt, log, Kind::Retried);
    has_kind(rt, log, Kind::Risen);
    has_kind(rt, log, Kind::Closed);
}

// Fails the test where no queue was moved in the log because its server was closed.
fn has_emptied_queue(rt: &impl Abort, log: &[Entry]) {
    let mut closed = false;
    let mut found = false;
    for entry in log {
        found = found || closed && is_of(entry, Kind::Moved);
        closed = is_of(entry, Kind::Closed);
    }
    holds(rt, found);
}

// Compares dispatchers of checked servers, over this kind of queue.
fn follows_the_definitions<Q: PendQueue<Key, usize>>(rt: &impl Abort, alloc: Global) {
    let (setup, copy) = (many_checks(rt, alloc), many_checks(rt, alloc));
    let course = both_agree::<Q>(rt, alloc, setup, copy, 50_000);
    let log = course.entries.as_slice();
    has_every_kind(rt, log);
    has_emptied_queue(rt, log);
    for cause in [
        Cause::Aborted,
        Cause::Timeout,
        Cause::Retries,
        Cause::NoServer,
    ] {
        has_kind(rt, log, Kind::Left(cause));
    }
    holds(rt, course.windows > 8);
    holds(rt, course.full > 0 && course.full < course.windows);
    drop(course);
}

// Compares dispatchers whose logs fill, over this kind of queue.
fn fills_logs<Q: PendQueue<Key, usize>>(rt: &impl Abort, alloc: Global) {
    let (setup, copy) = (few_checks(rt, alloc), few_checks(rt, alloc));
    let course = both_agree::<Q>(rt, alloc, setup, copy, 10_000);
    holds(rt, course.full > 1);
    drop(course);
}

#[test]
fn the_log_over_lists_is_that_of_the_definitions(rt: HostRuntime) {
    follows_the_definitions::<ListQueue<Key, usize>>(&rt, rt.alloc());
}

#[test]
fn the_log_over_trees_is_that_of_the_definitions(rt: HostRuntime) {
    follows_the_definitions::<BinomQueue<Key, usize>>(&rt, rt.alloc());
}

#[test]
fn full_logs_are_those_of_the_definitions(rt: HostRuntime) {
    fills_logs::<ListQueue<Key, usize>>(&rt, rt.alloc());
    fills_logs::<BinomQueue<Key, usize>>(&rt, rt.alloc());
}
