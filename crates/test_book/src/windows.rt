ghost use Rattle.std.specs.Prelude.{◌≡◌, [], length};
ghost use Rattle.log_entries.specs.Histories.{first_window};

use crate::assertions::{holds, same};
use dispatch_core::{Core, Event};
use dispatch_reports::{EndedWindow, ReportingCore, ServerLine};
use due_key::{Class, Key, Moment, Offset};
use late_cert::Running;
use log_entries::{Queue, ServerSet, Servers, Setup};
use pend_queue::ListQueue;
use std::alloc::Global;
use std::process::Abort;

type Lists = ListQueue<Key, usize>;

// A dispatcher with one server that serves one request at a time, four places, and a log with room
// for this many entries.
fn dispatcher(rt: &impl Abort, alloc: Global, log: usize) -> Core<Lists>
    ensures first { result ≡ first_window result.setup [] }
    ensures one_server { length result.setup.servers ≡ 1 }
{
    let server = ServerSet {
        limit: 1,
        maxqueue: 0,
        weight: 1,
        rise_fall: None,
    };
    let setup = Setup {
        servers: Servers::from_vec(vec![in alloc; server].expect(rt, "memory")),
        places: 4,
        log,
        retries: 3,
        redispatch: false,
        queue_timeout: 0,
    };
    holds(rt, setup.sound());
    Core::new(alloc, setup).expect(rt, "memory")
}

fn reporting(rt: &impl Abort, alloc: Global, log: usize) -> ReportingCore<Lists> {
    let running = Running::new(alloc, 1).expect(rt, "memory");
    ReportingCore::new(dispatcher(rt, alloc, log), running)
}

// Makes a moment of a number; 0 where it is out of range.
fn moment(number: u64) -> Moment {
    Moment::new(number).unwrap_or(Moment::zero())
}

// Lets a request of class 0 without an offset and a pin arrive.
fn arrive(rt: &impl Abort, alloc: Global, core: &mut ReportingCore<Lists>, number: u64) -> u64 {
    let class = Class::clamp(0);
    let offset = Offset::clamp(0);
    let answer = core.arrive(alloc, moment(number), class, offset, None);
    answer.expect(rt, "an arrival").ticket
}

fn done(rt: &impl Abort, core: &mut ReportingCore<Lists>, number: u64, ticket: u64) {
    let event = Event::Done {
        moment: moment(number),
        ticket,
    };
    core.apply(event).expect(rt, "an end");
}

// Two requests arrive, and the first one ends.
fn serve_one(rt: &impl Abort, alloc: Global, core: &mut ReportingCore<Lists>) {
    let first = arrive(rt, alloc, core, 1);
    arrive(rt, alloc, core, 2);
    done(rt, core, 9, first);
}

fn worst(core: &ReportingCore<Lists>, class: i64) -> Option<i64> {
    core.worst(Queue::Backend, Class::clamp(class))
}

// Returns the number of reports, and the line of the one server.
fn window_told(rt: &impl Abort, alloc: Global, core: &ReportingCore<Lists>) -> (usize, ServerLine) {
    let lines = core.servers(alloc).expect(rt, "memory");
    holds(rt, lines.len() == 1);
    let reports = core.report(alloc).expect(rt, "memory");
    (reports.len(), lines[0])
}

// Returns the number of reports and lines of the window that ends to make room; `None` where there is room.
fn make_room(
    rt: &impl Abort,
    alloc: Global,
    core: &mut ReportingCore<Lists>,
) -> Option<(usize, usize)> {
    match core.make_room(alloc).expect(rt, "memory") {
        Some(EndedWindow { reports, servers }) => Some((reports.len(), servers.len())),
        None => None,
    }
}

// What is told of a window in which one request was served: the worst of two classes, the number of
// reports, and the server's line.
#[derive(Clone, Copy, Debug, PartialEq)]
struct Told {
    worst: (Option<i64>, Option<i64>),
    reports: usize,
    line: ServerLine,
}

fn serve_and_tell(rt: &impl Abort, alloc: Global, core: &mut ReportingCore<Lists>) -> Told {
    serve_one(rt, alloc, core);
    let (reports, line) = window_told(rt, alloc, core);
    Told {
        worst: (worst(core, 0), worst(core, 1)),
        reports,
        line,
    }
}

// The same, and the worst of class 0 in the window after it.
fn window_of_one(rt: &impl Abort, alloc: Global) -> (Told, Option<i64>) {
    let mut core = reporting(rt, alloc, 64);
    let told = serve_and_tell(rt, alloc, &mut core);
    core.roll();
    let later = worst(&core, 0);
    drop(core);
    (told, later)
}

#[test]
fn the_window_is_reported(rt: HostRuntime) {
    let (told, later) = window_of_one(&rt, rt.alloc());
    let line = ServerLine {
        up: true,
        direct: 1,
        granted: 1,
    };
    let expected = Told {
        worst: (Some(7), None),
        reports: 1,
        line,
    };
    same(&rt, told, expected);
    same(&rt, later, None);
}

// Fills the log, and makes room in it twice.
fn make_room_twice(
    rt: &impl Abort,
    alloc: Global,
    core: &mut ReportingCore<Lists>,
) -> [Option<(usize, usize)>; 2] {
    serve_one(rt, alloc, core);
    [make_room(rt, alloc, core), make_room(rt, alloc, core)]
}

fn full_log(rt: &impl Abort, alloc: Global) -> [Option<(usize, usize)>; 2] {
    let mut core = reporting(rt, alloc, 20);
    let rooms = make_room_twice(rt, alloc, &mut core);
    drop(core);
    rooms
}

#[test]
fn a_full_log_is_handed_out(rt: HostRuntime) {
    let rooms = full_log(&rt, rt.alloc());
    same(&rt, rooms, [Some((1, 1)), None]);
}
