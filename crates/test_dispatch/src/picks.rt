ghost use Rattle.std.specs.Prelude.{◌≡◌, None, length, replicate};

use crate::assertions::{holds, same};
use due_key::{Class, Due, Key, Moment, Offset};
use log_entries::{Intake, Phase, Queue, Row, ServerSet, Servers, Setup};
use server_pick::{Cursor, Heads, Placement, Set64, candidates, next_queue, next_taker, place};
use slot_ledger::Ledger;
use std::alloc::Global;
use std::process::Abort;

// A step of a test, which runs on a ledger of three servers and the cursor of balancing.
#[derive(Clone, Copy)]
enum Step {
    Down(usize),
    Up(usize),
    Limit(usize, Intake),
    // The placement of a request with this pin that avoids this server.
    Place(Option<usize>, Option<usize>, Placement),
    // Whether this server is a candidate for a request that avoids that one.
    Candidate(Option<usize>, usize, bool),
    // The server that was picked last.
    Cursor(usize),
}

fn play(rt: &impl Abort, ledger: &mut Ledger<char>, steps: &[Step]) {
    let mut cursor = Cursor::new(3);
    for step in steps {
        play_one(rt, ledger, &mut cursor, *step);
    }
}

fn play_one(rt: &impl Abort, ledger: &mut Ledger<char>, cursor: &mut Cursor, step: Step) {
    match step {
        Step::Down(server) => set_up(rt, ledger, server, false),
        Step::Up(server) => set_up(rt, ledger, server, true),
        Step::Limit(server, limit) => set_limit(rt, ledger, server, limit),
        Step::Place(pin, avoid, placement) => {
            same(rt, place(ledger, cursor, pin, avoid), placement);
        }
        Step::Candidate(avoid, server, is_one) => {
            same(rt, candidates(ledger, avoid).contains(server), is_one);
        }
        Step::Cursor(server) => same(rt, cursor.server(), server),
    }
}

fn set_up(rt: &impl Abort, ledger: &mut Ledger<char>, server: usize, up: bool) {
    holds(rt, server < ledger.setup().servers.len());
    ledger.set_up(server, up);
}

fn set_limit(rt: &impl Abort, ledger: &mut Ledger<char>, server: usize, limit: Intake) {
    holds(rt, server < ledger.setup().servers.len());
    ledger.set_limit(server, limit);
}

fn key(ticket: u64) -> Key {
    Key {
        class: Class::clamp(0),
        due: Due::of(Moment::zero(), Offset::clamp(0)),
        ticket,
    }
}

#[test]
fn sets_have_what_was_inserted(rt: HostRuntime) {
    let mut set = Set64::new();
    holds(&rt, set.is_empty());
    set.insert(3);
    holds(&rt, set.contains(3));
    holds(&rt, !set.contains(4));
    holds(&rt, !set.is_empty());
    holds(&rt, Set64::of(5).contains(5));
}

// Three servers of one slot each, and four places without a request.
fn three_servers(rt: &impl Abort, alloc: Global) -> Ledger<char>
    ensures servers { length result.setup.servers ≡ 3 }
    ensures empty { result.cells ≡ replicate 4 None }
{
    let server = ServerSet {
        limit: 1,
        maxqueue: 0,
        weight: 1,
        rise_fall: None,
    };
    let setup = Setup {
        servers: Servers::from_vec(vec![in alloc; server; 3].expect(rt, "memory")),
        places: 4,
        log: 64,
        retries: 3,
        redispatch: false,
        queue_timeout: 0,
    };
    holds(rt, setup.sound());
    Ledger::new(alloc, setup).expect(rt, "memory")
}

#[test]
fn idle_servers_are_picked_in_turn(rt: HostRuntime) {
    let mut ledger = three_servers(&rt, rt.alloc());
    let steps = [
        Step::Cursor(2),
        Step::Place(None, None, Placement::Slot(0)),
        Step::Place(Some(2), None, Placement::Slot(2)),
        Step::Cursor(0),
        Step::Place(None, Some(1), Placement::Slot(2)),
        Step::Candidate(Some(1), 0, true),
        Step::Candidate(Some(1), 1, false),
    ];
    play(&rt, &mut ledger, &steps);
    drop(ledger);
}

#[test]
fn servers_that_are_down_are_passed_over(rt: HostRuntime) {
    let mut ledger = three_servers(&rt, rt.alloc());
    let steps = [
        Step::Down(0),
        Step::Place(None, None, Placement::Slot(1)),
        Step::Candidate(None, 0, false),
        Step::Down(1),
        Step::Place(Some(1), None, Placement::Slot(2)),
        Step::Down(2),
        Step::Place(Some(1), None, Placement::Nowhere),
        Step::Up(0),
        Step::Place(None, None, Placement::Slot(0)),
    ];
    play(&rt, &mut ledger, &steps);
    drop(ledger);
}

#[test]
fn a_server_that_is_down_takes_nothing(rt: HostRuntime) {
    let mut ledger = three_servers(&rt, rt.alloc());
    take_past_a_fall(&rt, &mut ledger, &key(1));
    drop(ledger);
}

fn take_past_a_fall(rt: &impl Abort, ledger: &mut Ledger<char>, key: &Key)
    requires servers { length ledger.old.setup.servers ≡ 3 }
    requires empty { ledger.old.cells ≡ replicate 4 None }
{
    ledger.admit(Row {
        key: *key,
        pin: None,
        failures: 0,
        phase: Phase::Waiting(Queue::Backend, Moment::zero()),
    });
    ledger.set_up(0, false);
    let mut cursor = Cursor::new(3);
    same(rt, next_taker(ledger, &mut cursor), Some(1));
    same(rt, cursor.server(), 1);
    let heads = Heads {
        own: None,
        backend: Some(*key),
    };
    same(rt, next_queue(ledger, &heads, 1), Queue::Backend);
}

#[test]
fn a_server_takes_up_to_its_present_limit(rt: HostRuntime) {
    let mut ledger = three_servers(&rt, rt.alloc());
    serve_one(&mut ledger);
    let steps = [
        Step::Limit(0, Intake::Open(2)),
        Step::Place(Some(0), None, Placement::Slot(0)),
        Step::Limit(0, Intake::Open(1)),
        Step::Place(Some(0), None, Placement::OwnQueue(0)),
        Step::Limit(0, Intake::Closed),
        Step::Place(Some(0), None, Placement::Slot(1)),
    ];
    play(&rt, &mut ledger, &steps);
    drop(ledger);
}

// The first server serves a request.
fn serve_one(ledger: &mut Ledger<char>)
    requires servers { length ledger.old.setup.servers ≡ 3 }
    requires empty { ledger.old.cells ≡ replicate 4 None }
{
    ledger.admit(Row {
        key: key(1),
        pin: None,
        failures: 0,
        phase: Phase::Serving(0),
    });
}
