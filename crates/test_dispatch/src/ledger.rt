ghost use Rattle.std.specs.Prelude.{◌≡◌, ℕ, ◌<◌, None, length, replicate};
ghost use Rattle.slot_ledger.specs.Cells.{AreBelow};

use crate::assertions::{holds, same};
use base_verdict::Cause;
use due_key::{Class, Due, Key, Moment, Offset};
use log_entries::{Allowance, Intake, Phase, Queue, Row, ServerSet, Servers, Setup};
use slot_ledger::Ledger;
use std::alloc::Global;
use std::process::Abort;

// Makes a moment of a number; 0 where it is out of range.
fn moment(number: u64) -> Moment {
    Moment::new(number).unwrap_or(Moment::zero())
}

// Two servers of one slot each, and no request.
fn made(rt: &impl Abort, alloc: Global, places: usize) -> Ledger<char>
    ensures servers { length result.setup.servers ≡ 2 }
    ensures empty { result.cells ≡ replicate places None }
{
    let server = ServerSet {
        limit: 1,
        maxqueue: 0,
        weight: 1,
        rise_fall: None,
    };
    let setup = Setup {
        servers: Servers::from_vec(vec![in alloc; server; 2].expect(rt, "memory")),
        places,
        log: 64,
        retries: 3,
        redispatch: false,
        queue_timeout: 0,
    };
    holds(rt, setup.sound());
    Ledger::new(alloc, setup).expect(rt, "memory")
}

fn key_of(ticket: u64) -> Key
    ensures { result.ticket ≡ ticket }
{
    Key {
        class: Class::clamp(0),
        due: Due::of(Moment::zero(), Offset::clamp(0)),
        ticket,
    }
}

fn row_of(ticket: u64, pin: Option<usize>, phase: Phase) -> Row
    ensures failures { result.failures ≡ 0 }
    ensures phase { result.phase ≡ phase }
{
    Row {
        key: key_of(ticket),
        pin,
        failures: 0,
        phase,
    }
}

// Puts a row with the ticket at a free place.
fn admit(rt: &impl Abort, ledger: &mut Ledger<char>, ticket: u64) -> usize
    requires { AreBelow ticket ledger.old.cells }
    ensures { (n : ℕ) → ticket < n → AreBelow n ledger.new.cells }
{
    holds(rt, ledger.len() < ledger.places());
    let key = key_of(ticket);
    let row = Row {
        key,
        pin: None,
        failures: 0,
        phase: Phase::Loose,
    };
    ledger.admit(row)
}

fn end(rt: &impl Abort, ledger: &mut Ledger<char>, ticket: u64)
    ensures { (n : ℕ) → AreBelow n ledger.old.cells → AreBelow n ledger.new.cells }
{
    let place = ledger.find(ticket).expect(rt, "a place");
    ledger.end(place);
}

// A request comes and goes.
fn pass(rt: &impl Abort, ledger: &mut Ledger<char>, ticket: u64)
    requires { AreBelow ticket ledger.old.cells }
    ensures { ledger.new ≡ ledger.old }
{
    holds(rt, ledger.len() < ledger.places());
    let key = key_of(ticket);
    let row = Row {
        key,
        pin: None,
        failures: 0,
        phase: Phase::Loose,
    };
    let place = ledger.admit(row);
    ledger.end(place);
}

#[test]
fn an_old_ticket_is_found_after_many(rt: HostRuntime) {
    let mut ledger = made(&rt, rt.alloc(), 4);
    find_the_first(&rt, &mut ledger);
    drop(ledger);
}

fn find_the_first(rt: &impl Abort, ledger: &mut Ledger<char>)
    requires { ledger.old.cells ≡ replicate 4 None }
{
    let place = admit(rt, ledger, 0);
    for ticket in 1..200 {
        admit(rt, ledger, ticket);
        if ticket > 2 {
            end(rt, ledger, ticket - 2);
        }
        same(rt, ledger.find(0), Some(place));
        same(rt, ledger.find(ticket).is_some(), true);
    }
    same(rt, ledger.len(), 3);
    same(rt, ledger.find(197), None);
    same(rt, ledger.find(198).is_some(), true);
}

#[test]
fn a_lower_ticket_comes_after_a_higher_one(rt: HostRuntime) {
    let mut ledger = made(&rt, rt.alloc(), 2);
    find_both(&rt, &mut ledger);
    drop(ledger);
}

fn find_both(rt: &impl Abort, ledger: &mut Ledger<char>)
    requires { ledger.old.cells ≡ replicate 2 None }
{
    let first = admit(rt, ledger, 3);
    pass(rt, ledger, 9);
    let second = admit(rt, ledger, 5);
    same(
        rt,
        (ledger.find(3), ledger.find(5)),
        (Some(first), Some(second)),
    );
    same(rt, ledger.find(9), None);
}

#[test]
fn a_request_goes_its_way(rt: HostRuntime) {
    let mut ledger = made(&rt, rt.alloc(), 2);
    go_its_way(&rt, &mut ledger);
    drop(ledger);
}

fn go_its_way(rt: &impl Abort, ledger: &mut Ledger<char>)
    requires servers { length ledger.old.setup.servers ≡ 2 }
    requires empty { ledger.old.cells ≡ replicate 2 None }
{
    same(
        rt,
        (ledger.setup().servers.len(), ledger.find(5)),
        (2, None),
    );
    let place = ledger.admit(row_of(5, None, Phase::Loose));
    ledger.loosen(place, 'n');
    let node = ledger.wait(place, Queue::Server(0), moment(1));
    let waiting = Phase::Waiting(Queue::Server(0), moment(1));
    same(
        rt,
        (ledger.row(place).phase, ledger.queued(Queue::Server(0))),
        (waiting, 1),
    );
    ledger.loosen(place, node);
    ledger.serve(place, 0);
    same(rt, (ledger.served(0), ledger.served(1)), (1, 0));
    ledger.free(place);
    same(rt, ledger.row(place), row_of(5, None, Phase::Loose));
    ledger.tell(place, Cause::NoServer);
    same(rt, ledger.row(place).phase, Phase::Told(Cause::NoServer));
    same(
        rt,
        (ledger.find(5), ledger.len(), ledger.places()),
        (Some(place), 1, 2),
    );
    ledger.end(place);
    same(rt, (ledger.find(5), ledger.len()), (None, 0));
}

#[test]
fn a_server_goes_down_and_up(rt: HostRuntime) {
    let mut ledger = made(&rt, rt.alloc(), 2);
    go_down_and_up(&rt, &mut ledger);
    drop(ledger);
}

fn go_down_and_up(rt: &impl Abort, ledger: &mut Ledger<char>)
    requires servers { length ledger.old.setup.servers ≡ 2 }
    requires empty { ledger.old.cells ≡ replicate 2 None }
{
    same(
        rt,
        (ledger.up(0), ledger.up(1), ledger.up(2)),
        (true, true, false),
    );
    let place = ledger.admit(row_of(5, Some(1), Phase::Loose));
    ledger.loosen(place, 'n');
    ledger.fail(place);
    let mut failed = row_of(5, Some(1), Phase::Loose);
    failed.failures = 1;
    same(rt, ledger.row(place), failed);
    same(rt, ledger.wait(place, Queue::Server(1), moment(1)), 'n');
    ledger.set_up(1, false);
    same(rt, (ledger.up(0), ledger.up(1)), (true, false));
    ledger.shift(place, moment(2));
    ledger.unpin(place);
    let mut moved = row_of(5, None, Phase::Waiting(Queue::Backend, moment(2)));
    moved.failures = 1;
    same(rt, ledger.row(place), moved);
    same(
        rt,
        (
            ledger.queued(Queue::Server(1)),
            ledger.queued(Queue::Backend),
        ),
        (0, 1),
    );
    ledger.set_up(1, true);
    same(rt, ledger.up(1), true);
}

#[test]
fn a_limit_is_set_while_a_request_is_served(rt: HostRuntime) {
    let mut ledger = made(&rt, rt.alloc(), 2);
    set_a_limit(&rt, &mut ledger);
    drop(ledger);
}

fn set_a_limit(rt: &impl Abort, ledger: &mut Ledger<char>)
    requires servers { length ledger.old.setup.servers ≡ 2 }
    requires empty { ledger.old.cells ≡ replicate 2 None }
{
    let place = ledger.admit(row_of(5, None, Phase::Serving(0)));
    same(
        rt,
        ledger.cell(place),
        Some(row_of(5, None, Phase::Serving(0))),
    );
    ledger.set_limit(0, Intake::Open(3));
    same(
        rt,
        (ledger.limit(0), ledger.limit(1)),
        (Intake::Open(3), Intake::Open(1)),
    );
    let noted = Allowance {
        limit: Intake::Open(3),
        served: 1,
    };
    same(rt, ledger.limits().first().copied(), Some(noted));
}
