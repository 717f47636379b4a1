ghost use Rattle.std.specs.Prelude.{◌≡◌, ◌<◌, ◌≤◌, [], ◌∷◌, IfOk, length, map, true};
ghost use Rattle.log_entries.specs.Histories.{first_window};
ghost use Rattle.grant_board.specs.KeeperCalls.{new_keeper};
ghost use Rattle.grant_board.specs.RelayCalls.{new_relay};
ghost use Rattle.shared_desk.specs.Seats.{IsSameSeat};
ghost use Rattle.locked_book.specs.Books.{terms_for};
ghost use Rattle.dispatch_reports.specs.Reporting.{IsNew};

use base_verdict::{Cause, Ending, Verdict};
use dispatch_core::Core;
use dispatch_reports::{EndedWindow, ServerLine};
use dispatch_state::Ticketed;
use due_key::{Class, Due, Moment, Offset};
use grant_board::{Board, Closing, KeeperSeat, RelaySeat, Taking};
use late_cert::{Report, Reports, Running, Stay};
use locked_book::{DeskName, Wanted};
use log_entries::{Intake, Queue, Refusal, ServerSet, Servers, Setup};
use shared_desk::{Desk, DeskKeys, DeskQueue};
use std::alloc::{AllocError, Global};
use std::marker::Brand;
use std::process::Abort;
use std::sync::Wait;
use std::thread::Threads;

mod changes;
mod events;
mod memory;
mod overtaking;
mod redispatch;
mod threads;
mod windows;

// A fresh dispatcher and the board for its places and limits.
#[derive(Drop)]
struct Opened {
    core: Core<DeskQueue>,
    board: Board,
    seat: KeeperSeat,
    relay: RelaySeat,
    running: Running,
    ghost first: { core ≡ first_window core.setup [] },
    ghost named: { (seat.board ≡ board) × (relay.board ≡ board) },
    ghost keeper: { seat.view ≡ new_keeper (terms_for core.setup) },
    ghost views: { relay.view ≡ new_relay (terms_for core.setup) true },
    ghost told_nothing: { IsNew running (length core.setup.servers) },
}

// Says whether a window ended.
fn has_ended(made: Option<EndedWindow>) -> bool {
    match made {
        Some(
            EndedWindow {
                reports: _,
                servers: _,
            },
        ) => true,
        None => false,
    }
}

// A server whose health one check result decides.
fn server(limit: u32) -> ServerSet
    ensures { result.limit ≡ limit }
{
    ServerSet {
        limit,
        maxqueue: 0,
        weight: 1,
        rise_fall: Some((1, 1)),
    }
}

fn open(rt: &(impl Abort + Threads), alloc: Global, setup: Setup, limits: &[u32]) -> Opened
    requires limits { map (λ server. server.limit) setup.servers ≡ limits.now }
{
    let opened = open_sound(rt, alloc, setup, limits).expect(rt, "memory");
    opened.expect(rt, "a sound setup")
}

// Opens a dispatcher and its board; `None` where the setup isn't sound.
fn open_sound(
    rt: &impl Threads,
    alloc: Global,
    setup: Setup,
    limits: &[u32],
) -> Result<Option<Opened>, AllocError>
    requires limits { map (λ server. server.limit) setup.servers ≡ limits.now }
{
    if !setup.sound() {
        return Ok(None);
    }
    let running = Running::new(alloc, limits.len())?;
    let (board, seat, relay) = Board::open(rt, alloc, setup.places, limits)?;
    Ok(Some(Opened {
        core: Core::new(alloc, setup)?,
        board,
        seat,
        relay,
        running,
    }))
}

// Opens one server with this limit, this number of places, and a queue timeout of 10 ms.
fn one_server(
    rt: &(impl Abort + Threads),
    alloc: Global,
    places: usize,
    log: usize,
    limit: u32,
) -> Opened {
    let setup = setup_of_one(alloc, places, log, limit).expect(rt, "memory");
    open(rt, alloc, setup, &[limit])
}

fn setup_of_one(alloc: Global, places: usize, log: usize, limit: u32) -> Result<Setup, AllocError>
    ensures { IfOk result (λ setup. map (λ server. server.limit) setup.servers ≡ limit ∷ []) }
{
    let servers = vec![in alloc; server(limit)]?;
    Ok(Setup {
        servers: Servers::from_vec(servers),
        places,
        log,
        retries: 3,
        redispatch: false,
        queue_timeout: 10,
    })
}

// Makes a desk of what was opened, and the first of the seats that take passes.
fn start<N: DeskName, R: Threads>(rt: &R, opened: Opened) -> (Desk<N>, DeskKeys<N>, RelaySeat)
    requires named { opened.board ≡ N.board }
    requires terms { N.terms ≡ terms_for opened.core.setup }
    requires setup { N.setup ≡ opened.core.setup }
    ensures board { result.2.board ≡ N.board }
    ensures view { result.2.view ≡ new_relay N.terms true }
{
    let Opened {
        core,
        board,
        seat,
        relay,
        running,
    } = opened;
    let (desk, keys) = Desk::new(rt, core, board, seat, running);
    (desk, keys, relay)
}

// The wish of a request of class 0 with this offset and without a pin.
fn offset(millis: i64) -> Wanted {
    Wanted {
        class: Class::clamp(0),
        offset: Offset::clamp(millis),
        pin: None,
    }
}

// Makes a moment of a number; 0 where it is out of range.
fn at(millis: u64) -> Moment {
    Moment::new(millis).unwrap_or(Moment::zero())
}

// Lets a request arrive that isn't refused. No test looks at the places that an arrival wakes; they
// are taken since what was changed can't be dropped.
fn arrive<N: DeskName, R: Abort + Wait>(
    rt: &R,
    alloc: Global,
    desk: (&Desk<N>, &DeskKeys<N>),
    moment: u64,
    wanted: Wanted,
) -> Ticketed
    ensures { result.place < N.terms.places }
{
    let (answer, changed) = desk
        .0
        .open(&desk.1.desk)
        .arrive(rt, alloc, at(moment), wanted);
    changed.take(&desk.1.wake);
    answer.expect(rt, "an arrival")
}

// Makes a turn that isn't refused, and returns the first place that it woke.
fn turn<N: DeskName, R: Abort + Wait>(
    rt: &R,
    desk: (&Desk<N>, &DeskKeys<N>),
    moment: u64,
) -> Option<usize> {
    let (answer, changed) = desk.0.open(&desk.1.desk).turn(rt, at(moment));
    answer.expect(rt, "a turn");
    changed.take(&desk.1.wake).next(0)
}

fn check<N: DeskName, R: Abort + Wait>(
    rt: &R,
    desk: (&Desk<N>, &DeskKeys<N>),
    moment: u64,
    server: usize,
    ok: bool,
) {
    let (answer, changed) = desk.0.open(&desk.1.desk).check(rt, at(moment), server, ok);
    changed.take(&desk.1.wake);
    answer.expect(rt, "a check");
}

// Asks for room for an event, and returns the answer.
fn ask_room<N: DeskName, R: Wait>(
    rt: &R,
    alloc: Global,
    desk: (&Desk<N>, &DeskKeys<N>),
) -> Result<Option<EndedWindow>, AllocError> {
    let (made, changed) = desk.0.open(&desk.1.desk).make_room(rt, alloc);
    changed.take(&desk.1.wake);
    made
}

// Takes the request's verdict where it is offered, and posts that the exchange is over.
fn serve(board: &Board, relay: &mut RelaySeat, it: Ticketed) -> Option<Verdict>
    requires same_board { relay.old.board ≡ board.now }
    requires in_range { it.place < relay.old.view.terms.places }
    ensures { IsSameSeat relay.old relay.new }
{
    match relay.try_take(board, it.place, it.ticket) {
        Taking::Taken(pass) => {
            let verdict = pass.verdict();
            relay.post(board, pass, Ending::Done);
            Some(verdict)
        }
        Taking::NotYet => None,
    }
}

// Returns the greatest lateness of a class in the backend's queue.
fn worst<N: DeskName, R: Wait>(rt: &R, desk: (&Desk<N>, &DeskKeys<N>), class: i64) -> Option<i64> {
    let found = desk
        .0
        .look(rt)
        .book()
        .worst(Queue::Backend, Class::clamp(class));
    found
}

fn reports<N: DeskName, R: Abort + Wait>(
    rt: &R,
    alloc: Global,
    desk: (&Desk<N>, &DeskKeys<N>),
) -> Reports {
    let told = desk.0.look(rt).book().report(alloc);
    told.expect(rt, "memory")
}

fn stay(ticket: u64, joined: usize, slot: usize, moment: u64, offset: i64) -> Stay {
    Stay {
        ticket,
        joined,
        slot,
        due: Due::of(at(moment), Offset::clamp(offset)),
    }
}

// Says whether these are one report on class 0 of the backend's queue, with this count, worst
// lateness and due date, cut and slot.
fn is_report(
    reports: &Reports,
    numbers: (usize, i64, i64),
    slots: (usize, usize),
    critical: &[Stay],
) -> bool {
    let [report] = reports.as_slice() else {
        return false;
    };
    (report.queue, report.class.get()) == (Queue::Backend, 0)
        && (report.granted, report.worst, report.due.get()) == numbers
        && (report.after, report.to) == slots
        && report.critical.as_slice() == critical
}
