//! The program that `bench/desk.sh` times: requests pass through one desk.
//!
//! Its arguments are the number of threads, which is 1 or 4, of places and of requests. Each thread
//! keeps its share of the places occupied: it takes the oldest request's pass once it is offered,
//! posts it, makes a turn, and lets the next request arrive. Half of the places may be served at
//! once.
#![tactic(auto)]

ghost use Rattle.std.specs.Prelude.{◌≡◌, ◌<◌, ◌∷◌, [], length, true, None, IfOk};
ghost use Rattle.log_entries.specs.Histories.{first_window};
ghost use Rattle.grant_board.specs.KeeperCalls.{new_keeper};
ghost use Rattle.grant_board.specs.RelayCalls.{new_relay};
ghost use Rattle.locked_book.specs.Books.{terms_for};
ghost use Rattle.dispatch_reports.specs.Reporting.{IsNew};

use anyhow::{Context, Result, bail};
use base_verdict::Ending;
use dispatch_core::Core;
use dispatch_reports::EndedWindow;
use dispatch_state::Ticketed;
use due_key::{Class, Moment, Offset};
use grant_board::{Board, KeeperSeat, RelaySeat, Taking};
use late_cert::Running;
use locked_book::{DeskName, Wanted};
use log_entries::{Refusal, ServerSet, Servers, Setup};
use shared_desk::{Desk, DeskKeys, DeskQueue};
use std::alloc::Global;
use std::collections::VecDeque;
use std::env;
use std::marker::{Brand, PhantomData};
use std::sync::Wait;
use std::thread::{Threads, join, yield_now};

/// A thread's share: how many requests it keeps at once, and how many it serves in all.
#[derive(Clone, Copy)]
struct Share {
    live: usize,
    requests: u64,
}

/// The arguments of the program.
#[derive(Clone, Copy)]
struct Asked {
    threads: u32,
    places: usize,
    requests: u64,
}

/// A fresh dispatcher and the board for its places and limits.
#[derive(Drop)]
struct Opened {
    core: Core<DeskQueue>,
    board: Board,
    seat: KeeperSeat,
    relay: RelaySeat,
    running: Running,
    ghost first: { core ≡ first_window core.setup [] },
    ghost named: { (seat.board ≡ board) × (relay.board ≡ board) },
    ghost keeper: { seat.view ≡ new_keeper (terms_for core.setup) },
    ghost views: { relay.view ≡ new_relay (terms_for core.setup) true },
    ghost told_nothing: { IsNew running (length core.setup.servers) },
}

fn main(rt: HostRuntime) -> Result<()> {
    let words = env::args(&rt)?.collect::<Vec<String>>(rt.alloc())?;
    let asked = read(words.as_slice())?;
    let served = serve_all(&rt, asked)?;
    println!(rt; "{served}")?;
    Ok(())
}

// Serves the requests with all threads, and returns how many were served.
fn serve_all<R: AllocGlobal + Threads + Wait + Sync>(rt: &R, asked: Asked) -> Result<u64> {
    let share = Share {
        live: asked.places,
        requests: asked.requests,
    };
    let opened = open(rt, rt.alloc(), asked.places)?;
    match asked.threads {
        1 => Ok(one::<Brand, _>(rt, rt.alloc(), opened, share)),
        4 => Ok(four::<Brand, _>(rt, rt.alloc(), opened, share)),
        _ => {
            // A call is proved faster than the drops of all parts of a dispatcher.
            drop(opened);
            bail!("1 or 4 threads")
        }
    }
}

fn read(words: &[String]) -> Result<Asked> {
    let [_, threads, places, requests] = words else {
        bail!("how many threads, places and requests");
    };
    Ok(Asked {
        threads: threads.as_str().parse().context("how many threads")?,
        places: places.as_str().parse().context("how many places")?,
        requests: requests.as_str().parse().context("how many requests")?,
    })
}

// Opens a dispatcher with one server that serves half as many requests at once as there are places.
fn open<R: Threads>(rt: &R, alloc: Global, places: usize) -> Result<Opened> {
    let limit = u32::try_from(places / 2).context("how many places")?;
    let setup = setup_of(alloc, places, limit)?;
    if !setup.sound() {
        bail!("not a sound setup");
    }
    let running = Running::new(alloc, 1)?;
    let (board, seat, relay) = Board::open(rt, alloc, places, &[limit])?;
    Ok(Opened {
        core: Core::new(alloc, setup)?,
        board,
        seat,
        relay,
        running,
    })
}

// One server with this limit, without a timeout in queues.
fn setup_of(alloc: Global, places: usize, limit: u32) -> Result<Setup>
    ensures servers { IfOk result (λ setup. setup.servers ≡ record { limit = limit; maxqueue = 0; weight = 1; rise_fall = None } ∷ []) }
    ensures places { IfOk result (λ setup. setup.places ≡ places) }
{
    let server = ServerSet {
        limit,
        maxqueue: 0,
        weight: 1,
        rise_fall: None,
    };
    Ok(Setup {
        servers: Servers::from_vec(vec![in alloc; server]?),
        places,
        log: 262_144,
        retries: 3,
        redispatch: false,
        queue_timeout: 0,
    })
}

fn start<N: DeskName, R: Threads>(rt: &R, opened: Opened) -> (Desk<N>, DeskKeys<N>, RelaySeat)
    requires named { opened.board ≡ N.board }
    requires terms { N.terms ≡ terms_for opened.core.setup }
    requires setup { N.setup ≡ opened.core.setup }
    ensures board { result.2.board ≡ N.board }
    ensures view { result.2.view ≡ new_relay N.terms true }
{
    let Opened {
        core,
        board,
        seat,
        relay,
        running,
    } = opened;
    let (desk, keys) = Desk::new(rt, core, board, seat, running);
    (desk, keys, relay)
}

// Serves the requests with one thread, and returns how many were served.
fn one<N: DeskName, R: Threads + Wait>(rt: &R, alloc: Global, opened: Opened, share: Share) -> u64
    requires named { opened.board ≡ N.board }
    requires terms { N.terms ≡ terms_for opened.core.setup }
    requires setup { N.setup ≡ opened.core.setup }
{
    let (desk, keys, relay) = start::<N, _>(rt, opened);
    serve(rt, alloc, (&desk, &keys), relay, share)
}

// Serves the requests with four threads, a quarter each.
fn four<N: DeskName + Send + Sync, R: Threads + Wait + Sync>(
    rt: &R,
    alloc: Global,
    opened: Opened,
    share: Share,
) -> u64
    requires named { opened.board ≡ N.board }
    requires terms { N.terms ≡ terms_for opened.core.setup }
    requires setup { N.setup ≡ opened.core.setup }
{
    let (desk, keys, first) = start::<N, _>(rt, opened);
    let seats = split(desk.board(), first);
    let share = Share {
        live: share.live / 4,
        requests: share.requests / 4,
    };
    pairs(rt, alloc, (&desk, &keys), seats, share)
}

// The seats of four threads, in two pairs.
fn split(board: &Board, first: RelaySeat) -> ((RelaySeat, RelaySeat), (RelaySeat, RelaySeat))
    requires same_board { first.board ≡ board.now }
    requires first { first.view.first ≡ true }
    ensures some_boards { (result.0.0.board ≡ first.board) × (result.0.1.board ≡ first.board) }
    ensures some_terms { (result.0.0.view.terms ≡ first.view.terms) × (result.0.1.view.terms ≡ first.view.terms) }
    ensures other_boards { (result.1.0.board ≡ first.board) × (result.1.1.board ≡ first.board) }
    ensures other_terms { (result.1.0.view.terms ≡ first.view.terms) × (result.1.1.view.terms ≡ first.view.terms) }
{
    let mut first = first;
    let second = first.split(board);
    let third = first.split(board);
    let fourth = first.split(board);
    ((first, second), (third, fourth))
}

fn pairs<N: DeskName + Send + Sync, R: Threads + Wait + Sync>(
    rt: &R,
    alloc: Global,
    desk: (&Desk<N>, &DeskKeys<N>),
    seats: ((RelaySeat, RelaySeat), (RelaySeat, RelaySeat)),
    share: Share,
) -> u64
    requires some_boards { (seats.0.0.board ≡ N.board) × (seats.0.1.board ≡ N.board) }
    requires some_terms { (seats.0.0.view.terms ≡ N.terms) × (seats.0.1.view.terms ≡ N.terms) }
    requires other_boards { (seats.1.0.board ≡ N.board) × (seats.1.1.board ≡ N.board) }
    requires other_terms { (seats.1.0.view.terms ≡ N.terms) × (seats.1.1.view.terms ≡ N.terms) }
{
    let (first, second) = seats;
    let (some, others) = join(
        rt,
        || -> u64
            requires { (first.0.board ≡ N.board) × (first.1.board ≡ N.board) × (first.0.view.terms ≡ N.terms) × (first.1.view.terms ≡ N.terms) }
        { two(rt, alloc, desk, first, share) },
        || -> u64
            requires { (second.0.board ≡ N.board) × (second.1.board ≡ N.board) × (second.0.view.terms ≡ N.terms) × (second.1.view.terms ≡ N.terms) }
        { two(rt, alloc, desk, second, share) },
    );
    some.saturating_add(others)
}

fn two<N: DeskName + Send + Sync, R: Threads + Wait + Sync>(
    rt: &R,
    alloc: Global,
    desk: (&Desk<N>, &DeskKeys<N>),
    seats: (RelaySeat, RelaySeat),
    share: Share,
) -> u64
    requires boards { (seats.0.board ≡ N.board) × (seats.1.board ≡ N.board) }
    requires terms { (seats.0.view.terms ≡ N.terms) × (seats.1.view.terms ≡ N.terms) }
{
    let (one, other) = seats;
    let (some, others) = join(
        rt,
        || -> u64
            requires { (one.board ≡ N.board) × (one.view.terms ≡ N.terms) }
        { serve(rt, alloc, desk, one, share) },
        || -> u64
            requires { (other.board ≡ N.board) × (other.view.terms ≡ N.terms) }
        { serve(rt, alloc, desk, other, share) },
    );
    some.saturating_add(others)
}

// Serves a thread's share: the oldest request is served, and another one arrives in its place.
fn serve<N: DeskName, R: Wait>(
    rt: &R,
    alloc: Global,
    desk: (&Desk<N>, &DeskKeys<N>),
    relay: RelaySeat,
    share: Share,
) -> u64
    requires named { relay.board ≡ N.board }
    requires terms { relay.view.terms ≡ N.terms }
{
    let mut relay = relay;
    let mut live = VecDeque::new(alloc);
    let mut came = 0u64;
    let mut served = 0u64;
    for _ in rt.forever() {
        if served >= share.requests {
            break;
        }
        if live.len() < share.live && came < share.requests {
            let Some(stands) = arrive(rt, alloc, desk, served) else {
                break;
            };
            if live.push_back(stands).is_err() {
                break;
            }
            came += 1;
            continue;
        }
        if let Some(oldest) = live.front() {
            if take(desk, &mut relay, oldest) {
                live.pop_front();
                served += 1;
                turn(rt, alloc, desk, served);
            } else {
                yield_now();
            }
        }
    }
    served
}

/// A place of the board and its request's ticket.
#[derive(Drop)]
struct Stands<N: DeskName> {
    it: Ticketed,
    of: PhantomData<N>,
    ghost in_range: { it.place < N.terms.places },
}

// Lets a request arrive. Where the log is full, a new window begins first.
fn arrive<N: DeskName, R: Wait>(
    rt: &R,
    alloc: Global,
    desk: (&Desk<N>, &DeskKeys<N>),
    moment: u64,
) -> Option<Stands<N>> {
    let moment = Moment::new(moment)?;
    match admit(rt, alloc, desk, moment) {
        Err(Refusal::LogFull) => {
            begin_window(rt, alloc, desk);
            admit(rt, alloc, desk, moment).ok()
        }
        admitted => admitted.ok(),
    }
}

fn admit<N: DeskName, R: Wait>(
    rt: &R,
    alloc: Global,
    desk: (&Desk<N>, &DeskKeys<N>),
    moment: Moment,
) -> Result<Stands<N>, Refusal> {
    let wanted = Wanted {
        class: Class::clamp(0),
        offset: Offset::clamp(0),
        pin: None,
    };
    let (answer, changed) = desk.0.open(&desk.1.desk).arrive(rt, alloc, moment, wanted);
    // What was changed can't be dropped.
    changed.take(&desk.1.wake);
    Ok(Stands {
        it: answer?,
        of: PhantomData,
    })
}

// Takes and posts the request's pass where it is offered. Says whether it was.
fn take<N: DeskName>(
    desk: (&Desk<N>, &DeskKeys<N>),
    relay: &mut RelaySeat,
    stands: &Stands<N>,
) -> bool
    requires named { relay.old.board ≡ N.board }
    requires terms { relay.old.view.terms ≡ N.terms }
    ensures { (relay.new.board ≡ N.board) × (relay.new.view.terms ≡ N.terms) }
{
    match relay.try_take(desk.0.board(), stands.it.place, stands.it.ticket) {
        Taking::Taken(pass) => {
            relay.post(desk.0.board(), pass, Ending::Done);
            true
        }
        Taking::NotYet => false,
    }
}

// Begins the next window; what is told of the one that ended isn't used.
fn begin_window<N: DeskName, R: Wait>(rt: &R, alloc: Global, desk: (&Desk<N>, &DeskKeys<N>)) {
    let (ended, changed) = desk.0.open(&desk.1.desk).roll(rt, alloc);
    changed.take(&desk.1.wake);
    match ended {
        Ok(
            EndedWindow {
                reports: _,
                servers: _,
            },
        ) => {}
        Err(_) => {}
    }
}

fn turn<N: DeskName, R: Wait>(rt: &R, alloc: Global, desk: (&Desk<N>, &DeskKeys<N>), moment: u64) {
    let moment = Moment::new(moment).unwrap_or(Moment::zero());
    if turn_once(rt, desk, moment).is_err() {
        begin_window(rt, alloc, desk);
        let _ = turn_once(rt, desk, moment);
    }
}

// The answer of a turn. The places with its offers aren't used: each thread looks at its own.
fn turn_once<N: DeskName, R: Wait>(
    rt: &R,
    desk: (&Desk<N>, &DeskKeys<N>),
    moment: Moment,
) -> Result<(), Refusal> {
    let (answer, changed) = desk.0.open(&desk.1.desk).turn(rt, moment);
    changed.take(&desk.1.wake);
    answer
}
