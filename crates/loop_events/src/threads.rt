//! The threads: the loops, and one that checks the servers.

ghost use Rattle.std.specs.Prelude.{◌≡◌, IfOk, map, None, true, false};
ghost use Rattle.std.specs.List.{enumerate_from};
ghost use Rattle.loop_events.specs.Starts.{start_at};
ghost use Rattle.loop_events.specs.Timeouts.{AreTimed};
ghost use Rattle.loop_table.specs.Agendas.{nothing_noted};
ghost use Rattle.loop_table.specs.TokenTables.{fresh};

use crate::looping::Looper;
use crate::reusing::UnusedConnections;
use crate::rooms::rooms_of;
use crate::timing::Keywords;
use due_key::Moment;
use exchange_driver::Settings;
use exchange_events::Rules;
use locked_book::DeskName;
use log_requests::RecordSink;
use loop_shared::{Shared, SocketGate, Stop, run_checks, run_controls, run_windows};
use loop_table::{Agenda, Timers, TokenTable};
use mio::Poll;
use proxy_config::Config;
use std::alloc::{AllocError, Global};
use std::marker::Model;
use std::net::{Net, TcpListener, TcpStream};
use std::sync::Wait;
use std::sync::ledger::Ledger;
use std::thread;
use std::thread::{JoinHandle, Scope, Threads};
use std::time::Clock;

/// The most bytes of one read.
const BUFFER: usize = 16_384;

/// The most moves of each direction of an exchange before the others get their turn.
const TURNS: u32 = 4;

/// A loop that hasn't started yet. Contracts see its number and its poll.
#[derive(Drop)]
pub struct UnstartedLoop {
    poll: Poll,
    home: usize,
}

impl Model for UnstartedLoop {
    ghost use Rattle.loop_events.specs.Starts.{Start};

    ghost Value = { Start };

    ghost view = { λ l. record { home = l.home; poll = l.poll } };
}

/// Makes a loop for each poll. The loops are numbered from 0, in the order of the polls.
pub fn loops_of(alloc: Global, polls: Vec<Poll>) -> Result<Vec<UnstartedLoop>, AllocError>
    ensures { IfOk result (λ loops. loops.items ≡ map start_at (enumerate_from 0 polls.items)) }
{
    let mut loops = Vec::new(alloc);
    'making: for (home, poll) in polls.into_iter().enumerate() {
        loops.push(UnstartedLoop { poll, home })?;
    }
    Ok(loops)
}

/// Runs all threads in a scope. It returns once the proxy has ended and each thread has.
pub fn run_all<
    R: Net<Listener = TcpListener, Stream = TcpStream> + Clock + Print + Threads + Wait + Sync,
    N: DeskName + Ledger + Send + Sync,
    S: Lends<N> + Sync,
>(rt: &R, shared: &S, loops: Vec<UnstartedLoop>) {
    let stop = Stop::new();
    let stop = &stop;
    thread::scope(thread::scope_env(), rt, move |scope| {
        let mut loops = loops;
        let checking = if shared.lend().has_checks() {
            let started = scope.spawn(move || run_checks(rt, shared.lend(), stop.view()));
            kept(rt, shared.lend(), started.ok())
        } else {
            None
        };
        let steering = if shared.lend().has_controls() {
            let started = scope.spawn(move || run_controls(rt, shared.lend()));
            kept(rt, shared.lend(), started.ok())
        } else {
            None
        };
        let rolling = match shared.lend().front.window {
            None => None,
            Some(millis) => {
                let started = scope.spawn(move || run_windows(rt, shared.lend(), millis));
                kept(rt, shared.lend(), started.ok())
            }
        };
        begin_loops(scope, rt, shared, &mut loops);
        stop.tell();
        join(rt, checking);
        join(rt, steering);
        join(rt, rolling);
    })
}

// Starts a thread beside the loops. Where that fails, the proxy ends.
fn kept<R: Wait, N: DeskName + Ledger, T>(
    rt: &R,
    shared: &Shared<'_, N>,
    started: Option<T>,
) -> Option<T>
    ensures { result ≡ started }
{
    if started.is_none() {
        shared.give_up(rt);
    }
    started
}

fn join<R: Threads + Wait>(rt: &R, thread: Option<JoinHandle<()>>) {
    if let Some(handle) = thread {
        handle.join(rt);
    }
}

// Starts a thread for each loop, the last one first. Where one can't be started, the proxy ends.
fn begin_loops<
    's,
    E,
    R: Net<Listener = TcpListener, Stream = TcpStream> + Clock + Print + Threads + Wait + Sync,
    N: DeskName + Ledger + Send + Sync + 's,
    S: Lends<N> + Sync + 's,
>(scope: &Scope<'s, E>, rt: &'s R, shared: &'s S, loops: &mut Vec<UnstartedLoop>) {
    let Some(next) = loops.pop() else {
        return shared.lend().wait_for_end(rt);
    };
    let started = scope.spawn(move || run_loop(rt, shared.lend(), next)).ok();
    if started.is_none() {
        shared.lend().give_up(rt);
    }
    begin_loops(scope, rt, shared, loops);
    if let Some(handle) = started {
        handle.join(rt);
    }
}

fn run_loop<
    'a,
    R: Net<Listener = TcpListener, Stream = TcpStream> + Clock + Print + Wait,
    N: DeskName + Ledger,
>(rt: &'a R, shared: &'a Shared<'a, N>, unbegun: UnstartedLoop) {
    let UnstartedLoop { poll, home } = unbegun;
    match looper(rt, shared, &poll, home) {
        Err(_) => {
            shared.give_up(rt);
        }
        Ok(looper) => {
            looper.run(poll);
            shared.close(rt);
        }
    }
}

// Makes a loop. Fails also where the system refuses a poll.
fn looper<
    'a,
    R: Net<Listener = TcpListener, Stream = TcpStream> + Clock + Print + Wait,
    N: DeskName + Ledger,
>(
    rt: &'a R,
    shared: &'a Shared<'a, N>,
    poll: &Poll,
    home: usize,
) -> Result<Looper<'a, N, R>, AllocError>
    ensures home { IfOk result (λ it. it.home ≡ home) }
    ensures times { IfOk result (λ it. AreTimed it.timers it.room shared.now.front.now.config.now shared.now.front.now.keeping shared.now.front.now.reusing it.keywords) }
    ensures idle { IfOk result (λ it. (it.agenda ≡ nothing_noted it.room) × (it.freed ≡ None) × (it.more ≡ true) × (it.short ≡ false) × (it.lingering ≡ 0)) }
    ensures cells { IfOk result (λ it. it.guests ≡ fresh it.room) }
    ensures settings { IfOk result (λ it. (it.settings.rules.aborts ≡ shared.now.proxy.now.config.abortonclose) × (it.settings.turns ≡ 4)) }
{
    let alloc = shared.proxy.alloc;
    let Ok(registry) = poll.registry().try_clone() else {
        return Err(AllocError);
    };
    let rooms = rooms_of(shared.most, shared.loops());
    let room = rooms.guests + rooms.lingering + rooms.unused;
    let mut timers = Timers::new(alloc);
    let keywords = Keywords::of(alloc, shared.front, &mut timers, room)?;
    let buffer = vec![in alloc; 0u8; BUFFER]?;
    let gate = SocketGate::new(alloc, rt, shared.front)?;
    let agenda = Agenda::with_room(alloc, room)?;
    let servers = shared.proxy.config.servers.len();
    let shelves = UnusedConnections::empty(alloc, servers, rooms.unused)?;
    let guests = TokenTable::with_room(alloc, room)?;
    Ok(Looper {
        rt,
        shared,
        home,
        registry,
        gate,
        settings: settings_of(alloc, &shared.proxy.config),
        guests,
        room,
        timers,
        keywords,
        buffer,
        shelves,
        agenda,
        more: true,
        short: false,
        tried: Moment::zero(),
        freed: None,
        lingering: 0,
        most_lingering: rooms.lingering,
        teller: teller_of(rt, shared),
    })
}

// Returns the settings of a loop's exchanges.
fn settings_of(alloc: Global, config: &Config) -> Settings
    ensures { (result.rules.aborts ≡ config.now.abortonclose) × (result.turns ≡ 4) }
{
    Settings {
        alloc,
        rules: Rules {
            aborts: config.abortonclose,
        },
        turns: TURNS,
    }
}

// Makes the sink for a loop's records.
fn teller_of<'a, R: Wait, N: DeskName + Ledger>(
    rt: &R,
    shared: &'a Shared<'a, N>,
) -> Option<RecordSink<'a>> {
    shared.front.log?.teller(rt)
}

/// Lends threads the data that they share. Whether a type parameter may be shared is known only
/// from a bound, so this trait shows it once, for `Shared`.
pub trait Lends<N: DeskName + Ledger> {
    fn lend(&self) -> &Shared<'_, N>;
}

impl<N: DeskName + Ledger> Lends<N> for Shared<'_, N> {
    fn lend(&self) -> &Shared<'_, N> {
        self
    }
}
