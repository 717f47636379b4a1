//! The timeouts of a loop.

ghost use Rattle.std.specs.Prelude.{◌≡◌, ◌≢◌, Bool, true, false, Some, [], IfOk, IsSome, IsNone};
ghost use Rattle.exchange_events.specs.Chains as chains;
ghost use Rattle.exchange_events.specs.Steps as steps;
ghost use Rattle.loop_table.specs.Timers.{sooner_of};
ghost use Rattle.loop_events.specs.Timeouts.{timeout_for, number_of, number_at, AreTimed, unused_time, Touches, Turns, retry_of, look_of, IsWait, expiry_of};
ghost use Rattle.loop_shared.specs.Timed.{Begins, Stops};
ghost use Rattle.run_gate.specs.Waits as waits;

use crate::guest::{Guest, Keyword, Resident, Task, Visit};
use crate::keeping::NextLook;
use crate::looping::Looper;
use crate::serving::MoreToDo;
use exchange_driver::Moved;
use exchange_events::TimeoutKind;
use exchange_seated::{Notice, Seated};
use grant_board::BoardName;
use locked_book::DeskName;
use loop_shared::{Gate, GateShared, GivenUpSet, Refusing, timed};
use loop_table::{Hole, Overdue, Timers};
use std::alloc::{AllocError, Global};
use std::net::{Net, TcpListener, TcpStream};
use std::sync::Wait;
use std::sync::ledger::Ledger;
use std::time::Clock;

/// How soon a loop tries again after a shortage, in milliseconds.
const SOON: u64 = 10;

/// The longest time between two looks at the dispatcher's queues, in milliseconds.
const SELDOM: u64 = 1000;

/// How long a client lingers, in milliseconds.
const LINGER: u64 = 2000;

/// How long an unused connection of a server stays open, in milliseconds: the default of HAProxy's
/// `pool-purge-delay`.
const UNUSED: u64 = 5000;

/// The longest wait of a request before it tries the server again that has just failed it, in milliseconds.
const TURNAROUND: u64 = 1000;

/// The numbers of the timeouts in a loop's table. `None`: without limit.
#[derive(Clone, Copy)]
pub(crate) struct Keywords {
    client: Option<usize>,
    connect: Option<usize>,
    server: Option<usize>,
    keep_alive: Option<usize>,
    linger: Option<usize>,
    turnaround: Option<usize>,
    unused: Option<usize>,
}

/// What becomes of a guest whose timeout has expired.
#[derive(Clone, Copy, Debug, PartialEq, Eq)]
pub(crate) enum Expiry {
    /// Its exchange is told that this time is over.
    Told(TimeoutKind),
    /// It tries its server again.
    Dials,
    /// Its client was silent between two requests, and lingers.
    Ends,
    /// Nothing: no such timeout runs for a guest.
    Nothing,
}

impl Keywords {
    /// Makes the timeouts from the settings that all gates share, for the keys below `room`.
    pub(crate) fn of(
        alloc: Global,
        front: &GateShared<'_>,
        timers: &mut Timers,
        room: usize,
    ) -> Result<Keywords, AllocError>
        ensures { IfOk result (AreTimed timers.new room front.now.config.now front.now.keeping front.now.reusing) }
    {
        let config = front.config;
        let unused = unused_time(front.reusing);
        let turnaround = turnaround(config.connect_timeout);
        Ok(Keywords {
            client: timed(alloc, timers, config.client_timeout, room)?,
            connect: timed(alloc, timers, config.connect_timeout, room)?,
            server: timed(alloc, timers, config.server_timeout, room)?,
            keep_alive: timed(alloc, timers, front.keeping, room)?,
            linger: timed(alloc, timers, Some(LINGER), room)?,
            turnaround: timed(alloc, timers, Some(turnaround), room)?,
            unused: timed(alloc, timers, unused, room)?,
        })
    }

    // Returns the number of a timeout in the loop's table.
    fn number(&self, keyword: Keyword) -> Option<usize>
        ensures { result ≡ number_of self.now keyword }
    {
        match keyword {
            Keyword::Client => self.client,
            Keyword::Connect => self.connect,
            Keyword::Server => self.server,
            Keyword::KeepAlive => self.keep_alive,
            Keyword::Linger => self.linger,
            Keyword::Turnaround => self.turnaround,
            Keyword::Unused => self.unused,
        }
    }

    // The same of a timeout that may be none.
    fn number_at(&self, keyword: Option<Keyword>) -> Option<usize>
        ensures { result ≡ number_at self.now keyword }
    {
        self.number(keyword?)
    }
}

// Returns how long a request waits before it tries the server again that failed it, by `timeout connect`.
fn turnaround(connect: Option<u64>) -> u64
    ensures { result ≡ waits.turnaround connect }
{
    match connect {
        None => TURNAROUND,
        Some(connect) => connect.min(TURNAROUND),
    }
}

// Returns how long an unused connection of a server stays open, where any does.
fn unused_time(reusing: Option<u64>) -> Option<u64>
    ensures { result ≡ unused_time reusing }
{
    match reusing {
        None => None,
        Some(_) => Some(UNUSED),
    }
}

// Returns the timeout that is to run for a guest.
fn wanted<N: BoardName + Ledger>(seated: &Seated<N>, visit: &Visit) -> Option<Keyword>
    ensures { result ≡ timeout_for visit.now.pauses visit.now.asked_before (chains.is_silent seated.now.exchange) (steps.clock_of seated.now.exchange) }
{
    if visit.pauses {
        return Some(Keyword::Turnaround);
    }
    match seated.clock()? {
        TimeoutKind::Client if visit.asked_before && seated.is_silent() => Some(Keyword::KeepAlive),
        TimeoutKind::Client => Some(Keyword::Client),
        TimeoutKind::Queue => None,
        TimeoutKind::Connect => Some(Keyword::Connect),
        TimeoutKind::Server => Some(Keyword::Server),
    }
}

// Returns what becomes of a guest whose timeout has expired.
fn expiry_of(timer: Option<Keyword>) -> Expiry
    ensures { result ≡ expiry_of timer }
{
    match timer {
        Some(Keyword::Client) => Expiry::Told(TimeoutKind::Client),
        Some(Keyword::Connect) => Expiry::Told(TimeoutKind::Connect),
        Some(Keyword::Server) => Expiry::Told(TimeoutKind::Server),
        Some(Keyword::KeepAlive) => Expiry::Ends,
        Some(Keyword::Turnaround) => Expiry::Dials,
        Some(Keyword::Linger | Keyword::Unused) | None => Expiry::Nothing,
    }
}

// Returns how soon a loop tries again that was short of something.
fn retry_of(short: bool) -> Option<u64>
    ensures { result ≡ retry_of short }
{
    if short { Some(SOON) } else { None }
}

// Returns how soon the first loop looks at the queues again, where a request waits there.
fn look_of(looks: bool, timeout: Option<u64>) -> Option<u64>
    ensures { result ≡ look_of looks timeout }
{
    match timeout {
        Some(millis) if looks => Some((millis / 16).clamp(1, SELDOM)),
        _ => None,
    }
}

// Returns the lesser of two waits, where there are both.
fn sooner(a: Option<u64>, b: Option<u64>) -> Option<u64>
    ensures { result ≡ sooner_of a b }
{
    match (a, b) {
        (Some(x), Some(y)) => Some(x.min(y)),
        (Some(x), None) => Some(x),
        (None, y) => y,
    }
}

impl<
    'a,
    N: DeskName + Ledger,
    R: Net<Listener = TcpListener, Stream = TcpStream> + Clock + Print + Wait,
> Looper<'a, N, R> {
    /// Makes the timeout of the guest's stage run for it, and no other.
    pub(crate) fn time(&mut self, seated: &Seated<N>, visit: &mut Visit, cell: usize)
        ensures timer { visit.new.timer ≡ timeout_for visit.old.pauses visit.old.asked_before (chains.is_silent seated.now.exchange) (steps.clock_of seated.now.exchange) }
        ensures visit { visit.new ≡ record visit.old { timer = visit.new.timer } }
        ensures same { visit.new.timer ≡ visit.old.timer → self.new.timers ≡ self.old.timers }
        ensures turns { visit.new.timer ≢ visit.old.timer → Turns self.old.timers self.new.timers (number_at self.old.keywords visit.old.timer) (number_at self.old.keywords visit.new.timer) cell }
        ensures cells { (self.new.guests ≡ self.old.guests) × (self.new.agenda ≡ self.old.agenda) × (self.new.shelves ≡ self.old.shelves) }
        ensures others { (self.new.gate ≡ self.old.gate) × (self.new.keywords ≡ self.old.keywords) × (self.new.lingering ≡ self.old.lingering) }
    {
        let wanted = wanted(seated, visit);
        if visit.timer != wanted {
            self.untime(visit.timer, cell);
            self.begin_time(wanted, cell);
            visit.timer = wanted;
        }
    }

    /// Makes a timeout run for a cell, where it has a limit.
    pub(crate) fn begin_time(&mut self, keyword: Option<Keyword>, cell: usize)
        ensures begins { Begins self.old.timers self.new.timers (number_at self.old.keywords keyword) cell }
        ensures cells { (self.new.guests ≡ self.old.guests) × (self.new.agenda ≡ self.old.agenda) × (self.new.shelves ≡ self.old.shelves) }
        ensures others { (self.new.gate ≡ self.old.gate) × (self.new.keywords ≡ self.old.keywords) × (self.new.lingering ≡ self.old.lingering) }
    {
        if let Some(number) = self.keywords.number_at(keyword) {
            self.timers.begin(number, cell);
        }
    }

    /// Stops a timeout for a cell.
    pub(crate) fn untime(&mut self, keyword: Option<Keyword>, cell: usize)
        ensures stops { Stops self.old.timers self.new.timers (number_at self.old.keywords keyword) cell }
        ensures cells { (self.new.guests ≡ self.old.guests) × (self.new.agenda ≡ self.old.agenda) × (self.new.shelves ≡ self.old.shelves) }
        ensures others { (self.new.gate ≡ self.old.gate) × (self.new.keywords ≡ self.old.keywords) × (self.new.lingering ≡ self.old.lingering) }
    {
        if let Some(number) = self.keywords.number_at(keyword) {
            self.timers.stop(number, cell);
        }
    }

    /// Restarts the guest's timeout where bytes moved at the side that it timers.
    pub(crate) fn note_moved(
        &mut self,
        visit: &Visit,
        cell: usize,
        moved: Option<Moved>,
        side: Keyword,
    )
        ensures touches { IsSome moved → visit.now.timer ≡ Some side → Touches self.old.timers self.new.timers (number_of self.old.keywords side) cell }
        ensures still { IsNone moved → self.new.timers ≡ self.old.timers }
        ensures other { visit.now.timer ≢ Some side → self.new.timers ≡ self.old.timers }
        ensures cells { (self.new.guests ≡ self.old.guests) × (self.new.agenda ≡ self.old.agenda) × (self.new.shelves ≡ self.old.shelves) }
        ensures others { (self.new.gate ≡ self.old.gate) × (self.new.keywords ≡ self.old.keywords) × (self.new.lingering ≡ self.old.lingering) }
    {
        let Some(moved) = moved else {
            return;
        };
        match self.keywords.number(side) {
            Some(number) if visit.timer == Some(side) => self.timers.touch(number, cell, moved),
            _ => moved.spend(),
        }
    }

    /// Returns how many milliseconds the poll may wait; `None` is without limit.
    pub(crate) fn patience(&self) -> Option<u64>
        ensures more { self.now.more ≡ true → result ≡ Some 0 }
        ensures later { self.now.agenda.later ≢ [] → result ≡ Some 0 }
        ensures rests { self.now.more ≡ false → self.now.agenda.later ≡ [] → (looks : Bool) × (self.now.home ≢ 0 → looks ≡ false)
            × IsWait self.now.timers self.now.short looks self.now.shared.now.proxy.now.config.queue_timeout result }
    {
        let looks = self.home == 0 && self.shared.has_waits();
        self.patience_until(looks, self.shared.proxy.config.queue_timeout)
    }

    // The same, where the first loop looks at the queues, by `timeout queue`, or it doesn't.
    fn patience_until(&self, looks: bool, timeout: Option<u64>) -> Option<u64>
        ensures more { self.now.more ≡ true → result ≡ Some 0 }
        ensures later { self.now.agenda.later ≢ [] → result ≡ Some 0 }
        ensures rests { self.now.more ≡ false → self.now.agenda.later ≡ [] → IsWait self.now.timers self.now.short looks timeout result }
    {
        if self.has_more() {
            return Some(0);
        }
        let first = sooner(self.timers.patience(), retry_of(self.short));
        sooner(first, look_of(looks, timeout))
    }

    /// Handles the timeouts that expired.
    pub(crate) fn look_at_timers(&mut self) {
        let now = self.gate.moment();
        self.timers.look_at_clock(now);
        for _ in self.rt.forever() {
            let Some(overdue) = self.timers.take_overdue() else {
                break;
            };
            self.end_time(overdue);
            self.go_on();
        }
        if self.short && SOON <= now.get().saturating_sub(self.tried.get()) {
            self.tried = now;
            self.short = false;
            self.more = true;
        }
        if self.home == 0 && self.shared.has_waits() {
            self.look_at_queues();
        }
    }

    // Tells the requests that waited too long for a pass.
    fn look_at_queues(&mut self) {
        let now = self.gate.moment();
        let desk = &self.shared.proxy.desk;
        let is_due = desk.look(self.rt).book().expired(now);
        if is_due {
            let _ = self.shared.proxy.turn(self.rt, &mut self.gate);
            self.go_on();
        }
        if let Some(millis) = self.shared.proxy.config.queue_timeout {
            self.refuse_late(&now);
            // A request that waited for its place is timed from its arrival there, which the
            // dispatcher doesn't know.
            self.give_up(&GivenUpSet::Late { now, millis });
        }
        self.shared.look_for_waits(self.rt);
    }

    // Gives up requests that wait at their places.
    fn give_up(&mut self, hopeless: &GivenUpSet) {
        self.shared.give_up_all(self.rt, &mut self.gate, hopeless);
        self.go_on();
    }

    /// Tells all requests that wait for a place or for a pass that they aren't served.
    pub(crate) fn refuse_waiting(&mut self, refusing: Refusing) {
        self.refuse_outside(refusing);
        self.give_up(&GivenUpSet::All(refusing));
    }

    // Handles the timeout of a cell's occupant.
    fn end_time(&mut self, overdue: Overdue) {
        let Overdue { keyword: _, cell } = overdue;
        let Some(token) = self.guests.token_of(cell) else {
            return;
        };
        let Some((resident, hole)) = self.guests.lend(token) else {
            return;
        };
        match resident {
            Resident::Lingering(_lingering) => self.end_lingering(hole),
            Resident::Unused(unused) => self.end_unused(unused, hole),
            Resident::Guest(guest) => {
                let then = self.time_is_over(guest, hole);
                self.go(then);
            }
        }
    }

    fn time_is_over(&mut self, guest: Box<Guest<N>>, hole: Hole) -> MoreToDo<N> {
        let mut guest = guest;
        let expiry = expiry_of(guest.visit.timer);
        guest.visit.timer = None;
        match expiry {
            Expiry::Told(kind) => {
                guest.visit.task = Task::Serve;
                self.tell(guest, hole, Notice::TimeOver(kind))
            }
            Expiry::Dials => {
                guest.visit.pauses = false;
                self.dial(guest, hole)
            }
            Expiry::Ends => self.finish(guest, hole),
            Expiry::Nothing => self.keep(guest, hole, NextLook::Rests),
        }
    }
}
