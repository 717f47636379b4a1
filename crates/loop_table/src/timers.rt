ghost use Rattle.std.specs.Prelude.{◌≡◌, length, take, MatchOption, IfOk, IfSome, OnOk, OnErr, IsTrue, ◌↔◌};
ghost use Rattle.loop_table.specs.Runs.{none_running, begun_once, touched, stopped};
ghost use Rattle.loop_table.specs.Timers.{none_timed, with_timed, timed, later_at, Changes, MayRun, AreQuiet, IsOverdueAt, ArePatient, sooner_of};

use crate::running::Running;
use due_key::Moment;
use exchange_driver::Moved;
use std::alloc::{AllocError, Global};
use std::marker::Model;

/// A timeout of a number of milliseconds, and the cells that it runs for.
#[derive(Drop)]
pub(crate) struct Timer {
    pub(crate) timeout: u64,
    pub(crate) running: Running,
}

/// The timeouts of a loop, by keyword, with the present moment of all of them: that of the poll's last return.
#[derive(Drop)]
pub struct Timers {
    timed: Vec<Timer>,
    clock: Moment,
}

/// A timeout that expired for a cell. It no longer runs for it. It has no `Drop`: whoever looked at
/// the timers has to end what it was for.
pub struct Overdue {
    pub keyword: usize,
    pub cell: usize,
}

impl Model for Timers {
    ghost use Rattle.loop_table.specs.Timers.{Timeouts};

    ghost Value = { Timeouts };

    ghost view = { λ it. record { timed = it.timed.items; clock = it.clock } };
}

impl Timers {
    /// Makes timers without a timeout.
    pub fn new(alloc: Global) -> Timers
        ensures { result ≡ none_timed }
    {
        Timers {
            timed: Vec::new(alloc),
            clock: Moment::zero(),
        }
    }

    /// Sets the present moment, which never falls.
    pub fn look_at_clock(&mut self, now: Moment)
        ensures { self.new ≡ later_at self.old now }
    {
        self.clock = self.clock.later(now);
    }

    /// Adds a timeout of this number of milliseconds, which may run for the cells below `room`: its
    /// keyword is the next number. Fails only where memory is refused, and nothing changes then.
    pub fn add(&mut self, alloc: Global, timeout: u64, room: usize) -> Result<usize, AllocError>
        ensures number { IfOk result (λ keyword. keyword ≡ length self.old.timed) }
        ensures ok { OnOk result (self.new ≡ with_timed self.old (timed timeout (none_running room))) }
        ensures err { OnErr result (self.new ≡ self.old) }
    {
        let keyword = self.timed.len();
        let running = Running::with_room(alloc, room)?;
        self.timed.push(Timer { timeout, running })?;
        Ok(keyword)
    }

    /// Begins a timeout for a cell for which it doesn't run. Where it runs, its moment stays.
    /// Without such a keyword or cell nothing changes.
    pub fn begin(&mut self, keyword: usize, cell: usize)
        ensures runs { MayRun self.old keyword cell → Changes self.old self.new keyword (λ runs. begun_once runs cell self.old.clock) }
        ensures other { ¬ (MayRun self.old keyword cell) → self.new ≡ self.old }
    {
        if self.may_run(keyword, cell) {
            let now = self.clock;
            let timed = &mut self.timed[keyword];
            timed.running.begin_once(cell, now);
        }
    }

    /// Notes that bytes moved for a cell: its timeout begins anew, where it runs.
    pub fn touch(&mut self, keyword: usize, cell: usize, moved: Moved)
        ensures runs { MayRun self.old keyword cell → Changes self.old self.new keyword (λ runs. touched runs cell self.old.clock) }
        ensures other { ¬ (MayRun self.old keyword cell) → self.new ≡ self.old }
    {
        moved.spend();
        if self.may_run(keyword, cell) {
            let now = self.clock;
            let timed = &mut self.timed[keyword];
            timed.running.touch(cell, now);
        }
    }

    /// Stops a timeout for a cell.
    pub fn stop(&mut self, keyword: usize, cell: usize)
        ensures runs { MayRun self.old keyword cell → Changes self.old self.new keyword (λ runs. stopped runs cell) }
        ensures other { ¬ (MayRun self.old keyword cell) → self.new ≡ self.old }
    {
        if self.may_run(keyword, cell) {
            let timed = &mut self.timed[keyword];
            timed.running.stop(cell);
        }
    }

    fn may_run(&self, keyword: usize, cell: usize) -> bool
        ensures { IsTrue result ↔ MayRun self.now keyword cell }
    {
        match self.timed.as_slice().get(keyword) {
            None => false,
            Some(timed) => cell < timed.running.room(),
        }
    }

    /// Takes out a timeout that has expired now, the first of the first keyword of which one has;
    /// `None` only where none has.
    pub fn take_overdue(&mut self) -> Option<Overdue>
        ensures first { IfSome result (λ it. AreQuiet self.old.clock (take it.keyword self.old.timed)) }
        ensures over { MatchOption result (AreQuiet self.old.clock self.old.timed) (λ it. IsOverdueAt self.old it.keyword it.cell) }
        ensures left { MatchOption result (self.new ≡ self.old) (λ it. Changes self.old self.new it.keyword (λ runs. stopped runs it.cell)) }
    {
        let Some((keyword, cell)) = self.overdue() else {
            return None;
        };
        let timed = &mut self.timed[keyword];
        timed.running.stop(cell);
        Some(Overdue { keyword, cell })
    }

    fn overdue(&self) -> Option<(usize, usize)>
        ensures first { IfSome result (λ it. AreQuiet self.now.clock (take it.0 self.now.timed)) }
        ensures over { MatchOption result (AreQuiet self.now.clock self.now.timed) (λ it. IsOverdueAt self.now it.0 it.1) }
    {
        for (keyword, timed) in self.timed.iter().enumerate() {
            if let Some(cell) = timed.running.overdue(timed.timeout, self.clock) {
                return Some((keyword, cell));
            }
        }
        None
    }

    /// Returns how many milliseconds a poll may wait until the first timeout expires; `None` only
    /// where no timeout runs.
    pub fn patience(&self) -> Option<u64>
        ensures { ArePatient self.now.clock self.now.timed result }
    {
        let mut least = None;
        for timed in &self.timed {
            least = sooner(least, timed.running.patience(timed.timeout, self.clock));
        }
        least
    }
}

// Returns the lesser of two waits, where there are both.
fn sooner(a: Option<u64>, b: Option<u64>) -> Option<u64>
    ensures { result ≡ sooner_of a b }
{
    match (a, b) {
        (Some(x), Some(y)) => Some(x.min(y)),
        (Some(x), None) => Some(x),
        (None, y) => y,
    }
}
