ghost use Rattle.std.specs.Prelude.{◌≡◌, ◌<◌, ◌-◌, [], IfOk, MatchOption, slice_get, Contains};
ghost use Rattle.queue_waits.specs.Order.{with_places, places_without};
ghost use Rattle.loop_table.specs.Runs.{runs_for, begun_once, touched, NoneOverdue, IsFirstOverdue, left, IsLeastLeft, none_running, begun, stopped};

use due_key::Moment;
use queue_waits::JoinOrder;
use std::alloc::{AllocError, Global};
use std::marker::Model;

/// The cells that one timeout runs for. Since it is equally long for all, it expires first for the
/// cell that began first, so the order of beginnings suffices: no call but `with_room` costs more
/// than `O(1)`.
#[derive(Drop)]
pub struct Running {
    order: JoinOrder,
    // By cell. The value of a cell that isn't in the order means nothing.
    since: Vec<Moment>,
    latest: Moment,
}

impl Model for Running {
    ghost use Rattle.loop_table.specs.Runs.{Runs, runs_of, AreRunning};

    ghost Value = { Runs };

    ghost view = { λ it. record { runs = runs_of it.order.places it.since.items; room = it.order.room; latest = it.latest } };

    ghost invariant = { λ it. AreRunning it.order it.since.items it.latest };
}

impl Running {
    /// Makes a timeout that runs for no cell, and may for the cells below `room`. Fails only where
    /// memory is refused. `O(n)`.
    pub fn with_room(alloc: Global, room: usize) -> Result<Running, AllocError>
        ensures { IfOk result (λ made. made ≡ none_running room) }
    {
        let mut since = Vec::with_capacity(alloc, room)?;
        for cell in 0..room {
            since.push_reserved(Moment::zero());
        }
        Ok(Running {
            order: JoinOrder::with_room(alloc, room)?,
            since,
            latest: Moment::zero(),
        })
    }

    /// Returns the bound of the cells that it may run for.
    pub fn room(&self) -> usize
        ensures { result ≡ self.now.room }
    {
        self.since.len()
    }

    /// Says whether it runs for a cell.
    pub fn runs_for(&self, cell: usize) -> bool
        ensures { result ≡ runs_for self.now.runs cell }
    {
        self.order.contains(cell)
    }

    /// Runs it for a cell from now on, even where it ran already: a moment that went back counts as
    /// the latest so far.
    pub(crate) fn begin(&mut self, cell: usize, now: Moment)
        requires { cell < self.old.room }
        ensures { self.new ≡ begun self.old cell now }
    {
        let since = self.latest.later(now);
        take_out(&mut self.order, cell);
        self.since[cell] = since;
        self.order.append(cell);
        self.latest = since;
    }

    /// Runs it for a cell from now on, where it doesn't run yet.
    pub(crate) fn begin_once(&mut self, cell: usize, now: Moment)
        requires { cell < self.old.room }
        ensures { self.new ≡ begun_once self.old cell now }
    {
        if !self.runs_for(cell) {
            self.begin(cell, now);
        }
    }

    /// Begins it anew for a cell, where it runs.
    pub(crate) fn touch(&mut self, cell: usize, now: Moment)
        requires { cell < self.old.room }
        ensures { self.new ≡ touched self.old cell now }
    {
        if self.runs_for(cell) {
            self.begin(cell, now);
        }
    }

    /// Stops it for a cell.
    pub fn stop(&mut self, cell: usize)
        ensures { self.new ≡ stopped self.old cell }
    {
        take_out(&mut self.order, cell);
    }

    /// Returns the cell for which it expires first, where it has expired now; `None` only where it has for no cell.
    pub fn overdue(&self, timeout: u64, now: Moment) -> Option<usize>
        ensures { MatchOption result (NoneOverdue timeout now self.now.runs) (λ cell. IsFirstOverdue timeout now self.now.runs cell) }
    {
        let cell = self.order.first()?;
        if timeout <= now.get().saturating_sub(self.since[cell].get()) {
            Some(cell)
        } else {
            None
        }
    }

    /// Returns how many milliseconds are left until it expires for the first cell; `None` only where
    /// it runs for no cell.
    pub fn patience(&self, timeout: u64, now: Moment) -> Option<u64>
        ensures { MatchOption result (self.now.runs ≡ []) (λ millis. IsLeastLeft timeout now self.now.runs millis) }
    {
        let Some(cell) = self.order.first() else {
            return None;
        };
        Some(timeout.saturating_sub(now.get().saturating_sub(self.since[cell].get())))
    }
}

// Takes a cell out where it is there.
fn take_out(order: &mut JoinOrder, cell: usize)
    ensures { order.new ≡ with_places order.old (places_without cell order.old.places) }
{
    if order.contains(cell) {
        order.remove(cell);
    }
}
