ghost use Rattle.std.specs.Prelude.{◌≡◌, ◌+◌, ◌<◌, Some, length, slice_get};
ghost use Rattle.log_entries.specs.declared.entry.Entry.TheVariants.{Fail, Retried};
ghost use Rattle.log_entries.specs.Histories.{state_of, effective, refuses_failure};
ghost use Rattle.log_entries.specs.Retries.{are_redispatched};
ghost use Rattle.log_entries.specs.Rows.{failures_of};
ghost use Rattle.slot_ledger.specs.declared.places.Cell.{Cell};
ghost use Rattle.slot_ledger.specs.Ledgers.{with_cells};
ghost use Rattle.slot_ledger.specs.Cells.{HasCountable, with_cell};
ghost use Rattle.dispatch_state.specs.Fates.{fate_of, failed_cell};
ghost use Rattle.dispatch_state.specs.Histories.{with_entry, IsTicketAt, MayComeNext, MayAccept};

use crate::position::Ticketed;
use crate::state::DispatchState;
use due_key::{Key, Moment};
use log_entries::{Entry, Setup};
use pend_queue::PendQueue;
use slot_ledger::Ledger;

/// What follows for a request whose connection failed.
#[derive(Clone, Copy, Debug, PartialEq, Eq)]
pub enum Fate {
    /// It keeps its slot and is tried again.
    Retried,
    /// It is told that its retries are spent.
    Spent,
    /// It returns its slot and is put on another server where that can be.
    Redispatched,
}

/// Failed connections.
impl<Q: PendQueue<Key, usize>> DispatchState<Q> {
    /// A connection failed for the ticket's request, which has a slot. Returns the number of its failures so far.
    pub fn fail(&mut self, moment: Moment, it: Ticketed) -> u32
        requires begins { MayAccept self.old (refuses_failure self.old it.ticket) }
        requires at { IsTicketAt (state_of self.old).rows it }
        requires room { length self.old.log < self.old.setup.log }
        ensures fails { self.new ≡ with_entry self.old (Fail (effective self.old moment) it.ticket) }
        ensures count { failures_of it.ticket (state_of self.new).rows ≡ result }
    {
        let now = self.position.last.later(moment);
        let failures = count_failure(&mut self.ledger, it.place);
        self.log.note(Entry::Fail(now, it.ticket));
        self.position.last = now;
        failures
    }

    /// The ticket keeps its slot for another connection.
    pub fn retry(&mut self, ticket: u64, server: usize, failures: u32)
        requires lawful { MayComeNext self.old (Retried ticket server failures) }
        requires room { length self.old.log < self.old.setup.log }
        ensures { self.new ≡ with_entry self.old (Retried ticket server failures) }
    {
        self.log.note(Entry::Retried(ticket, server, failures));
    }

    /// Returns what follows for a request after this number of failures (`retries`, `option redispatch`).
    pub fn fate(&self, failures: u32) -> Fate
        ensures { result ≡ fate_of self.now.setup failures }
    {
        let setup = self.ledger.setup();
        if failures > setup.retries {
            Fate::Spent
        } else if redispatches(setup, failures) {
            Fate::Redispatched
        } else {
            Fate::Retried
        }
    }
}

/// Says whether the retry after this number of failures is the last one and goes to another server.
fn redispatches(setup: &Setup, failures: u32) -> bool
    ensures { result ≡ are_redispatched setup.now failures }
{
    setup.redispatch && failures == setup.retries
}

/// Counts a failed connection of the row at a place, which loses its pin where it is redispatched.
/// Returns the number of failures so far.
fn count_failure<H: Drop>(ledger: &mut Ledger<H>, place: usize) -> u32
    requires { HasCountable ledger.old.cells place }
    ensures counted { ledger.new ≡ with_cells ledger.old (with_cell (failed_cell ledger.old.setup) ledger.old.cells place) }
    ensures count { (cell : Cell H) × (slice_get ledger.old.cells place ≡ Some (Some cell)) × (result ≡ cell.row.failures + 1) }
{
    let failures = ledger.row(place).failures + 1;
    ledger.fail(place);
    if redispatches(ledger.setup(), failures) {
        ledger.unpin(place);
    }
    failures
}
