ghost use Rattle.std.specs.Prelude.{◌≡◌, length, map};
ghost use Rattle.log_entries.specs.Health.{shortened_all};
ghost use Rattle.log_entries.specs.Histories.{state_of, next_window};
ghost use Rattle.log_entries.specs.Legal.{IsLegal};
ghost use Rattle.log_entries.specs.Setups.{IsSound};
ghost use Rattle.log_reading.specs.Bases.{results_by};
ghost use Rattle.slot_ledger.specs.Cells.{rows_in};

use crate::state::DispatchState;
use check_state::Health;
use due_key::Key;
use log_reading::Base;
use pend_queue::PendQueue;
use slot_ledger::Ledger;

/// The windows of a log.
impl<Q: PendQueue<Key, usize>> DispatchState<Q> {
    /// Begins the next window with the state that the log leaves; the checked servers have these
    /// healths, and the entries are dropped. The old base is left in `spare`. Allocates nothing;
    /// `O(n + s)` in the places and servers.
    pub fn roll(&mut self, healths: &[Option<Health>], spare: &mut Base)
        requires legal { IsLegal self.old }
        requires healths { map results_by healths.now ≡ shortened_all self.old.setup.servers (state_of self.old).results }
        requires rows { length spare.old.rows ≡ self.old.setup.places }
        requires results { length spare.old.results ≡ length self.old.setup.servers }
        requires limits { length spare.old.limits ≡ length self.old.setup.servers }
        ensures window { self.new ≡ next_window self.old }
        ensures spare { spare.new ≡ self.old.base }
        ensures sound { IsSound self.new.setup }
    {
        save_rows(&self.ledger, spare);
        spare.set_healths(healths);
        spare.set_limits(self.ledger.limits());
        let position = &self.position;
        spare.set_position(position.last, position.ticket, position.cursor.server());
        self.log.begin(spare);
        self.waiting.begin_window();
    }
}

/// Copies the ledger's rows into the base.
fn save_rows<N: Drop>(ledger: &Ledger<N>, base: &mut Base)
    requires { length base.old.rows ≡ length ledger.now.cells }
    ensures { base.new ≡ record base.old { rows = rows_in ledger.now.cells } }
{
    for place in 0..ledger.places() {
        base.set_row(place, ledger.cell(place));
    }
}
