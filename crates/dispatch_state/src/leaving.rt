ghost use Rattle.std.specs.Prelude.{◌≡◌, ◌+◌, ◌<◌, length};
ghost use Rattle.log_entries.specs.declared.entry.Entry.TheVariants.{Abort, Left};
ghost use Rattle.log_entries.specs.Histories.{state_of, effective, refuses_abort};
ghost use Rattle.log_entries.specs.Judgement.{IsInPhase};
ghost use Rattle.log_entries.specs.Refusals.{is_waiting};
ghost use Rattle.dispatch_state.specs.Histories.{with_entry, waiting_of, IsTicketAt, MayComeNext, MayAccept};

use crate::position::Ticketed;
use crate::state::DispatchState;
use base_verdict::Cause;
use due_key::{Key, Moment};
use log_entries::Entry;
use pend_queue::PendQueue;

/// Requests that leave their queues without a slot.
impl<Q: PendQueue<Key, usize>> DispatchState<Q> {
    /// The abort of a ticket begins.
    pub fn abort(&mut self, moment: Moment, it: Ticketed)
        requires begins { MayAccept self.old (refuses_abort self.old it.ticket) }
        requires room { length self.old.log < self.old.setup.log }
        ensures { self.new ≡ with_entry self.old (Abort (effective self.old moment) it.ticket) }
    {
        let now = self.position.last.later(moment);
        self.log.note(Entry::Abort(now, it.ticket));
        self.position.last = now;
    }

    /// The request, which waits, leaves its queue and is told that it isn't served. The queue's own
    /// cost beside `O(1)`.
    pub fn dismiss(&mut self, it: Ticketed, cause: Cause)
        requires at { IsTicketAt (state_of self.old).rows it }
        requires lawful { MayComeNext self.old (Left it.ticket cause) }
        requires waits { IsInPhase is_waiting (state_of self.old).rows it.ticket }
        requires room { length self.old.log < self.old.setup.log }
        ensures left { self.new ≡ with_entry self.old (Left it.ticket cause) }
        ensures fewer { waiting_of self.new + 1 ≡ waiting_of self.old }
    {
        let node = self.waiting.leave(it.place);
        self.ledger.loosen(it.place, node);
        self.ledger.tell(it.place, cause);
        self.log.note(Entry::Left(it.ticket, cause));
    }
}
