ghost use Rattle.std.specs.Prelude.{◌≡◌, ◌<◌, ◌≤◌, ◌^◌, ◌↔◌, [], length, Some, IsTrue, MatchOption};
ghost use Rattle.std.specs.Option.{IfSome};
ghost use Rattle.std.specs.Ordering.{nat_cmp};
ghost use Rattle.log_entries.specs.declared.entry.Entry.TheVariants.{Tick};
ghost use Rattle.log_entries.specs.Histories.{effective, refuses_tick, SomeExpires};
ghost use Rattle.log_entries.specs.Judgement.{HasExpired};
ghost use Rattle.pend_queue.specs.Pairs.{IsAscending};
ghost use Rattle.dispatch_state.specs.Histories.{with_entry, MayAccept, IsJudged};
ghost use Rattle.dispatch_state.specs.Timeouts.{HasRowAt, ExpiresAt, AreExpired};

use crate::state::DispatchState;
use due_key::{Key, Moment};
use log_entries::{Entry, Phase, Setup};
use pend_queue::{ListQueue, PendQueue};

/// Requests that have waited as long as they may (`timeout queue`).
impl<Q: PendQueue<Key, usize>> DispatchState<Q> {
    /// A tick begins.
    pub fn tick(&mut self, moment: Moment)
        requires begins { MayAccept self.old (refuses_tick self.old) }
        requires room { length self.old.log < self.old.setup.log }
        ensures goes { self.new ≡ with_entry self.old (Tick (effective self.old moment)) }
        ensures judged { IsJudged self.new }
    {
        let now = self.position.last.later(moment);
        self.log.note(Entry::Tick(now));
        self.position.last = now;
    }

    /// Returns the moment of an event that comes at `moment`: no earlier than the last event's. `O(1)`.
    pub fn moment_at(&self, moment: Moment) -> Moment
        ensures { result ≡ effective self.now moment }
    {
        self.position.last.later(moment)
    }

    /// Says whether some request has waited as long as it may at this moment. `O(1)`.
    pub fn expired(&self, moment: Moment) -> bool
        ensures { IsTrue result ↔ SomeExpires self.now moment }
    {
        self.expired_at(self.waiting.oldest(), self.position.last.later(moment))
            .is_some()
    }

    /// Returns the place, where its request has waited as long as it may.
    fn expired_at(&self, place: Option<usize>, now: Moment) -> Option<usize>
        requires { IfSome place (HasRowAt self.now) }
        ensures { MatchOption result (IfSome place (λ at. ¬ (ExpiresAt self.now now at))) (λ at. (place ≡ Some at) × ExpiresAt self.now now at) }
    {
        let at = place?;
        if has_expired(self.ledger.setup(), self.ledger.row(at).phase, now) {
            Some(at)
        } else {
            None
        }
    }

    /// Puts the expired requests into an empty queue, by ticket with their places. Looks at one
    /// request more than are expired.
    pub fn gather(&self, tickets: &mut ListQueue<u64, usize>)
        requires none { tickets.old.pairs ≡ [] }
        requires room { self.now.setup.places ≤ tickets.old.room }
        ensures expired { AreExpired self.now tickets.new.pairs }
        ensures ascending { IsAscending nat_cmp tickets.new.pairs }
        ensures room { tickets.new.room ≡ tickets.old.room }
    {
        let mut oldest = self.expired_at(self.waiting.oldest(), self.position.last);
        'walking: while let Some(place) = oldest {
            tickets.push((self.ledger.row(place).key.ticket, place));
            oldest = self.expired_at(self.waiting.after(place), self.position.last);
        }
    }
}

/// Says whether a request in this phase has waited as long as it may.
fn has_expired(setup: &Setup, phase: Phase, now: Moment) -> bool
    requires { setup.now.queue_timeout < 2 ^ 62 }
    ensures { IsTrue result ↔ HasExpired setup.now now phase }
{
    match phase {
        Phase::Waiting(_, since) => {
            setup.queue_timeout > 0 && since.get() + setup.queue_timeout <= now.get()
        }
        Phase::Loose | Phase::Serving(_) | Phase::Told(_) => false,
    }
}
