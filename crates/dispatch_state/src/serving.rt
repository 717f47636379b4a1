ghost use Rattle.std.specs.Prelude.{◌≡◌, ◌≢◌, ◌+◌, ◌<◌, ◌≤◌, length};
ghost use Rattle.std.specs.Bool.{OnTrue, OnFalse};
ghost use Rattle.log_entries.specs.declared.entry.Entry.TheVariants.{Done, Direct, Joined, Freed, Left, Ended};
ghost use Rattle.base_verdict.specs.declared.cause.Cause.TheVariants.{Aborted, Timeout};
ghost use Rattle.log_entries.specs.Grants.{IsSettled};
ghost use Rattle.log_entries.specs.Histories.{state_of, effective, refuses_done};
ghost use Rattle.dispatch_state.specs.Histories.{with_entry, scene_of, cursor_after, waiting_of, IsTicketAt, MayComeNext, MayAccept, MayGrantNext, IsGrant, IsJudged};

use crate::position::Ticketed;
use crate::state::DispatchState;
use base_verdict::Cause;
use due_key::{Key, Moment};
use log_entries::{Entry, Queue};
use pend_queue::PendQueue;
use queue_waits::{Taken, Waiter};
use server_pick::{Cursor, next_queue, next_taker};

/// Requests that take slots, return them, and wait for them.
impl<Q: PendQueue<Key, usize>> DispatchState<Q> {
    /// The return of a ticket's slot begins.
    pub fn done(&mut self, moment: Moment, it: Ticketed)
        requires begins { MayAccept self.old (refuses_done self.old it.ticket) }
        requires room { length self.old.log < self.old.setup.log }
        ensures { self.new ≡ with_entry self.old (Done (effective self.old moment) it.ticket) }
    {
        let now = self.position.last.later(moment);
        self.log.note(Entry::Done(now, it.ticket));
        self.position.last = now;
    }

    /// The request takes a slot of a server. `O(1)`.
    pub fn direct(&mut self, it: Ticketed, server: usize, cursor: Cursor)
        requires at { IsTicketAt (state_of self.old).rows it }
        requires lawful { MayComeNext self.old (Direct it.ticket server) }
        requires cursor { cursor ≡ cursor_after self.old (Direct it.ticket server) }
        requires room { length self.old.log < self.old.setup.log }
        ensures { self.new ≡ with_entry self.old (Direct it.ticket server) }
    {
        self.ledger.serve(it.place, server);
        self.position.cursor = cursor;
        self.log.note(Entry::Direct(it.ticket, server));
    }

    /// The request begins to wait in a queue. The queue's own cost.
    pub fn join(&mut self, it: Ticketed, queue: Queue, cursor: Cursor)
        requires at { IsTicketAt (state_of self.old).rows it }
        requires lawful { MayComeNext self.old (Joined it.ticket queue) }
        requires cursor { cursor ≡ cursor_after self.old (Joined it.ticket queue) }
        requires room { length self.old.log < self.old.setup.log }
        ensures { self.new ≡ with_entry self.old (Joined it.ticket queue) }
    {
        let waiter = Waiter {
            key: self.ledger.row(it.place).key,
            queue,
            joined: self.log.len() + 1,
        };
        let node = self.ledger.wait(it.place, queue, self.position.last);
        self.waiting.join(it.place, waiter, node);
        self.position.cursor = cursor;
        self.log.note(Entry::Joined(it.ticket, queue));
    }

    /// The request, which has no phase, is told that it isn't served. `O(1)`.
    pub fn tell(&mut self, it: Ticketed, cause: Cause)
        requires at { IsTicketAt (state_of self.old).rows it }
        requires lawful { MayComeNext self.old (Left it.ticket cause) }
        requires no_abort { cause ≢ Aborted }
        requires no_timeout { cause ≢ Timeout }
        requires room { length self.old.log < self.old.setup.log }
        ensures { self.new ≡ with_entry self.old (Left it.ticket cause) }
    {
        self.ledger.tell(it.place, cause);
        self.log.note(Entry::Left(it.ticket, cause));
    }

    /// The ticket's slot is freed. `O(1)`.
    pub fn free(&mut self, it: Ticketed, server: usize)
        requires at { IsTicketAt (state_of self.old).rows it }
        requires lawful { MayComeNext self.old (Freed it.ticket server) }
        requires room { length self.old.log < self.old.setup.log }
        ensures { self.new ≡ with_entry self.old (Freed it.ticket server) }
    {
        self.ledger.free(it.place);
        self.log.note(Entry::Freed(it.ticket, server));
    }

    /// The ticket's row is removed. `O(log n)`.
    pub fn end(&mut self, it: Ticketed)
        requires at { IsTicketAt (state_of self.old).rows it }
        requires lawful { MayComeNext self.old (Ended it.ticket) }
        requires room { length self.old.log < self.old.setup.log }
        ensures { self.new ≡ with_entry self.old (Ended it.ticket) }
    {
        self.ledger.end(it.place);
        self.log.note(Entry::Ended(it.ticket));
    }

    /// Grants a slot where one is free and a request waits that may take it. Says whether it did;
    /// where it didn't, all is settled. `O(s)` in the servers beside the queue's own cost.
    pub fn grant(&mut self) -> bool
        requires may_grant { MayGrantNext self.old }
        requires room { length self.old.log + waiting_of self.old ≤ self.old.setup.log }
        ensures granted { OnTrue result (IsGrant self.old self.new) }
        ensures settled { OnFalse result (IsSettled (scene_of self.old)) }
        ensures unchanged { OnFalse result (self.new ≡ self.old) }
        ensures judged { IsJudged self.new }
    {
        let mut cursor = self.position.cursor;
        let Some(server) = next_taker(&self.ledger, &mut cursor) else {
            return false;
        };
        let heads = self.waiting.heads(server);
        let queue = next_queue(&self.ledger, &heads, server);
        let Some(taken) = self.waiting.take(queue) else {
            unreachable!()
        };
        let Taken {
            place,
            waiter,
            node,
        } = taken;
        self.ledger.loosen(place, node);
        self.ledger.serve(place, server);
        self.position.cursor = cursor;
        self.log
            .note_grant(waiter.key, queue, server, waiter.joined);
        true
    }
}
