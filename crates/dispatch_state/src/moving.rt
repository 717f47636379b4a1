ghost use Rattle.std.specs.Prelude.{◌≡◌, ◌+◌, ◌<◌, ◌≤◌, IsTrue, length};
ghost use Rattle.std.specs.Bool.{OnTrue, OnFalse};
ghost use Rattle.log_entries.specs.declared.queue.Queue.TheVariants.{Server};
ghost use Rattle.log_entries.specs.Histories.{state_of};
ghost use Rattle.log_entries.specs.Judgement.{emptying};
ghost use Rattle.log_entries.specs.Rows.{queued};
ghost use Rattle.dispatch_state.specs.Histories.{stage_of, IsMove, IsEmptied};

use crate::state::DispatchState;
use due_key::Key;
use log_entries::Entry;
use pend_queue::PendQueue;

/// The queue of a server that went down (`option redispatch`).
impl<Q: PendQueue<Key, usize>> DispatchState<Q> {
    /// Moves the first request of a server's queue into the backend's. Says whether there was one.
    /// The queue's own cost beside `O(1)`.
    pub fn move_first(&mut self, server: usize) -> bool
        requires emptying { stage_of self.old ≡ emptying server }
        requires redispatch { IsTrue self.old.setup.redispatch }
        requires within { server < length self.old.setup.servers }
        requires room { length self.old.log + queued (Server server) (state_of self.old).rows ≤ self.old.setup.log }
        ensures moved { OnTrue result (IsMove server self.old self.new) }
        ensures emptied { OnFalse result (IsEmptied server self.old) }
        ensures unchanged { OnFalse result (self.new ≡ self.old) }
    {
        let joined = self.log.len() + 1;
        let Some(place) = self.waiting.shift(server, joined) else {
            return false;
        };
        let ticket = self.ledger.row(place).key.ticket;
        self.ledger.shift(place, self.position.last);
        self.ledger.unpin(place);
        self.log.note(Entry::Moved(ticket, server));
        true
    }
}
