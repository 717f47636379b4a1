ghost use Rattle.std.specs.Prelude.{◌≡◌, ◌<◌, [], ◌∷◌, nat_le, not, length};
ghost use Rattle.log_entries.specs.declared.refusal.Refusal.TheVariants.{NoSuchServer, WrongPhase};
ghost use Rattle.log_entries.specs.Refusals.{first_of, is_checked};
ghost use Rattle.log_entries.specs.declared.entry.Entry.TheVariants.{Check, Limit, Health};
ghost use Rattle.log_entries.specs.Health.{with_result};
ghost use Rattle.log_entries.specs.Histories.{state_of, effective, refuses_check, refuses_limit};
ghost use Rattle.dispatch_state.specs.LoggedStates.{is_up_at};
ghost use Rattle.dispatch_state.specs.Histories.{with_entry, MayComeNext, MayAccept};

use crate::state::DispatchState;
use due_key::{Key, Moment};
use log_entries::{Entry, Intake, Refusal, Setup};
use pend_queue::PendQueue;

/// Health checks, and limits that change.
impl<Q: PendQueue<Key, usize>> DispatchState<Q> {
    pub fn refuses_check(&self, server: usize) -> Option<Refusal>
        ensures { result ≡ refuses_check self.now server }
    {
        if !self.has_room() {
            return Some(Refusal::LogFull);
        }
        misses_check(self.ledger.setup(), server)
    }

    /// A check of a server ended; the server is up or down by its results with this one.
    pub fn check(&mut self, moment: Moment, server: usize, ok: bool, up: bool)
        requires begins { MayAccept self.old (refuses_check self.old server) }
        requires up { up ≡ is_up_at self.old.setup.servers (with_result server ok (state_of self.old).results) server }
        requires room { length self.old.log < self.old.setup.log }
        ensures { self.new ≡ with_entry self.old (Check (effective self.old moment) server ok) }
    {
        let now = self.position.last.later(moment);
        self.ledger.set_up(server, up);
        self.log.note(Entry::Check(now, server, ok));
        self.position.last = now;
    }

    /// Returns why a new limit of a server is refused. `O(1)`.
    pub fn refuses_limit(&self, server: usize) -> Option<Refusal>
        ensures { result ≡ refuses_limit self.now server }
    {
        if !self.has_room() {
            return Some(Refusal::LogFull);
        }
        if self.ledger.setup().servers.len() <= server {
            return Some(Refusal::NoSuchServer);
        }
        None
    }

    /// A server serves at most this number of requests from now on, or is closed. `O(1)`.
    pub fn limit(&mut self, moment: Moment, server: usize, limit: Intake)
        requires begins { MayAccept self.old (refuses_limit self.old server) }
        requires within { server < length self.old.setup.servers }
        requires room { length self.old.log < self.old.setup.log }
        ensures { self.new ≡ with_entry self.old (Limit (effective self.old moment) server limit) }
    {
        let now = self.position.last.later(moment);
        self.ledger.set_limit(server, limit);
        self.log.note(Entry::Limit(now, server, limit));
        self.position.last = now;
    }

    /// The check has changed the server's health.
    pub fn tell_health(&mut self, server: usize, up: bool)
        requires lawful { MayComeNext self.old (Health server up) }
        requires room { length self.old.log < self.old.setup.log }
        ensures { self.new ≡ with_entry self.old (Health server up) }
    {
        self.log.note(Entry::Health(server, up));
    }
}

/// Returns why a check of a server is refused: the server doesn't exist, or isn't checked.
fn misses_check(setup: &Setup, server: usize) -> Option<Refusal>
    ensures { result ≡ first_of ((nat_le (length setup.now.servers) server, NoSuchServer) ∷ (not (is_checked setup.now server), WrongPhase) ∷ []) }
{
    match setup.servers.as_slice().get(server) {
        None => Some(Refusal::NoSuchServer),
        Some(it) if it.rise_fall.is_none() => Some(Refusal::WrongPhase),
        Some(_) => None,
    }
}
