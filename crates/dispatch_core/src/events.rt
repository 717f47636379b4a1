ghost use Rattle.std.specs.Prelude.{◌≡◌, ◌+◌, ◌<◌, ◌≤◌, [], length, IsTrue, None, true, false};
ghost use Rattle.check_state.specs.Standing.{change_between};
ghost use Rattle.log_entries.specs.Histories.{state_of};
ghost use Rattle.log_entries.specs.Judgement.{returning, failing, checking, emptying, telling, limit_stage, was_up, HasSlot};
ghost use Rattle.log_entries.specs.Scenes.{is_up};
ghost use Rattle.log_entries.specs.Retries.{are_spent, are_redispatched};
ghost use Rattle.log_entries.specs.Rows.{pin_of, failures_of};
ghost use Rattle.dispatch_core.specs.Steps.{IsReturn, PlacesRequest, Leaves, Settles, CarriesOn, MovesAll, HasEventRoom, HasMoveRoom};
ghost use Rattle.dispatch_state.specs.Histories.{stage_of, scene_of, waiting_of, IsTicketAt, MayPut, MayGrantNext};

use base_verdict::Cause;
use check_state::Change;
use dispatch_state::{DispatchState, Fate, Ticketed};
use due_key::Key;
use log_entries::{Intake, Queue};
use pend_queue::{ListQueue, PendQueue};
use server_pick::Placement;

/// A state that goes on by the parts of events, each of which is several entries.
#[derive(Drop)]
pub(crate) struct Events<Q: PendQueue<Key, usize>> {
    pub(crate) state: DispatchState<Q>,
}

impl<Q: PendQueue<Key, usize>> Events<Q> {
    /// Puts a request without a phase on a server or into a queue, or tells it that no server could take it.
    pub(crate) fn place(&mut self, it: Ticketed, pin: Option<usize>, avoid: Option<usize>)
        requires at { IsTicketAt (state_of self.old.state).rows it }
        requires may_put { MayPut self.old.state pin avoid it.ticket }
        requires pin { pin_of it.ticket (state_of self.old.state).rows ≡ pin }
        requires room { length self.old.state.log < self.old.state.setup.log }
        ensures { PlacesRequest self.old.state self.new.state }
    {
        let (placement, cursor) = self.state.placement(pin, avoid);
        match placement {
            Placement::Slot(server) => self.state.direct(it, server, cursor),
            Placement::OwnQueue(server) => self.state.join(it, Queue::Server(server), cursor),
            Placement::BackendQueue => self.state.join(it, Queue::Backend, cursor),
            Placement::Nowhere => self.state.tell(it, Cause::NoServer),
        }
    }

    /// Ends a request, and returns its slot where it has one.
    pub(crate) fn leave(&mut self, it: Ticketed, server: Option<usize>)
        requires at { IsTicketAt (state_of self.old.state).rows it }
        requires returning { stage_of self.old.state ≡ returning it.ticket }
        requires row { IsReturn (state_of self.old.state).rows it.ticket server }
        requires room { length self.old.state.log + 2 ≤ self.old.state.setup.log }
        ensures { Leaves self.old.state self.new.state }
    {
        match server {
            Some(server) => self.give_back(it, server),
            None => self.state.end(it),
        }
    }

    /// Returns a request's slot, and ends the request.
    fn give_back(&mut self, it: Ticketed, server: usize)
        requires at { IsTicketAt (state_of self.old.state).rows it }
        requires returning { stage_of self.old.state ≡ returning it.ticket }
        requires slot { HasSlot (state_of self.old.state).rows it.ticket server }
        requires room { length self.old.state.log + 2 ≤ self.old.state.setup.log }
        ensures { Leaves self.old.state self.new.state }
    {
        self.state.free(it, server);
        self.state.end(it);
    }

    /// Tries a request again whose connection failed, or tells it that its retries are spent.
    pub(crate) fn carry_on(&mut self, it: Ticketed, server: usize, failures: u32)
        requires at { IsTicketAt (state_of self.old.state).rows it }
        requires failing { stage_of self.old.state ≡ failing it.ticket }
        requires slot { HasSlot (state_of self.old.state).rows it.ticket server }
        requires failures { failures_of it.ticket (state_of self.old.state).rows ≡ failures }
        requires pin { IsTrue (are_redispatched self.old.state.setup failures) → pin_of it.ticket (state_of self.old.state).rows ≡ None }
        requires room { HasEventRoom self.old.state }
        ensures { CarriesOn self.old.state self.new.state }
    {
        match self.state.fate(failures) {
            Fate::Retried => self.state.retry(it.ticket, server, failures),
            Fate::Spent => self.give_up(it, server),
            Fate::Redispatched => self.redispatch(it, server),
        }
    }

    /// Returns a request's slot, and tells it that its retries are spent.
    fn give_up(&mut self, it: Ticketed, server: usize)
        requires at { IsTicketAt (state_of self.old.state).rows it }
        requires failing { stage_of self.old.state ≡ failing it.ticket }
        requires slot { HasSlot (state_of self.old.state).rows it.ticket server }
        requires spent { IsTrue (are_spent self.old.state.setup (failures_of it.ticket (state_of self.old.state).rows)) }
        requires room { HasEventRoom self.old.state }
        ensures { CarriesOn self.old.state self.new.state }
    {
        self.state.free(it, server);
        self.state.tell(it, Cause::Retries);
    }

    /// Returns a request's slot, which others may take first, and places the request again, at
    /// another server where that can be.
    fn redispatch(&mut self, it: Ticketed, server: usize)
        requires at { IsTicketAt (state_of self.old.state).rows it }
        requires failing { stage_of self.old.state ≡ failing it.ticket }
        requires slot { HasSlot (state_of self.old.state).rows it.ticket server }
        requires redispatched { IsTrue (are_redispatched self.old.state.setup (failures_of it.ticket (state_of self.old.state).rows)) }
        requires pin { pin_of it.ticket (state_of self.old.state).rows ≡ None }
        requires room { HasEventRoom self.old.state }
        ensures { CarriesOn self.old.state self.new.state }
    {
        self.state.free(it, server);
        self.settle();
        self.place(it, None, Some(server));
    }

    /// Notes the change that a check makes to a server's health, and what follows from it.
    pub(crate) fn follow(&mut self, server: usize, change: Change)
        requires checking { stage_of self.old.state ≡ checking server }
        requires change { change ≡ change_between (was_up self.old.state.setup (state_of self.old.state) server) (is_up (scene_of self.old.state) server) }
        requires within { server < length self.old.state.setup.servers }
        requires room { HasEventRoom self.old.state }
        ensures { CarriesOn self.old.state self.new.state }
    {
        match change {
            Change::Stay => {}
            Change::WentUp => self.state.tell_health(server, true),
            Change::WentDown => self.fall(server),
        }
    }

    /// Notes what follows from a server's new limit.
    pub(crate) fn follow_limit(&mut self, server: usize, limit: Intake)
        requires stage { stage_of self.old.state ≡ limit_stage server limit }
        requires within { server < length self.old.state.setup.servers }
        requires room { HasEventRoom self.old.state }
        ensures { CarriesOn self.old.state self.new.state }
    {
        match limit {
            Intake::Open(_) => {}
            Intake::Closed => self.empty(server),
        }
    }

    /// Notes that a server went down, and moves its requests where they are to be moved.
    fn fall(&mut self, server: usize)
        requires checking { stage_of self.old.state ≡ checking server }
        requires was { was_up self.old.state.setup (state_of self.old.state) server ≡ true }
        requires down { is_up (scene_of self.old.state) server ≡ false }
        requires within { server < length self.old.state.setup.servers }
        requires room { HasEventRoom self.old.state }
        ensures { CarriesOn self.old.state self.new.state }
    {
        self.state.tell_health(server, false);
        self.empty(server);
    }

    /// Moves the requests of a closed server where they are to be moved.
    fn empty(&mut self, server: usize)
        requires emptying { stage_of self.old.state ≡ emptying server }
        requires within { server < length self.old.state.setup.servers }
        requires room { HasMoveRoom self.old.state }
        ensures { CarriesOn self.old.state self.new.state }
    {
        if self.state.setup().redispatch {
            self.move_all(server);
        }
    }

    /// Moves the requests of a server's queue into the backend's, by rising key.
    fn move_all(&mut self, server: usize)
        requires emptying { stage_of self.old.state ≡ emptying server }
        requires redispatch { IsTrue self.old.state.setup.redispatch }
        requires within { server < length self.old.state.setup.servers }
        requires room { length self.old.state.log + waiting_of self.old.state ≤ self.old.state.setup.log }
        ensures { MovesAll server self.old.state self.new.state }
    {
        'moving: while self.state.move_first(server) {}
    }

    /// Grants slots until all is settled.
    pub(crate) fn settle(&mut self)
        requires may_grant { MayGrantNext self.old.state }
        requires room { length self.old.state.log + waiting_of self.old.state ≤ self.old.state.setup.log }
        ensures { Settles self.old.state self.new.state }
    {
        'granting: while self.state.grant() {}
    }

    /// Tells the requests that have waited as long as they may, by rising ticket.
    pub(crate) fn time_out(&mut self, tickets: &mut ListQueue<u64, usize>)
        requires telling { stage_of self.old.state ≡ telling }
        requires room { length self.old.state.log + waiting_of self.old.state ≤ self.old.state.setup.log }
        requires none { tickets.old.pairs ≡ [] }
        requires places { self.old.state.setup.places ≤ tickets.old.room }
        ensures told { CarriesOn self.old.state self.new.state }
        ensures none { tickets.new.pairs ≡ [] }
        ensures kept { tickets.new.room ≡ tickets.old.room }
    {
        self.state.gather(tickets);
        'telling: while let Some((ticket, place)) = tickets.pop() {
            self.state
                .dismiss(Ticketed { place, ticket }, Cause::Timeout);
        }
    }
}
