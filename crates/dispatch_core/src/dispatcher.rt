ghost use Rattle.std.specs.Prelude.{◌≡◌, ◌≤◌, ◌↔◌, [], length, IfOk, IfErr, OnOk, OnErr, IsTrue, MatchOption, Some, None, option_map, pos, ◌+ℤ◌};
ghost use Rattle.log_entries.specs.declared.entry.Entry.TheVariants.{Arrive, Done, Fail, Abort, Tick, Check, Limit};
ghost use Rattle.log_entries.specs.Dispatch.{IsDispatched};
ghost use Rattle.log_entries.specs.Histories.{History, first_window, next_window, state_of, effective, refuses_arrival, refuses_done, refuses_failure, refuses_abort, refuses_tick, refuses_check, refuses_limit, SomeExpires, RefusedOrNoMemory};
ghost use Rattle.log_entries.specs.Legal.{IsLegal, AddsEvent};
ghost use Rattle.log_entries.specs.Scenes.{is_up};
ghost use Rattle.log_entries.specs.Rows.{row_of, served, queued};
ghost use Rattle.log_entries.specs.Setups.{IsSound};
ghost use Rattle.dispatch_state.specs.Histories.{scene_of, IsTicketAt, HasEntryRoom};
ghost use Rattle.dispatch_core.specs.Occurrences.{refuses, entry_of};

use crate::event::Event;
use crate::events::Events;
use crate::healths::Healths;
use base_verdict::Cause;
use dispatch_state::{DispatchState, Ticketed};
use due_key::{Class, Key, Moment, Offset};
use log_entries::{Intake, Phase, Queue, Refusal, Setup};
use log_reading::{Base, Log};
use pend_queue::{ListQueue, PendQueue};
use std::alloc::{AllocError, Global};
use std::marker::Model;

/// A dispatcher. Each accepted call adds one event to its log, which is legal after every call; a
/// refused call changes nothing.
#[derive(Drop)]
pub struct Core<Q: PendQueue<Key, usize>> {
    events: Events<Q>,
    healths: Healths,
    // The requests that a tick times out, by ticket with their places; empty between calls.
    expiring: ListQueue<u64, usize>,
    // The base of the next window, allocated beforehand.
    spare: Base,
}

impl<Q: PendQueue<Key, usize>> Model for Core<Q> {
    ghost use Rattle.log_entries.specs.Histories.{History};
    ghost use Rattle.dispatch_core.specs.Checks.{IsCore};

    ghost Value = { History };

    ghost view = { λ core. core.events.state };

    ghost invariant = { λ core. IsCore core.events.state core.healths core.expiring core.spare };
}

impl<Q: PendQueue<Key, usize>> Core<Q> {
    /// Makes a dispatcher without a request, all servers up. It allocates rows, queues and log
    /// here, so it fails only where memory is refused; the setup is dropped then.
    pub fn new(alloc: Global, setup: Setup) -> Result<Core<Q>, AllocError>
        requires { IsSound setup }
        ensures { IfOk result (λ core. core ≡ first_window setup []) }
    {
        let healths = Healths::new(alloc, setup.servers.as_slice())?;
        let expiring = ListQueue::with_room(alloc, setup.places)?;
        let spare = Base::opening(alloc, &setup)?;
        Ok(Core {
            events: Events {
                state: DispatchState::new(alloc, setup)?,
            },
            healths,
            expiring,
            spare,
        })
    }

    /// A request arrives, bound to a server where it has a pin (`use-server`). Refused, in this
    /// order, where the log is full, no server has the pin's number, the tickets are spent, the
    /// places are full, or memory is refused. `O(log n)` in the live requests and `O(s)` in the
    /// servers, beside the queue's own cost.
    pub fn arrive(
        &mut self,
        alloc: Global,
        moment: Moment,
        class: Class,
        offset: Offset,
        pin: Option<usize>,
    ) -> Result<Ticketed, Refusal>
        ensures ok { IfOk result (λ it. AddsEvent self.old self.new (Arrive (effective self.old moment) (record { ticket = it.ticket; class = class; due = pos (effective self.old moment) +ℤ offset; pin = pin; place = it.place }))) }
        ensures err { IfErr result (RefusedOrNoMemory (refuses_arrival self.old pin)) }
        ensures unchanged { OnErr result (self.new ≡ self.old) }
        ensures dispatched { IsDispatched self.new }
    {
        if let Some(refusal) = self.events.state.refuses_arrival(pin) {
            return Err(refusal);
        }
        let Ok(it) = self.events.state.arrive(alloc, moment, class, offset, pin) else {
            return Err(Refusal::NoMemory);
        };
        self.events.place(it, pin, None);
        self.events.settle();
        Ok(it)
    }

    /// Says whether an arrival with this pin would be refused now for another cause than memory.
    /// Allocates nothing. `O(1)`.
    pub fn admits(&self, pin: Option<usize>) -> Result<(), Refusal>
        ensures ok { OnOk result (refuses_arrival self.now pin ≡ None) }
        ensures err { IfErr result (λ refusal. refuses_arrival self.now pin ≡ Some refusal) }
    {
        match self.events.state.refuses_arrival(pin) {
            Some(refusal) => Err(refusal),
            None => Ok(()),
        }
    }

    /// The request with this ticket is over, and its slot is returned where it has one. Refused, in
    /// this order, where the log is full, no live request has the ticket, or it still waits.
    /// Allocates nothing, and costs `O(log n)` in the live requests and `O(s)` in the servers,
    /// beside the queue's own cost.
    pub fn done(&mut self, moment: Moment, ticket: u64) -> Result<(), Refusal>
        ensures ok { OnOk result (AddsEvent self.old self.new (Done (effective self.old moment) ticket)) }
        ensures err { IfErr result (λ refusal. refuses_done self.old ticket ≡ Some refusal) }
        ensures accepted { OnOk result (refuses_done self.old ticket ≡ None) }
        ensures unchanged { OnErr result (self.new ≡ self.old) }
        ensures dispatched { IsDispatched self.new }
    {
        let it = match self.events.state.accept_done(ticket) {
            Ok(it) => it,
            Err(refusal) => return Err(refusal),
        };
        let server = self.events.state.phase(it).server();
        self.events.state.done(moment, it);
        self.events.leave(it, server);
        self.events.settle();
        Ok(())
    }

    /// A connection of the request with this ticket failed before anything was sent over it. The
    /// request keeps its slot for another try (`retries`), goes to another server where that is the
    /// last try (`option redispatch`), or is told that its retries are spent. Refused, in this
    /// order, where the log is full, no live request has the ticket, or it has no slot. Allocates
    /// nothing, and costs `O(log n)` in the live requests and `O(s)` in the servers, and the same
    /// for each slot that is handed on.
    pub fn failed(&mut self, moment: Moment, ticket: u64) -> Result<(), Refusal>
        ensures ok { OnOk result (AddsEvent self.old self.new (Fail (effective self.old moment) ticket)) }
        ensures err { IfErr result (λ refusal. refuses_failure self.old ticket ≡ Some refusal) }
        ensures accepted { OnOk result (refuses_failure self.old ticket ≡ None) }
        ensures unchanged { OnErr result (self.new ≡ self.old) }
        ensures dispatched { IsDispatched self.new }
    {
        let it = match self.events.state.accept_failure(ticket) {
            Ok(it) => it,
            Err(refusal) => return Err(refusal),
        };
        let Some(server) = self.events.state.phase(it).server() else {
            unreachable!()
        };
        let failures = self.events.state.fail(moment, it);
        self.events.carry_on(it, server, failures);
        self.events.settle();
        Ok(())
    }

    /// The request with this ticket, which waits, is given up: it leaves its queue, and is told so.
    /// Refused, in this order, where the log is full, no live request has the ticket, or it doesn't
    /// wait. Allocates nothing, and costs `O(log n)` in the live requests and `O(s)` in the
    /// servers, beside the queue's own cost.
    pub fn abort(&mut self, moment: Moment, ticket: u64) -> Result<(), Refusal>
        ensures ok { OnOk result (AddsEvent self.old self.new (Abort (effective self.old moment) ticket)) }
        ensures err { IfErr result (λ refusal. refuses_abort self.old ticket ≡ Some refusal) }
        ensures accepted { OnOk result (refuses_abort self.old ticket ≡ None) }
        ensures unchanged { OnErr result (self.new ≡ self.old) }
        ensures dispatched { IsDispatched self.new }
    {
        let it = match self.events.state.accept_abort(ticket) {
            Ok(it) => it,
            Err(refusal) => return Err(refusal),
        };
        self.events.state.abort(moment, it);
        self.events.state.dismiss(it, Cause::Aborted);
        self.events.settle();
        Ok(())
    }

    /// Each request that has waited as long as it may (`timeout queue`) leaves its queue and is
    /// told so, by rising ticket. Refused where the log is full. Allocates nothing. `O(1)` where no
    /// request has expired, and `O(k log n)` beside the queues' own cost where k of the n live
    /// requests have.
    pub fn tick(&mut self, moment: Moment) -> Result<(), Refusal>
        ensures ok { OnOk result (AddsEvent self.old self.new (Tick (effective self.old moment))) }
        ensures err { IfErr result (λ refusal. refuses_tick self.old ≡ Some refusal) }
        ensures accepted { OnOk result (refuses_tick self.old ≡ None) }
        ensures unchanged { OnErr result (self.new ≡ self.old) }
        ensures dispatched { IsDispatched self.new }
    {
        if !self.events.state.has_room() {
            return Err(Refusal::LogFull);
        }
        self.events.state.tick(moment);
        if !self.events.state.expired(moment) {
            return Ok(());
        }
        self.events.time_out(&mut self.expiring);
        self.events.settle();
        Ok(())
    }

    /// A health check of a server succeeded or failed (`check`, `rise`, `fall`). Where the server
    /// goes down, the requests of its queue are moved into the backend's queue under `option
    /// redispatch`. Refused, in this order, where the log is full, no server has the number, or it
    /// isn't checked. Allocates nothing; `O(s)` in the servers, and `O(log n)` for each request
    /// that is moved or takes a slot.
    pub fn check(&mut self, moment: Moment, server: usize, ok: bool) -> Result<(), Refusal>
        ensures ok { OnOk result (AddsEvent self.old self.new (Check (effective self.old moment) server ok)) }
        ensures err { IfErr result (λ refusal. refuses_check self.old server ≡ Some refusal) }
        ensures accepted { OnOk result (refuses_check self.old server ≡ None) }
        ensures unchanged { OnErr result (self.new ≡ self.old) }
        ensures dispatched { IsDispatched self.new }
    {
        if let Some(refusal) = self.events.state.refuses_check(server) {
            return Err(refusal);
        }
        let change = self.healths.result(server, ok);
        let up = self.healths.up(server);
        self.events.state.check(moment, server, ok, up);
        self.events.follow(server, change);
        self.events.settle();
        Ok(())
    }

    /// Sets the number of requests that a server serves at once (`maxconn`), or closes it. No
    /// request that it serves is stopped: it takes no more until it serves fewer than the limit.
    /// Where the limit rises, or a closed server is opened, waiting requests take the slots that
    /// are free. Where it is closed, the requests of its queue are moved into the backend's under
    /// `option redispatch`, and wait on otherwise. Refused, in this order, where the log is full or
    /// no server has the number. Allocates nothing; `O(s)` in the servers, and `O(log n)` for each
    /// request that is moved or takes a slot.
    pub fn limit(&mut self, moment: Moment, server: usize, limit: Intake) -> Result<(), Refusal>
        ensures ok { OnOk result (AddsEvent self.old self.new (Limit (effective self.old moment) server limit)) }
        ensures err { IfErr result (λ refusal. refuses_limit self.old server ≡ Some refusal) }
        ensures accepted { OnOk result (refuses_limit self.old server ≡ None) }
        ensures unchanged { OnErr result (self.new ≡ self.old) }
        ensures dispatched { IsDispatched self.new }
    {
        if let Some(refusal) = self.events.state.refuses_limit(server) {
            return Err(refusal);
        }
        self.events.state.limit(moment, server, limit);
        self.events.follow_limit(server, limit);
        self.events.settle();
        Ok(())
    }

    /// An event that takes no memory happens: it goes to its own call.
    pub fn apply(&mut self, event: Event) -> Result<(), Refusal>
        ensures ok { OnOk result (AddsEvent self.old self.new (entry_of self.old event)) }
        ensures err { IfErr result (λ refusal. refuses self.old event ≡ Some refusal) }
        ensures accepted { OnOk result (refuses self.old event ≡ None) }
        ensures unchanged { OnErr result (self.new ≡ self.old) }
        ensures dispatched { IsDispatched self.new }
    {
        match event {
            Event::Done { moment, ticket } => self.done(moment, ticket),
            Event::Fail { moment, ticket } => self.failed(moment, ticket),
            Event::Abort { moment, ticket } => self.abort(moment, ticket),
            Event::Tick { moment } => self.tick(moment),
            Event::Check {
                moment,
                server,
                answered,
            } => self.check(moment, server, answered),
            Event::Limit {
                moment,
                server,
                limit,
            } => self.limit(moment, server, limit),
        }
    }

    /// Begins the next window of the log: what the log left becomes its base, and its entries are gone, so
    /// that there is room again. Whoever wants a window's reports asks for them before. Never refused, takes no
    /// memory; `O(n + s)` in the places and servers.
    pub fn roll(&mut self)
        ensures window { self.new ≡ next_window self.old }
        ensures dispatched { IsDispatched self.new }
    {
        self.events.state.roll(self.healths.all(), &mut self.spare);
    }

    /// Says whether a tick at this moment would tell a timeout. `O(1)`.
    pub fn expired(&self, moment: Moment) -> bool
        ensures { IsTrue result ↔ SomeExpires self.now moment }
    {
        self.events.state.expired(moment)
    }

    /// Returns the moment of an event that comes at `moment`: no earlier than the last event's. `O(1)`.
    pub fn moment_at(&self, moment: Moment) -> Moment
        ensures { result ≡ effective self.now moment }
    {
        self.events.state.moment_at(moment)
    }

    /// Returns the log: the base, and the decisions since.
    pub fn log(&self) -> &Log
        ensures base { result.now.base ≡ self.now.base }
        ensures entries { result.now.entries ≡ self.now.log }
        ensures legal { IsLegal self.now }
        ensures dispatched { IsDispatched self.now }
    {
        self.events.state.log()
    }

    /// Returns the phase of the request with this ticket; `None` where no live request has it.
    pub fn phase(&self, ticket: u64) -> Option<Phase>
        ensures { result ≡ option_map (λ row. row.phase) (row_of ticket (state_of self.now).rows) }
    {
        match self.events.state.find(ticket) {
            None => None,
            Some(it) => Some(self.events.state.phase(it)),
        }
    }

    /// Returns the place of the request with this ticket, which it has until its end; `None` where
    /// no live request has it. `O(log n)`.
    pub fn place(&self, ticket: u64) -> Option<usize>
        ensures { MatchOption result (row_of ticket (state_of self.now).rows ≡ None) (λ place. IsTicketAt (state_of self.now).rows (record { place = place; ticket = ticket })) }
    {
        match self.events.state.find(ticket) {
            None => None,
            Some(it) => Some(it.place),
        }
    }

    /// Returns the number of places, each for one live request.
    pub fn places(&self) -> usize
        ensures places { result ≡ self.now.setup.places }
        ensures few { result ≤ 4096 }
    {
        self.events.state.setup().places
    }

    /// Returns the number of servers.
    pub fn servers(&self) -> usize
        ensures { result ≡ length self.now.setup.servers }
    {
        self.events.state.setup().servers.len()
    }

    /// Says whether a server is up, by the results of its checks. False for a number that no server has. `O(1)`.
    pub fn up(&self, server: usize) -> bool
        ensures { result ≡ is_up (scene_of self.now) server }
    {
        self.events.state.up(server)
    }

    /// Returns the number of requests that a server serves. `O(1)`.
    pub fn served(&self, server: usize) -> usize
        ensures { result ≡ served server (state_of self.now).rows }
    {
        self.events.state.served(server)
    }

    /// Returns the number of requests that wait in a queue. `O(1)`.
    pub fn queued(&self, queue: Queue) -> usize
        ensures { result ≡ queued queue (state_of self.now).rows }
    {
        self.events.state.queued(queue)
    }

    /// Says whether the log has room for an event; no call is refused for a full log then.
    pub fn has_room(&self) -> bool
        ensures { IsTrue result ↔ HasEntryRoom self.now }
    {
        self.events.state.has_room()
    }
}
