ghost use Rattle.std.specs.Prelude.{◌≡◌, ◌<◌, ◌≤◌, ◌↔◌, [], length, None, Some, IfOk, IfErr, IsTrue, MatchOption, option_map, slice_get};
ghost use Rattle.log_entries.specs.Grants.{IsSettled};
ghost use Rattle.log_entries.specs.Histories.{first_window, state_of, refuses_arrival, refuses_done, refuses_failure, refuses_abort};
ghost use Rattle.log_entries.specs.Refusals.{pins_to_none};
ghost use Rattle.log_entries.specs.Rows.{row_of, served, queued};
ghost use Rattle.log_entries.specs.Setups.{IsSound};
ghost use Rattle.log_entries.specs.Scenes.{is_up};
ghost use Rattle.server_pick.specs.Picked.{IsPlacement, cursor_placed};
ghost use Rattle.dispatch_state.specs.Histories.{IsTicketAt, IsFound, scene_of, HasEntryRoom};

use crate::position::{Position, Ticketed};
use due_key::{Key, Moment};
use log_entries::{Phase, Queue, Refusal, Setup};
use log_reading::{Base, Log};
use pend_queue::PendQueue;
use queue_waits::WaitQueues;
use server_pick::{Cursor, Placement};
use slot_ledger::Ledger;
use std::alloc::{AllocError, Global};
use std::marker::Model;

/// A log that grows entry by entry, with the state that it leaves.
#[derive(Drop)]
pub struct DispatchState<Q: PendQueue<Key, usize>> {
    pub(crate) log: Log,
    pub(crate) ledger: Ledger<Q::Node>,
    pub(crate) waiting: WaitQueues<Q>,
    pub(crate) position: Position,
}

impl<Q: PendQueue<Key, usize>> Model for DispatchState<Q> {
    ghost use Rattle.log_entries.specs.Histories.{History};

    ghost Value = { History };

    ghost use Rattle.queue_waits.specs.Waitlists.{list_of};
    ghost use Rattle.dispatch_state.specs.LoggedStates.{history_of, IsLoggedState};

    ghost view = { λ it. history_of (record { kept = it.ledger; log = it.log; waits = list_of it.waiting; position = it.position }) };

    ghost invariant = { λ it. IsLoggedState Q.pair_of (record { kept = it.ledger; log = it.log; waits = list_of it.waiting; position = it.position }) };
}

impl<Q: PendQueue<Key, usize>> DispatchState<Q> {
    /// Makes a state without an entry.
    pub fn new(alloc: Global, setup: Setup) -> Result<DispatchState<Q>, AllocError>
        requires { IsSound setup }
        ensures { IfOk result (λ made. made ≡ first_window setup []) }
    {
        let servers = setup.servers.len();
        let base = Base::opening(alloc, &setup)?;
        let log = Log::with_room(alloc, base, setup.log)?;
        let waiting = WaitQueues::new(alloc, servers, setup.places)?;
        let ledger = Ledger::new(alloc, setup)?;
        Ok(DispatchState {
            log,
            ledger,
            waiting,
            position: Position {
                cursor: Cursor::new(servers),
                last: Moment::zero(),
                ticket: 0,
            },
        })
    }

    /// Returns its setup.
    pub fn setup(&self) -> &Setup
        ensures setup { result.now ≡ self.now.setup }
        ensures sound { IsSound self.now.setup }
    {
        self.ledger.setup()
    }

    pub fn log(&self) -> &Log
        ensures base { result.now.base ≡ self.now.base }
        ensures entries { result.now.entries ≡ self.now.log }
    {
        &self.log
    }

    /// Says whether the log has room for the longest event. `O(1)`.
    pub fn has_room(&self) -> bool
        ensures { IsTrue result ↔ HasEntryRoom self.now }
    {
        let setup = self.ledger.setup();
        setup.log.saturating_sub(self.log.len()) >= 2 * setup.places + 8
    }

    /// Returns the live request with a ticket. `O(log n)`; each call searches once.
    pub fn find(&self, ticket: u64) -> Option<Ticketed>
        ensures { MatchOption result (row_of ticket (state_of self.now).rows ≡ None) (λ it. IsFound (state_of self.now).rows ticket it) }
    {
        let Some(place) = self.ledger.find(ticket) else {
            return None;
        };
        Some(Ticketed { place, ticket })
    }

    /// Returns the phase of a live request. `O(1)`.
    pub fn phase(&self, it: Ticketed) -> Phase
        requires { IsTicketAt (state_of self.now).rows it }
        ensures { option_map (λ row. row.phase) (row_of it.ticket (state_of self.now).rows) ≡ Some result }
    {
        self.ledger.row(it.place).phase
    }

    /// Returns why an arrival with this pin is refused, except for want of memory. `O(1)`.
    pub fn refuses_arrival(&self, pin: Option<usize>) -> Option<Refusal>
        ensures { result ≡ refuses_arrival self.now pin }
    {
        if !self.has_room() {
            return Some(Refusal::LogFull);
        }
        if self.pins_to_none(pin) {
            return Some(Refusal::NoSuchServer);
        }
        if self.position.ticket >= (1 << 40) - 1 {
            return Some(Refusal::TicketsSpent);
        }
        if self.ledger.len() >= self.ledger.setup().places {
            return Some(Refusal::PlacesFull);
        }
        None
    }

    /// Says whether a pin names a server that doesn't exist.
    fn pins_to_none(&self, pin: Option<usize>) -> bool
        ensures { result ≡ pins_to_none self.now.setup pin }
    {
        match pin {
            None => false,
            Some(server) => self.ledger.setup().servers.len() <= server,
        }
    }

    /// Returns the request whose return is accepted now, or why it is refused.
    pub fn accept_done(&self, ticket: u64) -> Result<Ticketed, Refusal>
        ensures refused { IfErr result (λ refusal. refuses_done self.now ticket ≡ Some refusal) }
        ensures accepted { IfOk result (λ it. refuses_done self.now ticket ≡ None) }
        ensures found { IfOk result (λ it. IsFound (state_of self.now).rows ticket it) }
    {
        if !self.has_room() {
            return Err(Refusal::LogFull);
        }
        let Some(it) = self.find(ticket) else {
            return Err(Refusal::NoSuchTicket);
        };
        match self.phase(it) {
            Phase::Waiting(_, _) => Err(Refusal::WrongPhase),
            _ => Ok(it),
        }
    }

    /// Returns the request whose failure is accepted now, or why it is refused.
    pub fn accept_failure(&self, ticket: u64) -> Result<Ticketed, Refusal>
        ensures refused { IfErr result (λ refusal. refuses_failure self.now ticket ≡ Some refusal) }
        ensures accepted { IfOk result (λ it. refuses_failure self.now ticket ≡ None) }
        ensures found { IfOk result (λ it. IsFound (state_of self.now).rows ticket it) }
    {
        if !self.has_room() {
            return Err(Refusal::LogFull);
        }
        let Some(it) = self.find(ticket) else {
            return Err(Refusal::NoSuchTicket);
        };
        match self.phase(it) {
            Phase::Serving(_) => Ok(it),
            _ => Err(Refusal::WrongPhase),
        }
    }

    /// Returns the request whose abort is accepted now, or why it is refused.
    pub fn accept_abort(&self, ticket: u64) -> Result<Ticketed, Refusal>
        ensures refused { IfErr result (λ refusal. refuses_abort self.now ticket ≡ Some refusal) }
        ensures accepted { IfOk result (λ it. refuses_abort self.now ticket ≡ None) }
        ensures found { IfOk result (λ it. IsFound (state_of self.now).rows ticket it) }
    {
        if !self.has_room() {
            return Err(Refusal::LogFull);
        }
        let Some(it) = self.find(ticket) else {
            return Err(Refusal::NoSuchTicket);
        };
        match self.phase(it) {
            Phase::Waiting(_, _) => Ok(it),
            _ => Err(Refusal::WrongPhase),
        }
    }

    /// Returns the placement of a request with this pin and with this server to avoid, and the
    /// cursor after it. `O(s)` in the servers.
    pub fn placement(&self, pin: Option<usize>, avoid: Option<usize>) -> (Placement, Cursor)
        ensures placed { IsPlacement (scene_of self.now) (state_of self.now).cursor pin avoid result.0 }
        ensures cursor { result.1 ≡ cursor_placed pin result.0 (state_of self.now).cursor }
    {
        let mut cursor = self.position.cursor;
        let placement = server_pick::place(&self.ledger, &mut cursor, pin, avoid);
        (placement, cursor)
    }

    /// Returns the number of requests that a server serves. `O(1)`.
    pub fn served(&self, server: usize) -> usize
        ensures { result ≡ served server (state_of self.now).rows }
    {
        self.ledger.served(server)
    }

    /// Returns the number of requests that wait in a queue. `O(1)`.
    pub fn queued(&self, queue: Queue) -> usize
        ensures { result ≡ queued queue (state_of self.now).rows }
    {
        self.ledger.queued(queue)
    }

    /// Says whether a server is up. `O(1)`.
    pub fn up(&self, server: usize) -> bool
        ensures { result ≡ is_up (scene_of self.now) server }
    {
        self.ledger.up(server)
    }
}
