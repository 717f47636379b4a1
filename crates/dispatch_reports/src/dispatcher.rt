ghost use Rattle.std.specs.Prelude.{◌≡◌, ◌↔◌, ◌≤◌, [], length, IfOk, IfErr, OnOk, OnErr, IsTrue, MatchOption, None, Some, pos, ◌+ℤ◌};
ghost use Rattle.log_entries.specs.declared.entry.Entry.TheVariants.{Arrive, Done, Fail, Abort, Tick, Check, Limit};
ghost use Rattle.log_entries.specs.Histories.{first_window, next_window, state_of, effective, refuses_arrival, refuses_done, refuses_failure, refuses_abort, refuses_tick, refuses_check, refuses_limit, SomeExpires, RefusedOrNoMemory};
ghost use Rattle.log_entries.specs.Legal.{IsLegal, AddsEvent};
ghost use Rattle.log_entries.specs.Rows.{row_of, served, queued};
ghost use Rattle.log_entries.specs.Scenes.{is_up};
ghost use Rattle.dispatch_core.specs.Occurrences.{refuses, entry_of};
ghost use Rattle.dispatch_state.specs.Histories.{scene_of, IsTicketAt, HasEntryRoom};
ghost use Rattle.late_cert.specs.Running.{IsWorstIn};
ghost use Rattle.log_reading.specs.Windows.{window_in};
ghost use Rattle.dispatch_reports.specs.Reporting.{IsNew};

use dispatch_core::{Core, Event};
use dispatch_state::Ticketed;
use due_key::{Class, Key, Moment, Offset};
use late_cert::Running;
use log_entries::{Intake, Queue, Refusal};
use log_reading::Log;
use pend_queue::PendQueue;
use std::alloc::Global;
use std::marker::Model;

/// A dispatcher with the greatest lateness so far of each queue and class. Its calls are the dispatcher's.
#[derive(Drop)]
pub struct ReportingCore<Q: PendQueue<Key, usize>> {
    pub(crate) core: Core<Q>,
    pub(crate) running: Running,
}

impl<Q: PendQueue<Key, usize>> Model for ReportingCore<Q> {
    ghost use Rattle.log_entries.specs.Histories.{History};
    ghost use Rattle.dispatch_reports.specs.Reporting.{IsReporting};

    ghost Value = { History };

    ghost view = { λ it. it.core };

    ghost invariant = { λ it. IsReporting it.core it.running };
}

impl<Q: PendQueue<Key, usize>> ReportingCore<Q> {
    /// Makes it of a fresh dispatcher, and an empty running worst for its servers.
    pub fn new(core: Core<Q>, running: Running) -> ReportingCore<Q>
        requires first { core ≡ first_window core.setup [] }
        requires running { IsNew running (length core.setup.servers) }
        ensures { result ≡ core }
    {
        ReportingCore { core, running }
    }

    /// As the dispatcher's. It allocates the room for the class's worst before, so that want of
    /// memory is the last cause of a refusal.
    pub fn arrive(
        &mut self,
        alloc: Global,
        moment: Moment,
        class: Class,
        offset: Offset,
        pin: Option<usize>,
    ) -> Result<Ticketed, Refusal>
        ensures ok { IfOk result (λ it. AddsEvent self.old self.new (Arrive (effective self.old moment) (record { ticket = it.ticket; class = class; due = pos (effective self.old moment) +ℤ offset; pin = pin; place = it.place }))) }
        ensures err { IfErr result (RefusedOrNoMemory (refuses_arrival self.old pin)) }
        ensures unchanged { OnErr result (self.new ≡ self.old) }
    {
        self.core.admits(pin)?;
        let Ok(()) = self.running.reserve(alloc, class) else {
            return Err(Refusal::NoMemory);
        };
        let from = self.core.log().grants().len();
        let it = self.core.arrive(alloc, moment, class, offset, pin)?;
        self.running.granted_from(self.core.log(), from);
        Ok(it)
    }

    /// As the dispatcher's. What was granted in it is told to the worst so far.
    pub fn apply(&mut self, event: Event) -> Result<(), Refusal>
        ensures ok { OnOk result (AddsEvent self.old self.new (entry_of self.old event)) }
        ensures err { IfErr result (λ refusal. refuses self.old event ≡ Some refusal) }
        ensures accepted { OnOk result (refuses self.old event ≡ None) }
        ensures unchanged { OnErr result (self.new ≡ self.old) }
    {
        let from = self.core.log().grants().len();
        self.core.apply(event)?;
        self.running.granted_from(self.core.log(), from);
        Ok(())
    }

    /// As the dispatcher's.
    pub fn done(&mut self, moment: Moment, ticket: u64) -> Result<(), Refusal>
        ensures ok { OnOk result (AddsEvent self.old self.new (Done (effective self.old moment) ticket)) }
        ensures err { IfErr result (λ refusal. refuses_done self.old ticket ≡ Some refusal) }
        ensures accepted { OnOk result (refuses_done self.old ticket ≡ None) }
        ensures unchanged { OnErr result (self.new ≡ self.old) }
    {
        self.apply(Event::Done { moment, ticket })
    }

    /// As the dispatcher's.
    pub fn failed(&mut self, moment: Moment, ticket: u64) -> Result<(), Refusal>
        ensures ok { OnOk result (AddsEvent self.old self.new (Fail (effective self.old moment) ticket)) }
        ensures err { IfErr result (λ refusal. refuses_failure self.old ticket ≡ Some refusal) }
        ensures accepted { OnOk result (refuses_failure self.old ticket ≡ None) }
        ensures unchanged { OnErr result (self.new ≡ self.old) }
    {
        self.apply(Event::Fail { moment, ticket })
    }

    /// As the dispatcher's.
    pub fn abort(&mut self, moment: Moment, ticket: u64) -> Result<(), Refusal>
        ensures ok { OnOk result (AddsEvent self.old self.new (Abort (effective self.old moment) ticket)) }
        ensures err { IfErr result (λ refusal. refuses_abort self.old ticket ≡ Some refusal) }
        ensures accepted { OnOk result (refuses_abort self.old ticket ≡ None) }
        ensures unchanged { OnErr result (self.new ≡ self.old) }
    {
        self.apply(Event::Abort { moment, ticket })
    }

    /// As the dispatcher's.
    pub fn tick(&mut self, moment: Moment) -> Result<(), Refusal>
        ensures ok { OnOk result (AddsEvent self.old self.new (Tick (effective self.old moment))) }
        ensures err { IfErr result (λ refusal. refuses_tick self.old ≡ Some refusal) }
        ensures accepted { OnOk result (refuses_tick self.old ≡ None) }
        ensures unchanged { OnErr result (self.new ≡ self.old) }
    {
        self.apply(Event::Tick { moment })
    }

    /// As the dispatcher's.
    pub fn check(&mut self, moment: Moment, server: usize, ok: bool) -> Result<(), Refusal>
        ensures ok { OnOk result (AddsEvent self.old self.new (Check (effective self.old moment) server ok)) }
        ensures err { IfErr result (λ refusal. refuses_check self.old server ≡ Some refusal) }
        ensures accepted { OnOk result (refuses_check self.old server ≡ None) }
        ensures unchanged { OnErr result (self.new ≡ self.old) }
    {
        self.apply(Event::Check {
            moment,
            server,
            answered: ok,
        })
    }

    /// As the dispatcher's.
    pub fn limit(&mut self, moment: Moment, server: usize, limit: Intake) -> Result<(), Refusal>
        ensures ok { OnOk result (AddsEvent self.old self.new (Limit (effective self.old moment) server limit)) }
        ensures err { IfErr result (λ refusal. refuses_limit self.old server ≡ Some refusal) }
        ensures accepted { OnOk result (refuses_limit self.old server ≡ None) }
        ensures unchanged { OnErr result (self.new ≡ self.old) }
    {
        self.apply(Event::Limit {
            moment,
            server,
            limit,
        })
    }

    /// As the dispatcher's; the worst so far begins anew.
    pub fn roll(&mut self)
        ensures { self.new ≡ next_window self.old }
    {
        // This call states that the log is legal, so the classes of its live requests are of
        // requests that arrived.
        self.core.log();
        self.core.roll();
        self.running.clear();
    }

    /// Returns the greatest lateness of a queue and class in this window, in milliseconds; `None`
    /// only where none of its requests was granted a slot. `O(1)`, without allocating.
    pub fn worst(&self, queue: Queue, class: Class) -> Option<i64>
        ensures { IsWorstIn (window_in self.now) queue class result }
    {
        // This call states that the log is readable: the grants have the moments of their slots.
        self.core.log().grants();
        self.running.worst(queue, class)
    }

    /// As the dispatcher's.
    pub fn log(&self) -> &Log
        ensures base { result.now.base ≡ self.now.base }
        ensures entries { result.now.entries ≡ self.now.log }
        ensures legal { IsLegal self.now }
    {
        self.core.log()
    }

    /// As the dispatcher's.
    pub fn expired(&self, moment: Moment) -> bool
        ensures { IsTrue result ↔ SomeExpires self.now moment }
    {
        self.core.expired(moment)
    }

    /// As the dispatcher's.
    pub fn moment_at(&self, moment: Moment) -> Moment
        ensures { result ≡ effective self.now moment }
    {
        self.core.moment_at(moment)
    }

    /// As the dispatcher's.
    pub fn place(&self, ticket: u64) -> Option<usize>
        ensures { MatchOption result (row_of ticket (state_of self.now).rows ≡ None) (λ place. IsTicketAt (state_of self.now).rows (record { place = place; ticket = ticket })) }
    {
        self.core.place(ticket)
    }

    /// As the dispatcher's.
    pub fn places(&self) -> usize
        ensures places { result ≡ self.now.setup.places }
        ensures few { result ≤ 4096 }
    {
        self.core.places()
    }

    /// As the dispatcher's.
    pub fn served(&self, server: usize) -> usize
        ensures { result ≡ served server (state_of self.now).rows }
    {
        self.core.served(server)
    }

    /// As the dispatcher's.
    pub fn queued(&self, queue: Queue) -> usize
        ensures { result ≡ queued queue (state_of self.now).rows }
    {
        self.core.queued(queue)
    }

    /// As the dispatcher's.
    pub fn up(&self, server: usize) -> bool
        ensures { result ≡ is_up (scene_of self.now) server }
    {
        self.core.up(server)
    }

    /// As the dispatcher's.
    pub fn has_room(&self) -> bool
        ensures { IsTrue result ↔ HasEntryRoom self.now }
    {
        self.core.has_room()
    }
}
