//! Requests that wait at their places.

ghost use Rattle.std.specs.Prelude.{◌≡◌, IfSome, IsSomeAnd};
ghost use Rattle.loop_table.specs.declared.subject.Subject.TheVariants as subjects;
ghost use Rattle.loop_shared.specs.Hopeless.{NotesHopeless};
ghost use Rattle.relay_workers.specs.Turning.{GivesUp};

use crate::leaving::{HasLeft, left};
use crate::owed::OwedLook;
use crate::parked::{GivenUpSet, Parked};
use crate::shared::Shared;
use locked_book::DeskName;
use log_entries::Refusal;
use loop_table::Subject;
use proxy_config::Config;
use relay_workers::Gate;
use std::sync::Wait;
use std::sync::atomic::Ordering;
use std::sync::ledger::Ledger;

impl<N: DeskName + Ledger> Shared<'_, N> {
    /// Puts a request into the cell of its place. A look at the place is owed then.
    pub fn park<R: Wait>(&self, rt: &R, parked: Parked) -> OwedLook
        ensures { result.place ≡ parked.at.place }
    {
        let owed = OwedLook::at(parked.at.place);
        let before = match self.cells.as_slice().get(parked.at.place) {
            None => Some(parked),
            Some(cell) => cell.lock(rt).replace(parked),
        };
        match before {
            None => {}
            // An earlier request had the place, and is over. Or it isn't a place.
            Some(parked) => self.note_end(rt, parked.leave()),
        }
        owed
    }

    /// Says whether a ticket's request still lies at a place although its client has left.
    pub fn lies_left<R: Wait>(&self, rt: &R, place: usize, ticket: u64) -> Option<HasLeft>
        ensures { IfSome result (λ it. it.subject ≡ subjects.Waiting place ticket) }
    {
        let cell = self.cells.as_slice().get(place)?;
        left_in(
            &*cell.lock(rt),
            Subject::Waiting { place, ticket },
            ticket,
            self.front.config,
        )
    }

    /// Notes that a request waits. Where requests can time out and none waited before, the first loop is told.
    pub fn note_wait(&self) {
        if self.front.config.queue_timeout.is_some() && !self.waits.swap(true, Ordering::SeqCst) {
            if let Some(mail) = self.mail.as_slice().first() {
                mail.ring();
            }
        }
    }

    /// Says whether requests wait that may time out.
    pub fn has_waits(&self) -> bool {
        self.waits.load(Ordering::SeqCst)
    }

    /// Notes that no request waits, unless one is found that does. One that comes meanwhile is
    /// noted by the thread that brings it.
    pub fn look_for_waits<R: Wait>(&self, rt: &R) {
        self.waits.store(false, Ordering::SeqCst);
        if self.seen_nobody_outside().is_none() {
            self.waits.store(true, Ordering::SeqCst);
            return;
        }
        for cell in self.cells.as_slice() {
            if cell.lock(rt).is_some() {
                self.waits.store(true, Ordering::SeqCst);
                return;
            }
        }
    }

    /// Gives up the requests at their places that this set has. Their clients are told that they
    /// aren't served.
    pub fn give_up_all<R: Wait, G: Gate>(&self, rt: &R, gate: &mut G, hopeless: &GivenUpSet) {
        for place in 0..self.cells.len() {
            if let Some(ticket) = self.found_hopeless(rt, place, hopeless) {
                self.give_up_at(rt, gate, place, ticket);
            }
        }
    }

    // Returns the ticket of the request at a place, where this set has it.
    fn found_hopeless<R: Wait>(&self, rt: &R, place: usize, hopeless: &GivenUpSet) -> Option<u64> {
        let cell = self.cells.as_slice().get(place)?;
        note_hopeless(&mut *cell.lock(rt), hopeless)
    }

    // Gives up a request at its place. Where the dispatcher's log has no room for that, it waits on.
    pub(crate) fn give_up_at<R: Wait, G: Gate>(
        &self,
        rt: &R,
        gate: &mut G,
        place: usize,
        ticket: u64,
    )
        ensures { GivesUp N.terms N.setup ticket (G.notes gate.old) (G.notes gate.new) }
    {
        if let Err(Refusal::LogFull) = self.proxy.give_up(rt, gate, ticket) {
            self.wait_on(rt, place, ticket);
        }
    }

    // Notes that a request isn't given up after all, so that a later look at the queues finds it.
    fn wait_on<R: Wait>(&self, rt: &R, place: usize, ticket: u64) {
        let Some(cell) = self.cells.as_slice().get(place) else {
            return;
        };
        match &mut *cell.lock(rt) {
            Some(parked) if parked.at.ticket == ticket => parked.late = false,
            _ => {}
        }
    }

    /// Returns once the proxy has ended.
    pub fn wait_for_end<R: Wait>(&self, rt: &R) {
        let _over = self
            .bell
            .wait_while(rt, self.ended_all.lock(rt), |over| !*over);
    }
}

// Notes the request of a cell as given up, where this set has it, and returns its ticket.
fn note_hopeless(cell: &mut Option<Parked>, hopeless: &GivenUpSet) -> Option<u64>
    ensures { NotesHopeless hopeless.now cell.old cell.new result }
{
    match cell {
        Some(parked) if parked.is_hopeless(hopeless) => {
            parked.late = true;
            Some(parked.at.ticket)
        }
        _ => None,
    }
}

// Asks the system whether the client of a cell's request has left, where that has this ticket.
fn left_in(cell: &Option<Parked>, subject: Subject, ticket: u64, config: &Config) -> Option<HasLeft>
    ensures { IfSome result (λ it. (it.subject ≡ subject) × IsSomeAnd cell.now (λ parked. parked.at.ticket ≡ ticket)) }
{
    match cell {
        Some(parked) if parked.at.ticket == ticket => {
            left(parked.client.socket()?, subject, config)
        }
        _ => None,
    }
}
