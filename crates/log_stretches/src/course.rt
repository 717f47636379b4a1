ghost use Rattle.std.specs.Prelude.{◌≡◌, ℕ, IfOk, OnOk};
ghost use Rattle.std.specs.BTreeMap.{get};
ghost use Rattle.std.specs.Ordering.{nat_cmp};
ghost use Rattle.log_reading.specs.Grants.{moment_at};
ghost use Rattle.log_stretches.specs.Stretches.{stretches_of};
ghost use Rattle.log_stretches.specs.Courses.{came_in, later, newer_came, AreMoments};

use crate::stretch::{Stretch, stretches_of};
use due_key::Moment;
use log_entries::{Arrival, Entry};
use std::alloc::{AllocError, Global};
use std::collections::BTreeMap;
use std::marker::Model;

/// An arrival and its moment.
#[derive(Clone, Copy, Debug, PartialEq, Eq)]
pub struct Came {
    pub moment: Moment,
    pub arrival: Arrival,
}

/// A log with its facts in order: the moment of each entry, the arrivals by ticket, and the
/// stretches. Contracts see its entries.
#[derive(Drop)]
pub struct Course<'a> {
    entries: &'a [Entry],
    moments: Vec<Moment>,
    arrivals: BTreeMap<u64, Came>,
    stretches: Vec<Stretch>,
}

impl<'a> Model for Course<'a> {
    ghost use Rattle.std.specs.Prelude.{◌≡◌, List};
    ghost use Rattle.std.specs.BTreeMap.{get};
    ghost use Rattle.std.specs.Ordering.{nat_cmp};
    ghost use Rattle.log_entries.specs.declared.entry.Entry.{Entry};
    ghost use Rattle.log_stretches.specs.Courses.{IsCourse};

    ghost Value = { List Entry };

    ghost view = { λ course. course.entries.now };

    ghost invariant = { λ course. IsCourse course.entries.now course.moments.items (get nat_cmp course.arrivals) course.stretches.items };
}

impl<'a> Course<'a> {
    /// Makes the course of a log. `O(n log n)`.
    pub fn new(alloc: Global, entries: &'a [Entry]) -> Result<Course<'a>, AllocError>
        ensures { IfOk result (λ course. course ≡ entries.now) }
    {
        let moments = moments_of(alloc, entries)?;
        let arrivals = arrivals_of(alloc, entries)?;
        let stretches = stretches_of(alloc, entries)?;
        Ok(Course {
            entries,
            moments,
            arrivals,
            stretches,
        })
    }

    pub fn entries(&self) -> &'a [Entry]
        ensures { result.now ≡ self.now }
    {
        self.entries
    }

    /// Returns the moment of each entry's event.
    pub fn moments(&self) -> &[Moment]
        ensures { AreMoments self.now result.now }
    {
        self.moments.as_slice()
    }

    /// Returns the moment at a position, counted from 1: that of its entry's event. Past the end it
    /// is the last event's, and at 0 the moment 0.
    pub fn moment(&self, position: usize) -> Moment
        ensures { result ≡ moment_at self.now position }
    {
        let within = position.min(self.moments.len());
        if within == 0 {
            return Moment::zero();
        }
        self.moments[within - 1]
    }

    /// Returns the last arrival of a ticket.
    pub fn arrival(&self, ticket: u64) -> Option<Came>
        ensures { result ≡ came_in self.now ticket }
    {
        self.arrivals.get(&ticket).copied()
    }

    /// Returns the stays and services, in the order in which they begin.
    pub fn stretches(&self) -> &[Stretch]
        ensures { result.now ≡ stretches_of self.now }
    {
        self.stretches.as_slice()
    }
}

// Returns the moment of each entry's event.
fn moments_of(alloc: Global, entries: &[Entry]) -> Result<Vec<Moment>, AllocError>
    ensures { IfOk result (λ moments. AreMoments entries.now moments.items) }
{
    let mut moments = Vec::with_capacity(alloc, entries.len())?;
    let mut last = Moment::zero();
    for entry in entries {
        last = later(entry, last);
        moments.push(last)?;
    }
    Ok(moments)
}

fn arrivals_of(alloc: Global, entries: &[Entry]) -> Result<BTreeMap<u64, Came>, AllocError>
    ensures { IfOk result (λ arrivals. (ticket : ℕ) → get nat_cmp arrivals ticket ≡ came_in entries.now ticket) }
{
    let mut arrivals = BTreeMap::new(alloc);
    for entry in entries {
        note_arrival(&mut arrivals, *entry)?;
    }
    Ok(arrivals)
}

fn note_arrival(arrivals: &mut BTreeMap<u64, Came>, entry: Entry) -> Result<(), AllocError>
    ensures { OnOk result ((ticket : ℕ) → get nat_cmp arrivals.new ticket ≡ newer_came ticket (get nat_cmp arrivals.old ticket) entry) }
{
    if let Entry::Arrive(moment, arrival) = entry {
        let ticket = arrival.ticket;
        let came = Came { moment, arrival };
        arrivals.insert(ticket, came)?;
    }
    Ok(())
}

// Returns the moment of an event, and for any other entry that of the event before it.
fn later(entry: &Entry, last: Moment) -> Moment
    ensures { result ≡ later entry.now last }
{
    match entry {
        Entry::Arrive(moment, _)
        | Entry::Done(moment, _)
        | Entry::Fail(moment, _)
        | Entry::Abort(moment, _)
        | Entry::Tick(moment)
        | Entry::Check(moment, _, _)
        | Entry::Limit(moment, _, _) => *moment,
        _ => last,
    }
}
