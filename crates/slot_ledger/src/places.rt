ghost use Rattle.std.specs.Prelude.{◌≡◌, ◌<◌, Some, None, IfOk, length, count_by, is_some, slice_get, slice_set, replicate, MatchOption};
ghost use Rattle.log_entries.specs.declared.row.Phase.{Phase};

use crate::tickets::Tickets;
use due_key::Moment;
use log_entries::{Phase, Queue, Row};
use std::alloc::{AllocError, Global};
use std::marker::Model;

/// A live request.
#[derive(Drop)]
pub struct Cell<H> {
    pub row: Row,
    /// The node with which it will wait in a queue, while it doesn't wait.
    pub node: Option<H>,
}

/// The requests by place, and where each ticket is.
#[derive(Drop)]
pub(crate) struct Places<H> {
    cells: Vec<Option<Cell<H>>>,
    vacant: Vec<usize>,
    // The places of the tickets.
    index: Tickets,
}

impl<H> Model for Places<H> {
    ghost use Rattle.std.specs.Prelude.{List, Option, vec_capacity};
    ghost use Rattle.slot_ledger.specs.declared.places.Cell.{Cell};
    ghost use Rattle.slot_ledger.specs.Places.{PlacesAreKept};

    ghost Value = { List (Option (Cell H)) };

    ghost view = { λ places. places.cells.items };

    ghost invariant = { λ places. PlacesAreKept places.cells.items places.vacant.items (vec_capacity places.vacant) places.index };
}

impl<H: Drop> Places<H> {
    ghost use Rattle.slot_ledger.specs.declared.places.Cell.{Cell};
    ghost use Rattle.slot_ledger.specs.Cells.{rows_in, HasRow, HasCountable, HasNode, HasTicketAt, HasNoTicket, AreBelow, with_phase, with_failure, unpinned, waiting, loosened};

    /// Makes this number of free places. `O(n)`.
    pub(crate) fn new(alloc: Global, places: usize) -> Result<Places<H>, AllocError>
        ensures { IfOk result (λ made. made ≡ replicate places None) }
    {
        let mut cells = Vec::with_capacity(alloc, places)?;
        let mut vacant = Vec::with_capacity(alloc, places)?;
        for place in 0..places {
            cells.push_reserved(None);
            vacant.push_reserved(places - 1 - place);
        }
        Ok(Places {
            cells,
            vacant,
            index: Tickets::with_room(alloc, places)?,
        })
    }

    /// Returns the number of places.
    pub(crate) fn places(&self) -> usize
        ensures { result ≡ length self.now }
    {
        self.cells.len()
    }

    /// Returns the number of live requests. `O(1)`.
    pub(crate) fn len(&self) -> usize
        ensures { result ≡ count_by is_some self.now }
    {
        self.places() - self.vacant.len()
    }

    /// Puts a row at a free place, and returns the place. Its ticket is above all others. `O(1)`,
    /// and `O(n)` where a higher ticket has ended.
    pub(crate) fn admit(&mut self, row: Row) -> usize
        requires room { count_by is_some self.old < length self.old }
        requires highest { AreBelow row.key.ticket self.old }
        ensures vacant { slice_get self.old result ≡ Some None }
        ensures admitted { self.new ≡ slice_set self.old result (Some (record { row = row; node = None })) }
    {
        let Some(place) = self.vacant.pop() else {
            unreachable!()
        };
        self.index.push(row.key.ticket, place);
        self.cells[place] = Some(Cell { row, node: None });
        place
    }

    /// Returns the place of a ticket's row. `O(log n)`.
    pub(crate) fn find(&self, ticket: u64) -> Option<usize>
        ensures { MatchOption result (HasNoTicket ticket self.now) (λ place. HasTicketAt ticket self.now place) }
    {
        self.index.get(ticket)
    }

    /// Returns the row at a place.
    pub(crate) fn row(&self, place: usize) -> Row
        requires { HasRow self.now place }
        ensures { (cell : Cell H) × (slice_get self.now place ≡ Some (Some cell)) × (cell.row ≡ result) }
    {
        match &self.cells[place] {
            Some(cell) => cell.row,
            None => unreachable!(),
        }
    }

    /// Returns the row at a place, if there is one.
    pub(crate) fn cell(&self, place: usize) -> Option<Row>
        requires { place < length self.now }
        ensures { slice_get (rows_in self.now) place ≡ Some result }
    {
        match &self.cells[place] {
            Some(cell) => Some(cell.row),
            None => None,
        }
    }

    /// Sets the row's phase.
    pub(crate) fn set_phase(&mut self, place: usize, phase: Phase)
        requires { HasRow self.old place }
        ensures { self.new ≡ with_phase phase self.old place }
    {
        let Some(cell) = &mut self.cells[place] else {
            unreachable!()
        };
        cell.row.phase = phase;
    }

    /// Counts one more failed connection of the row.
    pub(crate) fn fail(&mut self, place: usize)
        requires { HasCountable self.old place }
        ensures { self.new ≡ with_failure self.old place }
    {
        let Some(cell) = &mut self.cells[place] else {
            unreachable!()
        };
        cell.row.failures += 1;
    }

    /// Removes the row's pin.
    pub(crate) fn unpin(&mut self, place: usize)
        requires { HasRow self.old place }
        ensures { self.new ≡ unpinned self.old place }
    {
        let Some(cell) = &mut self.cells[place] else {
            unreachable!()
        };
        cell.row.pin = None;
    }

    /// Lets the row wait in a queue from this moment on, and returns its node.
    pub(crate) fn wait(&mut self, place: usize, queue: Queue, since: Moment) -> H
        requires { HasNode self.old place }
        ensures node { (cell : Cell H) × (slice_get self.old place ≡ Some (Some cell)) × (cell.node ≡ Some result) }
        ensures waiting { self.new ≡ waiting queue since self.old place }
    {
        match &mut self.cells[place] {
            Some(cell) => {
                cell.row.phase = Phase::Waiting(queue, since);
                match cell.node.take() {
                    Some(node) => node,
                    None => unreachable!(),
                }
            }
            None => unreachable!(),
        }
    }

    /// Ends the row's wait, and takes its node back.
    pub(crate) fn loosen(&mut self, place: usize, node: H)
        requires { HasRow self.old place }
        ensures { self.new ≡ loosened node self.old place }
    {
        let Some(cell) = &mut self.cells[place] else {
            unreachable!()
        };
        cell.row.phase = Phase::Loose;
        cell.node = Some(node);
    }

    /// Removes the row, whose place is free then. `O(log n)`.
    pub(crate) fn end(&mut self, place: usize)
        requires { HasRow self.old place }
        ensures { self.new ≡ slice_set self.old place None }
    {
        let Some(cell) = self.cells[place].take() else {
            unreachable!()
        };
        self.index.remove(cell.row.key.ticket);
        self.vacant.push_reserved(place);
    }
}
