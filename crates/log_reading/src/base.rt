ghost use Rattle.std.specs.Prelude.{◌≡◌, ◌<◌, IfOk, None, length, map, replicate, slice_set};
ghost use Rattle.log_entries.specs.States.{opening_state};
ghost use Rattle.log_reading.specs.Bases.{results_by};

use check_state::Health;
use due_key::{Class, Due, Moment};
use log_entries::{Allowance, Queue, Row, Setup};
use std::alloc::{AllocError, Global};
use std::marker::Model;

/// A live request at the base of a window.
#[derive(Clone, Copy, Debug, PartialEq, Eq)]
pub struct BaseRow {
    pub ticket: u64,
    pub class: Class,
    pub due: Due,
    /// The queue that it waits in; `None` where it doesn't wait.
    pub queue: Option<Queue>,
}

/// The state in which a window of a log begins. It keeps each checked server's health alone, which
/// stands for the shortest results with that health.
#[derive(Debug, Drop)]
pub struct Base {
    rows: Vec<Option<Row>>,
    healths: Vec<Option<Health>>,
    limits: Vec<Allowance>,
    moment: Moment,
    ticket: u64,
    cursor: usize,
}

impl Model for Base {
    ghost use Rattle.std.specs.Prelude.{map};
    ghost use Rattle.log_entries.specs.States.{State};
    ghost use Rattle.log_reading.specs.Bases.{results_by};

    ghost Value = { State };

    ghost view = { λ base. record { rows = base.rows.items; results = map results_by base.healths.items; limits = base.limits.items; moment = base.moment; ticket = base.ticket; cursor = base.cursor } };
}

impl Base {
    /// Makes the base of a dispatcher's first window: no request, all servers up and with the
    /// limits of their setup. All its memory is allocated here.
    pub fn opening(alloc: Global, setup: &Setup) -> Result<Base, AllocError>
        ensures { IfOk result (λ base. base ≡ opening_state setup.now) }
    {
        let servers = setup.servers.len();
        Ok(Base {
            rows: nothing(alloc, setup.places)?,
            healths: nothing(alloc, servers)?,
            limits: setup.opening_limits(alloc)?,
            moment: Moment::zero(),
            ticket: 0,
            cursor: servers.saturating_sub(1),
        })
    }

    /// Returns the places with their requests.
    pub fn rows(&self) -> &[Option<Row>]
        ensures { result.now ≡ self.now.rows }
    {
        self.rows.as_slice()
    }

    /// Puts a request or nothing at a place.
    pub fn set_row(&mut self, place: usize, row: Option<Row>)
        requires { place < length self.old.rows }
        ensures { self.new ≡ record self.old { rows = slice_set self.old.rows place row } }
    {
        self.rows[place] = row;
    }

    /// Sets the healths of the servers; a server that isn't checked has none.
    pub fn set_healths(&mut self, healths: &[Option<Health>])
        requires { length self.old.results ≡ length healths.now }
        ensures { self.new ≡ record self.old { results = map results_by healths.now } }
    {
        self.healths.copy_from_slice(healths);
    }

    /// Sets the present limits of the servers.
    pub fn set_limits(&mut self, limits: &[Allowance])
        requires { length self.old.limits ≡ length limits.now }
        ensures { self.new ≡ record self.old { limits = limits.now } }
    {
        self.limits.copy_from_slice(limits);
    }

    /// Sets the moment of the last event, the last ticket, and the server that balancing picked last.
    pub fn set_position(&mut self, moment: Moment, ticket: u64, cursor: usize)
        ensures { self.new ≡ record self.old { moment = moment; ticket = ticket; cursor = cursor } }
    {
        self.moment = moment;
        self.ticket = ticket;
        self.cursor = cursor;
    }
}

/// Makes this number of empty cells.
fn nothing<T: Drop>(alloc: Global, count: usize) -> Result<Vec<Option<T>>, AllocError>
    ensures { IfOk result (λ list. list.items ≡ replicate count None) }
{
    let mut list = Vec::with_capacity(alloc, count)?;
    for _ in 0..count {
        list.push_reserved(None);
    }
    Ok(list)
}
