ghost use Rattle.std.specs.Prelude.{◌≡◌, ◌<◌, ◌≤◌, Some, None, IfOk, length, count_by, is_some, slice_get, slice_set, replicate, true, MatchOption};
ghost use Rattle.log_entries.specs.States.{opening_limits};
ghost use Rattle.log_entries.specs.declared.queue.Queue.{Queue};
ghost use Rattle.log_entries.specs.declared.row.Phase.{Phase};
ghost use Rattle.log_entries.specs.Rows.{served, queued};
ghost use Rattle.log_entries.specs.Setups.{IsSound};
ghost use Rattle.log_entries.specs.Scenes.{is_up, limit_of};
ghost use Rattle.slot_ledger.specs.Ledgers.{scene_in, with_cells, with_up, ledger_with_limit};
ghost use Rattle.slot_ledger.specs.Cells.{rows_in, HasRow, HasCountable, HasNode, HasTicketAt, HasNoTicket, AreBelow, with_phase, with_failure, unpinned, waiting, loosened};
ghost use Rattle.log_entries.specs.Queues.{IsQueueOf};
ghost use Rattle.slot_ledger.specs.Counts.{IsPhaseOf};

use crate::counts::Counts;
use crate::places::Places;
use base_verdict::Cause;
use due_key::Moment;
use log_entries::{Allowance, Intake, Phase, Queue, Row, Setup};
use std::alloc::{AllocError, Global};
use std::marker::Model;

/// The live requests by place, which servers are up, and what each may serve at present. Each call
/// changes only the row or the server that it names. How many requests a server serves and how many wait in a queue are counts
/// of rows, which no call counts anew.
///
/// The phases of a row, and the entries of the log that bring it there:
/// - `Loose`, in no place: `Arrive`, and `Freed` from a server.
/// - `Waiting` in a queue: `Joined` from no place; `Moved` from a server's queue into the backend's.
/// - `Serving` at a server: `Direct` from no place, `Granted` from a queue.
/// - `Told` why it isn't served: `Left`, from no place or from a queue.
///
/// `Retried` leaves it where it is served, and `Ended` takes it away from no place or once it was told.
#[derive(Drop)]
pub struct Ledger<H> {
    setup: Setup,
    ups: Vec<bool>,
    limits: Vec<Allowance>,
    places: Places<H>,
    counts: Counts,
}

impl<H> Model for Ledger<H> {
    ghost use Rattle.slot_ledger.specs.Ledgers.{Kept, IsLedgerWith};

    ghost Value = { Kept H };

    ghost view = { λ ledger. record { setup = ledger.setup; ups = ledger.ups.items; limits = ledger.limits.items; cells = ledger.places } };

    ghost invariant = { λ ledger. IsLedgerWith ledger.setup ledger.ups.items ledger.limits.items ledger.places ledger.counts };
}

impl<H: Drop> Ledger<H> {
    ghost use Rattle.slot_ledger.specs.declared.places.Cell.{Cell};

    /// Makes a ledger without a request, all its servers up and with the limits of their setup. All
    /// its memory is allocated here. `O(n)` in the places.
    pub fn new(alloc: Global, setup: Setup) -> Result<Ledger<H>, AllocError>
        requires { IsSound setup }
        ensures { IfOk result (λ ledger. ledger ≡ record { setup = setup; ups = replicate (length setup.servers) true; limits = opening_limits setup.servers; cells = replicate setup.places None }) }
    {
        let places = Places::new(alloc, setup.places)?;
        let counts = Counts::new(alloc, setup.servers.len())?;
        let (ups, limits) = opening_servers(alloc, &setup)?;
        Ok(Ledger {
            setup,
            ups,
            limits,
            places,
            counts,
        })
    }

    /// Returns its setup.
    pub fn setup(&self) -> &Setup
        ensures setup { result.now ≡ self.now.setup }
        ensures sound { IsSound self.now.setup }
        ensures places { length self.now.cells ≡ self.now.setup.places }
        ensures ups { length self.now.ups ≡ length self.now.setup.servers }
        ensures limits { length self.now.limits ≡ length self.now.setup.servers }
    {
        &self.setup
    }

    /// Says whether a server is up. `O(1)`.
    pub fn up(&self, server: usize) -> bool
        ensures { result ≡ is_up (scene_in self.now) server }
    {
        self.ups.get(server).copied().unwrap_or(false)
    }

    /// Sets whether a server is up. `O(1)`.
    pub fn set_up(&mut self, server: usize, up: bool)
        requires { server < length self.old.setup.servers }
        ensures { self.new ≡ with_up self.old server up }
    {
        self.ups[server] = up;
    }

    /// Returns a server's present limit. `O(1)`.
    pub fn limit(&self, server: usize) -> Intake
        ensures { result ≡ limit_of (scene_in self.now) server }
    {
        match self.limits.get(server) {
            None => Intake::Closed,
            Some(it) => it.limit,
        }
    }

    /// Returns the present limit of each server, in file order.
    pub fn limits(&self) -> &[Allowance]
        ensures { result.now ≡ self.now.limits }
    {
        self.limits.as_slice()
    }

    /// Sets a server's limit, or closes it, and notes what it serves. No request is stopped. `O(1)`.
    pub fn set_limit(&mut self, server: usize, limit: Intake)
        requires { server < length self.old.setup.servers }
        ensures { self.new ≡ ledger_with_limit self.old server limit }
    {
        let served = self.counts.served(server);
        self.limits[server] = Allowance { limit, served };
    }

    /// Returns the number of places.
    pub fn places(&self) -> usize
        ensures { result ≡ length self.now.cells }
    {
        self.places.places()
    }

    /// Returns the number of live requests. `O(1)`.
    pub fn len(&self) -> usize
        ensures { result ≡ count_by is_some self.now.cells }
    {
        self.places.len()
    }

    /// Returns the number of requests that a server serves. `O(1)`.
    pub fn served(&self, server: usize) -> usize
        ensures served { result ≡ served server (rows_in self.now.cells) }
        ensures fits { result ≤ 4096 }
    {
        self.counts.served(server)
    }

    /// Returns the number of requests that wait in a queue. `O(1)`.
    pub fn queued(&self, queue: Queue) -> usize
        ensures queued { result ≡ queued queue (rows_in self.now.cells) }
        ensures fits { result ≤ 4096 }
    {
        self.counts.queued(queue)
    }

    /// Puts a row at a free place, without a node, and returns the place; `loosen` gives it a node.
    /// Its ticket is above all others. `O(1)`, and `O(n)` where a higher ticket has ended.
    pub fn admit(&mut self, row: Row) -> usize
        requires room { count_by is_some self.old.cells < length self.old.cells }
        requires highest { AreBelow row.key.ticket self.old.cells }
        requires within { IsPhaseOf (length self.old.setup.servers) row.phase }
        ensures vacant { slice_get self.old.cells result ≡ Some None }
        ensures admitted { self.new ≡ with_cells self.old (slice_set self.old.cells result (Some (record { row = row; node = None }))) }
    {
        self.counts.change_phase(Phase::Loose, row.phase);
        self.places.admit(row)
    }

    /// Returns the place of a ticket's row. `O(log n)`.
    pub fn find(&self, ticket: u64) -> Option<usize>
        ensures { MatchOption result (HasNoTicket ticket self.now.cells) (λ place. HasTicketAt ticket self.now.cells place) }
    {
        self.places.find(ticket)
    }

    /// Returns the row at a place.
    pub fn row(&self, place: usize) -> Row
        requires { HasRow self.now.cells place }
        ensures { (cell : Cell H) × (slice_get self.now.cells place ≡ Some (Some cell)) × (cell.row ≡ result) }
    {
        self.places.row(place)
    }

    /// Returns the row at a place, if there is one.
    pub fn cell(&self, place: usize) -> Option<Row>
        requires { place < length self.now.cells }
        ensures { slice_get (rows_in self.now.cells) place ≡ Some result }
    {
        self.places.cell(place)
    }

    /// Gives the row a slot of a server.
    pub fn serve(&mut self, place: usize, server: usize)
        requires row { HasRow self.old.cells place }
        requires within { server < length self.old.setup.servers }
        ensures { self.new ≡ with_cells self.old (with_phase (Phase.Serving server) self.old.cells place) }
    {
        self.set_phase(place, Phase::Serving(server));
    }

    /// Frees the row's slot.
    pub fn free(&mut self, place: usize)
        requires { HasRow self.old.cells place }
        ensures { self.new ≡ with_cells self.old (with_phase Phase.Loose self.old.cells place) }
    {
        self.set_phase(place, Phase::Loose);
    }

    /// Tells the row that it isn't served.
    pub fn tell(&mut self, place: usize, cause: Cause)
        requires { HasRow self.old.cells place }
        ensures { self.new ≡ with_cells self.old (with_phase (Phase.Told cause) self.old.cells place) }
    {
        self.set_phase(place, Phase::Told(cause));
    }

    fn set_phase(&mut self, place: usize, phase: Phase)
        requires row { HasRow self.old.cells place }
        requires within { IsPhaseOf (length self.old.setup.servers) phase }
        ensures { self.new ≡ with_cells self.old (with_phase phase self.old.cells place) }
    {
        let from = self.places.row(place).phase;
        let to = phase;
        self.counts.change_phase(from, phase);
        self.places.set_phase(place, to);
    }

    /// Moves the row, which waits in a server's queue, into the backend's at this moment. Its node
    /// stays where it is.
    pub fn shift(&mut self, place: usize, since: Moment)
        requires { HasRow self.old.cells place }
        ensures { self.new ≡ with_cells self.old (with_phase (Phase.Waiting Queue.Backend since) self.old.cells place) }
    {
        self.set_phase(place, Phase::Waiting(Queue::Backend, since));
    }

    /// Counts one more failed connection of the row.
    pub fn fail(&mut self, place: usize)
        requires { HasCountable self.old.cells place }
        ensures { self.new ≡ with_cells self.old (with_failure self.old.cells place) }
    {
        self.places.fail(place);
    }

    /// Removes the row's pin.
    pub fn unpin(&mut self, place: usize)
        requires { HasRow self.old.cells place }
        ensures { self.new ≡ with_cells self.old (unpinned self.old.cells place) }
    {
        self.places.unpin(place);
    }

    /// Lets the row wait in a queue from this moment on, and returns its node.
    pub fn wait(&mut self, place: usize, queue: Queue, since: Moment) -> H
        requires row { HasNode self.old.cells place }
        requires within { IsQueueOf (length self.old.setup.servers) queue }
        ensures node { (cell : Cell H) × (slice_get self.old.cells place ≡ Some (Some cell)) × (cell.node ≡ Some result) }
        ensures waiting { self.new ≡ with_cells self.old (waiting queue since self.old.cells place) }
    {
        let from = self.places.row(place).phase;
        self.counts.change_phase(from, Phase::Waiting(queue, since));
        self.places.wait(place, queue, since)
    }

    /// Ends the row's wait, and takes its node back.
    pub fn loosen(&mut self, place: usize, node: H)
        requires { HasRow self.old.cells place }
        ensures { self.new ≡ with_cells self.old (loosened node self.old.cells place) }
    {
        let from = self.places.row(place).phase;
        self.counts.change_phase(from, Phase::Loose);
        self.places.loosen(place, node);
    }

    /// Removes the row, whose place is free then. `O(log n)`.
    pub fn end(&mut self, place: usize)
        requires { HasRow self.old.cells place }
        ensures { self.new ≡ with_cells self.old (slice_set self.old.cells place None) }
    {
        let from = self.places.row(place).phase;
        self.counts.change_phase(from, Phase::Loose);
        self.places.end(place);
    }
}

/// Returns which servers are up at first, which is all, and the limit of each.
fn opening_servers(alloc: Global, setup: &Setup) -> Result<(Vec<bool>, Vec<Allowance>), AllocError>
    ensures ups { IfOk result (λ it. it.0.items ≡ replicate (length setup.now.servers) true) }
    ensures limits { IfOk result (λ it. it.1.items ≡ opening_limits setup.now.servers) }
{
    let ups = vec![in alloc; true; setup.servers.len()]?;
    let limits = setup.opening_limits(alloc)?;
    Ok((ups, limits))
}
