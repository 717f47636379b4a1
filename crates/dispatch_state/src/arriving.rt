ghost use Rattle.std.specs.Prelude.{◌≡◌, ◌<◌, ◌^◌, length, None, Some, IfSome, count_by, is_some, slice_get, slice_set, IfOk, OnErr, pos, ◌+ℤ◌};
ghost use Rattle.slot_ledger.specs.Ledgers.{with_cells};
ghost use Rattle.slot_ledger.specs.Cells.{AreBelow};
ghost use Rattle.log_entries.specs.declared.entry.Entry.TheVariants.{Arrive};
ghost use Rattle.log_entries.specs.Histories.{state_of, effective, refuses_arrival};
ghost use Rattle.log_entries.specs.Rows.{pin_of};
ghost use Rattle.dispatch_state.specs.Histories.{with_entry, IsTicketAt, MayAccept};

use crate::position::Ticketed;
use crate::state::DispatchState;
use due_key::{Class, Due, Key, Moment, Offset};
use log_entries::{Arrival, Entry, Phase, Row};
use pend_queue::PendQueue;
use slot_ledger::Ledger;
use std::alloc::{AllocError, Global};

/// Arrivals.
impl<Q: PendQueue<Key, usize>> DispatchState<Q> {
    /// An arrival begins. Its row stands at a free place and is in no queue yet. The node that it
    /// will wait with is the only allocation.
    pub fn arrive(
        &mut self,
        alloc: Global,
        moment: Moment,
        class: Class,
        offset: Offset,
        pin: Option<usize>,
    ) -> Result<Ticketed, AllocError>
        requires begins { MayAccept self.old (refuses_arrival self.old pin) }
        requires room { length self.old.log < self.old.setup.log }
        ensures ok { IfOk result (λ it. self.new ≡ with_entry self.old (Arrive (effective self.old moment) (record { ticket = it.ticket; class = class; due = pos (effective self.old moment) +ℤ offset; pin = pin; place = it.place }))) }
        ensures pin { IfOk result (λ it. pin_of it.ticket (state_of self.new).rows ≡ pin) }
        ensures at { IfOk result (λ it. IsTicketAt (state_of self.new).rows it) }
        ensures err { OnErr result (self.new ≡ self.old) }
    {
        let now = self.position.last.later(moment);
        let ticket = self.position.ticket + 1;
        let due = Due::of(now, offset);
        let key = class.key(due, ticket);
        let place = admit::<Q>(
            alloc,
            &mut self.ledger,
            Row {
                key,
                pin,
                failures: 0,
                phase: Phase::Loose,
            },
        )?;
        let it = Ticketed { place, ticket };
        self.log
            .note(Entry::Arrive(now, arrival_of(it, class, due, pin)));
        self.position.last = now;
        self.position.ticket = ticket;
        Ok(it)
    }
}

/// Returns what an entry keeps of an arrival. Its integers are small, since there are at most 4,096
/// places and 64 servers.
fn arrival_of(it: Ticketed, class: Class, due: Due, pin: Option<usize>) -> Arrival
    requires place { it.place < 2 ^ 16 }
    requires pin { IfSome pin (λ server. server < 2 ^ 8) }
    ensures { result ≡ record { ticket = it.ticket; due = due; class = class; place = it.place; pin = pin } }
{
    Arrival {
        ticket: it.ticket,
        due,
        class,
        place: it.place as u16,
        pin: match pin {
            Some(server) => Some(server as u8),
            None => None,
        },
    }
}

/// Puts a row with the highest ticket at a free place, with the node that it will wait with, and
/// returns the place.
fn admit<Q: PendQueue<Key, usize>>(
    alloc: Global,
    ledger: &mut Ledger<Q::Node>,
    row: Row,
) -> Result<usize, AllocError>
    requires room { count_by is_some ledger.old.cells < length ledger.old.cells }
    requires highest { AreBelow row.key.ticket ledger.old.cells }
    requires loose { row.phase ≡ Phase.Loose }
    ensures vacant { IfOk result (λ place. slice_get ledger.old.cells place ≡ Some None) }
    ensures admitted { IfOk result (λ place. (node : Q.Node) × (Q.pair_of node ≡ (row.key, place)) × (ledger.new ≡ with_cells ledger.old (slice_set ledger.old.cells place (Some (record { row = row; node = Some node }))))) }
    ensures err { OnErr result (ledger.new ≡ ledger.old) }
{
    let key = row.key;
    let place = ledger.admit(row);
    match node_for::<Q>(alloc, key, place) {
        Ok(node) => {
            ledger.loosen(place, node);
            Ok(place)
        }
        Err(error) => {
            ledger.end(place);
            Err(error)
        }
    }
}

/// Allocates what a request with this key needs to wait.
fn node_for<Q: PendQueue<Key, usize>>(
    alloc: Global,
    key: Key,
    place: usize,
) -> Result<Q::Node, AllocError>
    ensures { IfOk result (λ node. Q.pair_of node ≡ (key, place)) }
{
    Ok(Q::node(alloc, key, place)?)
}
