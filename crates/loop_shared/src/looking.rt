//! Looks at places: the request that waits there, and its pass.

ghost use Rattle.std.specs.Prelude.{◌≡◌, ◌<◌, IfSome, None, Some};
ghost use Rattle.loop_shared.specs.Looks.{EndsLook, GivesUpUnwatched, IsLookAt, LeavesWatched};

use crate::granted::GrantedRequest;
use crate::owed::{NobodyThere, OwedLook};
use crate::parked::Parked;
use crate::shared::Shared;
use crate::watching::{Watched, nothing_to_watch, watch};
use board_seats::{Lent, Taken};
use dispatch_state::Ticketed;
use grant_board::BoardName;
use locked_book::DeskName;
use loop_table::Subject;
use mio::{Interest, Registry};
use relay_workers::Gate;
use std::os::fd::AsRawFd;
use std::sync::Wait;
use std::sync::ledger::Ledger;

/// The result of looking at a place.
pub enum Looked<N: BoardName + Ledger> {
    /// The request that waited there, with its pass.
    Granted(GrantedRequest<N>),
    /// It waits on, and some loop's poll watches its client.
    Waits,
    /// It waited on with this ticket, and the system refuses to watch its client. So it was given
    /// up, and its client is told so once its verdict is there.
    Unwatched(u64),
    /// It waits on, and no seat was idle to ask for its pass: a look is still owed.
    NoSeat(OwedLook),
    /// No request waits there.
    Nobody(NobodyThere),
}

impl<N: DeskName + Ledger> Shared<'_, N> {
    /// Looks at a place. A request that waits on has its client watched by one loop, for its leaving only.
    pub fn look_at<R: Wait, G: Gate>(
        &self,
        rt: &R,
        registry: &Registry,
        gate: &mut G,
        owed: OwedLook,
    ) -> Looked<N>
        ensures unwatched { GivesUpUnwatched N.terms N.setup result (G.notes gate.old) (G.notes gate.new) }
        ensures its { IsLookAt owed result }
    {
        let place = owed.place();
        let looked = self.look_in_cell(rt, registry, owed);
        if let Looked::Unwatched(ticket) = &looked {
            self.give_up_at(rt, gate, place, *ticket);
        }
        looked
    }

    fn look_in_cell<R: Wait>(&self, rt: &R, registry: &Registry, owed: OwedLook) -> Looked<N>
        ensures { IsLookAt owed result }
    {
        match self.cells.as_slice().get(owed.place()) {
            None => Looked::Nobody(owed.end_beyond::<N>()),
            Some(cell) => {
                let mut cell = cell.lock(rt);
                self.look_in(rt, registry, &mut *cell, owed)
            }
        }
    }

    // Takes the request of a place out with its pass, or leaves it there.
    fn look_in<R: Wait>(
        &self,
        rt: &R,
        registry: &Registry,
        cell: &mut Option<Parked>,
        owed: OwedLook,
    ) -> Looked<N>
        ensures { EndsLook owed cell.old cell.new result }
    {
        let (parked, owed) = match owed.find(cell) {
            Err(nobody) => return Looked::Nobody(nobody),
            Ok(found) => found,
        };
        let lent = self.seats.lock(rt).lend();
        match lent {
            None => {
                put_back(cell, parked);
                Looked::NoSeat(owed)
            }
            Some(lent) => match self.ask(rt, owed, lent, parked.at) {
                Some(taken) => Looked::Granted(GrantedRequest { taken, parked }),
                None => keep_watched(registry, cell, parked),
            },
        }
    }

    // Takes the pass of a place and a ticket, where it is offered. Otherwise the seat comes back.
    fn ask<R: Wait>(&self, rt: &R, owed: OwedLook, lent: Lent<N>, at: Ticketed) -> Option<Taken<N>>
        ensures { IfSome result (λ taken. (taken.held.pass.place ≡ at.place) × (taken.held.pass.ticket ≡ at.ticket)) }
    {
        match owed.ask(self.proxy.desk.board(), lent, at, self.has(at.place)) {
            Ok(taken) => Some(taken),
            Err(lent) => {
                self.return_seat(rt, lent);
                None
            }
        }
    }
}

// Leaves a request at its place without its pass, with its client watched, or noted as given up.
fn keep_watched<N: BoardName + Ledger>(
    registry: &Registry,
    cell: &mut Option<Parked>,
    parked: Parked,
) -> Looked<N>
    requires { cell.old ≡ None }
    ensures { LeavesWatched parked cell.new result }
{
    let mut parked = parked;
    let ticket = parked.at.ticket;
    parked.watched = watched_by(registry, &parked);
    if parked.watched.is_some() {
        put_back(cell, parked);
        Looked::Waits
    } else {
        parked.late = true;
        put_back(cell, parked);
        Looked::Unwatched(ticket)
    }
}

fn put_back(cell: &mut Option<Parked>, parked: Parked)
    requires { cell.old ≡ None }
    ensures { cell.new ≡ Some parked }
{
    match cell.replace(parked) {
        None => {}
        Some(_) => unreachable!(),
    }
}

// Has the poll of this registry watch the client of a waiting request, which some poll may watch
// already. `None` where the system refuses that.
fn watched_by(registry: &Registry, parked: &Parked) -> Option<Watched> {
    if parked.watched.is_some() {
        return parked.watched;
    }
    let Some(live) = parked.client.socket() else {
        return Some(nothing_to_watch(&parked.client));
    };
    let subject = Subject::Waiting {
        place: parked.at.place,
        ticket: parked.at.ticket,
    };
    let connection = live.stream().as_raw_fd();
    watch(registry, connection, subject, Interest::READABLE)
}
