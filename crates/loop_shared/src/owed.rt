//! A look at a place that is owed.
//!
//! It has no `Drop`: it ends where its place is looked at, or goes on to a loop's mailbox or its
//! gate, so no caller forgets one.

ghost use Rattle.std.specs.Prelude.{◌≡◌, ◌<◌, ◌≤◌, ◌↔◌, ℕ, None, Some, IsTrue, IfOk, IfErr, vec_len};
ghost use Rattle.base_places.specs.Sets.{Has};

use crate::parked::Parked;
use crate::shared::Shared;
use base_places::{MOST_PLACES, PlaceSet};
use board_seats::{Lent, Taken};
use dispatch_state::Ticketed;
use grant_board::{Board, BoardName};
use locked_book::DeskName;
use run_gate::SocketGate;
use std::net::{Net, TcpListener, TcpStream};
use std::sync::ledger::Ledger;
use std::time::Clock;

/// A look that is owed at a place.
pub struct OwedLook {
    place: usize,
}

/// Somebody looked at a place, and no request lay there.
#[derive(Drop)]
pub struct NobodyThere {
    // It is private, so no other module makes one.
    place: usize,
}

impl OwedLook {
    pub(crate) fn at(place: usize) -> OwedLook
        ensures { result.place ≡ place }
    {
        OwedLook { place }
    }

    /// Returns the place.
    pub fn place(&self) -> usize
        ensures { result ≡ self.now.place }
    {
        self.place
    }

    // Takes out the request that lies in the cell of its place. Where none does, the look ends.
    pub(crate) fn find(self, cell: &mut Option<Parked>) -> Result<(Parked, OwedLook), NobodyThere>
        ensures found { IfOk result (λ it. (cell.old ≡ Some it.0) × (it.1 ≡ self)) }
        ensures nobody { IfErr result (λ it. (cell.old ≡ None) × (it.place ≡ self.place)) }
        ensures empty { cell.new ≡ None }
    {
        match cell.take() {
            Some(parked) => Ok((parked, self)),
            None => {
                let OwedLook { place } = self;
                Err(NobodyThere { place })
            }
        }
    }

    // Ends it: its place is none of the board's.
    pub(crate) fn end_beyond<N: BoardName>(self) -> NobodyThere
        requires { N.terms.places ≤ self.place }
        ensures { result.place ≡ self.place }
    {
        let OwedLook { place } = self;
        NobodyThere { place }
    }

    // Asks the board for the pass of the request that lies at its place, and ends. A place that is
    // none of the board's has no pass.
    pub(crate) fn ask<N: BoardName + Ledger>(
        self,
        board: &Board,
        lent: Lent<N>,
        at: Ticketed,
        is_place: bool,
    ) -> Result<Taken<N>, Lent<N>>
        requires same_board { board.now ≡ N.board }
        requires place { IsTrue is_place ↔ (at.place < N.terms.places) }
        ensures { IfOk result (λ taken. (taken.held.pass.place ≡ at.place) × (taken.held.pass.ticket ≡ at.ticket)) }
    {
        let OwedLook { place: _ } = self;
        if is_place {
            lent.take(board, at.place, at.ticket)
        } else {
            Err(lent)
        }
    }

    // Adds its place to those at which a loop is asked to look. A place beyond those of any board
    // is no place.
    pub(crate) fn note(self, places: &mut PlaceSet)
        ensures noted { self.place < 4096 → Has places.new self.place }
        ensures kept { (place : ℕ) → Has places.old place → Has places.new place }
    {
        let OwedLook { place } = self;
        if place < MOST_PLACES {
            places.insert(place);
        }
    }

    /// Has the gate's loop look there later.
    pub fn put_off<'a, R: Net<Listener = TcpListener, Stream = TcpStream> + Clock>(
        self,
        gate: &mut SocketGate<'a, R>,
    )
        ensures owed { self.place < 4096 → Has gate.new.woken self.place }
        ensures kept { (place : ℕ) → Has gate.old.woken place → Has gate.new.woken place }
    {
        let mut places = PlaceSet::new();
        self.note(&mut places);
        gate.add_woken(&places);
    }

    // Ends it: no loop has this number, so nobody looks.
    pub(crate) fn end_without_loop<N: DeskName + Ledger>(self, _shared: &Shared<'_, N>, home: usize)
        requires { vec_len _shared.now.mail ≤ home }
    {
        let OwedLook { place: _ } = self;
    }
}
