//! The source of passes: a board with one place, and the seat that is lent there.

ghost use Rattle.std.specs.Prelude.{◌≡◌, ◌<◌, ◌≤◌, [], IfSome};
ghost use Rattle.relay_http.specs.States.{Serves};

use base_verdict::{Ending, Verdict};
use board_seats::{Idle, Seats, Taken};
use exchange_seated::Posting;
use grant_board::{Board, BoardName, RelaySeat};
use std::alloc::{AllocError, Global};
use std::sync::ledger::{Blank, Ledger};

/// A board, and its seats.
#[derive(Drop)]
pub(crate) struct Site<'a, N: BoardName + Ledger> {
    board: &'a Board,
    seats: Seats<N>,
    ghost named: { board.now ≡ N.board },
    ghost placed: { 0 < N.terms.places },
}

impl<'a, N: BoardName + Ledger> Site<'a, N> {
    /// Opens a board with one seat.
    pub(crate) fn open(
        alloc: Global,
        board: &'a Board,
        relay: RelaySeat,
        blank: Blank,
    ) -> Result<Site<'a, N>, AllocError>
        requires named { (board.now ≡ N.board) × (relay.board ≡ N.board) × (relay.view.terms ≡ N.terms) }
        requires idle { relay.view.passes ≡ [] }
        requires place { 0 < N.terms.places }
        requires ledger { (blank.name ≡ N.name) × (blank.parts ≡ N.parts) × (1 ≤ blank.parts) }
    {
        let idle = vec![in alloc; Idle::new(relay)]?;
        Ok(Site {
            board,
            seats: Seats::open(idle, blank),
        })
    }

    /// Takes the pass of the place's first ticket, where it is offered and is for a server's slot.
    pub(crate) fn take(&mut self) -> Option<Taken<N>>
        ensures { IfSome result (λ taken. Serves taken.held.pass.verdict) }
    {
        let lent = self.seats.lend()?;
        match lent.take(self.board, 0, 1) {
            Err(lent) => {
                self.seats.give_back(lent);
                None
            }
            Ok(taken) => match taken.verdict() {
                Verdict::Serve(_) => Some(taken),
                Verdict::Told(_) => {
                    let lent = taken.post(self.board, Ending::Done);
                    self.seats.give_back(lent);
                    None
                }
            },
        }
    }

    /// Posts a pass.
    pub(crate) fn post(&mut self, posting: Posting<N>) {
        let lent = posting.post(self.board);
        self.seats.give_back(lent);
    }
}
