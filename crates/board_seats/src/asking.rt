ghost use Rattle.std.specs.Prelude.{◌≡◌, ◌<◌};
ghost use Rattle.grant_board.specs.RelayCalls.{Answers};
ghost use Rattle.grant_board.specs.Ruled.{RelayRuled};
ghost use Rattle.board_seats.specs.Asking.{seat_of, taking_of};

use crate::held::Held;
use crate::idle::Idle;
use grant_board::{Board, BoardName, Taking};
use std::marker::PhantomData;

/// The result for a seat without a pass that asked for a ticket.
pub enum TakeResult<N: BoardName> {
    /// It has the pass.
    Held(Held<N>),
    /// The ticket isn't offered, or another seat was faster.
    NotYet(Idle<N>),
}

impl<N: BoardName> Idle<N> {
    /// Takes the pass of the ticket, if it is offered at the place. At most two steps, without allocating.
    pub fn take(self, board: &Board, place: usize, ticket: u64) -> TakeResult<N>
        requires same_board { board.now ≡ N.board }
        requires in_range { place < N.terms.places }
        ensures answer { Answers self.seat.view (seat_of result).view place ticket (taking_of result) }
        ensures ruled { RelayRuled (seat_of result).view }
    {
        let mut seat = self.seat();
        match seat.try_take(board, place, ticket) {
            Taking::Taken(pass) => TakeResult::Held(Held {
                seat,
                pass,
                name: PhantomData,
            }),
            Taking::NotYet => TakeResult::NotYet(Idle::new(seat)),
        }
    }
}
