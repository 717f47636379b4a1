ghost use Rattle.std.specs.Prelude.{◌≡◌, []};

use grant_board::{BoardName, RelaySeat};
use std::marker::PhantomData;

/// A relay's seat of the board that N names, without a pass.
#[derive(Drop)]
pub struct Idle<N: BoardName> {
    pub seat: RelaySeat,
    name: PhantomData<N>,
    ghost named: { seat.board ≡ N.board },
    ghost terms: { seat.view.terms ≡ N.terms },
    ghost idle: { seat.view.passes ≡ [] },
}

impl<N: BoardName> Idle<N> {
    pub fn new(seat: RelaySeat) -> Idle<N>
        requires named { seat.board ≡ N.board }
        requires terms { seat.view.terms ≡ N.terms }
        requires idle { seat.view.passes ≡ [] }
        ensures { result.seat ≡ seat }
    {
        Idle {
            seat,
            name: PhantomData,
        }
    }

    /// Returns the seat.
    pub fn seat(self) -> RelaySeat
        ensures seat { result ≡ self.seat }
        ensures named { result.board ≡ N.board }
        ensures terms { result.view.terms ≡ N.terms }
        ensures idle { result.view.passes ≡ [] }
    {
        let Idle { seat, name: _ } = self;
        seat
    }
}
