ghost use Rattle.std.specs.Prelude.{◌≡◌, [], ◌∷◌};
ghost use Rattle.grant_board.specs.BoardWords.{MayEnd};
ghost use Rattle.grant_board.specs.RelayCalls.{post_after};
ghost use Rattle.grant_board.specs.Ruled.{RelayRuled};

use crate::idle::Idle;
use base_verdict::{Ending, Verdict};
use grant_board::{Board, BoardName, Pass, RelaySeat};
use std::marker::PhantomData;

/// A relay's seat of the board that N names, with its pass, which is its only one. It has no
/// `Drop`, since the pass has none: it has to be posted, or taken apart.
pub struct Held<N: BoardName> {
    pub(crate) seat: RelaySeat,
    pub(crate) pass: Pass,
    pub(crate) name: PhantomData<N>,
    ghost named: { seat.board ≡ N.board },
    ghost terms: { seat.view.terms ≡ N.terms },
    ghost held: { seat.view.passes ≡ pass ∷ [] },
}

impl<N: BoardName> Held<N> {
    /// Joins a seat and its pass, the only one that it has.
    pub fn new(seat: RelaySeat, pass: Pass) -> Held<N>
        requires named { seat.board ≡ N.board }
        requires terms { seat.view.terms ≡ N.terms }
        requires held { seat.view.passes ≡ pass ∷ [] }
        ensures seat { result.seat ≡ seat }
        ensures pass { result.pass ≡ pass }
    {
        Held {
            seat,
            pass,
            name: PhantomData,
        }
    }

    pub fn place(&self) -> usize
        ensures { result ≡ self.now.pass.place }
    {
        self.pass.place()
    }

    pub fn ticket(&self) -> u64
        ensures { result ≡ self.now.pass.ticket }
    {
        self.pass.ticket()
    }

    pub fn verdict(&self) -> Verdict
        ensures { result ≡ self.now.pass.verdict }
    {
        self.pass.verdict()
    }

    /// Returns the pass, for calls that ask for one. While it is borrowed it can't be posted.
    pub fn pass(&self) -> &Pass
        ensures { result.now ≡ self.now.pass }
    {
        &self.pass
    }

    /// Posts the pass, with how its exchange ended. One step, without allocating.
    pub fn post(self, board: &Board, ending: Ending) -> Idle<N>
        requires same_board { board.now ≡ N.board }
        requires may_end { MayEnd self.pass.verdict ending }
        ensures posted { result.seat.view ≡ post_after self.seat.view self.pass ending }
        ensures ruled { RelayRuled result.seat.view }
    {
        let (mut seat, pass) = self.into_parts();
        seat.post(board, pass, ending);
        Idle::new(seat)
    }

    /// Separates the seat and its pass, for a call that takes the pass. `Idle::new` is the way back.
    pub fn into_parts(self) -> (RelaySeat, Pass)
        ensures seat { result.0 ≡ self.seat }
        ensures pass { result.1 ≡ self.pass }
        ensures named { result.0.board ≡ N.board }
        ensures terms { result.0.view.terms ≡ N.terms }
        ensures holds { result.0.view.passes ≡ result.1 ∷ [] }
    {
        let Held {
            seat,
            pass,
            name: _,
        } = self;
        (seat, pass)
    }
}
