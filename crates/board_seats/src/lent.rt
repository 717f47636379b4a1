ghost use Rattle.std.specs.Prelude.{◌≡◌, ◌<◌, [], ◌∷◌, IfOk, IfErr};
ghost use Rattle.grant_board.specs.BoardWords.{MayEnd};
ghost use Rattle.grant_board.specs.RelayCalls.{Answers, post_after};
ghost use Rattle.grant_board.specs.Ruled.{RelayRuled};
ghost use Rattle.grant_board.specs.declared.pass.Taking.TheVariants as taking;

use crate::asking::TakeResult;
use crate::counted::LentThing;
use crate::held::Held;
use crate::idle::Idle;
use base_verdict::{Ending, Verdict};
use grant_board::{Board, BoardName, Pass, RelaySeat};
use std::sync::ledger::Ledger;

/// A seat that is lent, without a pass. It has no `Drop`: it has to be given back.
pub struct Lent<N: BoardName + Ledger> {
    idle: Idle<N>,
    out: LentThing<N>,
}

/// A seat that is lent, with its pass. It has no `Drop`: its pass has to be posted, and the seat given back.
pub struct Taken<N: BoardName + Ledger> {
    held: Held<N>,
    out: LentThing<N>,
}

impl<N: BoardName + Ledger> Lent<N> {
    pub(crate) fn of(idle: Idle<N>, out: LentThing<N>) -> Lent<N>
        ensures { result.idle ≡ idle }
    {
        Lent { idle, out }
    }

    pub(crate) fn into_parts(self) -> (Idle<N>, LentThing<N>)
        ensures { result.0 ≡ self.idle }
    {
        let Lent { idle, out } = self;
        (idle, out)
    }

    /// Takes the pass of the ticket, as `Idle::take` does. Where that fails the seat stays lent.
    pub fn take(self, board: &Board, place: usize, ticket: u64) -> Result<Taken<N>, Lent<N>>
        requires same_board { board.now ≡ N.board }
        requires in_range { place < N.terms.places }
        ensures taken { IfOk result (λ got. Answers self.idle.seat.view got.held.seat.view place ticket (taking.Taken got.held.pass)) }
        ensures pass { IfOk result (λ got. (got.held.pass.place ≡ place) × (got.held.pass.ticket ≡ ticket)) }
        ensures back { IfErr result (λ lent. Answers self.idle.seat.view lent.idle.seat.view place ticket taking.NotYet) }
        ensures ruled { IfOk result (λ got. RelayRuled got.held.seat.view) }
        ensures ruled_back { IfErr result (λ lent. RelayRuled lent.idle.seat.view) }
    {
        let Lent { idle, out } = self;
        match idle.take(board, place, ticket) {
            TakeResult::Held(held) => Ok(Taken { held, out }),
            TakeResult::NotYet(idle) => Err(Lent { idle, out }),
        }
    }
}

impl<N: BoardName + Ledger> Taken<N> {
    /// Joins a lent seat and its pass.
    pub fn new(seat: RelaySeat, pass: Pass, out: LentThing<N>) -> Taken<N>
        requires named { seat.board ≡ N.board }
        requires terms { seat.view.terms ≡ N.terms }
        requires held { seat.view.passes ≡ pass ∷ [] }
        ensures seat { result.held.seat ≡ seat }
        ensures pass { result.held.pass ≡ pass }
    {
        Taken {
            held: Held::new(seat, pass),
            out,
        }
    }

    pub fn place(&self) -> usize
        ensures { result ≡ self.now.held.pass.place }
    {
        self.held.place()
    }

    pub fn verdict(&self) -> Verdict
        ensures { result ≡ self.now.held.pass.verdict }
    {
        self.held.verdict()
    }

    /// Posts the pass, as `Held::post` does. The seat stays lent.
    pub fn post(self, board: &Board, ending: Ending) -> Lent<N>
        requires same_board { board.now ≡ N.board }
        requires may_end { MayEnd self.held.pass.verdict ending }
        ensures posted { result.idle.seat.view ≡ post_after self.held.seat.view self.held.pass ending }
        ensures ruled { RelayRuled result.idle.seat.view }
    {
        let Taken { held, out } = self;
        Lent {
            idle: held.post(board, ending),
            out,
        }
    }

    /// Separates the seat, its pass, and the token that the seat is lent.
    pub fn into_parts(self) -> (RelaySeat, Pass, LentThing<N>)
        ensures seat { result.0 ≡ self.held.seat }
        ensures pass { result.1 ≡ self.held.pass }
        ensures named { result.0.board ≡ N.board }
        ensures terms { result.0.view.terms ≡ N.terms }
        ensures holds { result.0.view.passes ≡ result.1 ∷ [] }
    {
        let Taken { held, out } = self;
        let (seat, pass) = held.into_parts();
        (seat, pass, out)
    }
}
