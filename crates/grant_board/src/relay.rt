ghost use Rattle.std.specs.Prelude.{◌≡◌, ◌+◌, ◌<◌, ◌≤◌, true, false, length, slice_index, Contains};
ghost use Rattle.grant_board.specs.BoardWords.{MayEnd};
ghost use Rattle.base_lists.specs.Weights.{total};
ghost use Rattle.grant_board.specs.Views.{Grant, count_at, count_of};
ghost use Rattle.grant_board.specs.Ruled.{RelayRuled, MeetRuled};
ghost use Rattle.grant_board.specs.RelayCalls.{Answers, relay_looked, post_after, split_after, join_after, new_relay};

use crate::board::Board;
use crate::laws::offered_in;
use crate::pass::{Pass, Taking};
use crate::relaying::Relaying;
use crate::tally::Tally;
use base_verdict::Ending;
use std::marker::Model;

/// A thread's seat, which takes passes and posts their endings. Contracts see its board and its view.
#[derive(Drop)]
pub struct RelaySeat {
    pub(crate) relaying: Relaying,
    pub(crate) first: bool,
    pub(crate) tally: Tally,
}

impl Model for RelaySeat {
    ghost use Rattle.grant_board.specs.RelayCalls.{Relay};
    ghost use Rattle.grant_board.specs.Counted.{IsCounted};

    ghost Value = { Relay };

    ghost view = { λ s. s.relaying };

    ghost invariant = { λ s. IsCounted s.relaying s.first s.tally };
}

/// What two seats that meet learn of a server.
#[derive(Clone, Copy, Debug, PartialEq, Eq)]
pub struct Met {
    /// The number of the server's passes that the two have together.
    pub passes: u64,
    /// One more than the server's bound; 0 where it has none.
    pub bound: u64,
}

impl RelaySeat {
    /// Says whether it is the seat that `Board::open` returned, which alone splits off and joins others.
    pub fn first(&self) -> bool
        ensures { result ≡ self.now.view.first }
    {
        self.first
    }

    /// Takes the pass of the ticket, where it is offered at the place. One load, and one
    /// compare-exchange where the load found the offer; that fails where another thread's step came between.
    /// Allocates nothing.
    pub fn try_take(&mut self, board: &Board, place: usize, ticket: u64) -> Taking
        requires same_board { self.old.board ≡ board.now }
        requires in_range { place < self.old.view.terms.places }
        ensures answer { Answers self.old.view self.new.view place ticket result }
        ensures board { self.new.board ≡ self.old.board }
        ensures ruled { RelayRuled self.new.view }
    {
        let number = self.relaying.glance(board, place);
        let Some(verdict) = offered_in(number, ticket) else {
            return Taking::NotYet;
        };
        if !self.relaying.take(board, place, ticket, verdict) {
            return Taking::NotYet;
        }
        self.tally.add(verdict);
        Taking::Taken(Pass {
            place,
            ticket,
            verdict,
        })
    }

    /// Posts the pass, with how its exchange ended. One step, without allocating.
    pub fn post(&mut self, board: &Board, pass: Pass, ending: Ending)
        requires same_board { self.old.board ≡ board.now }
        requires held { Contains self.old.view.passes pass }
        requires may_end { MayEnd pass.verdict ending }
        ensures posted { self.new ≡ record self.old { view = post_after self.old.view pass ending } }
        ensures weighs { (weight : Grant → _) → total weight self.new.view.passes + weight pass ≡ total weight self.old.view.passes }
        ensures ruled { RelayRuled self.new.view }
    {
        let Pass {
            place,
            ticket,
            verdict,
        } = pass;
        self.relaying.post(board, place, ticket, verdict, ending);
        self.tally.remove(verdict);
    }

    /// Returns the other seat unchanged, the number of the server's passes that the two have
    /// together, and the server's bound at that step. Three steps, without allocating.
    pub fn meet(&mut self, board: &Board, other: RelaySeat, server: usize) -> (RelaySeat, Met)
        requires same_board { self.old.board ≡ board.now }
        requires other_board { other.board ≡ board.now }
        requires server { server < length self.old.view.terms.limits }
        ensures back { result.0 ≡ other }
        ensures passes { result.1.passes ≡ count_of server self.old.view.passes + count_of server other.view.passes }
        ensures within_bound { 0 < result.1.bound → result.1.passes < result.1.bound }
        ensures within_places { result.1.passes ≤ self.old.view.terms.places }
        ensures apart { (place : _) → count_at place self.old.view.passes + count_at place other.view.passes ≤ 1 }
        ensures ruled { MeetRuled self.new.view other.view server result.1.bound }
        ensures looked { self.new ≡ record self.old { view = relay_looked self.old.view (self.old.view.terms.places + server) result.1.bound } }
    {
        let mine = &self.tally;
        let RelaySeat {
            relaying,
            first,
            tally,
        } = other;
        let passes = u64::from(mine.of_server[server]) + u64::from(tally.of_server[server]);
        let (relaying, bound) = self.relaying.meet(board, relaying, server);
        let other = RelaySeat {
            relaying,
            first,
            tally,
        };
        (other, Met { passes, bound })
    }

    /// Splits off a seat for another thread. Allocates nothing.
    pub fn split(&mut self, board: &Board) -> RelaySeat
        requires same_board { self.old.board ≡ board.now }
        requires first { self.old.view.first ≡ true }
        ensures parent { self.new ≡ record self.old { view = split_after self.old.view } }
        ensures child { result ≡ record { board = self.old.board; view = new_relay self.old.view.terms false } }
    {
        let relaying = self.relaying.split(board);
        RelaySeat {
            relaying,
            first: false,
            tally: Tally::none(),
        }
    }

    /// Joins another seat, with its passes and all that it took and posted. Allocates nothing.
    pub fn join(&mut self, board: &Board, other: RelaySeat)
        requires same_board { self.old.board ≡ board.now }
        requires other_board { other.board ≡ board.now }
        requires first { self.old.view.first ≡ true }
        ensures joined { self.new ≡ record self.old { view = join_after self.old.view other.view } }
        ensures ruled { RelayRuled self.new.view }
    {
        let RelaySeat {
            relaying,
            first: _,
            tally,
        } = other;
        self.relaying.join(board, relaying);
        self.tally.merge(&tally);
    }
}
