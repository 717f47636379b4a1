// A relay's seat of the table, a step at a time.
ghost use Rattle.std.specs.Prelude.{◌≡◌, ◌≢◌, ◌+◌, ◌<◌, ◌≤◌, true, false, length, Contains};
ghost use Rattle.grant_board.specs.declared.laws.Word.TheVariants.{Offered, Posted};
ghost use Rattle.grant_board.specs.BoardWords.{encode_of, IsWord, IsAmong};
ghost use Rattle.base_lists.specs.Weights.{total};
ghost use Rattle.grant_board.specs.Views.{Grant, grant};
ghost use Rattle.grant_board.specs.Ruled.{RelayRuled, MeetRuled};
ghost use Rattle.grant_board.specs.RelayCalls.{relay_looked, take_after, post_after, split_after, join_after, new_relay};
ghost use Rattle.grant_board.specs.Plays.{AreApart};

use crate::board::Board;
use crate::laws::{Word, encode};
use crate::plays::{Beside, Branch, Count, Glance, Meet, Post, Take};
use crate::view::View;
use atomic_table::Seat;
use base_verdict::{Ending, Verdict};
use std::marker::Model;

#[derive(Drop)]
pub struct Relaying {
    pub(crate) seat: Seat<(), View>,
    pub(crate) places: usize,
}

impl Model for Relaying {
    ghost use Rattle.grant_board.specs.RelayCalls.{Relay};
    ghost use Rattle.grant_board.specs.Plays.{relay_of};
    ghost use Rattle.grant_board.specs.Parts.{IsRelaySeat};

    ghost Value = { Relay };

    ghost view = { λ s. record { board = s.seat.table_id; view = relay_of s.seat.me.0.relays } };

    ghost invariant = { λ s. IsRelaySeat s.seat.table_id s.places s.seat.me };
}

impl Relaying {
    // Returns the word of a place.
    pub fn glance(&mut self, board: &Board, place: usize) -> u64
        requires same_board { self.old.board ≡ board.now }
        requires in_range { place < self.old.view.terms.places }
        ensures looked { self.new ≡ record self.old { view = relay_looked self.old.view place result } }
        ensures is_place { place < self.old.board.words }
        ensures ruled { RelayRuled self.new.view }
    {
        board.table.shared.load::<Glance>(&mut self.seat, place)
    }

    // Exchanges the offered word for the taken one. Says whether that succeeded.
    pub fn take(&mut self, board: &Board, place: usize, ticket: u64, verdict: Verdict) -> bool
        requires same_board { self.old.board ≡ board.now }
        requires in_range { place < self.old.view.terms.places }
        requires word { IsWord (Offered ticket verdict) }
        ensures took { result ≡ true → self.new ≡ record self.old { view = take_after self.old.view (grant place ticket verdict) } }
        ensures room { result ≡ true → length self.old.view.passes < self.old.view.terms.places }
        ensures among { result ≡ true → IsAmong (length self.old.view.terms.limits) verdict }
        ensures late { result ≡ false → (word : _) × (self.new ≡ record self.old { view = relay_looked self.old.view place word }) × (word ≢ encode_of (Offered ticket verdict)) }
        ensures ruled { RelayRuled self.new.view }
    {
        let offered = encode(Word::Offered(ticket, verdict));
        let taken = encode(Word::Taken(ticket, verdict));
        board
            .table
            .shared
            .compare_exchange::<Take>(&mut self.seat, place, offered, taken)
            == offered
    }

    pub fn post(
        &mut self,
        board: &Board,
        place: usize,
        ticket: u64,
        verdict: Verdict,
        ending: Ending,
    )
        requires same_board { self.old.board ≡ board.now }
        requires in_range { place < self.old.board.words }
        requires word { IsWord (Posted ticket verdict ending) }
        requires held { Contains self.old.view.passes (grant place ticket verdict) }
        ensures posted { self.new ≡ record self.old { view = post_after self.old.view (grant place ticket verdict) ending } }
        ensures ruled { RelayRuled self.new.view }
        ensures weighs { (weight : Grant → _) → total weight self.new.view.passes + weight (grant place ticket verdict) ≡ total weight self.old.view.passes }
    {
        let posted = encode(Word::Posted(ticket, verdict, ending));
        board
            .table
            .shared
            .store::<Post>(&mut self.seat, place, posted);
    }

    // Returns the other seat unchanged and the server's bound; this seat adds the look at it, and
    // the two seats' passes together respect the bound.
    pub fn meet(&mut self, board: &Board, other: Relaying, server: usize) -> (Relaying, u64)
        requires same_board { self.old.board ≡ board.now }
        requires other_board { other.board ≡ board.now }
        requires server { server < length self.old.view.terms.limits }
        ensures back { result.0 ≡ other }
        ensures looked { self.new ≡ record self.old { view = relay_looked self.old.view (self.old.view.terms.places + server) result.1 } }
        ensures ruled { MeetRuled self.new.view other.view server result.1 }
        ensures apart { AreApart self.old.view.terms.places server result.1 self.old.view.passes other.view.passes }
    {
        let Relaying { seat, places } = other;
        board.table.shared.join_seat::<Beside>(&mut self.seat, seat);
        let word = self.places + server;
        let bound = board.table.shared.load::<Meet>(&mut self.seat, word);
        let seat = board.table.shared.split_seat::<Beside>(&mut self.seat);
        (Relaying { seat, places }, bound)
    }

    pub fn split(&mut self, board: &Board) -> Relaying
        requires same_board { self.old.board ≡ board.now }
        requires first { self.old.view.first ≡ true }
        ensures parent { self.new ≡ record self.old { view = split_after self.old.view } }
        ensures child { result ≡ record { board = self.old.board; view = new_relay self.old.view.terms false } }
    {
        let places = self.places;
        let seat = board.table.shared.split_seat::<Branch>(&mut self.seat);
        Relaying { seat, places }
    }

    // The load shows that both seats' passes fit on the board.
    pub fn join(&mut self, board: &Board, other: Relaying)
        requires same_board { self.old.board ≡ board.now }
        requires other_board { other.board ≡ board.now }
        requires first { self.old.view.first ≡ true }
        ensures joined { self.new ≡ record self.old { view = join_after self.old.view other.view } }
        ensures ruled { RelayRuled self.new.view }
        ensures room { length self.new.view.passes ≤ self.new.view.terms.places }
    {
        let Relaying { seat, places: _ } = other;
        board.table.shared.join_seat::<Branch>(&mut self.seat, seat);
        board.table.shared.load::<Count>(&mut self.seat, 0);
    }
}
