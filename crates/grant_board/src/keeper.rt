ghost use Rattle.std.specs.Prelude.{◌≡◌, ◌^◌, ◌<◌, IfSome, IfNone, length};
ghost use Rattle.grant_board.specs.Views.{grant, count_at};
ghost use Rattle.grant_board.specs.Ruled.{KeeperRuled, VouchRuled};
ghost use Rattle.grant_board.specs.KeeperCalls.{HasRoom, offer_after, Collects, FindsUnposted, MayLimit, limit_after, Vouches};

use crate::board::Board;
use crate::laws::{Word, encode, posted_in};
use crate::plays::{Beside, Clear, Limit, Offer, See, Vouch};
use crate::relay::RelaySeat;
use crate::relaying::Relaying;
use crate::returned::Return;
use crate::view::View;
use atomic_table::Seat;
use base_verdict::Verdict;
use std::marker::Model;

/// The seat of the one thread at a time that offers verdicts, collects endings and sets bounds.
/// Contracts see its board and its view.
#[derive(Drop)]
pub struct KeeperSeat {
    pub(crate) seat: Seat<(), View>,
    pub(crate) places: usize,
}

impl Model for KeeperSeat {
    ghost use Rattle.grant_board.specs.KeeperCalls.{Keeper};
    ghost use Rattle.grant_board.specs.Plays.{keeper_of};
    ghost use Rattle.grant_board.specs.Parts.{IsKeeperSeat};

    ghost Value = { Keeper };

    ghost view = { λ s. record { board = s.seat.table_id; view = (keeper_of s.seat.me.0.keepers).view } };

    ghost invariant = { λ s. IsKeeperSeat s.seat.table_id s.places s.seat.me };
}

impl KeeperSeat {
    /// Offers a verdict to the thread that asks for the ticket. One step, without allocating.
    pub fn offer(&mut self, board: &Board, place: usize, ticket: u64, verdict: Verdict)
        requires same_board { self.old.board ≡ board.now }
        requires in_range { place < self.old.view.terms.places }
        requires free { count_at place self.old.view.out ≡ 0 }
        requires ticket_fits { ticket < 2 ^ 40 }
        requires has_room { HasRoom self.old.view verdict }
        ensures offered { self.new ≡ record self.old { view = offer_after self.old.view (grant place ticket verdict) } }
        ensures ruled { KeeperRuled self.new.view }
    {
        let seat = &mut self.seat;
        let word = encode(Word::Offered(ticket, verdict));
        board.table.shared.store::<Offer>(seat, place, word);
    }

    /// Collects what was posted at the place, which is empty afterwards; `None` where nothing is
    /// posted there. One load, and one store where it found something, without allocating.
    pub fn collect(&mut self, board: &Board, place: usize) -> Option<Return>
        requires same_board { self.old.board ≡ board.now }
        requires in_range { place < self.old.view.terms.places }
        ensures some { IfSome result (λ back. Collects self.old.view self.new.view place back) }
        ensures none { IfNone result (FindsUnposted self.old.view self.new.view place) }
        ensures board { self.new.board ≡ self.old.board }
        ensures ruled { KeeperRuled self.new.view }
    {
        let number = board.table.shared.load::<See>(&mut self.seat, place);
        let (ticket, _verdict, ending) = posted_in(number)?;
        let empty = encode(Word::Empty);
        board
            .table
            .shared
            .store::<Clear>(&mut self.seat, place, empty);
        Some(Return {
            place,
            ticket,
            ending,
        })
    }

    /// Sets a server's mark: one more than its bound, or 0 where it has none. One step, without allocating.
    pub fn limit(&mut self, board: &Board, server: usize, bound: u64)
        requires same_board { self.old.board ≡ board.now }
        requires may_limit { MayLimit self.old.view server bound }
        ensures limited { self.new ≡ record self.old { view = limit_after self.old.view server bound } }
        ensures ruled { KeeperRuled self.new.view }
    {
        let seat = &mut self.seat;
        let word = self.places + server;
        board.table.shared.store::<Limit>(seat, word, bound);
    }

    /// Returns the relay's seat unchanged, and the number of its passes, each of which is out.
    /// Three steps, without allocating.
    pub fn vouch(&mut self, board: &Board, relay: RelaySeat) -> (RelaySeat, u64)
        requires same_board { self.old.board ≡ board.now }
        requires relay_board { relay.board ≡ board.now }
        ensures back { result.0 ≡ relay }
        ensures count { result.1 ≡ length relay.view.passes }
        ensures vouched { Vouches self.old.view self.new.view relay.view.passes }
        ensures board { self.new.board ≡ self.old.board }
        ensures ruled { VouchRuled self.new.view relay.view }
    {
        let RelaySeat {
            relaying,
            first,
            tally,
        } = relay;
        let relaying = self.vouch_for(board, relaying);
        let relay = RelaySeat {
            relaying,
            first,
            tally,
        };
        (relay, u64::from(tally.all))
    }

    // Returns the relay's part unchanged: its passes are out.
    fn vouch_for(&mut self, board: &Board, relaying: Relaying) -> Relaying
        requires same_board { self.old.board ≡ board.now }
        requires relay_board { relaying.board ≡ board.now }
        ensures back { result ≡ relaying }
        ensures vouched { Vouches self.old.view self.new.view relaying.view.passes }
        ensures board { self.new.board ≡ self.old.board }
        ensures ruled { VouchRuled self.new.view relaying.view }
    {
        let Relaying { seat, places } = relaying;
        board.table.shared.join_seat::<Beside>(&mut self.seat, seat);
        board.table.shared.load::<Vouch>(&mut self.seat, 0);
        let seat = board.table.shared.split_seat::<Beside>(&mut self.seat);
        Relaying { seat, places }
    }
}
