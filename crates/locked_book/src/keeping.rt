ghost use Rattle.std.specs.Prelude.{◌≡◌, ℕ, ◌*◌, ◌/◌, ◌<◌, ◌≤◌, ◌^◌, ◌↔◌, ◌∷◌, [], IfSome, IfNone, length};
ghost use Rattle.grant_board.specs.Views.{grant, count_at};
ghost use Rattle.grant_board.specs.KeeperCalls.{HasRoom, offer_after, Collects, FindsUnposted, MayLimit, limit_after, Vouches};
ghost use Rattle.locked_book.specs.Calls.{Wakes};
ghost use Rattle.base_places.specs.Sets.{HasAhead};

use base_places::{Block, PlaceSet};
use base_verdict::Verdict;
use grant_board::{Board, KeeperSeat, RelaySeat, Return};
use std::marker::Model;

/// A keeper's seat with the set of the places that are out, so that a walk over them passes no others.
#[derive(Drop)]
pub struct Keeping {
    seat: KeeperSeat,
    out: PlaceSet,
    blocks: usize,
}

impl Model for Keeping {
    ghost use Rattle.grant_board.specs.KeeperCalls.{Keeper};
    ghost use Rattle.locked_book.specs.Busy.{SetIsKept};

    ghost Value = { Keeper };

    ghost view = { λ it. it.seat };

    ghost invariant = { λ it. SetIsKept it.seat.view it.out it.blocks };
}

impl Keeping {
    /// Makes a seat for this number of places that has nothing out.
    pub fn new(seat: KeeperSeat, places: usize) -> Keeping
        requires none { seat.view.out ≡ [] }
        requires places { places ≡ seat.view.terms.places }
        requires few { places ≤ 4096 }
        ensures { result ≡ seat }
    {
        Keeping {
            seat,
            out: PlaceSet::new(),
            blocks: places.div_ceil(64),
        }
    }

    /// Returns the number of blocks of 64 places.
    pub fn blocks(&self) -> usize
        ensures all { (place : ℕ) → 0 < count_at place self.now.view.out → place < 64 * result }
        ensures in_blocks { self.now.view.terms.places ≤ 64 * result }
        ensures few { result ≤ 64 }
    {
        self.blocks
    }

    /// Returns which of a block's places are out.
    pub fn block(&self, number: usize) -> Block
        requires { number < 64 }
        ensures ahead { (place : ℕ) → HasAhead result place ↔ ((place / 64 ≡ number) × (0 < count_at place self.now.view.out)) }
        ensures in_range { (place : ℕ) → HasAhead result place → place < self.now.view.terms.places }
    {
        self.out.block(number)
    }

    /// Offers a verdict, and adds its place to those that are to be woken.
    pub fn offer(&mut self, board: &Board, place: usize, told: (u64, Verdict), woken: &mut PlaceSet)
        requires same_board { self.old.board ≡ board.now }
        requires in_range { place < self.old.view.terms.places }
        requires free { count_at place self.old.view.out ≡ 0 }
        requires ticket_fits { told.0 < 2 ^ 40 }
        requires has_room { HasRoom self.old.view told.1 }
        ensures offered { self.new ≡ record self.old { view = offer_after self.old.view (grant place told.0 told.1) } }
        ensures woken { Wakes (grant place told.0 told.1 ∷ []) woken.old woken.new }
    {
        self.seat.offer(board, place, told.0, told.1);
        self.out.insert(place);
        woken.insert(place);
    }

    /// Collects what was posted at a place.
    pub fn collect(&mut self, board: &Board, place: usize) -> Option<Return>
        requires same_board { self.old.board ≡ board.now }
        requires in_range { place < self.old.view.terms.places }
        ensures some { IfSome result (λ back. Collects self.old.view self.new.view place back) }
        ensures none { IfNone result (FindsUnposted self.old.view self.new.view place) }
        ensures board { self.new.board ≡ self.old.board }
    {
        let back = self.seat.collect(board, place)?;
        self.out.remove(place);
        Some(back)
    }

    /// Sets a server's mark.
    pub fn limit(&mut self, board: &Board, server: usize, bound: u64)
        requires same_board { self.old.board ≡ board.now }
        requires may_limit { MayLimit self.old.view server bound }
        ensures { self.new ≡ record self.old { view = limit_after self.old.view server bound } }
    {
        self.seat.limit(board, server, bound);
    }

    /// Returns the relay's seat unchanged, and the number of its passes, each of which is out.
    pub fn vouch(&mut self, board: &Board, relay: RelaySeat) -> (RelaySeat, u64)
        requires same_board { self.old.board ≡ board.now }
        requires relay_board { relay.board ≡ board.now }
        ensures back { result.0 ≡ relay }
        ensures count { result.1 ≡ length relay.view.passes }
        ensures vouched { Vouches self.old.view self.new.view relay.view.passes }
        ensures board { self.new.board ≡ self.old.board }
    {
        self.seat.vouch(board, relay)
    }

    /// Returns the seat alone.
    pub fn into_seat(self) -> KeeperSeat
        ensures { result ≡ self }
    {
        let Keeping {
            seat,
            out: _,
            blocks: _,
        } = self;
        seat
    }
}
