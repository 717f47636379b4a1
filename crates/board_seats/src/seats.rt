ghost use Rattle.std.specs.Prelude.{◌≡◌, ◌+◌, ◌++◌, ◌∷◌, ◌≤◌, [], MatchOption, vec_len, vec_capacity};

use crate::counted::LentThings;
use crate::idle::Idle;
use crate::lent::Lent;
use grant_board::BoardName;
use std::sync::ledger::{Blank, Ledger};

/// The seats of a board: the idle ones are here, and the lent ones are out. Together they are always all seats.
#[derive(Drop)]
pub struct Seats<N: BoardName + Ledger> {
    idle: Vec<Idle<N>>,
    held: LentThings<N>,
    ghost together: { vec_len idle + held.out ≡ held.most },
    ghost room: { held.most ≤ vec_capacity idle },
}

impl<N: BoardName + Ledger> Seats<N> {
    /// Makes the seats of these idle ones, which are all.
    pub fn open(idle: Vec<Idle<N>>, blank: Blank) -> Seats<N>
        requires name { blank.name ≡ N.name }
        requires parts { blank.parts ≡ N.parts }
        requires room { vec_len idle ≤ blank.parts }
        ensures idle { result.idle ≡ idle }
        ensures held { result.held.out ≡ 0 }
        ensures all { result.held.most ≡ vec_len idle }
    {
        let most = idle.len();
        Seats {
            idle,
            held: LentThings::open(blank, most),
        }
    }

    /// Returns the idle seats: all of them, where none is lent.
    pub fn end(self) -> Vec<Idle<N>>
        ensures all { vec_len result + self.held.out ≡ self.held.most }
        ensures idle { result ≡ self.idle }
    {
        let Seats { idle, held: _ } = self;
        idle
    }

    /// Lends a seat, where one is idle.
    pub fn lend(&mut self) -> Option<Lent<N>>
        ensures held { MatchOption result ((vec_len self.old.idle ≡ 0) × (self.new.held.out ≡ self.old.held.out)) (λ _. self.new.held.out ≡ self.old.held.out + 1) }
        ensures idle { MatchOption result (self.new.idle.items ≡ self.old.idle.items) (λ lent. self.old.idle.items ≡ self.new.idle.items ++ lent.idle ∷ []) }
        ensures all { self.new.held.most ≡ self.old.held.most }
    {
        if self.idle.is_empty() {
            return None;
        }
        let Some(out) = self.held.hand_out() else {
            unreachable!();
        };
        match self.idle.pop() {
            None => unreachable!(),
            Some(idle) => Some(Lent::of(idle, out)),
        }
    }

    /// Takes a lent seat back. Allocates nothing.
    pub fn give_back(&mut self, lent: Lent<N>)
        ensures held { self.new.held.out + 1 ≡ self.old.held.out }
        ensures idle { self.new.idle.items ≡ self.old.idle.items ++ lent.idle ∷ [] }
        ensures all { self.new.held.most ≡ self.old.held.most }
    {
        let (idle, out) = lent.into_parts();
        self.held.take_back(out);
        self.idle.push_reserved(idle);
    }
}
