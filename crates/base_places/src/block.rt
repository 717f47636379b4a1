ghost use Rattle.std.specs.Prelude.{◌≢◌, ℕ, ◌<◌, ◌↔◌, IfNone, IfSome};
ghost use Rattle.base_places.specs.Sets.{HasAhead, IsFirstAhead};

use std::marker::Model;

/// The places of a set among 64 consecutive ones that a walk hasn't come to yet.
#[derive(Debug, Drop)]
pub struct Block {
    pub(crate) first: usize,
    pub(crate) bits: u64,
}

impl Model for Block {
    ghost use Rattle.std.specs.Prelude.{◌≤◌};
    ghost use Rattle.base_places.specs.Sets.{Ahead};

    ghost Value = { Ahead };

    ghost view = { λ block. record { first = block.first; bits = block.bits } };

    ghost invariant = { λ block. block.first ≤ 4032 };
}

impl Block {
    /// Takes out its first place. `O(1)`.
    pub fn take_first(&mut self) -> Option<usize>
        ensures none { IfNone result ((place : ℕ) → HasAhead self.old place → ⊥) }
        ensures some { IfSome result (IsFirstAhead self.old) }
        ensures later { IfSome result (λ first. (place : ℕ) → HasAhead self.new place ↔ ((place ≢ first) × HasAhead self.old place)) }
        ensures fewer { IfSome result (λ first. self.new.bits < self.old.bits) }
    {
        if self.bits == 0 {
            return None;
        }
        let place = self.first + self.bits.trailing_zeros() as usize;
        self.bits &= self.bits - 1;
        Some(place)
    }
}
