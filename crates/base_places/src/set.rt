ghost use Rattle.std.specs.Prelude.{◌≡◌, ◌≢◌, ℕ, ◌*◌, ◌<◌, ◌≤◌, ◌⊎◌, ◌↔◌, ◌/◌, IsTrue, MatchOption};
ghost use Rattle.base_places.specs.Sets.{Has, IsNextPlace, HasAhead};

use crate::block::Block;
use std::marker::Model;

/// The most places that there are.
pub const MOST_PLACES: usize = 4096;

const WORDS: usize = 64;

/// A set of places, each below 4,096.
#[derive(Clone, Debug, Drop)]
pub struct PlaceSet {
    words: [u64; WORDS],
}

impl Model for PlaceSet {
    ghost use Rattle.std.specs.Prelude.{ℕ, List};

    ghost Value = { List ℕ };

    ghost view = { λ set. set.words };
}

impl PlaceSet {
    /// Makes an empty set.
    pub fn new() -> PlaceSet
        ensures { (place : ℕ) → Has result place → ⊥ }
    {
        PlaceSet { words: [0; WORDS] }
    }

    /// Says whether it contains a place. `O(1)`.
    pub fn contains(&self, place: usize) -> bool
        ensures { IsTrue result ↔ Has self.now place }
    {
        match self.words.get(place / 64) {
            None => false,
            Some(word) => word >> (place % 64) & 1 == 1,
        }
    }

    /// Adds a place. `O(1)`.
    pub fn insert(&mut self, place: usize)
        requires { place < 4096 }
        ensures { (other : ℕ) → Has self.new other ↔ ((other ≡ place) ⊎ Has self.old other) }
    {
        self.words[place / 64] |= 1 << (place % 64);
    }

    /// Removes a place. `O(1)`.
    pub fn remove(&mut self, place: usize)
        requires { place < 4096 }
        ensures { (other : ℕ) → Has self.new other ↔ ((other ≢ place) × Has self.old other) }
    {
        self.words[place / 64] &= !(1 << (place % 64));
    }

    /// Returns its places among the 64 that begin at 64 times a number. `O(1)`.
    pub fn block(&self, number: usize) -> Block
        requires { number < 64 }
        ensures { (place : ℕ) → HasAhead result place ↔ ((place / 64 ≡ number) × Has self.now place) }
    {
        Block {
            first: number * 64,
            bits: self.words[number],
        }
    }

    /// Returns the first of its places that isn't below a number. It reads at most 64 words.
    pub fn next(&self, from: usize) -> Option<usize>
        ensures { MatchOption result ((place : ℕ) → from ≤ place → Has self.now place → ⊥) (IsNextPlace self.now from) }
    {
        let Some(word) = self.words.get(from / 64) else {
            return None;
        };
        let rest = word >> (from % 64);
        if rest != 0 {
            return Some(from + rest.trailing_zeros() as usize);
        }
        self.next_word(from / 64 + 1)
    }

    // Returns the first of its places from this word on.
    fn next_word(&self, first: usize) -> Option<usize>
        requires { first ≤ 64 }
        ensures { MatchOption result ((place : ℕ) → 64 * first ≤ place → Has self.now place → ⊥) (IsNextPlace self.now (64 * first)) }
    {
        for word in first..WORDS {
            if self.words[word] != 0 {
                return Some(word * 64 + self.words[word].trailing_zeros() as usize);
            }
        }
        None
    }
}
