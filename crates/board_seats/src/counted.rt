ghost use Rattle.std.specs.Prelude.{◌≡◌, ◌+◌, ◌≤◌, MatchOption};

use std::sync::ledger::{Blank, Book, Ledger, Share};

/// A counter that knows how many of a fixed number of things are out.
#[derive(Drop)]
pub struct LentThings<L: Ledger> {
    shares: Book<L>,
    rest: Share<L>,
    left: usize,
    out: usize,
    most: usize,
    ghost counted: { out ≡ shares.total },
    ghost room: { left ≤ rest.parts },
    ghost bare: { rest.amount ≡ 0 },
    ghost whole: { left + out ≡ most },
}

/// The token of one thing that is out. It has no `Drop` and takes no bytes: it can only be given back.
pub struct LentThing<L: Ledger> {
    share: Share<L>,
    ghost one: { share.amount ≡ 1 },
    ghost part: { share.parts ≡ 1 },
}

impl<L: Ledger> LentThings<L> {
    /// Makes a counter of this number of things, none of which is out.
    pub fn open(blank: Blank, most: usize) -> LentThings<L>
        requires name { blank.name ≡ L.name }
        requires parts { blank.parts ≡ L.parts }
        requires room { most ≤ blank.parts }
        ensures left { result.left ≡ most }
        ensures out { result.out ≡ 0 }
        ensures most { result.most ≡ most }
    {
        let (book, rest) = blank.open::<L>();
        LentThings {
            shares: book,
            rest,
            left: most,
            out: 0,
            most,
        }
    }

    /// Hands one thing out; `None` only where all are out.
    pub fn hand_out(&mut self) -> Option<LentThing<L>>
        ensures out { MatchOption result ((self.old.left ≡ 0) × (self.new.out ≡ self.old.out)) (λ _. self.new.out ≡ self.old.out + 1) }
        ensures most { self.new.most ≡ self.old.most }
    {
        if self.left == 0 {
            return None;
        }
        let mut share = self.rest.split_off(1, 0);
        self.shares.add(&mut share, 1);
        self.left -= 1;
        self.out += 1;
        Some(LentThing { share })
    }

    /// Takes one thing back.
    pub fn take_back(&mut self, out: LentThing<L>)
        ensures out { self.new.out + 1 ≡ self.old.out }
        ensures most { self.new.most ≡ self.old.most }
    {
        let LentThing { share } = out;
        let mut share = share;
        self.shares.sub(&mut share, 1);
        self.rest.merge(share);
        self.left += 1;
        self.out -= 1;
    }
}
