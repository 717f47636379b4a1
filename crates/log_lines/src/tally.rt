ghost use Rattle.std.specs.Prelude.{◌≡◌, ◌-◌, ℤ, OnOk, OnErr};
ghost use Rattle.std.specs.BTreeMap.{is_at};
ghost use Rattle.std.specs.Map.{lookup};
ghost use Rattle.std.specs.Ordering.{int_cmp};
ghost use Rattle.log_lines.specs.Counts as counting;
ghost use Rattle.log_lines.specs.Counts.{ChangesOnly, one_more};

use std::alloc::{AllocError, Global};
use std::collections::BTreeMap;
use std::marker::Model;

/// A counter for each number.
#[derive(Drop)]
pub(crate) struct Tally {
    counts: BTreeMap<i64, u64>,
}

impl Model for Tally {
    ghost use Rattle.std.specs.Prelude.{ℕ, ℤ, List};

    ghost Value = { List (ℤ × ℕ) };

    ghost view = { λ tally. tally.counts.entries };
}

impl Tally {
    /// Makes an empty tally.
    pub fn new(alloc: Global) -> Tally
        ensures { (number : ℤ) → counting.times result number ≡ 0 }
    {
        Tally {
            counts: BTreeMap::new(alloc),
        }
    }

    /// Returns how often a number was counted.
    pub fn times(&self, number: i64) -> u64
        ensures { result ≡ counting.times self.now number }
    {
        self.found(number).unwrap_or(0)
    }

    fn found(&self, number: i64) -> Option<u64>
        ensures { result ≡ lookup (is_at (int_cmp number)) self.now }
    {
        self.counts.get(&number).copied()
    }

    /// Counts a number once more. `O(log n)` in the numbers that were counted. Where memory is refused nothing changes.
    pub fn add(&mut self, number: i64) -> Result<(), AllocError>
        ensures ok { OnOk result (ChangesOnly self.old self.new number (one_more (counting.times self.old number))) }
        ensures err { OnErr result (self.new ≡ self.old) }
    {
        let times = self.times(number).saturating_add(1);
        self.put(number, times)
    }

    /// Counts a number once less; a count of 0 stays.
    pub fn take(&mut self, number: i64) -> Result<(), AllocError>
        ensures ok { OnOk result (ChangesOnly self.old self.new number (counting.times self.old number - 1)) }
        ensures err { OnErr result (self.new ≡ self.old) }
    {
        let times = self.times(number).saturating_sub(1);
        self.put(number, times)
    }

    fn put(&mut self, number: i64, times: u64) -> Result<(), AllocError>
        ensures ok { OnOk result (ChangesOnly self.old self.new number times) }
        ensures err { OnErr result (self.new ≡ self.old) }
    {
        self.counts.insert(number, times)?;
        Ok(())
    }

    /// Returns each number that was ever counted with its count, in rising order.
    pub fn counts(&self) -> &BTreeMap<i64, u64>
        ensures { result.now.entries ≡ self.now }
    {
        &self.counts
    }
}
