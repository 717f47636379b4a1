ghost use Rattle.std.specs.Prelude.{◌≡◌, ◌+ℤ◌, ℕ, Some, IfOk, position, length, replicate, ◌+◌, pos, int_le, slice_get, slice_set};
ghost use Rattle.std.specs.Int.{saturate_signed, w64};
ghost use Rattle.log_lines.specs.Bins as binning;
ghost use Rattle.log_lines.specs.Counts.{one_more};

use std::alloc::{AllocError, Global};
use std::marker::Model;

/// The bounds of waits, in milliseconds.
pub(crate) static WAITS: [i64; 13] = [
    0, 1, 5, 10, 50, 100, 500, 1000, 5000, 10_000, 30_000, 60_000, 300_000,
];

/// The bounds of lateness, in milliseconds. A negative one is early.
pub(crate) static LATENESS: [i64; 16] = [
    -10_000, -1000, -100, 0, 1, 5, 10, 50, 100, 500, 1000, 5000, 10_000, 30_000, 60_000, 300_000,
];

/// The number of values in each of a row of bins, and their sum.
#[derive(Drop)]
pub(crate) struct Histogram {
    bounds: &'static [i64],
    bins: Vec<u64>,
    sum: i64,
}

impl Model for Histogram {
    ghost use Rattle.std.specs.Prelude.{◌≡◌, ◌+◌, length};
    ghost use Rattle.log_lines.specs.Bins.{Binned};

    ghost Value = { Binned };

    ghost view = { λ it. record { bounds = it.bounds.now; bins = it.bins.items; sum = it.sum } };

    ghost invariant = { λ it. length it.bins.items ≡ length it.bounds.now + 1 };
}

impl Histogram {
    /// Makes an empty histogram, of bins with these bounds and one above them.
    pub fn new(alloc: Global, bounds: &'static [i64]) -> Result<Histogram, AllocError>
        ensures { IfOk result (λ it. it ≡ record { bounds = bounds.now; bins = replicate (length bounds.now + 1) 0; sum = pos 0 }) }
    {
        Ok(Histogram {
            bounds,
            bins: vec![in alloc; 0u64; bounds.len() + 1]?,
            sum: 0,
        })
    }

    /// Counts one more value, in one bin.
    pub fn add(&mut self, value: i64)
        ensures bins { (count : ℕ) → slice_get self.old.bins (binning.bin_of self.old.bounds value) ≡ Some count → self.new.bins ≡ slice_set self.old.bins (binning.bin_of self.old.bounds value) (one_more count) }
        ensures sum { self.new.sum ≡ saturate_signed w64 (self.old.sum +ℤ value) }
        ensures bounds { self.new.bounds ≡ self.old.bounds }
    {
        let bin = self.bin_of(value);
        self.fill(bin);
        self.sum = self.sum.saturating_add(value);
    }

    fn fill(&mut self, bin: usize)
        ensures bins { (count : ℕ) → slice_get self.old.bins bin ≡ Some count → self.new.bins ≡ slice_set self.old.bins bin (one_more count) }
        ensures same { (self.new.bounds ≡ self.old.bounds) × (self.new.sum ≡ self.old.sum) }
    {
        if let Some(count) = self.bins.get_mut(bin) {
            *count = count.saturating_add(1);
        }
    }

    // Returns the first bin that takes a value; the last one where no other does.
    fn bin_of(&self, value: i64) -> usize
        ensures { result ≡ binning.bin_of self.now.bounds value }
    {
        self.found(value).unwrap_or(self.bounds.len())
    }

    fn found(&self, value: i64) -> Option<usize>
        ensures { result ≡ position (λ bound. int_le value bound) self.now.bounds }
    {
        self.bounds.iter().position(|bound| value <= *bound)
    }

    /// Returns the greatest values of all bins but the last.
    pub fn bounds(&self) -> &'static [i64]
        ensures { result.now ≡ self.now.bounds }
    {
        self.bounds
    }

    /// Returns the number of values in each bin.
    pub fn bins(&self) -> &[u64]
        ensures { result.now ≡ self.now.bins }
    {
        self.bins.as_slice()
    }

    /// Returns the sum of all values.
    pub fn sum(&self) -> i64
        ensures { result ≡ self.now.sum }
    {
        self.sum
    }
}
