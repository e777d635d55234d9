ghost use Rattle.std.specs.Prelude.{◌≡◌, ℕ, ◌+◌, ◌<◌, ◌≤◌, ◌↔◌, IsTrue, ◌&&◌, ◌||◌, not, ◌==◌, nat_le, nat_lt, true, false, IfOk};
ghost use Rattle.cell_sets.specs.Sets.{universe_of, has};
ghost use Rattle.cell_sets.specs.Runs.{in_runs, IsRising};

use crate::cell_set::CellSet;
use crate::runs::Run;
use crate::words::{bit, minus_words, or_words, same_count, same_words, set_bit};
use ckpt_base::NoMemory;
use std::alloc::Global;
use std::marker::Model;

/// A set of numbers below a width, kept as one bit for each. Contracts see it as a set whose universe is the width.
#[derive(Drop)]
pub struct BitRow {
    width: u32,
    words: Vec<u64>,
}

impl Model for BitRow {
    ghost use Rattle.cell_sets.specs.Sets.{Cells, passing};
    ghost use Rattle.cell_sets.specs.Bits.{bit_of, IsRow};

    ghost Value = { Cells };

    ghost view = { λ r. passing (bit_of r.words.items) r.width };

    ghost invariant = { λ r. IsRow r.width r.words.items };
}

impl BitRow {
    /// The row with no number.
    pub fn new(alloc: Global, width: u32) -> Result<BitRow, NoMemory>
        ensures universe { IfOk result (λ r. universe_of r ≡ width) }
        ensures answer { IfOk result (λ r. (q : ℕ) → has r q ≡ false) }
    {
        let count = (width as usize + 63) / 64;
        let words = vec![in alloc; 0; count]?;
        Ok(BitRow { width, words })
    }

    /// The same row as the set.
    pub fn of_set(alloc: Global, set: &CellSet) -> Result<BitRow, NoMemory>
        ensures answer { IfOk result (λ r. r ≡ set.now) }
    {
        let runs = set.runs()?;
        let row = BitRow::of_runs(alloc, set.universe(), &runs)?;
        Ok(row)
    }

    // The row with the numbers of rising runs.
    fn of_runs(alloc: Global, width: u32, runs: &[Run]) -> Result<BitRow, NoMemory>
        requires rising { IsRising 0 runs.now (width + 1) }
        ensures universe { IfOk result (λ r. universe_of r ≡ width) }
        ensures answer { IfOk result (λ r. (q : ℕ) → has r q ≡ in_runs runs.now q) }
    {
        let mut row = BitRow::new(alloc, width)?;
        'runs: for run in runs {
            row.set_range(run.first, run.count);
        }
        Ok(row)
    }

    /// An equal row.
    pub fn copy(&self) -> Result<BitRow, NoMemory>
        ensures answer { IfOk result (λ r. r ≡ self.now) }
    {
        Ok(BitRow {
            width: self.width,
            words: self.words.clone()?,
        })
    }

    /// The number that all numbers of the row are below.
    pub fn width(&self) -> u32
        ensures answer { result ≡ universe_of self.now }
    {
        self.width
    }

    /// Adds the number `b`.
    pub fn set(&mut self, b: u32)
        requires within { b < universe_of self.old }
        ensures universe { universe_of self.new ≡ universe_of self.old }
        ensures answer { (q : ℕ) → has self.new q ≡ (has self.old q || (q == b)) }
    {
        set_bit(&mut self.words, b);
    }

    /// Adds the numbers from `first` to `first + count - 1`.
    pub fn set_range(&mut self, first: u32, count: u32)
        requires within { first + count ≤ universe_of self.old }
        ensures universe { universe_of self.new ≡ universe_of self.old }
        ensures answer { (q : ℕ) → has self.new q ≡ (has self.old q || (nat_le first q && nat_lt q (first + count))) }
    {
        // the sum fits, since it is at most the width
        let _width = self.width();
        'numbers: for b in first..first + count {
            self.set(b);
        }
    }

    /// Whether the row has the number `b`.
    pub fn get(&self, b: u32) -> bool
        requires within { b < universe_of self.now }
        ensures answer { result ≡ has self.now b }
    {
        bit(&self.words, b)
    }

    // Whether the row has `from`, and a later number before which that stays the same: where it changes, or where the next word begins.
    pub(crate) fn stretch(&self, from: u32) -> (bool, u32)
        requires below { from < universe_of self.now }
        ensures further { from < result.1 }
        ensures within { result.1 ≤ universe_of self.now }
        ensures same { (q : ℕ) → from ≤ q → q < result.1 → has self.now q ≡ result.0 }
    {
        let count = same_count(&self.words, from).min(self.width - from);
        (self.get(from), from + count)
    }

    /// Adds the numbers of the other row, and tells whether any was new.
    pub fn or_from(&mut self, other: &BitRow) -> bool
        requires equal { universe_of self.old ≡ universe_of other.now }
        ensures universe { universe_of self.new ≡ universe_of self.old }
        ensures answer { (q : ℕ) → has self.new q ≡ (has self.old q || has other.now q) }
        ensures added { IsTrue result ↔ ((q : ℕ) × ((has other.now q ≡ true) × (has self.old q ≡ false))) }
    {
        or_words(&mut self.words, &other.words)
    }

    /// Takes the numbers of the other row away.
    pub fn minus(&mut self, other: &BitRow)
        requires equal { universe_of self.old ≡ universe_of other.now }
        ensures universe { universe_of self.new ≡ universe_of self.old }
        ensures answer { (q : ℕ) → has self.new q ≡ (has self.old q && not (has other.now q)) }
    {
        minus_words(&mut self.words, &other.words);
    }

    /// Whether the other row has the same numbers.
    pub fn is_same(&self, other: &BitRow) -> bool
        requires equal { universe_of self.now ≡ universe_of other.now }
        ensures answer { IsTrue result ↔ ((q : ℕ) → has self.now q ≡ has other.now q) }
    {
        same_words(&self.words, &other.words)
    }
}
