ghost use Rattle.std.specs.Prelude.{◌≡◌, ℕ, ◌+◌, ◌≤◌, ◌&&◌, ◌||◌, not, nat_le, nat_lt, true, false, IfOk, OnOk, OnErr};
ghost use Rattle.cell_sets.specs.Sets.{universe_of, has};
ghost use Rattle.cell_sets.specs.Runs.{in_runs, IsRising};

use crate::bit_row::BitRow;
use crate::runs::{Run, runs_hold};
use crate::sweep::{Operation, append_if, merge};
use ckpt_base::NoMemory;
use std::alloc::{AllocError, Global};
use std::marker::Model;

/// A set of cells below a universe, kept as its rising runs.
#[derive(Drop)]
pub struct CellSet {
    runs: Vec<Run>,
    universe: u32,
}

impl Model for CellSet {
    ghost use Rattle.std.specs.Prelude.{◌+◌};
    ghost use Rattle.cell_sets.specs.Sets.{Cells, passing};
    ghost use Rattle.cell_sets.specs.Runs.{in_runs, IsRising};

    ghost Value = { Cells };

    ghost view = { λ s. passing (in_runs s.runs.items) s.universe };

    ghost invariant = { λ s. IsRising 0 s.runs.items (s.universe + 1) };
}

impl CellSet {
    /// The set with no cell.
    pub fn empty(alloc: Global, universe: u32) -> Result<CellSet, NoMemory>
        ensures universe { IfOk result (λ s. universe_of s ≡ universe) }
        ensures answer { IfOk result (λ s. (q : ℕ) → has s q ≡ false) }
    {
        Ok(CellSet {
            runs: Vec::new(alloc),
            universe,
        })
    }

    /// The cells from `first` to `first + count - 1`.
    pub fn range(alloc: Global, universe: u32, first: u32, count: u32) -> Result<CellSet, NoMemory>
        requires within { first + count ≤ universe }
        ensures universe { IfOk result (λ s. universe_of s ≡ universe) }
        ensures answer { IfOk result (λ s. (q : ℕ) → has s q ≡ (nat_le first q && nat_lt q (first + count))) }
    {
        let runs = range_runs(alloc, first, count)?;
        Ok(CellSet { runs, universe })
    }

    /// An equal set.
    pub fn copy(&self) -> Result<CellSet, NoMemory>
        ensures answer { IfOk result (λ s. s ≡ self.now) }
    {
        Ok(CellSet {
            runs: self.runs.clone()?,
            universe: self.universe,
        })
    }

    /// The same set as the row's.
    pub fn of_row(alloc: Global, row: &BitRow) -> Result<CellSet, NoMemory>
        ensures answer { IfOk result (λ s. s ≡ row.now) }
    {
        let universe = row.width();
        let runs = row_runs(alloc, row)?;
        Ok(CellSet { runs, universe })
    }

    /// Adds the cells of the other set. Without memory for it the set stays as it was.
    pub fn union_with(&mut self, other: &CellSet) -> Result<(), NoMemory>
        requires equal { universe_of self.old ≡ universe_of other.now }
        ensures universe { OnOk result (universe_of self.new ≡ universe_of self.old) }
        ensures answer { OnOk result ((q : ℕ) → has self.new q ≡ (has self.old q || has other.now q)) }
        ensures err { OnErr result (self.new ≡ self.old) }
    {
        self.runs = merge(
            *self.runs.allocator(),
            &self.runs,
            &other.runs,
            Operation::Union,
            self.universe,
        )?;
        Ok(())
    }

    /// Takes the cells of the other set away. Without memory for it the set stays as it was.
    pub fn minus(&mut self, other: &CellSet) -> Result<(), NoMemory>
        requires equal { universe_of self.old ≡ universe_of other.now }
        ensures universe { OnOk result (universe_of self.new ≡ universe_of self.old) }
        ensures answer { OnOk result ((q : ℕ) → has self.new q ≡ (has self.old q && not (has other.now q))) }
        ensures err { OnErr result (self.new ≡ self.old) }
    {
        self.runs = merge(
            *self.runs.allocator(),
            &self.runs,
            &other.runs,
            Operation::Minus,
            self.universe,
        )?;
        Ok(())
    }

    /// The number that all cells of the set are below.
    pub fn universe(&self) -> u32
        ensures answer { result ≡ universe_of self.now }
    {
        self.universe
    }

    /// Whether the set has the cell; false for one outside the universe.
    pub fn holds(&self, c: u32) -> bool
        ensures answer { result ≡ has self.now c }
    {
        runs_hold(&self.runs, c)
    }

    /// Whether the set has no cell.
    pub fn is_empty(&self) -> bool
        ensures none { result ≡ true → (q : ℕ) → has self.now q ≡ false }
        ensures some { result ≡ false → (q : ℕ) × (has self.now q ≡ true) }
    {
        self.runs.is_empty()
    }

    /// The runs of the set, rising, of which no two touch.
    pub fn runs(&self) -> Result<Vec<Run>, NoMemory>
        ensures rising { IfOk result (λ v. IsRising 0 v.items (universe_of self.now + 1)) }
        ensures answer { IfOk result (λ v. (q : ℕ) → in_runs v.items q ≡ has self.now q) }
    {
        let all = self.runs.clone()?;
        Ok(all)
    }
}

// One run, or none where it would be empty.
fn range_runs(alloc: Global, first: u32, count: u32) -> Result<Vec<Run>, AllocError>
    ensures rising { IfOk result (λ v. IsRising 0 v.items (first + count + 1)) }
    ensures same { IfOk result (λ v. (q : ℕ) → in_runs v.items q ≡ (nat_le first q && nat_lt q (first + count))) }
{
    let mut runs = Vec::new(alloc);
    if count != 0 {
        runs.push(Run { first, count })?;
    }
    Ok(runs)
}

// The runs of the numbers of a row.
fn row_runs(alloc: Global, row: &BitRow) -> Result<Vec<Run>, AllocError>
    ensures rising { IfOk result (λ v. IsRising 0 v.items (universe_of row.now + 1)) }
    ensures same { IfOk result (λ v. (q : ℕ) → in_runs v.items q ≡ has row.now q) }
{
    let mut runs = Vec::new(alloc);
    let mut position = 0;
    'stretches: while position < row.width() {
        let (inside, next) = row.stretch(position);
        append_if(&mut runs, inside, position, next)?;
        position = next;
    }
    Ok(runs)
}
