ghost use Rattle.std.specs.Prelude.{◌≡◌, ◌<◌, ◌≤◌, ℕ, Bool};
ghost use Rattle.cell_sets.specs.Sets.{has};

use crate::bit_row::BitRow;

/// A test of cells, which answers for a whole stretch of them at once.
pub trait CellTest {
    /// Which cells pass.
    ghost passes: { Self → ℕ → Bool };

    /// Whether cell `from` passes, and a later one, `end` at most, before which all cells answer the same. The longer the stretch, the less is asked.
    fn stretch_to(&self, from: u32, end: u32) -> (bool, u32)
        requires below { from < end }
        ensures further { from < result.1 }
        ensures within { result.1 ≤ end }
        ensures same { (q : ℕ) → from ≤ q → q < result.1 → passes self.now q ≡ result.0 };
}

/// The cells of a row.
impl CellTest for BitRow {
    ghost passes = { λ row. has row };

    fn stretch_to(&self, from: u32, end: u32) -> (bool, u32) {
        if from >= self.width() {
            return (false, end);
        }
        let (inside, next) = self.stretch(from);
        (inside, next.min(end))
    }
}
