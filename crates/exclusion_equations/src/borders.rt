ghost use Rattle.std.specs.Prelude.{◌≡◌, ℕ, ◌<◌, ◌||◌, ◌==◌, IfOk, OnOk};
ghost use Rattle.cell_sets.specs.Sets.{universe_of, has};
ghost use Rattle.exclusion_equations.specs.Finding.{AreBorders, Marks};

use cell_sets::{BitRow, CellSet};
use ckpt_base::NoMemory;
use path_laws::EffectGraph;
use std::alloc::Global;

// Adds the number where it is below the width.
fn set_below(row: &mut BitRow, b: u32)
    ensures universe { universe_of row.new ≡ universe_of row.old }
    ensures answer { (q : ℕ) → q < universe_of row.old → has row.new q ≡ (has row.old q || (q == b)) }
{
    if b < row.width() {
        row.set(b);
    }
}

// Adds each number at which the set begins or ends.
fn mark(borders: &mut BitRow, set: &CellSet) -> Result<(), NoMemory>
    requires equal { universe_of borders.old ≡ universe_of set.now }
    ensures answer { OnOk result (Marks set.now borders.old borders.new) }
{
    // each run ends at a u32, since it is within the universe
    let _universe = set.universe();
    let runs = set.runs()?;
    'runs: for run in &runs {
        set_below(borders, run.first);
        set_below(borders, run.first + run.count);
    }
    Ok(())
}

// The numbers at which some set of the graph begins or ends.
pub(crate) fn borders(alloc: Global, graph: &EffectGraph) -> Result<BitRow, NoMemory>
    ensures universe { IfOk result (λ r. universe_of r ≡ graph.now.cells) }
    ensures answer { IfOk result (λ r. AreBorders graph.now r) }
{
    let mut row = BitRow::new(alloc, graph.cells())?;
    'nodes: for n in 0..graph.nodes() {
        mark(&mut row, graph.reads(n))?;
        mark(&mut row, graph.writes(n))?;
        mark(&mut row, graph.kills(n))?;
    }
    Ok(row)
}
