//! The runs of the cells that are listed.
ghost use Rattle.std.specs.Prelude.{◌≡◌, ◌<◌, ◌≤◌, ℕ, not, false};
ghost use Rattle.cell_sets.specs.Runs.{in_runs};
ghost use Rattle.image_format.specs.Written.{AreListed};
ghost use Rattle.image_chain.specs.Memory.{is_kept};

use cell_sets::{Run, RunList};
use image_chain::Kept;

/// How many cells a chain can list.
const CELLS: u32 = 262_144;

// Makes the list the rising runs of the cells that are listed.
pub(crate) fn find_runs(kept: &Kept, runs: &mut RunList)
    ensures rising { AreListed runs.new }
    ensures exact { (c : ℕ) → in_runs runs.new c ≡ is_kept kept.now c }
{
    runs.clear();
    kept.tells();
    let mut from = next_cell(kept, 0, true);
    while from < CELLS {
        let end = next_cell(kept, from, false);
        runs.push(Run {
            first: from,
            count: end - from,
        });
        from = next_cell(kept, end, true);
    }
}

// The first cell from `from` on that is listed, or that is not; 262,144 where there is none.
fn next_cell(kept: &Kept, from: u32, listed: bool) -> u32
    requires from { from ≤ 262144 }
    ensures rises { from ≤ result }
    ensures most { result ≤ 262144 }
    ensures between { (c : ℕ) → from ≤ c → c < result → is_kept kept.now c ≡ not listed }
    ensures found { result < 262144 → is_kept kept.now result ≡ listed }
{
    for c in from..CELLS {
        if is_listed(kept, c) == listed {
            return c;
        }
    }
    CELLS
}

fn is_listed(kept: &Kept, c: u32) -> bool
    requires cell { c < 262144 }
    ensures { result ≡ is_kept kept.now c }
{
    kept.word(c).is_some()
}
