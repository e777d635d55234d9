ghost use Rattle.std.specs.Prelude.{◌≡◌, ℕ, ◌+◌, ◌*◌, ◌<◌, ◌≤◌, length, true, false, vec_len, nat_lt, IfOk, OnOk, ◌&&◌, ◌||◌, ◌==◌, not};
ghost use Rattle.cell_sets.specs.Sets.{universe_of, has};
ghost use Rattle.path_laws.specs.Reaching.{joins, in_row, AllWide, IsSolution};
ghost use Rattle.path_laws.specs.Solving.{listed, missing, IsStep};

use crate::predecessors::predecessors;
use cell_sets::BitRow;
use ckpt_base::NoMemory;
use std::alloc::{AllocError, Global};

// Adds to row `n` what row `m` has and the stop has not, and tells whether that was anything new.
fn pull(
    rows: &mut Vec<BitRow>,
    n: usize,
    m: usize,
    stop: &BitRow,
    width: u32,
) -> Result<bool, NoMemory>
    requires n_in { n < vec_len rows.old }
    requires m_in { m < vec_len rows.old }
    requires wide { AllWide width rows.old.items }
    requires stop_wide { universe_of stop.now ≡ width }
    ensures same_len { OnOk result (vec_len rows.new ≡ vec_len rows.old) }
    ensures wide { OnOk result (AllWide width rows.new.items) }
    ensures grown { OnOk result ((k c : ℕ) → in_row rows.new.items k c ≡ (in_row rows.old.items k c || ((k == n) && (in_row rows.old.items m c && not (has stop.now c))))) }
    ensures more { IfOk result (λ added. added ≡ true → missing width rows.new.items < missing width rows.old.items) }
    ensures no_more { IfOk result (λ added. added ≡ false → ((k c : ℕ) → in_row rows.new.items k c ≡ in_row rows.old.items k c) × (missing width rows.new.items ≡ missing width rows.old.items)) }
{
    let mut moved = rows[m].copy()?;
    moved.minus(stop);
    let row = &mut rows[n];
    Ok(row.or_from(&moved))
}

// Looks at the edge from `n` to `m`.
fn visit(
    rows: &mut Vec<BitRow>,
    work: &mut Vec<usize>,
    stops: &[BitRow],
    n: usize,
    m: usize,
    width: u32,
) -> Result<(), NoMemory>
    requires n_in { n < vec_len rows.old }
    requires m_in { m < vec_len rows.old }
    requires stops_len { length stops.now ≡ vec_len rows.old }
    requires wide { AllWide width rows.old.items }
    requires stops_wide { AllWide width stops.now }
    ensures step { OnOk result (IsStep stops.now n m width rows.old.items work.old.items rows.new.items work.new.items) }
{
    if pull(rows, n, m, &stops[n], width)? {
        push(work, n)?;
    }
    Ok(())
}

fn push(work: &mut Vec<usize>, n: usize) -> Result<(), AllocError>
    ensures answer { OnOk result ((length work.new.items ≡ length work.old.items + 1) × ((k : ℕ) → listed work.new.items k ≡ (listed work.old.items k || (n == k)))) }
{
    work.push(n)?;
    Ok(())
}

fn copies(alloc: Global, rows: &[BitRow]) -> Result<Vec<BitRow>, NoMemory>
    ensures answer { IfOk result (λ v. v.items ≡ rows.now) }
{
    let mut all = Vec::new(alloc);
    'rows: for row in rows {
        all.push(row.copy()?).map_err(AllocError::from)?;
    }
    Ok(all)
}

fn all_nodes(alloc: Global, count: usize) -> Result<Vec<usize>, AllocError>
    ensures answer { IfOk result (λ v. (k : ℕ) → listed v.items k ≡ nat_lt k count) }
{
    let mut all = Vec::new(alloc);
    'nodes: for n in 0..count {
        all.push(n)?;
    }
    Ok(all)
}

/// For each node the numbers for which some walk from it, itself counted, comes to a goal and is not stopped before.
///
/// The goals and the stops of a node are the numbers of its row. The answer has a row for each node.
pub fn reaching(
    alloc: Global,
    edges: &[(u32, u32)],
    goals: &[BitRow],
    stops: &[BitRow],
    width: u32,
) -> Result<Vec<BitRow>, NoMemory>
    requires within { (n m : ℕ) → joins edges.now n m ≡ true → (n < length goals.now) × (m < length goals.now) }
    requires stops_len { length stops.now ≡ length goals.now }
    requires goals_wide { AllWide width goals.now }
    requires stops_wide { AllWide width stops.now }
    ensures exact { IfOk result (λ rows. IsSolution (joins edges.now) goals.now stops.now rows.items) }
    ensures universe { IfOk result (λ rows. AllWide width rows.items) }
{
    let before = predecessors(alloc, edges, goals.len())?;
    let mut rows = copies(alloc, goals)?;
    let mut work = all_nodes(alloc, goals.len())?;
    'work: while let Some(m) = work.pop() {
        'edges: for n in before[m].as_slice() {
            visit(&mut rows, &mut work, stops, *n as usize, m, width)?;
        }
    }
    Ok(rows)
}
