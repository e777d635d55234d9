//! What functions may read and write, with all that they reach by calls.

ghost use Rattle.std.specs.Prelude.{◌≡◌, ◌↔◌, ◌++◌, ◌∷◌, [], ◌<◌, ℕ, OnOk, IfOk, length, slice_index_or, true};
ghost use Rattle.cell_sets.specs.Sets.{universe_of, has};
ghost use Rattle.c_tree.specs.Layout.{cell_count};
ghost use Rattle.alias_sets.specs.Points.{ArePointsOf};
ghost use Rattle.access_summary.specs.Touch.{Touches};
ghost use Rattle.access_summary.specs.CallEdges.{AreCalls};
ghost use Rattle.access_summary.specs.Summaries.{body_of, AreSets, ReachesAccess, AreSummariesOf};

use crate::calls::{bodies_of, calls_of, reached};
use crate::effects::Effect;
use crate::touch::{Access, add_effects};
use alias_sets::Points;
use c_tree::Checked;
use cell_sets::{BitRow, CellSet};
use ckpt_base::NoMemory;
use sqlite_items::Items;
use std::alloc::{AllocError, Global};
use std::marker::Model;

/// For each function of a program the cells that it may read, and those that it may write.
#[derive(Drop)]
pub struct Summaries {
    reads: Vec<CellSet>,
    writes: Vec<CellSet>,
}

impl Model for Summaries {
    ghost use Rattle.access_summary.specs.Summaries.{SummariesView};

    ghost Value = { SummariesView };

    ghost view = { λ s. record { reads = s.reads.items; writes = s.writes.items } };
}

impl Summaries {
    /// The cells that function `f`, or a function that it reaches by calls, may read; `f` is below the functions.
    pub fn reads(&self, f: u32) -> &CellSet
        requires within { f < length self.now.reads }
        ensures answer { result.now ≡ slice_index_or self.now.reads f [] }
    {
        &self.reads[f as usize]
    }

    /// The cells that function `f`, or a function that it reaches by calls, may write; `f` is below the functions.
    pub fn writes(&self, f: u32) -> &CellSet
        requires within { f < length self.now.writes }
        ensures answer { result.now ≡ slice_index_or self.now.writes f [] }
    {
        &self.writes[f as usize]
    }
}

/// The cells that the effects of one function may touch.
fn touched(
    alloc: Global,
    program: &Checked,
    points: &Points,
    access: Access,
    effects: &[Effect],
) -> Result<BitRow, NoMemory>
    requires points { ArePointsOf program.now points.now }
    ensures universe { IfOk result (λ row. universe_of row ≡ cell_count program.now) }
    ensures answer { IfOk result (λ row. (c : ℕ) → c < cell_count program.now → (has row c ≡ true) ↔ Touches program.now access effects.now c) }
{
    let mut row = BitRow::new(alloc, program.cells())?;
    add_effects(alloc, &mut row, program, points, access, effects)?;
    Ok(row)
}

fn push(rows: &mut Vec<BitRow>, row: BitRow) -> Result<(), AllocError>
    ensures answer { OnOk result (rows.new.items ≡ rows.old.items ++ row ∷ []) }
{
    rows.push(row)?;
    Ok(())
}

/// The cells that the effects of each function may touch.
fn goals_of(
    alloc: Global,
    program: &Checked,
    points: &Points,
    access: Access,
    bodies: &[Items<Effect>],
) -> Result<Vec<BitRow>, NoMemory>
    requires points { ArePointsOf program.now points.now }
    ensures answer { IfOk result (λ rows. AreSets (cell_count program.now) (length bodies.now) (λ f c. Touches program.now access (body_of bodies.now f) c) rows.items) }
{
    let mut rows = Vec::new(alloc);
    'bodies: for body in bodies {
        let row = touched(alloc, program, points, access, body.as_slice())?;
        push(&mut rows, row)?;
    }
    Ok(rows)
}

/// For each function the cells that it may read, or may write, with all that it reaches by calls.
fn accesses(
    alloc: Global,
    program: &Checked,
    points: &Points,
    access: Access,
    bodies: &[Items<Effect>],
    edges: &[(u32, u32)],
) -> Result<Vec<CellSet>, NoMemory>
    requires points { ArePointsOf program.now points.now }
    requires calls { AreCalls bodies.now edges.now }
    ensures answer { IfOk result (λ sets. AreSets (cell_count program.now) (length bodies.now) (ReachesAccess program.now bodies.now access) sets.items) }
{
    let goals = goals_of(alloc, program, points, access, bodies)?;
    let sets = reached(alloc, edges, &goals, program.cells())?;
    Ok(sets)
}

/// Finds for each function the cells that it may read, and those that it may write. The points are the program's.
pub fn find_summaries(
    alloc: Global,
    program: &Checked,
    points: &Points,
) -> Result<Summaries, NoMemory>
    requires points { ArePointsOf program.now points.now }
    ensures answer { IfOk result (λ summaries. AreSummariesOf program.now summaries) }
{
    let bodies = bodies_of(alloc, program.tree().functions.as_slice())?;
    let edges = calls_of(alloc, bodies.as_slice())?;
    let reads = accesses(
        alloc,
        program,
        points,
        Access::Read,
        bodies.as_slice(),
        &edges,
    )?;
    let writes = accesses(
        alloc,
        program,
        points,
        Access::Write,
        bodies.as_slice(),
        &edges,
    )?;
    Ok(Summaries { reads, writes })
}
