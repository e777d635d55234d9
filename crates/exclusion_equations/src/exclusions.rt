ghost use Rattle.std.specs.Prelude.{◌≡◌, ℕ, ◌<◌, ◌≤◌, ◌&&◌, not, true, [], ◌∷◌, ◌++◌, length, IfOk, OnOk};
ghost use Rattle.cell_sets.specs.Sets.{universe_of, has};
ghost use Rattle.path_laws.specs.Graph.{IsWhole, mark_is_directive, is_directive, exclude_count};
ghost use Rattle.exclusion_equations.specs.Classes.{AreClasses, class_of};
ghost use Rattle.exclusion_equations.specs.Excluded.{dead_of, read_only_of, AreExact, IsExactly, IsDead, IsReadOnly};
ghost use Rattle.exclusion_equations.specs.Rows.{AreSpoiled, AreWritten};

use crate::classes::Classes;
use crate::equations::{gather, spoiled_rows, written_rows};
use crate::signature::set_if;
use cell_sets::{BitRow, CellSet};
use ckpt_base::NoMemory;
use path_laws::{EffectGraph, Mark};
use std::alloc::{AllocError, Global};
use std::marker::Model;

/// The excluded sets: for each EXCLUDE_HERE its dead and its read-only cells.
#[derive(Drop)]
pub struct Exclusions {
    dead: Vec<CellSet>,
    read_only: Vec<CellSet>,
}

impl Model for Exclusions {
    ghost use Rattle.exclusion_equations.specs.Excluded.{Sets};

    ghost Value = { Sets };

    ghost view = { λ e. record { dead = e.dead.items; read_only = e.read_only.items } };
}

impl Exclusions {
    /// The dead cells of EXCLUDE_HERE `k`: no walk from it comes to a CHECKPOINT_HERE at which they are wanted.
    #[tactic(auto, using(crate::proofs::ClassLaws::numbered_at))]
    pub fn dead(&self, k: u16) -> &CellSet
        requires first { 1 ≤ k }
        requires last { k ≤ length self.now.dead }
        ensures answer { result.now ≡ dead_of self.now k }
    {
        &self.dead[k as usize - 1]
    }

    /// The read-only cells of EXCLUDE_HERE `k`: they are not dead, and no walk from it writes them before a CHECKPOINT_HERE.
    #[tactic(auto, using(crate::proofs::ClassLaws::numbered_at))]
    pub fn read_only(&self, k: u16) -> &CellSet
        requires first { 1 ≤ k }
        requires last { k ≤ length self.now.read_only }
        ensures answer { result.now ≡ read_only_of self.now k }
    {
        &self.read_only[k as usize - 1]
    }
}

// The cells whose class is not in the row.
fn dead_cells(
    alloc: Global,
    classes: &Classes,
    cells: u32,
    spoiled: &BitRow,
) -> Result<CellSet, NoMemory>
    requires each { length classes.now.numbers ≡ cells }
    requires below { (c : ℕ) → c < cells → class_of classes.now c < universe_of spoiled.now }
    ensures universe { IfOk result (λ s. universe_of s ≡ cells) }
    ensures answer { IfOk result (λ s. (c : ℕ) → c < cells → has s c ≡ not (has spoiled.now (class_of classes.now c))) }
{
    let mut row = BitRow::new(alloc, cells)?;
    'cells: for c in 0..cells {
        set_if(&mut row, c, !spoiled.get(classes.class(c)));
    }
    CellSet::of_row(alloc, &row)
}

// The cells whose class is in the first row and not in the second.
fn read_only_cells(
    alloc: Global,
    classes: &Classes,
    cells: u32,
    spoiled: &BitRow,
    written: &BitRow,
) -> Result<CellSet, NoMemory>
    requires each { length classes.now.numbers ≡ cells }
    requires below { (c : ℕ) → c < cells → class_of classes.now c < universe_of spoiled.now }
    requires below_too { (c : ℕ) → c < cells → class_of classes.now c < universe_of written.now }
    ensures universe { IfOk result (λ s. universe_of s ≡ cells) }
    ensures answer { IfOk result (λ s. (c : ℕ) → c < cells → has s c ≡ (has spoiled.now (class_of classes.now c) && not (has written.now (class_of classes.now c)))) }
{
    let mut row = BitRow::new(alloc, cells)?;
    'cells: for c in 0..cells {
        let class = classes.class(c);
        set_if(&mut row, c, spoiled.get(class) && !written.get(class));
    }
    CellSet::of_row(alloc, &row)
}

// The dead cells of the EXCLUDE_HERE at node `n`.
fn dead_at(
    alloc: Global,
    graph: &EffectGraph,
    classes: &Classes,
    n: u32,
    spoiled: &[BitRow],
) -> Result<CellSet, NoMemory>
    requires node { n < length graph.now.nodes }
    requires whole { IsWhole graph.now }
    requires classes { AreClasses graph.now classes.now }
    requires spoiled { AreSpoiled graph.now classes.now spoiled.now }
    ensures exact { IfOk result (λ s. (k : ℕ) → is_directive graph.now k n ≡ true → IsExactly graph.now.cells (IsDead graph.now k) s) }
{
    let after = gather(alloc, graph, n, spoiled, classes.count())?;
    let dead = dead_cells(alloc, classes, graph.cells(), &after)?;
    Ok(dead)
}

// The read-only cells of the EXCLUDE_HERE at node `n`.
fn read_only_at(
    alloc: Global,
    graph: &EffectGraph,
    classes: &Classes,
    n: u32,
    spoiled: &[BitRow],
    written: &[BitRow],
) -> Result<CellSet, NoMemory>
    requires node { n < length graph.now.nodes }
    requires whole { IsWhole graph.now }
    requires classes { AreClasses graph.now classes.now }
    requires spoiled { AreSpoiled graph.now classes.now spoiled.now }
    requires written { AreWritten graph.now classes.now written.now }
    ensures exact { IfOk result (λ s. (k : ℕ) → is_directive graph.now k n ≡ true → IsExactly graph.now.cells (IsReadOnly graph.now k) s) }
{
    let spoiled_after = gather(alloc, graph, n, spoiled, classes.count())?;
    let written_after = gather(alloc, graph, n, written, classes.count())?;
    let read_only = read_only_cells(
        alloc,
        classes,
        graph.cells(),
        &spoiled_after,
        &written_after,
    )?;
    Ok(read_only)
}

fn is_directive(mark: Mark, k: u32) -> bool
    ensures { result ≡ mark_is_directive k mark }
{
    match mark {
        Mark::Exclude(j) => j as u32 == k,
        _ => false,
    }
}

// The node of EXCLUDE_HERE `k`.
fn node_of(graph: &EffectGraph, k: u32) -> u32
    requires whole { IsWhole graph.now }
    requires first { 1 ≤ k }
    requires last { k ≤ exclude_count graph.now }
    ensures node { result < length graph.now.nodes }
    ensures answer { is_directive graph.now k result ≡ true }
{
    'nodes: for n in 0..graph.nodes() {
        if is_directive(graph.mark(n), k) {
            return n;
        }
    }
    unreachable!()
}

fn push(sets: &mut Vec<CellSet>, set: CellSet) -> Result<(), AllocError>
    ensures answer { OnOk result (sets.new.items ≡ sets.old.items ++ set ∷ []) }
{
    sets.push(set)?;
    Ok(())
}

// The sets of each EXCLUDE_HERE.
fn collect(
    alloc: Global,
    graph: &EffectGraph,
    classes: &Classes,
    spoiled: &[BitRow],
    written: &[BitRow],
) -> Result<Exclusions, NoMemory>
    requires whole { IsWhole graph.now }
    requires classes { AreClasses graph.now classes.now }
    requires spoiled { AreSpoiled graph.now classes.now spoiled.now }
    requires written { AreWritten graph.now classes.now written.now }
    ensures exact { IfOk result (λ e. AreExact graph.now e) }
{
    let mut dead = Vec::new(alloc);
    let mut read_only = Vec::new(alloc);
    'numbers: for k in 0..graph.excludes() {
        let n = node_of(graph, k + 1);
        let dead_cells = dead_at(alloc, graph, classes, n, spoiled)?;
        push(&mut dead, dead_cells)?;
        let read_only_cells = read_only_at(alloc, graph, classes, n, spoiled, written)?;
        push(&mut read_only, read_only_cells)?;
    }
    Ok(Exclusions { dead, read_only })
}

/// Finds for each EXCLUDE_HERE the cells that images may leave out.
///
/// Every edge and the entry of the graph name a node, and its EXCLUDE_HERE are numbered from 1 on, each number at one node.
pub fn find_exclusions(alloc: Global, graph: &EffectGraph) -> Result<Exclusions, NoMemory>
    requires whole { IsWhole graph.now }
    ensures exact { IfOk result (λ e. AreExact graph.now e) }
{
    let classes = Classes::of(alloc, graph)?;
    let edges = graph.edges()?;
    let spoiled = spoiled_rows(alloc, graph, &edges, &classes)?;
    let written = written_rows(alloc, graph, &edges, &classes)?;
    collect(alloc, graph, &classes, &spoiled, &written)
}
