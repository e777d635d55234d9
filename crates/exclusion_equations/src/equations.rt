ghost use Rattle.std.specs.Prelude.{◌≡◌, ℕ, ◌<◌, ◌&&◌, ◌||◌, [], ◌∷◌, ◌++◌, true, length, IfOk, OnOk};
ghost use Rattle.cell_sets.specs.Sets.{universe_of, has};
ghost use Rattle.path_laws.specs.Graph.{has_edge, IsWhole, writes_of};
ghost use Rattle.path_laws.specs.Edge.{is_at};
ghost use Rattle.path_laws.specs.Reaching.{joins, AllWide};
ghost use Rattle.exclusion_equations.specs.Classes.{class_count, first_of};
ghost use Rattle.exclusion_equations.specs.Rows.{AreRows, AreReached, next_has, after, effect_of, has_effect, at_checkpoint, at_exclude, wanted_at, written_at, AreSpoiled, AreWritten};

use crate::classes::Classes;
use crate::signature::set_if;
use cell_sets::{BitRow, CellSet};
use ckpt_base::NoMemory;
use path_laws::{EffectGraph, reaching};
use std::alloc::{AllocError, Global};

#[derive(Clone, Copy)]
pub(crate) enum Effect {
    Reads,
    Kills,
}

fn set_of(graph: &EffectGraph, n: u32, effect: Effect) -> &CellSet
    requires node { n < length graph.now.nodes }
    ensures answer { result.now ≡ effect_of effect graph.now n }
{
    match effect {
        Effect::Reads => graph.reads(n),
        Effect::Kills => graph.kills(n),
    }
}

fn push(rows: &mut Vec<BitRow>, row: BitRow) -> Result<(), AllocError>
    ensures answer { OnOk result (rows.new.items ≡ rows.old.items ++ row ∷ []) }
{
    rows.push(row)?;
    Ok(())
}

// The classes of the set.
fn class_row(alloc: Global, classes: &Classes, set: &CellSet) -> Result<BitRow, NoMemory>
    ensures universe { IfOk result (λ r. universe_of r ≡ class_count classes.now) }
    ensures answer { IfOk result (λ r. (k : ℕ) → k < class_count classes.now → has r k ≡ has set.now (first_of classes.now k)) }
{
    let mut row = BitRow::new(alloc, classes.count())?;
    'classes: for k in 0..classes.count() {
        set_if(&mut row, k, set.holds(classes.least(k)));
    }
    Ok(row)
}

// One of the sets of each node.
fn effect_rows(
    alloc: Global,
    graph: &EffectGraph,
    classes: &Classes,
    which: Effect,
) -> Result<Vec<BitRow>, NoMemory>
    ensures rows { IfOk result (λ v. AreRows (class_count classes.now) (length graph.now.nodes) (has_effect which graph.now classes.now) v.items) }
{
    let mut rows = Vec::new(alloc);
    'nodes: for n in 0..graph.nodes() {
        let row = class_row(alloc, classes, set_of(graph, n, which))?;
        push(&mut rows, row)?;
    }
    Ok(rows)
}

// All numbers, or none.
fn all_or_none(alloc: Global, width: u32, all: bool) -> Result<BitRow, NoMemory>
    ensures universe { IfOk result (λ r. universe_of r ≡ width) }
    ensures answer { IfOk result (λ r. (k : ℕ) → k < width → has r k ≡ all) }
{
    let mut row = BitRow::new(alloc, width)?;
    if all {
        row.set_range(0, width);
    }
    Ok(row)
}

// All numbers at each EXCLUDE_HERE.
fn exclude_rows(alloc: Global, graph: &EffectGraph, width: u32) -> Result<Vec<BitRow>, NoMemory>
    ensures rows { IfOk result (λ v. AreRows width (length graph.now.nodes) (at_exclude graph.now) v.items) }
{
    let mut rows = Vec::new(alloc);
    'nodes: for n in 0..graph.nodes() {
        let row = all_or_none(alloc, width, graph.mark(n).is_exclude())?;
        push(&mut rows, row)?;
    }
    Ok(rows)
}

// All numbers at each CHECKPOINT_HERE.
fn checkpoint_rows(alloc: Global, graph: &EffectGraph, width: u32) -> Result<Vec<BitRow>, NoMemory>
    ensures rows { IfOk result (λ v. AreRows width (length graph.now.nodes) (at_checkpoint graph.now) v.items) }
{
    let mut rows = Vec::new(alloc);
    'nodes: for n in 0..graph.nodes() {
        let row = all_or_none(alloc, width, graph.mark(n).is_checkpoint())?;
        push(&mut rows, row)?;
    }
    Ok(rows)
}

fn add_next(row: &mut BitRow, rows: &[BitRow], next: Option<u32>)
    requires wide { AllWide (universe_of row.old) rows.now }
    requires in_range { (m : ℕ) → is_at next m ≡ true → m < length rows.now }
    ensures universe { universe_of row.new ≡ universe_of row.old }
    ensures answer { (k : ℕ) → has row.new k ≡ (has row.old k || next_has rows.now next k) }
{
    if let Some(m) = next {
        row.or_from(&rows[m as usize]);
    }
}

// What the nodes after node `n` have.
pub(crate) fn gather(
    alloc: Global,
    graph: &EffectGraph,
    n: u32,
    rows: &[BitRow],
    width: u32,
) -> Result<BitRow, NoMemory>
    requires node { n < length graph.now.nodes }
    requires whole { IsWhole graph.now }
    requires rows_len { length rows.now ≡ length graph.now.nodes }
    requires wide { AllWide width rows.now }
    ensures universe { IfOk result (λ r. universe_of r ≡ width) }
    ensures answer { IfOk result (λ r. (k : ℕ) → has r k ≡ after graph.now rows.now n k) }
{
    let (first, second) = graph.next(n);
    let mut row = BitRow::new(alloc, width)?;
    add_next(&mut row, rows, first);
    add_next(&mut row, rows, second);
    Ok(row)
}

// At a CHECKPOINT_HERE what is wanted after it.
fn wanted_row(
    alloc: Global,
    graph: &EffectGraph,
    n: u32,
    wanted: &[BitRow],
    width: u32,
) -> Result<BitRow, NoMemory>
    requires node { n < length graph.now.nodes }
    requires whole { IsWhole graph.now }
    requires rows_len { length wanted.now ≡ length graph.now.nodes }
    requires wide { AllWide width wanted.now }
    ensures universe { IfOk result (λ r. universe_of r ≡ width) }
    ensures answer { IfOk result (λ r. (k : ℕ) → has r k ≡ wanted_at graph.now wanted.now n k) }
{
    if graph.mark(n).is_checkpoint() {
        gather(alloc, graph, n, wanted, width)
    } else {
        BitRow::new(alloc, width)
    }
}

fn wanted_goals(
    alloc: Global,
    graph: &EffectGraph,
    wanted: &[BitRow],
    width: u32,
) -> Result<Vec<BitRow>, NoMemory>
    requires whole { IsWhole graph.now }
    requires rows_len { length wanted.now ≡ length graph.now.nodes }
    requires wide { AllWide width wanted.now }
    ensures rows { IfOk result (λ v. AreRows width (length graph.now.nodes) (wanted_at graph.now wanted.now) v.items) }
{
    let mut rows = Vec::new(alloc);
    'nodes: for n in 0..graph.nodes() {
        let row = wanted_row(alloc, graph, n, wanted, width)?;
        push(&mut rows, row)?;
    }
    Ok(rows)
}

// The classes that node `n` may write, where a row has them.
fn written_row(
    alloc: Global,
    graph: &EffectGraph,
    classes: &Classes,
    n: u32,
    coming: &BitRow,
) -> Result<BitRow, NoMemory>
    requires node { n < length graph.now.nodes }
    requires equal { universe_of coming.now ≡ class_count classes.now }
    ensures universe { IfOk result (λ r. universe_of r ≡ class_count classes.now) }
    ensures answer { IfOk result (λ r. (k : ℕ) → k < class_count classes.now → has r k ≡ (has (writes_of graph.now n) (first_of classes.now k) && has coming.now k)) }
{
    let writes = graph.writes(n);
    let mut row = BitRow::new(alloc, classes.count())?;
    'classes: for k in 0..classes.count() {
        set_if(&mut row, k, writes.holds(classes.least(k)) && coming.get(k));
    }
    Ok(row)
}

fn written_goal(
    alloc: Global,
    graph: &EffectGraph,
    classes: &Classes,
    n: u32,
    coming: &[BitRow],
) -> Result<BitRow, NoMemory>
    requires node { n < length graph.now.nodes }
    requires whole { IsWhole graph.now }
    requires rows_len { length coming.now ≡ length graph.now.nodes }
    requires wide { AllWide (class_count classes.now) coming.now }
    ensures universe { IfOk result (λ r. universe_of r ≡ class_count classes.now) }
    ensures answer { IfOk result (λ r. (k : ℕ) → k < class_count classes.now → has r k ≡ written_at graph.now classes.now coming.now n k) }
{
    if graph.mark(n).is_exclude() {
        BitRow::new(alloc, classes.count())
    } else {
        let after = gather(alloc, graph, n, coming, classes.count())?;
        written_row(alloc, graph, classes, n, &after)
    }
}

fn written_goals(
    alloc: Global,
    graph: &EffectGraph,
    classes: &Classes,
    coming: &[BitRow],
) -> Result<Vec<BitRow>, NoMemory>
    requires whole { IsWhole graph.now }
    requires rows_len { length coming.now ≡ length graph.now.nodes }
    requires wide { AllWide (class_count classes.now) coming.now }
    ensures rows { IfOk result (λ v. AreRows (class_count classes.now) (length graph.now.nodes) (written_at graph.now classes.now coming.now) v.items) }
{
    let mut rows = Vec::new(alloc);
    'nodes: for n in 0..graph.nodes() {
        let row = written_goal(alloc, graph, classes, n, coming)?;
        push(&mut rows, row)?;
    }
    Ok(rows)
}

// What is wanted at each node: some walk from it comes to a read with no kill before.
fn wanted_rows(
    alloc: Global,
    graph: &EffectGraph,
    edges: &[(u32, u32)],
    classes: &Classes,
) -> Result<Vec<BitRow>, NoMemory>
    requires whole { IsWhole graph.now }
    requires edges { (n m : ℕ) → joins edges.now n m ≡ has_edge graph.now n m }
    ensures reached { IfOk result (λ v. AreReached graph.now (class_count classes.now) (has_effect Effect.Reads graph.now classes.now) (has_effect Effect.Kills graph.now classes.now) v.items) }
{
    let reads = effect_rows(alloc, graph, classes, Effect::Reads)?;
    let kills = effect_rows(alloc, graph, classes, Effect::Kills)?;
    let rows = reaching(alloc, edges, &reads, &kills, classes.count())?;
    Ok(rows)
}

// Where a CHECKPOINT_HERE comes, with no EXCLUDE_HERE before, after which a class is wanted.
pub(crate) fn spoiled_rows(
    alloc: Global,
    graph: &EffectGraph,
    edges: &[(u32, u32)],
    classes: &Classes,
) -> Result<Vec<BitRow>, NoMemory>
    requires whole { IsWhole graph.now }
    requires edges { (n m : ℕ) → joins edges.now n m ≡ has_edge graph.now n m }
    ensures reached { IfOk result (λ v. AreSpoiled graph.now classes.now v.items) }
{
    let width = classes.count();
    let wanted = wanted_rows(alloc, graph, edges, classes)?;
    let goals = wanted_goals(alloc, graph, &wanted, width)?;
    let stops = exclude_rows(alloc, graph, width)?;
    let rows = reaching(alloc, edges, &goals, &stops, width)?;
    Ok(rows)
}

// Where a CHECKPOINT_HERE comes with no EXCLUDE_HERE before.
fn coming_rows(
    alloc: Global,
    graph: &EffectGraph,
    edges: &[(u32, u32)],
    width: u32,
) -> Result<Vec<BitRow>, NoMemory>
    requires whole { IsWhole graph.now }
    requires edges { (n m : ℕ) → joins edges.now n m ≡ has_edge graph.now n m }
    ensures reached { IfOk result (λ v. AreReached graph.now width (at_checkpoint graph.now) (at_exclude graph.now) v.items) }
{
    let goals = checkpoint_rows(alloc, graph, width)?;
    let stops = exclude_rows(alloc, graph, width)?;
    let rows = reaching(alloc, edges, &goals, &stops, width)?;
    Ok(rows)
}

// Where a write of a class comes, and a CHECKPOINT_HERE after it, with no EXCLUDE_HERE before that.
pub(crate) fn written_rows(
    alloc: Global,
    graph: &EffectGraph,
    edges: &[(u32, u32)],
    classes: &Classes,
) -> Result<Vec<BitRow>, NoMemory>
    requires whole { IsWhole graph.now }
    requires edges { (n m : ℕ) → joins edges.now n m ≡ has_edge graph.now n m }
    ensures reached { IfOk result (λ v. AreWritten graph.now classes.now v.items) }
{
    let width = classes.count();
    let coming = coming_rows(alloc, graph, edges, width)?;
    let goals = written_goals(alloc, graph, classes, &coming)?;
    let stops = exclude_rows(alloc, graph, width)?;
    let rows = reaching(alloc, edges, &goals, &stops, width)?;
    Ok(rows)
}
