//! The graph of calls: an edge from each function to each that its text calls.

ghost use Rattle.std.specs.Prelude.{◌≡◌, ◌++◌, ◌∷◌, [], ◌<◌, ◌+◌, ◌&&◌, ◌||◌, ◌==◌, ℕ, OnOk, IfOk, length, vec_len, true, false};
ghost use Rattle.cell_sets.specs.Sets.{universe_of};
ghost use Rattle.path_laws.specs.Reaching.{joins, in_row, AllWide};
ghost use Rattle.access_summary.specs.Summaries.{bodies_from};
ghost use Rattle.access_summary.specs.CallEdges as spec;

use crate::bodies::effects_of;
use crate::effects::Effect;
use c_tree::RFunction;
use cell_sets::{BitRow, CellSet};
use ckpt_base::NoMemory;
use path_laws::reaching;
use sqlite_items::Items;
use std::alloc::{AllocError, Global};

fn next(number: u32) -> Result<u32, NoMemory>
    ensures answer { IfOk result (λ next. next ≡ number + 1) }
{
    number.checked_add(1).ok_or(NoMemory)
}

/// The effects of each function.
pub fn bodies_of(alloc: Global, functions: &[RFunction]) -> Result<Items<Items<Effect>>, NoMemory>
    ensures answer { IfOk result (λ bodies. bodies ≡ bodies_from 0 functions.now) }
{
    let mut bodies = Items::new(alloc);
    let mut number = 0;
    'functions: for function in functions {
        bodies.push(effects_of(alloc, Some(number), &function.body)?)?;
        number = next(number)?;
    }
    Ok(bodies)
}

fn push_edge(edges: &mut Vec<(u32, u32)>, n: u32, m: u32) -> Result<(), AllocError>
    ensures answer { OnOk result ((k p : ℕ) → joins edges.new.items k p ≡ (joins edges.old.items k p || ((n == k) && (m == p)))) }
{
    edges.push((n, m))?;
    Ok(())
}

/// Adds the edge of an effect, where it is a call of one of so many functions.
fn add_call(
    edges: &mut Vec<(u32, u32)>,
    caller: u32,
    effect: Effect,
    count: usize,
) -> Result<(), NoMemory>
    ensures answer { OnOk result (spec.AddsEdges edges.old.items edges.new.items (spec.IsCall caller count effect)) }
{
    match effect {
        Effect::Call(callee) => {
            if callee as usize >= count {
                return Ok(());
            }
            push_edge(edges, caller, callee)?;
            Ok(())
        }
        Effect::Read(_) => Ok(()),
        Effect::Write(_) => Ok(()),
    }
}

/// Adds the edges of a function's effects.
fn add_calls(
    edges: &mut Vec<(u32, u32)>,
    caller: u32,
    effects: &[Effect],
    count: usize,
) -> Result<(), NoMemory>
    ensures answer { OnOk result (spec.AddsEdges edges.old.items edges.new.items (spec.HasCall caller count effects.now)) }
{
    'effects: for effect in effects {
        add_call(edges, caller, *effect, count)?;
    }
    Ok(())
}

/// The calls between functions with these effects.
pub fn calls_of(alloc: Global, bodies: &[Items<Effect>]) -> Result<Vec<(u32, u32)>, NoMemory>
    ensures answer { IfOk result (λ edges. spec.AreCalls bodies.now edges.items) }
{
    let mut edges = Vec::new(alloc);
    let mut caller = 0;
    'bodies: for body in bodies {
        add_calls(&mut edges, caller, body.as_slice(), bodies.len())?;
        caller = next(caller)?;
    }
    Ok(edges)
}

fn push_row(rows: &mut Vec<BitRow>, row: BitRow) -> Result<(), AllocError>
    ensures answer { OnOk result (rows.new.items ≡ rows.old.items ++ row ∷ []) }
{
    rows.push(row)?;
    Ok(())
}

/// Rows without any number.
fn empty_rows(alloc: Global, count: usize, width: u32) -> Result<Vec<BitRow>, NoMemory>
    ensures len { IfOk result (λ rows. length rows.items ≡ count) }
    ensures wide { IfOk result (λ rows. AllWide width rows.items) }
    ensures none { IfOk result (λ rows. (n o : ℕ) → in_row rows.items n o ≡ false) }
{
    let mut rows = Vec::new(alloc);
    'rows: for n in 0..count {
        let _ = n;
        let row = BitRow::new(alloc, width)?;
        push_row(&mut rows, row)?;
    }
    Ok(rows)
}

/// Rows as sets.
fn sets_of(alloc: Global, rows: &[BitRow]) -> Result<Vec<CellSet>, NoMemory>
    ensures answer { IfOk result (λ sets. sets.items ≡ rows.now) }
{
    let mut sets = Vec::new(alloc);
    'rows: for row in rows {
        let set = CellSet::of_row(alloc, row)?;
        sets.push(set).map_err(AllocError::from)?;
    }
    Ok(sets)
}

/// For each function what it has itself, or what one has that it reaches by calls.
pub fn reached(
    alloc: Global,
    edges: &[(u32, u32)],
    goals: &[BitRow],
    width: u32,
) -> Result<Vec<CellSet>, NoMemory>
    requires within { (n m : ℕ) → joins edges.now n m ≡ true → (n < length goals.now) × (m < length goals.now) }
    requires wide { AllWide width goals.now }
    ensures answer { IfOk result (λ sets. spec.AreReached edges.now goals.now sets.items) }
    ensures wide { IfOk result (λ sets. AllWide width sets.items) }
{
    let stops = empty_rows(alloc, goals.len(), width)?;
    let rows = reaching(alloc, edges, goals, &stops, width)?;
    let sets = sets_of(alloc, &rows)?;
    Ok(sets)
}
