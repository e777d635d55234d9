//! The flows of a text as a graph: nodes are the numbers of variables.

ghost use Rattle.std.specs.Prelude.{◌≡◌, ◌≢◌, ◌<◌, ◌≤◌, ◌&&◌, ◌||◌, ◌==◌, ◌⊎◌, ℕ, List, [], ◌∷◌, ◌++◌, IfOk, OnOk, IfSome, None, Some, true, false, length, slice_get, vec_len};
ghost use Rattle.cell_sets.specs.Sets.{has, universe_of};
ghost use Rattle.path_laws.specs.Reaching.{joins, in_row, AllWide};
ghost use Rattle.alias_sets.specs.Numbers.{IsNumber, IsNumbered, AreApart, AllNumbered, FlowNumbered};
ghost use Rattle.alias_sets.specs.Nodes.{IsEdgeOf, IsGoalOf, AreEdgesBelow, AreGoalsBelow, IsBelow, AreBelow};

use crate::flows::{Flow, PointerVar, Source};
use crate::numbering::number_of;
use cell_sets::BitRow;
use ckpt_base::NoMemory;
use indexmap::IndexSet;
use std::alloc::{AllocError, Global};

/// The number of a variable that has one, as a node.
fn node_of(variables: &IndexSet<PointerVar>, variable: PointerVar) -> Result<u32, NoMemory>
    requires numbered { IsNumbered variables.now.keys variable }
    ensures answer { IfOk result (λ n. IsNumber variables.now.keys variable n) }
{
    match number_of(variables, variable) {
        None => unreachable!(),
        Some(number) => narrow(number),
    }
}

/// A number as one of 32 bits; there is no memory for more variables.
fn narrow(number: usize) -> Result<u32, NoMemory>
    ensures answer { IfOk result (λ n. n ≡ number) }
{
    if number > u32::MAX as usize {
        return Err(NoMemory);
    }
    Ok(number as u32)
}

fn push_edge(edges: &mut Vec<(u32, u32)>, n: u32, m: u32) -> Result<(), AllocError>
    ensures answer { OnOk result ((k p : ℕ) → joins edges.new.items k p ≡ (joins edges.old.items k p || ((n == k) && (m == p)))) }
{
    edges.push((n, m))?;
    Ok(())
}

/// Adds the edge of a flow, where it is one from a variable.
fn add_edge(
    edges: &mut Vec<(u32, u32)>,
    variables: &IndexSet<PointerVar>,
    flow: Flow,
) -> Result<(), NoMemory>
    requires apart { AreApart variables.now.keys }
    requires numbered { FlowNumbered variables.now.keys flow }
    ensures kept { OnOk result ((n m : ℕ) → joins edges.old.items n m ≡ true → joins edges.new.items n m ≡ true) }
    ensures added { OnOk result ((n m : ℕ) → IsEdgeOf variables.now.keys flow n m → joins edges.new.items n m ≡ true) }
    ensures only { OnOk result ((n m : ℕ) → joins edges.new.items n m ≡ true → (joins edges.old.items n m ≡ true) ⊎ IsEdgeOf variables.now.keys flow n m) }
{
    match flow.from {
        Source::Variable(from) => {
            let n = node_of(variables, flow.into)?;
            let m = node_of(variables, from)?;
            push_edge(edges, n, m)?;
            Ok(())
        }
        Source::Nothing => Ok(()),
        Source::Object(_) => Ok(()),
    }
}

/// The edges of all flows.
pub fn edges_of(
    alloc: Global,
    variables: &IndexSet<PointerVar>,
    flows: &[Flow],
) -> Result<Vec<(u32, u32)>, NoMemory>
    requires apart { AreApart variables.now.keys }
    requires numbered { AllNumbered variables.now.keys flows.now }
    ensures answer { IfOk result (λ edges. AreEdgesBelow variables.now.keys flows.now (length flows.now) edges.items) }
{
    let mut edges = Vec::new(alloc);
    'flows: for flow in flows {
        add_edge(&mut edges, variables, *flow)?;
    }
    Ok(edges)
}

fn set_in(goals: &mut Vec<BitRow>, n: usize, object: u32, width: u32)
    requires node { n < vec_len goals.old }
    requires wide { AllWide width goals.old.items }
    requires within { object < width }
    ensures len { vec_len goals.new ≡ vec_len goals.old }
    ensures wide { AllWide width goals.new.items }
    ensures answer { (k o : ℕ) → in_row goals.new.items k o ≡ (in_row goals.old.items k o || ((k == n) && (o == object))) }
{
    let row = &mut goals[n];
    row.set(object);
}

/// Adds the goal of a flow, where it is one from an object.
fn add_goal(
    goals: &mut Vec<BitRow>,
    variables: &IndexSet<PointerVar>,
    flow: Flow,
    width: u32,
) -> Result<(), NoMemory>
    requires apart { AreApart variables.now.keys }
    requires numbered { FlowNumbered variables.now.keys flow }
    requires len { vec_len goals.old ≡ length variables.now.keys }
    requires wide { AllWide width goals.old.items }
    requires within { IsBelow width flow.from }
    ensures len { OnOk result (vec_len goals.new ≡ vec_len goals.old) }
    ensures wide { OnOk result (AllWide width goals.new.items) }
    ensures kept { OnOk result ((n o : ℕ) → in_row goals.old.items n o ≡ true → in_row goals.new.items n o ≡ true) }
    ensures added { OnOk result ((n o : ℕ) → IsGoalOf variables.now.keys flow n o → in_row goals.new.items n o ≡ true) }
    ensures only { OnOk result ((n o : ℕ) → in_row goals.new.items n o ≡ true → (in_row goals.old.items n o ≡ true) ⊎ IsGoalOf variables.now.keys flow n o) }
{
    match flow.from {
        Source::Object(object) => {
            let n = node_of(variables, flow.into)?;
            set_in(goals, n as usize, object, width);
            Ok(())
        }
        Source::Nothing => Ok(()),
        Source::Variable(_) => Ok(()),
    }
}

/// Rows without any number.
pub fn empty_rows(alloc: Global, count: usize, width: u32) -> Result<Vec<BitRow>, NoMemory>
    ensures len { IfOk result (λ rows. length rows.items ≡ count) }
    ensures wide { IfOk result (λ rows. AllWide width rows.items) }
    ensures none { IfOk result (λ rows. (n o : ℕ) → in_row rows.items n o ≡ false) }
{
    let mut rows = Vec::new(alloc);
    'rows: for n in 0..count {
        let _ = n;
        let row = BitRow::new(alloc, width)?;
        push_row(&mut rows, row)?;
    }
    Ok(rows)
}

fn push_row(rows: &mut Vec<BitRow>, row: BitRow) -> Result<(), AllocError>
    ensures answer { OnOk result (rows.new.items ≡ rows.old.items ++ row ∷ []) }
{
    rows.push(row)?;
    Ok(())
}

/// For each variable the objects that flow into it by their address.
pub fn goals_of(
    alloc: Global,
    variables: &IndexSet<PointerVar>,
    flows: &[Flow],
    width: u32,
) -> Result<Vec<BitRow>, NoMemory>
    requires apart { AreApart variables.now.keys }
    requires numbered { AllNumbered variables.now.keys flows.now }
    requires within { AreBelow width flows.now }
    ensures len { IfOk result (λ rows. length rows.items ≡ length variables.now.keys) }
    ensures wide { IfOk result (λ rows. AllWide width rows.items) }
    ensures answer { IfOk result (λ rows. AreGoalsBelow variables.now.keys flows.now (length flows.now) rows.items) }
{
    let mut goals = empty_rows(alloc, variables.len(), width)?;
    'flows: for flow in flows {
        add_goal(&mut goals, variables, *flow, width)?;
    }
    Ok(goals)
}

/// The width, or one more than the object that the source is, where that is more.
fn wider(width: u32, source: Source) -> Result<u32, NoMemory>
    ensures grown { IfOk result (λ w. width ≤ w) }
    ensures answer { IfOk result (λ w. IsBelow w source) }
{
    match source {
        Source::Object(object) => {
            if object < width {
                return Ok(width);
            }
            object.checked_add(1).ok_or(NoMemory)
        }
        Source::Nothing => Ok(width),
        Source::Variable(_) => Ok(width),
    }
}

/// A number that all objects among the flows are below.
pub fn width_of(flows: &[Flow]) -> Result<u32, NoMemory>
    ensures answer { IfOk result (λ width. AreBelow width flows.now) }
{
    let mut width = 0;
    'flows: for flow in flows {
        width = wider(width, flow.from)?;
    }
    Ok(width)
}
