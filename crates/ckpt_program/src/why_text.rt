//! The text of why a cell is kept.

ghost use Rattle.std.specs.Prelude.{◌≡◌, ◌<◌, ◌≤◌, ◌++◌, ◌∷◌, IfOk, OnOk};
ghost use Rattle.std.specs.Fmt.{decimal};
ghost use Rattle.c_tree.specs.Layout.{cell_count};
ghost use Rattle.c_tree.specs.CellNames.{cell_name};
ghost use Rattle.path_laws.specs.Graph.{IsWhole};
ghost use Rattle.flow_graph.specs.MainGraph.{IsMainGraph};
ghost use Rattle.ckpt_program.specs.Why as spec;
ghost use Rattle.ckpt_program.specs.Why.{HasBoth, IsReasonIn, IsReasonText};

use crate::graphs::make_graphs;
use c_tree::Checked;
use ckpt_base::{NoMemory, Text};
use exclusion_equations::find_exclusions;
use exclusion_reason::{Reason, Walk, why};
use path_laws::EffectGraph;
use std::alloc::{AllocError, Global};

/// What `why` prints for a program: the name of the cell, what it is under the EXCLUDE_HERE, and the walks that show it.
pub fn reason_of(
    alloc: Global,
    program: &Checked,
    exclude: u16,
    cell: u32,
) -> Result<Text, NoMemory>
    requires first { 1 ≤ exclude }
    requires both { HasBoth program.now exclude cell }
    ensures answer { IfOk result (λ t. IsReasonText program.now exclude cell t) }
{
    let graphs = make_graphs(alloc, program)?;
    let reason = reason_in(alloc, program, graphs.main(), exclude, cell)?;
    reason_text(alloc, program, cell, &reason)
}

/// The reason, by the graph of `main`.
fn reason_in(
    alloc: Global,
    program: &Checked,
    main: &EffectGraph,
    exclude: u16,
    cell: u32,
) -> Result<Reason, NoMemory>
    requires main { IsMainGraph program.now main.now }
    requires whole { IsWhole main.now }
    requires first { 1 ≤ exclude }
    requires both { HasBoth program.now exclude cell }
    ensures reason { IfOk result (λ r. IsReasonIn program.now exclude cell r) }
{
    let sets = find_exclusions(alloc, main)?;
    why(alloc, main, &sets, exclude, cell)
}

/// Writes a reason.
fn reason_text(
    alloc: Global,
    program: &Checked,
    cell: u32,
    reason: &Reason,
) -> Result<Text, NoMemory>
    requires cell { cell < cell_count program.now }
    ensures answer { IfOk result (λ t. t ≡ cell_name program.now cell ++ spec.reason_text reason.now) }
{
    let name = program.cell_name(alloc, cell)?;
    let mut text = Vec::from_slice(alloc, name.as_bytes())?;
    add_reason(alloc, &mut text, reason)?;
    Text::of_bytes(alloc, &text)
}

/// Writes what the cell is, and the walks that show it.
fn add_reason(alloc: Global, text: &mut Vec<u8>, reason: &Reason) -> Result<(), AllocError>
    ensures answer { OnOk result (text.new.items ≡ text.old.items ++ spec.reason_text reason.now) }
{
    match reason {
        Reason::Dead => text.extend_from_slice(b" dead\n"),
        Reason::ReadOnly { need } => {
            text.extend_from_slice(b" read-only\n")?;
            add_walk(alloc, text, "needed", need)
        }
        Reason::Kept { need, write } => {
            text.extend_from_slice(b" kept\n")?;
            add_walk(alloc, text, "needed", need)?;
            add_walk(alloc, text, "written", write)
        }
    }
}

/// Writes a walk, behind the word for what it shows.
fn add_walk(alloc: Global, text: &mut Vec<u8>, word: &str, walk: &Walk) -> Result<(), AllocError>
    ensures answer { OnOk result (text.new.items ≡ text.old.items ++ spec.walk_line word.now walk.now) }
{
    text.extend_from_slice(word.as_bytes())?;
    add_nodes(alloc, text, walk.nodes())?;
    text.push(b'\n')?;
    Ok(())
}

/// Writes nodes, a blank before each.
fn add_nodes(alloc: Global, text: &mut Vec<u8>, nodes: &[u32]) -> Result<(), AllocError>
    ensures answer { OnOk result (text.new.items ≡ text.old.items ++ spec.nodes_text nodes.now) }
{
    'nodes: for node in nodes {
        add_node(alloc, text, *node)?;
    }
    Ok(())
}

/// Writes a node and the blank before it.
fn add_node(alloc: Global, text: &mut Vec<u8>, node: u32) -> Result<(), AllocError>
    ensures answer { OnOk result (text.new.items ≡ text.old.items ++ (32 ∷ decimal node)) }
{
    let node = format!(in alloc; " {node}")?;
    text.extend_from_slice(node.as_bytes())?;
    Ok(())
}
