//! The graph of `main` with the effects of its nodes.

ghost use Rattle.std.specs.Prelude.{◌≡◌, ◌<◌, length, IfOk, OnOk, None};
ghost use Rattle.path_laws.specs.Graph.{IsWhole};
ghost use Rattle.c_tree.specs.Layout.{cell_count};
ghost use Rattle.alias_sets.specs.Points.{ArePointsOf};
ghost use Rattle.access_summary.specs.Edges.{edges_of_body};
ghost use Rattle.access_summary.specs.Summaries.{AreSummariesOf};
ghost use Rattle.flow_graph.specs.Works.{works_of_body};
ghost use Rattle.flow_graph.specs.MainGraph as spec;
ghost use Rattle.flow_graph.specs.Building.{AddsNode};
ghost use Rattle.flow_graph.specs.Checkpoints as checkpoints;

use crate::node::NodeWork;
use crate::node_effects::node_sets;
use access_summary::{Edge, EdgeList, Summaries};
use alias_sets::Points;
use c_tree::Checked;
use ckpt_base::NoMemory;
use path_laws::{EffectGraph, Mark};
use sqlite_items::Items;
use std::alloc::Global;

/// What a node is besides its effects.
fn mark(work: &NodeWork) -> Mark
    ensures answer { result ≡ spec.mark work.now }
{
    match work {
        NodeWork::Checkpoint => Mark::Checkpoint,
        NodeWork::Exclude(number) => Mark::Exclude(*number),
        _ => Mark::Plain,
    }
}

/// Adds a node of `main`, with its edges and the cells that it may read, may write, and kills.
fn add_node(
    alloc: Global,
    program: &Checked,
    points: &Points,
    summaries: &Summaries,
    next: Edge,
    work: &NodeWork,
    graph: &mut EffectGraph,
) -> Result<(), NoMemory>
    requires points { ArePointsOf program.now points.now }
    requires summaries { AreSummariesOf program.now summaries.now }
    requires cells { graph.old.cells ≡ cell_count program.now }
    requires room { length graph.old.nodes < 4294967295 }
    ensures added { OnOk result (AddsNode program.now next work.now graph.old graph.new) }
{
    let sets = node_sets(alloc, program, points, summaries, None, work)?;
    graph.add(next, mark(work), sets.reads, sets.writes, sets.kills)?;
    Ok(())
}

/// The graph of `main` with the effects of its nodes, from their edges and what they do.
pub fn main_effects(
    alloc: Global,
    program: &Checked,
    points: &Points,
    summaries: &Summaries,
    edges: &EdgeList,
    works: &[NodeWork],
) -> Result<EffectGraph, NoMemory>
    requires points { ArePointsOf program.now points.now }
    requires summaries { AreSummariesOf program.now summaries.now }
    requires edges { edges.now ≡ edges_of_body program.now.main.body }
    requires works { works.now ≡ works_of_body program.now.main.body }
    ensures answer { IfOk result (λ g. spec.IsMainGraph program.now g) }
{
    let mut graph = EffectGraph::start(alloc, program.cells(), edges.entry())?;
    'nodes: for n in 0..edges.nodes() {
        let work = &works[n as usize];
        add_node(
            alloc,
            program,
            points,
            summaries,
            edges.next(n),
            work,
            &mut graph,
        )?;
    }
    Ok(graph)
}

fn is_checkpoint(work: &NodeWork) -> bool
    ensures answer { result ≡ checkpoints.is_checkpoint work.now }
{
    matches!(work, NodeWork::Checkpoint)
}

/// The nodes that are CHECKPOINT_HERE, rising.
pub fn checkpoint_nodes(alloc: Global, works: &[NodeWork]) -> Result<Items<u32>, NoMemory>
    requires small { length works.now < 4294967296 }
    ensures answer { IfOk result (λ ns. ns ≡ checkpoints.checkpoints_of works.now) }
{
    let mut nodes = Items::new(alloc);
    'works: for (n, work) in works.iter().enumerate() {
        if is_checkpoint(work) {
            nodes.push(n as u32)?;
        }
    }
    Ok(nodes)
}
