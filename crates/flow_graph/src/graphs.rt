//! The graphs of a program.

ghost use Rattle.std.specs.Prelude.{◌≡◌, ◌<◌, length, map, slice_get, IfOk, IfSome, Some};
ghost use Rattle.path_laws.specs.Graph.{IsWhole};
ghost use Rattle.alias_sets.specs.Points.{ArePointsOf};
ghost use Rattle.access_summary.specs.Edges.{body_of};
ghost use Rattle.access_summary.specs.Summaries.{AreSummariesOf};
ghost use Rattle.flow_graph.specs.Works as spec;
ghost use Rattle.flow_graph.specs.Made.{graph_in, graphs_in, effects_in, checkpoints_in};
ghost use Rattle.flow_graph.specs.Run.{graph_of, graph_of_function, graphs_of, graph_at};
ghost use Rattle.flow_graph.specs.MainGraph.{IsMainGraph, main_of};
ghost use Rattle.flow_graph.specs.Checkpoints.{checkpoints_of};

use crate::function_graph::FunctionGraph;
use crate::main_effects::{checkpoint_nodes, main_effects};
use crate::node::NodeWork;
use crate::works::add_works;
use access_summary::{Edge, Summaries, edges};
use alias_sets::Points;
use c_tree::{Checked, RStmt};
use ckpt_base::NoMemory;
use path_laws::EffectGraph;
use sqlite_items::Items;
use std::alloc::Global;

/// The graphs of a program, and beside them that of `main` with the effects of its nodes.
#[derive(Drop)]
pub struct Graphs {
    main: FunctionGraph,
    functions: Items<FunctionGraph>,
    effects: EffectGraph,
    checkpoints: Items<u32>,
}

/// The graphs of a program, whose points and summaries these are. The one refusal is that no memory is found.
pub fn graph(
    alloc: Global,
    program: &Checked,
    points: &Points,
    summaries: &Summaries,
) -> Result<Graphs, NoMemory>
    requires points { ArePointsOf program.now points.now }
    requires summaries { AreSummariesOf program.now summaries.now }
    ensures graphs { IfOk result (λ g. graphs_in g ≡ graphs_of program.now) }
    ensures main { IfOk result (λ g. IsMainGraph program.now (effects_in g)) }
    ensures whole { IfOk result (λ g. IsWhole (effects_in g)) }
    ensures checkpoints { IfOk result (λ g. checkpoints_in g ≡ checkpoints_of (main_of program.now).works) }
{
    let functions = function_graphs(alloc, program)?;
    let main = body_graph(alloc, program, None, 0, &program.tree().main.body)?;
    let effects = main_effects(
        alloc,
        program,
        points,
        summaries,
        &main.edges,
        main.works.as_slice(),
    )?;
    let checkpoints = checkpoint_nodes(alloc, main.works.as_slice())?;
    Ok(Graphs {
        main,
        functions,
        effects,
        checkpoints,
    })
}

/// The graphs of the functions but `main`.
fn function_graphs(alloc: Global, program: &Checked) -> Result<Items<FunctionGraph>, NoMemory>
    ensures answer { IfOk result (λ gs. map graph_in gs ≡ map graph_of_function program.now.functions) }
{
    let mut graphs = Items::new(alloc);
    let functions = program.tree().functions.as_slice();
    'functions: for (i, function) in functions.iter().enumerate() {
        let count = function.locals.len();
        let made = body_graph(alloc, program, Some(i as u32), count, &function.body)?;
        graphs.push(made)?;
    }
    Ok(graphs)
}

/// The graph of a function with so many parameters and locals, and a body.
fn body_graph(
    alloc: Global,
    program: &Checked,
    f: Option<u32>,
    locals: usize,
    body: &RStmt,
) -> Result<FunctionGraph, NoMemory>
    requires found { IfSome f (λ i. i < length program.now.functions) }
    requires body { body_of program.now f ≡ Some body.now }
    ensures answer { IfOk result (λ g. graph_in g ≡ graph_of locals body.now) }
    ensures small { IfOk result (λ g. length g.works < 4294967296) }
{
    let edges = edges(alloc, program, f)?;
    let works = body_works(alloc, body)?;
    Ok(FunctionGraph {
        locals,
        edges,
        works,
    })
}

/// What the nodes of a body do, the end node last.
fn body_works(alloc: Global, body: &RStmt) -> Result<Items<NodeWork>, NoMemory>
    ensures answer { IfOk result (λ ws. ws ≡ spec.works_of_body body.now) }
{
    let mut works = Items::new(alloc);
    add_works(alloc, body, &mut works)?;
    works.push(NodeWork::End)?;
    Ok(works)
}

impl Graphs {
    /// The graph of a function, or of `main` for None.
    fn of(&self, f: Option<u32>) -> &FunctionGraph
        requires there { IfSome f (λ i. i < length self.now.functions) }
        ensures answer { graph_at (graphs_in self.now) f ≡ Some (graph_in result.now) }
    {
        match f {
            None => &self.main,
            Some(f) => &self.functions.as_slice()[f as usize],
        }
    }

    /// How many nodes a function has, or `main` for None, the end node included; the function is there.
    pub fn nodes(&self, f: Option<u32>) -> u32
        requires there { IfSome f (λ i. i < length (graphs_in self.now).functions) }
        ensures answer { IfSome (graph_at (graphs_in self.now) f) (λ g. result ≡ length g.edges) }
    {
        self.of(f).edges.nodes()
    }

    /// The node at which a function begins, or `main` for None; the function is there.
    pub fn entry(&self, f: Option<u32>) -> u32
        requires there { IfSome f (λ i. i < length (graphs_in self.now).functions) }
        ensures answer { IfSome (graph_at (graphs_in self.now) f) (λ g. result ≡ g.entry) }
    {
        self.of(f).edges.entry()
    }

    /// The nodes that node `n` of a function goes on to, or of `main` for None; the function and the node are there.
    pub fn next(&self, f: Option<u32>, n: u32) -> Edge
        requires there { IfSome f (λ i. i < length (graphs_in self.now).functions) }
        requires within { IfSome (graph_at (graphs_in self.now) f) (λ g. n < length g.edges) }
        ensures answer { IfSome (graph_at (graphs_in self.now) f) (λ g. slice_get g.edges n ≡ Some result) }
    {
        self.of(f).edges.next(n)
    }

    /// The graph of `main`, with the effects of its nodes.
    pub fn main(&self) -> &EffectGraph
        ensures answer { result.now ≡ effects_in self.now }
    {
        &self.effects
    }

    /// The nodes of `main` that are CHECKPOINT_HERE, rising.
    pub fn checkpoints(&self) -> &[u32]
        ensures answer { result.now ≡ checkpoints_in self.now }
    {
        self.checkpoints.as_slice()
    }

    /// What node `n` of a function does, or of `main` for None; the function and the node are there.
    pub fn statement(&self, f: Option<u32>, n: u32) -> &NodeWork
        requires there { IfSome f (λ i. i < length (graphs_in self.now).functions) }
        requires within { IfSome (graph_at (graphs_in self.now) f) (λ g. n < length g.edges) }
        ensures answer { IfSome (graph_at (graphs_in self.now) f) (λ g. slice_get g.works n ≡ Some result.now) }
    {
        &self.of(f).works.as_slice()[n as usize]
    }
}
