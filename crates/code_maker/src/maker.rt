//! The code of a program.

ghost use Rattle.std.specs.Prelude.{◌≡◌, ℕ, true, nat_le, ◌+◌, ◌-◌, ◌<◌, ◌≤◌, ◌^◌, ◌++◌, ◌∷◌, [], map, max, length, slice_get, Some, IfOk, IfSome, OnOk};
ghost use Rattle.std.specs.List.{list_all};
ghost use Rattle.c_tree.specs.Layout.{cell_count, object_cells, objects_from};
ghost use Rattle.c_tree.specs.Excludes.{excludes};
ghost use Rattle.flow_graph.specs.Made.{graphs_in};
ghost use Rattle.flow_graph.specs.Run.{graphs_of, graph_of_function};
ghost use Rattle.machine_code.specs.Valid.{IsValid};
ghost use Rattle.machine_code.specs.Memory.{FitsMemory};
ghost use Rattle.code_maker.specs.Depths.{works_depth, deepest};
ghost use Rattle.code_maker.specs.NodeCode as spec;
ghost use Rattle.code_maker.specs.ProgramCode.{graph_for, IsThere, HaveBoth, graph_with, graphs_block, functions_from, checkpoint_at, checkpoints_from, code_of};
ghost use Rattle.code_maker.specs.CheckpointPlaces.{CheckpointsAreThere};
ghost use Rattle.code_maker.specs.CodeMeaning.{MeansGraphs};
ghost use Rattle.code_maker.specs.Parts.{instr_limit};

use crate::depths::work_depth;
use crate::expressions::{place, put};
use crate::node_code::{emit_segment, start_of};
use access_summary::Edge;
use c_tree::{Checked, RFunction, RObject};
use ckpt_base::NoMemory;
use flow_graph::{Graphs, NodeWork};
use machine_code::{Code, Instr};
use std::alloc::Global;

/// How many nodes a function has.
fn nodes_of(graphs: &Graphs, f: Option<u32>) -> u32
    requires there { IsThere (graphs_in graphs.now) f }
    ensures answer { result ≡ length (graph_for (graphs_in graphs.now) f).edges }
{
    graphs.nodes(f)
}

/// The node at which a function begins.
fn entry_of(graphs: &Graphs, f: Option<u32>) -> u32
    requires there { IsThere (graphs_in graphs.now) f }
    ensures answer { result ≡ (graph_for (graphs_in graphs.now) f).entry }
{
    graphs.entry(f)
}

/// Where a node of a function goes on.
fn edge_of(graphs: &Graphs, f: Option<u32>, n: u32) -> Edge
    requires there { IsThere (graphs_in graphs.now) f }
    requires within { n < length (graph_for (graphs_in graphs.now) f).edges }
    ensures answer { slice_get (graph_for (graphs_in graphs.now) f).edges n ≡ Some result }
{
    graphs.next(f, n)
}

/// What a node of a function does.
fn work_of(graphs: &Graphs, f: Option<u32>, n: u32) -> &NodeWork
    requires there { IsThere (graphs_in graphs.now) f }
    requires within { n < length (graph_for (graphs_in graphs.now) f).edges }
    ensures answer { slice_get (graph_for (graphs_in graphs.now) f).works n ≡ Some result.now }
{
    graphs.statement(f, n)
}

/// Appends an item.
fn push<T: Drop>(items: &mut Vec<T>, item: T) -> Result<(), NoMemory>
    ensures added { OnOk result (items.new.items ≡ items.old.items ++ item ∷ []) }
{
    match items.push(item) {
        Ok(()) => Ok(()),
        Err(_) => Err(NoMemory),
    }
}

/// The place behind a code.
fn here(code: &[Instr]) -> Result<u32, NoMemory>
    ensures answer { IfOk result (λ p. p ≡ length code.now) }
{
    place(code.len())
}

/// Appends the jump to the node at which a function begins, which is none where that is the first.
fn emit_entry(code: &mut Vec<Instr>, starts: &[u32], entry: u32) -> Result<(), NoMemory>
    ensures code { OnOk result (code.new.items ≡ code.old.items ++ spec.entry_jump (spec.listed starts.now) entry) }
{
    if entry == 0 {
        return Ok(());
    }
    put(code, Instr::Jump(start_of(starts, Some(entry))))
}

/// Appends the segments of a function, where `starts` tells their places, and tells where they begin.
fn emit_segments(
    alloc: Global,
    code: &mut Vec<Instr>,
    graphs: &Graphs,
    f: Option<u32>,
    starts: &[u32],
) -> Result<Vec<u32>, NoMemory>
    requires there { IsThere (graphs_in graphs.now) f }
    requires same { length (graph_for (graphs_in graphs.now) f).edges ≡ length (graph_for (graphs_in graphs.now) f).works }
    ensures code { OnOk result (code.new.items ≡ code.old.items ++ spec.segments (spec.listed starts.now) 0 (graph_for (graphs_in graphs.now) f).edges (graph_for (graphs_in graphs.now) f).works (length code.old.items)) }
    ensures places { IfOk result (λ ps. ps.items ≡ spec.places 0 (graph_for (graphs_in graphs.now) f).edges (graph_for (graphs_in graphs.now) f).works (length code.old.items)) }
{
    let mut places = Vec::new(alloc);
    'nodes: for n in 0..nodes_of(graphs, f) {
        push(&mut places, here(code.as_slice())?)?;
        emit_segment(
            code,
            starts,
            n,
            edge_of(graphs, f, n),
            work_of(graphs, f, n),
        )?;
    }
    Ok(places)
}

/// Appends the code of a function, where `starts` tells the places of its segments, and tells where they begin.
fn emit_nodes(
    alloc: Global,
    code: &mut Vec<Instr>,
    graphs: &Graphs,
    f: Option<u32>,
    starts: &[u32],
) -> Result<Vec<u32>, NoMemory>
    requires there { IsThere (graphs_in graphs.now) f }
    requires same { length (graph_for (graphs_in graphs.now) f).edges ≡ length (graph_for (graphs_in graphs.now) f).works }
    ensures code { OnOk result (code.new.items ≡ code.old.items ++ graph_with (spec.listed starts.now) (graph_for (graphs_in graphs.now) f) (length code.old.items)) }
    ensures places { IfOk result (λ ps. ps.items ≡ spec.starts (graph_for (graphs_in graphs.now) f) (length code.old.items)) }
{
    emit_entry(code, starts, entry_of(graphs, f))?;
    emit_segments(alloc, code, graphs, f, starts)
}

/// Appends the code of a function, and tells where its segments begin. It is made twice: the first time only to learn that.
fn emit_graph(
    alloc: Global,
    code: &mut Vec<Instr>,
    graphs: &Graphs,
    f: Option<u32>,
) -> Result<Vec<u32>, NoMemory>
    requires there { IsThere (graphs_in graphs.now) f }
    requires same { length (graph_for (graphs_in graphs.now) f).edges ≡ length (graph_for (graphs_in graphs.now) f).works }
    ensures code { OnOk result (code.new.items ≡ code.old.items ++ spec.graph_block (graph_for (graphs_in graphs.now) f) (length code.old.items)) }
    ensures starts { IfOk result (λ ps. ps.items ≡ spec.starts (graph_for (graphs_in graphs.now) f) (length code.old.items)) }
{
    let begin = code.len();
    let starts = emit_nodes(alloc, code, graphs, f, &[])?;
    code.truncate(begin);
    emit_nodes(alloc, code, graphs, f, starts.as_slice())
}

/// Appends the checkpoint of a node whose segment begins at a place, where it is one.
fn add_checkpoint(
    table: &mut Vec<(u32, u32)>,
    n: u32,
    start: u32,
    work: &NodeWork,
) -> Result<(), NoMemory>
    ensures added { OnOk result (table.new.items ≡ table.old.items ++ checkpoint_at n start work.now) }
{
    match work {
        NodeWork::Checkpoint => push(table, (n, place(start as usize + 2)?)),
        _ => Ok(()),
    }
}

/// The checkpoints of `main`, whose segments begin at `starts`: each node, and the place behind its instruction.
fn checkpoint_table(
    alloc: Global,
    graphs: &Graphs,
    starts: &[u32],
) -> Result<Vec<(u32, u32)>, NoMemory>
    requires same { length (graph_for (graphs_in graphs.now) None).edges ≡ length (graph_for (graphs_in graphs.now) None).works }
    requires starts { length starts.now ≡ length (graph_for (graphs_in graphs.now) None).works }
    ensures answer { IfOk result (λ ks. ks.items ≡ checkpoints_from 0 (graph_for (graphs_in graphs.now) None).works starts.now) }
{
    let mut table = Vec::new(alloc);
    'nodes: for n in 0..nodes_of(graphs, None) {
        add_checkpoint(&mut table, n, starts[n as usize], work_of(graphs, None, n))?;
    }
    Ok(table)
}

/// How many operands the nodes of a function need.
fn function_depth(graphs: &Graphs, f: Option<u32>) -> Result<u32, NoMemory>
    requires there { IsThere (graphs_in graphs.now) f }
    requires same { length (graph_for (graphs_in graphs.now) f).edges ≡ length (graph_for (graphs_in graphs.now) f).works }
    ensures answer { IfOk result (λ d. d ≡ works_depth (graph_for (graphs_in graphs.now) f).works) }
{
    let mut depth = 0;
    'nodes: for n in 0..nodes_of(graphs, f) {
        depth = work_depth(work_of(graphs, f, n))?.max(depth);
    }
    Ok(depth)
}

/// Where the objects of a program lie.
fn object_table(alloc: Global, objects: &[RObject]) -> Result<Vec<(u32, u32)>, NoMemory>
    requires fits { object_cells objects.now < 2 ^ 32 }
    ensures answer { IfOk result (λ os. os.items ≡ objects_from 0 objects.now) }
{
    let mut table = Vec::new(alloc);
    let mut first = 0;
    'objects: for object in objects {
        push(&mut table, (first, object.length))?;
        first += object.length;
    }
    Ok(table)
}

/// How many operands the functions of a program need, `main` among them.
fn greatest_depth(graphs: &Graphs, functions: u32) -> Result<u32, NoMemory>
    requires count { functions ≡ length (graphs_in graphs.now).functions }
    requires both { HaveBoth (graphs_in graphs.now) }
    ensures answer { IfOk result (λ d. d ≡ deepest ((graphs_in graphs.now).main ∷ (graphs_in graphs.now).functions)) }
{
    let mut depth = function_depth(graphs, None)?;
    'functions: for f in 0..functions {
        depth = function_depth(graphs, Some(f))?.max(depth);
    }
    Ok(depth)
}

/// Appends the code of a function, and tells where it begins, how many parameters it has and how many locals.
fn emit_function(
    alloc: Global,
    code: &mut Vec<Instr>,
    graphs: &Graphs,
    f: u32,
    function: &RFunction,
) -> Result<(u32, u32, u32), NoMemory>
    requires there { IsThere (graphs_in graphs.now) (Some f) }
    requires both { HaveBoth (graphs_in graphs.now) }
    requires few { length function.now.locals ≤ 64 }
    ensures code { OnOk result (code.new.items ≡ code.old.items ++ spec.graph_block (graph_for (graphs_in graphs.now) (Some f)) (length code.old.items)) }
    ensures row { IfOk result (λ r. r ≡ record { 0 = length code.old.items; 1 = function.now.parameters; 2 = length function.now.locals }) }
{
    let start = here(code.as_slice())?;
    emit_graph(alloc, code, graphs, Some(f))?;
    Ok((start, function.parameters, function.locals.len() as u32))
}

/// Appends the code of the functions but `main`, and tells where they begin.
fn emit_functions(
    alloc: Global,
    code: &mut Vec<Instr>,
    graphs: &Graphs,
    functions: &[RFunction],
) -> Result<Vec<(u32, u32, u32)>, NoMemory>
    requires graphs { (graphs_in graphs.now).functions ≡ map graph_of_function functions.now }
    requires both { HaveBoth (graphs_in graphs.now) }
    requires few { list_all (λ f. nat_le (length f.locals) 64) functions.now ≡ true }
    requires count { length functions.now < 2 ^ 32 }
    ensures code { OnOk result (code.new.items ≡ code.old.items ++ graphs_block (map graph_of_function functions.now) (length code.old.items)) }
    ensures table { IfOk result (λ fs. fs.items ≡ functions_from functions.now (length code.old.items)) }
{
    let mut table = Vec::new(alloc);
    'functions: for (f, function) in functions.iter().enumerate() {
        push(
            &mut table,
            emit_function(alloc, code, graphs, f as u32, function)?,
        )?;
    }
    Ok(table)
}

/// The code of a program, whose graphs these are.
///
/// `NoMemory` comes where no memory is found, and where the code would have 2^32 - 1 instructions or more, or need 2^32 operands or more.
pub fn make(alloc: Global, graphs: &Graphs, program: &Checked) -> Result<Code, NoMemory>
    requires graphs { graphs_in graphs.now ≡ graphs_of program.now }
    ensures code { IfOk result (λ c. c ≡ code_of program.now) }
    ensures valid { IfOk result (λ c. IsValid c) }
    ensures fits { IfOk result (λ c. FitsMemory c (cell_count program.now)) }
    ensures directives { IfOk result (λ c. (q k : ℕ) → slice_get c.instrs q ≡ Some (Instr.Excl k) → (1 ≤ k) × (k ≤ length (excludes program.now.main.body))) }
    ensures checkpoints { IfOk result (λ c. CheckpointsAreThere program.now c) }
    ensures means { IfOk result (λ c. MeansGraphs program.now c) }
    ensures size { IfOk result (λ c. length c.instrs ≤ instr_limit program.now) }
{
    let tree = program.tree();
    let mut instrs = Vec::new(alloc);
    let starts = emit_graph(alloc, &mut instrs, graphs, None)?;
    let checkpoints = checkpoint_table(alloc, graphs, starts.as_slice())?;
    let functions = emit_functions(alloc, &mut instrs, graphs, tree.functions.as_slice())?;
    let objects = object_table(alloc, tree.objects.as_slice())?;
    let stack = greatest_depth(graphs, tree.functions.len() as u32)?;
    here(instrs.as_slice())?;
    Ok(Code::of(instrs, functions, objects, checkpoints, stack))
}
