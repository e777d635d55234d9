//! A program, compiled.
ghost use Rattle.std.specs.Prelude.{◌≡◌, ◌≤◌, ◌<◌, ◌++◌, ◌∷◌, [], ℕ, length, replicate, IfOk, OnOk};
ghost use Rattle.c_tree.specs.Layout.{first_words};
ghost use Rattle.path_laws.specs.Graph.{IsWhole, exclude_count};
ghost use Rattle.exclusion_equations.specs.Excluded.{AreExact};
ghost use Rattle.flow_graph.specs.MainGraph.{IsMainGraph};
ghost use Rattle.flow_graph.specs.Made.{graphs_in, effects_in, checkpoints_in};
ghost use Rattle.flow_graph.specs.Checkpoints.{checkpoints_of};
ghost use Rattle.flow_graph.specs.Run.{graphs_of};
ghost use Rattle.run_images.specs.Source.{Source, IsSource};
ghost use Rattle.run_images.specs.Images.{is_excluded};
ghost use Rattle.run_images.specs.Compiled.{IsCompiled, cells_in};
ghost use Rattle.compiled_program.specs.CanRun.{CanRun};

use access_summary::find_summaries;
use alias_sets::find_points;
use c_tree::Checked;
use cell_sets::{BitRow, CellTest};
use ckpt_base::NoMemory;
use code_maker::make;
use exclusion_equations::{Exclusions, find_exclusions};
use flow_graph::{Graphs, graph};
use machine_code::Code;
use path_laws::EffectGraph;
use std::alloc::Global;
use std::marker::Model;

/// The code of a program, its excluded sets and its layout.
#[derive(Drop)]
pub struct Compiled {
    code: Code,
    /// The sets of each EXCLUDE_HERE.
    dead: Vec<BitRow>,
    read_only: Vec<BitRow>,
    /// The word with which each cell starts.
    words: Vec<u64>,
    /// The nodes that are CHECKPOINT_HERE.
    checkpoints: Vec<u32>,
}

impl Model for Compiled {
    ghost use Rattle.std.specs.Prelude.{length};
    ghost use Rattle.run_images.specs.Compiled.{CompiledView};
    ghost use Rattle.compiled_program.specs.CanRun.{CanRun};

    ghost Value = { CompiledView };

    ghost view = { λ c. record { code = c.code; sets = record { dead = c.dead.items; read_only = c.read_only.items }; words = c.words.items; checkpoints = c.checkpoints.items; directives = length c.dead.items } };

    ghost invariant = { λ c. CanRun (record { code = c.code; sets = record { dead = c.dead.items; read_only = c.read_only.items }; words = c.words.items; checkpoints = c.checkpoints.items; directives = length c.dead.items }) };
}

impl Compiled {
    /// Compiles a program. The one refusal is that no memory is found.
    pub fn of(alloc: Global, program: &Checked) -> Result<Compiled, NoMemory>
        ensures answer { IfOk result (λ c. (s : Source) → IsSource s → s.program ≡ program.now → IsCompiled s c) }
    {
        let graphs = make_graphs(alloc, program)?;
        let compiled = compile(alloc, program, &graphs)?;
        Ok(compiled)
    }

    /// The code.
    pub fn code(&self) -> &Code
        ensures answer { result.now ≡ self.now.code }
        ensures runs { CanRun self.now }
    {
        &self.code
    }

    /// How many cells the program has: at most 262,144.
    pub fn cells(&self) -> u32
        ensures answer { result ≡ cells_in self.now }
        ensures few { result ≤ 262144 }
    {
        self.words.len() as u32
    }

    /// The word with which each cell starts.
    pub fn words(&self) -> &[u64]
        ensures answer { result.now ≡ self.now.words }
    {
        &self.words
    }

    /// The nodes that are CHECKPOINT_HERE.
    pub fn checkpoints(&self) -> &[u32]
        ensures answer { result.now ≡ self.now.checkpoints }
    {
        &self.checkpoints
    }

    /// How many EXCLUDE_HERE the program has.
    pub fn excludes(&self) -> u16
        ensures answer { result ≡ self.now.directives }
    {
        self.dead.len() as u16
    }

    /// Whether an image leaves cell `from` out where this directive is in force and its read-only cells are included already, or not; and a later
    /// cell, `end` at most, before which that stays the same.
    #[tactic(auto, using(crate::proofs::ExactSets::numbered_of))]
    pub fn excluded_to(&self, directive: u16, included: bool, from: u32, end: u32) -> (bool, u32)
        requires directive { directive ≤ self.now.directives }
        requires below { from < end }
        ensures further { from < result.1 }
        ensures within { result.1 ≤ end }
        ensures same { (c : ℕ) → from ≤ c → c < result.1 → is_excluded self.now.sets directive included c ≡ result.0 }
    {
        if directive == 0 {
            return (false, end);
        }
        let k = directive as usize - 1;
        let (dead, next) = self.dead[k].stretch_to(from, end);
        if dead || !included {
            return (dead, next);
        }
        self.read_only[k].stretch_to(from, next)
    }
}

// The graphs of a program.
fn make_graphs(alloc: Global, program: &Checked) -> Result<Graphs, NoMemory>
    ensures graphs { IfOk result (λ g. graphs_in g ≡ graphs_of program.now) }
    ensures main { IfOk result (λ g. IsMainGraph program.now (effects_in g)) }
    ensures whole { IfOk result (λ g. IsWhole (effects_in g)) }
    ensures checkpoints { IfOk result (λ g. checkpoints_in g ≡ checkpoints_of (graphs_of program.now).main.works) }
{
    let points = find_points(alloc, program)?;
    let summaries = find_summaries(alloc, program, &points)?;
    graph(alloc, program, &points, &summaries)
}

// Compiles a program whose graphs these are.
fn compile(alloc: Global, program: &Checked, graphs: &Graphs) -> Result<Compiled, NoMemory>
    requires graphs { graphs_in graphs.now ≡ graphs_of program.now }
    requires main { IsMainGraph program.now (effects_in graphs.now) }
    requires whole { IsWhole (effects_in graphs.now) }
    requires checkpoints { checkpoints_in graphs.now ≡ checkpoints_of (graphs_of program.now).main.works }
    ensures answer { IfOk result (λ c. (s : Source) → IsSource s → s.program ≡ program.now → IsCompiled s c) }
{
    let _tree = program.tree();
    let code = make(alloc, graphs, program)?;
    let rows = rows_of(alloc, graphs.main(), program.excludes())?;
    let words = first_words(alloc, program)?;
    let checkpoints = copied(alloc, graphs.checkpoints())?;
    Ok(Compiled {
        code,
        dead: rows.dead,
        read_only: rows.read_only,
        words,
        checkpoints,
    })
}

// The excluded sets of a graph, as rows.
#[derive(Drop)]
struct Rows {
    dead: Vec<BitRow>,
    read_only: Vec<BitRow>,
}

// The excluded sets of a graph with so many directives.
fn rows_of(alloc: Global, graph: &EffectGraph, count: u16) -> Result<Rows, NoMemory>
    requires whole { IsWhole graph.now }
    requires count { exclude_count graph.now ≡ count }
    ensures exact { IfOk result (λ rows. AreExact graph.now (record { dead = rows.dead.items; read_only = rows.read_only.items })) }
{
    let exclusions = find_exclusions(alloc, graph)?;
    let dead = dead_rows(alloc, &exclusions, count)?;
    let read_only = read_only_rows(alloc, &exclusions, count)?;
    Ok(Rows { dead, read_only })
}

// The dead cells of each directive.
#[tactic(auto, using(crate::proofs::ExactSets::numbered_next))]
fn dead_rows(alloc: Global, exclusions: &Exclusions, count: u16) -> Result<Vec<BitRow>, NoMemory>
    requires count { length exclusions.now.dead ≡ count }
    ensures answer { IfOk result (λ rows. rows.items ≡ exclusions.now.dead) }
{
    let mut rows = Vec::new(alloc);
    for k in 0..count {
        let row = BitRow::of_set(alloc, exclusions.dead(k + 1))?;
        push(&mut rows, row)?;
    }
    Ok(rows)
}

// The read-only cells of each directive.
#[tactic(auto, using(crate::proofs::ExactSets::numbered_next))]
fn read_only_rows(
    alloc: Global,
    exclusions: &Exclusions,
    count: u16,
) -> Result<Vec<BitRow>, NoMemory>
    requires count { length exclusions.now.read_only ≡ count }
    ensures answer { IfOk result (λ rows. rows.items ≡ exclusions.now.read_only) }
{
    let mut rows = Vec::new(alloc);
    for k in 0..count {
        let row = BitRow::of_set(alloc, exclusions.read_only(k + 1))?;
        push(&mut rows, row)?;
    }
    Ok(rows)
}

// The words with which the cells start: those of the objects, and 0 for each local of `main`.
fn first_words(alloc: Global, program: &Checked) -> Result<Vec<u64>, NoMemory>
    ensures answer { IfOk result (λ words. words.items ≡ first_words program.now) }
{
    let tree = program.tree();
    let mut words = Vec::new(alloc);
    for object in tree.objects.as_slice() {
        add_words(&mut words, object.first.cast_unsigned(), object.length)?;
    }
    add_words(&mut words, 0, tree.main.locals.len() as u32)?;
    Ok(words)
}

// Adds one word so many times.
fn add_words(words: &mut Vec<u64>, word: u64, count: u32) -> Result<(), NoMemory>
    ensures { OnOk result (words.new.items ≡ words.old.items ++ replicate count word) }
{
    words.resize(words.len() + count as usize, word)?;
    Ok(())
}

// Appends an item.
fn push<T: Drop>(items: &mut Vec<T>, item: T) -> Result<(), NoMemory>
    ensures added { OnOk result (items.new.items ≡ items.old.items ++ item ∷ []) }
{
    match items.push(item) {
        Ok(()) => Ok(()),
        Err(_) => Err(NoMemory),
    }
}

fn copied(alloc: Global, nodes: &[u32]) -> Result<Vec<u32>, NoMemory>
    ensures answer { IfOk result (λ copy. copy.items ≡ nodes.now) }
{
    let mut copy = Vec::new(alloc);
    copy.extend_from_slice(nodes)?;
    Ok(copy)
}
