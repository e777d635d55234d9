//! What nodes may read and write, and which cells they kill.

ghost use Rattle.std.specs.Prelude.{◌≡◌, ◌↔◌, ◌++◌, ◌∷◌, [], ◌<◌, ◌≢◌, ℕ, OnOk, IfOk, Some, true, false};
ghost use Rattle.cell_sets.specs.Sets.{universe_of, has};
ghost use Rattle.cell_sets.specs.Runs.{in_runs, IsRising};
ghost use Rattle.c_tree.specs.Layout.{cell_count};
ghost use Rattle.alias_sets.specs.Points.{ArePointsOf};
ghost use Rattle.access_summary.specs.Touch.{Adds, MayTouch};
ghost use Rattle.access_summary.specs.Summaries.{AreSummariesOf, ReachesAccess, bodies};
ghost use Rattle.flow_graph.specs.NodeEffects as spec;
ghost use Rattle.flow_graph.specs.EffectCells.{IsSetOf, HasOnly, EffectDoes, EffectsDo};

use crate::node::NodeWork;
use crate::touched::add_touched;
use access_summary::{
    Access, Effect, Summaries, Target, all_effects, answer_effects, assign_effects, call_effects,
    declare_effects, expr_effects, input_effects, pointer_effects,
};
use alias_sets::Points;
use c_tree::{Checked, RPlace};
use cell_sets::{CellSet, Run};
use ckpt_base::NoMemory;
use sqlite_items::Items;
use std::alloc::Global;

/// The cells that a node may read, may write, and kills.
#[derive(Drop)]
pub struct NodeSets {
    /// The cells that it may read.
    pub reads: CellSet,
    /// The cells that it may write.
    pub writes: CellSet,
    /// The cells that it kills: one at most.
    pub kills: CellSet,
}

/// Appends the effects of what a node does, in a function, or in `main` for None.
fn work_effects(
    effects: &mut Items<Effect>,
    function: Option<u32>,
    work: &NodeWork,
) -> Result<(), NoMemory>
    ensures answer { OnOk result (effects.new ≡ effects.old ++ spec.work_effects function work.now) }
{
    match work {
        NodeWork::Declare { place, value } => declare_effects(effects, function, place, value),
        NodeWork::Set { place, value } => assign_effects(effects, function, place, value),
        NodeWork::Call {
            place,
            function: callee,
            args,
        } => answer_effects(effects, function, place, *callee, args.as_slice()),
        NodeWork::Input { place } => input_effects(effects, function, place),
        NodeWork::Return { value } => expr_effects(effects, function, value),
        NodeWork::ReturnCall {
            function: callee,
            args,
        } => call_effects(effects, function, *callee, args.as_slice()),
        NodeWork::Put { value } => expr_effects(effects, function, value),
        NodeWork::Print { args, .. } => all_effects(effects, function, args.as_slice()),
        NodeWork::Test { value } => expr_effects(effects, function, value),
        _ => Ok(()),
    }
}

/// The effects of what a node does.
fn effects_of(
    alloc: Global,
    function: Option<u32>,
    work: &NodeWork,
) -> Result<Items<Effect>, NoMemory>
    ensures answer { IfOk result (λ effects. effects ≡ spec.work_effects function work.now) }
{
    let mut effects = Items::new(alloc);
    work_effects(&mut effects, function, work)?;
    Ok(effects)
}

/// Adds the cells that a function may read, or may write, with all that it reaches by calls; none where there is no such function.
fn add_called(
    set: &mut CellSet,
    program: &Checked,
    summaries: &Summaries,
    access: Access,
    callee: u32,
) -> Result<(), NoMemory>
    requires summaries { AreSummariesOf program.now summaries.now }
    requires universe { universe_of set.old ≡ cell_count program.now }
    ensures answer { OnOk result (Adds set.old set.new (λ c. ReachesAccess program.now (bodies program.now) access callee c)) }
{
    if callee >= program.functions() {
        return Ok(());
    }
    match access {
        Access::Read => set.union_with(summaries.reads(callee)),
        Access::Write => set.union_with(summaries.writes(callee)),
    }
}

/// Adds the cells that an effect may read, or may write.
fn add_effect(
    alloc: Global,
    set: &mut CellSet,
    program: &Checked,
    points: &Points,
    summaries: &Summaries,
    access: Access,
    effect: Effect,
) -> Result<(), NoMemory>
    requires points { ArePointsOf program.now points.now }
    requires summaries { AreSummariesOf program.now summaries.now }
    requires universe { universe_of set.old ≡ cell_count program.now }
    ensures answer { OnOk result (Adds set.old set.new (λ c. EffectDoes program.now access effect c)) }
{
    match effect {
        Effect::Call(callee) => add_called(set, program, summaries, access, callee),
        Effect::Read(target) => match access {
            Access::Read => add_touched(alloc, set, program, points, target),
            Access::Write => Ok(()),
        },
        Effect::Write(target) => match access {
            Access::Read => Ok(()),
            Access::Write => add_touched(alloc, set, program, points, target),
        },
    }
}

/// Adds the cells that some effects may read, or may write.
fn add_effects(
    alloc: Global,
    set: &mut CellSet,
    program: &Checked,
    points: &Points,
    summaries: &Summaries,
    access: Access,
    effects: &[Effect],
) -> Result<(), NoMemory>
    requires points { ArePointsOf program.now points.now }
    requires summaries { AreSummariesOf program.now summaries.now }
    requires universe { universe_of set.old ≡ cell_count program.now }
    ensures answer { OnOk result (Adds set.old set.new (λ c. EffectsDo program.now access effects.now c)) }
{
    'effects: for effect in effects {
        add_effect(alloc, set, program, points, summaries, access, *effect)?;
    }
    Ok(())
}

/// The cells that some effects may read, or may write.
fn effect_cells(
    alloc: Global,
    program: &Checked,
    points: &Points,
    summaries: &Summaries,
    access: Access,
    effects: &[Effect],
) -> Result<CellSet, NoMemory>
    requires points { ArePointsOf program.now points.now }
    requires summaries { AreSummariesOf program.now summaries.now }
    ensures answer { IfOk result (λ s. IsSetOf program.now (λ c. EffectsDo program.now access effects.now c) s) }
{
    let mut set = CellSet::empty(alloc, program.cells())?;
    add_effects(alloc, &mut set, program, points, summaries, access, effects)?;
    Ok(set)
}

/// Whether rising runs have one cell together.
fn is_one_cell(runs: &[Run]) -> bool
    requires rising { (high : ℕ) × IsRising 0 runs.now high }
    ensures one { result ≡ true → (c : ℕ) × (in_runs runs.now c ≡ true) × ((d : ℕ) → in_runs runs.now d ≡ true → d ≡ c) }
    ensures other { result ≡ false → (c : ℕ) → in_runs runs.now c ≡ true → (d : ℕ) × (in_runs runs.now d ≡ true) × (d ≢ c) }
{
    runs.len() == 1 && runs[0].count == 1
}

/// The set, where it has one cell, and else the empty set.
fn only_cell(alloc: Global, set: CellSet) -> Result<CellSet, NoMemory>
    ensures universe { IfOk result (λ s. universe_of s ≡ universe_of set) }
    ensures answer { IfOk result (λ s. (c : ℕ) → (has s c ≡ true) ↔ HasOnly set c) }
{
    let runs = set.runs()?;
    if is_one_cell(&runs) {
        return Ok(set);
    }
    CellSet::empty(alloc, set.universe())
}

/// The cell that a store kills, if any.
fn store_kills(
    alloc: Global,
    program: &Checked,
    points: &Points,
    target: Option<Target>,
) -> Result<CellSet, NoMemory>
    requires points { ArePointsOf program.now points.now }
    ensures answer { IfOk result (λ s. IsSetOf program.now (λ c. spec.StoreKills program.now target c) s) }
{
    let mut set = CellSet::empty(alloc, program.cells())?;
    match target {
        None => Ok(set),
        Some(target) => {
            add_touched(alloc, &mut set, program, points, target)?;
            only_cell(alloc, set)
        }
    }
}

/// What a store to a place may touch, if it may touch a cell.
fn place_target(
    alloc: Global,
    function: Option<u32>,
    place: &RPlace,
) -> Result<Option<Target>, NoMemory>
    ensures answer { IfOk result (λ t. t ≡ spec.place_target function (Some place.now)) }
{
    let mut effects = Items::new(alloc);
    pointer_effects(&mut effects, function, place)
}

/// What a store to a place that may be absent may touch, if it may touch a cell.
fn perhaps_target(
    alloc: Global,
    function: Option<u32>,
    place: &Option<RPlace>,
) -> Result<Option<Target>, NoMemory>
    ensures answer { IfOk result (λ t. t ≡ spec.place_target function place.now) }
{
    match place {
        None => Ok(None),
        Some(place) => place_target(alloc, function, place),
    }
}

/// What a node's store may touch, if it may touch a cell.
fn work_target(
    alloc: Global,
    function: Option<u32>,
    work: &NodeWork,
) -> Result<Option<Target>, NoMemory>
    ensures answer { IfOk result (λ t. t ≡ spec.place_target function (spec.work_place work.now)) }
{
    match work {
        NodeWork::Declare { place, .. } => place_target(alloc, function, place),
        NodeWork::Set { place, .. } => place_target(alloc, function, place),
        NodeWork::Call { place, .. } => perhaps_target(alloc, function, place),
        NodeWork::Input { place } => perhaps_target(alloc, function, place),
        _ => Ok(None),
    }
}

/// The cells that a node of a function, or of `main` for None, may read, may write, and kills.
///
/// A call may read and write what its function may. A node kills the cell that its place may touch, where it may touch exactly one.
pub fn node_sets(
    alloc: Global,
    program: &Checked,
    points: &Points,
    summaries: &Summaries,
    function: Option<u32>,
    work: &NodeWork,
) -> Result<NodeSets, NoMemory>
    requires points { ArePointsOf program.now points.now }
    requires summaries { AreSummariesOf program.now summaries.now }
    ensures reads { IfOk result (λ s. IsSetOf program.now (λ c. spec.NodeReads program.now function work.now c) s.reads) }
    ensures writes { IfOk result (λ s. IsSetOf program.now (λ c. spec.NodeWrites program.now function work.now c) s.writes) }
    ensures kills { IfOk result (λ s. IsSetOf program.now (λ c. spec.NodeKills program.now function work.now c) s.kills) }
{
    let effects = effects_of(alloc, function, work)?;
    let reads = effect_cells(
        alloc,
        program,
        points,
        summaries,
        Access::Read,
        effects.as_slice(),
    )?;
    let writes = effect_cells(
        alloc,
        program,
        points,
        summaries,
        Access::Write,
        effects.as_slice(),
    )?;
    let target = work_target(alloc, function, work)?;
    let kills = store_kills(alloc, program, points, target)?;
    Ok(NodeSets {
        reads,
        writes,
        kills,
    })
}
