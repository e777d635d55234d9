ghost use Rattle.std.specs.Prelude.{◌≡◌, ◌≤◌, ◌<◌, true, length, IfOk};
ghost use Rattle.path_laws.specs.Graph.{IsWhole, is_directive, mark_is_directive, exclude_count};
ghost use Rattle.exclusion_equations.specs.Excluded.{AreExact, IsDead, IsReadOnly};
ghost use Rattle.exclusion_reason.specs.WalksThatKeep.{IsNeedWalk, IsWriteWalk};
ghost use Rattle.exclusion_reason.specs.Least.{IsLeast};
ghost use Rattle.exclusion_reason.specs.Reasons.{IsReason};

use crate::aim::Aim;
use crate::search::least_way;
use crate::walk::Walk;
use ckpt_base::NoMemory;
use exclusion_equations::Exclusions;
use path_laws::{EffectGraph, Mark};
use std::alloc::Global;

/// Why a cell is kept in the images, or that it is not.
#[derive(Drop)]
pub enum Reason {
    /// It is dead: images leave it out at once.
    Dead,
    /// It is read-only: images leave it out once one has it.
    ReadOnly {
        /// The least walk that needs it.
        need: Walk,
    },
    /// It is neither.
    Kept {
        /// The least walk that needs it.
        need: Walk,
        /// The least walk that writes it.
        write: Walk,
    },
}

fn is_directive(mark: Mark, k: u16) -> bool
    ensures { result ≡ mark_is_directive k mark }
{
    match mark {
        Mark::Exclude(j) => j == k,
        _ => false,
    }
}

// The node of EXCLUDE_HERE `k`.
fn node_of(graph: &EffectGraph, k: u16) -> u32
    requires whole { IsWhole graph.now }
    requires first { 1 ≤ k }
    requires last { k ≤ exclude_count graph.now }
    ensures node { result < length graph.now.nodes }
    ensures answer { is_directive graph.now k result ≡ true }
{
    'nodes: for n in 0..graph.nodes() {
        if is_directive(graph.mark(n), k) {
            return n;
        }
    }
    unreachable!()
}

// The least walk that needs a cell that is not dead.
fn need_walk(alloc: Global, graph: &EffectGraph, k: u16, c: u32) -> Result<Walk, NoMemory>
    requires whole { IsWhole graph.now }
    requires first { 1 ≤ k }
    requires last { k ≤ exclude_count graph.now }
    requires wanted { IsDead graph.now k c → ⊥ }
    ensures least { IfOk result (λ w. IsLeast (IsNeedWalk graph.now k c) w) }
{
    match least_way(alloc, graph, Aim::Need(c), node_of(graph, k))? {
        Some(walk) => Ok(walk),
        None => unreachable!(),
    }
}

// The least walk that writes a cell that is neither dead nor read-only.
fn write_walk(alloc: Global, graph: &EffectGraph, k: u16, c: u32) -> Result<Walk, NoMemory>
    requires whole { IsWhole graph.now }
    requires first { 1 ≤ k }
    requires last { k ≤ exclude_count graph.now }
    requires wanted { IsDead graph.now k c → ⊥ }
    requires written { IsReadOnly graph.now k c → ⊥ }
    ensures least { IfOk result (λ w. IsLeast (IsWriteWalk graph.now k c) w) }
{
    match least_way(alloc, graph, Aim::Write(c), node_of(graph, k))? {
        Some(walk) => Ok(walk),
        None => unreachable!(),
    }
}

/// Why cell `c` is kept under EXCLUDE_HERE `k`, with the least walks that show it.
///
/// The sets are those of the graph, every edge and the entry of which name a node, and whose EXCLUDE_HERE are numbered from 1 on,
/// each number at one node.
pub fn why(
    alloc: Global,
    graph: &EffectGraph,
    sets: &Exclusions,
    k: u16,
    c: u32,
) -> Result<Reason, NoMemory>
    requires whole { IsWhole graph.now }
    requires exact { AreExact graph.now sets.now }
    requires first { 1 ≤ k }
    requires last { k ≤ exclude_count graph.now }
    requires cell { c < graph.now.cells }
    ensures reason { IfOk result (λ r. IsReason graph.now k c r) }
{
    if sets.dead(k).holds(c) {
        return Ok(Reason::Dead);
    }
    let need = need_walk(alloc, graph, k, c)?;
    if sets.read_only(k).holds(c) {
        return Ok(Reason::ReadOnly { need });
    }
    let write = write_walk(alloc, graph, k, c)?;
    Ok(Reason::Kept { need, write })
}
