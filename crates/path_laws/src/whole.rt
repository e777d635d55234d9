ghost use Rattle.std.specs.Prelude.{◌≡◌, ℕ, ◌+◌, ◌<◌, ◌≤◌, ◌↔◌, true, length, IsTrue};
ghost use Rattle.path_laws.specs.Edge.{is_at};
ghost use Rattle.path_laws.specs.Graph.{has_edge, is_directive, mark_is_directive, exclude_count, IsWhole};

use crate::graph::{EffectGraph, Mark};

// Whether the edge, if it is there, goes to a number below `count`.
fn is_in(next: Option<u32>, count: u32) -> bool
    ensures answer { IsTrue result ↔ ((m : ℕ) → is_at next m ≡ true → m < count) }
{
    match next {
        None => true,
        Some(m) => m < count,
    }
}

fn edges_are_in(graph: &EffectGraph) -> bool
    ensures answer { IsTrue result ↔ ((n m : ℕ) → has_edge graph.now n m ≡ true → m < length graph.now.nodes) }
{
    'nodes: for n in 0..graph.nodes() {
        let (first, second) = graph.next(n);
        if !is_in(first, graph.nodes()) {
            return false;
        }
        if !is_in(second, graph.nodes()) {
            return false;
        }
    }
    true
}

fn has_number(mark: Mark, k: u32) -> bool
    ensures { result ≡ mark_is_directive k mark }
{
    match mark {
        Mark::Exclude(j) => j as u32 == k,
        _ => false,
    }
}

fn is_between(k: u32, last: u32) -> bool
    ensures answer { IsTrue result ↔ ((1 ≤ k) × (k ≤ last)) }
{
    1 <= k && k <= last
}

// Whether the number of an EXCLUDE_HERE is from 1 to `last`.
fn number_is_in(mark: Mark, last: u32) -> bool
    ensures answer { IsTrue result ↔ ((k : ℕ) → mark_is_directive k mark ≡ true → (1 ≤ k) × (k ≤ last)) }
{
    match mark {
        Mark::Exclude(k) => is_between(k as u32, last),
        _ => true,
    }
}

fn numbers_are_in(graph: &EffectGraph) -> bool
    ensures answer { IsTrue result ↔ ((k n : ℕ) → is_directive graph.now k n ≡ true → (1 ≤ k) × (k ≤ exclude_count graph.now)) }
{
    'nodes: for n in 0..graph.nodes() {
        if !number_is_in(graph.mark(n), graph.excludes()) {
            return false;
        }
    }
    true
}

fn number_is_there(graph: &EffectGraph, k: u32) -> bool
    ensures answer { IsTrue result ↔ ((n : ℕ) × (is_directive graph.now k n ≡ true)) }
{
    'nodes: for n in 0..graph.nodes() {
        if has_number(graph.mark(n), k) {
            return true;
        }
    }
    false
}

fn numbers_are_there(graph: &EffectGraph) -> bool
    ensures answer { IsTrue result ↔ ((k : ℕ) → 1 ≤ k → k ≤ exclude_count graph.now → (n : ℕ) × (is_directive graph.now k n ≡ true)) }
{
    'numbers: for k in 0..graph.excludes() {
        if !number_is_there(graph, k + 1) {
            return false;
        }
    }
    true
}

// Whether both are one EXCLUDE_HERE.
fn are_one(a: Mark, b: Mark) -> bool
    ensures answer { IsTrue result ↔ ((k : ℕ) × ((mark_is_directive k a ≡ true) × (mark_is_directive k b ≡ true))) }
{
    match a {
        Mark::Exclude(j) => has_number(b, j as u32),
        _ => false,
    }
}

// Whether no earlier node has the number of node `n`.
fn number_is_new(graph: &EffectGraph, n: u32) -> bool
    requires node { n < length graph.now.nodes }
    ensures answer { IsTrue result ↔ ((k m : ℕ) → m < n → is_directive graph.now k n ≡ true → is_directive graph.now k m ≡ true → ⊥) }
{
    'earlier: for m in 0..n {
        if are_one(graph.mark(n), graph.mark(m)) {
            return false;
        }
    }
    true
}

fn numbers_are_apart(graph: &EffectGraph) -> bool
    ensures answer { IsTrue result ↔ ((k n m : ℕ) → is_directive graph.now k n ≡ true → is_directive graph.now k m ≡ true → n ≡ m) }
{
    'nodes: for n in 0..graph.nodes() {
        if !number_is_new(graph, n) {
            return false;
        }
    }
    true
}

impl EffectGraph {
    /// Whether every edge and the entry name a node, and the EXCLUDE_HERE are numbered from 1 to their number, each number
    /// at one node.
    pub fn is_whole(&self) -> bool
        ensures answer { IsTrue result ↔ IsWhole self.now }
    {
        self.entry() < self.nodes()
            && edges_are_in(self)
            && numbers_are_in(self)
            && numbers_are_there(self)
            && numbers_are_apart(self)
    }
}
