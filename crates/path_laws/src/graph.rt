ghost use Rattle.std.specs.Prelude.{◌≡◌, ℕ, ◌<◌, ◌↔◌, ◌&&◌, ◌||◌, ◌==◌, [], ◌∷◌, ◌++◌, length, IsTrue, IfOk, OnOk, OnErr};
ghost use Rattle.cell_sets.specs.Sets.{universe_of};
ghost use Rattle.path_laws.specs.Edge.{is_at};
ghost use Rattle.path_laws.specs.Reaching.{joins};

use cell_sets::CellSet;
use ckpt_base::NoMemory;
use std::alloc::{AllocError, Global};
use std::marker::Model;

/// What a node is besides its effects.
#[derive(Clone, Copy, Debug, PartialEq, Eq)]
pub enum Mark {
    Plain,
    /// A CHECKPOINT_HERE.
    Checkpoint,
    /// An EXCLUDE_HERE, with its number, from 1 on.
    Exclude(u16),
}

impl Mark {
    ghost use Rattle.path_laws.specs.Graph.{mark_is_checkpoint, mark_is_exclude};

    /// Whether it is a CHECKPOINT_HERE.
    pub fn is_checkpoint(self) -> bool
        ensures answer { result ≡ mark_is_checkpoint self }
    {
        matches!(self, Mark::Checkpoint)
    }

    /// Whether it is an EXCLUDE_HERE.
    pub fn is_exclude(self) -> bool
        ensures answer { result ≡ mark_is_exclude self }
    {
        matches!(self, Mark::Exclude(_))
    }
}

#[derive(Drop)]
struct Node {
    next: (Option<u32>, Option<u32>),
    mark: Mark,
    reads: CellSet,
    writes: CellSet,
    kills: CellSet,
}

/// A graph of nodes with their effects on cells. Contracts see its number of cells, its entry and its nodes.
#[derive(Drop)]
pub struct EffectGraph {
    cells: u32,
    entry: u32,
    list: Vec<Node>,
}

impl Model for EffectGraph {
    ghost use Rattle.std.specs.Prelude.{◌<◌, ◌^◌, length};
    ghost use Rattle.path_laws.specs.Graph.{Graph, AllHaveUniverse};

    ghost Value = { Graph };

    ghost view = { λ g. record { cells = g.cells; entry = g.entry; nodes = g.list.items } };

    ghost invariant = { λ g. record { universes : AllHaveUniverse g.cells g.list.items; small : length g.list.items < 2 ^ 32 } };
}

impl EffectGraph {
    ghost use Rattle.path_laws.specs.Graph.{next_of, mark_of, reads_of, writes_of, kills_of, has_edge, exclude_count};
    ghost use Rattle.path_laws.specs.Walks.{IsWalk, IsWalkFrom};

    /// A graph with no node, over cells below `cells`.
    pub fn start(alloc: Global, cells: u32, entry: u32) -> Result<EffectGraph, NoMemory>
        ensures answer { IfOk result (λ g. g ≡ record { cells = cells; entry = entry; nodes = [] }) }
    {
        Ok(EffectGraph {
            cells,
            entry,
            list: Vec::new(alloc),
        })
    }

    /// Appends a node and answers its number. The universe of each set is the number of cells.
    ///
    /// Without memory for it the graph stays as it was.
    pub fn add(
        &mut self,
        next: (Option<u32>, Option<u32>),
        mark: Mark,
        reads: CellSet,
        writes: CellSet,
        kills: CellSet,
    ) -> Result<u32, NoMemory>
        requires room { length self.old.nodes < 4294967295 }
        requires reads { universe_of reads ≡ self.old.cells }
        requires writes { universe_of writes ≡ self.old.cells }
        requires kills { universe_of kills ≡ self.old.cells }
        ensures number { IfOk result (λ n. n ≡ length self.old.nodes) }
        ensures answer { OnOk result (self.new ≡ record self.old { nodes = self.old.nodes ++ record { next = next; mark = mark; reads = reads; writes = writes; kills = kills } ∷ [] }) }
        ensures err { OnErr result (self.new ≡ self.old) }
    {
        let number = self.list.len() as u32;
        let node = Node {
            next,
            mark,
            reads,
            writes,
            kills,
        };
        append(&mut self.list, node)?;
        Ok(number)
    }

    /// The number of nodes.
    pub fn nodes(&self) -> u32
        ensures answer { result ≡ length self.now.nodes }
    {
        self.list.len() as u32
    }

    /// The node at which walks of a run begin.
    pub fn entry(&self) -> u32
        ensures answer { result ≡ self.now.entry }
    {
        self.entry
    }

    /// The number that all cells are below.
    pub fn cells(&self) -> u32
        ensures answer { result ≡ self.now.cells }
    {
        self.cells
    }

    /// The number of EXCLUDE_HERE.
    pub fn excludes(&self) -> u32
        ensures answer { result ≡ exclude_count self.now }
    {
        self.list
            .iter()
            .filter(|node| node.mark.is_exclude())
            .count() as u32
    }

    /// The nodes that node `n` has edges to.
    pub fn next(&self, n: u32) -> (Option<u32>, Option<u32>)
        requires node { n < length self.now.nodes }
        ensures answer { result ≡ next_of self.now n }
    {
        self.list[n as usize].next
    }

    /// What node `n` is besides its effects.
    pub fn mark(&self, n: u32) -> Mark
        requires node { n < length self.now.nodes }
        ensures answer { result ≡ mark_of self.now n }
    {
        self.list[n as usize].mark
    }

    /// The cells that node `n` may read.
    pub fn reads(&self, n: u32) -> &CellSet
        requires node { n < length self.now.nodes }
        ensures answer { result.now ≡ reads_of self.now n }
        ensures universe { universe_of result.now ≡ self.now.cells }
    {
        &self.list[n as usize].reads
    }

    /// The cells that node `n` may write.
    pub fn writes(&self, n: u32) -> &CellSet
        requires node { n < length self.now.nodes }
        ensures answer { result.now ≡ writes_of self.now n }
        ensures universe { universe_of result.now ≡ self.now.cells }
    {
        &self.list[n as usize].writes
    }

    /// The cells that node `n` kills: a walk that comes to it wants them no more from the nodes before.
    pub fn kills(&self, n: u32) -> &CellSet
        requires node { n < length self.now.nodes }
        ensures answer { result.now ≡ kills_of self.now n }
        ensures universe { universe_of result.now ≡ self.now.cells }
    {
        &self.list[n as usize].kills
    }

    /// Whether the list is a walk: not empty, each number a node, and each but the last with an edge to the one after it.
    pub fn is_walk(&self, walk: &[u32]) -> bool
        ensures answer { IsTrue result ↔ IsWalk self.now walk.now }
    {
        match walk.split_first() {
            None => false,
            Some((first, rest)) => self.goes_on(*first, rest),
        }
    }

    // Whether the rest goes on from the first number as a walk.
    fn goes_on(&self, first: u32, rest: &[u32]) -> bool
        ensures answer { IsTrue result ↔ IsWalkFrom self.now first rest.now }
    {
        let mut at = first;
        'steps: for to in rest {
            if !self.leads(at, *to) {
                return false;
            }
            at = *to;
        }
        at < self.nodes()
    }

    // Whether there is an edge from `n` to `m`.
    fn leads(&self, n: u32, m: u32) -> bool
        ensures answer { result ≡ has_edge self.now n m }
    {
        match self.list.get(n as usize) {
            None => false,
            Some(node) => is_at(node.next.0, m) || is_at(node.next.1, m),
        }
    }

    /// The edges, each as the node that it leaves and the node that it names.
    pub fn edges(&self) -> Result<Vec<(u32, u32)>, NoMemory>
        ensures answer { IfOk result (λ v. (n m : ℕ) → joins v.items n m ≡ has_edge self.now n m) }
    {
        let mut all = Vec::new(*self.list.allocator());
        'nodes: for n in 0..self.nodes() {
            let (first, second) = self.next(n);
            add_edge(&mut all, n, first)?;
            add_edge(&mut all, n, second)?;
        }
        Ok(all)
    }
}

fn append(nodes: &mut Vec<Node>, node: Node) -> Result<(), AllocError>
    ensures answer { OnOk result (nodes.new.items ≡ nodes.old.items ++ node ∷ []) }
    ensures err { OnErr result (nodes.new.items ≡ nodes.old.items) }
{
    nodes.push(node)?;
    Ok(())
}

fn is_at(next: Option<u32>, m: u32) -> bool
    ensures { result ≡ is_at next m }
{
    match next {
        None => false,
        Some(k) => k == m,
    }
}

// Adds the edge from `n`, if there is one.
fn add_edge(edges: &mut Vec<(u32, u32)>, n: u32, next: Option<u32>) -> Result<(), AllocError>
    ensures answer { OnOk result ((k m : ℕ) → joins edges.new.items k m ≡ (joins edges.old.items k m || ((n == k) && is_at next m))) }
{
    match next {
        None => {}
        Some(m) => edges.push((n, m))?,
    }
    Ok(())
}
