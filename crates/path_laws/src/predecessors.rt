ghost use Rattle.std.specs.Prelude.{◌≡◌, ℕ, ◌<◌, [], ◌∷◌, ◌++◌, length, true, vec_len, IfOk, OnOk, ◌&&◌, ◌||◌, ◌==◌};
ghost use Rattle.path_laws.specs.Reaching.{joins};
ghost use Rattle.path_laws.specs.Solving.{listed, before_of};

use std::alloc::{AllocError, Global};
use std::marker::Model;

// A list of nodes.
#[derive(Drop)]
pub(crate) struct NodeList {
    nodes: Vec<u32>,
}

impl Model for NodeList {
    ghost use Rattle.std.specs.Prelude.{List, ℕ};

    ghost Value = { List ℕ };

    ghost view = { λ l. l.nodes.items };
}

impl NodeList {
    fn new(alloc: Global) -> NodeList
        ensures answer { result ≡ [] }
    {
        NodeList {
            nodes: Vec::new(alloc),
        }
    }

    fn push(&mut self, n: u32) -> Result<(), AllocError>
        ensures answer { OnOk result (self.new ≡ self.old ++ n ∷ []) }
    {
        self.nodes.push(n)?;
        Ok(())
    }

    pub(crate) fn as_slice(&self) -> &[u32]
        ensures answer { result.now ≡ self.now }
    {
        &self.nodes
    }
}

fn empty_lists(alloc: Global, count: usize) -> Result<Vec<NodeList>, AllocError>
    ensures len { IfOk result (λ v. length v.items ≡ count) }
    ensures none { IfOk result (λ v. (n m : ℕ) → listed (before_of v.items m) n ≡ joins [] n m) }
{
    let mut lists = Vec::new(alloc);
    'nodes: for n in 0..count {
        let _ = n;
        lists.push(NodeList::new(alloc))?;
    }
    Ok(lists)
}

// Notes the edge from `n` to `m` in the list of `m`.
fn note(lists: &mut Vec<NodeList>, n: u32, m: usize) -> Result<(), AllocError>
    requires node { m < vec_len lists.old }
    ensures len { OnOk result (vec_len lists.new ≡ vec_len lists.old) }
    ensures noted { OnOk result ((k p : ℕ) → listed (before_of lists.new.items p) k ≡ (listed (before_of lists.old.items p) k || ((n == k) && (m == p)))) }
{
    let list = &mut lists[m];
    list.push(n)
}

// For each node the nodes that have an edge to it.
pub(crate) fn predecessors(
    alloc: Global,
    edges: &[(u32, u32)],
    count: usize,
) -> Result<Vec<NodeList>, AllocError>
    requires within { (n m : ℕ) → joins edges.now n m ≡ true → m < count }
    ensures len { IfOk result (λ v. length v.items ≡ count) }
    ensures answer { IfOk result (λ v. (n m : ℕ) → listed (before_of v.items m) n ≡ joins edges.now n m) }
{
    let mut lists = empty_lists(alloc, count)?;
    'edges: for edge in edges {
        note(&mut lists, edge.0, edge.1 as usize)?;
    }
    Ok(lists)
}
