ghost use Rattle.std.specs.Prelude.{◌≡◌, length};
ghost use Rattle.access_summary.specs.Edges.{edges_in};

use crate::node::NodeWork;
use access_summary::EdgeList;
use sqlite_items::Items;

/// The graph of a function: for each of its nodes the edges, and what it does.
#[derive(Drop)]
pub struct FunctionGraph {
    pub(crate) locals: usize,
    pub(crate) edges: EdgeList,
    pub(crate) works: Items<NodeWork>,
    ghost same: { length (edges_in edges) ≡ length works },
}
