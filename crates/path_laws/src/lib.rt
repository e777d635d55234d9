//! Effect graphs, their walks, and what walks come to.
//!
//! An [`EffectGraph`] has nodes with at most two edges, a mark, and the cells that the node may read, may write and kills.
//! Contracts see it as the record `Graph`; `specs/Walks.antt` says what a walk is, and `specs/Forgettable.antt` which cells
//! no walk from a node wants.
//!
//! [`reaching`] is the one solver of the project: for each node the numbers for which some walk comes to a goal with no stop
//! before. It is exact both ways, over any list of edges, by a worklist and the lists of the nodes before each node.
//! The excluded sets, the summaries of functions and the wanted cells are all asked of it.
#![tactic(auto)]

mod graph;
mod predecessors;
mod solver;
mod whole;

pub use graph::{EffectGraph, Mark};
pub use solver::reaching;
