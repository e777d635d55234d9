//! Where the nodes of a function go on, and what its statements may touch.
//!
//! `edges` answers the edges between the nodes of a function, as `specs/Edges` defines them by cases on its statements.
//!
//! `specs/Effects` says what a statement does that shows outside of its function: reads, writes and calls, in the order of the
//! text. `specs/Touch` says which cells each may touch, by the may-point sets. [`find_summaries`] unites them over every function
//! that a function reaches by calls, as `specs/Summaries` says.
#![tactic(auto)]

mod bodies;
mod calls;
mod edge_list;
mod effects;
mod summaries;
mod touch;

pub use bodies::{answer_effects, assign_effects, call_effects, declare_effects, input_effects};
pub use edge_list::{Edge, EdgeList, Targets, edges};
pub use effects::{Effect, Named, Target, all_effects, expr_effects, pointer_effects};
pub use summaries::{Summaries, find_summaries};
pub use touch::{Access, add_source, place_below};
