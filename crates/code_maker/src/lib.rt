//! The compiler: from the graphs of a program to a code for the machine.
//!
//! `make` goes over the graphs node by node. A node's segment begins with its one tick and falls through where the next node follows
//! (`specs/NodeCode`). The code means what the graphs mean, tick for tick (`specs/CodeMeaning`), and it is one that the machine can run.
#![tactic(auto)]

mod depths;
mod expressions;
mod laws;
mod maker;
mod node_code;
mod resumed_laws;
mod size_laws;
mod valid_laws;

pub use laws::{codes_mean_their_graphs, codes_mean_their_programs};
pub use maker::make;
pub use resumed_laws::{
    checkpoints_end_ticks, codes_keep_pointers, codes_run_alike, codes_stand_behind,
};
pub use size_laws::codes_are_small;
pub use valid_laws::{checkpoints_are_there, codes_are_valid, codes_fit, directives_are_there};
