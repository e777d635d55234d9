//! The flow graphs of a program.
//!
//! A graph has the nodes of a function in the order of the text: what each does (`specs/Works`), and where it goes on (`specs/Edges` of
//! `access_summary`). `specs/Run` says what a run does node after node, and `graphs_mean_their_programs` that it is what the source means.
//!
//! [`graph`] makes the graphs of all functions, and beside them that of `main` with the cells that each node may read, may write, and
//! kills (`specs/MainGraph`, [`node_sets`]), on which the excluded sets rest. [`runs_go_along_walks`] ties these effects to runs, by their events
//! alone, and [`runs_spare_excluded_cells`] the excluded sets.
#![tactic(auto)]

mod agreement;
mod copies;
mod events;
mod function_graph;
mod graphs;
mod laws;
mod main_effects;
mod node;
mod node_effects;
mod touched;
mod works;

pub use agreement::{
    first_states_agree, forgettable_cells_stay, images_agree, pointers_come_from_their_text,
    runs_agree, steps_agree, steps_make_runs,
};
pub use events::{runs_go_along_walks, runs_spare_excluded_cells};
pub use graphs::{Graphs, graph};
pub use laws::{
    checkpoints_are_exact, graph_runs_go_on, graphs_are_joined, graphs_mean_their_programs,
    main_graphs_are_whole, programs_have_one_pair_of_sets, works_keep_the_rules,
};
pub use node::NodeWork;
pub use node_effects::{NodeSets, node_sets};
