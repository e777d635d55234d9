//! The cells that images may leave out.
//!
//! For each EXCLUDE_HERE [`find_exclusions`] finds the dead and the read-only cells, exactly as `specs/Excluded.antt` says of
//! all walks. It puts cells that all nodes treat alike into one class ([`Classes`]), and asks the solver of `path_laws` for
//! what walks come to: a read with no kill before, a CHECKPOINT_HERE after which that is so, a CHECKPOINT_HERE, and a
//! write with a CHECKPOINT_HERE after it.
#![tactic(auto)]

mod borders;
mod classes;
mod equations;
mod exclusions;
mod laws;
mod signature;

pub use classes::Classes;
pub use exclusions::{Exclusions, find_exclusions};
pub use laws::same_graphs_have_the_same_sets;
