//! Why a cell stays in the images.
//!
//! [`why`] tells for an EXCLUDE_HERE and a cell whether the cell is dead, read-only or neither, and shows it: by the least walk that
//! needs the cell's word behind a CHECKPOINT_HERE, and by the least walk that writes it before one. `specs/WalksThatKeep.antt` says
//! which walks these are, and `specs/Least.antt` which of them is the least.
//!
//! A walk of either kind has a turn: the CHECKPOINT_HERE of a need, the write of a write. Its nodes alone tell in which state a walk
//! is, that is whether its turn may still come and whether it may lie behind, so the body is one search by breadth over nodes and
//! states that visits the smaller node first. Visits are then in the order of their walks, and the first visit that is an end has
//! the least walk.
#![tactic(auto)]

mod aim;
mod reason;
mod search;
mod seen;
mod walk;

pub use reason::{Reason, why};
pub use walk::Walk;
