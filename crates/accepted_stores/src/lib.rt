//! A store that stands for a source is accepted with that source.
//!
//! Whatever crashes have left of it, a store that stands for a source is whole, and its chain is of that source and fits its program: so opening it with the source is
//! refused for no damage and for no other source or input. `specs/Accepted.antt` says which refusals are left.
//!
//! This crate makes no call on a disk and has no state: it has the laws, functions with empty bodies.
#![tactic(auto)]

mod laws;

pub use laws::{
    standing_chains_are_of_their_source, standing_chains_fit_their_program,
    standing_stores_are_accepted, standing_stores_are_whole,
};
