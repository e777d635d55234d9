//! The text that lists the records of a store.
//!
//! There is a line for each record of the chain, with its number, its steps and the cells that it lists, or one that there is no chain.
//! The contents of the disk stay.
#![tactic(auto)]

mod fault;
mod lines;
mod listing;

pub use fault::ListFault;
pub use listing::list_records;
