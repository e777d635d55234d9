//! Joining the records of a chain into one.
//!
//! `join` writes one record with all that the records list, each cell with its newest word, into the other image file, and makes that
//! file current. A crash at any moment of it leaves the old records or the one; once it is done every crash leaves the one.
#![tactic(auto)]

mod find;
mod joining;

pub use joining::join;
