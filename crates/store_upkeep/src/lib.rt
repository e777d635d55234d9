//! The two commands that keep a store in order: one joins the records of its chain into one, and one makes it a store without a chain.
//!
//! [`join_records`] answers what it found and did; at each moment of it a crash leaves a store that stands for each source for which it
//! stood, and no image is lost. [`clear_store`] leaves two blank image files and no output, whatever the store held; each crash in it leaves
//! a store that still stands for the same.
#![tactic(auto)]

mod clearing;
mod coalesced;
mod fault;
mod joining;
mod rooms;

pub use clearing::clear_store;
pub use coalesced::Coalesced;
pub use fault::JoinFault;
pub use joining::join_records;
