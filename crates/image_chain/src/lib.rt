//! The chain of images in a store.
//!
//! An image file is a header and records, each behind a gate; only a gate that is open has a record behind it. The layers above
//! speak of lists of records: `open` answers the records of the current file or the first damage, exactly; at each moment of an
//! `append` a crash leaves the old list, or the old list and the record, and before the gate is opened the old list alone; once it
//! is done every crash leaves the new list. All the while the other image file stays as it was. A `Kept` is the joined content of a
//! chain, a word or nothing for each cell.
#![tactic(auto)]

mod append;
mod chain;
mod clear;
mod fault;
mod kept;
mod laws;
mod look;
mod open;
mod record;
mod replace;
mod room;
mod start;

pub use chain::{Chain, Step};
pub use fault::ChainFault;
pub use kept::Kept;
pub use laws::{blank_files_are_closed, found_chains_are_there, records_grow, steps_follow};
pub use room::ChainRoom;
