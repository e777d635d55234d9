//! What one life keeps of its store: the chain of its images, their joined content, and its output.
//!
//! A `Journal` stands on one disk: its chain is at rest, or a record is under way behind it, one disk call at a time; what it keeps
//! joined is the content of the chain's records, and its output file has the bytes so far. Each call here changes one of the two and
//! leaves the other as it was, for reads and after each crash; none takes memory. The layers above speak of records and of bytes, by
//! `HoldsJournal` and, while a record is under way, by `KeepsJournal`.
#![tactic(auto)]

mod begin;
mod bytes;
mod joining;
mod journal;
mod record;
mod resume;
mod writing;

pub use journal::{Journal, JournalRooms, JournalState};
