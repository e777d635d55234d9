//! Sets of cells.
//!
//! Contracts see a [`CellSet`] and a [`BitRow`] as one thing, a set of numbers below a universe: `universe_of` says what
//! is below, and `has` which numbers are in. Each call says number by number what its set has, and names neither the runs
//! nor the words that the sets are kept in, so a faster body changes no contract above.
//!
//! A `CellSet` keeps rising runs, which suits sets that are few intervals. A `BitRow` keeps one bit for each number, which
//! suits sets that grow again and again, as in a worklist. A [`RunList`] is a list of runs with its room reserved; it
//! takes in the runs of all cells that pass a [`CellTest`].
#![tactic(auto)]

mod bit_row;
mod cell_set;
mod cell_test;
mod run_list;
mod runs;
mod sweep;
mod words;

pub use bit_row::BitRow;
pub use cell_set::CellSet;
pub use cell_test::CellTest;
pub use run_list::{RUN_LIST_ROOM, RunList};
pub use runs::Run;
