//! A pool of the bytes of several jobs, and of their exclusive-or.
//!
//! A pool file has a slot of one size for each job, and a parity slot: their exclusive-or. It keeps the length and the digest of each
//! slot, so that a slot whose bytes were lost is known, and one lost slot is rebuilt from the others. The pool stands in one of the two
//! image files of a store; a `put` writes the other one with the next generation, behind a gate that it opens last.
#![tactic(auto)]

mod fault;
mod get;
mod header;
mod look;
mod lost;
mod make;
mod open;
mod piece;
mod pieces;
mod pool;
mod put;
mod rewrite;
mod room;
mod xor;

pub use fault::{PoolFault, SlotFault};
pub use header::{BadPoolHeader, PoolHeader};
pub use lost::LostSlots;
pub use pool::Pool;
pub use room::PoolRoom;
