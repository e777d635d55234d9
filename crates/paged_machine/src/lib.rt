//! A machine that runs a code over paged memory, one instruction at a time.
//!
//! `Machine::step` does exactly the row of its instruction, as the table in `machine_code` says it, and answers what came of it as an `Event`: it
//! writes no protected page, but answers a write fault and leaves everything, so that the caller can serve the fault and step again. All memory is
//! taken when the machine is made, with room for the operands and locals of 1,000 calls; a step takes none, and checks nothing that validity of the
//! code already says. `Steps` counts the ticks, and takes no bytes.
//!
//! The layer above drives the machine by two clauses of `step`: `reaches`, that steps (with faults served between) are a run of rows over a plain
//! memory, and `falls`, that each comes nearer to a tick; or by `run_on`, which does as many as tell nothing.
#![tactic(auto)]

mod laws;
mod machine;
mod pointer;
mod stack;
mod steps;

pub use laws::{answers_stop_runs, served_stores_come_first};
pub use machine::Machine;
pub use machine_code::Event;
pub use steps::Steps;
