//! A program, compiled: its code, its excluded sets, the words with which its cells start, and its checkpoints.
#![tactic(auto)]

mod compiled;

pub use compiled::Compiled;
