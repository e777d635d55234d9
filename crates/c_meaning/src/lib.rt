//! A slow evaluator, which answers what a program means.
//!
//! The layer above calls `plain`. Its clause `answer` says that output, ending and ticks are those of `meaning`, which
//! `c_tree` defines by cases on the resolved tree. The evaluator walks that tree. What is left to do stands in a list of
//! its own (`Evaluator`), so that neither blocks nor calls take machine stack; only expressions recurse (`value`), to
//! their depth.
#![tactic(auto)]

mod evaluator;
mod memory;
mod pointer;
mod progress;
mod run;
mod value;
mod work;

pub use run::{PlainRun, plain};
