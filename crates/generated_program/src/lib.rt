//! The generated program: a program of so many functions, with what is known of it before it is read.
#![tactic(auto)]

mod figures;
mod program;

pub use figures::{add_generated_line, cells, steps, stops};
pub use program::program_text;
