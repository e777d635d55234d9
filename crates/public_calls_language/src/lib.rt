//! Tests of the public calls that the language rests on: values, the reader, and sets of cells.
//!
//! A proof covers what a clause says. The tests of this crate and of the two beside it, `public_calls_compiler` and `public_calls_store`, tell what no clause says: values that
//! come from outside (worked examples, C, the formats), that a call with enough memory succeeds, and that real files hold what was written to them. They stand in
//! crates of their own, since a crate with tests is proved twice.
#![tactic(auto)]

#[cfg(test)]
mod reading;
#[cfg(test)]
mod sets;
#[cfg(test)]
mod trees;
#[cfg(test)]
mod values;
