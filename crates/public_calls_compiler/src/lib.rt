//! Tests of the public calls of the compiler and the machine: what is found out of a program, its code, and what the code does.
//!
//! `public_calls_language` says what the tests are for.
#![tactic(auto)]

#[cfg(test)]
mod code_rows;
#[cfg(test)]
mod codes;
#[cfg(test)]
mod machine;
#[cfg(test)]
mod memory;
#[cfg(test)]
mod programs;
#[cfg(test)]
mod sources;
