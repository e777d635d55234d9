//! The words of a command line: which command they are, with its options.
//!
//! `read_words` is what the layer above uses. Its contract says for all words which command they are, with the value of
//! each option that is given and the default of each other, and that they are none otherwise.
#![tactic(auto)]

mod command;
mod numbers;
mod options;
mod reading;
mod stops;

pub use command::{Command, Settings};
pub use reading::read_words;
pub use stops::{Stop, Stops};
