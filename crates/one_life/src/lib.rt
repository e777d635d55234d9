//! One life of a program, from its store to its end.
#![tactic(auto)]

mod driving;
mod laws;
mod living;

pub use driving::run_to;
pub use laws::begun_lives_come_to_what_is_meant;
pub use living::{Lived, live};
