//! A drill: a program is run through a list of stops on a disk in memory, one life for each stop and one more without a stop.
//!
//! [`drill`] answers what each life did and the bytes of the output at the end. `specs/Courses.antt` says of a list of courses that they are those of a
//! drill: each life starts as the lives before it have left the store, is left where its stop reaches it, and else ends as the source's run.
#![tactic(auto)]

mod course;
mod drilling;
mod fault;
mod going;
mod lines;
mod living;
mod output;
mod stopping;

pub use course::{Course, Drilled};
pub use drilling::{OUTPUT_ROOM, drill};
pub use fault::DrillFault;
pub use lines::add_courses;
