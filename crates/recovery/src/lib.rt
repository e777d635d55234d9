//! From a chain of images back to memory.
//!
//! `recover` puts the word of each cell that a chain lists into frames, whatever these held before, and answers what the newest
//! record says of its checkpoint. It refuses, in this order, a chain of another source, one of another input, and a chain that
//! does not fit the program. A refusal changes no frame.
#![tactic(auto)]

mod fault;
mod fit;
mod restore;
mod shape;

pub use fault::RecoverFault;
pub use restore::recover;
pub use shape::Shape;
