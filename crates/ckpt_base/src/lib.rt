//! What every layer speaks of: texts and bytes, how a run ends, and the outside that a program reads from and writes to.
#![tactic(auto)]

mod bytes;
mod ending;
mod errors;
mod faults;
pub mod pointer;
mod shelf;
mod sink;
mod text;
mod trap;
pub mod word;

pub use bytes::Bytes;
pub use ending::Ending;
pub use errors::{Failed, NoMemory};
pub use faults::{count_on, fails_at};
pub use shelf::{MemShelf, Shelf};
pub use sink::{MemSink, Sink};
pub use text::Text;
pub use trap::Trap;
