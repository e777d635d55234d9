//! Files, a directory and standard output of the host, as a shelf, a disk and a sink.
//!
//! This is the edge of what is proved. The three adapters are proved to keep the counts of their
//! traits, and to tell no content: that a real file holds what was written to it is trusted, and
//! each adapter has one test. An error of the host is counted and answered by `Failed`, want of
//! memory for a path too. A call that a signal interrupts is tried again.
//!
//! `DirDisk` makes lasting the names of files as well as their bytes, and keeps a second process
//! out of its store by an advisory lock.
#![tactic(auto)]

mod counted;
mod dir_disk;
mod file_shelf;
mod std_sink;
mod store_dir;
mod store_file;

pub use dir_disk::DirDisk;
pub use file_shelf::FileShelf;
pub use std_sink::StdSink;
