//! The disk of a store, as the code above it sees it, and one in memory.
//!
//! A store has three files. Reads give what the calls so far have made of them; a crash may leave
//! something else: of each change since a file was last synced any part, and nothing of what was
//! synced is lost. The trait `Disk` says for each call, for Ok and for Failed, what reads give after
//! it and what a crash at that moment, or at some moment since an earlier time, may leave.
//! `proofs/Calls.antt` has the laws by which the layers above put runs of calls together.
//!
//! `MemDisk` keeps a store in memory. It can be made to fail at chosen calls, to stop inside a
//! change call, and to crash, and it is proved to be such a disk.
#![tactic(auto)]

mod disk;
mod disk_file;
mod marks;
mod memory_disk;
mod memory_file;
mod memory_files;
mod memory_log;

pub use disk::Disk;
pub use disk_file::DiskFile;
pub use memory_disk::MemDisk;
