//! What a program writes, on the disk.
//!
//! An `Output` gathers the bytes that are pushed and writes them to the output file of a store, 65,536 at a time. Contracts see
//! where it stands as a `Pushed`, and tie it to a disk that tells its contents by `IsOutputOn`: these are all bytes from the file's
//! front on, so many of them are lasting, and the newest are still waiting. After `flush` the file holds exactly these bytes, for
//! reads and after each crash.
//!
//! Whatever a call answers, the image files read as before, and a crash may leave of them what it might have left before. At no moment
//! of a push or a flush does a crash touch what was lasting before, nor one of a begin what stands before its length. Where a call
//! answers Ok the disk has counted no fault.
#![tactic(auto)]

mod output;

pub use output::Output;
