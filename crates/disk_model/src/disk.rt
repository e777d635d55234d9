ghost use Rattle.std.specs.Prelude.{◌≡◌, ◌≢◌, ◌≤◌, ◌+◌, ◌^◌, ℕ, List, length, Result, IfOk, IsTrue};
ghost use Rattle.disk_model.specs.Store.{file_of};
ghost use Rattle.disk_model.specs.View.{View, IsDisk, Looks, Changes, OnlySyncs, IsRefused, Takes};
ghost use Rattle.disk_model.specs.Change.{Write, Cut, Sync, Start};

use crate::disk_file::DiskFile;
use ckpt_base::{Failed, Text};

/// The disk of a store: three files, which a crash may leave otherwise than reads give them.
///
/// Each call answers `Failed` only where it counts a fault. A change that failed is pending in part, or not at all. Whatever it answers,
/// a call on one file leaves the other two as reads give them and as a crash may leave them.
pub trait Disk {
    /// What is told of the disk, and how often it has failed.
    ghost view: { Self → View };

    /// Chooses the store.
    fn enter(&mut self, name: &Text) -> Result<(), Failed>
        ensures same { Looks result (view self.old) (view self.new) };

    /// The length of the file in bytes; 0 where the file is not there.
    fn length(&mut self, file: DiskFile) -> Result<u64, Failed>
        ensures answer { IfOk result (λ n. IsTrue (view self.old).tells → n ≡ length (file_of file (view self.old).seen)) }
        ensures same { Looks result (view self.old) (view self.new) };

    /// Fills the front of `buf` with the bytes from `at` on, and answers how many: as many as `buf` holds, or as are left.
    fn read_at(&mut self, file: DiskFile, at: u64, buf: &mut [u8]) -> Result<usize, Failed>
        ensures answer { IfOk result (λ n. (n ≤ length buf.old) × (IsTrue (view self.old).tells → Takes at (file_of file (view self.old).seen) buf.old n buf.new)) }
        ensures same { Looks result (view self.old) (view self.new) };

    /// Writes all of `bytes` from `at` on, which is at most the file's length. Where they would end past 2^64 the call fails and changes nothing.
    fn write_at(&mut self, file: DiskFile, at: u64, bytes: &[u8]) -> Result<(), Failed>
        requires within { IsTrue (view self.old).tells → at ≤ length (file_of file (view self.old).seen) }
        ensures answer { Changes file (Write at bytes.now) result (view self.old) (view self.new) }
        ensures err { 2 ^ 64 ≤ at + length bytes.now → IsRefused result (view self.old) (view self.new) };

    /// Shortens a longer file to `len` bytes, and leaves any other as it is.
    fn cut(&mut self, file: DiskFile, len: u64) -> Result<(), Failed>
        ensures answer { Changes file (Cut len) result (view self.old) (view self.new) };

    /// Makes the file lasting: from Ok on, a crash leaves of it what a read gives.
    fn sync(&mut self, file: DiskFile) -> Result<(), Failed>
        ensures answer { Changes file Sync result (view self.old) (view self.new) }
        ensures only { IsTrue (view self.old).tells → OnlySyncs (view self.old) (view self.new) };

    /// Replaces a file of images by the 16 bytes, whole or not at all. It is lasting from Ok on.
    fn start_file(&mut self, file: DiskFile, header: &[u8; 16]) -> Result<(), Failed>
        requires image { file ≢ DiskFile.Output }
        ensures answer { Changes file (Start header.now) result (view self.old) (view self.new) };

    ghost lawful: { (d : Self) → IsTrue (view d).tells → IsDisk (view d) };

    ghost tells_all: { (d : Self) → IsTrue (view d).tells_past → IsTrue (view d).tells };
}
