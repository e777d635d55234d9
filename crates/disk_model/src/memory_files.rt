ghost use Rattle.std.specs.Prelude.{◌≡◌, length, IfOk};
ghost use Rattle.disk_model.specs.View.{Takes};
ghost use Rattle.disk_model.specs.MemoryFile.{IsTaken};
ghost use Rattle.disk_model.specs.MemoryLog.{change_of};

use crate::disk_file::DiskFile;
use crate::memory_file::MemFile;
use crate::memory_log::Kind;
use std::alloc::{AllocError, Global};

/// The three files of a store in memory.
#[derive(Drop)]
pub struct MemFiles {
    pub output: MemFile,
    pub one: MemFile,
    pub two: MemFile,
}

impl MemFiles {
    ghost use Rattle.disk_model.specs.MemoryDisk.{state_of, apply, crashed_files, empty_files};

    /// Three empty files with this room.
    pub fn new(alloc: Global, output_room: usize, image_room: usize) -> Result<MemFiles, AllocError>
        ensures answer { IfOk result (λ m. m ≡ empty_files output_room image_room) }
    {
        Ok(MemFiles {
            output: MemFile::new(alloc, output_room)?,
            one: MemFile::new(alloc, image_room)?,
            two: MemFile::new(alloc, image_room)?,
        })
    }

    /// The length of a file as it reads.
    pub fn len(&self, file: DiskFile) -> usize
        ensures answer { result ≡ length (state_of file self.now).seen }
    {
        match file {
            DiskFile::Output => self.output.len(),
            DiskFile::One => self.one.len(),
            DiskFile::Two => self.two.len(),
        }
    }

    /// Fills the front of the buffer from this place on.
    pub fn read(&self, file: DiskFile, at: usize, buf: &mut [u8]) -> usize
        ensures answer { Takes at (state_of file self.now).seen buf.old result buf.new }
    {
        match file {
            DiskFile::Output => self.output.read(at, buf),
            DiskFile::One => self.one.read(at, buf),
            DiskFile::Two => self.two.read(at, buf),
        }
    }

    /// The greatest length of a file.
    pub fn room(&self, file: DiskFile) -> usize
        ensures answer { result ≡ length (state_of file self.now).dirty }
    {
        match file {
            DiskFile::Output => self.output.room(),
            DiskFile::One => self.one.room(),
            DiskFile::Two => self.two.room(),
        }
    }

    /// Makes a change that the file takes.
    pub fn change(&mut self, file: DiskFile, kind: Kind, at: usize, bytes: &[u8])
        requires taken { IsTaken (change_of kind at bytes.now) (state_of file self.old) }
        ensures exact { self.new ≡ apply (file, change_of kind at bytes.now) self.old }
    {
        match file {
            DiskFile::Output => self.output.change(kind, at, bytes),
            DiskFile::One => self.one.change(kind, at, bytes),
            DiskFile::Two => self.two.change(kind, at, bytes),
        }
    }

    /// Ends what is pending in each file.
    pub fn crash(&mut self, pick: u8)
        ensures exact { self.new ≡ crashed_files pick self.old }
    {
        self.output.crash(pick);
        self.one.crash(pick);
        self.two.crash(pick);
    }
}
