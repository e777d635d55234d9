//! Records, and stores that have them.

ghost use Rattle.std.specs.Prelude.{◌≡◌, ◌<◌, ◌≤◌, ◌+◌, [], IfOk};
ghost use Rattle.disk_model.specs.MemoryDisk.{empty_disk};
ghost use Rattle.image_format.specs.Image.{Image, InRange};
ghost use Rattle.image_chain.specs.Append.{Spells};

use cell_sets::Run;
use ckpt_base::{Bytes, Failed};
use disk_model::{Disk, DiskFile, MemDisk};
use image_format::{Fields, Header, Marks, write_header, write_record};
use page_frames::Frames;
use std::test::Fail;

/// The digests of a source and of an input.
pub const MARKS: Marks = Marks {
    source: [0x11; 32],
    input: [0x22; 32],
};

/// What an image says of a first checkpoint, before any input and output.
pub const FIELDS: Fields = Fields {
    marks: MARKS,
    node: 7,
    steps: 7,
    input_place: 0,
    output_length: 0,
    directive: 1,
    left_out: false,
    number: 1,
};

/// Cells 3 and 5.
pub const RUNS: [Run; 2] = [Run { first: 3, count: 1 }, Run { first: 5, count: 1 }];

/// The record of cells 3 and 5, over a memory of zeros but for cell 5. It has 141 bytes.
pub fn two_cells(rt: &HostRuntime, fields: &Fields) -> Result<Bytes, Fail>
    requires ranges { InRange fields.now }
    ensures { IfOk result (λ bytes. (r : Image) × Spells r bytes.list) }
{
    let mut memory = Frames::new(rt.alloc(), 1, 0)?;
    memory.set_word(5, 0x0102_0304_0506_0708);
    let mut out = Bytes::with_room(rt.alloc(), 141)?;
    write_record(fields, RUNS.as_slice(), &memory, &mut out);
    Ok(out)
}

/// The record of one run, each of whose cells has the word of eight bytes `fill`.
pub fn one_run(rt: &HostRuntime, fields: &Fields, run: Run, fill: u8) -> Result<Bytes, Fail>
    requires ranges { InRange fields.now }
    requires some { 0 < run.count }
    requires within { run.first + run.count ≤ 512 }
{
    let memory = Frames::new(rt.alloc(), 1, fill)?;
    let mut out = Bytes::with_room(rt.alloc(), 8192)?;
    write_record(fields, &[run], &memory, &mut out);
    Ok(out)
}

/// A disk in memory with nothing on it, none of whose calls fails.
pub fn empty_store(rt: &HostRuntime) -> Result<MemDisk, Fail>
    ensures { IfOk result (λ disk. disk ≡ empty_disk 64 4096 0 []) }
{
    let failing = Vec::new(rt.alloc());
    let disk = MemDisk::new(rt.alloc(), 64, 4096, 0, failing)?;
    Ok(disk)
}

// Writes the last byte of file One, the gate of the next record.
fn open_gate(disk: &mut MemDisk) -> Result<(), Failed> {
    let end = disk.length(DiskFile::One)?;
    if end == 0 {
        return Err(Failed);
    }
    disk.write_at(DiskFile::One, end - 1, &[0xA5])
}

// Appends bytes to file One.
fn add(disk: &mut MemDisk, bytes: &[u8]) -> Result<(), Failed> {
    let end = disk.length(DiskFile::One)?;
    disk.write_at(DiskFile::One, end, bytes)
}

/// A store whose file One has generation 1 and these records, each behind an open gate.
pub fn store_of(rt: &HostRuntime, records: &[Bytes]) -> Result<MemDisk, Fail> {
    let mut disk = empty_store(rt)?;
    let header = write_header(&Header {
        generation: 1,
        every: 1,
        max: 16,
        gate_open: false,
    });
    disk.start_file(DiskFile::One, &header)?;
    for record in records {
        open_gate(&mut disk)?;
        add(&mut disk, record.as_slice())?;
    }
    Ok(disk)
}
