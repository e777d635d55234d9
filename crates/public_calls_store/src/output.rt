//! The output file.

ghost use Rattle.std.specs.Prelude.{[], ◌∷◌, ◌++◌, ℕ, List, take, IsTrue, OnOk};
ghost use Rattle.disk_model.specs.MemoryDisk.{view_of};
ghost use Rattle.output_file.specs.OnDisk.{HasAtLeast, IsOutputOn, IsOnDisk};

use ckpt_base::Failed;
use disk_model::{Disk, DiskFile, MemDisk};
use output_file::Output;
use std::test::Fail;

// Writes one byte behind a length.
fn write_one(output: &mut Output, disk: &mut MemDisk, length: u64, b: u8) -> Result<(), Failed>
    requires within { HasAtLeast length (view_of disk.old).seen.output }
    ensures written { OnOk result (IsOnDisk (take length (view_of disk.old).seen.output ++ b ∷ []) (view_of disk.new)) }
{
    output.begin_at(disk, length)?;
    output.push(disk, b)?;
    output.flush(disk)?;
    Ok(())
}

#[test]
fn bytes_behind_the_begun_length_are_written_anew(rt: HostRuntime) -> Result<(), Fail> {
    let mut disk = MemDisk::new(rt.alloc(), 64, 64, 0, Vec::new(rt.alloc()))?;
    let mut output = Output::new(rt.alloc())?;
    write_one(&mut output, &mut disk, 0, 5)?;
    write_one(&mut output, &mut disk, 1, 6)?;
    write_one(&mut output, &mut disk, 1, 7)?;
    let mut front = [0; 4];
    let n = disk.read_at(DiskFile::Output, 0, front.as_mut_slice())?;
    assert_eq!(rt; (front, n, output.length()), ([5, 7, 0, 0], 2, 2));
    Ok(())
}

// Pushes a byte this many times.
fn push_many(output: &mut Output, disk: &mut MemDisk, times: usize) -> Result<(), Failed>
    requires begun { IsTrue output.old.begun }
    requires fits { (bytes : List ℕ) × IsOutputOn output.old (view_of disk.old) bytes }
    ensures begun { OnOk result (IsTrue output.new.begun) }
    ensures fits { OnOk result ((bytes : List ℕ) × IsOutputOn output.new (view_of disk.new) bytes) }
{
    let mut left = times;
    while left > 0 {
        output.push(disk, 7)?;
        left -= 1;
    }
    Ok(())
}

// Writes one byte more than may wait, and flushes twice.
fn write_many(output: &mut Output, disk: &mut MemDisk) -> Result<(), Failed> {
    output.begin_at(disk, 0)?;
    push_many(output, disk, 65_537)?;
    output.flush(disk)?;
    output.flush(disk)?;
    Ok(())
}

// How many bytes the output has where this call on the disk fails, and how many are in its file. 0 where none of the calls fails.
fn lengths_where_one_fails(rt: &HostRuntime, call: u64) -> Result<(u64, u64), Fail> {
    let mut failing = Vec::new(rt.alloc());
    failing.push(call)?;
    let mut disk = MemDisk::new(rt.alloc(), 131_072, 64, 0, failing)?;
    let mut output = Output::new(rt.alloc())?;
    if write_many(&mut output, &mut disk).is_ok() {
        return Ok((0, 0));
    }
    Ok((output.length(), disk.length(DiskFile::Output)?))
}

#[test]
fn each_call_may_fail_and_there_are_five(rt: HostRuntime) -> Result<(), Fail> {
    assert_eq!(rt; lengths_where_one_fails(&rt, 1)?, (0, 0));
    assert_eq!(rt; lengths_where_one_fails(&rt, 2)?, (0, 0));
    assert_eq!(rt; lengths_where_one_fails(&rt, 3)?, (65_536, 0));
    assert_eq!(rt; lengths_where_one_fails(&rt, 4)?, (65_537, 65_536));
    assert_eq!(rt; lengths_where_one_fails(&rt, 5)?, (65_537, 65_537));
    assert_eq!(rt; lengths_where_one_fails(&rt, 6)?, (0, 0));
    Ok(())
}
