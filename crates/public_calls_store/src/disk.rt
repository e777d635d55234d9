//! The disk in memory: what a crash leaves of a change that the fuse left pending.

use ckpt_base::Failed;
use disk_model::{Disk, DiskFile, MemDisk};
use std::test::Fail;

// Starts a file, and writes four bytes over its end.
fn start_and_write<D: Disk>(disk: &mut D) -> Result<(), Failed> {
    disk.start_file(DiskFile::One, &[1; 16])?;
    if disk.length(DiskFile::One)? < 14 {
        return Err(Failed);
    }
    disk.write_at(DiskFile::One, 14, &[2; 4])
}

// The last written byte and the length of file One.
fn end_of<D: Disk>(disk: &mut D) -> Result<(u8, u64), Failed> {
    let mut bytes = [0; 1];
    disk.read_at(DiskFile::One, 15, &mut bytes)?;
    Ok((bytes[0], disk.length(DiskFile::One)?))
}

// What a crash leaves of a write that the fuse left pending.
fn torn_write(rt: &HostRuntime, pick: u8) -> Result<(u8, u64), Fail> {
    let mut disk = MemDisk::new(rt.alloc(), 64, 64, 256, Vec::new(rt.alloc()))?;
    disk.fuse(2);
    if start_and_write(&mut disk).is_ok() || !disk.blown() {
        return Ok((0, 0));
    }
    disk.crash(pick);
    Ok(end_of(&mut disk)?)
}

#[test]
fn a_write_that_the_fuse_left_is_torn(rt: HostRuntime) -> Result<(), Fail> {
    assert_eq!(rt; torn_write(&rt, 0)?, (1, 16));
    assert_eq!(rt; torn_write(&rt, 1)?, (2, 18));
    assert_eq!(rt; torn_write(&rt, 7)?, (7, 18));
    assert_eq!(rt; torn_write(&rt, 165)?, (165, 18));
    Ok(())
}

// Starts and writes a file, which then endures a crash.
fn start_and_sync<D: Disk>(disk: &mut D) -> Result<(), Failed> {
    start_and_write(disk)?;
    disk.sync(DiskFile::One)?;
    Ok(())
}

// Starts the file anew.
fn start_again<D: Disk>(disk: &mut D) -> Result<(), Failed> {
    disk.start_file(DiskFile::One, &[3; 16])?;
    Ok(())
}

// What a crash leaves of a start that the fuse left pending.
fn pending_start(rt: &HostRuntime, pick: u8) -> Result<(u8, u64), Fail> {
    let mut disk = MemDisk::new(rt.alloc(), 64, 64, 0, Vec::new(rt.alloc()))?;
    start_and_sync(&mut disk)?;
    disk.fuse(1);
    if start_again(&mut disk).is_ok() || !disk.blown() {
        return Ok((0, 0));
    }
    disk.crash(pick);
    Ok(end_of(&mut disk)?)
}

#[test]
fn a_start_that_the_fuse_left_is_done_whole_or_not_at_all(rt: HostRuntime) -> Result<(), Fail> {
    assert_eq!(rt; pending_start(&rt, 0)?, (2, 18));
    assert_eq!(rt; pending_start(&rt, 1)?, (3, 16));
    assert_eq!(rt; pending_start(&rt, 7)?, (3, 16));
    assert_eq!(rt; pending_start(&rt, 165)?, (3, 16));
    Ok(())
}

#[test]
fn files_are_printed_by_their_numbers(rt: HostRuntime) -> Result<(), Fail> {
    let text = format!(in rt.alloc(); "{} {} {}", DiskFile::Output, DiskFile::One, DiskFile::Two)?;
    assert_eq!(rt; text.as_str(), "0 1 2");
    Ok(())
}
