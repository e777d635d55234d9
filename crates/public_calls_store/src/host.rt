//! Files, a directory and standard output of the host.

use ckpt_base::{Failed, Shelf, Sink, Text};
use disk_model::{Disk, DiskFile};
use host_edge::{DirDisk, FileShelf, StdSink};
use std::fs;
use std::test::Fail;

// Reads the file of that name, at most 8 bytes.
fn read_file<S: Shelf>(shelf: &mut S, name: &Text) -> Result<([u8; 8], usize), Failed> {
    let mut bytes = [0; 8];
    if !shelf.open(name)? {
        return Ok((bytes, 0));
    }
    let n = shelf.read(&mut bytes)?;
    Ok((bytes, n))
}

#[test]
fn a_shelf_reads_files_by_their_paths(rt: HostRuntime) -> Result<(), Fail> {
    fs::write(&rt, "text", "Hi!")?;
    let mut shelf = FileShelf::new(rt);
    let name = Text::of(rt.alloc(), "text")?;
    assert_eq!(rt;
        read_file(&mut shelf, &name),
        Ok(([72, 105, 33, 0, 0, 0, 0, 0], 3))
    );
    let missing = Text::of(rt.alloc(), "missing")?;
    assert_eq!(rt; read_file(&mut shelf, &missing), Err(Failed));
    Ok(())
}

// Writes one piece.
fn write_piece<S: Sink>(sink: &mut S) -> Result<usize, Failed> {
    sink.write(b"Hi!\n")
}

#[test]
fn a_sink_takes_what_it_is_given(rt: HostRuntime) -> Result<(), Fail> {
    let mut sink = StdSink::new(rt.stdout());
    assert_eq!(rt; write_piece(&mut sink), Ok(4));
    Ok(())
}

// Starts file One anew and lengthens it.
fn fill<D: Disk>(disk: &mut D) -> Result<u64, Failed> {
    disk.start_file(DiskFile::One, &[7; 16])?;
    if disk.length(DiskFile::One)? < 15 {
        return Err(Failed);
    }
    disk.write_at(DiskFile::One, 15, b"Hi!")?;
    disk.sync(DiskFile::One)?;
    disk.cut(DiskFile::One, 17)?;
    disk.length(DiskFile::One)
}

// The bytes from place 14 on.
fn tail_of<D: Disk>(disk: &mut D) -> Result<([u8; 4], usize), Failed> {
    let mut bytes = [0; 4];
    let n = disk.read_at(DiskFile::One, 14, &mut bytes)?;
    Ok((bytes, n))
}

#[test]
fn a_directory_keeps_a_store(rt: HostRuntime) -> Result<(), Fail> {
    let name = Text::of(rt.alloc(), "D")?;
    let mut disk = DirDisk::new(rt);
    assert_eq!(rt; fill(&mut disk), Err(Failed), "no store is entered");
    assert_eq!(rt; disk.enter(&name), Ok(()));
    assert_eq!(rt;
        disk.length(DiskFile::Two),
        Ok(0),
        "a file that is not there"
    );
    assert_eq!(rt; fill(&mut disk), Ok(17));
    let mut other = DirDisk::new(rt);
    assert_eq!(rt; other.enter(&name), Err(Failed), "the store is held");
    assert_eq!(rt; disk.enter(&name), Ok(()));
    assert_eq!(rt; tail_of(&mut disk), Ok(([7, 72, 105, 0], 3)));
    assert_eq!(rt;
        fs::read_to_string(&rt, "D/image1")?.as_str(),
        "\u{7}\u{7}\u{7}\u{7}\u{7}\u{7}\u{7}\u{7}\u{7}\u{7}\u{7}\u{7}\u{7}\u{7}\u{7}Hi"
    );
    Ok(())
}
