ghost use Rattle.std.specs.Prelude.{◌≡◌, ◌≤◌, is_some, length, false, IfOk};
ghost use Rattle.host_edge.specs.Untold.{untold_shelf};

use crate::counted::counted;
use ckpt_base::{Failed, Shelf, Text};
use std::fs::File;
use std::io::{self, Read};

/// The files of the host, by their paths.
#[derive(Drop)]
pub struct FileShelf {
    rt: HostRuntime,
    file: Option<File>,
    faults: u64,
}

impl FileShelf {
    /// No file is open.
    pub fn new(rt: HostRuntime) -> FileShelf
        ensures none { is_some result.file ≡ false }
        ensures faults { result.faults ≡ 0 }
    {
        FileShelf {
            rt,
            file: None,
            faults: 0,
        }
    }

    // A path is text; no file has another.
    fn open_file(&self, name: &Text) -> io::Result<File> {
        match str::from_utf8(name.as_bytes()) {
            Ok(path) => File::open(&self.rt, path),
            Err(_) => Err(io::ErrorKind::InvalidInput.into()),
        }
    }
}

// Tries again while a signal interrupts the read.
fn read_some(file: &mut File, buf: &mut [u8]) -> io::Result<usize>
    ensures number { IfOk result (λ n. n ≤ length buf.old) }
{
    for _ in 0..u64::MAX {
        match file.read(buf) {
            Ok(n) => return Ok(n),
            Err(e) if e.kind() == io::ErrorKind::Interrupted => {}
            Err(e) => return Err(e),
        }
    }
    Err(io::ErrorKind::Interrupted.into())
}

fn read_open(file: &mut Option<File>, buf: &mut [u8]) -> io::Result<usize>
    ensures same { is_some file.new ≡ is_some file.old }
    ensures number { IfOk result (λ n. n ≤ length buf.old) }
{
    match file {
        Some(file) => read_some(file, buf),
        None => Err(io::ErrorKind::NotFound.into()),
    }
}

impl Shelf for FileShelf {
    ghost use Rattle.std.specs.Prelude.{is_some};
    ghost use Rattle.host_edge.specs.Untold.{untold_shelf};

    ghost view = { λ s. untold_shelf (is_some s.file) s.faults };

    fn open(&mut self, name: &Text) -> Result<bool, Failed> {
        self.file = None;
        let opened = self.open_file(name);
        self.file = Some(counted(opened, &mut self.faults)?);
        Ok(true)
    }

    fn read(&mut self, buf: &mut [u8]) -> Result<usize, Failed> {
        let answer = read_open(&mut self.file, buf);
        counted(answer, &mut self.faults)
    }
}
