ghost use Rattle.std.specs.Prelude.{◌≡◌, ◌≤◌, length, IfOk, IsTrue};

use crate::store_file::{made_with, opened, refuse_same, remove_left_over};
use disk_model::DiskFile;
use std::fs::{self, File, OpenOptions};
use std::io;
use std::os::unix::fs::FileExt;
use std::path::Path;

/// A directory that holds a store, entered by this process alone.
#[derive(Drop)]
pub(crate) struct StoreDir {
    path: String,
    dir: File,
    _lock: File,
    output: Option<File>,
    one: Option<File>,
    two: Option<File>,
}

impl StoreDir {
    /// Makes the directory where it is missing, and takes its lock. From then on the directory and the names in it are lasting.
    pub(crate) fn enter(rt: &HostRuntime, path: &str) -> io::Result<StoreDir> {
        make_dir(rt, path)?;
        let mut store = StoreDir {
            path: String::from_str(rt.alloc(), path)?,
            dir: File::open(rt, path)?,
            _lock: locked(rt, path)?,
            output: None,
            one: None,
            two: None,
        };
        store.find(rt, DiskFile::Output)?;
        store.find(rt, DiskFile::One)?;
        store.find(rt, DiskFile::Two)?;
        store.dir.sync_all()?;
        Ok(store)
    }

    // Takes a file where it is there.
    fn find(&mut self, rt: &HostRuntime, file: DiskFile) -> io::Result<()> {
        let path = joined(rt, &self.path, name_of(file))?;
        if let Some(found) = opened(rt, path.as_str())? {
            self.refuse_known(&found)?;
            self.set_file(file, found);
        }
        Ok(())
    }

    // Refuses a file that the store has under another name.
    fn refuse_known(&self, file: &File) -> io::Result<()> {
        let found = file.metadata()?;
        refuse_same(&self.output, &found)?;
        refuse_same(&self.one, &found)?;
        refuse_same(&self.two, &found)
    }

    fn file(&self, file: DiskFile) -> Option<&File> {
        match file {
            DiskFile::Output => self.output.as_ref(),
            DiskFile::One => self.one.as_ref(),
            DiskFile::Two => self.two.as_ref(),
        }
    }

    fn set_file(&mut self, file: DiskFile, to: File) {
        match file {
            DiskFile::Output => self.output = Some(to),
            DiskFile::One => self.one = Some(to),
            DiskFile::Two => self.two = Some(to),
        }
    }

    /// The length of a file; one that is not there has length 0.
    pub(crate) fn length(&self, file: DiskFile) -> io::Result<u64> {
        match self.file(file) {
            Some(file) => Ok(file.metadata()?.len()),
            None => Ok(0),
        }
    }

    /// Reads as many bytes as the buffer holds, or as are left. Fewer are an error.
    pub(crate) fn read_at(&self, file: DiskFile, at: u64, buf: &mut [u8]) -> io::Result<usize>
        ensures number { IfOk result (λ n. n ≤ length buf.old) }
    {
        match self.file(file) {
            Some(file) => read_whole(file, at, buf),
            None => Ok(0),
        }
    }

    /// Writes all of the bytes. A file that is not there is made, and its name lasting, first.
    pub(crate) fn write_at(
        &mut self,
        rt: &HostRuntime,
        file: DiskFile,
        at: u64,
        bytes: &[u8],
    ) -> io::Result<()> {
        self.make(rt, file)?;
        match self.file(file) {
            Some(file) => file.write_all_at(bytes, at),
            None => Err(io::ErrorKind::NotFound.into()),
        }
    }

    fn make(&mut self, rt: &HostRuntime, file: DiskFile) -> io::Result<()> {
        if self.file(file).is_some() {
            return Ok(());
        }
        let path = joined(rt, &self.path, name_of(file))?;
        let made = match opened(rt, path.as_str())? {
            Some(found) => found,
            None => File::create_new(rt, path.as_str())?,
        };
        self.refuse_known(&made)?;
        self.dir.sync_all()?;
        self.set_file(file, made);
        Ok(())
    }

    /// Shortens a longer file.
    pub(crate) fn cut(&self, file: DiskFile, len: u64) -> io::Result<()> {
        match self.file(file) {
            Some(file) if file.metadata()?.len() > len => file.set_len(len),
            _ => Ok(()),
        }
    }

    /// Makes the bytes of a file lasting.
    pub(crate) fn sync(&self, file: DiskFile) -> io::Result<()> {
        match self.file(file) {
            Some(file) => file.sync_all(),
            None => Ok(()),
        }
    }

    /// Replaces a file by one with these bytes and its mode, which is lasting before it takes the name.
    pub(crate) fn start_file(
        &mut self,
        rt: &HostRuntime,
        file: DiskFile,
        header: &[u8; 16],
    ) -> io::Result<()> {
        let path = joined(rt, &self.path, name_of(file))?;
        let new_path = joined(rt, &self.path, new_name_of(file))?;
        remove_left_over(rt, new_path.as_str())?;
        let new = match self.file(file) {
            Some(old) => made_with(rt, new_path.as_str(), old.metadata()?.permissions())?,
            None => File::create_new(rt, new_path.as_str())?,
        };
        new.write_all_at(header, 0)?;
        new.sync_all()?;
        fs::rename(rt, new_path.as_str(), path.as_str())?;
        self.set_file(file, new);
        self.dir.sync_all()
    }
}

fn name_of(file: DiskFile) -> &'static str {
    match file {
        DiskFile::Output => "output",
        DiskFile::One => "image1",
        DiskFile::Two => "image2",
    }
}

fn new_name_of(file: DiskFile) -> &'static str {
    match file {
        DiskFile::Output => "output.new",
        DiskFile::One => "image1.new",
        DiskFile::Two => "image2.new",
    }
}

fn joined(rt: &HostRuntime, dir: &str, name: &str) -> io::Result<String> {
    Ok(format!(in rt.alloc(); "{dir}/{name}")?)
}

// Makes the directory where it is missing, and its name lasting.
fn make_dir(rt: &HostRuntime, path: &str) -> io::Result<()> {
    let made = match fs::create_dir(rt, path) {
        Ok(()) => true,
        Err(e) if e.kind() == io::ErrorKind::AlreadyExists => false,
        Err(e) => return Err(e),
    };
    let answer = judged(made, sync_parent(rt, path));
    if made && answer.is_err() {
        fs::remove_dir(rt, path)?;
    }
    answer
}

fn sync_parent(rt: &HostRuntime, path: &str) -> io::Result<()> {
    match Path::new(path).parent() {
        Some(parent) if parent.as_str().is_empty() => File::open(rt, ".")?.sync_all(),
        Some(parent) => File::open(rt, parent)?.sync_all(),
        None => Ok(()),
    }
}

// The parent of a directory that was there already may be closed to us, or unable to be synced.
fn judged(made: bool, synced: io::Result<()>) -> io::Result<()>
    ensures made { IsTrue made → result ≡ synced }
    ensures ok { IfOk synced (λ _. result ≡ synced) }
{
    match synced {
        Err(e) if !made && may_pass(e.kind()) => Ok(()),
        answer => answer,
    }
}

// A system that cannot sync directories calls the sync invalid.
fn may_pass(kind: io::ErrorKind) -> bool {
    matches!(
        kind,
        io::ErrorKind::PermissionDenied
            | io::ErrorKind::Unsupported
            | io::ErrorKind::InvalidInput
            | io::ErrorKind::ReadOnlyFilesystem
    )
}

// Takes the lock of the store, which is held while the file is open.
fn locked(rt: &HostRuntime, dir: &str) -> io::Result<File> {
    let path = joined(rt, dir, "lock")?;
    let lock = OpenOptions::new()
        .read(true)
        .write(true)
        .create(true)
        .open(rt, path.as_str())?;
    lock.try_lock()?;
    Ok(lock)
}

fn read_whole(file: &File, at: u64, buf: &mut [u8]) -> io::Result<usize>
    ensures number { IfOk result (λ n. n ≤ length buf.old) }
{
    let left = file.metadata()?.len().saturating_sub(at);
    let n = left.min(buf.len() as u64) as usize;
    file.read_exact_at(&mut buf[..n], at)?;
    Ok(n)
}
