ghost use Rattle.std.specs.Prelude.{◌≡◌, ◌≢◌, ◌≤◌, ◌+◌, ◌^◌, is_ok, is_some, length, false, IfOk, OnOk, IsTrue};
ghost use Rattle.disk_model.specs.Store.{file_of};
ghost use Rattle.disk_model.specs.Change.{Write, Cut, Sync, Start};
ghost use Rattle.disk_model.specs.View.{Looks, Changes, OnlySyncs, IsRefused, Takes};
ghost use Rattle.host_edge.specs.Untold.{untold_disk, untold_is_disk};

use crate::counted::counted;
use crate::store_dir::StoreDir;
use ckpt_base::{Failed, Text};
use disk_model::{Disk, DiskFile};
use std::io;

/// A directory of the host as the disk of a store.
///
/// It makes the directory where it is missing, and keeps the files `output`, `image1` and `image2` in it, and `lock`.
/// While a store is entered no other process, and no other `DirDisk`, can enter it. Every call but `enter` fails while
/// no `enter` has answered Ok; an `enter` leaves the store that was entered before, also where it fails.
#[derive(Drop)]
pub struct DirDisk {
    rt: HostRuntime,
    store: Option<StoreDir>,
    faults: u64,
}

impl DirDisk {
    /// No store is entered.
    pub fn new(rt: HostRuntime) -> DirDisk
        ensures none { is_some result.store ≡ false }
        ensures faults { result.faults ≡ 0 }
    {
        DirDisk {
            rt,
            store: None,
            faults: 0,
        }
    }

    // A path is text; no directory has another.
    fn open_store(&self, name: &Text) -> io::Result<StoreDir> {
        match str::from_utf8(name.as_bytes()) {
            Ok(path) => StoreDir::enter(&self.rt, path),
            Err(_) => Err(io::ErrorKind::InvalidInput.into()),
        }
    }
}

fn not_entered() -> io::Error {
    io::ErrorKind::NotConnected.into()
}

// The store that is entered.
fn entered(store: &Option<StoreDir>) -> io::Result<&StoreDir>
    ensures err { is_some store.now ≡ false → OnOk result ⊥ }
{
    match store {
        Some(store) => Ok(store),
        None => Err(not_entered()),
    }
}

fn read_store(
    store: &Option<StoreDir>,
    file: DiskFile,
    at: u64,
    buf: &mut [u8],
) -> io::Result<usize>
    ensures number { IfOk result (λ n. n ≤ length buf.old) }
    ensures err { is_some store.now ≡ false → OnOk result ⊥ }
{
    match store {
        Some(store) => store.read_at(file, at, buf),
        None => Err(not_entered()),
    }
}

fn write_store(
    rt: &HostRuntime,
    store: &mut Option<StoreDir>,
    file: DiskFile,
    at: u64,
    bytes: &[u8],
) -> io::Result<()>
    ensures err { is_some store.old ≡ false → OnOk result ⊥ }
    ensures same { is_some store.new ≡ is_some store.old }
    ensures past { 2 ^ 64 ≤ at + length bytes.now → OnOk result ⊥ }
{
    if at > u64::MAX - bytes.len() as u64 {
        return Err(io::ErrorKind::InvalidInput.into());
    }
    match store {
        Some(store) => store.write_at(rt, file, at, bytes),
        None => Err(not_entered()),
    }
}

fn start_in_store(
    rt: &HostRuntime,
    store: &mut Option<StoreDir>,
    file: DiskFile,
    header: &[u8; 16],
) -> io::Result<()>
    ensures err { is_some store.old ≡ false → OnOk result ⊥ }
    ensures same { is_some store.new ≡ is_some store.old }
{
    match store {
        Some(store) => store.start_file(rt, file, header),
        None => Err(not_entered()),
    }
}

fn length_in_store(store: &Option<StoreDir>, file: DiskFile) -> io::Result<u64>
    ensures err { is_some store.now ≡ false → OnOk result ⊥ }
{
    entered(store)?.length(file)
}

fn cut_in_store(store: &Option<StoreDir>, file: DiskFile, len: u64) -> io::Result<()>
    ensures err { is_some store.now ≡ false → OnOk result ⊥ }
{
    entered(store)?.cut(file, len)
}

fn sync_in_store(store: &Option<StoreDir>, file: DiskFile) -> io::Result<()>
    ensures err { is_some store.now ≡ false → OnOk result ⊥ }
{
    entered(store)?.sync(file)
}

impl Disk for DirDisk {
    ghost use Rattle.host_edge.specs.Untold.{untold_disk, untold_is_disk};

    ghost view = { λ d. untold_disk d.faults };

    ghost lawful = { λ d tells. untold_is_disk d.faults tells };

    ghost tells_all = { λ d past. past };

    fn enter(&mut self, name: &Text) -> Result<(), Failed>
        ensures same { Looks result (untold_disk self.old.faults) (untold_disk self.new.faults) }
        ensures entered { is_some self.new.store ≡ is_ok result }
    {
        self.store = None;
        let opened = self.open_store(name);
        self.store = Some(counted(opened, &mut self.faults)?);
        Ok(())
    }

    fn length(&mut self, file: DiskFile) -> Result<u64, Failed>
        ensures answer { IfOk result (λ n. IsTrue false → n ≡ length (file_of file (untold_disk self.old.faults).seen)) }
        ensures same { Looks result (untold_disk self.old.faults) (untold_disk self.new.faults) }
        ensures err { is_some self.old.store ≡ false → OnOk result ⊥ }
        ensures same_store { is_some self.new.store ≡ is_some self.old.store }
    {
        let answer = length_in_store(&self.store, file);
        counted(answer, &mut self.faults)
    }

    fn read_at(&mut self, file: DiskFile, at: u64, buf: &mut [u8]) -> Result<usize, Failed>
        ensures answer { IfOk result (λ n. (n ≤ length buf.old) × (IsTrue false → Takes at (file_of file (untold_disk self.old.faults).seen) buf.old n buf.new)) }
        ensures same { Looks result (untold_disk self.old.faults) (untold_disk self.new.faults) }
        ensures err { is_some self.old.store ≡ false → OnOk result ⊥ }
        ensures same_store { is_some self.new.store ≡ is_some self.old.store }
    {
        let answer = read_store(&self.store, file, at, buf);
        counted(answer, &mut self.faults)
    }

    fn write_at(&mut self, file: DiskFile, at: u64, bytes: &[u8]) -> Result<(), Failed>
        ensures answer { Changes file (Write at bytes.now) result (untold_disk self.old.faults) (untold_disk self.new.faults) }
        ensures past { 2 ^ 64 ≤ at + length bytes.now → IsRefused result (untold_disk self.old.faults) (untold_disk self.new.faults) }
        ensures err { is_some self.old.store ≡ false → OnOk result ⊥ }
        ensures same_store { is_some self.new.store ≡ is_some self.old.store }
    {
        let answer = write_store(&self.rt, &mut self.store, file, at, bytes);
        counted(answer, &mut self.faults)
    }

    fn cut(&mut self, file: DiskFile, len: u64) -> Result<(), Failed>
        ensures answer { Changes file (Cut len) result (untold_disk self.old.faults) (untold_disk self.new.faults) }
        ensures err { is_some self.old.store ≡ false → OnOk result ⊥ }
        ensures same_store { is_some self.new.store ≡ is_some self.old.store }
    {
        let answer = cut_in_store(&self.store, file, len);
        counted(answer, &mut self.faults)
    }

    fn sync(&mut self, file: DiskFile) -> Result<(), Failed>
        ensures answer { Changes file Sync result (untold_disk self.old.faults) (untold_disk self.new.faults) }
        ensures only { IsTrue false → OnlySyncs (untold_disk self.old.faults) (untold_disk self.new.faults) }
        ensures err { is_some self.old.store ≡ false → OnOk result ⊥ }
        ensures same_store { is_some self.new.store ≡ is_some self.old.store }
    {
        let answer = sync_in_store(&self.store, file);
        counted(answer, &mut self.faults)
    }

    fn start_file(&mut self, file: DiskFile, header: &[u8; 16]) -> Result<(), Failed>
        requires image { file ≢ DiskFile.Output }
        ensures answer { Changes file (Start header.now) result (untold_disk self.old.faults) (untold_disk self.new.faults) }
        ensures err { is_some self.old.store ≡ false → OnOk result ⊥ }
        ensures same_store { is_some self.new.store ≡ is_some self.old.store }
    {
        let answer = start_in_store(&self.rt, &mut self.store, file, header);
        counted(answer, &mut self.faults)
    }
}
