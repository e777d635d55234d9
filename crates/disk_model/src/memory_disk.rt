ghost use Rattle.std.specs.Prelude.{◌≡◌, ◌≢◌, ◌↔◌, ◌+◌, ◌-◌, ◌^◌, ◌≤◌, ◌++◌, ◌∷◌, [], ◌||◌, nat_lt, length, min, IfOk, IsTrue, None, true, false, if◌then◌else◌};
ghost use Rattle.std.proofs.Common.{refl};
ghost use Rattle.disk_model.specs.Store.{file_of};
ghost use Rattle.disk_model.specs.Change.{Write, Cut, Sync, Start, end_of};
ghost use Rattle.disk_model.specs.View.{Looks, Changes, OnlySyncs, IsRefused, Takes};
ghost use Rattle.disk_model.specs.MemoryFile.{BeginsWithin, IsTaken};
ghost use Rattle.disk_model.specs.MemoryLog.{change_of, AreDataOf};
ghost use Rattle.disk_model.specs.MemoryDisk.{view_of, state_of, reads_of, apply, empty_disk, call_fails, passes_room, is_refused, change_fails, FailsExactly, after_look, after_change_call, made, left_pending, after_change, HasRoomFor, started, after_crash, lawful};

use crate::disk::Disk;
use crate::disk_file::DiskFile;
use crate::memory_files::MemFiles;
use crate::memory_log::{ENTRY_ROOM, Kind, Log};
use ckpt_base::{Failed, NoMemory, Text, count_on, fails_at};
use std::alloc::Global;
use std::marker::Model;

/// A store in memory with fixed room for each file.
///
/// Its calls are numbered from 1, and the listed ones fail. It may be set to stop inside a change call, and to crash.
#[derive(Drop)]
pub struct MemDisk {
    files: MemFiles,
    output_room: usize,
    image_room: usize,
    pending: Option<(DiskFile, [u8; 16])>,
    log: Log,
    keeps: bool,
    faults: u64,
    calls: u64,
    failing: Vec<u64>,
    fuse: u32,
    blown: bool,
}

impl Model for MemDisk {
    ghost use Rattle.disk_model.specs.MemoryDisk.{MemoryDisk, IsSound, empty_files};

    ghost Value = { MemoryDisk };

    ghost view = { λ d. record {
      files = d.files;
      first = empty_files d.output_room d.image_room;
      pending = d.pending;
      keeps = d.keeps;
      events = d.log.events;
      log_left = d.log.left;
      faults = d.faults;
      calls = d.calls;
      failing = d.failing.items;
      fuse = d.fuse;
      blown = d.blown;
    } };

    ghost invariant = { λ d. IsSound (record {
      files = d.files;
      first = empty_files d.output_room d.image_room;
      pending = d.pending;
      keeps = d.keeps;
      events = d.log.events;
      log_left = d.log.left;
      faults = d.faults;
      calls = d.calls;
      failing = d.failing.items;
      fuse = d.fuse;
      blown = d.blown;
    }) };
}

impl MemDisk {
    /// An empty store with room in bytes for each file and for a log. The listed calls fail.
    ///
    /// With a log room above 0 each change call is kept, for which it takes 32 bytes and its data, and the past is told.
    pub fn new(
        alloc: Global,
        output_room: usize,
        image_room: usize,
        log_room: usize,
        failing: Vec<u64>,
    ) -> Result<MemDisk, NoMemory>
        ensures answer { IfOk result (λ d. d ≡ empty_disk output_room image_room log_room failing.items) }
    {
        Ok(MemDisk {
            files: MemFiles::new(alloc, output_room, image_room)?,
            output_room,
            image_room,
            pending: None,
            log: Log::new(alloc, log_room)?,
            keeps: 0 < log_room,
            faults: 0,
            calls: 0,
            failing,
            fuse: 0,
            blown: false,
        })
    }

    /// Numbers the change calls from 1 again. Call `n` then leaves its change pending and fails, and each call after it fails until a crash. 0 sets no fuse.
    pub fn fuse(&mut self, n: u32)
        ensures exact { self.new ≡ record self.old { fuse = n } }
    {
        self.fuse = n;
    }

    /// Whether the fuse has acted.
    pub fn blown(&self) -> bool
        ensures answer { result ≡ self.now.blown }
    {
        self.blown
    }

    /// A crash ends what is pending, and the fuse. What it leaves is lasting, and from then on the past is not told.
    ///
    /// Pick 0 leaves each file as it was last lasting, and pick 1 as reads give it. Any other pick leaves it as reads
    /// give it, with each byte that was written since the last sync or stands past the lasting length set to the pick;
    /// a start that was pending is then done whole.
    pub fn crash(&mut self, pick: u8)
        ensures exact { self.new ≡ after_crash pick self.old }
        ensures found { (view_of self.old).may_leave (view_of self.new).seen }
    {
        finish_start(&mut self.files, &self.pending, pick);
        self.files.crash(pick);
        self.pending = None;
        self.keeps = false;
        self.fuse = 0;
        self.blown = false;
    }

    // Counts a call, and a fault where it fails.
    fn count_look(&mut self) -> Result<(), Failed>
        ensures exact { FailsExactly (call_fails self.old) result }
        ensures state { self.new ≡ after_look self.old }
        ensures rises { self.old.faults ≤ self.new.faults }
    {
        self.calls = count_on(self.calls);
        if self.blown | fails_at(&self.failing, self.calls) {
            self.faults = count_on(self.faults);
            return Err(Failed);
        }
        Ok(())
    }

    // Counts a change call, and a fault where it fails.
    fn count_change(&mut self, fails: bool)
        ensures exact { self.new ≡ after_change_call fails self.old }
    {
        self.calls = count_on(self.calls);
        if fails {
            self.faults = count_on(self.faults);
        }
        self.blown = self.blown | (self.fuse == 1);
        self.fuse = self.fuse.saturating_sub(1);
    }

    // Whether the change call fails and changes nothing.
    fn refuses(&self, file: DiskFile, kind: Kind, at: usize, bytes: &[u8]) -> bool
        requires data { AreDataOf kind bytes.now }
        ensures answer { result ≡ is_refused self.now file (change_of kind at bytes.now) }
        ensures err { 2 ^ 64 ≤ end_of (change_of kind at bytes.now) → result ≡ true }
    {
        let listed = fails_at(&self.failing, count_on(self.calls));
        let file_full = passes(self.files.room(file), kind, at, bytes);
        let log_full = self.keeps & !has_room(self.log.left(), bytes.len());
        (self.blown | listed) | (file_full | log_full)
    }

    // Makes a change, and keeps it where the past is told.
    fn make(&mut self, file: DiskFile, kind: Kind, at: usize, bytes: &[u8])
        requires none { self.old.pending ≡ None }
        requires data { AreDataOf kind bytes.now }
        requires taken { IsTaken (change_of kind at bytes.now) (state_of file self.old.files) }
        requires room { IsTrue self.old.keeps → 32 + length bytes.now ≤ self.old.log_left }
        ensures exact { self.new ≡ made file (change_of kind at bytes.now) self.old }
    {
        keep(&mut self.log, self.keeps, file, kind, at, bytes);
        self.files.change(file, kind, at, bytes);
    }

    // Leaves a start pending.
    fn hold(&mut self, file: DiskFile, bytes: &[u8])
        requires data { length bytes.now ≡ 16 }
        requires room { length bytes.now ≤ length (state_of file self.old.files).dirty }
        requires blown { IsTrue self.old.blown }
        ensures exact { self.new ≡ left_pending file (Start bytes.now) self.old }
    {
        let mut header = [0; 16];
        header.copy_from_slice(bytes);
        self.pending = Some((file, header));
    }

    // Leaves a change pending.
    fn leave_pending(&mut self, file: DiskFile, kind: Kind, at: usize, bytes: &[u8])
        requires none { self.old.pending ≡ None }
        requires data { AreDataOf kind bytes.now }
        requires blown { IsTrue self.old.blown }
        requires taken { IsTaken (change_of kind at bytes.now) (state_of file self.old.files) }
        requires room { IsTrue self.old.keeps → 32 + length bytes.now ≤ self.old.log_left }
        ensures exact { self.new ≡ left_pending file (change_of kind at bytes.now) self.old }
    {
        match kind {
            Kind::Write | Kind::Cut => self.make(file, kind, at, bytes),
            Kind::Sync => {}
            Kind::Start => self.hold(file, bytes),
        }
    }

    // One change call.
    fn run(&mut self, file: DiskFile, kind: Kind, at: usize, bytes: &[u8]) -> Result<(), Failed>
        requires data { AreDataOf kind bytes.now }
        requires within { BeginsWithin (change_of kind at bytes.now) (file_of file (reads_of self.old)) }
        ensures exact { FailsExactly (change_fails self.old file (change_of kind at bytes.now)) result }
        ensures state { self.new ≡ after_change file (change_of kind at bytes.now) self.old }
        ensures err { 2 ^ 64 ≤ end_of (change_of kind at bytes.now) → is_refused self.old file (change_of kind at bytes.now) ≡ true }
        ensures answer { Changes file (change_of kind at bytes.now) result (view_of self.old) (view_of self.new) }
    {
        let refused = self.refuses(file, kind, at, bytes);
        let acts = self.fuse == 1;
        self.count_change(refused | acts);
        if refused {
            return Err(Failed);
        }
        if acts {
            self.leave_pending(file, kind, at, bytes);
            return Err(Failed);
        }
        self.make(file, kind, at, bytes);
        Ok(())
    }
}

impl Disk for MemDisk {
    ghost view = { view_of };

    ghost lawful = { λ d _. lawful d };

    ghost tells_all = { λ d _. refl };

    fn enter(&mut self, _name: &Text) -> Result<(), Failed>
        ensures same { Looks result (view_of self.old) (view_of self.new) }
        ensures exact { FailsExactly (call_fails self.old) result }
        ensures state { self.new ≡ after_look self.old }
    {
        self.count_look()
    }

    fn length(&mut self, file: DiskFile) -> Result<u64, Failed>
        ensures answer { IfOk result (λ n. IsTrue (view_of self.old).tells → n ≡ length (file_of file (view_of self.old).seen)) }
        ensures same { Looks result (view_of self.old) (view_of self.new) }
        ensures exact { FailsExactly (call_fails self.old) result }
        ensures state { self.new ≡ after_look self.old }
    {
        self.count_look()?;
        Ok(self.files.len(file) as u64)
    }

    fn read_at(&mut self, file: DiskFile, at: u64, buf: &mut [u8]) -> Result<usize, Failed>
        ensures answer { IfOk result (λ n. (n ≤ length buf.old) × (IsTrue (view_of self.old).tells → Takes at (file_of file (view_of self.old).seen) buf.old n buf.new)) }
        ensures same { Looks result (view_of self.old) (view_of self.new) }
        ensures exact { FailsExactly (call_fails self.old) result }
        ensures state { self.new ≡ after_look self.old }
    {
        self.count_look()?;
        Ok(self.files.read(file, at as usize, buf))
    }

    fn write_at(&mut self, file: DiskFile, at: u64, bytes: &[u8]) -> Result<(), Failed>
        requires within { IsTrue (view_of self.old).tells → at ≤ length (file_of file (view_of self.old).seen) }
        ensures answer { Changes file (Write at bytes.now) result (view_of self.old) (view_of self.new) }
        ensures err { 2 ^ 64 ≤ at + length bytes.now → IsRefused result (view_of self.old) (view_of self.new) }
        ensures exact { FailsExactly (change_fails self.old file (Write at bytes.now)) result }
        ensures state { self.new ≡ after_change file (Write at bytes.now) self.old }
    {
        self.run(file, Kind::Write, at as usize, bytes)
    }

    fn cut(&mut self, file: DiskFile, len: u64) -> Result<(), Failed>
        ensures answer { Changes file (Cut len) result (view_of self.old) (view_of self.new) }
        ensures exact { FailsExactly (change_fails self.old file (Cut len)) result }
        ensures state { self.new ≡ after_change file (Cut len) self.old }
    {
        self.run(file, Kind::Cut, len as usize, &[])
    }

    fn sync(&mut self, file: DiskFile) -> Result<(), Failed>
        ensures answer { Changes file Sync result (view_of self.old) (view_of self.new) }
        ensures only { IsTrue (view_of self.old).tells → OnlySyncs (view_of self.old) (view_of self.new) }
        ensures exact { FailsExactly (change_fails self.old file Sync) result }
        ensures state { self.new ≡ after_change file Sync self.old }
    {
        self.run(file, Kind::Sync, 0, &[])
    }

    fn start_file(&mut self, file: DiskFile, header: &[u8; 16]) -> Result<(), Failed>
        requires image { file ≢ DiskFile.Output }
        ensures answer { Changes file (Start header.now) result (view_of self.old) (view_of self.new) }
        ensures exact { FailsExactly (change_fails self.old file (Start header.now)) result }
        ensures state { self.new ≡ after_change file (Start header.now) self.old }
    {
        self.run(file, Kind::Start, 0, header)
    }
}

// Starts a file anew.
fn start_anew(files: &mut MemFiles, file: DiskFile, header: &[u8; 16])
    requires room { length header.now ≤ length (state_of file files.old).dirty }
    ensures exact { files.new ≡ apply (file, Start header.now) files.old }
{
    files.change(file, Kind::Start, 0, header);
}

// Does a pending start whole, but for pick 0.
fn finish_start(files: &mut MemFiles, pending: &Option<(DiskFile, [u8; 16])>, pick: u8)
    requires room { HasRoomFor pending.now files.old }
    ensures exact { files.new ≡ started pick pending.now files.old }
{
    if let Some(start) = pending {
        let header = start.1;
        if pick != 0 {
            start_anew(files, start.0, &header);
        }
    }
}

// Whether the change would end past the room of its file.
fn passes(room: usize, kind: Kind, at: usize, bytes: &[u8]) -> bool
    ensures answer { result ≡ nat_lt room (end_of (change_of kind at bytes.now)) }
    ensures err { 2 ^ 64 ≤ end_of (change_of kind at bytes.now) → result ≡ true }
{
    match kind {
        Kind::Write => room < bytes.len() || room - bytes.len() < at,
        Kind::Cut | Kind::Sync => false,
        Kind::Start => room < bytes.len(),
    }
}

// Whether a log has room for an entry with this many bytes.
fn has_room(left: usize, len: usize) -> bool
    ensures answer { IsTrue result ↔ (32 + len ≤ left) }
{
    left >= ENTRY_ROOM && left - ENTRY_ROOM >= len
}

// Keeps a change where the disk does.
fn keep(log: &mut Log, keeps: bool, file: DiskFile, kind: Kind, at: usize, bytes: &[u8])
    requires room { IsTrue keeps → 32 + length bytes.now ≤ log.old.left }
    ensures events { log.new.events ≡ (if keeps then log.old.events ++ (file, change_of kind at bytes.now) ∷ [] else log.old.events) }
    ensures left { log.new.left ≡ (if keeps then log.old.left - (32 + length bytes.now) else log.old.left) }
{
    if keeps {
        log.note(file, kind, at as u64, bytes);
    }
}
