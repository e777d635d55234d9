ghost use Rattle.std.specs.Prelude.{◌≡◌, ◌+◌, ◌-◌, ◌^◌, ◌<◌, ◌≤◌, ◌==◌, [], ◌∷◌, ◌++◌, List, ℕ, length, take, IsTrue, IfOk, OnOk, OnErr};
ghost use Rattle.ckpt_base.specs.Faults.{Rose};
ghost use Rattle.disk_model.specs.View.{SameFile, Steady};
ghost use Rattle.disk_model.specs.Moments.{Among, LeavesOnly};
ghost use Rattle.output_file.specs.Pushed.{length_of, not_begun, begun_behind, written_out, with_room, pushed, flushed};
ghost use Rattle.output_file.specs.OnDisk.{HasAtLeast, IsOutputOn, IsOnDisk, IsBehind};

use ckpt_base::{Bytes, Failed, NoMemory};
use disk_model::{Disk, DiskFile};
use std::alloc::Global;
use std::marker::Model;

/// How many bytes may wait to be written.
const ROOM: usize = 65_536;

/// The output file of a store, written from a length on. Contracts see how it stands.
///
/// After a call that answers `Failed` it is spent.
#[derive(Drop)]
pub struct Output {
    waiting: Bytes,
    /// How many bytes were written from the file's front on, and how many of them are lasting.
    written: u64,
    lasting: u64,
    begun: bool,
}

impl Model for Output {
    ghost use Rattle.std.specs.Prelude.{◌+◌, ◌^◌, ◌<◌, ◌≤◌, length};
    ghost use Rattle.output_file.specs.Pushed.{Pushed};

    ghost Value = { Pushed };

    ghost view = { λ o. record { begun = o.begun; written = o.written; lasting = o.lasting; waiting = o.waiting.list } };

    ghost invariant = { λ o. record {
      few : length o.waiting.list ≤ 65536;
      room : 65536 ≤ length o.waiting.list + o.waiting.spare;
      within : o.lasting ≤ o.written;
      short : o.written + length o.waiting.list < 2 ^ 64;
    } };
}

impl Output {
    /// An output that has not begun, with room for 65,536 waiting bytes.
    pub fn new(alloc: Global) -> Result<Output, NoMemory>
        ensures answer { IfOk result (λ o. o ≡ not_begun) }
    {
        Ok(Output {
            waiting: Bytes::with_room(alloc, ROOM)?,
            written: 0,
            lasting: 0,
            begun: false,
        })
    }

    /// How many bytes there are from the file's front on, the waiting ones included.
    pub fn length(&self) -> u64
        ensures answer { result ≡ length_of self.now }
    {
        self.written + self.waiting.as_slice().len() as u64
    }

    /// Begins behind the first `length` bytes of the output file, which has at least as many: cuts it there, and makes it lasting.
    ///
    /// `Failed` comes only where a call on the disk failed.
    pub fn begin_at<D: Disk>(&mut self, disk: &mut D, length: u64) -> Result<(), Failed>
        requires within { IsTrue (D.view disk.old).tells → HasAtLeast length (D.view disk.old).seen.output }
        ensures exact { OnOk result (self.new ≡ begun_behind length) }
        ensures answer { OnOk result (IsTrue (D.view disk.old).tells → IsOutputOn self.new (D.view disk.new) (take length (D.view disk.old).seen.output)) }
        ensures durable { OnOk result (IsTrue (D.view disk.old).tells → IsOnDisk (take length (D.view disk.old).seen.output) (D.view disk.new)) }
        ensures any_moment { IsTrue (D.view disk.old).tells → LeavesOnly (D.view disk.old) (D.view disk.new) (Among (D.view disk.old).may_leave (IsBehind length)) }
        ensures same { IsTrue (D.view disk.old).tells → SameFile DiskFile.One (D.view disk.old) (D.view disk.new) × SameFile DiskFile.Two (D.view disk.old) (D.view disk.new) }
        ensures failed { OnErr result (Rose (D.view disk.old).faults (D.view disk.new).faults) }
        ensures counts { OnOk result ((D.view disk.new).faults ≡ (D.view disk.old).faults) }
        ensures steady { Steady (D.view disk.old) (D.view disk.new) }
    {
        disk.cut(DiskFile::Output, length)?;
        disk.sync(DiskFile::Output)?;
        self.waiting.clear();
        self.written = length;
        self.lasting = length;
        self.begun = true;
        Ok(())
    }

    /// Adds one byte. Where 65,536 bytes wait they are written first, and else there is no call on the disk.
    ///
    /// `Failed` comes only where a call on the disk failed. At the greatest length of a file the waiting bytes are written, and then
    /// the byte itself, which fails.
    pub fn push<D: Disk>(&mut self, disk: &mut D, b: u8) -> Result<(), Failed>
        requires begun { IsTrue self.old.begun }
        requires fits { IsTrue (D.view disk.old).tells → (bytes : List ℕ) × IsOutputOn self.old (D.view disk.old) bytes }
        ensures exact { OnOk result (self.new ≡ pushed b self.old) }
        ensures count { OnOk result (length_of self.new ≡ length_of self.old + 1) }
        ensures answer { OnOk result (IsTrue (D.view disk.old).tells → (bytes : List ℕ) → IsOutputOn self.old (D.view disk.old) bytes → IsOutputOn self.new (D.view disk.new) (bytes ++ b ∷ [])) }
        ensures err { length_of self.old ≡ 2 ^ 64 - 1 → OnOk result ⊥ }
        ensures quiet { length self.old.waiting < 65536 → length_of self.old < 2 ^ 64 - 1 → (disk.new ≡ disk.old) × OnErr result ⊥ }
        ensures any_moment { IsTrue (D.view disk.old).tells → LeavesOnly (D.view disk.old) (D.view disk.new) (Among (D.view disk.old).may_leave (IsBehind self.old.lasting)) }
        ensures same { IsTrue (D.view disk.old).tells → SameFile DiskFile.One (D.view disk.old) (D.view disk.new) × SameFile DiskFile.Two (D.view disk.old) (D.view disk.new) }
        ensures failed { OnErr result (Rose (D.view disk.old).faults (D.view disk.new).faults) }
        ensures counts { OnOk result ((D.view disk.new).faults ≡ (D.view disk.old).faults) }
        ensures steady { Steady (D.view disk.old) (D.view disk.new) }
    {
        if self.length() == u64::MAX {
            return self.write_past_the_end(disk, b);
        }
        self.make_room(disk)?;
        self.keep(b);
        Ok(())
    }

    /// Writes the waiting bytes, if any, and makes the file lasting, if anything was written since it last was. Where nothing is owed
    /// there is no call on the disk.
    ///
    /// `Failed` comes only where a call on the disk failed.
    pub fn flush<D: Disk>(&mut self, disk: &mut D) -> Result<(), Failed>
        requires begun { IsTrue self.old.begun }
        requires fits { IsTrue (D.view disk.old).tells → (bytes : List ℕ) × IsOutputOn self.old (D.view disk.old) bytes }
        ensures exact { OnOk result (self.new ≡ flushed self.old) }
        ensures answer { OnOk result (IsTrue (D.view disk.old).tells → (bytes : List ℕ) → IsOutputOn self.old (D.view disk.old) bytes → IsOutputOn self.new (D.view disk.new) bytes) }
        ensures durable { OnOk result (IsTrue (D.view disk.old).tells → (bytes : List ℕ) → IsOutputOn self.old (D.view disk.old) bytes → IsOnDisk bytes (D.view disk.new)) }
        ensures quiet { self.old.waiting ≡ [] → self.old.lasting ≡ self.old.written → (disk.new ≡ disk.old) × OnErr result ⊥ }
        ensures any_moment { IsTrue (D.view disk.old).tells → LeavesOnly (D.view disk.old) (D.view disk.new) (Among (D.view disk.old).may_leave (IsBehind self.old.lasting)) }
        ensures same { IsTrue (D.view disk.old).tells → SameFile DiskFile.One (D.view disk.old) (D.view disk.new) × SameFile DiskFile.Two (D.view disk.old) (D.view disk.new) }
        ensures failed { OnErr result (Rose (D.view disk.old).faults (D.view disk.new).faults) }
        ensures counts { OnOk result ((D.view disk.new).faults ≡ (D.view disk.old).faults) }
        ensures steady { Steady (D.view disk.old) (D.view disk.new) }
    {
        self.write_waiting(disk)?;
        self.make_lasting(disk)?;
        Ok(())
    }

    /// Where these are the bytes of the output on a disk, they are so beside calls that leave the output file as it was since an earlier
    /// state `before` of the disk; and where the disk held exactly these bytes, it does so still.
    pub fn stays_beside<D: Disk>(&self, disk: &D)
        ensures fits { (before : D) (bytes : List ℕ) → SameFile DiskFile.Output (D.view before) (D.view disk.now) → IsOutputOn self.now (D.view before) bytes → IsOutputOn self.now (D.view disk.now) bytes }
        ensures durable { (before : D) (bytes : List ℕ) → SameFile DiskFile.Output (D.view before) (D.view disk.now) → IsOnDisk bytes (D.view before) → IsOnDisk bytes (D.view disk.now) }
    {}

    // Writes the waiting bytes, if any, in one piece.
    fn write_waiting<D: Disk>(&mut self, disk: &mut D) -> Result<(), Failed>
        requires fits { IsTrue (D.view disk.old).tells → (bytes : List ℕ) × IsOutputOn self.old (D.view disk.old) bytes }
        ensures exact { OnOk result (self.new ≡ written_out self.old) }
        ensures answer { OnOk result (IsTrue (D.view disk.old).tells → (bytes : List ℕ) → IsOutputOn self.old (D.view disk.old) bytes → IsOutputOn self.new (D.view disk.new) bytes) }
        ensures quiet { self.old.waiting ≡ [] → (disk.new ≡ disk.old) × OnErr result ⊥ }
        ensures any_moment { IsTrue (D.view disk.old).tells → LeavesOnly (D.view disk.old) (D.view disk.new) (Among (D.view disk.old).may_leave (IsBehind self.old.lasting)) }
        ensures same { IsTrue (D.view disk.old).tells → SameFile DiskFile.One (D.view disk.old) (D.view disk.new) × SameFile DiskFile.Two (D.view disk.old) (D.view disk.new) }
        ensures failed { OnErr result (Rose (D.view disk.old).faults (D.view disk.new).faults) }
        ensures counts { OnOk result ((D.view disk.new).faults ≡ (D.view disk.old).faults) }
        ensures steady { Steady (D.view disk.old) (D.view disk.new) }
    {
        let bytes = self.waiting.as_slice();
        if bytes.is_empty() {
            return Ok(());
        }
        disk.write_at(DiskFile::Output, self.written, bytes)?;
        self.written += self.waiting.as_slice().len() as u64;
        self.waiting.clear();
        Ok(())
    }

    // Makes the file lasting, if anything was written since it last was.
    fn make_lasting<D: Disk>(&mut self, disk: &mut D) -> Result<(), Failed>
        requires none { self.old.waiting ≡ [] }
        ensures exact { OnOk result (self.new ≡ record self.old { lasting = self.old.written }) }
        ensures answer { OnOk result (IsTrue (D.view disk.old).tells → (bytes : List ℕ) → IsOutputOn self.old (D.view disk.old) bytes → IsOutputOn self.new (D.view disk.new) bytes × IsOnDisk bytes (D.view disk.new)) }
        ensures quiet { self.old.lasting ≡ self.old.written → (disk.new ≡ disk.old) × OnErr result ⊥ }
        ensures any_moment { IsTrue (D.view disk.old).tells → LeavesOnly (D.view disk.old) (D.view disk.new) (D.view disk.old).may_leave }
        ensures same { IsTrue (D.view disk.old).tells → SameFile DiskFile.One (D.view disk.old) (D.view disk.new) × SameFile DiskFile.Two (D.view disk.old) (D.view disk.new) }
        ensures failed { OnErr result (Rose (D.view disk.old).faults (D.view disk.new).faults) }
        ensures counts { OnOk result ((D.view disk.new).faults ≡ (D.view disk.old).faults) }
        ensures steady { Steady (D.view disk.old) (D.view disk.new) }
    {
        if self.lasting == self.written {
            return Ok(());
        }
        disk.sync(DiskFile::Output)?;
        self.lasting = self.written;
        Ok(())
    }

    // Writes the waiting bytes where no more may wait.
    fn make_room<D: Disk>(&mut self, disk: &mut D) -> Result<(), Failed>
        requires fits { IsTrue (D.view disk.old).tells → (bytes : List ℕ) × IsOutputOn self.old (D.view disk.old) bytes }
        ensures exact { OnOk result (self.new ≡ with_room self.old) }
        ensures room { OnOk result (length self.new.waiting < 65536) }
        ensures answer { OnOk result (IsTrue (D.view disk.old).tells → (bytes : List ℕ) → IsOutputOn self.old (D.view disk.old) bytes → IsOutputOn self.new (D.view disk.new) bytes) }
        ensures quiet { length self.old.waiting < 65536 → (disk.new ≡ disk.old) × OnErr result ⊥ }
        ensures any_moment { IsTrue (D.view disk.old).tells → LeavesOnly (D.view disk.old) (D.view disk.new) (Among (D.view disk.old).may_leave (IsBehind self.old.lasting)) }
        ensures same { IsTrue (D.view disk.old).tells → SameFile DiskFile.One (D.view disk.old) (D.view disk.new) × SameFile DiskFile.Two (D.view disk.old) (D.view disk.new) }
        ensures failed { OnErr result (Rose (D.view disk.old).faults (D.view disk.new).faults) }
        ensures counts { OnOk result ((D.view disk.new).faults ≡ (D.view disk.old).faults) }
        ensures steady { Steady (D.view disk.old) (D.view disk.new) }
    {
        if self.is_full() {
            return self.write_waiting(disk);
        }
        Ok(())
    }

    // Whether no more bytes may wait.
    fn is_full(&self) -> bool
        ensures answer { result ≡ (length self.now.waiting == 65536) }
        ensures few { length self.now.waiting ≤ 65536 }
    {
        self.waiting.as_slice().len() == ROOM
    }

    // Lets one byte more wait.
    fn keep(&mut self, b: u8)
        requires room { length self.old.waiting < 65536 }
        requires short { length_of self.old < 2 ^ 64 - 1 }
        ensures exact { self.new ≡ record self.old { waiting = self.old.waiting ++ b ∷ [] } }
    {
        self.waiting.push(b);
    }

    // Writes the waiting bytes and then one byte behind the greatest length of a file, which fails.
    fn write_past_the_end<D: Disk>(&mut self, disk: &mut D, b: u8) -> Result<(), Failed>
        requires fits { IsTrue (D.view disk.old).tells → (bytes : List ℕ) × IsOutputOn self.old (D.view disk.old) bytes }
        requires greatest { length_of self.old ≡ 2 ^ 64 - 1 }
        ensures err { OnOk result ⊥ }
        ensures any_moment { IsTrue (D.view disk.old).tells → LeavesOnly (D.view disk.old) (D.view disk.new) (Among (D.view disk.old).may_leave (IsBehind self.old.lasting)) }
        ensures same { IsTrue (D.view disk.old).tells → SameFile DiskFile.One (D.view disk.old) (D.view disk.new) × SameFile DiskFile.Two (D.view disk.old) (D.view disk.new) }
        ensures failed { OnErr result (Rose (D.view disk.old).faults (D.view disk.new).faults) }
        ensures steady { Steady (D.view disk.old) (D.view disk.new) }
    {
        self.write_waiting(disk)?;
        disk.write_at(DiskFile::Output, self.written, &[b])
    }
}
