//! Writing a pool file behind a closed gate, in pieces.
ghost use Rattle.std.specs.Prelude.{◌≡◌, ◌≢◌, ◌⊎◌, ◌-◌, ◌≤◌, ◌<◌, ◌+◌, ◌^◌, ◌++◌, [], ℕ, List, length, take, min, IsTrue, IfOk, OnErr, OnOk, true};
ghost use Rattle.ckpt_base.specs.Faults.{Rose};
ghost use Rattle.disk_model.specs.Store.{Store, file_of};
ghost use Rattle.disk_model.specs.View.{Steady, On};
ghost use Rattle.disk_model.specs.Moments.{Among, LeavesOnly};
ghost use Rattle.parity_store.specs.declared.header.PoolHeader.{PoolHeader as PoolHeaderOf};
ghost use Rattle.parity_store.specs.Layout.{IsPoolHeader, InPoolRange};
ghost use Rattle.parity_store.specs.Pools.{IsAside};
ghost use Rattle.parity_store.specs.Writing.{IsWriting, IsWritten, IsOut, IsShut, IsGated, Wrote, OnlyFile};

use crate::header::{OPEN_GATE, write_header};
use crate::piece::{PIECE_BYTES, Pieces};
use ckpt_base::Failed;
use disk_model::{Disk, DiskFile};

/// The place of the gate.
const GATE: u64 = 15;

impl Pieces {
    /// Starts a file with a header and a closed gate.
    pub(crate) fn start<D: Disk>(
        disk: &mut D,
        file: DiskFile,
        generation: u32,
        size: u32,
        jobs: u16,
    ) -> Result<Pieces, Failed>
        requires image { file ≢ DiskFile.Output }
        requires ranges { InPoolRange size jobs }
        requires some { 1 ≤ generation }
        ensures same { IfOk result (λ w. (w.file ≡ file) × (w.at ≡ 16) × (w.held ≡ 0)) }
        ensures answer { IfOk result (λ w. IsTrue (D.view disk.old).tells → IsWriting w (record { generation = generation; size = size; jobs = jobs; gate_open = true }) (D.view disk.new) []) }
        ensures any_moment { IsTrue (D.view disk.old).tells → (g : ℕ) → ((c : Store) → (D.view disk.old).may_leave c → IsAside file g (file_of file c))
            → LeavesOnly (D.view disk.old) (D.view disk.new) (Among (D.view disk.old).may_leave (On file (λ _ bytes. IsAside file g bytes))) }
        ensures others { IsTrue (D.view disk.old).tells → OnlyFile file (D.view disk.old) (D.view disk.new) }
        ensures failed { OnErr result (Rose (D.view disk.old).faults (D.view disk.new).faults) }
        ensures counts { OnOk result ((D.view disk.new).faults ≡ (D.view disk.old).faults) }
        ensures steady { Steady (D.view disk.old) (D.view disk.new) }
    {
        let header = write_header(generation, size, jobs);
        disk.start_file(file, &header)?;
        Ok(Pieces {
            file,
            at: 16,
            held: 0,
            piece: [0; PIECE_BYTES],
        })
    }

    /// Gives these bytes to the pieces.
    pub(crate) fn push<D: Disk>(&mut self, disk: &mut D, bytes: &[u8]) -> Result<(), Failed>
        requires short { self.old.at + self.old.held + length bytes.now < 2 ^ 40 }
        requires writing { IsTrue (D.view disk.old).tells → (h : PoolHeaderOf) × ((text : List ℕ) × IsWriting self.old h (D.view disk.old) text) }
        ensures file { self.new.file ≡ self.old.file }
        ensures place { OnOk result (self.new.at + self.new.held ≡ self.old.at + self.old.held + length bytes.now) }
        ensures answer { OnOk result (IsTrue (D.view disk.old).tells → (h : PoolHeaderOf) (text : List ℕ) → IsWriting self.old h (D.view disk.old) text → IsWriting self.new h (D.view disk.new) (text ++ bytes.now)) }
        ensures wrote { IsTrue (D.view disk.old).tells → (h : PoolHeaderOf) (text : List ℕ) → IsWriting self.old h (D.view disk.old) text → Wrote self.old.file h (D.view disk.old) (D.view disk.new) }
        ensures failed { OnErr result (Rose (D.view disk.old).faults (D.view disk.new).faults) }
        ensures counts { OnOk result ((D.view disk.new).faults ≡ (D.view disk.old).faults) }
        ensures steady { Steady (D.view disk.old) (D.view disk.new) }
    {
        let mut done = 0;
        while done < bytes.len() {
            let n = self.push_some(disk, &bytes[done..])?;
            done += n;
        }
        Ok(())
    }

    // Gives as many of these bytes to the piece at hand as it has room for, once a full one is written. Answers how many.
    fn push_some<D: Disk>(&mut self, disk: &mut D, bytes: &[u8]) -> Result<usize, Failed>
        requires some { 0 < length bytes.now }
        requires short { self.old.at + self.old.held + length bytes.now < 2 ^ 40 }
        requires writing { IsTrue (D.view disk.old).tells → (h : PoolHeaderOf) × ((text : List ℕ) × IsWriting self.old h (D.view disk.old) text) }
        ensures file { self.new.file ≡ self.old.file }
        ensures count { IfOk result (λ n. (0 < n) × (n ≤ length bytes.now)) }
        ensures place { IfOk result (λ n. self.new.at + self.new.held ≡ self.old.at + self.old.held + n) }
        ensures answer { IfOk result (λ n. IsTrue (D.view disk.old).tells → (h : PoolHeaderOf) (text : List ℕ) → IsWriting self.old h (D.view disk.old) text → IsWriting self.new h (D.view disk.new) (text ++ take n bytes.now)) }
        ensures wrote { IsTrue (D.view disk.old).tells → (h : PoolHeaderOf) (text : List ℕ) → IsWriting self.old h (D.view disk.old) text → Wrote self.old.file h (D.view disk.old) (D.view disk.new) }
        ensures failed { OnErr result (Rose (D.view disk.old).faults (D.view disk.new).faults) }
        ensures counts { OnOk result ((D.view disk.new).faults ≡ (D.view disk.old).faults) }
        ensures steady { Steady (D.view disk.old) (D.view disk.new) }
    {
        self.make_room(disk)?;
        let n = self.keep(bytes);
        Ok(n)
    }

    // Writes the piece at hand where it is full.
    fn make_room<D: Disk>(&mut self, disk: &mut D) -> Result<(), Failed>
        requires short { self.old.at + self.old.held < 2 ^ 40 }
        requires writing { IsTrue (D.view disk.old).tells → (h : PoolHeaderOf) × ((text : List ℕ) × IsWriting self.old h (D.view disk.old) text) }
        ensures file { self.new.file ≡ self.old.file }
        ensures room { OnOk result (self.new.held < 4096) }
        ensures place { OnOk result (self.new.at + self.new.held ≡ self.old.at + self.old.held) }
        ensures answer { OnOk result (IsTrue (D.view disk.old).tells → (h : PoolHeaderOf) (text : List ℕ) → IsWriting self.old h (D.view disk.old) text → IsWriting self.new h (D.view disk.new) text) }
        ensures wrote { IsTrue (D.view disk.old).tells → (h : PoolHeaderOf) (text : List ℕ) → IsWriting self.old h (D.view disk.old) text → Wrote self.old.file h (D.view disk.old) (D.view disk.new) }
        ensures failed { OnErr result (Rose (D.view disk.old).faults (D.view disk.new).faults) }
        ensures counts { OnOk result ((D.view disk.new).faults ≡ (D.view disk.old).faults) }
        ensures steady { Steady (D.view disk.old) (D.view disk.new) }
    {
        if self.held == PIECE_BYTES {
            self.write_piece(disk)?;
        }
        Ok(())
    }

    // Writes the piece at hand, and begins the next one.
    pub(crate) fn write_piece<D: Disk>(&mut self, disk: &mut D) -> Result<(), Failed>
        requires short { self.old.at + self.old.held < 2 ^ 40 }
        requires writing { IsTrue (D.view disk.old).tells → (h : PoolHeaderOf) × ((text : List ℕ) × IsWriting self.old h (D.view disk.old) text) }
        ensures file { self.new.file ≡ self.old.file }
        ensures empty { OnOk result (self.new.held ≡ 0) }
        ensures place { OnOk result (self.new.at ≡ self.old.at + self.old.held) }
        ensures answer { OnOk result (IsTrue (D.view disk.old).tells → (h : PoolHeaderOf) (text : List ℕ) → IsWriting self.old h (D.view disk.old) text → IsWriting self.new h (D.view disk.new) text) }
        ensures wrote { IsTrue (D.view disk.old).tells → (h : PoolHeaderOf) (text : List ℕ) → IsWriting self.old h (D.view disk.old) text → Wrote self.old.file h (D.view disk.old) (D.view disk.new) }
        ensures failed { OnErr result (Rose (D.view disk.old).faults (D.view disk.new).faults) }
        ensures counts { OnOk result ((D.view disk.new).faults ≡ (D.view disk.old).faults) }
        ensures steady { Steady (D.view disk.old) (D.view disk.new) }
    {
        disk.write_at(self.file, self.at, &self.piece[..self.held])?;
        self.at += self.held as u64;
        self.held = 0;
        Ok(())
    }

    // Keeps as many of these bytes as the piece at hand has room for. Answers how many.
    fn keep(&mut self, bytes: &[u8]) -> usize
        ensures count { result ≡ min (length bytes.now) (4096 - self.old.held) }
        ensures same { (self.new.file ≡ self.old.file) × (self.new.at ≡ self.old.at) }
        ensures held { self.new.held ≡ self.old.held + result }
        ensures kept { take self.new.held self.new.piece ≡ take self.old.held self.old.piece ++ take result bytes.now }
    {
        let n = bytes.len().min(PIECE_BYTES - self.held);
        let end = self.held + n;
        self.piece[self.held..end].copy_from_slice(&bytes[..n]);
        self.held = end;
        n
    }
}

/// Makes what was written lasting, and opens the gate before it.
pub(crate) fn open_gate<D: Disk>(disk: &mut D, file: DiskFile) -> Result<(), Failed>
    requires written { IsTrue (D.view disk.old).tells → (h : PoolHeaderOf) × ((text : List ℕ) × IsWritten file h (D.view disk.old) text) }
    ensures answer { OnOk result (IsTrue (D.view disk.old).tells → (h : PoolHeaderOf) (text : List ℕ) → IsWritten file h (D.view disk.old) text → IsOut file h (D.view disk.new) text) }
    ensures any_moment { IsTrue (D.view disk.old).tells → (h : PoolHeaderOf) (text : List ℕ) → IsWritten file h (D.view disk.old) text
        → LeavesOnly (D.view disk.old) (D.view disk.new) (Among (D.view disk.old).may_leave (On file (λ _ bytes. IsShut h bytes ⊎ IsGated h text bytes))) }
    ensures others { IsTrue (D.view disk.old).tells → OnlyFile file (D.view disk.old) (D.view disk.new) }
    ensures failed { OnErr result (Rose (D.view disk.old).faults (D.view disk.new).faults) }
    ensures counts { OnOk result ((D.view disk.new).faults ≡ (D.view disk.old).faults) }
    ensures steady { Steady (D.view disk.old) (D.view disk.new) }
{
    disk.sync(file)?;
    disk.write_at(file, GATE, &[OPEN_GATE])?;
    disk.sync(file)?;
    Ok(())
}
