//! Making a pool.
ghost use Rattle.std.specs.Prelude.{◌≡◌, ◌≤◌, ◌<◌, ◌+◌, ◌*◌, ◌^◌, ◌++◌, length, replicate, IsTrue, IfOk, OnOk, OnErr, ℕ, List, [], None, Ok};
ghost use Rattle.sha2.specs.Sha256.{sha256};
ghost use Rattle.ckpt_base.specs.Faults.{Rose};
ghost use Rattle.disk_model.specs.Store.{Store};
ghost use Rattle.disk_model.specs.View.{SameFile, Steady};
ghost use Rattle.disk_model.specs.Moments.{Among, LeavesOnly};
ghost use Rattle.parity_store.specs.declared.header.PoolHeader.{PoolHeader as PoolHeaderOf};
ghost use Rattle.parity_store.specs.Layout.{InPoolRange};
ghost use Rattle.parity_store.specs.Slots.{IsPool};
ghost use Rattle.parity_store.specs.Pools.{pool_in};
ghost use Rattle.parity_store.specs.OnDisk.{StandsOn, IsMaking, file_on, first_header};
ghost use Rattle.parity_store.specs.Writing.{IsWriting, IsWritten, Wrote, joined, entry_bytes, empty_text};

use crate::header::PoolHeader;
use crate::look::entry_with;
use crate::piece::{PIECE_BYTES, Pieces};
use crate::pieces::open_gate;
use crate::pool::Pool;
use ckpt_base::Failed;
use disk_model::{Disk, DiskFile};
use sha2::{Digest, Sha256};

// The digest of a slot of zeros.
fn zero_digest(size: u32) -> [u8; 32]
    ensures answer { result ≡ sha256 (replicate size 0) }
{
    let zeros = [0; PIECE_BYTES];
    let mut hasher = Sha256::new();
    let mut done = 0;
    while done < size as usize {
        let n = PIECE_BYTES.min(size as usize - done);
        hasher.update(&zeros[..n]);
        done += n;
    }
    hasher.finalize()
}

// Gives a slot of zeros to the pieces.
fn push_zeros<D: Disk>(disk: &mut D, size: u32, pieces: &mut Pieces) -> Result<(), Failed>
    requires short { pieces.old.at + pieces.old.held + size < 2 ^ 40 }
    requires writing { IsTrue (D.view disk.old).tells → (h : PoolHeaderOf) × ((text : List ℕ) × IsWriting pieces.old h (D.view disk.old) text) }
    ensures file { pieces.new.file ≡ pieces.old.file }
    ensures place { OnOk result (pieces.new.at + pieces.new.held ≡ pieces.old.at + pieces.old.held + size) }
    ensures answer { OnOk result (IsTrue (D.view disk.old).tells → (h : PoolHeaderOf) (text : List ℕ) → IsWriting pieces.old h (D.view disk.old) text → IsWriting pieces.new h (D.view disk.new) (text ++ replicate size 0)) }
    ensures wrote { IsTrue (D.view disk.old).tells → (h : PoolHeaderOf) (text : List ℕ) → IsWriting pieces.old h (D.view disk.old) text → Wrote pieces.old.file h (D.view disk.old) (D.view disk.new) }
    ensures failed { OnErr result (Rose (D.view disk.old).faults (D.view disk.new).faults) }
    ensures counts { OnOk result ((D.view disk.new).faults ≡ (D.view disk.old).faults) }
    ensures steady { Steady (D.view disk.old) (D.view disk.new) }
{
    let zeros = [0; PIECE_BYTES];
    let mut done = 0;
    while done < size as usize {
        let n = PIECE_BYTES.min(size as usize - done);
        pieces.push(disk, &zeros[..n])?;
        done += n;
    }
    Ok(())
}

// Writes the entries of a pool without bytes.
fn write_empty_entries<D: Disk>(
    disk: &mut D,
    jobs: u16,
    size: u32,
    pieces: &mut Pieces,
) -> Result<(), Failed>
    requires ranges { InPoolRange size jobs }
    requires begun { pieces.old.at + pieces.old.held ≤ 16 }
    requires writing { IsTrue (D.view disk.old).tells → (h : PoolHeaderOf) × ((text : List ℕ) × IsWriting pieces.old h (D.view disk.old) text) }
    ensures file { pieces.new.file ≡ pieces.old.file }
    ensures place { OnOk result (pieces.new.at + pieces.new.held ≤ 700) }
    ensures answer { OnOk result (IsTrue (D.view disk.old).tells → (h : PoolHeaderOf) (text : List ℕ) → IsWriting pieces.old h (D.view disk.old) text
        → IsWriting pieces.new h (D.view disk.new) (text ++ joined (λ _. entry_bytes 0 (replicate size 0)) jobs ++ entry_bytes size (replicate size 0))) }
    ensures wrote { IsTrue (D.view disk.old).tells → (h : PoolHeaderOf) (text : List ℕ) → IsWriting pieces.old h (D.view disk.old) text → Wrote pieces.old.file h (D.view disk.old) (D.view disk.new) }
    ensures failed { OnErr result (Rose (D.view disk.old).faults (D.view disk.new).faults) }
    ensures counts { OnOk result ((D.view disk.new).faults ≡ (D.view disk.old).faults) }
    ensures steady { Steady (D.view disk.old) (D.view disk.new) }
{
    let digest = zero_digest(size);
    let entry = entry_with(0, &digest);
    let mut i = 0;
    while i < jobs {
        pieces.push(disk, &entry)?;
        i += 1;
    }
    let last = entry_with(size, &digest);
    pieces.push(disk, &last)?;
    Ok(())
}

// Writes the slots of a pool without bytes.
fn write_empty_slots<D: Disk>(
    disk: &mut D,
    jobs: u16,
    size: u32,
    pieces: &mut Pieces,
) -> Result<(), Failed>
    requires ranges { InPoolRange size jobs }
    requires begun { pieces.old.at + pieces.old.held ≤ 700 }
    requires writing { IsTrue (D.view disk.old).tells → (h : PoolHeaderOf) × ((text : List ℕ) × IsWriting pieces.old h (D.view disk.old) text) }
    ensures file { pieces.new.file ≡ pieces.old.file }
    ensures place { OnOk result (pieces.new.at + pieces.new.held < 2 ^ 40) }
    ensures answer { OnOk result (IsTrue (D.view disk.old).tells → (h : PoolHeaderOf) (text : List ℕ) → IsWriting pieces.old h (D.view disk.old) text
        → IsWriting pieces.new h (D.view disk.new) (text ++ joined (λ _. replicate size 0) (jobs + 1))) }
    ensures wrote { IsTrue (D.view disk.old).tells → (h : PoolHeaderOf) (text : List ℕ) → IsWriting pieces.old h (D.view disk.old) text → Wrote pieces.old.file h (D.view disk.old) (D.view disk.new) }
    ensures failed { OnErr result (Rose (D.view disk.old).faults (D.view disk.new).faults) }
    ensures counts { OnOk result ((D.view disk.new).faults ≡ (D.view disk.old).faults) }
    ensures steady { Steady (D.view disk.old) (D.view disk.new) }
{
    let mut i = 0;
    while i <= jobs {
        push_zeros(disk, size, pieces)?;
        i += 1;
    }
    Ok(())
}

// Writes the entries and the slots of a pool without bytes, up to the last piece.
fn write_empty<D: Disk>(
    disk: &mut D,
    jobs: u16,
    size: u32,
    pieces: &mut Pieces,
) -> Result<(), Failed>
    requires ranges { InPoolRange size jobs }
    requires begun { pieces.old.at + pieces.old.held ≤ 16 }
    requires writing { IsTrue (D.view disk.old).tells → (h : PoolHeaderOf) × IsWriting pieces.old h (D.view disk.old) [] }
    ensures file { pieces.new.file ≡ pieces.old.file }
    ensures answer { OnOk result (IsTrue (D.view disk.old).tells → (h : PoolHeaderOf) → IsWriting pieces.old h (D.view disk.old) [] → IsWritten pieces.old.file h (D.view disk.new) (empty_text jobs size)) }
    ensures wrote { IsTrue (D.view disk.old).tells → (h : PoolHeaderOf) → IsWriting pieces.old h (D.view disk.old) [] → Wrote pieces.old.file h (D.view disk.old) (D.view disk.new) }
    ensures failed { OnErr result (Rose (D.view disk.old).faults (D.view disk.new).faults) }
    ensures counts { OnOk result ((D.view disk.new).faults ≡ (D.view disk.old).faults) }
    ensures steady { Steady (D.view disk.old) (D.view disk.new) }
{
    write_empty_entries(disk, jobs, size, pieces)?;
    write_empty_slots(disk, jobs, size, pieces)?;
    pieces.write_piece(disk)?;
    Ok(())
}

impl Pool {
    /// Makes a pool in which no job has bytes: starts file One with generation 1, writes the entries and the slots, and opens the gate last.
    ///
    /// There are 2 to 16 jobs, the size is 1 to 16,777,216, and no file is current. At each moment a crash leaves no current file, or the
    /// whole pool; after `Ok` the pool. `Failed` comes only where a call on the disk failed, and then the store is opened again.
    pub fn make<D: Disk>(disk: &mut D, jobs: u16, size: u32) -> Result<Pool, Failed>
        requires ranges { InPoolRange size jobs }
        requires none { IsTrue (D.view disk.old).tells → (c : Store) → (D.view disk.old).may_leave c → pool_in c ≡ Ok None }
        ensures made { IfOk result (λ pool. (pool.file ≡ DiskFile.One) × (pool.header ≡ first_header jobs size)) }
        ensures answer { IfOk result (λ pool. IsTrue (D.view disk.old).tells → StandsOn pool (D.view disk.new) × IsPool pool.header (replicate jobs []) (file_on pool (D.view disk.new))) }
        ensures any_moment { IsTrue (D.view disk.old).tells → LeavesOnly (D.view disk.old) (D.view disk.new) (Among (D.view disk.old).may_leave (IsMaking (first_header jobs size) (replicate jobs []))) }
        ensures aside { IsTrue (D.view disk.old).tells → SameFile DiskFile.Two (D.view disk.old) (D.view disk.new) }
        ensures output { IsTrue (D.view disk.old).tells → SameFile DiskFile.Output (D.view disk.old) (D.view disk.new) }
        ensures failed { OnErr result (Rose (D.view disk.old).faults (D.view disk.new).faults) }
        ensures counts { OnOk result ((D.view disk.new).faults ≡ (D.view disk.old).faults) }
        ensures steady { Steady (D.view disk.old) (D.view disk.new) }
    {
        let mut pieces = Pieces::start(disk, DiskFile::One, 1, size, jobs)?;
        write_empty(disk, jobs, size, &mut pieces)?;
        open_gate(disk, DiskFile::One)?;
        Ok(Pool {
            file: DiskFile::One,
            header: PoolHeader {
                generation: 1,
                size,
                jobs,
                gate_open: true,
            },
        })
    }
}
