//! Writing the next generation of a pool.
ghost use Rattle.std.specs.Prelude.{◌≡◌, ◌≢◌, ◌≤◌, ◌<◌, ◌+◌, ◌*◌, ◌++◌, length, IsTrue, IfOk, OnOk, OnErr, ℕ, List, [], Option, Some, None};
ghost use Rattle.ckpt_base.specs.Faults.{Rose};
ghost use Rattle.disk_model.specs.Store.{Store, file_of};
ghost use Rattle.disk_model.specs.View.{Steady};
ghost use Rattle.disk_model.specs.Keeps.{Untouched};
ghost use Rattle.parity_store.specs.declared.header.PoolHeader.{PoolHeader as PoolHeaderOf};
ghost use Rattle.parity_store.specs.Layout.{IsPoolHeader, pool_length};
ghost use Rattle.parity_store.specs.Slots.{padded};
ghost use Rattle.parity_store.specs.Pools.{IsAside, other};
ghost use Rattle.parity_store.specs.OnDisk.{next_header};
ghost use Rattle.parity_store.specs.Writing.{IsWriting, IsWritten, IsOut, Wrote, OnlyFile, Puts, joined};
ghost use Rattle.parity_store.specs.Writing.{put_slot, put_entry, put_parity, put_text, entry_bytes};

use crate::header::PoolHeader;
use crate::look::{entry_of, read_entry};
use crate::piece::Pieces;
use crate::pieces::open_gate;
use crate::put::{Put, beside, fetch, sum_slots};
use crate::room::Slots;
use crate::xor::fill_slot;
use ckpt_base::Failed;
use disk_model::{Disk, DiskFile};

// The new entry of the job.
fn new_entry(h: &PoolHeader, put: &Put<'_>, slots: &mut Slots) -> [u8; 36]
    requires held { IsPoolHeader h.now }
    requires size { length slots.old.read.items ≡ h.now.size }
    requires fits { length put.now.bytes.now ≤ h.now.size }
    ensures size { length slots.new.read.items ≡ h.now.size }
    ensures kept { (slots.new.rebuilt ≡ slots.old.rebuilt) × (slots.new.parity ≡ slots.old.parity) }
    ensures answer { result ≡ entry_bytes (length put.now.bytes.now) (padded h.now.size put.now.bytes.now) }
{
    fill_slot(slots.read.as_mut_slice(), put.bytes);
    entry_of(put.bytes.len() as u32, &slots.read)
}

// Entry `i` of a job as it is put: the new one, or what stands in the file.
fn next_entry<D: Disk>(
    disk: &mut D,
    file: DiskFile,
    h: &PoolHeader,
    job: u16,
    entry: &[u8; 36],
    i: u16,
) -> Result<[u8; 36], Failed>
    requires place { i ≤ h.now.jobs }
    requires whole { IsTrue (D.view disk.old).tells → length (file_of file (D.view disk.old).seen) ≡ pool_length h.now }
    ensures answer { IfOk result (λ next. IsTrue (D.view disk.old).tells → next ≡ put_entry (file_of file (D.view disk.old).seen) job entry.now i) }
    ensures looked { Untouched (D.view disk.old) (D.view disk.new) }
    ensures failed { OnErr result (Rose (D.view disk.old).faults (D.view disk.new).faults) }
    ensures counts { OnOk result ((D.view disk.new).faults ≡ (D.view disk.old).faults) }
    ensures steady { Steady (D.view disk.old) (D.view disk.new) }
{
    if i == job {
        return Ok(*entry);
    }
    let next = read_entry(disk, file, h, i)?;
    Ok(next)
}

// Writes the entries: those of the jobs, and that of the parity slot.
fn write_entries<D: Disk>(
    disk: &mut D,
    file: DiskFile,
    h: &PoolHeader,
    put: &Put<'_>,
    slots: &mut Slots,
    pieces: &mut Pieces,
) -> Result<(), Failed>
    requires held { IsPoolHeader h.now }
    requires size { length slots.old.read.items ≡ h.now.size }
    requires fits { length put.now.bytes.now ≤ h.now.size }
    requires apart { file ≢ pieces.old.file }
    requires begun { pieces.old.at + pieces.old.held ≤ 16 }
    requires whole { IsTrue (D.view disk.old).tells → length (file_of file (D.view disk.old).seen) ≡ pool_length h.now }
    requires writing { IsTrue (D.view disk.old).tells → (n : PoolHeaderOf) × ((text : List ℕ) × IsWriting pieces.old n (D.view disk.old) text) }
    ensures file { pieces.new.file ≡ pieces.old.file }
    ensures place { OnOk result (pieces.new.at + pieces.new.held ≤ 700) }
    ensures size { length slots.new.read.items ≡ h.now.size }
    ensures kept { (slots.new.rebuilt ≡ slots.old.rebuilt) × (slots.new.parity ≡ slots.old.parity) }
    ensures answer { OnOk result (IsTrue (D.view disk.old).tells → (n : PoolHeaderOf) (text : List ℕ) → IsWriting pieces.old n (D.view disk.old) text
        → IsWriting pieces.new n (D.view disk.new) (text ++ joined (put_entry (file_of file (D.view disk.old).seen) put.now.job (entry_bytes (length put.now.bytes.now) (padded h.now.size put.now.bytes.now))) h.now.jobs ++ entry_bytes h.now.size slots.old.parity.items)) }
    ensures wrote { IsTrue (D.view disk.old).tells → (n : PoolHeaderOf) (text : List ℕ) → IsWriting pieces.old n (D.view disk.old) text → Wrote pieces.old.file n (D.view disk.old) (D.view disk.new) }
    ensures failed { OnErr result (Rose (D.view disk.old).faults (D.view disk.new).faults) }
    ensures counts { OnOk result ((D.view disk.new).faults ≡ (D.view disk.old).faults) }
    ensures steady { Steady (D.view disk.old) (D.view disk.new) }
{
    let entry = new_entry(h, put, slots);
    write_job_entries(disk, file, h, put.job, &entry, pieces)?;
    let last = entry_of(h.size, &slots.parity);
    pieces.push(disk, &last)?;
    Ok(())
}

// Writes the entries of the jobs.
fn write_job_entries<D: Disk>(
    disk: &mut D,
    file: DiskFile,
    h: &PoolHeader,
    job: u16,
    entry: &[u8; 36],
    pieces: &mut Pieces,
) -> Result<(), Failed>
    requires held { IsPoolHeader h.now }
    requires apart { file ≢ pieces.old.file }
    requires begun { pieces.old.at + pieces.old.held ≤ 16 }
    requires whole { IsTrue (D.view disk.old).tells → length (file_of file (D.view disk.old).seen) ≡ pool_length h.now }
    requires writing { IsTrue (D.view disk.old).tells → (n : PoolHeaderOf) × ((text : List ℕ) × IsWriting pieces.old n (D.view disk.old) text) }
    ensures file { pieces.new.file ≡ pieces.old.file }
    ensures place { OnOk result (pieces.new.at + pieces.new.held ≤ 600) }
    ensures answer { OnOk result (IsTrue (D.view disk.old).tells → (n : PoolHeaderOf) (text : List ℕ) → IsWriting pieces.old n (D.view disk.old) text
        → IsWriting pieces.new n (D.view disk.new) (text ++ joined (put_entry (file_of file (D.view disk.old).seen) job entry.now) h.now.jobs)) }
    ensures wrote { IsTrue (D.view disk.old).tells → (n : PoolHeaderOf) (text : List ℕ) → IsWriting pieces.old n (D.view disk.old) text → Wrote pieces.old.file n (D.view disk.old) (D.view disk.new) }
    ensures failed { OnErr result (Rose (D.view disk.old).faults (D.view disk.new).faults) }
    ensures counts { OnOk result ((D.view disk.new).faults ≡ (D.view disk.old).faults) }
    ensures steady { Steady (D.view disk.old) (D.view disk.new) }
{
    let mut i = 0;
    while i < h.jobs {
        let next = next_entry(disk, file, h, job, entry, i)?;
        pieces.push(disk, &next)?;
        i += 1;
    }
    Ok(())
}

// Writes the slots of the jobs.
fn write_job_slots<D: Disk>(
    disk: &mut D,
    file: DiskFile,
    h: &PoolHeader,
    put: &Put<'_>,
    slots: &mut Slots,
    pieces: &mut Pieces,
) -> Result<(), Failed>
    requires held { IsPoolHeader h.now }
    requires size { length slots.old.read.items ≡ h.now.size }
    requires fits { length put.now.bytes.now ≤ h.now.size }
    requires apart { file ≢ pieces.old.file }
    requires begun { pieces.old.at + pieces.old.held ≤ 700 }
    requires whole { IsTrue (D.view disk.old).tells → length (file_of file (D.view disk.old).seen) ≡ pool_length h.now }
    requires writing { IsTrue (D.view disk.old).tells → (n : PoolHeaderOf) × ((text : List ℕ) × IsWriting pieces.old n (D.view disk.old) text) }
    ensures file { pieces.new.file ≡ pieces.old.file }
    ensures place { OnOk result (pieces.new.at + pieces.new.held ≤ 700 + 16 * 16777216) }
    ensures size { length slots.new.read.items ≡ h.now.size }
    ensures kept { (slots.new.rebuilt ≡ slots.old.rebuilt) × (slots.new.parity ≡ slots.old.parity) }
    ensures answer { OnOk result (IsTrue (D.view disk.old).tells → (n : PoolHeaderOf) (text : List ℕ) → IsWriting pieces.old n (D.view disk.old) text
        → IsWriting pieces.new n (D.view disk.new) (text ++ joined (put_slot h.now (file_of file (D.view disk.old).seen) put.now.job put.now.bytes.now put.now.lost slots.old.rebuilt.items) h.now.jobs)) }
    ensures wrote { IsTrue (D.view disk.old).tells → (n : PoolHeaderOf) (text : List ℕ) → IsWriting pieces.old n (D.view disk.old) text → Wrote pieces.old.file n (D.view disk.old) (D.view disk.new) }
    ensures failed { OnErr result (Rose (D.view disk.old).faults (D.view disk.new).faults) }
    ensures counts { OnOk result ((D.view disk.new).faults ≡ (D.view disk.old).faults) }
    ensures steady { Steady (D.view disk.old) (D.view disk.new) }
{
    let mut i = 0;
    while i < h.jobs {
        fetch(disk, file, h, put, i, slots)?;
        pieces.push(disk, &slots.read)?;
        i += 1;
    }
    Ok(())
}

// Writes the entries and the slots, up to the last piece.
fn write_text<D: Disk>(
    disk: &mut D,
    file: DiskFile,
    h: &PoolHeader,
    put: &Put<'_>,
    slots: &mut Slots,
    pieces: &mut Pieces,
) -> Result<(), Failed>
    requires held { IsPoolHeader h.now }
    requires size { length slots.old.read.items ≡ h.now.size }
    requires fits { length put.now.bytes.now ≤ h.now.size }
    requires apart { file ≢ pieces.old.file }
    requires begun { pieces.old.at + pieces.old.held ≤ 16 }
    requires whole { IsTrue (D.view disk.old).tells → length (file_of file (D.view disk.old).seen) ≡ pool_length h.now }
    requires sum { IsTrue (D.view disk.old).tells → slots.old.parity.items ≡ put_parity h.now (file_of file (D.view disk.old).seen) put.now.job put.now.bytes.now put.now.lost slots.old.rebuilt.items }
    requires writing { IsTrue (D.view disk.old).tells → (n : PoolHeaderOf) × IsWriting pieces.old n (D.view disk.old) [] }
    ensures size { length slots.new.read.items ≡ h.now.size }
    ensures answer { OnOk result (IsTrue (D.view disk.old).tells → (n : PoolHeaderOf) → IsWriting pieces.old n (D.view disk.old) []
        → IsWritten pieces.old.file n (D.view disk.new) (put_text h.now (file_of file (D.view disk.old).seen) put.now.job put.now.bytes.now put.now.lost slots.old.rebuilt.items)) }
    ensures wrote { IsTrue (D.view disk.old).tells → (n : PoolHeaderOf) → IsWriting pieces.old n (D.view disk.old) [] → Wrote pieces.old.file n (D.view disk.old) (D.view disk.new) }
    ensures failed { OnErr result (Rose (D.view disk.old).faults (D.view disk.new).faults) }
    ensures counts { OnOk result ((D.view disk.new).faults ≡ (D.view disk.old).faults) }
    ensures steady { Steady (D.view disk.old) (D.view disk.new) }
{
    write_entries(disk, file, h, put, slots, pieces)?;
    write_job_slots(disk, file, h, put, slots, pieces)?;
    pieces.push(disk, &slots.parity)?;
    pieces.write_piece(disk)?;
    Ok(())
}

/// Writes the next generation of the pool to the other file, and opens its gate.
pub(crate) fn write_next<D: Disk>(
    disk: &mut D,
    file: DiskFile,
    h: &PoolHeader,
    put: &Put<'_>,
    slots: &mut Slots,
) -> Result<(), Failed>
    requires held { IsPoolHeader h.now }
    requires free { h.now.generation < 4294967295 }
    requires image { file ≢ DiskFile.Output }
    requires size { length slots.old.read.items ≡ h.now.size }
    requires fits { length put.now.bytes.now ≤ h.now.size }
    requires whole { IsTrue (D.view disk.old).tells → length (file_of file (D.view disk.old).seen) ≡ pool_length h.now }
    ensures size { length slots.new.read.items ≡ h.now.size }
    ensures answer { OnOk result (IsTrue (D.view disk.old).tells → IsOut (other file) (next_header h.now) (D.view disk.new) (put_text h.now (file_of file (D.view disk.old).seen) put.now.job put.now.bytes.now put.now.lost slots.old.rebuilt.items)) }
    ensures any_moment { IsTrue (D.view disk.old).tells → (g : ℕ) → ((c : Store) → (D.view disk.old).may_leave c → IsAside (other file) g (file_of (other file) c))
        → Puts (other file) (next_header h.now) g (put_text h.now (file_of file (D.view disk.old).seen) put.now.job put.now.bytes.now put.now.lost slots.old.rebuilt.items) (D.view disk.old) (D.view disk.new) }
    ensures others { IsTrue (D.view disk.old).tells → OnlyFile (other file) (D.view disk.old) (D.view disk.new) }
    ensures failed { OnErr result (Rose (D.view disk.old).faults (D.view disk.new).faults) }
    ensures counts { OnOk result ((D.view disk.new).faults ≡ (D.view disk.old).faults) }
    ensures steady { Steady (D.view disk.old) (D.view disk.new) }
{
    sum_slots(disk, file, h, put, slots)?;
    let to = beside(file);
    let mut pieces = Pieces::start(disk, to, h.generation + 1, h.size, h.jobs)?;
    write_text(disk, file, h, put, slots, &mut pieces)?;
    open_gate(disk, to)?;
    Ok(())
}
