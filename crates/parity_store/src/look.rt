//! Looking at the files of a store.
ghost use Rattle.std.specs.Prelude.{◌≡◌, ◌↔◌, ◌≤◌, ◌++◌, ℕ, List, length, take, drop, IsTrue, IfOk, IfErr, OnErr, OnOk, Some};
ghost use Rattle.ckpt_base.specs.Faults.{Rose};
ghost use Rattle.disk_model.specs.Store.{file_of};
ghost use Rattle.disk_model.specs.View.{Steady};
ghost use Rattle.disk_model.specs.Keeps.{Untouched};
ghost use Rattle.sha2.specs.Sha256.{sha256};
ghost use Rattle.std.specs.Int.{w32, to_be_bytes};
ghost use Rattle.parity_store.specs.Layout.{IsPoolHeader, pool_length, entry_at as entry_place_of, slot_at as slot_place_of, entry_in, length_in, slot_in};
ghost use Rattle.parity_store.specs.Pools.{pool_header_in, AnswersPool, PoolRose};
ghost use Rattle.parity_store.specs.Slots.{Matches};
ghost use Rattle.parity_store.specs.declared.header.PoolHeader.{PoolHeader as PoolHeaderOf};

use crate::fault::PoolFault;
use crate::header::{PoolHeader, read_header};
use ckpt_base::Failed;
use disk_model::{Disk, DiskFile};
use sha2::{Digest, Sha256};

// The header of a file, or none where the file is empty.
pub(crate) fn header_of<D: Disk>(
    disk: &mut D,
    file: DiskFile,
) -> Result<Option<PoolHeader>, PoolFault>
    ensures answer { IsTrue (D.view disk.old).tells → AnswersPool result (pool_header_in file (file_of file (D.view disk.old).seen)) }
    ensures held { IfOk result (λ found. (h : PoolHeaderOf) → found ≡ Some h → IsPoolHeader h) }
    ensures looked { Untouched (D.view disk.old) (D.view disk.new) }
    ensures failed { IfErr result (λ e. PoolRose e (D.view disk.old).faults (D.view disk.new).faults) }
    ensures counts { OnOk result ((D.view disk.new).faults ≡ (D.view disk.old).faults) }
    ensures steady { Steady (D.view disk.old) (D.view disk.new) }
{
    let length = disk.length(file)?;
    if length == 0 {
        return Ok(None);
    }
    if length < 16 {
        return Err(PoolFault::Damaged { file, place: 0 });
    }
    let mut bytes = [0; 16];
    disk.read_at(file, 0, bytes.as_mut_slice())?;
    match read_header(&bytes) {
        Ok(header) => Ok(Some(header)),
        Err(bad) => Err(PoolFault::Damaged {
            file,
            place: bad.place as u64,
        }),
    }
}

// Where the entry of a slot stands.
pub(crate) fn entry_place(i: u16) -> u64
    ensures { result ≡ entry_place_of i }
{
    16 + 36 * i as u64
}

// Where a slot stands.
pub(crate) fn slot_place(h: &PoolHeader, i: u16) -> u64
    ensures { result ≡ slot_place_of h.now i }
{
    16 + 36 * (h.jobs as u64 + 1) + h.size as u64 * i as u64
}

// Reads the entry of a slot.
pub(crate) fn read_entry<D: Disk>(
    disk: &mut D,
    file: DiskFile,
    h: &PoolHeader,
    i: u16,
) -> Result<[u8; 36], Failed>
    requires place { i ≤ h.now.jobs }
    requires whole { IsTrue (D.view disk.old).tells → length (file_of file (D.view disk.old).seen) ≡ pool_length h.now }
    ensures answer { IfOk result (λ entry. IsTrue (D.view disk.old).tells → entry ≡ entry_in (file_of file (D.view disk.old).seen) i) }
    ensures looked { Untouched (D.view disk.old) (D.view disk.new) }
    ensures failed { OnErr result (Rose (D.view disk.old).faults (D.view disk.new).faults) }
    ensures counts { OnOk result ((D.view disk.new).faults ≡ (D.view disk.old).faults) }
    ensures steady { Steady (D.view disk.old) (D.view disk.new) }
{
    let mut entry = [0; 36];
    disk.read_at(file, entry_place(i), entry.as_mut_slice())?;
    Ok(entry)
}

// The length that an entry keeps.
pub(crate) fn entry_length(entry: &[u8; 36]) -> u32
    ensures { (file : List ℕ) (i : ℕ) → entry.now ≡ entry_in file i → result ≡ length_in file i }
{
    u32::from_be_bytes([entry[0], entry[1], entry[2], entry[3]])
}

// The entry with a length and a digest.
pub(crate) fn entry_with(length: u32, digest: &[u8; 32]) -> [u8; 36]
    ensures answer { result ≡ to_be_bytes w32 length ++ digest.now }
{
    let mut entry = [0; 36];
    entry[..4].copy_from_slice(&length.to_be_bytes());
    entry[4..].copy_from_slice(digest);
    entry
}

// The entry of a slot in which this many bytes are those of its job.
pub(crate) fn entry_of(length: u32, slot: &[u8]) -> [u8; 36]
    ensures answer { result ≡ to_be_bytes w32 length ++ sha256 slot.now }
{
    let digest = Sha256::digest(slot);
    entry_with(length, &digest)
}

// Reads a slot.
pub(crate) fn read_slot<D: Disk>(
    disk: &mut D,
    file: DiskFile,
    h: &PoolHeader,
    i: u16,
    slot: &mut [u8],
) -> Result<(), Failed>
    requires size { length slot.old ≡ h.now.size }
    requires place { i ≤ h.now.jobs }
    requires whole { IsTrue (D.view disk.old).tells → length (file_of file (D.view disk.old).seen) ≡ pool_length h.now }
    ensures size { length slot.new ≡ h.now.size }
    ensures answer { OnOk result (IsTrue (D.view disk.old).tells → slot.new ≡ slot_in h.now (file_of file (D.view disk.old).seen) i) }
    ensures looked { Untouched (D.view disk.old) (D.view disk.new) }
    ensures failed { OnErr result (Rose (D.view disk.old).faults (D.view disk.new).faults) }
    ensures counts { OnOk result ((D.view disk.new).faults ≡ (D.view disk.old).faults) }
    ensures steady { Steady (D.view disk.old) (D.view disk.new) }
{
    disk.read_at(file, slot_place(h, i), slot)?;
    Ok(())
}

// Whether a slot has the digest that is kept of it.
pub(crate) fn matches<D: Disk>(
    disk: &mut D,
    file: DiskFile,
    h: &PoolHeader,
    i: u16,
    slot: &mut [u8],
) -> Result<bool, Failed>
    requires size { length slot.old ≡ h.now.size }
    requires place { i ≤ h.now.jobs }
    requires whole { IsTrue (D.view disk.old).tells → length (file_of file (D.view disk.old).seen) ≡ pool_length h.now }
    ensures size { length slot.new ≡ h.now.size }
    ensures answer { IfOk result (λ yes. IsTrue (D.view disk.old).tells → IsTrue yes ↔ Matches h.now (file_of file (D.view disk.old).seen) i) }
    ensures looked { Untouched (D.view disk.old) (D.view disk.new) }
    ensures failed { OnErr result (Rose (D.view disk.old).faults (D.view disk.new).faults) }
    ensures counts { OnOk result ((D.view disk.new).faults ≡ (D.view disk.old).faults) }
    ensures steady { Steady (D.view disk.old) (D.view disk.new) }
{
    read_slot(disk, file, h, i, slot)?;
    let entry = read_entry(disk, file, h, i)?;
    let same = has_digest(slot, &entry);
    Ok(same)
}

// Whether the digest of a slot is the one that an entry keeps.
fn has_digest(slot: &[u8], entry: &[u8; 36]) -> bool
    ensures answer { IsTrue result ↔ (sha256 slot.now ≡ take 32 (drop 4 entry.now)) }
{
    let digest = Sha256::digest(slot);
    digest.as_slice() == &entry[4..36]
}
