//! Opening the pool of a store.
ghost use Rattle.std.specs.Prelude.{◌≡◌, ◌≢◌, ◌≤◌, ◌+◌, ◌-◌, ◌==◌, nat_lt, not, if◌then◌else◌, length, IsTrue, IfOk, IfErr, OnOk, OnErr, ℕ, Option, Some, None, Ok, true, List};
ghost use Rattle.ckpt_base.specs.Faults.{Rose};
ghost use Rattle.disk_model.specs.Store.{Store, file_of};
ghost use Rattle.disk_model.specs.View.{SameFile, Steady};
ghost use Rattle.disk_model.specs.Keeps.{Untouched};
ghost use Rattle.disk_model.specs.Moments.{LeavesOnly};
ghost use Rattle.parity_store.specs.declared.header.PoolHeader.{PoolHeader as PoolHeaderOf};
ghost use Rattle.parity_store.specs.Layout.{IsPoolHeader, pool_length, length_in};
ghost use Rattle.parity_store.specs.Pools.{IsHeldFound, only_open, newer as newer_of, current_in, pool_in, pool_text_in, lengths_from, AnswersPool, IsPoolDamage, PoolRose};
ghost use Rattle.parity_store.specs.OnDisk.{IsOpened, IsFoundIn, found_of};

use crate::fault::PoolFault;
use crate::header::PoolHeader;
use crate::look::{entry_length, entry_place, header_of, read_entry};
use crate::pool::Pool;
use ckpt_base::Failed;
use disk_model::{Disk, DiskFile};

// The current file and its header: that of greater generation among those with an open gate.
fn newer(
    one: Option<PoolHeader>,
    two: Option<PoolHeader>,
) -> Result<Option<(DiskFile, PoolHeader)>, PoolFault>
    requires one { (h : PoolHeaderOf) → one ≡ Some h → IsPoolHeader h }
    requires two { (h : PoolHeaderOf) → two ≡ Some h → IsPoolHeader h }
    ensures answer { AnswersPool result (newer_of (only_open one) (only_open two)) }
    ensures held { IfOk result IsHeldFound }
    ensures damage { IfErr result (λ e. e ≢ PoolFault.Failed) }
{
    match (opened(one), opened(two)) {
        (None, None) => Ok(None),
        (Some(one), None) => Ok(Some((DiskFile::One, one))),
        (None, Some(two)) => Ok(Some((DiskFile::Two, two))),
        (Some(one), Some(two)) => newer_of_two(one, two),
    }
}

fn newer_of_two(
    one: PoolHeader,
    two: PoolHeader,
) -> Result<Option<(DiskFile, PoolHeader)>, PoolFault>
    requires one { IsPoolHeader one }
    requires two { IsPoolHeader two }
    ensures answer { AnswersPool result (newer_of (Some one) (Some two)) }
    ensures held { IfOk result IsHeldFound }
    ensures damage { IfErr result (λ e. e ≢ PoolFault.Failed) }
{
    if one.generation == two.generation {
        return Err(PoolFault::Damaged {
            file: DiskFile::Two,
            place: 4,
        });
    }
    if two.generation < one.generation {
        return Ok(Some((DiskFile::One, one)));
    }
    Ok(Some((DiskFile::Two, two)))
}

fn opened(header: Option<PoolHeader>) -> Option<PoolHeader>
    ensures { result ≡ only_open header }
{
    match header {
        Some(header) if header.gate_open => Some(header),
        _ => None,
    }
}

// The current file, as the headers of both tell it.
fn read_current<D: Disk>(disk: &mut D) -> Result<Option<(DiskFile, PoolHeader)>, PoolFault>
    ensures answer { IfOk result (λ found. IsTrue (D.view disk.old).tells → current_in (D.view disk.old).seen ≡ Ok found) }
    ensures err { IfErr result (λ e. IsTrue (D.view disk.old).tells → IsPoolDamage e (current_in (D.view disk.old).seen)) }
    ensures held { IfOk result IsHeldFound }
    ensures looked { Untouched (D.view disk.old) (D.view disk.new) }
    ensures failed { IfErr result (λ e. PoolRose e (D.view disk.old).faults (D.view disk.new).faults) }
    ensures counts { OnOk result ((D.view disk.new).faults ≡ (D.view disk.old).faults) }
    ensures steady { Steady (D.view disk.old) (D.view disk.new) }
{
    let one = header_of(disk, DiskFile::One)?;
    let two = header_of(disk, DiskFile::Two)?;
    let found = newer(one, two)?;
    Ok(found)
}

// Whether the kept length of a slot breaks its rule.
fn is_bad_length(h: &PoolHeader, i: u16, length: u32) -> bool
    ensures { result ≡ (if i == h.now.jobs then not (length == h.now.size) else nat_lt h.now.size length) }
{
    if i == h.jobs {
        length != h.size
    } else {
        length > h.size
    }
}

// Tests the kept lengths of the slots, the first one first.
fn check_lengths<D: Disk>(disk: &mut D, file: DiskFile, h: &PoolHeader) -> Result<(), PoolFault>
    requires held { IsPoolHeader h.now }
    requires whole { IsTrue (D.view disk.old).tells → length (file_of file (D.view disk.old).seen) ≡ pool_length h.now }
    ensures answer { OnOk result (IsTrue (D.view disk.old).tells → lengths_from h.now.jobs file h.now (file_of file (D.view disk.old).seen) 0 ≡ Ok tt) }
    ensures err { IfErr result (λ e. IsTrue (D.view disk.old).tells → IsPoolDamage e (lengths_from h.now.jobs file h.now (file_of file (D.view disk.old).seen) 0)) }
    ensures looked { Untouched (D.view disk.old) (D.view disk.new) }
    ensures failed { IfErr result (λ e. PoolRose e (D.view disk.old).faults (D.view disk.new).faults) }
    ensures counts { OnOk result ((D.view disk.new).faults ≡ (D.view disk.old).faults) }
    ensures steady { Steady (D.view disk.old) (D.view disk.new) }
{
    let mut i = 0;
    while i <= h.jobs {
        let entry = read_entry(disk, file, h, i)?;
        let length = entry_length(&entry);
        if is_bad_length(h, i, length) {
            let place = entry_place(i);
            return Err(PoolFault::Damaged { file, place });
        }
        i += 1;
    }
    Ok(())
}

// How many bytes a pool file has.
fn whole_length(h: &PoolHeader) -> u64
    requires held { IsPoolHeader h.now }
    ensures { result ≡ pool_length h.now }
{
    16 + (h.jobs as u64 + 1) * (36 + h.size as u64)
}

// Tests the length of the current file, and the lengths that it keeps.
fn check_text<D: Disk>(disk: &mut D, file: DiskFile, h: &PoolHeader) -> Result<(), PoolFault>
    requires held { IsPoolHeader h.now }
    ensures answer { OnOk result (IsTrue (D.view disk.old).tells → pool_text_in file h.now (file_of file (D.view disk.old).seen) ≡ Ok tt) }
    ensures err { IfErr result (λ e. IsTrue (D.view disk.old).tells → IsPoolDamage e (pool_text_in file h.now (file_of file (D.view disk.old).seen))) }
    ensures looked { Untouched (D.view disk.old) (D.view disk.new) }
    ensures failed { IfErr result (λ e. PoolRose e (D.view disk.old).faults (D.view disk.new).faults) }
    ensures counts { OnOk result ((D.view disk.new).faults ≡ (D.view disk.old).faults) }
    ensures steady { Steady (D.view disk.old) (D.view disk.new) }
{
    let length = disk.length(file)?;
    let whole = whole_length(h);
    if length != whole {
        let place = length.min(whole);
        return Err(PoolFault::Damaged { file, place });
    }
    check_lengths(disk, file, h)?;
    Ok(())
}

// The pool of a store whose image files are on the disk as they read.
fn read_store<D: Disk>(disk: &mut D) -> Result<Option<Pool>, PoolFault>
    ensures answer { IfOk result (λ found. IsTrue (D.view disk.old).tells → IsFoundIn found (D.view disk.old).seen) }
    ensures err { IfErr result (λ e. IsTrue (D.view disk.old).tells → IsPoolDamage e (pool_in (D.view disk.old).seen)) }
    ensures looked { Untouched (D.view disk.old) (D.view disk.new) }
    ensures failed { IfErr result (λ e. PoolRose e (D.view disk.old).faults (D.view disk.new).faults) }
    ensures counts { OnOk result ((D.view disk.new).faults ≡ (D.view disk.old).faults) }
    ensures steady { Steady (D.view disk.old) (D.view disk.new) }
{
    let (file, header) = match read_current(disk)? {
        Some(found) => found,
        None => return Ok(None),
    };
    check_text(disk, file, &header)?;
    Ok(Some(Pool { file, header }))
}

impl Pool {
    /// Opens the pool of a store: makes both image files lasting, and reads the headers and the entries of the current file.
    ///
    /// `None` comes where neither file is current and there is no damage. `Damaged` names the damage that comes first: of the headers,
    /// of two current files of one generation, of the current file's length, of the kept lengths. The contents of the disk stay.
    pub fn open<D: Disk>(disk: &mut D) -> Result<Option<Pool>, PoolFault>
        ensures answer { IfOk result (λ found. IsTrue (D.view disk.old).tells → (pool_in (D.view disk.old).seen ≡ Ok (found_of found)) × IsOpened found (D.view disk.new)) }
        ensures err { IfErr result (λ e. IsTrue (D.view disk.old).tells → IsPoolDamage e (pool_in (D.view disk.old).seen)) }
        ensures same { IsTrue (D.view disk.old).tells → (D.view disk.new).seen ≡ (D.view disk.old).seen }
        ensures any_moment { IsTrue (D.view disk.old).tells → LeavesOnly (D.view disk.old) (D.view disk.new) (D.view disk.old).may_leave }
        ensures output { IsTrue (D.view disk.old).tells → SameFile DiskFile.Output (D.view disk.old) (D.view disk.new) }
        ensures failed { IfErr result (λ e. PoolRose e (D.view disk.old).faults (D.view disk.new).faults) }
        ensures counts { OnOk result ((D.view disk.new).faults ≡ (D.view disk.old).faults) }
        ensures steady { Steady (D.view disk.old) (D.view disk.new) }
    {
        disk.sync(DiskFile::One)?;
        disk.sync(DiskFile::Two)?;
        let found = read_store(disk)?;
        Ok(found)
    }
}
