//! Putting the bytes of a job.
ghost use Rattle.std.specs.Prelude.{◌≡◌, ◌≢◌, ◌≤◌, ◌<◌, ◌+◌, ◌*◌, ◌^◌, ◌++◌, length, vec_len, IsTrue, IfOk, IfErr, OnOk, OnErr, ℕ, List, [], Option, Some, None, slice_set};
ghost use Rattle.ckpt_base.specs.Faults.{Rose};
ghost use Rattle.disk_model.specs.Store.{Store, file_of};
ghost use Rattle.disk_model.specs.View.{SameFile, Steady};
ghost use Rattle.disk_model.specs.Keeps.{Untouched};
ghost use Rattle.disk_model.specs.Moments.{Among, LeavesOnly};
ghost use Rattle.parity_store.specs.Layout.{IsPoolHeader, pool_length};
ghost use Rattle.parity_store.specs.Slots.{AtMostOne, IsPool, IsPoolBut, exclusive_or};
ghost use Rattle.parity_store.specs.Pools.{other};
ghost use Rattle.parity_store.specs.OnDisk.{StandsOn, IsPutting, IsSlotFault, IsUsedUp, SlotRose, file_on, next_header};
ghost use Rattle.parity_store.specs.Writing.{put_slot, put_parity, IsRebuilt};

use crate::fault::SlotFault;
use crate::header::PoolHeader;
use crate::look::read_slot;
use crate::lost::{is_lost, one_lost};
use crate::pool::Pool;
use crate::rewrite::write_next;
use crate::room::{PoolRoom, Slots};
use crate::xor::{add_slot, clear_slot, fill_slot, rebuild};
use ckpt_base::Failed;
use disk_model::{Disk, DiskFile};

/// What is put: the bytes of a job, whose slot is counted from 0, beside the slot that is lost, as its number.
#[derive(Drop)]
pub struct Put<'a> {
    /// The job's slot.
    pub job: u16,
    /// Its new bytes.
    pub bytes: &'a [u8],
    /// The lost slot, if any.
    pub lost: Option<u16>,
}

// The image file beside this one.
pub(crate) fn beside(file: DiskFile) -> DiskFile
    ensures { result ≡ other file }
{
    match file {
        DiskFile::One => DiskFile::Two,
        DiskFile::Output | DiskFile::Two => DiskFile::One,
    }
}

// Rebuilds the lost slot, if there is one.
fn rebuild_lost<D: Disk>(
    disk: &mut D,
    file: DiskFile,
    h: &PoolHeader,
    lost: Option<u16>,
    slots: &mut Slots,
) -> Result<(), Failed>
    requires held { IsPoolHeader h.now }
    requires size { length slots.old.read.items ≡ h.now.size }
    requires number { (n : ℕ) → lost ≡ Some n → (1 ≤ n) × (n ≤ h.now.jobs + 1) }
    requires whole { IsTrue (D.view disk.old).tells → length (file_of file (D.view disk.old).seen) ≡ pool_length h.now }
    ensures size { length slots.new.read.items ≡ h.now.size }
    ensures answer { OnOk result (IsTrue (D.view disk.old).tells → IsRebuilt h.now (file_of file (D.view disk.old).seen) lost slots.new.rebuilt.items) }
    ensures looked { Untouched (D.view disk.old) (D.view disk.new) }
    ensures failed { OnErr result (Rose (D.view disk.old).faults (D.view disk.new).faults) }
    ensures counts { OnOk result ((D.view disk.new).faults ≡ (D.view disk.old).faults) }
    ensures steady { Steady (D.view disk.old) (D.view disk.new) }
{
    if let Some(number) = lost {
        rebuild(
            disk,
            file,
            h,
            number - 1,
            slots.rebuilt.as_mut_slice(),
            slots.read.as_mut_slice(),
        )?;
    }
    Ok(())
}

// Brings slot `i` of a job as it is put: the new bytes, the rebuilt slot, or what stands in the file.
pub(crate) fn fetch<D: Disk>(
    disk: &mut D,
    file: DiskFile,
    h: &PoolHeader,
    put: &Put<'_>,
    i: u16,
    slots: &mut Slots,
) -> Result<(), Failed>
    requires held { IsPoolHeader h.now }
    requires size { length slots.old.read.items ≡ h.now.size }
    requires fits { length put.now.bytes.now ≤ h.now.size }
    requires place { i ≤ h.now.jobs }
    requires whole { IsTrue (D.view disk.old).tells → length (file_of file (D.view disk.old).seen) ≡ pool_length h.now }
    ensures size { length slots.new.read.items ≡ h.now.size }
    ensures kept { (slots.new.rebuilt ≡ slots.old.rebuilt) × (slots.new.parity ≡ slots.old.parity) }
    ensures answer { OnOk result (IsTrue (D.view disk.old).tells → slots.new.read.items ≡ put_slot h.now (file_of file (D.view disk.old).seen) put.now.job put.now.bytes.now put.now.lost slots.old.rebuilt.items i) }
    ensures looked { Untouched (D.view disk.old) (D.view disk.new) }
    ensures failed { OnErr result (Rose (D.view disk.old).faults (D.view disk.new).faults) }
    ensures counts { OnOk result ((D.view disk.new).faults ≡ (D.view disk.old).faults) }
    ensures steady { Steady (D.view disk.old) (D.view disk.new) }
{
    if i == put.job {
        fill_slot(slots.read.as_mut_slice(), put.bytes);
        return Ok(());
    }
    if is_lost(put.lost, i) {
        slots.read.copy_from_slice(&slots.rebuilt);
        return Ok(());
    }
    read_slot(disk, file, h, i, slots.read.as_mut_slice())?;
    Ok(())
}

// Takes the exclusive-or of the parity with slot `i` of a job as it is put.
fn add_fetched<D: Disk>(
    disk: &mut D,
    file: DiskFile,
    h: &PoolHeader,
    put: &Put<'_>,
    i: u16,
    slots: &mut Slots,
) -> Result<(), Failed>
    requires held { IsPoolHeader h.now }
    requires size { length slots.old.read.items ≡ h.now.size }
    requires fits { length put.now.bytes.now ≤ h.now.size }
    requires place { i ≤ h.now.jobs }
    requires whole { IsTrue (D.view disk.old).tells → length (file_of file (D.view disk.old).seen) ≡ pool_length h.now }
    ensures size { length slots.new.read.items ≡ h.now.size }
    ensures kept { slots.new.rebuilt ≡ slots.old.rebuilt }
    ensures answer { OnOk result (IsTrue (D.view disk.old).tells → slots.new.parity.items ≡ exclusive_or slots.old.parity.items (put_slot h.now (file_of file (D.view disk.old).seen) put.now.job put.now.bytes.now put.now.lost slots.old.rebuilt.items i)) }
    ensures looked { Untouched (D.view disk.old) (D.view disk.new) }
    ensures failed { OnErr result (Rose (D.view disk.old).faults (D.view disk.new).faults) }
    ensures counts { OnOk result ((D.view disk.new).faults ≡ (D.view disk.old).faults) }
    ensures steady { Steady (D.view disk.old) (D.view disk.new) }
{
    fetch(disk, file, h, put, i, slots)?;
    add_slot(slots.parity.as_mut_slice(), &slots.read);
    Ok(())
}

// Takes the exclusive-or of all slots of the jobs as they are put.
pub(crate) fn sum_slots<D: Disk>(
    disk: &mut D,
    file: DiskFile,
    h: &PoolHeader,
    put: &Put<'_>,
    slots: &mut Slots,
) -> Result<(), Failed>
    requires held { IsPoolHeader h.now }
    requires size { length slots.old.read.items ≡ h.now.size }
    requires fits { length put.now.bytes.now ≤ h.now.size }
    requires whole { IsTrue (D.view disk.old).tells → length (file_of file (D.view disk.old).seen) ≡ pool_length h.now }
    ensures size { length slots.new.read.items ≡ h.now.size }
    ensures kept { slots.new.rebuilt ≡ slots.old.rebuilt }
    ensures answer { OnOk result (IsTrue (D.view disk.old).tells → slots.new.parity.items ≡ put_parity h.now (file_of file (D.view disk.old).seen) put.now.job put.now.bytes.now put.now.lost slots.old.rebuilt.items) }
    ensures looked { Untouched (D.view disk.old) (D.view disk.new) }
    ensures failed { OnErr result (Rose (D.view disk.old).faults (D.view disk.new).faults) }
    ensures counts { OnOk result ((D.view disk.new).faults ≡ (D.view disk.old).faults) }
    ensures steady { Steady (D.view disk.old) (D.view disk.new) }
{
    clear_slot(slots.parity.as_mut_slice());
    let mut i = 0;
    while i < h.jobs {
        add_fetched(disk, file, h, put, i, slots)?;
        i += 1;
    }
    Ok(())
}

impl Pool {
    /// Puts the new bytes of a job: writes all slots to the other image file with the next generation, a lost one rebuilt, and opens its
    /// gate last.
    ///
    /// The job is 1 to the jobs, the bytes are at most the size, and the room is for the size. At each moment a crash leaves the file of
    /// before as current, unchanged, or the new one, whole; after `Ok` the new one. `Lost` names the two least of two or more lost slots,
    /// and `UsedUp` comes where there is no free generation. After `Failed` the pool is opened again.
    pub fn put<D: Disk>(
        &mut self,
        disk: &mut D,
        job: u16,
        bytes: &[u8],
        room: &mut PoolRoom,
    ) -> Result<(), SlotFault>
        requires least { 1 ≤ job }
        requires most { job ≤ self.old.header.jobs }
        requires fits { length bytes.now ≤ self.old.header.size }
        requires room { length room.old ≡ self.old.header.size }
        requires stands { IsTrue (D.view disk.old).tells → StandsOn self.old (D.view disk.old) }
        ensures room { length room.new ≡ self.old.header.size }
        ensures next { OnOk result ((self.new.file ≡ other self.old.file) × (self.new.header ≡ next_header self.old.header)) }
        ensures lost { OnOk result (IsTrue (D.view disk.old).tells → (lost : Option ℕ) × AtMostOne self.old.header (file_on self.old (D.view disk.old)) lost) }
        ensures answer { OnOk result (IsTrue (D.view disk.old).tells → (list : List (List ℕ)) (k : Option ℕ) → IsPoolBut k self.old.header list (file_on self.old (D.view disk.old))
            → (i : ℕ) → job ≡ i + 1 → StandsOn self.new (D.view disk.new) × IsPool self.new.header (slice_set list i bytes.now) (file_on self.new (D.view disk.new))) }
        ensures any_moment { IsTrue (D.view disk.old).tells → (list : List (List ℕ)) (k : Option ℕ) → IsPoolBut k self.old.header list (file_on self.old (D.view disk.old))
            → (i : ℕ) → job ≡ i + 1 → LeavesOnly (D.view disk.old) (D.view disk.new) (Among (D.view disk.old).may_leave (IsPutting self.old (slice_set list i bytes.now))) }
        ensures entry { IsTrue (D.view disk.old).tells → SameFile self.old.file (D.view disk.old) (D.view disk.new) }
        ensures output { IsTrue (D.view disk.old).tells → SameFile DiskFile.Output (D.view disk.old) (D.view disk.new) }
        ensures err { IfErr result (λ e. IsTrue (D.view disk.old).tells → IsSlotFault e self.old.header (file_on self.old (D.view disk.old))) }
        ensures used_up { IfErr result (λ e. IsUsedUp e self.old.header) }
        ensures free { OnOk result (self.old.header.generation < 4294967295) }
        ensures failed { IfErr result (λ e. SlotRose e (D.view disk.old).faults (D.view disk.new).faults) }
        ensures counts { OnOk result ((D.view disk.new).faults ≡ (D.view disk.old).faults) }
        ensures steady { Steady (D.view disk.old) (D.view disk.new) }
    {
        let slots = &mut room.slots;
        let lost = one_lost(disk, self.file, &self.header, slots.read.as_mut_slice())?;
        if self.header.generation == u32::MAX {
            return Err(SlotFault::UsedUp);
        }
        rebuild_lost(disk, self.file, &self.header, lost, slots)?;
        let put = Put {
            job: job - 1,
            bytes,
            lost,
        };
        write_next(disk, self.file, &self.header, &put, slots)?;
        self.file = beside(self.file);
        self.header = PoolHeader {
            generation: self.header.generation + 1,
            size: self.header.size,
            jobs: self.header.jobs,
            gate_open: true,
        };
        Ok(())
    }
}
