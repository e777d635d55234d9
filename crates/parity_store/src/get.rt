//! Getting the bytes of a job.
ghost use Rattle.std.specs.Prelude.{◌≡◌, ◌≢◌, ◌≤◌, ◌<◌, ◌+◌, length, take, get_or, IsTrue, IfOk, IfErr, OnOk, OnErr, ℕ, List, [], Option, Some, None};
ghost use Rattle.ckpt_base.specs.Faults.{Rose};
ghost use Rattle.disk_model.specs.Store.{file_of};
ghost use Rattle.disk_model.specs.View.{Steady};
ghost use Rattle.disk_model.specs.Keeps.{Untouched};
ghost use Rattle.parity_store.specs.Layout.{IsPoolHeader, pool_length};
ghost use Rattle.parity_store.specs.Slots.{AtMostOne, IsPoolBut, slot_of};
ghost use Rattle.parity_store.specs.OnDisk.{StandsOn, IsSlotFault, SlotRose, file_on};

use crate::fault::SlotFault;
use crate::header::PoolHeader;
use crate::look::{entry_length, read_entry, read_slot};
use crate::lost::{is_lost, one_lost};
use crate::pool::Pool;
use crate::room::{PoolRoom, Slots};
use crate::xor::rebuild;
use ckpt_base::Failed;
use disk_model::{Disk, DiskFile};

// Brings slot `i` to the front of the room: as it stands, or rebuilt where it is the lost one.
fn bring<D: Disk>(
    disk: &mut D,
    file: DiskFile,
    h: &PoolHeader,
    i: u16,
    lost: Option<u16>,
    slots: &mut Slots,
) -> Result<(), Failed>
    requires held { IsPoolHeader h.now }
    requires size { length slots.old.read.items ≡ h.now.size }
    requires place { i ≤ h.now.jobs }
    requires whole { IsTrue (D.view disk.old).tells → length (file_of file (D.view disk.old).seen) ≡ pool_length h.now }
    ensures size { length slots.new.read.items ≡ h.now.size }
    ensures answer { OnOk result (IsTrue (D.view disk.old).tells → AtMostOne h.now (file_of file (D.view disk.old).seen) lost → (list : List (List ℕ)) (k : Option ℕ) → IsPoolBut k h.now list (file_of file (D.view disk.old).seen)
        → slots.new.read.items ≡ slot_of h.now.size list i) }
    ensures looked { Untouched (D.view disk.old) (D.view disk.new) }
    ensures failed { OnErr result (Rose (D.view disk.old).faults (D.view disk.new).faults) }
    ensures counts { OnOk result ((D.view disk.new).faults ≡ (D.view disk.old).faults) }
    ensures steady { Steady (D.view disk.old) (D.view disk.new) }
{
    if is_lost(lost, i) {
        rebuild(
            disk,
            file,
            h,
            i,
            slots.read.as_mut_slice(),
            slots.rebuilt.as_mut_slice(),
        )?;
        return Ok(());
    }
    read_slot(disk, file, h, i, slots.read.as_mut_slice())?;
    Ok(())
}

// The length of the bytes in a slot, which is at most the size.
fn kept_length<D: Disk>(
    disk: &mut D,
    file: DiskFile,
    h: &PoolHeader,
    i: u16,
) -> Result<usize, Failed>
    requires place { i ≤ h.now.jobs }
    requires whole { IsTrue (D.view disk.old).tells → length (file_of file (D.view disk.old).seen) ≡ pool_length h.now }
    ensures bound { IfOk result (λ n. n ≤ h.now.size) }
    ensures answer { IfOk result (λ n. IsTrue (D.view disk.old).tells → (list : List (List ℕ)) (k : Option ℕ) → IsPoolBut k h.now list (file_of file (D.view disk.old).seen)
        → i < h.now.jobs → n ≡ length (get_or list i [])) }
    ensures looked { Untouched (D.view disk.old) (D.view disk.new) }
    ensures failed { OnErr result (Rose (D.view disk.old).faults (D.view disk.new).faults) }
    ensures counts { OnOk result ((D.view disk.new).faults ≡ (D.view disk.old).faults) }
    ensures steady { Steady (D.view disk.old) (D.view disk.new) }
{
    let entry = read_entry(disk, file, h, i)?;
    let length = entry_length(&entry);
    Ok(length.min(h.size) as usize)
}

impl Pool {
    /// Gets the bytes of a job, which are the front of the room's, and answers how many. A slot that is lost is rebuilt.
    ///
    /// The job is 1 to the jobs, and the room is for the size. `Lost` names the two least of two or more lost slots.
    pub fn get<D: Disk>(
        &self,
        disk: &mut D,
        job: u16,
        room: &mut PoolRoom,
    ) -> Result<usize, SlotFault>
        requires least { 1 ≤ job }
        requires most { job ≤ self.now.header.jobs }
        requires room { length room.old ≡ self.now.header.size }
        requires stands { IsTrue (D.view disk.old).tells → StandsOn self.now (D.view disk.old) }
        ensures room { length room.new ≡ self.now.header.size }
        ensures bound { IfOk result (λ n. n ≤ self.now.header.size) }
        ensures lost { OnOk result (IsTrue (D.view disk.old).tells → (lost : Option ℕ) × AtMostOne self.now.header (file_on self.now (D.view disk.old)) lost) }
        ensures answer { IfOk result (λ n. IsTrue (D.view disk.old).tells → (list : List (List ℕ)) (k : Option ℕ) → IsPoolBut k self.now.header list (file_on self.now (D.view disk.old))
            → (i : ℕ) → job ≡ i + 1 → take n room.new ≡ get_or list i []) }
        ensures err { IfErr result (λ e. IsTrue (D.view disk.old).tells → IsSlotFault e self.now.header (file_on self.now (D.view disk.old))) }
        ensures free { IfErr result (λ e. e ≢ SlotFault.UsedUp) }
        ensures looked { Untouched (D.view disk.old) (D.view disk.new) }
        ensures failed { IfErr result (λ e. SlotRose e (D.view disk.old).faults (D.view disk.new).faults) }
        ensures counts { OnOk result ((D.view disk.new).faults ≡ (D.view disk.old).faults) }
        ensures steady { Steady (D.view disk.old) (D.view disk.new) }
    {
        let i = job - 1;
        let lost = one_lost(
            disk,
            self.file,
            &self.header,
            room.slots.read.as_mut_slice(),
        )?;
        bring(disk, self.file, &self.header, i, lost, &mut room.slots)?;
        let n = kept_length(disk, self.file, &self.header, i)?;
        Ok(n)
    }
}
