//! The slots that are lost.
ghost use Rattle.std.specs.Prelude.{◌≡◌, ◌≢◌, ◌↔◌, ◌≤◌, ◌<◌, ◌+◌, length, IsTrue, IfOk, IfErr, OnOk, OnErr, ℕ, List, Option, Some, None};
ghost use Rattle.ckpt_base.specs.Faults.{Rose};
ghost use Rattle.disk_model.specs.Store.{file_of};
ghost use Rattle.disk_model.specs.View.{Steady};
ghost use Rattle.disk_model.specs.Keeps.{Untouched};
ghost use Rattle.parity_store.specs.Layout.{IsPoolHeader, pool_length};
ghost use Rattle.parity_store.specs.Slots.{IsLeastLost, AreLeastLost, AtMostOne, IsPoolBut};
ghost use Rattle.parity_store.specs.OnDisk.{StandsOn, IsSlotFault, SlotRose, number_of_lost, file_on};

use crate::fault::SlotFault;
use crate::header::PoolHeader;
use crate::look::matches;
use crate::pool::Pool;
use crate::room::PoolRoom;
use ckpt_base::Failed;
use disk_model::{Disk, DiskFile};

/// The two least lost slots, counted from 1; the parity slot stands behind those of the jobs.
#[derive(Clone, Copy, Debug, PartialEq, Eq)]
pub struct LostSlots {
    /// The least one, if any slot is lost.
    pub first: Option<u16>,
    /// The next one, if any other is.
    pub second: Option<u16>,
}

// The least lost slot from the place `from` on, as its number.
fn next_lost<D: Disk>(
    disk: &mut D,
    file: DiskFile,
    h: &PoolHeader,
    from: u16,
    slot: &mut [u8],
) -> Result<Option<u16>, Failed>
    requires held { IsPoolHeader h.now }
    requires from { from ≤ h.now.jobs + 1 }
    requires size { length slot.old ≡ h.now.size }
    requires whole { IsTrue (D.view disk.old).tells → length (file_of file (D.view disk.old).seen) ≡ pool_length h.now }
    ensures size { length slot.new ≡ h.now.size }
    ensures answer { IfOk result (λ found. IsTrue (D.view disk.old).tells → IsLeastLost h.now (file_of file (D.view disk.old).seen) from found) }
    ensures number { IfOk result (λ found. (n : ℕ) → found ≡ Some n → (1 ≤ n) × (n ≤ h.now.jobs + 1)) }
    ensures looked { Untouched (D.view disk.old) (D.view disk.new) }
    ensures failed { OnErr result (Rose (D.view disk.old).faults (D.view disk.new).faults) }
    ensures counts { OnOk result ((D.view disk.new).faults ≡ (D.view disk.old).faults) }
    ensures steady { Steady (D.view disk.old) (D.view disk.new) }
{
    let mut i = from;
    while i <= h.jobs {
        if !matches(disk, file, h, i, slot)? {
            return Ok(Some(i + 1));
        }
        i += 1;
    }
    Ok(None)
}

// The two least lost slots.
fn find_lost<D: Disk>(
    disk: &mut D,
    file: DiskFile,
    h: &PoolHeader,
    slot: &mut [u8],
) -> Result<LostSlots, Failed>
    requires held { IsPoolHeader h.now }
    requires size { length slot.old ≡ h.now.size }
    requires whole { IsTrue (D.view disk.old).tells → length (file_of file (D.view disk.old).seen) ≡ pool_length h.now }
    ensures size { length slot.new ≡ h.now.size }
    ensures answer { IfOk result (λ lost. IsTrue (D.view disk.old).tells → AreLeastLost h.now (file_of file (D.view disk.old).seen) lost.first lost.second) }
    ensures number { IfOk result (λ lost. (n : ℕ) → lost.first ≡ Some n → (1 ≤ n) × (n ≤ h.now.jobs + 1)) }
    ensures looked { Untouched (D.view disk.old) (D.view disk.new) }
    ensures failed { OnErr result (Rose (D.view disk.old).faults (D.view disk.new).faults) }
    ensures counts { OnOk result ((D.view disk.new).faults ≡ (D.view disk.old).faults) }
    ensures steady { Steady (D.view disk.old) (D.view disk.new) }
{
    let first = next_lost(disk, file, h, 0, slot)?;
    let from = match first {
        Some(number) => number,
        None => h.jobs + 1,
    };
    let second = next_lost(disk, file, h, from, slot)?;
    Ok(LostSlots { first, second })
}

// The one slot that is lost, if any, as its number. Two lost slots are a fault.
pub(crate) fn one_lost<D: Disk>(
    disk: &mut D,
    file: DiskFile,
    h: &PoolHeader,
    slot: &mut [u8],
) -> Result<Option<u16>, SlotFault>
    requires held { IsPoolHeader h.now }
    requires size { length slot.old ≡ h.now.size }
    requires whole { IsTrue (D.view disk.old).tells → length (file_of file (D.view disk.old).seen) ≡ pool_length h.now }
    ensures size { length slot.new ≡ h.now.size }
    ensures answer { IfOk result (λ lost. IsTrue (D.view disk.old).tells → AtMostOne h.now (file_of file (D.view disk.old).seen) lost) }
    ensures number { IfOk result (λ lost. (n : ℕ) → lost ≡ Some n → (1 ≤ n) × (n ≤ h.now.jobs + 1)) }
    ensures err { IfErr result (λ e. IsTrue (D.view disk.old).tells → IsSlotFault e h.now (file_of file (D.view disk.old).seen)) }
    ensures free { IfErr result (λ e. e ≢ SlotFault.UsedUp) }
    ensures looked { Untouched (D.view disk.old) (D.view disk.new) }
    ensures failed { IfErr result (λ e. SlotRose e (D.view disk.old).faults (D.view disk.new).faults) }
    ensures counts { OnOk result ((D.view disk.new).faults ≡ (D.view disk.old).faults) }
    ensures steady { Steady (D.view disk.old) (D.view disk.new) }
{
    let lost = find_lost(disk, file, h, slot)?;
    match (lost.first, lost.second) {
        (Some(first), Some(second)) => Err(SlotFault::Lost { first, second }),
        (Some(first), None) => Ok(Some(first)),
        (None, _) => Ok(None),
    }
}

// Whether the lost slot is slot `i`, counted from 0.
pub(crate) fn is_lost(lost: Option<u16>, i: u16) -> bool
    requires place { i ≤ 16 }
    ensures answer { IsTrue result ↔ (lost ≡ Some (i + 1)) }
{
    match lost {
        Some(number) => number == i + 1,
        None => false,
    }
}

impl Pool {
    /// The two least lost slots. A slot is lost where its bytes have not the digest that is kept of it.
    ///
    /// The room is for the size. `Failed` comes only where a call on the disk failed.
    pub fn lost<D: Disk>(&self, disk: &mut D, room: &mut PoolRoom) -> Result<LostSlots, Failed>
        requires room { length room.old ≡ self.now.header.size }
        requires stands { IsTrue (D.view disk.old).tells → StandsOn self.now (D.view disk.old) }
        ensures room { length room.new ≡ self.now.header.size }
        ensures answer { IfOk result (λ lost. IsTrue (D.view disk.old).tells → AreLeastLost self.now.header (file_on self.now (D.view disk.old)) lost.first lost.second) }
        ensures alone { IfOk result (λ lost. IsTrue (D.view disk.old).tells → (list : List (List ℕ)) (k : Option ℕ) → IsPoolBut k self.now.header list (file_on self.now (D.view disk.old))
            → (lost.first ≡ number_of_lost k) × (lost.second ≡ None)) }
        ensures looked { Untouched (D.view disk.old) (D.view disk.new) }
        ensures failed { OnErr result (Rose (D.view disk.old).faults (D.view disk.new).faults) }
        ensures counts { OnOk result ((D.view disk.new).faults ≡ (D.view disk.old).faults) }
        ensures steady { Steady (D.view disk.old) (D.view disk.new) }
    {
        let slot = room.slots.read.as_mut_slice();
        let lost = find_lost(disk, self.file, &self.header, slot)?;
        Ok(lost)
    }
}
