//! The exclusive-or of slots.
ghost use Rattle.std.specs.Prelude.{◌≡◌, ◌≤◌, ◌+◌, ◌++◌, length, replicate, drop, IsTrue, IfOk, OnOk, OnErr, min};
ghost use Rattle.ckpt_base.specs.Faults.{Rose};
ghost use Rattle.disk_model.specs.Store.{file_of};
ghost use Rattle.disk_model.specs.View.{Steady};
ghost use Rattle.disk_model.specs.Keeps.{Untouched};
ghost use Rattle.parity_store.specs.Layout.{IsPoolHeader, pool_length, slot_in};
ghost use Rattle.parity_store.specs.Slots.{exclusive_or, padded};
ghost use Rattle.parity_store.specs.Writing.{sum_but, parity_but};

use crate::header::PoolHeader;
use crate::look::read_slot;
use ckpt_base::Failed;
use disk_model::{Disk, DiskFile};

// Takes the exclusive-or of the bytes with those of a slot.
pub(crate) fn add_slot(sum: &mut [u8], slot: &[u8])
    requires size { length sum.old ≡ length slot.now }
    ensures answer { sum.new ≡ exclusive_or sum.old slot.now }
{
    'bytes: for i in 0..slot.len() {
        sum[i] ^= slot[i];
    }
}

// Fills the slot with the bytes of a job, and with zeros behind them.
pub(crate) fn fill_slot(slot: &mut [u8], bytes: &[u8])
    requires fits { length bytes.now ≤ length slot.old }
    ensures answer { slot.new ≡ padded (length slot.old) bytes.now }
{
    slot[..bytes.len()].copy_from_slice(bytes);
    slot[bytes.len()..].fill(0);
}

// Fills a slot with zeros.
pub(crate) fn clear_slot(slot: &mut [u8])
    ensures answer { slot.new ≡ replicate (length slot.old) 0 }
{
    slot.fill(0);
}

// Takes the exclusive-or with slot `i`, unless it is slot `k`.
fn add_other<D: Disk>(
    disk: &mut D,
    file: DiskFile,
    h: &PoolHeader,
    k: u16,
    i: u16,
    sum: &mut [u8],
    slot: &mut [u8],
) -> Result<(), Failed>
    requires sum { length sum.old ≡ h.now.size }
    requires slot { length slot.old ≡ h.now.size }
    requires place { i ≤ h.now.jobs }
    requires whole { IsTrue (D.view disk.old).tells → length (file_of file (D.view disk.old).seen) ≡ pool_length h.now }
    ensures sizes { (length sum.new ≡ h.now.size) × (length slot.new ≡ h.now.size) }
    ensures answer { OnOk result (IsTrue (D.view disk.old).tells → sum.new ≡ sum_but k i sum.old (slot_in h.now (file_of file (D.view disk.old).seen) i)) }
    ensures looked { Untouched (D.view disk.old) (D.view disk.new) }
    ensures failed { OnErr result (Rose (D.view disk.old).faults (D.view disk.new).faults) }
    ensures counts { OnOk result ((D.view disk.new).faults ≡ (D.view disk.old).faults) }
    ensures steady { Steady (D.view disk.old) (D.view disk.new) }
{
    if i == k {
        return Ok(());
    }
    read_slot(disk, file, h, i, slot)?;
    add_slot(sum, slot);
    Ok(())
}

// Rebuilds slot `k`, counted from 0, as the exclusive-or of the others, which go through `slot` one by one.
pub(crate) fn rebuild<D: Disk>(
    disk: &mut D,
    file: DiskFile,
    h: &PoolHeader,
    k: u16,
    sum: &mut [u8],
    slot: &mut [u8],
) -> Result<(), Failed>
    requires held { IsPoolHeader h.now }
    requires sum { length sum.old ≡ h.now.size }
    requires slot { length slot.old ≡ h.now.size }
    requires whole { IsTrue (D.view disk.old).tells → length (file_of file (D.view disk.old).seen) ≡ pool_length h.now }
    ensures sizes { (length sum.new ≡ h.now.size) × (length slot.new ≡ h.now.size) }
    ensures answer { OnOk result (IsTrue (D.view disk.old).tells → sum.new ≡ parity_but k h.now.size (slot_in h.now (file_of file (D.view disk.old).seen)) (h.now.jobs + 1)) }
    ensures looked { Untouched (D.view disk.old) (D.view disk.new) }
    ensures failed { OnErr result (Rose (D.view disk.old).faults (D.view disk.new).faults) }
    ensures counts { OnOk result ((D.view disk.new).faults ≡ (D.view disk.old).faults) }
    ensures steady { Steady (D.view disk.old) (D.view disk.new) }
{
    clear_slot(sum);
    let mut i = 0;
    while i <= h.jobs {
        add_other(disk, file, h, k, i, sum, slot)?;
        i += 1;
    }
    Ok(())
}
