//! A store that is cleared.
ghost use Rattle.std.specs.Prelude.{◌≡◌, IsTrue, OnOk, OnErr};
ghost use Rattle.ckpt_base.specs.Faults.{Rose};
ghost use Rattle.disk_model.specs.View.{Steady};
ghost use Rattle.disk_model.specs.Moments.{Among, LeavesOnly};
ghost use Rattle.run_images.specs.Source.{Source};
ghost use Rattle.run_images.specs.Stands.{AllStand};
ghost use Rattle.store_upkeep.specs.Clearing.{IsEmptied, IsEmptying};
ghost use Rattle.store_upkeep.specs.Keeping.{StaysStanding};

use ckpt_base::Failed;
use disk_model::{Disk, DiskFile};
use image_chain::Chain;

/// Leaves a store without a chain and without output, whatever it held: starts file Two and then file One anew with closed gates, and then
/// cuts the output to nothing and makes it lasting.
///
/// What it leaves stands for every source; and on a store that stands for a source each crash in it leaves one that stands for the same.
/// `Failed` comes only where a call on the disk failed.
pub fn clear_store<D: Disk>(disk: &mut D) -> Result<(), Failed>
    ensures answer { OnOk result (IsTrue (D.view disk.old).tells → IsEmptied (D.view disk.new)) }
    ensures stands { OnOk result (IsTrue (D.view disk.old).tells → (s : Source) → AllStand s (D.view disk.new)) }
    ensures any_moment { IsTrue (D.view disk.old).tells → LeavesOnly (D.view disk.old) (D.view disk.new) (Among (D.view disk.old).may_leave IsEmptying) }
    ensures standing { StaysStanding (D.view disk.old) (D.view disk.new) }
    ensures failed { OnErr result (Rose (D.view disk.old).faults (D.view disk.new).faults) }
    ensures counts { OnOk result ((D.view disk.new).faults ≡ (D.view disk.old).faults) }
    ensures steady { Steady (D.view disk.old) (D.view disk.new) }
{
    Chain::clear(disk)?;
    disk.cut(DiskFile::Output, 0)?;
    disk.sync(DiskFile::Output)?;
    Ok(())
}
