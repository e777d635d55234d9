//! The stages of a command that use its store.

ghost use Rattle.std.specs.Prelude.{◌≡◌, OnOk};
ghost use Rattle.disk_model.specs.Plate.{plate};
ghost use Rattle.ckpt_program.specs.Stage.{Comes};
ghost use Rattle.ckpt_program.specs.DiskStages.{CalmDisk, Entered, Listed, Stays};

use crate::stop::Stop;
use chain_listing::list_records;
use ckpt_base::Text;
use disk_model::Disk;
use std::alloc::Global;

/// Chooses the store of a command.
#[tactic(auto, unfolding(crate::specs::DiskStages::FailsEntry))]
pub fn enter_store<D: Disk>(disk: &mut D, dir: &Text) -> Result<(), Stop>
    ensures answer { Comes (Entered (plate (D.view disk.old)) (plate (D.view disk.new))) result }
    ensures stays { Stays (D.view disk.old) (D.view disk.new) }
    ensures count { CalmDisk result (D.view disk.old).faults (D.view disk.new).faults }
    ensures calm { OnOk result (plate (D.view disk.new) ≡ plate (D.view disk.old)) }
{
    disk.enter(dir)?;
    Ok(())
}

/// The text that lists the records of the store.
pub fn list_store<D: Disk>(alloc: Global, disk: &mut D) -> Result<Text, Stop>
    ensures answer { Comes (Listed (plate (D.view disk.old)) (plate (D.view disk.new))) result }
    ensures stays { Stays (D.view disk.old) (D.view disk.new) }
    ensures count { CalmDisk result (D.view disk.old).faults (D.view disk.new).faults }
{
    Ok(list_records(alloc, disk)?)
}
