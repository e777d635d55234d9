//! The command `images`.

ghost use Rattle.disk_model.specs.Plate.{plate};
ghost use Rattle.ckpt_program.specs.Stage.{Comes};
ghost use Rattle.ckpt_program.specs.DiskStages.{CalmDisk, Stays};
ghost use Rattle.ckpt_program.specs.Rows as row;

use crate::disk_stages::{enter_store, list_store};
use crate::done::Done;
use crate::stop::Stop;
use ckpt_base::Text;
use disk_model::Disk;
use std::alloc::Global;

/// Lists the records of a store.
pub fn images<D: Disk>(alloc: Global, disk: &mut D, dir: &Text) -> Result<Done, Stop>
    ensures answer { Comes (row.Images (plate (D.view disk.old)) (plate (D.view disk.new))) result }
    ensures stays { Stays (D.view disk.old) (D.view disk.new) }
    ensures count { CalmDisk result (D.view disk.old).faults (D.view disk.new).faults }
{
    enter_store(disk, dir)?;
    let text = list_store(alloc, disk)?;
    Ok(Done::Printed(text))
}
