//! The output of a drill at its end.

ghost use Rattle.std.specs.Prelude.{◌≡◌, IfOk};
ghost use Rattle.disk_model.specs.MemoryDisk.{view_of};

use crate::fault::DrillFault;
use disk_model::{Disk, DiskFile, MemDisk};
use std::alloc::Global;

// Reads the whole output file.
pub(crate) fn read_output(alloc: Global, disk: &mut MemDisk) -> Result<Vec<u8>, DrillFault>
    ensures answer { IfOk result (λ bytes. bytes.items ≡ (view_of disk.old).seen.output) }
{
    let length = disk.length(DiskFile::Output)?;
    let mut bytes = vec![in alloc; 0; length as usize]?;
    disk.read_at(DiskFile::Output, 0, &mut bytes)?;
    Ok(bytes)
}
