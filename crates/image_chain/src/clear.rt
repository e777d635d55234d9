//! A store that loses its chain.
ghost use Rattle.std.specs.Prelude.{◌≡◌, IsTrue, OnOk, OnErr};
ghost use Rattle.ckpt_base.specs.Faults.{Rose};
ghost use Rattle.disk_model.specs.View.{SameFile, Steady};
ghost use Rattle.disk_model.specs.Moments.{Among, LeavesOnly};
ghost use Rattle.image_chain.specs.Clear.{IsCleared, IsClearing};

use crate::chain::Chain;
use ckpt_base::Failed;
use disk_model::{Disk, DiskFile};
use image_format::{Header, write_header};

impl Chain {
    /// Leaves a store without a chain, whatever it held: starts file Two anew with a closed gate, and then file One.
    ///
    /// At each moment a crash leaves file One as it was until file Two is begun. `Failed` comes only where a call on the disk failed.
    pub fn clear<D: Disk>(disk: &mut D) -> Result<(), Failed>
        ensures answer { OnOk result (IsTrue (D.view disk.old).tells → IsCleared (D.view disk.new)) }
        ensures any_moment { IsTrue (D.view disk.old).tells → LeavesOnly (D.view disk.old) (D.view disk.new) (Among (D.view disk.old).may_leave IsClearing) }
        ensures output { IsTrue (D.view disk.old).tells → SameFile DiskFile.Output (D.view disk.old) (D.view disk.new) }
        ensures failed { OnErr result (Rose (D.view disk.old).faults (D.view disk.new).faults) }
        ensures counts { OnOk result ((D.view disk.new).faults ≡ (D.view disk.old).faults) }
        ensures steady { Steady (D.view disk.old) (D.view disk.new) }
    {
        let header = write_header(&Header {
            generation: 1,
            every: 1,
            max: 16,
            gate_open: false,
        });
        disk.start_file(DiskFile::Two, &header)?;
        disk.start_file(DiskFile::One, &header)?;
        Ok(())
    }
}
