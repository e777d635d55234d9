//! How a life writes output.
ghost use Rattle.std.specs.Prelude.{◌≡◌, ℕ, true, false, List, [], ◌∷◌, map, IsTrue, OnOk, OnErr};
ghost use Rattle.std.specs.Fmt.{signed_decimal};
ghost use Rattle.ckpt_base.specs.Event as run;
ghost use Rattle.ckpt_base.specs.Faults.{Rose};
ghost use Rattle.disk_model.specs.Moments.{Among, LeavesOnly};
ghost use Rattle.disk_model.specs.View.{Steady};
ghost use Rattle.output_file.specs.OnDisk.{IsBehind};
ghost use Rattle.run_images.specs.Origin.{Origin};
ghost use Rattle.ckpt_runner.specs.Calls.{FitsServing, Serves};
ghost use Rattle.ckpt_runner.specs.Standing.{ServesStanding, KeepsImages};

use crate::life::Life;
use ckpt_base::Failed;
use disk_model::Disk;

impl<'a> Life<'a> {
    // Writes a byte that the machine puts out.
    pub(crate) fn write<D: Disk>(&mut self, disk: &mut D, byte: u8) -> Result<(), Failed>
        requires live { (self.old.failed ≡ false) × (self.old.machine.live ≡ true) }
        requires fits { FitsServing (run.Byte byte ∷ []) self.old (D.view disk.old) }
        ensures same { self.new ≡ record self.old { journal = self.new.journal; failed = self.new.failed } }
        ensures well { OnOk result (self.new.failed ≡ false) }
        ensures serves { OnOk result ((o : Origin) (es : List run.Event)
            → Serves o es (run.Byte byte ∷ []) self.old (D.view disk.old) self.new (D.view disk.new)) }
        ensures moments { ServesStanding (run.Byte byte ∷ []) self.old (D.view disk.old) (D.view disk.new) }
        ensures later { KeepsImages (D.view disk.old) (D.view disk.new) }
        ensures any_moment { IsTrue (D.view disk.old).tells
            → LeavesOnly (D.view disk.old) (D.view disk.new) (Among (D.view disk.old).may_leave (IsBehind self.old.journal.output.lasting)) }
        ensures failed { OnErr result (Rose (D.view disk.old).faults (D.view disk.new).faults) }
        ensures counts { OnOk result ((D.view disk.new).faults ≡ (D.view disk.old).faults) }
        ensures steady { Steady (D.view disk.old) (D.view disk.new) }
    {
        self.failed = true;
        self.journal.write(disk, &[byte])?;
        self.failed = false;
        Ok(())
    }

    // Writes a number that the machine puts out, in decimal digits.
    pub(crate) fn write_number<D: Disk>(&mut self, disk: &mut D, number: i64) -> Result<(), Failed>
        requires live { (self.old.failed ≡ false) × (self.old.machine.live ≡ true) }
        requires fits { FitsServing (map run.Byte (signed_decimal number)) self.old (D.view disk.old) }
        ensures same { self.new ≡ record self.old { journal = self.new.journal; failed = self.new.failed } }
        ensures well { OnOk result (self.new.failed ≡ false) }
        ensures serves { OnOk result ((o : Origin) (es : List run.Event)
            → Serves o es (map run.Byte (signed_decimal number)) self.old (D.view disk.old) self.new (D.view disk.new)) }
        ensures moments { ServesStanding (map run.Byte (signed_decimal number)) self.old (D.view disk.old) (D.view disk.new) }
        ensures later { KeepsImages (D.view disk.old) (D.view disk.new) }
        ensures any_moment { IsTrue (D.view disk.old).tells
            → LeavesOnly (D.view disk.old) (D.view disk.new) (Among (D.view disk.old).may_leave (IsBehind self.old.journal.output.lasting)) }
        ensures failed { OnErr result (Rose (D.view disk.old).faults (D.view disk.new).faults) }
        ensures counts { OnOk result ((D.view disk.new).faults ≡ (D.view disk.old).faults) }
        ensures steady { Steady (D.view disk.old) (D.view disk.new) }
    {
        self.failed = true;
        self.journal.write_number(disk, number)?;
        self.failed = false;
        Ok(())
    }
}
