//! How a life is finished.
ghost use Rattle.std.specs.Prelude.{◌≡◌, List, true, false, IsTrue, OnOk, OnErr};
ghost use Rattle.ckpt_base.specs.Event.{Event};
ghost use Rattle.ckpt_base.specs.Faults.{Rose};
ghost use Rattle.disk_model.specs.View.{Steady};
ghost use Rattle.disk_model.specs.Moments.{Among, LeavesOnly};
ghost use Rattle.output_file.specs.OnDisk.{IsOnDisk, IsBehind};
ghost use Rattle.run_images.specs.Origin.{Origin};
ghost use Rattle.run_images.specs.Source.{Source};
ghost use Rattle.ckpt_runner.specs.LifeView.{is_idle};
ghost use Rattle.ckpt_runner.specs.Lives.{Lives};
ghost use Rattle.ckpt_runner.specs.Keeps.{Kept, bytes_now};
ghost use Rattle.ckpt_runner.specs.Calls.{FitsDisk};
ghost use Rattle.ckpt_runner.specs.Good.{IsGood};
ghost use Rattle.ckpt_runner.specs.Standing.{EndsGood, KeepsImages, KeepsStanding};

use crate::life::Life;
use ckpt_base::Failed;
use disk_model::Disk;

impl<'a> Life<'a> {
    /// Ends the writing of an image that is under way, and flushes the output. No call of the life has failed; it is over then.
    pub fn finish<D: Disk>(&mut self, disk: &mut D) -> Result<(), Failed>
        requires whole { self.old.failed ≡ false }
        requires fits { FitsDisk self.old (D.view disk.old) }
        ensures over { self.new.finished ≡ true }
        ensures same { (o : Origin) (es : List Event) → Lives o es self.old → OnOk result (Lives o es self.new) }
        ensures idle { OnOk result (is_idle self.new.writer ≡ true) }
        ensures kept { OnOk result (IsTrue (D.view disk.old).tells → (o : Origin) (es : List Event) → Lives o es self.old → Kept o es self.old (D.view disk.old)
            → Kept o es self.new (D.view disk.new) × IsOnDisk (bytes_now o es) (D.view disk.new)) }
        // A crash at any moment leaves a store that stands for each source of the life, and no image is lost.
        ensures moments { KeepsStanding self.old (D.view disk.old) (D.view disk.new) }
        ensures later { KeepsImages (D.view disk.old) (D.view disk.new) }
        ensures good { OnOk result (IsTrue (D.view disk.old).tells → (s : Source) (o : Origin) (es : List Event)
            → IsGood s o es self.old (D.view disk.old) → IsGood s o es self.new (D.view disk.new)) }
        // Where the life stopped at a bound, output, ending, ticks and images are those of its source's run within the bound.
        ensures ends { OnOk result (EndsGood self.old (D.view disk.old) (D.view disk.new)) }
        ensures any_moment { IsTrue (D.view disk.old).tells → LeavesOnly (D.view disk.old) (D.view disk.new) (Among (D.view disk.old).may_leave (IsBehind self.old.journal.output.lasting)) }
        ensures failed { OnErr result (Rose (D.view disk.old).faults (D.view disk.new).faults) }
        ensures counts { OnOk result ((D.view disk.new).faults ≡ (D.view disk.old).faults) }
        ensures steady { Steady (D.view disk.old) (D.view disk.new) }
    {
        self.finished = true;
        self.failed = true;
        self.journal.flush(disk)?;
        self.failed = false;
        Ok(())
    }
}
