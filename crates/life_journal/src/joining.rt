//! Room for one record more.
ghost use Rattle.std.specs.Prelude.{◌≡◌, ◌<◌, List, ℕ, IsTrue, OnOk, OnErr};
ghost use Rattle.ckpt_base.specs.Faults.{Rose};
ghost use Rattle.disk_model.specs.View.{Steady};
ghost use Rattle.disk_model.specs.Moments.{Among, LeavesOnly};
ghost use Rattle.image_format.specs.Image.{Image};
ghost use Rattle.life_journal.specs.Holding.{HoldsJournal, FitsDisk};
ghost use Rattle.life_journal.specs.Joining.{StayOrJoin, MayBeJoined};

use crate::journal::{Journal, JournalState};
use cell_sets::RunList;
use ckpt_base::Failed;
use coalesce::join;
use disk_model::Disk;

impl Journal {
    /// Joins the records of the chain into one where it is full, so that there is room for a record. `runs` holds anything then.
    pub fn make_room<D: Disk>(&mut self, disk: &mut D, runs: &mut RunList) -> Result<(), Failed>
        requires whole { self.old.state ≡ JournalState.Resting }
        requires fits { FitsDisk self.old (D.view disk.old) }
        ensures whole { OnOk result (self.new.state ≡ JournalState.Resting) }
        ensures same { self.new.output ≡ self.old.output }
        ensures room { OnOk result (self.new.chain.current.count < self.new.chain.current.max) }
        ensures newest { OnOk result (self.new.chain.current.newest ≡ self.old.chain.current.newest) }
        ensures every { OnOk result (self.new.chain.current.every ≡ self.old.chain.current.every) }
        ensures holds { OnOk result (IsTrue (D.view disk.old).tells → (rs : List Image) (written : List ℕ) → HoldsJournal self.old (D.view disk.old) rs written
            → (qs : List Image) × StayOrJoin rs qs × HoldsJournal self.new (D.view disk.new) qs written) }
        ensures any_moment { IsTrue (D.view disk.old).tells → (rs : List Image) (written : List ℕ) → HoldsJournal self.old (D.view disk.old) rs written
            → LeavesOnly (D.view disk.old) (D.view disk.new) (Among (D.view disk.old).may_leave (MayBeJoined self.old.chain.current rs)) }
        ensures failed { OnErr result (Rose (D.view disk.old).faults (D.view disk.new).faults) }
        ensures counts { OnOk result ((D.view disk.new).faults ≡ (D.view disk.old).faults) }
        ensures steady { Steady (D.view disk.old) (D.view disk.new) }
    {
        if self.chain.count() < self.chain.max() {
            return Ok(());
        }
        self.state = JournalState::Spent;
        join(&mut self.chain, disk, &self.kept, &mut self.record, runs)?;
        self.state = JournalState::Resting;
        Ok(())
    }
}
