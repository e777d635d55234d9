//! How a life passes a checkpoint.
ghost use Rattle.std.specs.Prelude.{◌≡◌, ◌<◌, ◌≤◌, ℕ, true, false, List, [], ◌∷◌, length, IsTrue, OnOk, OnErr};
ghost use Rattle.ckpt_base.specs.Event as run;
ghost use Rattle.ckpt_base.specs.Faults.{Rose};
ghost use Rattle.disk_model.specs.View.{Steady};
ghost use Rattle.image_format.specs.Image.{Image};
ghost use Rattle.life_journal.specs.Holding.{HoldsJournal, FitsDisk};
ghost use Rattle.life_journal.specs.Joining.{StayOrJoin};
ghost use Rattle.output_file.specs.Pushed.{flushed, length_of};
ghost use Rattle.run_images.specs.Origin.{Origin};
ghost use Rattle.run_images.specs.Since.{Since, is_due};
ghost use Rattle.ckpt_runner.specs.Calls.{FitsServing, Serves};
ghost use Rattle.ckpt_runner.specs.Lives.{progress_in};
ghost use Rattle.ckpt_runner.specs.Passing.{LeavesOrReady, LeavesReady, PassingLeaves};
ghost use Rattle.ckpt_runner.specs.Standing.{JournalMoments, JournalStays, KeepsImages, ServesStanding};

use crate::image::{fields_of, find_cells};
use crate::life::Life;
use cell_sets::RunList;
use ckpt_base::Failed;
use disk_model::Disk;
use life_journal::{Journal, JournalState};
use run_images::images_of_lives_stand;

impl<'a> Life<'a> {
    // Passes the checkpoint of a node: takes an image where one is due.
    pub(crate) fn pass<D: Disk>(&mut self, disk: &mut D, node: u32) -> Result<(), Failed>
        requires live { (self.old.failed ≡ false) × (self.old.machine.live ≡ true) }
        requires node { node ≤ 2047 }
        requires fits { FitsServing (run.Checkpoint node self.old.machine.state.ticks ∷ []) self.old (D.view disk.old) }
        ensures same { self.new ≡ record self.old
            { journal = self.new.journal; progress = self.new.progress; pages = self.new.pages; failed = self.new.failed } }
        ensures size { length self.new.pages.dirty ≡ length self.old.pages.dirty }
        ensures well { OnOk result (self.new.failed ≡ false) }
        ensures serves { OnOk result ((o : Origin) (es : List run.Event)
            → Serves o es (run.Checkpoint node self.old.machine.state.ticks ∷ []) self.old (D.view disk.old) self.new (D.view disk.new)) }
        ensures moments { ServesStanding (run.Checkpoint node self.old.machine.state.ticks ∷ []) self.old (D.view disk.old) (D.view disk.new) }
        ensures later { KeepsImages (D.view disk.old) (D.view disk.new) }
        ensures any_moment { PassingLeaves node self.old.machine.state.ticks self.old (D.view disk.old) (D.view disk.new) }
        ensures failed { OnErr result (Rose (D.view disk.old).faults (D.view disk.new).faults) }
        ensures counts { OnOk result ((D.view disk.new).faults ≡ (D.view disk.old).faults) }
        ensures steady { Steady (D.view disk.old) (D.view disk.new) }
    {
        let ticks = self.memory.machine.ticks();
        if !self.progress.is_due(self.journal.every(), ticks) {
            return Ok(());
        }
        self.take_image(disk, node, ticks)?;
        Ok(())
    }

    // Takes an image, which is due: makes the journal ready, fixes fields and cells, and writes the record.
    fn take_image<D: Disk>(&mut self, disk: &mut D, node: u32, ticks: u64) -> Result<(), Failed>
        requires live { (self.old.failed ≡ false) × (self.old.machine.live ≡ true) }
        requires node { node ≤ 2047 }
        requires now { ticks ≡ self.old.machine.state.ticks }
        requires due { (s : Since) → self.old.progress ≡ progress_in s → is_due self.old.journal.chain.current.every s ticks ≡ true }
        requires later { self.old.progress.newest_tick < ticks }
        requires number { self.old.progress.number < 4294967295 }
        requires fits { FitsServing (run.Checkpoint node ticks ∷ []) self.old (D.view disk.old) }
        ensures same { self.new ≡ record self.old
            { journal = self.new.journal; progress = self.new.progress; pages = self.new.pages; failed = self.new.failed } }
        ensures size { length self.new.pages.dirty ≡ length self.old.pages.dirty }
        ensures well { OnOk result (self.new.failed ≡ false) }
        ensures serves { OnOk result ((o : Origin) (es : List run.Event)
            → Serves o es (run.Checkpoint node ticks ∷ []) self.old (D.view disk.old) self.new (D.view disk.new)) }
        ensures moments { ServesStanding (run.Checkpoint node ticks ∷ []) self.old (D.view disk.old) (D.view disk.new) }
        ensures later { KeepsImages (D.view disk.old) (D.view disk.new) }
        ensures any_moment { PassingLeaves node ticks self.old (D.view disk.old) (D.view disk.new) }
        ensures failed { OnErr result (Rose (D.view disk.old).faults (D.view disk.new).faults) }
        ensures counts { OnOk result ((D.view disk.new).faults ≡ (D.view disk.old).faults) }
        ensures steady { Steady (D.view disk.old) (D.view disk.new) }
    {
        images_of_lives_stand();
        self.failed = true;
        make_ready(&mut self.journal, disk, &mut self.runs)?;
        let written = self.journal.output_length();
        let fields = fields_of(&self.marks, &self.progress, node, ticks, written);
        find_cells(
            self.compiled,
            &self.progress,
            &self.memory.pages,
            &mut self.runs,
        );
        self.journal
            .save(disk, &fields, self.runs.as_slice(), &self.memory.frames)?;
        self.memory.pages.protect_all();
        self.progress.take(ticks);
        self.failed = false;
        Ok(())
    }
}

// Makes the output lasting, and then room for one record more. `runs` holds anything then.
fn make_ready<D: Disk>(
    journal: &mut Journal,
    disk: &mut D,
    runs: &mut RunList,
) -> Result<(), Failed>
    requires whole { journal.old.state ≡ JournalState.Resting }
    requires fits { FitsDisk journal.old (D.view disk.old) }
    ensures whole { OnOk result (journal.new.state ≡ JournalState.Resting) }
    ensures flushed { OnOk result (journal.new.output ≡ flushed journal.old.output) }
    ensures written { OnOk result (length_of journal.new.output ≡ length_of journal.old.output) }
    ensures room { OnOk result (journal.new.chain.current.count < journal.new.chain.current.max) }
    ensures newest { OnOk result (journal.new.chain.current.newest ≡ journal.old.chain.current.newest) }
    ensures every { OnOk result (journal.new.chain.current.every ≡ journal.old.chain.current.every) }
    ensures holds { OnOk result (IsTrue (D.view disk.old).tells → (rs : List Image) (written : List ℕ) → HoldsJournal journal.old (D.view disk.old) rs written
        → (qs : List Image) × StayOrJoin rs qs × HoldsJournal journal.new (D.view disk.new) qs written) }
    ensures stays { OnOk result (JournalStays journal.old (D.view disk.old) journal.new (D.view disk.new)) }
    ensures moments { JournalMoments journal.old (D.view disk.old) (D.view disk.new) }
    ensures later { KeepsImages (D.view disk.old) (D.view disk.new) }
    ensures any_moment { LeavesOrReady journal.old (D.view disk.old) (D.view disk.new) }
    ensures ready { OnOk result (LeavesReady journal.old (D.view disk.old) (D.view disk.new)) }
    ensures failed { OnErr result (Rose (D.view disk.old).faults (D.view disk.new).faults) }
    ensures counts { OnOk result ((D.view disk.new).faults ≡ (D.view disk.old).faults) }
    ensures steady { Steady (D.view disk.old) (D.view disk.new) }
{
    journal.flush(disk)?;
    journal.make_room(disk, runs)?;
    Ok(())
}
