//! A record that is prepared, and then written one disk call at a time.
ghost use Rattle.std.specs.Prelude.{◌≡◌, ◌+◌, ◌<◌, ◌≤◌, [], ◌∷◌, ◌++◌, List, ℕ, None, IsTrue, IfOk, OnOk, OnErr, length};
ghost use Rattle.ckpt_base.specs.Faults.{Rose};
ghost use Rattle.disk_model.specs.View.{Steady};
ghost use Rattle.disk_model.specs.Moments.{Among, LeavesOnly};
ghost use Rattle.image_format.specs.Image.{Image, InRange, IsImage, word_in_runs};
ghost use Rattle.image_format.specs.Written.{AreListed, HasCells, image_of, filled, listed_word};
ghost use Rattle.image_chain.specs.Append.{IfLast, SameCurrent, Spells, next_of, due_after, writer_calls};
ghost use Rattle.image_chain.specs.Lists.{IsAppended, IsLeftIn, ReadsAfter};
ghost use Rattle.image_chain.specs.Records.{broken_field};
ghost use Rattle.life_journal.specs.Holding.{HoldsJournal};
ghost use Rattle.life_journal.specs.Recorded.{TakesRecord};
ghost use Rattle.life_journal.specs.Writing.{KeepsJournal, FitsWriting, GoesOn, calls_before, state_at};

use crate::journal::{Journal, JournalState};
use crate::record::{keep_record, make_record};
use cell_sets::Run;
use ckpt_base::Failed;
use disk_model::Disk;
use image_chain::Step;
use image_format::Fields;
use page_frames::Frames;

impl Journal {
    /// Makes the record of the image that lists the cells of the runs with their words, with no call on the disk on which the journal
    /// stands; `write_call` writes it, behind the records so far, among which there is room for it. What the record says follows what the
    /// newest one says.
    pub fn prepare<D: Disk>(&mut self, disk: &D, fields: &Fields, runs: &[Run], frames: &Frames)
        requires whole { self.old.state ≡ JournalState.Resting }
        requires room { self.old.chain.current.count < self.old.chain.current.max }
        requires follows { broken_field self.old.chain.current.newest fields.now ≡ None }
        requires ranges { InRange fields.now }
        requires rising { AreListed runs.now }
        requires cells { HasCells frames.now runs.now }
        ensures state { self.new.state ≡ JournalState.Appending }
        ensures same { (self.new.chain ≡ self.old.chain) × (self.new.kept ≡ self.old.kept) × (self.new.output ≡ self.old.output) }
        ensures due { self.new.chain.due ≡ Step.Piece 0 }
        ensures spelled { Spells (image_of fields.now runs.now frames.now) self.new.prepared }
        ensures image { IsImage (image_of fields.now runs.now frames.now) }
        ensures words { (c : ℕ) → word_in_runs (filled frames.now runs.now) c ≡ listed_word runs.now frames.now c }
        ensures keeps { (rs : List Image) (written : List ℕ) → HoldsJournal self.old (D.view disk.now) rs written
            → KeepsJournal self.new (D.view disk.now) rs (image_of fields.now runs.now frames.now) written }
    {
        make_record(&mut self.record, fields, runs, frames);
        self.state = JournalState::Appending;
    }

    /// Makes the one disk call that is due of the record that was prepared, and answers the next step: `Done` after the last one, with
    /// which the record is kept and the journal rests. After `Failed` the journal is spent.
    pub fn write_call<D: Disk>(&mut self, disk: &mut D) -> Result<Step, Failed>
        requires whole { self.old.state ≡ JournalState.Appending }
        requires fits { FitsWriting self.old (D.view disk.old) }
        ensures order { IfOk result (λ next. next ≡ next_of self.old.chain.due (length self.old.prepared)) }
        ensures due { IfOk result (λ next. self.new.chain.due ≡ due_after next) }
        ensures counted { IfOk result (λ next. calls_before next (length self.old.prepared) ≡ calls_before self.old.chain.due (length self.old.prepared) + 1) }
        ensures within { IfOk result (λ next. calls_before next (length self.old.prepared) ≤ writer_calls (length self.old.prepared)) }
        ensures state { IfOk result (λ next. self.new.state ≡ state_at next) }
        ensures same { (self.new.output ≡ self.old.output) × (self.new.prepared ≡ self.old.prepared) }
        ensures chain { SameCurrent self.old.chain.due self.old.chain.current self.new.chain.current }
        ensures took { OnOk result (IfLast self.old.chain.due (TakesRecord self.old self.new)) }
        ensures holds { IfOk result (λ next. IsTrue (D.view disk.old).tells → (rs : List Image) (r : Image) (written : List ℕ)
            → KeepsJournal self.old (D.view disk.old) rs r written → GoesOn next self.new (D.view disk.new) rs r written) }
        ensures reads { OnOk result (IsTrue (D.view disk.old).tells → (rs : List Image) (r : Image) (written : List ℕ)
            → KeepsJournal self.old (D.view disk.old) rs r written → ReadsAfter self.old.chain.due self.old.chain.current rs r (D.view disk.new).seen) }
        ensures any_moment { IsTrue (D.view disk.old).tells → (rs : List Image) (r : Image) (written : List ℕ) → KeepsJournal self.old (D.view disk.old) rs r written
            → LeavesOnly (D.view disk.old) (D.view disk.new) (Among (D.view disk.old).may_leave (IsLeftIn self.old.chain.due self.old.chain.current rs r)) }
        ensures failed { OnErr result (Rose (D.view disk.old).faults (D.view disk.new).faults) }
        ensures counts { OnOk result ((D.view disk.new).faults ≡ (D.view disk.old).faults) }
        ensures steady { Steady (D.view disk.old) (D.view disk.new) }
    {
        // spent, unless the call answers
        self.state = JournalState::Spent;
        let at = self.chain.due();
        let next = self.chain.append_call(disk, self.record.as_slice(), at)?;
        if let Step::Done = next {
            keep_record(&mut self.kept, self.record.as_slice());
            self.state = JournalState::Resting;
            return Ok(next);
        }
        self.state = JournalState::Appending;
        Ok(next)
    }

    // Makes all disk calls of the record that was prepared, one after another.
    pub(crate) fn write_all<D: Disk>(&mut self, disk: &mut D) -> Result<(), Failed>
        requires whole { self.old.state ≡ JournalState.Appending }
        requires begun { self.old.chain.due ≡ Step.Piece 0 }
        requires fits { FitsWriting self.old (D.view disk.old) }
        ensures whole { OnOk result (self.new.state ≡ JournalState.Resting) }
        ensures same { self.new.output ≡ self.old.output }
        ensures took { OnOk result (TakesRecord self.old self.new) }
        ensures holds { OnOk result (IsTrue (D.view disk.old).tells → (rs : List Image) (r : Image) (written : List ℕ)
            → KeepsJournal self.old (D.view disk.old) rs r written → HoldsJournal self.new (D.view disk.new) (rs ++ r ∷ []) written) }
        ensures any_moment { IsTrue (D.view disk.old).tells → (rs : List Image) (r : Image) (written : List ℕ) → KeepsJournal self.old (D.view disk.old) rs r written
            → LeavesOnly (D.view disk.old) (D.view disk.new) (Among (D.view disk.old).may_leave (IsAppended self.old.chain.current rs r)) }
        ensures failed { OnErr result (Rose (D.view disk.old).faults (D.view disk.new).faults) }
        ensures counts { OnOk result ((D.view disk.new).faults ≡ (D.view disk.old).faults) }
        ensures steady { Steady (D.view disk.old) (D.view disk.new) }
    {
        'calls: loop {
            let next = self.write_call(disk)?;
            if let Step::Done = next {
                return Ok(());
            }
        }
    }
}
