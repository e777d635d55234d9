//! The record of an image, written and kept.
ghost use Rattle.std.specs.Prelude.{◌≡◌, ◌+◌, ◌<◌, ◌≤◌, ◌++◌, ◌∷◌, [], List, ℕ, length, Some, None, IsTrue, OnOk, OnErr};
ghost use Rattle.std.specs.Option.{option_or};
ghost use Rattle.ckpt_base.specs.Faults.{Rose};
ghost use Rattle.disk_model.specs.View.{Steady};
ghost use Rattle.disk_model.specs.Moments.{Among, LeavesOnly};
ghost use Rattle.image_format.specs.Image.{Image, InRange, IsImage, word_in_runs};
ghost use Rattle.image_format.specs.Written.{AreListed, HasCells, image_of, filled, listed_word};
ghost use Rattle.image_chain.specs.Append.{Spells};
ghost use Rattle.image_chain.specs.Lists.{IsAppended};
ghost use Rattle.image_chain.specs.Memory.{kept_word};
ghost use Rattle.image_chain.specs.Records.{broken_field};
ghost use Rattle.life_journal.specs.Holding.{HoldsJournal, FitsDisk};
ghost use Rattle.life_journal.specs.Recorded.{HasOneMore};

use crate::journal::{Journal, JournalState};
use cell_sets::Run;
use ckpt_base::{Bytes, Failed};
use disk_model::Disk;
use image_chain::Kept;
use image_format::{Fields, read_record, write_record};
use page_frames::Frames;

impl Journal {
    /// Writes the record of the image that lists the cells of the runs with their words, behind the records so far, among which there is room for it.
    ///
    /// What the record says follows what the newest one says. At each moment a crash leaves the old records, or those and the new one; after `Ok` the
    /// new list for good. After `Failed` the journal is spent.
    pub fn save<D: Disk>(
        &mut self,
        disk: &mut D,
        fields: &Fields,
        runs: &[Run],
        frames: &Frames,
    ) -> Result<(), Failed>
        requires whole { self.old.state ≡ JournalState.Resting }
        requires fits { FitsDisk self.old (D.view disk.old) }
        requires room { self.old.chain.current.count < self.old.chain.current.max }
        requires follows { broken_field self.old.chain.current.newest fields.now ≡ None }
        requires ranges { InRange fields.now }
        requires rising { AreListed runs.now }
        requires cells { HasCells frames.now runs.now }
        ensures whole { OnOk result (self.new.state ≡ JournalState.Resting) }
        ensures same { self.new.output ≡ self.old.output }
        ensures took { OnOk result (HasOneMore self.old.chain.current self.new.chain.current fields.now) }
        ensures image { IsImage (image_of fields.now runs.now frames.now) }
        ensures words { (c : ℕ) → word_in_runs (filled frames.now runs.now) c ≡ listed_word runs.now frames.now c }
        ensures holds { OnOk result (IsTrue (D.view disk.old).tells → (rs : List Image) (written : List ℕ) → HoldsJournal self.old (D.view disk.old) rs written
            → HoldsJournal self.new (D.view disk.new) (rs ++ image_of fields.now runs.now frames.now ∷ []) written) }
        ensures any_moment { IsTrue (D.view disk.old).tells → (rs : List Image) (written : List ℕ) → HoldsJournal self.old (D.view disk.old) rs written
            → LeavesOnly (D.view disk.old) (D.view disk.new) (Among (D.view disk.old).may_leave (IsAppended self.old.chain.current rs (image_of fields.now runs.now frames.now))) }
        ensures failed { OnErr result (Rose (D.view disk.old).faults (D.view disk.new).faults) }
        ensures counts { OnOk result ((D.view disk.new).faults ≡ (D.view disk.old).faults) }
        ensures steady { Steady (D.view disk.old) (D.view disk.new) }
    {
        self.prepare(disk, fields, runs, frames);
        self.write_all(disk)?;
        Ok(())
    }
}

// Makes the record of an image.
pub(crate) fn make_record(record: &mut Bytes, fields: &Fields, runs: &[Run], frames: &Frames)
    requires room { 2097269 ≤ record.old.spare + length record.old.list }
    requires ranges { InRange fields.now }
    requires rising { AreListed runs.now }
    requires cells { HasCells frames.now runs.now }
    ensures spelled { Spells (image_of fields.now runs.now frames.now) record.new.list }
    ensures room { 2097269 ≤ record.new.spare + length record.new.list }
    ensures words { (c : ℕ) → word_in_runs (filled frames.now runs.now) c ≡ listed_word runs.now frames.now c }
{
    record.clear();
    write_record(fields, runs, frames, record);
}

// Keeps what a record lists.
pub(crate) fn keep_record(kept: &mut Kept, record: &[u8])
    ensures { (r : Image) → Spells r record.now → (c : ℕ) → kept_word kept.new c ≡ option_or (word_in_runs r.runs c) (kept_word kept.old c) }
{
    match read_record(record) {
        Ok(view) => kept.add(&view),
        Err(_) => {}
    }
}
