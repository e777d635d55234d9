//! How a life begins.
ghost use Rattle.std.specs.Prelude.{◌≡◌, ◌≤◌, ℕ, true, false, [], length, take, None, Ok, IsTrue, IfOk, OnOk, OnErr};
ghost use Rattle.ckpt_base.specs.Faults.{Rose};
ghost use Rattle.disk_model.specs.Store.{Store};
ghost use Rattle.disk_model.specs.View.{Steady};
ghost use Rattle.image_chain.specs.Memory.{kept_word};
ghost use Rattle.image_chain.specs.Records.{chain_in};
ghost use Rattle.run_images.specs.Compiled.{cells_in};
ghost use Rattle.run_images.specs.Origin.{Origin};
ghost use Rattle.ckpt_runner.specs.LifeView.{is_idle};
ghost use Rattle.ckpt_runner.specs.Lives.{Lives};
ghost use Rattle.ckpt_runner.specs.Keeps.{Kept};
ghost use Rattle.ckpt_runner.specs.NewMemory.{IsNewMemory};
ghost use Rattle.ckpt_runner.specs.Opening.{Opens, StartsAt, IsGiven, ticks_at};
ghost use Rattle.ckpt_runner.specs.Arguments.{given_as};
ghost use Rattle.ckpt_runner.specs.Standing.{KeepsImages, OpensGood, OpensStanding};

use crate::life::Life;
use crate::progress::Progress;
use crate::rooms::{Given, Rooms};
use crate::started::Started;
use ckpt_base::Failed;
use compiled_program::Compiled;
use disk_model::Disk;
use life_journal::Journal;
use page_frames::Frames;
use run_images::begun_lives_are_of_their_source;

/// Begins a life on a store in which no file is current and after no crash is there one. The rooms keep nothing.
pub(crate) fn begin<'a, D: Disk>(
    rooms: Rooms,
    given: Given<'a>,
    disk: &mut D,
) -> Result<Life<'a>, Failed>
    requires every { 1 ≤ given.how.every }
    requires least { 2 ≤ given.how.max }
    requires most { given.how.max ≤ 64 }
    requires short { length given.input.now ≤ 16777216 }
    requires memory { IsNewMemory given.compiled.now given.how.fill rooms.memory.machine rooms.memory.frames rooms.memory.copies rooms.memory.pages }
    requires empty { (c : ℕ) → kept_word rooms.journal.kept c ≡ None }
    requires none { IsTrue (D.view disk.old).tells → (c : Store) → (D.view disk.old).may_leave c → chain_in c ≡ Ok None }
    ensures opens { IfOk result (λ life. IsTrue (D.view disk.old).tells
        → (o : Origin) × Opens (given_as given.entry) (D.view disk.old).seen life.started o × Lives o [] life × Kept o [] life (D.view disk.new)) }
    ensures lives { IfOk result (λ life. (o : Origin) × StartsAt (given_as given.entry) life.started o × Lives o [] life) }
    ensures given { IfOk result (λ life. IsGiven (given_as given.entry) life × (life.pace ≡ given.entry.how.pace.now)) }
    ensures ticks { IfOk result (λ life. life.machine.state.ticks ≡ ticks_at life.started) }
    ensures live { IfOk result (λ life. (life.machine.live ≡ true) × (life.failed ≡ false) × (life.finished ≡ false) × (is_idle life.writer ≡ true)) }
    ensures good { IfOk result (λ life. OpensGood (given_as given.entry) life (D.view disk.old) (D.view disk.new)) }
    ensures moments { OpensStanding (D.view disk.old) (D.view disk.new) }
    ensures later { KeepsImages (D.view disk.old) (D.view disk.new) }
    ensures failed { OnErr result (Rose (D.view disk.old).faults (D.view disk.new).faults) }
    ensures counts { OnOk result ((D.view disk.new).faults ≡ (D.view disk.old).faults) }
    ensures steady { Steady (D.view disk.old) (D.view disk.new) }
{
    begun_lives_are_of_their_source();
    let Rooms {
        mut memory,
        journal: rooms,
        runs,
    } = rooms;
    load_first_words(given.compiled, &mut memory.frames);
    let journal = Journal::begin(rooms, disk, given.how.every, given.how.max)?;
    Ok(Life {
        compiled: given.compiled,
        marks: given.marks,
        input: given.input,
        pace: given.how.pace,
        memory,
        progress: Progress::at_first(),
        journal,
        runs,
        started: Started::Begun,
        failed: false,
        finished: false,
    })
}

// Writes the words with which the program starts.
fn load_first_words(compiled: &Compiled, frames: &mut Frames)
    requires room { cells_in compiled.now ≤ length frames.old }
    ensures words { take (cells_in compiled.now) frames.new ≡ compiled.now.words }
    ensures size { length frames.new ≡ length frames.old }
{
    let words = compiled.words();
    for c in 0..compiled.cells() {
        frames.set_word(c, words[c as usize]);
    }
}
