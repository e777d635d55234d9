//! How a life goes on from the newest image of a store.
ghost use Rattle.std.specs.Prelude.{◌≡◌, ◌≢◌, ◌≤◌, ℕ, true, false, List, [], length, slice_index, Some, Contains, IsTrue, IfOk, IfErr, OnOk};
ghost use Rattle.std.specs.Option.{unwrap_or};
ghost use Rattle.disk_model.specs.Store.{Store};
ghost use Rattle.disk_model.specs.View.{Steady};
ghost use Rattle.dirty_pages.specs.Pages.{protected};
ghost use Rattle.image_format.specs.Image.{Image, AreFields};
ghost use Rattle.image_chain.specs.Append.{Keeps};
ghost use Rattle.image_chain.specs.Lists.{Lists, Rests};
ghost use Rattle.image_chain.specs.Looking.{OnlyLooked};
ghost use Rattle.image_chain.specs.Memory.{kept_word};
ghost use Rattle.coalesce.specs.Join.{IsContent};
ghost use Rattle.machine_code.specs.State.{standing};
ghost use Rattle.machine_code.specs.Valid.{has_checkpoint};
ghost use Rattle.paged_machine.specs.Standing.{StandsIn};
ghost use Rattle.run_images.specs.Compiled.{cells_in};
ghost use Rattle.run_images.specs.Images.{since_behind};
ghost use Rattle.run_images.specs.Origin.{Origin};
ghost use Rattle.ckpt_runner.specs.LifeView.{is_idle};
ghost use Rattle.ckpt_runner.specs.Lives.{Lives, progress_in};
ghost use Rattle.ckpt_runner.specs.Keeps.{Kept};
ghost use Rattle.ckpt_runner.specs.NewMemory.{IsNewMemory};
ghost use Rattle.ckpt_runner.specs.Opening.{Opens, StartsAt, IsGiven, Restarts, Refuses, Leaves, ticks_at};
ghost use Rattle.ckpt_runner.specs.Arguments.{given_as};
ghost use Rattle.ckpt_runner.specs.Standing.{KeepsImages, OpensGood, OpensStanding};

use crate::how::Mode;
use crate::life::Life;
use crate::memory::Memory;
use crate::progress::Progress;
use crate::rooms::{Given, Rooms};
use crate::started::{OpenFault, Started};
use compiled_program::Compiled;
use disk_model::{Disk, DiskFile};
use image_chain::{Chain, Kept as JoinedContent, Step};
use image_format::Fields;
use life_journal::Journal;
use page_frames::Frames;
use recovery::{Shape, recover};
use run_images::{
    newest_images_need_most, resumed_lives_are_of_their_source, resumed_lives_hold_their_records,
};

/// Goes on from the newest image of a chain that was opened, whose joined content the rooms keep.
///
/// The refusals come in the order of `OpenFault`, and those behind `Failed` before any change of the disk.
pub(crate) fn resume<'a, D: Disk>(
    rooms: Rooms,
    chain: Chain,
    given: Given<'a>,
    disk: &mut D,
) -> Result<Life<'a>, OpenFault>
    requires memory { IsNewMemory given.compiled.now given.how.fill rooms.memory.machine rooms.memory.frames rooms.memory.copies rooms.memory.pages }
    requires short { length given.input.now ≤ 16777216 }
    requires rest { chain.due ≡ Step.Piece 0 }
    requires some { 1 ≤ chain.current.count }
    requires rests { IsTrue (D.view disk.old).tells → (rs : List Image) × Rests chain (D.view disk.old) rs × IsContent rooms.journal.kept rs }
    ensures opens { IfOk result (λ life. IsTrue (D.view disk.old).tells
        → (o : Origin) × Opens (given_as given.entry) (D.view disk.old).seen life.started o × Lives o [] life × Kept o [] life (D.view disk.new)) }
    ensures lives { IfOk result (λ life. (o : Origin) × StartsAt (given_as given.entry) life.started o × Lives o [] life) }
    ensures given { IfOk result (λ life. IsGiven (given_as given.entry) life × (life.pace ≡ given.entry.how.pace.now)) }
    ensures ticks { IfOk result (λ life. life.machine.state.ticks ≡ ticks_at life.started) }
    ensures live { IfOk result (λ life. (life.machine.live ≡ true) × (life.failed ≡ false) × (life.finished ≡ false) × (is_idle life.writer ≡ true)) }
    ensures good { IfOk result (λ life. OpensGood (given_as given.entry) life (D.view disk.old) (D.view disk.new)) }
    ensures moments { OpensStanding (D.view disk.old) (D.view disk.new) }
    ensures later { KeepsImages (D.view disk.old) (D.view disk.new) }
    ensures err { IfErr result (λ e. IsTrue (D.view disk.old).tells → Refuses e (given_as given.entry) (D.view disk.old).seen) }
    ensures found { IfErr result (λ e. e ≢ OpenFault.Memory) }
    ensures leaves { IfErr result (λ e. Leaves e (D.view disk.old) (D.view disk.new)) }
    ensures counts { OnOk result ((D.view disk.new).faults ≡ (D.view disk.old).faults) }
    ensures steady { Steady (D.view disk.old) (D.view disk.new) }
{
    newest_images_need_most();
    resumed_lives_are_of_their_source();
    resumed_lives_hold_their_records();
    let Rooms {
        mut memory,
        journal: parts,
        runs,
    } = rooms;
    let newest = recovered(&chain, &parts.kept, &given, &mut memory.frames, disk)?;
    let journal = Journal::resume(parts, chain, disk, newest.output_length)?;
    stand_behind(&mut memory, given.compiled, &newest);
    Ok(Life {
        compiled: given.compiled,
        marks: given.marks,
        input: given.input,
        pace: given.how.pace,
        memory,
        progress: progress_behind(&newest),
        journal,
        runs,
        started: Started::Resumed {
            image: newest.number,
            step: newest.steps,
        },
        failed: false,
        finished: false,
    })
}

// Puts the words that the chain lists into the frames, and answers what its newest record says.
fn recovered<D: Disk>(
    chain: &Chain,
    kept: &JoinedContent,
    given: &Given<'_>,
    frames: &mut Frames,
    disk: &mut D,
) -> Result<Fields, OpenFault>
    requires some { 1 ≤ chain.now.current.count }
    requires room { cells_in given.now.compiled.now ≤ length frames.old }
    requires rests { IsTrue (D.view disk.old).tells → (rs : List Image) × Rests chain.now (D.view disk.old) rs × IsContent kept.now rs }
    ensures newest { IfOk result (λ newest. (chain.now.current.newest ≡ Some newest) × AreFields newest) }
    ensures restarts { IfOk result (λ newest. Restarts (given_as given.now) kept.now newest) }
    ensures written { IfOk result (λ newest. IsTrue (D.view disk.old).tells → newest.output_length ≤ length (D.view disk.old).seen.output) }
    ensures words { OnOk result ((c : ℕ) → slice_index frames.new c ≡ unwrap_or (kept_word kept.now c) (slice_index frames.old c)) }
    ensures size { length frames.new ≡ length frames.old }
    ensures err { IfErr result (λ e. IsTrue (D.view disk.old).tells → Refuses e (given_as given.now) (D.view disk.old).seen) }
    ensures found { IfErr result (λ e. e ≢ OpenFault.Memory) }
    ensures leaves { IfErr result (λ e. Leaves e (D.view disk.old) (D.view disk.new)) }
    ensures looked { OnlyLooked (D.view disk.old) (D.view disk.new) }
    ensures counts { OnOk result ((D.view disk.new).faults ≡ (D.view disk.old).faults) }
{
    chain.tells(disk);
    let newest = chain.newest().unwrap();
    match given.how.mode {
        Mode::Run => {
            return Err(OpenFault::Occupied {
                image: newest.number,
                step: newest.steps,
            });
        }
        Mode::Restart => {}
    }
    let written = disk.length(DiskFile::Output)?;
    let loaded = load_newest(chain, kept, given, written, frames)?;
    Ok(loaded)
}

// Puts the words that the chain lists into the frames, unless it does not fit what was given and an output of so many bytes.
fn load_newest(
    chain: &Chain,
    kept: &JoinedContent,
    given: &Given<'_>,
    written: u64,
    frames: &mut Frames,
) -> Result<Fields, OpenFault>
    requires some { 1 ≤ chain.now.current.count }
    requires room { cells_in given.now.compiled.now ≤ length frames.old }
    requires mode { given.now.how.mode ≡ Mode.Restart }
    ensures newest { IfOk result (λ newest. chain.now.current.newest ≡ Some newest) }
    ensures restarts { IfOk result (λ newest. Restarts (given_as given.now) kept.now newest) }
    ensures written { IfOk result (λ newest. newest.output_length ≤ written) }
    ensures words { OnOk result ((c : ℕ) → slice_index frames.new c ≡ unwrap_or (kept_word kept.now c) (slice_index frames.old c)) }
    ensures size { length frames.new ≡ length frames.old }
    ensures err { IfErr result (λ e. (rs : List Image) (c : Store) → Keeps chain.now.current rs → Lists chain.now.current rs c → IsContent kept.now rs
        → length c.output ≡ written → Refuses e (given_as given.now) c) }
    ensures kind { IfErr result (λ e. (e ≢ OpenFault.Memory) × (e ≢ OpenFault.Failed)) }
{
    let shape = Shape {
        cells: given.compiled.cells(),
        checkpoints: given.compiled.checkpoints(),
        excludes: given.compiled.excludes(),
        input_length: given.input.len() as u64,
        output_length: written,
    };
    let newest = recover(chain, kept, &shape, &given.marks, frames)?;
    if given.how.until < newest.steps {
        return Err(OpenFault::Behind {
            bound: given.how.until,
            step: newest.steps,
        });
    }
    Ok(newest)
}

// Lets the machine stand behind the checkpoint that a record names, and protects all pages.
fn stand_behind(memory: &mut Memory, compiled: &Compiled, newest: &Fields)
    requires stands { StandsIn compiled.now.code memory.old.machine }
    requires node { Contains compiled.now.checkpoints newest.now.node }
    ensures state { (q : ℕ) × (has_checkpoint compiled.now.code newest.now.node q ≡ true) × (memory.new.machine.state ≡ standing q newest.now.steps) }
    ensures live { memory.new.machine.live ≡ true }
    ensures stands { StandsIn compiled.now.code memory.new.machine }
    ensures frames { memory.new.frames ≡ memory.old.frames }
    ensures copies { memory.new.copies ≡ memory.old.copies }
    ensures pages { memory.new.pages ≡ protected memory.old.pages }
{
    memory
        .machine
        .resume(compiled.code(), newest.node, newest.steps);
    memory.pages.protect_all();
}

// What an image leaves for the next one.
fn progress_behind(newest: &Fields) -> Progress
    ensures answer { result ≡ progress_in (since_behind newest.now) }
{
    Progress {
        number: newest.number,
        newest_tick: newest.steps,
        directive: newest.directive,
        included: true,
        input_place: newest.input_place,
    }
}
