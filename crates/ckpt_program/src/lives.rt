//! The commands `run` and `restart`.

ghost use Rattle.std.specs.Prelude.{◌≤◌, length, IfOk, OnOk};
ghost use Rattle.command_words.specs.Words.{InRange};
ghost use Rattle.disk_model.specs.Plate.{plate};
ghost use Rattle.ckpt_runner.specs.Standing.{IsGivenSource, KeepsImages};
ghost use Rattle.ckpt_program.specs.Sight.{sight, Calm};
ghost use Rattle.ckpt_program.specs.Stage.{Comes};
ghost use Rattle.ckpt_program.specs.DiskStages.{CalmDisk};
ghost use Rattle.ckpt_program.specs.LifeStages.{given_with, KeepsRefused, OutputLasts};
ghost use Rattle.ckpt_program.specs.LifeRow as row;
ghost use Rattle.ckpt_program.specs.Headline.{IsSourceIn, IsSourceOf, StandThroughout, ToldAsSource};

use crate::disk_stages::enter_store;
use crate::done::Done;
use crate::life_stages::{Asked, compile_program, live_in_store, tell_life};
use crate::stages::{accept_text, file};
use crate::stop::{Document, Stop};
use c_tree::Checked;
use ckpt_base::{Bytes, Shelf, Text};
use compiled_program::Compiled;
use disk_model::Disk;
use image_format::Marks;
use life_lines::ROOM;
use run_marks::marks_of;
use sqlite_items::Boxed;
use std::alloc::Global;

/// What a life is to run.
#[derive(Drop)]
pub struct Job {
    /// The text of the source.
    pub text: Bytes,
    /// Its program.
    pub program: Boxed<Checked>,
    /// The input.
    pub input: Bytes,
}

/// Lives a source on an input in a store: begins there, or goes on from the newest image, as is asked.
pub fn live_job<H: Shelf, D: Disk>(
    alloc: Global,
    shelf: &mut H,
    disk: &mut D,
    source_name: &Text,
    input_name: &Text,
    dir: &Text,
    asked: Asked,
) -> Result<Done, Stop>
    requires ranges { InRange asked.settings }
    ensures answer { Comes (row.Lives source_name.now input_name.now asked (sight (H.view shelf.old)) (sight (H.view shelf.new)) (plate (D.view disk.old)) (plate (D.view disk.new))) result }
    ensures calm { Calm result (sight (H.view shelf.old)) (sight (H.view shelf.new)) }
    ensures count { CalmDisk result (D.view disk.old).faults (D.view disk.new).faults }
    ensures keeps { KeepsRefused result (D.view disk.old) (D.view disk.new) }
    ensures lasting { OnOk result (OutputLasts (D.view disk.new)) }
    ensures moments { StandThroughout (IsSourceIn source_name.now input_name.now (sight (H.view shelf.old))) (D.view disk.old) (D.view disk.new) }
    ensures later { KeepsImages (D.view disk.old) (D.view disk.new) }
    ensures told { IfOk result (λ d. ToldAsSource (IsSourceIn source_name.now input_name.now (sight (H.view shelf.old))) asked (D.view disk.old) d (D.view disk.new)) }
{
    let job = read_job(alloc, shelf, source_name, input_name)?;
    live_with(alloc, disk, &job, dir, asked)
}

/// Reads what is to be run.
pub fn read_job<H: Shelf>(
    alloc: Global,
    shelf: &mut H,
    source_name: &Text,
    input_name: &Text,
) -> Result<Job, Stop>
    ensures answer { Comes (row.ReadsJob source_name.now input_name.now (sight (H.view shelf.old)) (sight (H.view shelf.new))) result }
    ensures calm { Calm result (sight (H.view shelf.old)) (sight (H.view shelf.new)) }
{
    let text = file(alloc, shelf, Document::Source, source_name)?;
    read_accepted(alloc, shelf, text, input_name)
}

// .. once its text is read.
fn read_accepted<H: Shelf>(
    alloc: Global,
    shelf: &mut H,
    text: Bytes,
    input_name: &Text,
) -> Result<Job, Stop>
    ensures answer { Comes (row.ReadsProgram text input_name.now (sight (H.view shelf.old)) (sight (H.view shelf.new))) result }
    ensures calm { Calm result (sight (H.view shelf.old)) (sight (H.view shelf.new)) }
{
    let program = accept_text(alloc, text.as_slice())?;
    read_input(alloc, shelf, text, program, input_name)
}

// .. and once its program is accepted.
fn read_input<H: Shelf>(
    alloc: Global,
    shelf: &mut H,
    text: Bytes,
    program: Boxed<Checked>,
    input_name: &Text,
) -> Result<Job, Stop>
    ensures answer { Comes (row.ReadsInput text program input_name.now (sight (H.view shelf.old)) (sight (H.view shelf.new))) result }
    ensures calm { Calm result (sight (H.view shelf.old)) (sight (H.view shelf.new)) }
{
    let input = file(alloc, shelf, Document::Input, input_name)?;
    Ok(Job {
        text,
        program,
        input,
    })
}

// Lives a job that was read.
fn live_with<D: Disk>(
    alloc: Global,
    disk: &mut D,
    job: &Job,
    dir: &Text,
    asked: Asked,
) -> Result<Done, Stop>
    requires ranges { InRange asked.settings }
    requires short { length job.now.input.list ≤ 16777216 }
    ensures answer { Comes (row.OfJob asked job.now (plate (D.view disk.old)) (plate (D.view disk.new))) result }
    ensures count { CalmDisk result (D.view disk.old).faults (D.view disk.new).faults }
    ensures keeps { KeepsRefused result (D.view disk.old) (D.view disk.new) }
    ensures lasting { OnOk result (OutputLasts (D.view disk.new)) }
    ensures moments { StandThroughout (IsSourceOf job.now) (D.view disk.old) (D.view disk.new) }
    ensures later { KeepsImages (D.view disk.old) (D.view disk.new) }
    ensures told { IfOk result (λ d. ToldAsSource (IsSourceOf job.now) asked (D.view disk.old) d (D.view disk.new)) }
{
    let compiled = compile_program(alloc, &job.program)?;
    let input = job.input.as_slice();
    let marks = marks_of(job.text.as_slice(), input);
    live_compiled(alloc, disk, &compiled, &marks, input, dir, asked)
}

// Lives a compiled program in a store.
fn live_compiled<D: Disk>(
    alloc: Global,
    disk: &mut D,
    compiled: &Compiled,
    marks: &Marks,
    input: &[u8],
    dir: &Text,
    asked: Asked,
) -> Result<Done, Stop>
    requires ranges { InRange asked.settings }
    requires short { length input.now ≤ 16777216 }
    ensures answer { Comes (row.InStore (given_with compiled.now marks.now input.now asked) (plate (D.view disk.old)) (plate (D.view disk.new))) result }
    ensures count { CalmDisk result (D.view disk.old).faults (D.view disk.new).faults }
    ensures keeps { KeepsRefused result (D.view disk.old) (D.view disk.new) }
    ensures lasting { OnOk result (OutputLasts (D.view disk.new)) }
    ensures moments { StandThroughout (IsGivenSource (given_with compiled.now marks.now input.now asked)) (D.view disk.old) (D.view disk.new) }
    ensures later { KeepsImages (D.view disk.old) (D.view disk.new) }
    ensures told { IfOk result (λ d. ToldAsSource (IsGivenSource (given_with compiled.now marks.now input.now asked)) asked (D.view disk.old) d (D.view disk.new)) }
{
    let room = Bytes::with_room(alloc, ROOM)?;
    enter_store(disk, dir)?;
    let lived = live_in_store(alloc, disk, compiled, marks, input, asked)?;
    Ok(tell_life(room, &lived))
}
