//! The stages of a command that lives.

ghost use Rattle.std.specs.Prelude.{◌≡◌, ◌≤◌, ◌+◌, ◌++◌, [], length, IfOk, OnOk};
ghost use Rattle.disk_model.specs.Plate.{plate};
ghost use Rattle.command_words.specs.Words.{InRange};
ghost use Rattle.ckpt_runner.specs.Standing.{KeepsImages};
ghost use Rattle.one_life.specs.AsSource.{LivesAsSource, LivesStanding};
ghost use Rattle.ckpt_program.specs.Stage.{Comes};
ghost use Rattle.ckpt_program.specs.DiskStages.{CalmDisk};
ghost use Rattle.ckpt_program.specs.LifeStages.{given_with, Compiles, KeepsRefused, LivedIn, OutputLasts, TellsLife, start_line};

use crate::done::{Done, Told};
use crate::stop::{Cause, Stop};
use c_tree::Checked;
use ckpt_base::Bytes;
use ckpt_runner::{How, Mode, OpenFault, Started};
use command_words::Settings;
use compiled_program::Compiled;
use disk_model::Disk;
use image_format::Marks;
use life_lines::{add_begun, add_ending, add_resumed};
use one_life::{Lived, live};
use sqlite_items::Boxed;
use std::alloc::Global;

/// All calls for an image are made at once.
pub const PACE: &[u32] = &[0];

/// How a command asks for a life.
#[derive(Clone, Copy)]
pub struct Asked {
    /// Whether the store may hold a chain.
    pub mode: Mode,
    /// How the life is run.
    pub settings: Settings,
    /// The byte that memory holds which no image lists.
    pub fill: u8,
}

/// Compiles a program.
#[tactic(auto, unfolding(crate::specs::LifeStages::IsCodeOf))]
pub fn compile_program(alloc: Global, program: &Boxed<Checked>) -> Result<Compiled, Stop>
    ensures answer { Comes (Compiles program.now) result }
{
    Ok(Compiled::of(alloc, program.get())?)
}

/// Lives in a store, until the program ends, traps or has taken as many steps as it may.
pub fn live_in_store<D: Disk>(
    alloc: Global,
    disk: &mut D,
    compiled: &Compiled,
    marks: &Marks,
    input: &[u8],
    asked: Asked,
) -> Result<Lived, Stop>
    requires ranges { InRange asked.settings }
    requires short { length input.now ≤ 16777216 }
    ensures answer { Comes (LivedIn (given_with compiled.now marks.now input.now asked) (plate (D.view disk.old)) (plate (D.view disk.new))) result }
    ensures count { CalmDisk result (D.view disk.old).faults (D.view disk.new).faults }
    ensures keeps { KeepsRefused result (D.view disk.old) (D.view disk.new) }
    ensures lasting { OnOk result (OutputLasts (D.view disk.new)) }
    ensures moments { LivesStanding (given_with compiled.now marks.now input.now asked) (D.view disk.old) (D.view disk.new) }
    ensures later { KeepsImages (D.view disk.old) (D.view disk.new) }
    ensures as_source { IfOk result (λ l. LivesAsSource (given_with compiled.now marks.now input.now asked) (D.view disk.old) l (D.view disk.new)) }
{
    let how = How {
        mode: asked.mode,
        until: asked.settings.until,
        every: asked.settings.every,
        max: asked.settings.max,
        fill: asked.fill,
        pace: PACE,
    };
    Ok(live(alloc, compiled, marks, input, disk, how)?)
}

/// Tells how a life started and ended.
#[tactic(auto, unfolding(crate::specs::LifeStages::TellsLife))]
pub fn tell_life(room: Bytes, lived: &Lived) -> Done
    requires empty { room.list ≡ [] }
    requires room { 256 ≤ room.spare }
    ensures answer { TellsLife lived.now result }
{
    let mut text = room;
    add_start(&mut text, lived.started);
    add_ending(&mut text, &lived.ending, lived.steps);
    Done::Told(Told {
        ending: lived.ending,
        text,
    })
}

// Appends the line on how a life started.
fn add_start(text: &mut Bytes, started: Started)
    requires room { 128 ≤ text.old.spare }
    ensures list { text.new.list ≡ text.old.list ++ start_line started }
    ensures spare { text.old.spare ≤ text.new.spare + 101 }
{
    match started {
        Started::Begun => add_begun(text),
        Started::Resumed { image, step } => add_resumed(text, image, step),
    }
}

impl From<OpenFault> for Stop {
    ghost use Rattle.ckpt_program.specs.LifeStages.{stop_of_opening};

    ghost from_gives = { λ f e. e ≡ stop_of_opening f };

    fn from(fault: OpenFault) -> Stop {
        let cause = match fault {
            OpenFault::Memory => return Stop::NoMemory,
            OpenFault::Failed => Cause::DiskFault,
            OpenFault::Damaged { file, place } => Cause::Damaged { file, place },
            OpenFault::Occupied { image, step } => Cause::Occupied { image, step },
            OpenFault::OtherSource { kept, given } => Cause::OtherSource { kept, given },
            OpenFault::OtherInput { kept, given } => Cause::OtherInput { kept, given },
            OpenFault::Behind { bound, step } => Cause::Behind { bound, step },
        };
        Stop::Because(cause)
    }
}
