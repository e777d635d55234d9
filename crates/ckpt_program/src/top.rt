//! The whole program.

ghost use Rattle.std.specs.Prelude.{◌≡◌, ◌<◌, length, Some, OnOk};
ghost use Rattle.disk_model.specs.View.{Steady};
ghost use Rattle.disk_model.specs.Plate.{plate};
ghost use Rattle.command_words.specs.Words.{command_of, HasPlaces, HasRanges};
ghost use Rattle.ckpt_program.specs.Sight.{sight, Calm, Later};
ghost use Rattle.ckpt_program.specs.Stage.{Comes};
ghost use Rattle.ckpt_program.specs.DiskStages.{CalmDisk, Stays};
ghost use Rattle.ckpt_program.specs.LifeStages.{KeepsRefused, OutputLasts};
ghost use Rattle.ckpt_program.specs.Carries.{word_at, Carries, CarriesSome};
ghost use Rattle.ckpt_program.specs.Headline.{EndsAsSource, PutsInOrder, SourceOf, StandThroughout, ToldBy};
ghost use Rattle.ckpt_program.specs.Drilled.{DrillsAsSource};
ghost use Rattle.ckpt_program.specs.Top.{Answers, Blames, IsQuiet, KeepsContents, AnyMoment, NoImageLost, LeavesContents, IsLife, LastsOutput, Complete};

use crate::check::check;
use crate::compile::compile;
use crate::done::Done;
use crate::drill::{drill_source, generate};
use crate::images::images;
use crate::life_stages::Asked;
use crate::lives::live_job;
use crate::plain::plain;
use crate::report::report;
use crate::stop::{Cause, Stop};
use crate::telling::tell;
use crate::upkeep::{clear, coalesce};
use crate::why::why;
use accepted_stores::standing_stores_are_accepted;
use ckpt_base::{Shelf, Sink, Text};
use ckpt_runner::Mode;
use command_words::{Command, read_words};
use disk_model::Disk;
use std::alloc::Global;

/// Does all that the program does: carries out the command that the words are, over the files of the shelf, and tells the
/// outcome on the console, which is written once, when it is over. Answers the status with which the program ends.
///
/// 0, 3 and 4 come by the ending of the run, and 0 for an accepted source, for its code, its excluded sets, the reason for a cell
/// and the records of a store; 1 exactly where the words are no command; 2 exactly where the source is refused; 5 only where the disk failed; 6 only
/// where the shelf failed or lacks a file; 7 only where the console failed while the text of 0, 3 or 4 was written; 8 exactly
/// where the store is damaged; 9 exactly where `restart` finds an image of another source or input; 10 exactly where `run` finds
/// a chain; 11 exactly where a file is longer than its limit; 12 where no memory is found; 13 exactly where the bound of
/// `restart` is below the newest image; 14 exactly where `why` asks for an EXCLUDE_HERE or a cell that an accepted source has not.
pub fn ckpt<H: Shelf, D: Disk, K: Sink>(
    alloc: Global,
    words: &Vec<Text>,
    shelf: &mut H,
    disk: &mut D,
    console: &mut K,
) -> u8
    ensures answer { Answers words.now.items (H.view shelf.old) (H.view shelf.new) (D.view disk.old) (D.view disk.new) (K.view console.old) (K.view console.new) result }
    ensures steady { Later (sight (H.view shelf.old)) (sight (H.view shelf.new)) × Steady (D.view disk.old) (D.view disk.new) }
    ensures ends_as_source { EndsAsSource words.now.items (command_of words.now.items) (sight (H.view shelf.old)) (D.view disk.old) (D.view disk.new) (K.view console.old) (K.view console.new) result }
    ensures any_moment { AnyMoment words.now.items (command_of words.now.items) (sight (H.view shelf.old)) (D.view disk.old) (D.view disk.new) }
    ensures no_image_lost { NoImageLost (command_of words.now.items) (D.view disk.old) (D.view disk.new) }
    ensures in_order { PutsInOrder (command_of words.now.items) (D.view disk.old) (D.view disk.new) (K.view console.old) (K.view console.new) result }
    ensures drills { DrillsAsSource words.now.items (command_of words.now.items) (sight (H.view shelf.old)) (K.view console.old) (K.view console.new) result }
    ensures untouched { LeavesContents (command_of words.now.items) result (D.view disk.old) (D.view disk.new) }
    ensures lasting { LastsOutput (command_of words.now.items) result (D.view disk.new) }
    ensures blamed { Blames 6 (H.view shelf.old).faults (H.view shelf.new).faults result }
    ensures blamed_disk { Blames 5 (D.view disk.old).faults (D.view disk.new).faults result }
    ensures complete { Complete words.now.items (command_of words.now.items) (H.view shelf.old) (H.view shelf.new) (D.view disk.old) (D.view disk.new) (K.view console.old) (K.view console.new) result }
{
    standing_stores_are_accepted();
    let came = come_to(alloc, words, shelf, disk);
    tell(alloc, console, &came)
}

// What the words come to.
fn come_to<H: Shelf, D: Disk>(
    alloc: Global,
    words: &Vec<Text>,
    shelf: &mut H,
    disk: &mut D,
) -> Result<Done, Stop>
    ensures answer { Comes (CarriesSome words.now.items (command_of words.now.items) (sight (H.view shelf.old)) (sight (H.view shelf.new)) (plate (D.view disk.old)) (plate (D.view disk.new))) result }
    ensures calm { Calm result (sight (H.view shelf.old)) (sight (H.view shelf.new)) }
    ensures keeps { KeepsRefused result (D.view disk.old) (D.view disk.new) }
    ensures lasting { IsLife (command_of words.now.items) → OnOk result (OutputLasts (D.view disk.new)) }
    ensures stays { KeepsContents (command_of words.now.items) → Stays (D.view disk.old) (D.view disk.new) }
    ensures quiet { IsQuiet (command_of words.now.items) → disk.new ≡ disk.old }
    ensures moments { StandThroughout (SourceOf words.now.items (command_of words.now.items) (sight (H.view shelf.old))) (D.view disk.old) (D.view disk.new) }
    ensures later { NoImageLost (command_of words.now.items) (D.view disk.old) (D.view disk.new) }
    ensures told { ToldBy words.now.items (command_of words.now.items) (sight (H.view shelf.old)) (D.view disk.old) result (D.view disk.new) }
    ensures count { CalmDisk result (D.view disk.old).faults (D.view disk.new).faults }
{
    match read_words(alloc, words)? {
        Some(command) => carry(alloc, words, command, shelf, disk),
        None => Err(Stop::Because(Cause::Usage)),
    }
}

// What a command comes to.
fn carry<H: Shelf, D: Disk>(
    alloc: Global,
    words: &[Text],
    command: Command,
    shelf: &mut H,
    disk: &mut D,
) -> Result<Done, Stop>
    requires places { HasPlaces command (length words.now) }
    requires ranges { HasRanges command }
    ensures answer { Comes (Carries words.now command (sight (H.view shelf.old)) (sight (H.view shelf.new)) (plate (D.view disk.old)) (plate (D.view disk.new))) result }
    ensures calm { Calm result (sight (H.view shelf.old)) (sight (H.view shelf.new)) }
    ensures keeps { KeepsRefused result (D.view disk.old) (D.view disk.new) }
    ensures lasting { IsLife (Some command) → OnOk result (OutputLasts (D.view disk.new)) }
    ensures stays { KeepsContents (Some command) → Stays (D.view disk.old) (D.view disk.new) }
    ensures quiet { IsQuiet (Some command) → disk.new ≡ disk.old }
    ensures moments { StandThroughout (SourceOf words.now (Some command) (sight (H.view shelf.old))) (D.view disk.old) (D.view disk.new) }
    ensures later { NoImageLost (Some command) (D.view disk.old) (D.view disk.new) }
    ensures told { ToldBy words.now (Some command) (sight (H.view shelf.old)) (D.view disk.old) result (D.view disk.new) }
    ensures count { CalmDisk result (D.view disk.old).faults (D.view disk.new).faults }
{
    match command {
        Command::Check { source } => check(alloc, shelf, word(words, source)),
        Command::Compile { source } => compile(alloc, shelf, word(words, source)),
        Command::Report { source } => report(alloc, shelf, word(words, source)),
        Command::Plain {
            source,
            input,
            until,
        } => plain(alloc, shelf, word(words, source), word(words, input), until),
        Command::Run {
            source,
            input,
            dir,
            settings,
        } => {
            let asked = Asked {
                mode: Mode::Run,
                settings,
                fill: 0,
            };
            live_job(
                alloc,
                shelf,
                disk,
                word(words, source),
                word(words, input),
                word(words, dir),
                asked,
            )
        }
        Command::Restart {
            source,
            input,
            dir,
            settings,
            fill,
        } => {
            let asked = Asked {
                mode: Mode::Restart,
                settings,
                fill,
            };
            live_job(
                alloc,
                shelf,
                disk,
                word(words, source),
                word(words, input),
                word(words, dir),
                asked,
            )
        }
        Command::Images { dir } => images(alloc, disk, word(words, dir)),
        Command::Coalesce { dir } => coalesce(alloc, disk, word(words, dir)),
        Command::Clear { dir } => clear(alloc, disk, word(words, dir)),
        Command::Why {
            source,
            exclude,
            cell,
        } => why(alloc, shelf, word(words, source), exclude, cell),
        Command::Drill {
            source,
            input,
            settings,
            fill,
            stops,
        } => {
            let asked = Asked {
                mode: Mode::Run,
                settings,
                fill,
            };
            drill_source(
                alloc,
                shelf,
                word(words, source),
                word(words, input),
                asked,
                stops.as_slice(),
            )
        }
        Command::Generate { functions } => generate(alloc, functions),
    }
}

// The word at a place.
fn word(words: &[Text], place: usize) -> &Text
    requires within { place < length words.now }
    ensures answer { result.now ≡ word_at words.now place }
{
    &words[place]
}
