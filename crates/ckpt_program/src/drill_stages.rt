//! The stages of a command that drills.

ghost use Rattle.std.specs.Prelude.{◌≡◌, ◌≤◌, ◌+◌, ◌++◌, ℕ, List, length, codes, string_bytes, IfOk, IfSome};
ghost use Rattle.std.specs.Fmt.{decimal};
ghost use Rattle.ckpt_base.specs.Run.{output};
ghost use Rattle.ckpt_base.specs.declared.ending.Ending.TheVariants.{Going};
ghost use Rattle.c_tree.specs.Meaning.{meaning};
ghost use Rattle.command_words.specs.Words.{InRange};
ghost use Rattle.ckpt_program.specs.Drill as spec;
ghost use Rattle.ckpt_program.specs.Drill.{Drills, StopsDrill, TellsDrill};
ghost use Rattle.ckpt_program.specs.LifeStages.{given_with};
ghost use Rattle.ckpt_program.specs.Stage.{Comes};
ghost use Rattle.drilled_lives.specs.Lines.{courses_lines};

use crate::done::{Done, Told};
use crate::life_stages::{Asked, PACE};
use crate::stop::{Cause, Document, Stop};
use c_tree::Checked;
use ckpt_base::{Bytes, Ending, NoMemory};
use ckpt_runner::How;
use code_maker::codes_mean_their_programs;
use command_words::Stop as LifeStop;
use compiled_program::Compiled;
use drilled_lives::{Course, DrillFault, Drilled, OUTPUT_ROOM, add_courses, drill};
use image_format::Marks;
use machine_code::{runs_pass_what_they_reach, runs_show_what_they_do};
use sqlite_items::Boxed;
use std::alloc::{AllocError, Global};
use std::fmt::Write;

/// Runs a program through a list of stops.
#[tactic(auto, unfolding(crate::specs::Drill::WasDrilled))]
pub fn drill_compiled(
    alloc: Global,
    program: &Boxed<Checked>,
    compiled: &Compiled,
    marks: &Marks,
    input: &[u8],
    asked: Asked,
    stops: &[LifeStop],
) -> Result<Drilled, Stop>
    requires ranges { InRange asked.settings }
    requires short { length input.now ≤ 16777216 }
    ensures answer { Comes (Drills program.now (given_with compiled.now marks.now input.now asked) stops.now) result }
{
    let until = asked.settings.until;
    let how = How {
        mode: asked.mode,
        until,
        every: asked.settings.every,
        max: asked.settings.max,
        fill: asked.fill,
        pace: PACE,
    };
    match drill(alloc, compiled, marks, input, how, stops) {
        Ok(drilled) if drilled.output.len() <= OUTPUT_ROOM => Ok(drilled),
        Err(DrillFault::NoRoom { ticks }) => Err(why_full(alloc, program, input, until, ticks)),
        _ => Err(Stop::NoMemory),
    }
}

// Why the disk in memory had no room for what was to be written, when the run had taken so many ticks: what the program had written then is too much
// already, or there was no memory for more room. Later ticks are not looked at, since a program may write for ever.
#[tactic(auto, unfolding(crate::specs::Drill::FailsDrill))]
fn why_full(alloc: Global, program: &Boxed<Checked>, input: &[u8], until: u64, ticks: u64) -> Stop
    ensures answer { StopsDrill program.now input.now until result }
{
    let program = program.get();
    written_stays(program);
    match c_meaning::plain(alloc, program, input, until.min(ticks)) {
        Ok(run) if run.output.as_slice().len() > OUTPUT_ROOM => {
            Stop::Because(Cause::TooLarge(Document::Output))
        }
        _ => Stop::NoMemory,
    }
}

// What a program writes within a bound, it writes within a later one too.
fn written_stays(program: &Checked)
    ensures law { (input : List ℕ) (low high : ℕ) → low ≤ high
        → length (output (meaning program.now input low).events) ≤ length (output (meaning program.now input high).events) }
{
    codes_mean_their_programs();
    runs_pass_what_they_reach();
    runs_show_what_they_do();
    let _tree = program.tree();
}

/// Tells the lives of a drill and its output, behind a heading.
#[tactic(auto, unfolding(crate::specs::Drill::TellsDrill))]
pub fn tell_drill(alloc: Global, heading: &[u8], drilled: &Drilled) -> Result<Done, NoMemory>
    ensures answer { IfOk result (λ d. TellsDrill heading.now drilled.now d) }
{
    let lines = lines_of(alloc, drilled)?;
    let text = joined(alloc, heading, lines.as_bytes(), &drilled.output)?;
    Ok(Done::Told(Told {
        ending: last_ending(&drilled.courses),
        text,
    }))
}

// The lines of the lives, and how many bytes the output has.
fn lines_of(alloc: Global, drilled: &Drilled) -> Result<String, AllocError>
    ensures answer { IfOk result (λ t. string_bytes t ≡ courses_lines drilled.now.courses.items ++ (codes "output " ++ (decimal (length drilled.now.output.items) ++ codes "\n"))) }
{
    let mut lines = String::new(alloc);
    add_courses(&mut lines, &drilled.courses)?;
    let length = drilled.output.len();
    write!(&mut lines, "output {length}\n")?;
    Ok(lines)
}

// A heading, lines, the output, and a newline.
fn joined(alloc: Global, heading: &[u8], lines: &[u8], output: &[u8]) -> Result<Bytes, NoMemory>
    ensures answer { IfOk result (λ t. t.list ≡ heading.now ++ (lines.now ++ (output.now ++ codes "\n"))) }
{
    let room = room_for(heading.len(), lines.len(), output.len()).ok_or(NoMemory)?;
    let mut text = Bytes::with_room(alloc, room)?;
    text.append(heading);
    text.append(lines);
    text.append(output);
    text.append(b"\n");
    Ok(text)
}

// So many bytes, and one more.
fn room_for(heading: usize, lines: usize, output: usize) -> Option<usize>
    ensures answer { IfSome result (λ n. n ≡ heading + lines + output + 1) }
{
    heading
        .checked_add(lines)?
        .checked_add(output)?
        .checked_add(1)
}

// How the last life ended.
fn last_ending(courses: &[Course]) -> Ending
    ensures answer { result ≡ spec.last_ending Going courses.now }
{
    let mut ending = Ending::Going;
    'lives: for course in courses {
        ending = ending_of(course);
    }
    ending
}

// How a life ended; one that was left goes on.
fn ending_of(course: &Course) -> Ending
    ensures answer { result ≡ spec.ending_of course.now }
{
    match course {
        Course::Lived(lived) => lived.ending,
        _ => Ending::Going,
    }
}
