//! The lines that tell of the lives of a drill.

ghost use Rattle.std.specs.Prelude.{◌≡◌, ◌++◌, OnOk, string_bytes};
ghost use Rattle.drilled_lives.specs.Lines as spec;
ghost use Rattle.life_lines.specs.Lines as life;

use crate::course::Course;
use ckpt_base::Ending;
use ckpt_runner::Started;
use std::alloc::AllocError;
use std::fmt::Write;

/// Writes for each life how it started, and that it was left or how it ended.
pub fn add_courses(text: &mut String, courses: &[Course]) -> Result<(), AllocError>
    ensures answer { OnOk result (string_bytes text.new ≡ string_bytes text.old ++ spec.courses_lines courses.now) }
{
    'courses: for course in courses {
        add_course(text, course)?;
    }
    Ok(())
}

// Writes the lines of one life.
fn add_course(text: &mut String, course: &Course) -> Result<(), AllocError>
    ensures answer { OnOk result (string_bytes text.new ≡ string_bytes text.old ++ spec.course_lines course.now) }
{
    match course {
        Course::Opening => write!(text, "opening\nleft\n"),
        Course::Left(started) => {
            add_start(text, started)?;
            write!(text, "left\n")
        }
        Course::Lived(lived) => {
            add_start(text, &lived.started)?;
            add_ending(text, &lived.ending, lived.steps)
        }
    }
}

// Writes how a life started.
fn add_start(text: &mut String, started: &Started) -> Result<(), AllocError>
    ensures answer { OnOk result (string_bytes text.new ≡ string_bytes text.old ++ spec.start_line started.now) }
{
    match started {
        Started::Begun => write!(text, "begun\n"),
        Started::Resumed { image, step } => add_resumed(text, *image, *step),
    }
}

// Writes the image from which a life was resumed.
fn add_resumed(text: &mut String, image: u32, step: u64) -> Result<(), AllocError>
    ensures answer { OnOk result (string_bytes text.new ≡ string_bytes text.old ++ life.resumed_line image step) }
{
    write!(text, "resumed image {image} step {step}\n")
}

// Writes how a run ended and how many steps it took.
fn add_ending(text: &mut String, ending: &Ending, steps: u64) -> Result<(), AllocError>
    ensures answer { OnOk result (string_bytes text.new ≡ string_bytes text.old ++ life.ending_line ending.now steps) }
{
    match ending {
        Ending::Ended(value) => write!(text, "end {value} steps {steps}\n"),
        Ending::Trapped(trap) => {
            let number = *trap as u64;
            write!(text, "trap {number} steps {steps}\n")
        }
        Ending::Going => write!(text, "stopped steps {steps}\n"),
    }
}
