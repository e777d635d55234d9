//! The commands `drill` and `generate`.

ghost use Rattle.std.specs.Prelude.{◌≤◌, ◌≡◌, [], length};
ghost use Rattle.command_words.specs.Words.{InRange};
ghost use Rattle.ckpt_program.specs.Drill as row;
ghost use Rattle.generated_program.specs.Generated as spec;
ghost use Rattle.ckpt_program.specs.Sight.{sight, Calm};
ghost use Rattle.ckpt_program.specs.Stage.{Comes};

use crate::done::Done;
use crate::drill_stages::{drill_compiled, tell_drill};
use crate::life_stages::{Asked, compile_program};
use crate::lives::read_job;
use crate::stages::accept_text;
use crate::stop::Stop;
use c_tree::Checked;
use ckpt_base::{Bytes, Shelf, Text};
use ckpt_runner::Mode;
use command_words::{Settings, Stop as LifeStop};
use generated_program::{add_generated_line, program_text, stops};
use run_marks::marks_of;
use sqlite_items::Boxed;
use std::alloc::Global;

/// The most bytes of the line that tells of the generated program.
const HEADING: usize = 128;

/// Runs a source on an input through a list of stops.
pub fn drill_source<H: Shelf>(
    alloc: Global,
    shelf: &mut H,
    source_name: &Text,
    input_name: &Text,
    asked: Asked,
    stops: &[LifeStop],
) -> Result<Done, Stop>
    requires ranges { InRange asked.settings }
    ensures answer { Comes (row.Drill source_name.now input_name.now asked stops.now (sight (H.view shelf.old)) (sight (H.view shelf.new))) result }
    ensures calm { Calm result (sight (H.view shelf.old)) (sight (H.view shelf.new)) }
{
    let job = read_job(alloc, shelf, source_name, input_name)?;
    drill_program(
        alloc,
        b"",
        &job.program,
        job.text.as_slice(),
        job.input.as_slice(),
        asked,
        stops,
    )
}

/// Runs the generated program of `functions` functions, 1 to 1,000, through the stops of its drill.
pub fn generate(alloc: Global, functions: u16) -> Result<Done, Stop>
    requires most { functions ≤ 1000 }
    ensures answer { Comes (row.Generate functions) result }
{
    let text = program_text(alloc, functions)?;
    let program = accept_text(alloc, text.as_slice())?;
    drill_generated(alloc, functions, text.as_slice(), &program)
}

// Runs the generated program, with its text, through the stops of its drill.
fn drill_generated(
    alloc: Global,
    functions: u16,
    text: &[u8],
    program: &Boxed<Checked>,
) -> Result<Done, Stop>
    requires most { functions ≤ 1000 }
    ensures answer { Comes (row.OfProgram (spec.generated_line functions) (row.to_drill row.default_settings 0) (row.stops_of functions) program.now text.now []) result }
{
    let mut heading = Bytes::with_room(alloc, HEADING)?;
    add_generated_line(&mut heading, functions);
    let asked = Asked {
        mode: Mode::Run,
        settings: Settings {
            until: u64::MAX,
            every: 1,
            max: 16,
        },
        fill: 0,
    };
    let stops = generated_stops(functions);
    drill_program(alloc, heading.as_slice(), program, text, b"", asked, &stops)
}

// Where the lives of the generated program are stopped.
fn generated_stops(functions: u16) -> [LifeStop; 4]
    ensures answer { result ≡ row.stops_of functions }
{
    let [first, second, third, fourth] = stops(functions);
    [
        LifeStop::AtStep(first),
        LifeStop::AtStep(second),
        LifeStop::AtStep(third),
        LifeStop::AtStep(fourth),
    ]
}

// Runs a program, with its text, on an input through a list of stops.
fn drill_program(
    alloc: Global,
    heading: &[u8],
    program: &Boxed<Checked>,
    text: &[u8],
    input: &[u8],
    asked: Asked,
    stops: &[LifeStop],
) -> Result<Done, Stop>
    requires ranges { InRange asked.settings }
    requires short { length input.now ≤ 16777216 }
    ensures answer { Comes (row.OfProgram heading.now asked stops.now program.now text.now input.now) result }
{
    let compiled = compile_program(alloc, program)?;
    let marks = marks_of(text, input);
    let drilled = drill_compiled(alloc, program, &compiled, &marks, input, asked, stops)?;
    Ok(tell_drill(alloc, heading, &drilled)?)
}
