//! The command `plain`.

ghost use Rattle.std.specs.Prelude.{IfOk};
ghost use Rattle.ckpt_program.specs.Sight.{sight, Calm};
ghost use Rattle.ckpt_program.specs.Stage.{Comes};
ghost use Rattle.ckpt_program.specs.Rows as row;
ghost use Rattle.ckpt_program.specs.Rows.{Evaluated};

use crate::done::Done;
use crate::stages::{file, source};
use crate::stop::{Document, Stop};
use c_tree::Checked;
use ckpt_base::{NoMemory, Shelf, Text};
use sqlite_items::Boxed;
use std::alloc::Global;

/// Evaluates a source on an input, in at most `until` steps.
pub fn plain<H: Shelf>(
    alloc: Global,
    shelf: &mut H,
    source_name: &Text,
    input_name: &Text,
    until: u64,
) -> Result<Done, Stop>
    ensures answer { Comes (row.Plain source_name.now input_name.now until (sight (H.view shelf.old)) (sight (H.view shelf.new))) result }
    ensures calm { Calm result (sight (H.view shelf.old)) (sight (H.view shelf.new)) }
{
    let program = source(alloc, shelf, source_name)?;
    evaluate(alloc, shelf, &program, input_name, until)
}

// Evaluates a program on an input.
fn evaluate<H: Shelf>(
    alloc: Global,
    shelf: &mut H,
    program: &Boxed<Checked>,
    input_name: &Text,
    until: u64,
) -> Result<Done, Stop>
    ensures answer { Comes (row.OnInput program.now input_name.now until (sight (H.view shelf.old)) (sight (H.view shelf.new))) result }
    ensures calm { Calm result (sight (H.view shelf.old)) (sight (H.view shelf.new)) }
{
    let input = file(alloc, shelf, Document::Input, input_name)?;
    Ok(evaluated(alloc, program, input.as_slice(), until)?)
}

// The run of a program.
#[tactic(auto, unfolding(crate::specs::Rows::Evaluated))]
fn evaluated(
    alloc: Global,
    program: &Boxed<Checked>,
    input: &[u8],
    until: u64,
) -> Result<Done, NoMemory>
    ensures answer { IfOk result (λ d. Evaluated program.now input.now until d) }
{
    let run = c_meaning::plain(alloc, program.get(), input, until)?;
    Ok(Done::Finished(run))
}
