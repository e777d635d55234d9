//! The command `report`.

ghost use Rattle.std.specs.Prelude.{IfOk};
ghost use Rattle.ckpt_program.specs.Sight.{sight, Calm};
ghost use Rattle.ckpt_program.specs.Stage.{Comes};
ghost use Rattle.ckpt_program.specs.Rows as row;
ghost use Rattle.ckpt_program.specs.Rows.{Printed};
ghost use Rattle.ckpt_program.specs.Report.{IsReport};

use crate::done::Done;
use crate::report_text::report_of;
use crate::stages::source;
use crate::stop::Stop;
use c_tree::Checked;
use ckpt_base::{NoMemory, Shelf, Text};
use sqlite_items::Boxed;
use std::alloc::Global;

/// Prints the excluded sets of a source.
pub fn report<H: Shelf>(alloc: Global, shelf: &mut H, name: &Text) -> Result<Done, Stop>
    ensures answer { Comes (row.Report name.now (sight (H.view shelf.old)) (sight (H.view shelf.new))) result }
    ensures calm { Calm result (sight (H.view shelf.old)) (sight (H.view shelf.new)) }
{
    let program = source(alloc, shelf, name)?;
    Ok(told(alloc, &program)?)
}

// The excluded sets of a program, to be printed.
#[tactic(auto, unfolding(crate::specs::Rows::Printed))]
fn told(alloc: Global, program: &Boxed<Checked>) -> Result<Done, NoMemory>
    ensures answer { IfOk result (λ d. Printed (IsReport program.now) d) }
{
    let text = report_of(alloc, program.get())?;
    Ok(Done::Printed(text))
}
