//! The command `why`.

ghost use Rattle.std.specs.Prelude.{◌≤◌, IfOk};
ghost use Rattle.ckpt_program.specs.Sight.{sight, Calm};
ghost use Rattle.ckpt_program.specs.Stage.{Comes};
ghost use Rattle.ckpt_program.specs.Rows as row;
ghost use Rattle.ckpt_program.specs.Rows.{Printed};
ghost use Rattle.ckpt_program.specs.Why.{HasBoth, LookedUp, IsReasonText};

use crate::done::Done;
use crate::stages::source;
use crate::stop::{Cause, Stop};
use crate::why_text::reason_of;
use c_tree::Checked;
use ckpt_base::{NoMemory, Shelf, Text};
use sqlite_items::Boxed;
use std::alloc::Global;

/// Prints why cell `cell` of a source is kept under its EXCLUDE_HERE `exclude`, counted from 1, or that it is not.
pub fn why<H: Shelf>(
    alloc: Global,
    shelf: &mut H,
    name: &Text,
    exclude: u16,
    cell: u32,
) -> Result<Done, Stop>
    requires first { 1 ≤ exclude }
    ensures answer { Comes (row.Why name.now exclude cell (sight (H.view shelf.old)) (sight (H.view shelf.new))) result }
    ensures calm { Calm result (sight (H.view shelf.old)) (sight (H.view shelf.new)) }
{
    let program = source(alloc, shelf, name)?;
    explained(alloc, &program, exclude, cell)
}

// Why a cell of a program is kept.
fn explained(alloc: Global, program: &Boxed<Checked>, exclude: u16, cell: u32) -> Result<Done, Stop>
    requires first { 1 ≤ exclude }
    ensures answer { Comes (row.Explained program.now exclude cell) result }
{
    look_up(program, exclude, cell)?;
    Ok(told(alloc, program, exclude, cell)?)
}

// Whether the program has both.
#[tactic(auto, unfolding(crate::specs::Why::LacksOne))]
fn look_up(program: &Boxed<Checked>, exclude: u16, cell: u32) -> Result<(), Stop>
    ensures answer { Comes (LookedUp program.now exclude cell) result }
{
    let program = program.get();
    if exclude > program.excludes() {
        Err(Stop::Because(Cause::NotAnExclude(exclude)))
    } else if cell >= program.cells() {
        Err(Stop::Because(Cause::NotACell(cell)))
    } else {
        Ok(())
    }
}

// The reason, to be printed.
#[tactic(auto, unfolding(crate::specs::Rows::Printed))]
fn told(alloc: Global, program: &Boxed<Checked>, exclude: u16, cell: u32) -> Result<Done, NoMemory>
    requires first { 1 ≤ exclude }
    requires both { HasBoth program.now exclude cell }
    ensures answer { IfOk result (λ d. Printed (IsReasonText program.now exclude cell) d) }
{
    let text = reason_of(alloc, program.get(), exclude, cell)?;
    Ok(Done::Printed(text))
}
