//! The command `compile`.

ghost use Rattle.std.specs.Prelude.{IfOk};
ghost use Rattle.ckpt_program.specs.Sight.{sight, Calm};
ghost use Rattle.ckpt_program.specs.Stage.{Comes};
ghost use Rattle.ckpt_program.specs.Rows as row;
ghost use Rattle.ckpt_program.specs.Rows.{Printed};
ghost use Rattle.ckpt_program.specs.Listed.{IsListing};

use crate::code::listing_of;
use crate::done::Done;
use crate::stages::source;
use crate::stop::Stop;
use c_tree::Checked;
use ckpt_base::{NoMemory, Shelf, Text};
use sqlite_items::Boxed;
use std::alloc::Global;

/// Prints the code of a source.
pub fn compile<H: Shelf>(alloc: Global, shelf: &mut H, name: &Text) -> Result<Done, Stop>
    ensures answer { Comes (row.Compile name.now (sight (H.view shelf.old)) (sight (H.view shelf.new))) result }
    ensures calm { Calm result (sight (H.view shelf.old)) (sight (H.view shelf.new)) }
{
    let program = source(alloc, shelf, name)?;
    Ok(listed(alloc, &program)?)
}

// The code of a program, to be printed.
#[tactic(auto, unfolding(crate::specs::Rows::Printed))]
fn listed(alloc: Global, program: &Boxed<Checked>) -> Result<Done, NoMemory>
    ensures answer { IfOk result (λ d. Printed (IsListing program.now) d) }
{
    let listing = listing_of(alloc, program.get())?;
    Ok(Done::Printed(listing))
}
