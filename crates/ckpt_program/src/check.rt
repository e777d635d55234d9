//! The command `check`.

ghost use Rattle.ckpt_program.specs.Sight.{sight, Calm};
ghost use Rattle.ckpt_program.specs.Stage.{Comes};
ghost use Rattle.ckpt_program.specs.Rows as row;
ghost use Rattle.ckpt_program.specs.Rows.{Counted};

use crate::done::{Counts, Done};
use crate::stages::source;
use crate::stop::Stop;
use c_tree::Checked;
use ckpt_base::{Shelf, Text};
use sqlite_items::Boxed;
use std::alloc::Global;

/// Accepts or refuses a source.
pub fn check<H: Shelf>(alloc: Global, shelf: &mut H, name: &Text) -> Result<Done, Stop>
    ensures answer { Comes (row.Check name.now (sight (H.view shelf.old)) (sight (H.view shelf.new))) result }
    ensures calm { Calm result (sight (H.view shelf.old)) (sight (H.view shelf.new)) }
{
    let program = source(alloc, shelf, name)?;
    Ok(counted(&program))
}

// How much a program has.
#[tactic(auto, unfolding(crate::specs::Rows::Counted))]
fn counted(program: &Boxed<Checked>) -> Done
    ensures answer { Counted program.now result }
{
    let program = program.get();
    Done::Accepted(Counts {
        cells: program.cells(),
        nodes: program.main_nodes(),
        excludes: program.excludes(),
    })
}
