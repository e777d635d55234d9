//! The stages of a command that read its files.

ghost use Rattle.std.specs.Prelude.{◌≡◌};
ghost use Rattle.ckpt_program.specs.Sight.{sight, Calm};
ghost use Rattle.ckpt_program.specs.Stage.{Comes};
ghost use Rattle.ckpt_program.specs.Accepted.{Spelled, KeepsRules, Accepted};
ghost use Rattle.ckpt_program.specs.Stages.{File, Source};

use crate::intake::{FetchFault, fetch};
use crate::stop::{Cause, Document, Stop};
use c_reader::read;
use c_tree::{Checked, Program};
use c_types::check;
use ckpt_base::{Bytes, Shelf, Text};
use sqlite_items::Boxed;
use std::alloc::Global;

/// Reads and accepts a source.
#[tactic(auto, unfolding(crate::specs::Stages::HasSource, crate::specs::Stages::FailsSource))]
pub fn source<H: Shelf>(alloc: Global, shelf: &mut H, name: &Text) -> Result<Boxed<Checked>, Stop>
    ensures answer { Comes (Source name.now (sight (H.view shelf.old)) (sight (H.view shelf.new))) result }
    ensures calm { Calm result (sight (H.view shelf.old)) (sight (H.view shelf.new)) }
{
    let text = file(alloc, shelf, Document::Source, name)?;
    accept_text(alloc, text.as_slice())
}

/// Reads a file whole.
#[tactic(auto, unfolding(crate::specs::Stages::FailsFile))]
pub fn file<H: Shelf>(
    alloc: Global,
    shelf: &mut H,
    document: Document,
    name: &Text,
) -> Result<Bytes, Stop>
    ensures answer { Comes (File document name.now (sight (H.view shelf.old)) (sight (H.view shelf.new))) result }
    ensures calm { Calm result (sight (H.view shelf.old)) (sight (H.view shelf.new)) }
{
    match fetch(alloc, shelf, name, document.limit()) {
        Ok(bytes) => Ok(bytes),
        Err(FetchFault::Shelf) => Err(Stop::Because(Cause::ShelfFault)),
        Err(FetchFault::TooLong) => Err(Stop::Because(Cause::TooLarge(document))),
        Err(FetchFault::Memory) => Err(Stop::NoMemory),
    }
}

/// Reads and checks a text.
pub fn accept_text(alloc: Global, text: &[u8]) -> Result<Boxed<Checked>, Stop>
    ensures answer { Comes (Accepted text.now) result }
{
    let program = spelled(alloc, text)?;
    checked(alloc, program)
}

// The program that a text spells.
fn spelled(alloc: Global, text: &[u8]) -> Result<Program, Stop>
    ensures answer { Comes (Spelled text.now) result }
{
    Ok(read(alloc, text)?)
}

// The tree of a program that keeps the rules.
fn checked(alloc: Global, program: Program) -> Result<Boxed<Checked>, Stop>
    ensures answer { Comes (KeepsRules program) result }
{
    let checked = check(alloc, program)?;
    Ok(Boxed::new(alloc, checked)?)
}
