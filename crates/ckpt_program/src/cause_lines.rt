//! The lines of the causes that say more than their kind.

ghost use Rattle.std.specs.Prelude.{◌≡◌, IfOk};
ghost use Rattle.ckpt_program.specs.Texts as spec;

use crate::refusal::Refusal;
use crate::stop::Cause;
use disk_model::DiskFile;
use std::alloc::{AllocError, Global};

/// The line of a cause that has none which is always the same; of the others nothing.
pub fn made_line(alloc: Global, cause: &Cause) -> Result<Vec<u8>, AllocError>
    ensures answer { IfOk result (λ t. t.items ≡ spec.made_line cause.now) }
{
    match cause {
        Cause::Refused(refusal) => refused_line(alloc, refusal),
        Cause::Damaged { file, place } => damaged_line(alloc, *file, *place),
        Cause::Occupied { image, step } => occupied_line(alloc, *image, *step),
        Cause::OtherSource { kept, given } => other_line(alloc, "source", kept, given),
        Cause::OtherInput { kept, given } => other_line(alloc, "input", kept, given),
        Cause::Behind { bound, step } => behind_line(alloc, *bound, *step),
        Cause::NotAnExclude(k) => no_exclude_line(alloc, *k),
        Cause::NotACell(c) => no_cell_line(alloc, *c),
        _ => Ok(Vec::new(alloc)),
    }
}

// A refusal.
fn refused_line(alloc: Global, refusal: &Refusal) -> Result<Vec<u8>, AllocError>
    ensures answer { IfOk result (λ t. t.items ≡ spec.refused_line refusal.now) }
{
    let mut line = Vec::from_slice(alloc, b"refused: ")?;
    let text = refusal.text(alloc)?;
    line.extend_from_slice(&text)?;
    line.push(b'\n')?;
    Ok(line)
}

// Damage.
fn damaged_line(alloc: Global, file: DiskFile, place: u64) -> Result<Vec<u8>, AllocError>
    ensures answer { IfOk result (λ t. t.items ≡ spec.damaged_line file place) }
{
    let line = format!(in alloc; "damaged file {file} at {place}\n")?;
    Vec::from_slice(alloc, line.as_bytes())
}

// An occupied store.
fn occupied_line(alloc: Global, image: u32, step: u64) -> Result<Vec<u8>, AllocError>
    ensures answer { IfOk result (λ t. t.items ≡ spec.occupied_line image step) }
{
    let line = format!(in alloc; "occupied: image {image} step {step}\n")?;
    Vec::from_slice(alloc, line.as_bytes())
}

// An image of another source, or of another input.
fn other_line(
    alloc: Global,
    what: &str,
    kept: &[u8; 32],
    given: &[u8; 32],
) -> Result<Vec<u8>, AllocError>
    ensures answer { IfOk result (λ t. t.items ≡ spec.other_line what.now kept.now given.now) }
{
    let kept = hex::encode(alloc, kept)?;
    let given = hex::encode(alloc, given)?;
    let line = format!(in alloc; "other {what} kept {kept} given {given}\n")?;
    Vec::from_slice(alloc, line.as_bytes())
}

// A bound below the newest image.
fn behind_line(alloc: Global, bound: u64, step: u64) -> Result<Vec<u8>, AllocError>
    ensures answer { IfOk result (λ t. t.items ≡ spec.behind_line bound step) }
{
    let line = format!(in alloc; "bound {bound} below step {step}\n")?;
    Vec::from_slice(alloc, line.as_bytes())
}

// An EXCLUDE_HERE that is not there.
fn no_exclude_line(alloc: Global, k: u16) -> Result<Vec<u8>, AllocError>
    ensures answer { IfOk result (λ t. t.items ≡ spec.no_exclude_line k) }
{
    let line = format!(in alloc; "no exclude {k}\n")?;
    Vec::from_slice(alloc, line.as_bytes())
}

// A cell that is not there.
fn no_cell_line(alloc: Global, cell: u32) -> Result<Vec<u8>, AllocError>
    ensures answer { IfOk result (λ t. t.items ≡ spec.no_cell_line cell) }
{
    let line = format!(in alloc; "no cell {cell}\n")?;
    Vec::from_slice(alloc, line.as_bytes())
}
