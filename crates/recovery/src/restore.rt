//! From a chain of images back to memory.
ghost use Rattle.std.specs.Prelude.{◌≡◌, ◌<◌, ◌≤◌, ℕ, length, slice_index, slice_set, IsOk, IfOk, IfErr, OnOk, OnErr};
ghost use Rattle.std.specs.Option.{unwrap_or};
ghost use Rattle.image_chain.specs.Memory.{kept_word};
ghost use Rattle.recovery.specs.Fit.{ListsOnly};
ghost use Rattle.recovery.specs.Recovery.{Accepts, Refuses};

use crate::fault::RecoverFault;
use crate::fit::{KEPT_CELLS, unfit_place};
use crate::shape::Shape;
use image_chain::{Chain, Kept};
use image_format::{Fields, Marks};
use page_frames::Frames;

// Writes the word of a cell, where it is listed.
fn load_word(kept: &Kept, c: u32, frames: &mut Frames)
    requires cell { c < 262144 }
    requires room { c < length frames.old }
    ensures { frames.new ≡ slice_set frames.old c (unwrap_or (kept_word kept.now c) (slice_index frames.old c)) }
{
    if let Some(word) = kept.word(c) {
        frames.set_word(c, word);
    }
}

// Writes the words of the listed cells, all of which are among these.
fn load(kept: &Kept, cells: u32, frames: &mut Frames)
    requires room { cells ≤ length frames.old }
    requires only { ListsOnly cells kept.now }
    ensures words { (c : ℕ) → slice_index frames.new c ≡ unwrap_or (kept_word kept.now c) (slice_index frames.old c) }
    ensures size { length frames.new ≡ length frames.old }
{
    kept.tells();
    for c in 0..cells.min(KEPT_CELLS) {
        load_word(kept, c, frames);
    }
}

/// Writes the word of each cell that the chain lists into the frames, and answers what the newest record says of its checkpoint.
///
/// The chain has a record, `kept` is the joined content of its records, and the frames have room for the program's cells. After a
/// refusal the frames are as they were.
pub fn recover(
    chain: &Chain,
    kept: &Kept,
    shape: &Shape<'_>,
    marks: &Marks,
    frames: &mut Frames,
) -> Result<Fields, RecoverFault>
    requires some { 1 ≤ chain.now.current.count }
    requires room { shape.now.cells ≤ length frames.old }
    ensures answer { IfOk result (λ newest. (chain.now.current.newest ≡ Some newest) × Accepts kept.now shape.now marks.now newest) }
    ensures only { (newest : Fields) → chain.now.current.newest ≡ Some newest → Accepts kept.now shape.now marks.now newest → IsOk result }
    // A cell that is not listed keeps its word.
    ensures words { OnOk result ((c : ℕ) → slice_index frames.new c ≡ unwrap_or (kept_word kept.now c) (slice_index frames.old c)) }
    ensures size { length frames.new ≡ length frames.old }
    ensures err { IfErr result (λ e. (newest : Fields) × (chain.now.current.newest ≡ Some newest) × Refuses e chain.now kept.now shape.now marks.now newest) }
    ensures same { OnErr result (frames.new ≡ frames.old) }
{
    let newest = chain.newest().unwrap();
    if newest.marks.source != marks.source {
        return Err(RecoverFault::OtherSource {
            kept: newest.marks.source,
            given: marks.source,
        });
    }
    if newest.marks.input != marks.input {
        return Err(RecoverFault::OtherInput {
            kept: newest.marks.input,
            given: marks.input,
        });
    }
    if let Some(place) = unfit_place(chain, kept, shape, &newest) {
        return Err(RecoverFault::Damaged {
            file: chain.file(),
            place,
        });
    }
    load(kept, shape.cells, frames);
    Ok(newest)
}
