//! Whether a chain fits a program.
ghost use Rattle.std.specs.Prelude.{◌≡◌, ◌≤◌, ◌+◌, ℕ, MatchBool, MatchOption};
ghost use Rattle.recovery.specs.Fit.{Fits, IsUnfitAt, ListsOnly, ListsPast, IsDamagedAt};

use crate::shape::Shape;
use image_chain::{Chain, Kept};
use image_format::Fields;

/// How many cells a chain can list.
pub(crate) const KEPT_CELLS: u32 = 262_144;

/// The place at which the records of a file begin.
const RECORDS_PLACE: u64 = 16;

// The first field of a record that does not fit the program, as its place in the record.
fn unfit_field(fields: &Fields, shape: &Shape<'_>) -> Option<u64>
    ensures answer { MatchOption result (Fits shape.now fields.now) (λ place. IsUnfitAt place shape.now fields.now) }
    ensures most { MatchOption result (Unit {0}) (λ place. place ≤ 97) }
{
    if !shape.checkpoints.contains(&fields.node) {
        return Some(69);
    }
    if shape.input_length < fields.input_place {
        return Some(81);
    }
    if shape.output_length < fields.output_length {
        return Some(89);
    }
    if shape.excludes < fields.directive {
        return Some(97);
    }
    None
}

// Whether a cell past these is listed.
fn lists_past(kept: &Kept, cells: u32) -> bool
    ensures { MatchBool result (ListsPast cells kept.now) (ListsOnly cells kept.now) }
{
    kept.tells();
    for c in cells..KEPT_CELLS {
        if kept.word(c).is_some() {
            return true;
        }
    }
    false
}

/// The place in the current file at which the chain does not fit the program.
pub(crate) fn unfit_place(
    chain: &Chain,
    kept: &Kept,
    shape: &Shape<'_>,
    newest: &Fields,
) -> Option<u64>
    requires some { 1 ≤ chain.now.current.count }
    ensures { MatchOption result (ListsOnly shape.now.cells kept.now × Fits shape.now newest.now) (λ place. IsDamagedAt place chain.now kept.now shape.now newest.now) }
{
    if lists_past(kept, shape.cells) {
        return Some(RECORDS_PLACE);
    }
    match unfit_field(newest, shape) {
        Some(field) => Some(chain.newest_place() + field),
        None => None,
    }
}
