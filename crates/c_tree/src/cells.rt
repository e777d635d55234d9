//! Where objects lie among the cells of a program.

ghost use Rattle.std.specs.Prelude.{◌≡◌, ◌^◌, ◌<◌, ◌≤◌, IfNone, slice_get, slice_index_or};
ghost use Rattle.c_tree.specs.Layout as spec;
ghost use Rattle.c_tree.specs.Checked.{element};
ghost use Rattle.c_tree.specs.CellNames.{element_copied};

use crate::resolved::RObject;

/// How many cells objects have.
pub fn object_cells(objects: &[RObject]) -> u32
    requires fits { spec.object_cells objects.now < 2 ^ 32 }
    ensures answer { result ≡ spec.object_cells objects.now }
{
    let mut cells = 0;
    for object in objects {
        cells += object.length;
    }
    cells
}

/// The first cell and the length of the object of a number.
pub fn object_at(objects: &[RObject], number: u32) -> Option<(u32, u32)>
    requires fits { spec.object_cells objects.now < 2 ^ 32 }
    ensures answer { result ≡ slice_get (spec.objects_from 0 objects.now) number }
{
    let mut first = 0;
    let mut left = number;
    for object in objects {
        if left == 0 {
            return Some((first, object.length));
        }
        first += object.length;
        left -= 1;
    }
    None
}

/// The word with which a cell of the objects starts, or 0 behind them.
pub fn first_word(objects: &[RObject], cell: u32) -> u64
    ensures answer { result ≡ slice_index_or (spec.object_words objects.now) cell 0 }
{
    let mut place = cell;
    for object in objects {
        if place < object.length {
            return object.first.cast_unsigned();
        }
        place -= object.length;
    }
    0
}

/// The object that a cell lies in, and the cell's place there.
pub fn element(objects: &[RObject], cell: u32) -> Option<(&RObject, u32)>
    ensures answer { element_copied result ≡ element objects.now cell }
    ensures behind { IfNone result (spec.object_cells objects.now ≤ cell) }
{
    let mut place = cell;
    for object in objects {
        if place < object.length {
            return Some((object, place));
        }
        place -= object.length;
    }
    None
}
