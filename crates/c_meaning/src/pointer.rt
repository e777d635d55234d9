//! Pointers into the objects of a program: their cells and their moves.

ghost use Rattle.std.specs.Prelude.{◌≡◌};
ghost use Rattle.ckpt_base.specs.Pointer as spec;
ghost use Rattle.c_tree.specs.State.{object_word, places};

use crate::memory::Object;
use c_tree::Direction;
use ckpt_base::pointer::OBJECT;
use ckpt_base::{Trap, pointer};

/// The pointer to place 0 of an object.
#[inline(always)]
pub fn object_pointer(object: u32) -> u64
    ensures answer { result ≡ object_word object }
{
    (object as u64 + 1).wrapping_mul(OBJECT)
}

/// The object that a word names, if any.
#[inline(always)]
fn object_of(objects: &[Object], p: u64) -> Option<Object>
    ensures answer { result ≡ spec.object_of objects.now p }
{
    if p / OBJECT == 0 {
        return None;
    }
    objects.get((p / OBJECT - 1) as usize).copied()
}

/// The cell that a pointer names.
#[inline(always)]
pub fn cell_of(objects: &[Object], p: u64) -> Result<u64, Trap>
    ensures answer { result ≡ spec.cell_of objects.now p }
{
    pointer::cell(object_of(objects, p), p)
}

/// A pointer moved by a number of places.
#[inline(always)]
pub fn moved(objects: &[Object], p: u64, n: u64, direction: Direction) -> Result<u64, Trap>
    ensures answer { result ≡ spec.moved objects.now p (places direction n) }
{
    match direction {
        Direction::Forward => pointer::moved(object_of(objects, p), p, n),
        Direction::Back => pointer::moved_back(object_of(objects, p), p, n),
    }
}
