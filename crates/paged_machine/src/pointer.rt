// Pointers into the objects of a code: their cells and their moves.

ghost use Rattle.std.specs.Prelude.{◌≡◌, neg_ℤ};
ghost use Rattle.ckpt_base.specs.Word.{signed};
ghost use Rattle.ckpt_base.specs.Pointer as spec;

use ckpt_base::pointer::OBJECT;
use ckpt_base::{Trap, pointer};
use machine_code::Code;

/// The object that a word names, if any.
#[inline(always)]
fn object(code: &Code, p: u64) -> Option<(u32, u32)>
    ensures { result ≡ spec.object_of code.now.objects p }
{
    if p / OBJECT == 0 {
        return None;
    }
    code.object((p / OBJECT - 1) as u32)
}

/// The cell that a pointer names.
#[inline(always)]
pub(crate) fn cell(code: &Code, p: u64) -> Result<u64, Trap>
    ensures { result ≡ spec.cell_of code.now.objects p }
{
    pointer::cell(object(code, p), p)
}

/// A pointer moved forward by a number of places.
#[inline(always)]
pub(crate) fn moved(code: &Code, p: u64, n: u64) -> Result<u64, Trap>
    ensures { result ≡ spec.moved code.now.objects p (signed n) }
{
    pointer::moved(object(code, p), p, n)
}

/// A pointer moved back by a number of places.
#[inline(always)]
pub(crate) fn moved_back(code: &Code, p: u64, n: u64) -> Result<u64, Trap>
    ensures { result ≡ spec.moved code.now.objects p (neg_ℤ (signed n)) }
{
    pointer::moved_back(object(code, p), p, n)
}
