//! Pointers: the cell that one names, and its moves. The pointer to place k of object o is the word (o + 1) * 2^32 + k, and 0 is null.

ghost use Rattle.std.specs.Prelude.{◌≡◌, ◌≤◌, ◌<◌, ◌+◌, ◌^◌, ◌==◌, pos, ◌+ℤ◌, neg_ℤ, if◌then◌else◌, nat_le, Err};
ghost use Rattle.ckpt_base.specs.Word.{signed};
ghost use Rattle.ckpt_base.specs.Pointer as spec;
ghost use Rattle.ckpt_base.specs.Pointer.{at_place, place_of};

use crate::trap::Trap;

/// What the number of a pointer's object is multiplied by.
pub const OBJECT: u64 = 0x1_0000_0000;

/// The cell that a pointer names, whose object stands there (its first cell and its length), or is none.
///
/// Null has no cell, and neither has a place at the end of the object or behind it.
#[inline(always)]
pub fn cell(object: Option<(u32, u32)>, p: u64) -> Result<u64, Trap>
    ensures answer { result ≡ (if p == 0 then Err Trap.NullPointer else spec.cell_in object p) }
{
    if p == 0 {
        return Err(Trap::NullPointer);
    }
    match object {
        None => Err(Trap::OutsideObject),
        Some((first, length)) => {
            if p % OBJECT < length as u64 {
                Ok(first as u64 + p % OBJECT)
            } else {
                Err(Trap::OutsideObject)
            }
        }
    }
}

/// A pointer into that object moved forward by a number of places, read in two's complement.
///
/// The place that it comes to is in the object or its end.
#[inline(always)]
pub fn moved(object: Option<(u32, u32)>, p: u64, n: u64) -> Result<u64, Trap>
    ensures answer { result ≡ (if p == 0 then Err Trap.NullPointer else spec.moved_in object p (signed n)) }
{
    if p == 0 {
        return Err(Trap::NullPointer);
    }
    match object {
        None => Err(Trap::OutsideObject),
        Some((_, length)) => forward(p, n, length),
    }
}

/// A pointer into that object moved back by a number of places, read in two's complement.
///
/// The place that it comes to is in the object or its end.
#[inline(always)]
pub fn moved_back(object: Option<(u32, u32)>, p: u64, n: u64) -> Result<u64, Trap>
    ensures answer { result ≡ (if p == 0 then Err Trap.NullPointer else spec.moved_in object p (neg_ℤ (signed n))) }
{
    if p == 0 {
        return Err(Trap::NullPointer);
    }
    match object {
        None => Err(Trap::OutsideObject),
        Some((_, length)) => back(p, n, length),
    }
}
/// A pointer into an object of this length, moved forward.
#[inline(always)]
fn forward(p: u64, n: u64, length: u32) -> Result<u64, Trap>
    ensures answer { result ≡ (if nat_le (place_of p) length then at_place p length (pos (place_of p) +ℤ signed n) else Err Trap.OutsideObject) }
{
    if p % OBJECT > length as u64 {
        return Err(Trap::OutsideObject);
    }
    at(p, length, (p % OBJECT).wrapping_add(n))
}

/// A pointer into an object of this length, moved back.
#[inline(always)]
fn back(p: u64, n: u64, length: u32) -> Result<u64, Trap>
    ensures answer { result ≡ (if nat_le (place_of p) length then at_place p length (pos (place_of p) +ℤ neg_ℤ (signed n)) else Err Trap.OutsideObject) }
{
    if p % OBJECT > length as u64 {
        return Err(Trap::OutsideObject);
    }
    at(p, length, (p % OBJECT).wrapping_sub(n))
}

/// The pointer to another place of the same object, which may be its end.
#[inline(always)]
fn at(p: u64, length: u32, place: u64) -> Result<u64, Trap>
    ensures answer { result ≡ at_place p length (pos place) }
{
    if place <= length as u64 {
        Ok(p / OBJECT * OBJECT + place)
    } else {
        Err(Trap::OutsideObject)
    }
}
