//! The operators on words. A word is a number below 2^64; read as two's complement it is a number from -2^63 to 2^63 - 1.

ghost use Rattle.std.specs.Prelude.{◌≡◌};
ghost use Rattle.ckpt_base.specs.Word as spec;

use crate::trap::Trap;

/// The number that a word stands for in two's complement.
#[inline(always)]
pub fn signed(a: u64) -> i64
    ensures answer { result ≡ spec.signed a }
{
    a.cast_signed()
}

/// The word that stands for a number in two's complement.
#[inline(always)]
pub fn word_of(v: i64) -> u64
    ensures answer { result ≡ spec.word_of v }
{
    v.cast_unsigned()
}

/// `a + b` modulo 2^64.
#[inline(always)]
pub fn sum(a: u64, b: u64) -> u64
    ensures answer { result ≡ spec.word_sum a b }
{
    a.wrapping_add(b)
}

/// `a - b` modulo 2^64.
#[inline(always)]
pub fn difference(a: u64, b: u64) -> u64
    ensures answer { result ≡ spec.word_difference a b }
{
    a.wrapping_sub(b)
}

/// `a * b` modulo 2^64.
#[inline(always)]
pub fn product(a: u64, b: u64) -> u64
    ensures answer { result ≡ spec.word_product a b }
{
    a.wrapping_mul(b)
}

/// `-a` modulo 2^64.
#[inline(always)]
pub fn negation(a: u64) -> u64
    ensures answer { result ≡ spec.word_negation a }
{
    a.wrapping_neg()
}

/// `a / b` towards zero; a trap where `b` is 0, and where the least number is divided by -1.
#[inline(always)]
pub fn quotient(a: u64, b: u64) -> Result<u64, Trap>
    ensures answer { result ≡ spec.word_quotient a b }
{
    if b == 0 {
        return Err(Trap::DivisionByZero);
    }
    if a == 0x8000_0000_0000_0000 && b == u64::MAX {
        return Err(Trap::QuotientOverflow);
    }
    Ok((a.cast_signed() / b.cast_signed()).cast_unsigned())
}

/// What `a / b` leaves, with the sign of `a`; a trap where `quotient` has one.
#[inline(always)]
pub fn remainder(a: u64, b: u64) -> Result<u64, Trap>
    ensures answer { result ≡ spec.word_remainder a b }
{
    if b == 0 {
        return Err(Trap::DivisionByZero);
    }
    if a == 0x8000_0000_0000_0000 && b == u64::MAX {
        return Err(Trap::QuotientOverflow);
    }
    Ok((a.cast_signed() % b.cast_signed()).cast_unsigned())
}

/// `a << b`; the high bits are dropped. A trap where `b` is not from 0 to 63.
#[inline(always)]
pub fn left_shift(a: u64, b: u64) -> Result<u64, Trap>
    ensures answer { result ≡ spec.word_left_shift a b }
{
    if b < 64 {
        Ok(a.wrapping_shl(b as u32))
    } else {
        Err(Trap::ShiftCount)
    }
}

/// `a >> b`; the sign is kept. A trap where `b` is not from 0 to 63.
#[inline(always)]
pub fn right_shift(a: u64, b: u64) -> Result<u64, Trap>
    ensures answer { result ≡ spec.word_right_shift a b }
{
    if b < 64 {
        Ok((a.cast_signed() >> (b as u32)).cast_unsigned())
    } else {
        Err(Trap::ShiftCount)
    }
}

/// `a & b`, bit by bit.
#[inline(always)]
pub fn and(a: u64, b: u64) -> u64
    ensures answer { result ≡ spec.word_and a b }
{
    a & b
}

/// `a | b`, bit by bit.
#[inline(always)]
pub fn or(a: u64, b: u64) -> u64
    ensures answer { result ≡ spec.word_or a b }
{
    a | b
}

/// `a ^ b`, bit by bit.
#[inline(always)]
pub fn xor(a: u64, b: u64) -> u64
    ensures answer { result ≡ spec.word_xor a b }
{
    a ^ b
}

/// `~a`, bit by bit.
#[inline(always)]
pub fn inverse(a: u64) -> u64
    ensures answer { result ≡ spec.word_inverse a }
{
    !a
}

/// Whether `a < b`, both read as two's complement.
#[inline(always)]
pub fn is_less(a: u64, b: u64) -> bool
    ensures answer { result ≡ spec.word_less a b }
{
    a.cast_signed() < b.cast_signed()
}

/// Whether `a <= b`, both read as two's complement.
#[inline(always)]
pub fn is_at_most(a: u64, b: u64) -> bool
    ensures answer { result ≡ spec.word_at_most a b }
{
    a.cast_signed() <= b.cast_signed()
}

/// Whether two words are equal.
#[inline(always)]
pub fn is_equal(a: u64, b: u64) -> bool
    ensures answer { result ≡ spec.word_equal a b }
{
    a == b
}

/// Whether a condition of this value holds: every word but 0 does.
#[inline(always)]
pub fn holds(a: u64) -> bool
    ensures answer { result ≡ spec.word_holds a }
{
    a != 0
}

/// The word for the outcome of a test, 1 or 0.
#[inline(always)]
pub fn truth(holds: bool) -> u64
    ensures answer { result ≡ spec.truth_word holds }
{
    if holds { 1 } else { 0 }
}

/// The low 8 bits.
#[inline(always)]
pub fn low_byte(a: u64) -> u8
    ensures answer { result ≡ spec.word_low_byte a }
{
    (a % 256) as u8
}
