//! Numbers in words.

ghost use Rattle.std.specs.Prelude.{◌≡◌, ◌≤◌, IfSome};
ghost use Rattle.command_words.specs.Numbers as spec;

/// The number that a word spells: decimal digits without a sign, and without a 0 in front of others.
pub fn number(word: &[u8]) -> Option<u64>
    ensures answer { result ≡ spec.number word.now }
{
    match word {
        [] | [b'0', _, ..] => None,
        _ => number_of(word),
    }
}

/// The same, where it is within the range.
pub fn number_in(word: &[u8], least: u64, most: u64) -> Option<u64>
    ensures answer { result ≡ spec.number_in least most word.now }
    ensures within { IfSome result (λ n. (least ≤ n) × (n ≤ most)) }
{
    let number = number(word)?;
    if least <= number && number <= most {
        Some(number)
    } else {
        None
    }
}

/// The number that digits spell.
fn number_of(digits: &[u8]) -> Option<u64>
    ensures answer { result ≡ spec.number_from 0 digits.now }
{
    let mut value: u64 = 0;
    'digits: for digit in digits {
        value = with_digit(value, *digit)?;
    }
    Some(value)
}

/// A number with one more digit behind it.
fn with_digit(value: u64, digit: u8) -> Option<u64>
    ensures answer { result ≡ spec.with_digit value digit }
{
    if !digit.is_ascii_digit() {
        return None;
    }
    value.checked_mul(10)?.checked_add(u64::from(digit - b'0'))
}
