//! Bytes, numbers and character constants.

ghost use Rattle.std.specs.Prelude.{◌≡◌, ◌≤◌, ◌<◌, ◌+◌, length, Some, None, if◌then◌else◌};
ghost use Rattle.c_tree.specs.Scan as spec;
ghost use Rattle.c_reader.specs.Scanning.{Takes, with_digit};

use c_tree::{Kind, Piece};

/// The greatest number that a text may have.
const GREATEST: u64 = 9_223_372_036_854_775_807;

/// Whether a byte is a digit.
pub fn is_digit(b: u8) -> bool
    ensures { result ≡ spec.is_digit b }
{
    b >= b'0' && b <= b'9'
}

/// Whether a byte is a letter, a digit or `_`.
pub fn is_word(b: u8) -> bool
    ensures { result ≡ spec.is_word b }
{
    is_digit(b) || (b >= b'a' && b <= b'z') || (b >= b'A' && b <= b'Z') || b == b'_'
}

/// Whether a byte separates tokens and ends no line.
pub fn is_blank(b: u8) -> bool
    ensures { result ≡ spec.is_blank b }
{
    b == b' ' || b == b'\t' || b == b'\r'
}

/// How many letters, digits and `_` stand at the front.
fn run_length(bytes: &[u8]) -> usize
    ensures value { result ≡ length (spec.run bytes.now) }
    ensures within { result ≤ length bytes.now }
{
    bytes.iter().take_while(|b| is_word(**b)).count()
}

/// The letters, digits and `_` at the front.
#[tactic(auto, using(crate::proofs::Runs::run_front))]
pub fn run(bytes: &[u8]) -> &[u8]
    ensures value { result.now ≡ spec.run bytes.now }
    ensures within { length result.now ≤ length bytes.now }
{
    &bytes[..run_length(bytes)]
}

/// Without the `L` that may stand at the end.
fn unsuffixed(bytes: &[u8]) -> &[u8]
    ensures { result.now ≡ spec.unsuffixed bytes.now }
{
    if bytes.len() > 0 && bytes[bytes.len() - 1] == b'L' {
        &bytes[..bytes.len() - 1]
    } else {
        bytes
    }
}

fn leading_zero(bytes: &[u8]) -> bool
    ensures { result ≡ spec.leading_zero bytes.now }
{
    match bytes {
        [first, _, ..] => *first == b'0',
        _ => false,
    }
}

/// The number with one more digit, where it is not too great.
fn push_digit(value: u64, b: u8) -> Option<u64>
    requires { value ≤ spec.greatest }
    ensures { result ≡ with_digit value b }
{
    if !is_digit(b) || value > GREATEST / 10 {
        return None;
    }
    let next = value * 10 + u64::from(b - b'0');
    if next > GREATEST { None } else { Some(next) }
}

/// The number that these bytes spell.
#[tactic(auto, using(crate::proofs::Numbers::starts, crate::proofs::Numbers::goes_on, crate::proofs::Numbers::stops, crate::proofs::Numbers::over, crate::proofs::Numbers::zero_first))]
fn number(bytes: &[u8]) -> Option<u64>
    ensures { result ≡ spec.number bytes.now }
{
    if leading_zero(bytes) {
        return None;
    }
    let mut value = 0;
    for b in bytes {
        match push_digit(value, *b) {
            None => return None,
            Some(next) => value = next,
        }
    }
    Some(value)
}

/// The number that a run of letters and digits is.
#[tactic(auto, using(crate::proofs::Numbers::number_within))]
pub fn numbered(run: &[u8]) -> Piece
    ensures answer { result ≡ spec.numbered (spec.number (spec.unsuffixed run.now)) (length run.now) }
{
    match number(unsuffixed(run)) {
        None => Piece::BadNumber,
        Some(value) => Piece::Is(Kind::Num(value as i64), run.len()),
    }
}

/// Whether a byte stands for itself between quotes of this kind.
pub fn is_plain(quote: u8, b: u8) -> bool
    ensures answer { result ≡ spec.is_plain quote b }
{
    b >= 32 && b <= 126 && b != quote && b != b'\\'
}

/// The byte that a backslash and this byte stand for, between quotes of either kind.
pub fn escaped(b: u8) -> Option<u8>
    ensures answer { result ≡ spec.escaped b }
{
    match b {
        b'n' => Some(b'\n'),
        b't' => Some(b'\t'),
        b'\\' => Some(b'\\'),
        _ => None,
    }
}

/// The same between single quotes.
fn escaped_character(b: u8) -> Option<u8>
    ensures answer { result ≡ spec.escaped_character b }
{
    match b {
        b'\'' => Some(b'\''),
        b'0' => Some(0),
        _ => escaped(b),
    }
}

/// The byte that stands for itself in a character constant.
fn plain_character(b: u8) -> Option<u8>
    ensures answer { result ≡ (if spec.is_plain 39 b then Some b else None) }
{
    if is_plain(b'\'', b) { Some(b) } else { None }
}

/// The end of a character constant that has `n` bytes so far.
fn closed(value: Option<u8>, n: usize, bytes: &[u8]) -> Piece
    requires { (0 < n) × (n < 10) }
    ensures answer { result ≡ spec.closed value n bytes.now }
    ensures takes { Takes result (n + length bytes.now) }
{
    match (value, bytes) {
        (None, _) => Piece::BadByte(n - 1),
        (Some(value), [b'\'', ..]) => Piece::Is(Kind::Num(i64::from(value)), n + 1),
        (Some(_), _) => Piece::BadByte(n),
    }
}

/// A character constant, of which these bytes follow the opening quote.
pub fn character(bytes: &[u8]) -> Piece
    ensures answer { result ≡ spec.character bytes.now }
    ensures takes { Takes result (length bytes.now + 1) }
{
    match bytes {
        [] => Piece::BadByte(1),
        [b'\\'] => Piece::BadByte(2),
        [b'\\', b, rest @ ..] => closed(escaped_character(*b), 3, rest),
        [b, rest @ ..] => closed(plain_character(*b), 2, rest),
    }
}
