//! What stands at the front of a text.

ghost use Rattle.std.specs.Prelude.{◌≡◌, ◌+◌, ◌≤◌, ◌<◌, ◌==◌, length, drop, take, count_by, IfOk, IfSome};
ghost use Rattle.c_tree.specs.Scan as spec;
ghost use Rattle.c_reader.specs.Scanning.{Takes};

use crate::digits::{character, is_blank, is_digit, is_word, numbered, run};
use crate::strings::string;
use crate::words::{keyword, long_mark, short_mark};
use c_tree::{Kind, Piece};
use ckpt_base::Text;
use std::alloc::{AllocError, Global};

/// The bytes from the n-th on.
pub fn after(bytes: &[u8], n: usize) -> &[u8]
    requires { n ≤ length bytes.now }
    ensures { result.now ≡ drop n bytes.now }
{
    &bytes[n..]
}

/// How many lines end in these bytes.
fn newlines(bytes: &[u8]) -> usize
    ensures answer { result ≡ spec.newlines bytes.now }
    ensures within { result ≤ length bytes.now }
{
    bytes.iter().filter(|b| **b == b'\n').count()
}

/// How many bytes stand up to and with the next `*/`.
#[tactic(auto, using(crate::proofs::Comments::starts, crate::proofs::Comments::ends, crate::proofs::Comments::over, crate::proofs::Comments::goes_on))]
fn comment(bytes: &[u8]) -> Option<usize>
    ensures value { result ≡ spec.comment bytes.now }
    ensures takes { IfSome result (λ n. (0 < n) × (n ≤ length bytes.now)) }
{
    let mut n = 0;
    while n + 1 < bytes.len() {
        if bytes[n] == b'*' && bytes[n + 1] == b'/' {
            return Some(n + 2);
        }
        n += 1;
    }
    None
}

/// A comment, of which these bytes follow `/*`.
fn commented(bytes: &[u8]) -> Piece
    requires { length bytes.now ≤ 262144 }
    ensures answer { result ≡ spec.commented (spec.comment bytes.now) bytes.now }
    ensures takes { Takes result (length bytes.now + 2) }
{
    match comment(bytes) {
        None => Piece::Unended,
        Some(n) => Piece::Blank(n + 2, newlines(&bytes[..n]) as u32),
    }
}

fn is_no_newline(b: u8) -> bool
    ensures { result ≡ spec.is_no_newline b }
{
    b != b'\n'
}

fn line_length(bytes: &[u8]) -> usize
    ensures value { result ≡ length (spec.line_rest bytes.now) }
    ensures within { result ≤ length bytes.now }
{
    bytes.iter().take_while(|b| is_no_newline(**b)).count()
}

/// The bytes up to the end of the line.
#[tactic(auto, using(crate::proofs::Runs::line_front))]
pub fn line_rest(bytes: &[u8]) -> &[u8]
    ensures value { result.now ≡ spec.line_rest bytes.now }
    ensures within { length result.now ≤ length bytes.now }
{
    &bytes[..line_length(bytes)]
}

/// The first byte, and 0 where there is none.
fn next_byte(bytes: &[u8]) -> u8
    ensures answer { result ≡ spec.next_byte bytes.now }
{
    match bytes {
        [] => 0,
        [b, ..] => *b,
    }
}

fn marked_short(b: u8) -> Piece
    ensures answer { result ≡ spec.marked_short (spec.short_mark b) }
    ensures takes { Takes result 1 }
{
    match short_mark(b) {
        None => Piece::BadByte(0),
        Some(word) => Piece::Is(Kind::Word(word), 1),
    }
}

/// A mark, of which `bytes` follow its first byte.
#[tactic(auto, using(crate::proofs::Marks::some_more))]
fn marked(b: u8, bytes: &[u8]) -> Piece
    ensures answer { result ≡ spec.marked (spec.long_mark b (spec.next_byte bytes.now)) b }
    ensures takes { Takes result (length bytes.now + 1) }
{
    match long_mark(b, next_byte(bytes)) {
        None => marked_short(b),
        Some(word) => Piece::Is(Kind::Word(word), 2),
    }
}

/// The bytes behind the first.
fn behind(bytes: &[u8]) -> &[u8]
    ensures { result.now ≡ drop 1 bytes.now }
{
    match bytes {
        [] => bytes,
        [_, rest @ ..] => rest,
    }
}

/// A comment or a mark that begins with `/`.
fn slashed(bytes: &[u8]) -> Piece
    requires { length bytes.now ≤ 262143 }
    ensures answer { result ≡ spec.slashed bytes.now }
    ensures takes { Takes result (length bytes.now + 1) }
{
    match next_byte(bytes) {
        b'*' => commented(behind(bytes)),
        b'/' => Piece::Blank(line_length(bytes) + 1, 0),
        _ => marked(b'/', bytes),
    }
}

/// What begins with a byte that is neither blank nor of a word.
#[tactic(auto, unfolding(c_tree::specs::Scan::mark_piece))]
fn mark_piece(alloc: Global, b: u8, bytes: &[u8]) -> Result<Piece, AllocError>
    requires { length bytes.now ≤ 262143 }
    ensures answer { IfOk result (λ p. p ≡ spec.mark_piece b bytes.now) }
    ensures takes { IfOk result (λ p. Takes p (length bytes.now + 1)) }
{
    match b {
        b'\'' => Ok(character(bytes)),
        b'"' => {
            let piece = string(alloc, bytes)?;
            Ok(piece)
        }
        b'#' => Ok(Piece::Hash),
        b'/' => Ok(slashed(bytes)),
        _ => Ok(marked(b, bytes)),
    }
}

/// A keyword or a name.
fn named(alloc: Global, run: &[u8]) -> Result<Piece, AllocError>
    ensures answer { IfOk result (λ p. p ≡ spec.named (spec.keyword run.now) run.now) }
{
    match keyword(run) {
        Some(word) => Ok(Piece::Is(Kind::Word(word), run.len())),
        None => match Text::of_bytes(alloc, run) {
            Ok(text) => Ok(Piece::Is(Kind::Name(text), run.len())),
            Err(_) => Err(AllocError),
        },
    }
}

/// What stands at the front.
#[tactic(auto, using(crate::proofs::Marks::run_some, crate::proofs::Marks::numbered_takes, crate::proofs::Marks::named_takes), unfolding(c_tree::specs::Scan::piece))]
pub fn piece(alloc: Global, bytes: &[u8]) -> Result<Piece, AllocError>
    requires { length bytes.now ≤ 262144 }
    ensures value { IfOk result (λ p. p ≡ spec.piece bytes.now) }
    ensures takes { IfOk result (λ p. Takes p (length bytes.now)) }
{
    match bytes {
        [] => Ok(Piece::BadByte(0)),
        [b'\n', ..] => Ok(Piece::Blank(1, 1)),
        [b, rest @ ..] => {
            if is_blank(*b) {
                Ok(Piece::Blank(1, 0))
            } else if is_digit(*b) {
                Ok(numbered(run(bytes)))
            } else if is_word(*b) {
                let piece = named(alloc, run(bytes))?;
                Ok(piece)
            } else {
                let piece = mark_piece(alloc, *b, rest)?;
                Ok(piece)
            }
        }
    }
}
