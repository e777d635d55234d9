//! Lines that begin with `#`.

ghost use Rattle.std.specs.Prelude.{◌≡◌, ◌≤◌, length, IfOk};
ghost use Rattle.c_tree.specs.Scan as spec;

use crate::pieces::{after, piece};
use c_tree::{Constant, Directive, Kind, Piece, Word};
use ckpt_base::{NoMemory, Text};
use sqlite_items::Items;
use std::alloc::{AllocError, Global};

/// The kinds of the tokens of a line; what is spoiled counts as a keyword of no use, and ends them.
#[tactic(auto, using(crate::proofs::Lines::starts, crate::proofs::Lines::over, crate::proofs::Lines::blank, crate::proofs::Lines::token, crate::proofs::Lines::hash, crate::proofs::Lines::bad_byte, crate::proofs::Lines::bad_number, crate::proofs::Lines::unended))]
pub fn line_kinds(alloc: Global, line: &[u8]) -> Result<Items<Kind>, AllocError>
    requires { length line.now ≤ 262144 }
    ensures answer { IfOk result (λ ks. ks ≡ spec.kinds line.now) }
{
    let mut kinds = Items::new(alloc);
    let mut rest = line;
    'pieces: while !rest.is_empty() {
        match piece(alloc, rest)? {
            Piece::Blank(n, _) => rest = after(rest, n),
            Piece::Is(kind, n) => {
                kinds.push(kind)?;
                rest = after(rest, n);
            }
            Piece::Hash | Piece::BadByte(_) | Piece::BadNumber | Piece::Unended => {
                kinds.push(Kind::Word(Word::Other))?;
                return Ok(kinds);
            }
        }
    }
    Ok(kinds)
}

/// A constant.
fn constant(alloc: Global, name: &Text, number: i64) -> Result<Directive, NoMemory>
    ensures answer { IfOk result (λ d. d ≡ spec.constant name.now number) }
{
    Ok(Directive::Define(Constant {
        name: Text::of_bytes(alloc, name.as_bytes())?,
        number,
    }))
}

/// A name and a number, with a minus or without.
fn definition(alloc: Global, kinds: &[Kind]) -> Result<Directive, NoMemory>
    ensures answer { IfOk result (λ d. d ≡ spec.definition kinds.now) }
{
    match kinds {
        [Kind::Name(name), Kind::Num(n)] => constant(alloc, name, *n),
        [Kind::Name(name), Kind::Word(Word::Minus), Kind::Num(n)] => {
            constant(alloc, name, n.wrapping_neg())
        }
        _ => Ok(Directive::Bad),
    }
}

/// What a line says, by its first word and what follows it.
fn directive_of(alloc: Global, word: &Text, kinds: &[Kind]) -> Result<Directive, NoMemory>
    ensures answer { IfOk result (λ d. d ≡ spec.directive_of word.now kinds.now) }
{
    if word.as_bytes() == b"include".as_slice() {
        Ok(Directive::Include)
    } else if word.as_bytes() == b"define".as_slice() {
        definition(alloc, kinds)
    } else {
        Ok(Directive::Bad)
    }
}

/// What a line says, by the tokens behind its `#`.
pub fn directive(alloc: Global, kinds: &[Kind]) -> Result<Directive, NoMemory>
    ensures answer { IfOk result (λ d. d ≡ spec.directive kinds.now) }
{
    match kinds.split_first() {
        None => Ok(Directive::Bad),
        Some((first, rest)) => match first {
            Kind::Name(word) => directive_of(alloc, word, rest),
            _ => Ok(Directive::Bad),
        },
    }
}
