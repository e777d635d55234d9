//! The reader of expressions.

ghost use Rattle.std.specs.Prelude.{◌≡◌, ◌≤◌, ◌<◌, ◌+◌, max, IfOk};
ghost use Rattle.c_tree.specs.declared.token.Word.TheVariants as word;
ghost use Rattle.c_reader.specs.Gives.{Gives};
ghost use Rattle.c_reader.specs.Reading as reading;

use crate::look::{Fault, Opening, binds, expect, name, name_of, opening_of, operator, skip, tail};
use c_tree::{Expr, Kind, Name, Token, Word};
use sqlite_items::Boxed;
use std::alloc::Global;

/// The tightest level: no two-sided operator binds so tightly.
pub const PREFIX: usize = 11;

fn larger(a: usize, b: usize) -> usize
    ensures answer { result ≡ max a b }
{
    if a < b { b } else { a }
}

/// An index, of which the bracket stands in front, up to the bracket that closes it.
#[cycle(expr)]
pub fn index(
    alloc: Global,
    tokens: &[Token],
    depth: usize,
) -> Result<(Expr, usize, &[Token]), Fault>
    ensures answer { Gives (λ x. reading.deep x.0 x.1 x.2.now) result (reading.index (reading.below depth) tokens.now) }
    ensures within { IfOk result (λ x. x.1 ≤ depth) }
{
    let (value, value_depth, after) = deeper(alloc, tokens, depth, 1)?;
    let end = expect(after, Word::RBracket)?;
    Ok((value, value_depth + 1, end))
}

/// A name, with the index that may follow.
#[cycle(expr)]
fn named(
    alloc: Global,
    name: Name,
    tokens: &[Token],
    depth: usize,
) -> Result<(Expr, usize, &[Token]), Fault>
    ensures answer { Gives (λ x. reading.deep x.0 x.1 x.2.now) result (reading.named_of (reading.below depth) name tokens.now (reading.after word.LBracket tokens.now)) }
    ensures within { IfOk result (λ x. x.1 ≤ depth) }
{
    match skip(tokens, Word::LBracket) {
        None => Ok((Expr::Name(name), 0, tokens)),
        Some(_) => {
            let (place, place_depth, end) = index(alloc, tokens, depth)?;
            Ok((
                Expr::Index(name, Boxed::new(alloc, place)?),
                place_depth,
                end,
            ))
        }
    }
}

/// After `&`, a name with the index that may follow.
#[cycle(expr)]
fn address(alloc: Global, tokens: &[Token], depth: usize) -> Result<(Expr, usize, &[Token]), Fault>
    ensures answer { Gives (λ x. reading.deep x.0 x.1 x.2.now) result (reading.address (reading.below depth) tokens.now) }
    ensures within { IfOk result (λ x. x.1 ≤ depth) }
{
    let (name, after) = name(alloc, tokens)?;
    match skip(after, Word::LBracket) {
        None => Ok((Expr::Address(name, None), 0, after)),
        Some(_) => {
            let (place, place_depth, end) = index(alloc, after, depth)?;
            Ok((
                Expr::Address(name, Some(Boxed::new(alloc, place)?)),
                place_depth,
                end,
            ))
        }
    }
}

/// The rest of an expression that its first token, which still stands in front, begins so.
#[cycle(expr)]
fn opened(
    alloc: Global,
    tokens: &[Token],
    depth: usize,
    begins: Opening,
) -> Result<(Expr, usize, &[Token]), Fault>
    ensures answer { Gives (λ x. reading.deep x.0 x.1 x.2.now) result (reading.opened (reading.below depth) (reading.tail tokens.now) begins) }
    ensures within { IfOk result (λ x. x.1 ≤ depth) }
{
    match begins {
        Opening::Number(n) => Ok((Expr::Num(n), 0, tail(tokens))),
        Opening::Brackets => {
            let (value, value_depth, after) = deeper(alloc, tokens, depth, 1)?;
            let end = expect(after, Word::RParen)?;
            Ok((value, value_depth + 1, end))
        }
        Opening::Address => {
            let (value, value_depth, end) = address(alloc, tail(tokens), depth)?;
            Ok((value, value_depth, end))
        }
        Opening::Sign(op) => {
            let (value, value_depth, end) = deeper(alloc, tokens, depth, PREFIX)?;
            Ok((
                Expr::Unary(op, Boxed::new(alloc, value)?),
                value_depth + 1,
                end,
            ))
        }
        Opening::Nothing => Err(Fault::Unexpected(tokens.len())),
    }
}

/// An expression without two-sided operators at its front.
#[cycle(expr)]
fn first(alloc: Global, tokens: &[Token], depth: usize) -> Result<(Expr, usize, &[Token]), Fault>
    ensures answer { Gives (λ x. reading.deep x.0 x.1 x.2.now) result (reading.first (reading.below depth) tokens.now) }
    ensures within { IfOk result (λ x. x.1 ≤ depth) }
{
    match tokens.split_first() {
        None => Err(Fault::Unexpected(0)),
        Some((token, rest)) => match &token.kind {
            Kind::Num(n) => Ok((Expr::Num(*n), 0, rest)),
            Kind::Name(text) => {
                let name = name_of(alloc, text, token.constants)?;
                let (value, value_depth, end) = named(alloc, name, rest, depth)?;
                Ok((value, value_depth, end))
            }
            Kind::Format(_) => Err(Fault::Unexpected(tokens.len())),
            Kind::Word(word) => {
                let (value, value_depth, end) = opened(alloc, tokens, depth, opening_of(*word))?;
                Ok((value, value_depth, end))
            }
        },
    }
}

/// After the first token, an expression of less than the depth, of operators that bind at least so tightly.
#[cycle(expr)]
#[tactic(auto, using(crate::proofs::Turns::below_zero, crate::proofs::Turns::below_some))]
pub fn deeper(
    alloc: Global,
    tokens: &[Token],
    depth: usize,
    least: usize,
) -> Result<(Expr, usize, &[Token]), Fault>
    ensures answer { Gives (λ x. reading.deep x.0 x.1 x.2.now) result (reading.below depth least (reading.tail tokens.now)) }
    ensures within { IfOk result (λ x. x.1 < depth) }
{
    if depth == 0 {
        return Err(Fault::Unexpected(tokens.len()));
    }
    expr(alloc, tail(tokens), depth - 1, least)
}

/// An expression within the depth, of operators that bind at least so tightly.
#[cycle(expr)]
#[tactic(auto, using(crate::proofs::Turns::starts, crate::proofs::Turns::starts_not, crate::proofs::Turns::no_operator, crate::proofs::Turns::looser, crate::proofs::Turns::too_deep, crate::proofs::Turns::no_right, crate::proofs::Turns::goes_on))]
fn expr(
    alloc: Global,
    tokens: &[Token],
    depth: usize,
    least: usize,
) -> Result<(Expr, usize, &[Token]), Fault>
    ensures answer { Gives (λ x. reading.deep x.0 x.1 x.2.now) result (reading.expr depth least tokens.now) }
    ensures within { IfOk result (λ x. x.1 ≤ depth) }
{
    let (mut left, mut left_depth, mut rest) = first(alloc, tokens, depth)?;
    while let Some(op) = operator(rest) {
        let level = binds(op);
        if level < least {
            break;
        }
        if left_depth >= depth {
            return Err(Fault::Unexpected(rest.len()));
        }
        let (right, right_depth, after) = deeper(alloc, rest, depth, level + 1)?;
        left = Expr::Binary(op, Boxed::new(alloc, left)?, Boxed::new(alloc, right)?);
        left_depth = larger(left_depth, right_depth) + 1;
        rest = after;
    }
    Ok((left, left_depth, rest))
}

/// An expression within the depth.
pub fn value(alloc: Global, tokens: &[Token], depth: usize) -> Result<(Expr, &[Token]), Fault>
    ensures answer { Gives (λ x. reading.got x.0 x.1.now) result (reading.value depth tokens.now) }
{
    let (value, _, rest) = expr(alloc, tokens, depth, 1)?;
    Ok((value, rest))
}
