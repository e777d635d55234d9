//! The reader of assignments and of the head of a `for`.

ghost use Rattle.std.specs.Prelude.{◌≡◌, IfOk, None};
ghost use Rattle.c_reader.specs.Gives.{Gives};
ghost use Rattle.c_reader.specs.Reading as reading;
ghost use Rattle.c_reader.specs.ReadingStatements as spec;

use crate::expressions::{PREFIX, deeper, index, value};
use crate::look::{Fault, expect, name, skip};
use c_tree::{Assign, Expr, Init, Place, Token, Word};
use sqlite_items::Boxed;
use std::alloc::Global;

/// The three parts between the brackets of a `for`.
#[derive(Drop)]
pub struct Head {
    /// What is done first.
    pub init: Option<Init>,
    /// What is tested before each turn.
    pub test: Option<Expr>,
    /// What is done before the next turn.
    pub update: Option<Assign>,
}

/// A name to which something is assigned, or an element of it.
fn named(alloc: Global, tokens: &[Token], depth: usize) -> Result<(Place, &[Token]), Fault>
    ensures answer { Gives (λ x. reading.got x.0 x.1.now) result (spec.place_of depth tokens.now None) }
{
    let (name, after) = name(alloc, tokens)?;
    match skip(after, Word::LBracket) {
        None => Ok((Place::Name(name), after)),
        Some(_) => {
            let (place, _, rest) = index(alloc, after, depth)?;
            Ok((Place::Index(name, place), rest))
        }
    }
}

/// What is assigned to.
pub fn place(alloc: Global, tokens: &[Token], depth: usize) -> Result<(Place, &[Token]), Fault>
    ensures answer { Gives (λ x. reading.got x.0 x.1.now) result (spec.place depth tokens.now) }
{
    match skip(tokens, Word::Star) {
        Some(_) => {
            let (value, _, rest) = deeper(alloc, tokens, depth, PREFIX)?;
            Ok((Place::At(value), rest))
        }
        None => {
            let (place, rest) = named(alloc, tokens, depth)?;
            Ok((place, rest))
        }
    }
}

/// What is assigned to a place.
pub fn set_value(
    alloc: Global,
    place: Place,
    tokens: &[Token],
    depth: usize,
) -> Result<(Assign, &[Token]), Fault>
    ensures answer { Gives (λ x. reading.got x.0 x.1.now) result (spec.set_value depth place tokens.now) }
{
    let (value, rest) = value(alloc, tokens, depth)?;
    Ok((Assign { place, value }, rest))
}

/// An assignment of a value.
fn set(alloc: Global, tokens: &[Token], depth: usize) -> Result<(Assign, &[Token]), Fault>
    ensures answer { Gives (λ x. reading.got x.0 x.1.now) result (spec.set depth tokens.now) }
{
    let (place, equals) = place(alloc, tokens, depth)?;
    let after = expect(equals, Word::Assign)?;
    let (assign, rest) = set_value(alloc, place, after, depth)?;
    Ok((assign, rest))
}

/// An expression in brackets.
pub fn condition(alloc: Global, tokens: &[Token], depth: usize) -> Result<(Expr, &[Token]), Fault>
    ensures answer { Gives (λ x. reading.got x.0 x.1.now) result (spec.condition depth tokens.now) }
{
    let inside = expect(tokens, Word::LParen)?;
    let (value, after) = value(alloc, inside, depth)?;
    let rest = expect(after, Word::RParen)?;
    Ok((value, rest))
}

/// After `long`, a name and what it starts with.
fn declared(
    alloc: Global,
    tokens: &[Token],
    depth: usize,
) -> Result<(Option<Init>, &[Token]), Fault>
    ensures answer { Gives (λ x. reading.got x.0 x.1.now) result (spec.declared depth tokens.now) }
{
    let (name, equals) = name(alloc, tokens)?;
    let after = expect(equals, Word::Assign)?;
    let (value, rest) = value(alloc, after, depth)?;
    Ok((Some(Init::Declare(name, value)), rest))
}

/// What stands before the first semicolon of a `for`.
fn init(alloc: Global, tokens: &[Token], depth: usize) -> Result<(Option<Init>, &[Token]), Fault>
    ensures answer { Gives (λ x. reading.got x.0 x.1.now) result (spec.init depth tokens.now) }
{
    if skip(tokens, Word::Semi).is_some() {
        return Ok((None, tokens));
    }
    match skip(tokens, Word::Long) {
        Some(after) => {
            let (init, rest) = declared(alloc, after, depth)?;
            Ok((init, rest))
        }
        None => {
            let (assign, rest) = set(alloc, tokens, depth)?;
            Ok((Some(Init::Assign(assign)), rest))
        }
    }
}

/// What stands between the semicolons of a `for`.
fn test(alloc: Global, tokens: &[Token], depth: usize) -> Result<(Option<Expr>, &[Token]), Fault>
    ensures answer { Gives (λ x. reading.got x.0 x.1.now) result (spec.test depth tokens.now) }
{
    if skip(tokens, Word::Semi).is_some() {
        return Ok((None, tokens));
    }
    let (value, rest) = value(alloc, tokens, depth)?;
    Ok((Some(value), rest))
}

/// What stands behind the semicolons of a `for`.
fn update(
    alloc: Global,
    tokens: &[Token],
    depth: usize,
) -> Result<(Option<Assign>, &[Token]), Fault>
    ensures answer { Gives (λ x. reading.got x.0 x.1.now) result (spec.update depth tokens.now) }
{
    if skip(tokens, Word::RParen).is_some() {
        return Ok((None, tokens));
    }
    let (assign, rest) = set(alloc, tokens, depth)?;
    Ok((Some(assign), rest))
}

/// The condition between the semicolons of a `for`.
fn test_part(
    alloc: Global,
    tokens: &[Token],
    depth: usize,
) -> Result<(Option<Expr>, &[Token]), Fault>
    ensures answer { Gives (λ x. reading.got x.0 x.1.now) result (spec.test_part depth tokens.now) }
{
    let inside = expect(tokens, Word::Semi)?;
    let (test, after) = test(alloc, inside, depth)?;
    let rest = expect(after, Word::Semi)?;
    Ok((test, rest))
}

/// What is done before the next turn of a `for`, up to the bracket that closes the head.
fn update_part(
    alloc: Global,
    tokens: &[Token],
    depth: usize,
) -> Result<(Option<Assign>, &[Token]), Fault>
    ensures answer { Gives (λ x. reading.got x.0 x.1.now) result (spec.update_part depth tokens.now) }
{
    let (update, after) = update(alloc, tokens, depth)?;
    let update = Boxed::new(alloc, update)?;
    let rest = expect(after, Word::RParen)?;
    Ok((update.into_inner(), rest))
}

/// The head of a `for`.
pub fn for_head(alloc: Global, tokens: &[Token], depth: usize) -> Result<(Head, &[Token]), Fault>
    ensures answer { Gives (λ x. reading.got x.0 x.1.now) result (spec.head depth tokens.now) }
{
    let inside = expect(tokens, Word::LParen)?;
    let (init, first) = init(alloc, inside, depth)?;
    let init = Boxed::new(alloc, init)?;
    let (test, second) = test_part(alloc, first, depth)?;
    let test = Boxed::new(alloc, test)?;
    let (update, rest) = update_part(alloc, second, depth)?;
    let head = Head {
        init: init.into_inner(),
        test: test.into_inner(),
        update,
    };
    Ok((head, rest))
}
