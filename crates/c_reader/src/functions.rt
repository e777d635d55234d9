//! The reader of prototypes, functions and `main`.

ghost use Rattle.std.specs.Prelude.{◌≡◌, IfOk, List, [], Some, None, Option, MatchOption};
ghost use Rattle.c_reader.specs.Gives.{Gives};
ghost use Rattle.c_reader.specs.Reading as reading;
ghost use Rattle.c_reader.specs.ReadingItems as spec;

use crate::look::{Fault, expect, name, skip};
use crate::statements::block;
use c_tree::{Function, Item, Kind, Name, Parameter, Stmt, Token, Word};
use sqlite_items::Items;
use std::alloc::Global;

/// The greatest depth of a block's statements.
const DEPTH: usize = 100;

/// Whether a name stands in front.
fn is_name(tokens: &[Token]) -> bool
    ensures answer { result ≡ reading.is_name tokens.now }
{
    match tokens.split_first() {
        None => false,
        Some((token, _)) => match &token.kind {
            Kind::Name(_) => true,
            _ => false,
        },
    }
}

/// A parameter behind its type, perhaps without a name.
fn named(
    alloc: Global,
    tokens: &[Token],
    is_pointer: bool,
) -> Result<(Option<Parameter>, &[Token]), Fault>
    ensures answer { Gives (λ x. reading.got x.0 x.1.now) result (spec.named is_pointer tokens.now) }
{
    if is_name(tokens) {
        let (name, rest) = name(alloc, tokens)?;
        Ok((Some(Parameter { is_pointer, name }), rest))
    } else {
        Ok((None, tokens))
    }
}

/// A parameter, perhaps without a name.
fn parameter(alloc: Global, tokens: &[Token]) -> Result<(Option<Parameter>, &[Token]), Fault>
    ensures answer { Gives (λ x. reading.got x.0 x.1.now) result (spec.parameter tokens.now) }
{
    let inside = expect(tokens, Word::Long)?;
    match skip(inside, Word::Star) {
        None => {
            let (parameter, rest) = named(alloc, inside, false)?;
            Ok((parameter, rest))
        }
        Some(after) => {
            let (parameter, rest) = named(alloc, after, true)?;
            Ok((parameter, rest))
        }
    }
}

/// The parameters with a further one, where all have names.
fn add(
    parameters: Option<Items<Parameter>>,
    next: Option<Parameter>,
) -> Result<Option<Items<Parameter>>, Fault>
    ensures answer { Gives (λ x. x) result (Some (spec.add parameters next)) }
{
    match parameters {
        None => Ok(None),
        Some(mut named) => match next {
            None => Ok(None),
            Some(parameter) => {
                named.push(parameter)?;
                Ok(Some(named))
            }
        },
    }
}

/// Parameters with commas between them.
#[tactic(auto, using(crate::proofs::Listings::starts))]
fn parameters(
    alloc: Global,
    tokens: &[Token],
) -> Result<(Option<Items<Parameter>>, &[Token]), Fault>
    ensures answer { Gives (λ x. reading.got x.0 x.1.now) result (spec.parameters tokens.now) }
{
    let mut parameters = Some(Items::new(alloc));
    let mut rest = tokens;
    'items: loop {
        let (next, after) = parameter(alloc, rest)?;
        parameters = add(parameters, next)?;
        match skip(after, Word::Comma) {
            None => return Ok((parameters, after)),
            Some(more) => rest = more,
        }
    }
}

/// What stands between the brackets of a head.
fn heads(alloc: Global, tokens: &[Token]) -> Result<(Option<Items<Parameter>>, &[Token]), Fault>
    ensures answer { Gives (λ x. reading.got x.0 x.1.now) result (spec.heads tokens.now) }
{
    if let Some(rest) = skip(tokens, Word::Void) {
        return Ok((Some(Items::new(alloc)), rest));
    }
    if skip(tokens, Word::RParen).is_some() {
        return Ok((Some(Items::new(alloc)), tokens));
    }
    let (parameters, rest) = parameters(alloc, tokens)?;
    Ok((parameters, rest))
}

/// The block of a function.
fn body(alloc: Global, tokens: &[Token]) -> Result<(Items<Stmt>, &[Token]), Fault>
    ensures answer { Gives (λ x. reading.got x.0 x.1.now) result (spec.body tokens.now) }
{
    let inside = expect(tokens, Word::LBrace)?;
    let (statements, rest) = block(alloc, inside, DEPTH, false)?;
    Ok((statements, rest))
}

/// The block of a function whose parameters have these names, if all have.
fn finished(
    alloc: Global,
    tokens: &[Token],
    gives_pointer: bool,
    name: Name,
    parameters: Option<Items<Parameter>>,
) -> Result<(Item, &[Token]), Fault>
    ensures answer { Gives (λ x. reading.got x.0 x.1.now) result (spec.finished gives_pointer name parameters tokens.now None) }
{
    match parameters {
        None => Err(Fault::Unexpected(tokens.len())),
        Some(parameters) => {
            let (body, rest) = body(alloc, tokens)?;
            Ok((
                Item::Function(Function {
                    gives_pointer,
                    name,
                    parameters,
                    body,
                }),
                rest,
            ))
        }
    }
}

/// A prototype or a function, behind the bracket that opens its head.
pub fn callable(
    alloc: Global,
    tokens: &[Token],
    gives_pointer: bool,
    name: Name,
) -> Result<(Item, &[Token]), Fault>
    ensures answer { Gives (λ x. reading.got x.0 x.1.now) result (spec.callable gives_pointer name tokens.now) }
{
    let (parameters, closes) = heads(alloc, tokens)?;
    let after = expect(closes, Word::RParen)?;
    match skip(after, Word::Semi) {
        Some(rest) => Ok((Item::Prototype, rest)),
        None => {
            let (item, rest) = finished(alloc, after, gives_pointer, name, parameters)?;
            Ok((item, rest))
        }
    }
}

/// The tokens after one of this kind, or all where none stands in front.
fn past(tokens: &[Token], word: Word) -> &[Token]
    ensures answer { result.now ≡ spec.past tokens.now (reading.after word tokens.now) }
{
    match skip(tokens, word) {
        None => tokens,
        Some(rest) => rest,
    }
}

/// The brackets of `main`, where `void` may stand.
fn main_head(tokens: &[Token]) -> Result<&[Token], Fault>
    ensures answer { Gives (λ rest. rest.now) result (spec.main_head tokens.now) }
{
    let inside = expect(tokens, Word::LParen)?;
    expect(past(inside, Word::Void), Word::RParen)
}

/// How many constants the text has made before the token in front, and 0 where there is none.
fn first_constants(tokens: &[Token]) -> u32
    ensures answer { result ≡ spec.first_constants tokens.now }
{
    match tokens.split_first() {
        None => 0,
        Some((token, _)) => token.constants,
    }
}

/// `main`, of which `int` is behind.
pub fn main_item(alloc: Global, tokens: &[Token]) -> Result<(Item, &[Token]), Fault>
    ensures answer { Gives (λ x. reading.got x.0 x.1.now) result (spec.main_item tokens.now) }
{
    let head = expect(tokens, Word::Main)?;
    let opens = main_head(head)?;
    let (body, rest) = body(alloc, opens)?;
    Ok((Item::Main(first_constants(tokens), body), rest))
}
