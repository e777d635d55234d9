//! The reader of calls and their values.

ghost use Rattle.std.specs.Prelude.{◌≡◌, IfOk, List, [], length, true, false, Option};
ghost use Rattle.c_reader.specs.Gives.{Gives};
ghost use Rattle.c_reader.specs.Reading as reading;
ghost use Rattle.c_reader.specs.ReadingCalls as spec;

use crate::expressions::value;
use crate::look::{Fault, expect, name, skip};
use c_tree::{Callee, Expr, Given, Kind, Name, Stmt, Token, Word};
use sqlite_items::Items;
use std::alloc::Global;

/// What a call calls.
#[derive(Drop)]
pub enum Called {
    /// A function with some values.
    Answer(Callee, Items<Expr>),
    /// `getchar()`
    Input,
}

/// Values with commas between them.
#[tactic(auto, using(crate::proofs::Listings::starts))]
fn values(alloc: Global, tokens: &[Token], depth: usize) -> Result<(Items<Expr>, &[Token]), Fault>
    ensures answer { Gives (λ x. reading.got x.0 x.1.now) result (spec.values depth tokens.now) }
{
    let mut values = Items::new(alloc);
    let mut rest = tokens;
    'items: loop {
        let (next, after) = value(alloc, rest, depth)?;
        values.push(next)?;
        match skip(after, Word::Comma) {
            None => return Ok((values, after)),
            Some(more) => rest = more,
        }
    }
}

/// Values of less than the depth.
pub fn values_below(
    alloc: Global,
    tokens: &[Token],
    depth: usize,
) -> Result<(Items<Expr>, &[Token]), Fault>
    ensures answer { Gives (λ x. reading.got x.0 x.1.now) result (spec.values_below depth tokens.now) }
{
    if depth == 0 {
        return Err(Fault::Unexpected(tokens.len()));
    }
    values(alloc, tokens, depth - 1)
}

/// The values of a call, up to the bracket that closes them.
fn arguments(
    alloc: Global,
    tokens: &[Token],
    depth: usize,
) -> Result<(Items<Expr>, &[Token]), Fault>
    ensures answer { Gives (λ x. reading.got x.0 x.1.now) result (spec.arguments depth tokens.now) }
{
    match skip(tokens, Word::RParen) {
        Some(rest) => Ok((Items::new(alloc), rest)),
        None => {
            let (values, after) = values_below(alloc, tokens, depth)?;
            let rest = expect(after, Word::RParen)?;
            Ok((values, rest))
        }
    }
}

/// The function that is called.
fn callee(alloc: Global, tokens: &[Token]) -> Result<(Callee, &[Token]), Fault>
    ensures answer { Gives (λ x. reading.got x.0 x.1.now) result (spec.callee tokens.now) }
{
    match skip(tokens, Word::Main) {
        Some(rest) => Ok((Callee::Main, rest)),
        None => {
            let (name, rest) = name(alloc, tokens)?;
            Ok((Callee::Name(name), rest))
        }
    }
}

/// A call.
pub fn call(alloc: Global, tokens: &[Token], depth: usize) -> Result<(Called, &[Token]), Fault>
    ensures answer { Gives (λ x. reading.got x.0 x.1.now) result (spec.call depth tokens.now) }
{
    match skip(tokens, Word::Getchar) {
        Some(opens) => {
            let closes = expect(opens, Word::LParen)?;
            let rest = expect(closes, Word::RParen)?;
            Ok((Called::Input, rest))
        }
        None => {
            let (function, opens) = callee(alloc, tokens)?;
            let inside = expect(opens, Word::LParen)?;
            let (values, rest) = arguments(alloc, inside, depth)?;
            Ok((Called::Answer(function, values), rest))
        }
    }
}

/// Whether a keyword begins a call.
fn word_calls(word: Word) -> bool
    ensures answer { result ≡ spec.word_calls word }
{
    match word {
        Word::Main | Word::Getchar => true,
        _ => false,
    }
}

/// Whether a call stands in front, if anything fits there.
pub fn is_call(tokens: &[Token]) -> bool
    ensures answer { result ≡ spec.is_call tokens.now }
{
    match tokens.split_first() {
        None => false,
        Some((token, rest)) => match &token.kind {
            Kind::Name(_) => skip(rest, Word::LParen).is_some(),
            Kind::Word(word) => word_calls(*word),
            _ => false,
        },
    }
}

fn given_by(called: Called) -> Given
    ensures answer { result ≡ spec.given_by called }
{
    match called {
        Called::Answer(function, values) => Given::Call(function, values),
        Called::Input => Given::Input,
    }
}

/// The statement of a call in a line, whose answer may be assigned to a name.
pub fn stmt_by(line: u32, name: Option<Name>, called: Called) -> Stmt
    ensures answer { result ≡ spec.stmt_by line name called }
{
    match called {
        Called::Answer(function, values) => Stmt::Call(line, name, function, values),
        Called::Input => Stmt::Input(line, name),
    }
}

/// A value or a call.
pub fn given(alloc: Global, tokens: &[Token], depth: usize) -> Result<(Given, &[Token]), Fault>
    ensures answer { Gives (λ x. reading.got x.0 x.1.now) result (spec.given depth tokens.now) }
{
    if is_call(tokens) {
        let (called, rest) = call(alloc, tokens, depth)?;
        Ok((given_by(called), rest))
    } else {
        let (value, rest) = value(alloc, tokens, depth)?;
        Ok((Given::Value(value), rest))
    }
}
