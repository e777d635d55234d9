//! The reader of what stands at file scope.

ghost use Rattle.std.specs.Prelude.{◌≡◌, IfOk, true, false};
ghost use Rattle.c_reader.specs.Gives.{Gives};
ghost use Rattle.c_reader.specs.Reading as reading;
ghost use Rattle.c_reader.specs.ReadingItems as spec;

use crate::functions::{callable, main_item};
use crate::look::{Fault, expect, name, skip};
use crate::objects::objects;
use crate::singles::first_line;
use c_tree::{Item, Token, Word};
use sqlite_items::Items;
use std::alloc::Global;

/// What begins with `long`, behind which `tokens` stand, and behind a star `named`.
fn named_item<'a>(
    alloc: Global,
    tokens: &'a [Token],
    line: u32,
    is_pointer: bool,
    named: &'a [Token],
) -> Result<(Item, &'a [Token]), Fault>
    ensures answer { Gives (λ x. reading.got x.0 x.1.now) result (spec.named_item line tokens.now is_pointer named.now) }
{
    let (name, after) = name(alloc, named)?;
    match skip(after, Word::LParen) {
        Some(inside) => {
            let (item, rest) = callable(alloc, inside, is_pointer, name)?;
            Ok((item, rest))
        }
        None => {
            let (item, rest) = objects(alloc, tokens, line)?;
            Ok((item, rest))
        }
    }
}

/// What begins with `long`, which is behind.
fn long_item(alloc: Global, tokens: &[Token], line: u32) -> Result<(Item, &[Token]), Fault>
    ensures answer { Gives (λ x. reading.got x.0 x.1.now) result (spec.long_item line tokens.now) }
{
    match skip(tokens, Word::Star) {
        None => {
            let (item, rest) = named_item(alloc, tokens, line, false, tokens)?;
            Ok((item, rest))
        }
        Some(after) => {
            let (item, rest) = named_item(alloc, tokens, line, true, after)?;
            Ok((item, rest))
        }
    }
}

/// What stands at file scope.
fn next_item(alloc: Global, tokens: &[Token]) -> Result<(Item, &[Token]), Fault>
    ensures answer { Gives (λ x. reading.got x.0 x.1.now) result (spec.item tokens.now) }
{
    match skip(tokens, Word::Long) {
        Some(after) => {
            let (item, rest) = long_item(alloc, after, first_line(tokens))?;
            Ok((item, rest))
        }
        None => {
            let after = expect(tokens, Word::Int)?;
            let (item, rest) = main_item(alloc, after)?;
            Ok((item, rest))
        }
    }
}

/// The items of a whole text.
#[tactic(auto, using(crate::proofs::Files::file_starts, crate::proofs::Files::file_ends, crate::proofs::Files::file_fails))]
pub fn program(alloc: Global, tokens: &[Token]) -> Result<Items<Item>, Fault>
    ensures answer { Gives (λ items. items) result (spec.program tokens.now) }
{
    let mut items = Items::new(alloc);
    let mut rest = tokens;
    'items: while !rest.is_empty() {
        let (next, after) = next_item(alloc, rest)?;
        items.push(next)?;
        rest = after;
    }
    Ok(items)
}
