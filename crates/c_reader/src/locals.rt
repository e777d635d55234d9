//! The reader of the declarations of a block.

ghost use Rattle.std.specs.Prelude.{◌≡◌, IfOk};
ghost use Rattle.c_reader.specs.Gives.{Gives};
ghost use Rattle.c_reader.specs.Reading as reading;
ghost use Rattle.c_reader.specs.Listing.{listing};
ghost use Rattle.c_reader.specs.ReadingStatements as spec;

use crate::calls::given;
use crate::look::{Fault, expect, name, skip};
use c_tree::{LocalDecl, Stmt, Token, Word};
use sqlite_items::Items;
use std::alloc::Global;

/// A declared name, behind the star that may stand before it.
fn starred(
    alloc: Global,
    tokens: &[Token],
    depth: usize,
    is_pointer: bool,
) -> Result<(LocalDecl, &[Token]), Fault>
    ensures answer { Gives (λ x. reading.got x.0 x.1.now) result (spec.local_named depth is_pointer tokens.now) }
{
    let (name, after) = name(alloc, tokens)?;
    match skip(after, Word::Assign) {
        None => Ok((
            LocalDecl {
                is_pointer,
                name,
                given: None,
            },
            after,
        )),
        Some(value) => {
            let (given, rest) = given(alloc, value, depth)?;
            Ok((
                LocalDecl {
                    is_pointer,
                    name,
                    given: Some(given),
                },
                rest,
            ))
        }
    }
}

/// A declared name.
fn local(alloc: Global, tokens: &[Token], depth: usize) -> Result<(LocalDecl, &[Token]), Fault>
    ensures answer { Gives (λ x. reading.got x.0 x.1.now) result (spec.local depth tokens.now) }
{
    match skip(tokens, Word::Star) {
        None => {
            let (local, rest) = starred(alloc, tokens, depth, false)?;
            Ok((local, rest))
        }
        Some(after) => {
            let (local, rest) = starred(alloc, after, depth, true)?;
            Ok((local, rest))
        }
    }
}

/// Declared names with commas between them.
#[tactic(auto, using(crate::proofs::Listings::starts))]
fn locals(
    alloc: Global,
    tokens: &[Token],
    depth: usize,
) -> Result<(Items<LocalDecl>, &[Token]), Fault>
    ensures answer { Gives (λ x. reading.got x.0 x.1.now) result (listing (spec.local depth) tokens.now) }
{
    let mut locals = Items::new(alloc);
    let mut rest = tokens;
    'items: loop {
        let (next, after) = local(alloc, rest, depth)?;
        locals.push(next)?;
        match skip(after, Word::Comma) {
            None => return Ok((locals, after)),
            Some(more) => rest = more,
        }
    }
}

/// The declared names after `long`, up to the semicolon.
fn declaration(
    alloc: Global,
    tokens: &[Token],
    depth: usize,
    line: u32,
) -> Result<(Stmt, &[Token]), Fault>
    ensures answer { Gives (λ x. reading.got x.0 x.1.now) result (spec.declaration depth line tokens.now) }
{
    let (locals, after) = locals(alloc, tokens, depth)?;
    let rest = expect(after, Word::Semi)?;
    Ok((Stmt::Declare(line, locals), rest))
}

/// The same of less than the depth.
pub fn declaration_below(
    alloc: Global,
    tokens: &[Token],
    depth: usize,
    line: u32,
) -> Result<(Stmt, &[Token]), Fault>
    ensures answer { Gives (λ x. reading.got x.0 x.1.now) result (spec.declaration_below depth line tokens.now) }
{
    if depth == 0 {
        return Err(Fault::Unexpected(tokens.len() + 1));
    }
    declaration(alloc, tokens, depth - 1, line)
}
