//! The reader of the objects of a file.

ghost use Rattle.std.specs.Prelude.{◌≡◌, IfOk};
ghost use Rattle.c_tree.specs.declared.token.Word.TheVariants as word;
ghost use Rattle.c_reader.specs.Gives.{Gives};
ghost use Rattle.c_reader.specs.Reading as reading;
ghost use Rattle.c_reader.specs.Listing.{listing};
ghost use Rattle.c_reader.specs.ReadingItems as spec;

use crate::look::{Fault, expect, name, name_of, skip};
use c_tree::{Item, Kind, Length, ObjectDecl, ObjectForm, Token, Word};
use sqlite_items::Items;
use std::alloc::Global;

/// A number or a name of a constant.
fn extent(alloc: Global, tokens: &[Token]) -> Result<(Length, &[Token]), Fault>
    ensures answer { Gives (λ x. reading.got x.0 x.1.now) result (spec.extent tokens.now) }
{
    match tokens.split_first() {
        None => Err(Fault::Unexpected(tokens.len())),
        Some((token, rest)) => match &token.kind {
            Kind::Num(n) => Ok((Length::Num(*n), rest)),
            Kind::Name(text) => { Ok((Length::Name(name_of(alloc, text, token.constants)?), rest)) }
            _ => Err(Fault::Unexpected(tokens.len())),
        },
    }
}

/// The first number of an object, with a minus or without.
fn started(alloc: Global, tokens: &[Token]) -> Result<(ObjectForm, &[Token]), Fault>
    ensures answer { Gives (λ x. reading.got x.0 x.1.now) result (spec.started_of tokens.now (reading.after word.Minus tokens.now)) }
{
    match skip(tokens, Word::Minus) {
        None => {
            let (first, rest) = extent(alloc, tokens)?;
            Ok((ObjectForm::Started(false, first), rest))
        }
        Some(after) => {
            let (first, rest) = extent(alloc, after)?;
            Ok((ObjectForm::Started(true, first), rest))
        }
    }
}

/// What stands behind a declared name.
fn behind(alloc: Global, tokens: &[Token]) -> Result<(ObjectForm, &[Token]), Fault>
    ensures answer { Gives (λ x. reading.got x.0 x.1.now) result (spec.behind tokens.now) }
{
    if let Some(after) = skip(tokens, Word::Assign) {
        let (form, rest) = started(alloc, after)?;
        return Ok((form, rest));
    }
    match skip(tokens, Word::LBracket) {
        None => Ok((ObjectForm::Number, tokens)),
        Some(after) => {
            let (length, closes) = extent(alloc, after)?;
            let rest = expect(closes, Word::RBracket)?;
            Ok((ObjectForm::Array(length), rest))
        }
    }
}

/// A declared name of the file.
fn decl(alloc: Global, tokens: &[Token]) -> Result<(ObjectDecl, &[Token]), Fault>
    ensures answer { Gives (λ x. reading.got x.0 x.1.now) result (spec.decl tokens.now) }
{
    match skip(tokens, Word::Star) {
        None => {
            let (name, after) = name(alloc, tokens)?;
            let (form, rest) = behind(alloc, after)?;
            Ok((ObjectDecl { name, form }, rest))
        }
        Some(after) => {
            let (name, rest) = name(alloc, after)?;
            Ok((
                ObjectDecl {
                    name,
                    form: ObjectForm::Pointer,
                },
                rest,
            ))
        }
    }
}

/// Declared names with commas between them.
#[tactic(auto, using(crate::proofs::Listings::starts))]
fn decls(alloc: Global, tokens: &[Token]) -> Result<(Items<ObjectDecl>, &[Token]), Fault>
    ensures answer { Gives (λ x. reading.got x.0 x.1.now) result (listing spec.decl tokens.now) }
{
    let mut decls = Items::new(alloc);
    let mut rest = tokens;
    'items: loop {
        let (next, after) = decl(alloc, rest)?;
        decls.push(next)?;
        match skip(after, Word::Comma) {
            None => return Ok((decls, after)),
            Some(more) => rest = more,
        }
    }
}

/// The declared names after `long`, up to the semicolon.
pub fn objects(alloc: Global, tokens: &[Token], line: u32) -> Result<(Item, &[Token]), Fault>
    ensures answer { Gives (λ x. reading.got x.0 x.1.now) result (spec.objects line tokens.now) }
{
    let (decls, after) = decls(alloc, tokens)?;
    let rest = expect(after, Word::Semi)?;
    Ok((Item::Objects(line, decls), rest))
}
