//! The reader of statements.

ghost use Rattle.std.specs.Prelude.{◌≡◌, IfOk, List, [], length, None, true};
ghost use Rattle.c_reader.specs.declared.singles.Start.TheVariants as start';
ghost use Rattle.c_reader.specs.Gives.{Gives};
ghost use Rattle.c_reader.specs.Reading as reading;
ghost use Rattle.c_reader.specs.ReadingStatements as spec;

use crate::assignments::{condition, for_head};
use crate::locals::declaration_below;
use crate::look::{Fault, expect, skip, tail};
use crate::singles::{Start, ended, first_line, holds_other, start_at};
use c_tree::{Arm, Stmt, Token, Word};
use sqlite_items::{Boxed, Items};
use std::alloc::Global;

/// A statement within the depth, on its own.
#[cycle(stmt)]
fn boxed(
    alloc: Global,
    tokens: &[Token],
    depth: usize,
    in_loop: bool,
) -> Result<(Boxed<Stmt>, &[Token]), Fault>
    ensures answer { Gives (λ x. reading.got x.0 x.1.now) result (spec.stmt_within depth in_loop tokens.now) }
{
    let (statement, rest) = stmt(alloc, tokens, depth, in_loop)?;
    Ok((Boxed::new(alloc, statement)?, rest))
}

/// A declaration or a statement of a block.
#[cycle(stmt)]
fn entry(
    alloc: Global,
    tokens: &[Token],
    depth: usize,
    in_loop: bool,
) -> Result<(Stmt, &[Token]), Fault>
    ensures answer { Gives (λ x. reading.got x.0 x.1.now) result (spec.entry depth (spec.stmt_within depth) in_loop tokens.now) }
{
    match skip(tokens, Word::Long) {
        Some(after) => {
            let (statement, rest) = declaration_below(alloc, after, depth, first_line(tokens))?;
            Ok((statement, rest))
        }
        None => {
            let (statement, rest) = stmt(alloc, tokens, depth, in_loop)?;
            Ok((statement, rest))
        }
    }
}

/// What stands up to the brace that closes a block.
#[cycle(stmt)]
#[tactic(auto, using(crate::proofs::StatementTurns::block_starts, crate::proofs::StatementTurns::block_ends, crate::proofs::StatementTurns::block_fails))]
pub fn block(
    alloc: Global,
    tokens: &[Token],
    depth: usize,
    in_loop: bool,
) -> Result<(Items<Stmt>, &[Token]), Fault>
    ensures answer { Gives (λ x. reading.got x.0 x.1.now) result (spec.block depth (spec.stmt_within depth) in_loop (length tokens.now) [] tokens.now) }
{
    let mut statements = Items::new(alloc);
    let mut rest = tokens;
    'items: loop {
        match skip(rest, Word::RBrace) {
            Some(after) => return Ok((statements, after)),
            None => {
                let (next, after) = entry(alloc, rest, depth, in_loop)?;
                statements.push(next)?;
                rest = after;
            }
        }
    }
}

/// A condition in brackets and a statement.
#[cycle(stmt)]
fn arm(
    alloc: Global,
    tokens: &[Token],
    depth: usize,
    in_loop: bool,
) -> Result<(Arm, &[Token]), Fault>
    ensures answer { Gives (λ x. reading.got x.0 x.1.now) result (spec.arm depth (spec.stmt_within depth) in_loop tokens.now) }
{
    let (test, after) = condition(alloc, tokens, depth)?;
    let (body, rest) = stmt(alloc, after, depth, in_loop)?;
    Ok((Arm { test, body }, rest))
}

/// What stands behind the last `else` of these arms.
#[cycle(stmt)]
fn last_arm(
    alloc: Global,
    tokens: &[Token],
    depth: usize,
    in_loop: bool,
    line: u32,
    arms: Items<Arm>,
) -> Result<(Stmt, &[Token]), Fault>
    ensures answer { Gives (λ x. reading.got x.0 x.1.now) result (spec.last_arm (spec.stmt_within depth) in_loop line (λ _ _. None) arms tokens.now None) }
{
    let (last, rest) = boxed(alloc, tokens, depth, in_loop)?;
    Ok((Stmt::If(line, arms, Some(last)), rest))
}

/// The arms behind the first `if`, and what stands behind their last `else`.
#[cycle(stmt)]
#[tactic(auto, using(crate::proofs::StatementTurns::chain_starts, crate::proofs::StatementTurns::arm_fails))]
fn chain(
    alloc: Global,
    tokens: &[Token],
    depth: usize,
    in_loop: bool,
    line: u32,
) -> Result<(Stmt, &[Token]), Fault>
    ensures answer { Gives (λ x. reading.got x.0 x.1.now) result (spec.chain depth (spec.stmt_within depth) in_loop line (length tokens.now) [] tokens.now) }
{
    let mut arms = Items::new(alloc);
    let mut rest = tokens;
    'arms: loop {
        let (next, after) = arm(alloc, rest, depth, in_loop)?;
        arms.push(next)?;
        match skip(after, Word::Else) {
            None => return Ok((Stmt::If(line, arms, None), after)),
            Some(behind) => match skip(behind, Word::If) {
                Some(more) => rest = more,
                None => {
                    let (statement, end) = last_arm(alloc, behind, depth, in_loop, line, arms)?;
                    return Ok((statement, end));
                }
            },
        }
    }
}

/// After `while`, its condition and its body.
#[cycle(stmt)]
fn while_loop(
    alloc: Global,
    tokens: &[Token],
    depth: usize,
    line: u32,
) -> Result<(Stmt, &[Token]), Fault>
    ensures answer { Gives (λ x. reading.got x.0 x.1.now) result (spec.while_loop depth (spec.stmt_within depth) line tokens.now) }
{
    let (test, after) = condition(alloc, tokens, depth)?;
    let (body, rest) = boxed(alloc, after, depth, true)?;
    Ok((Stmt::While(line, test, body), rest))
}

/// After `do`, its body and its condition.
#[cycle(stmt)]
fn do_loop(
    alloc: Global,
    tokens: &[Token],
    depth: usize,
    line: u32,
) -> Result<(Stmt, &[Token]), Fault>
    ensures answer { Gives (λ x. reading.got x.0 x.1.now) result (spec.do_loop depth (spec.stmt_within depth) line tokens.now) }
{
    let (body, loops) = boxed(alloc, tokens, depth, true)?;
    let opens = expect(loops, Word::While)?;
    let (test, ends) = condition(alloc, opens, depth)?;
    let rest = expect(ends, Word::Semi)?;
    Ok((Stmt::Do(line, body, test), rest))
}

/// After `for`, its head and its body.
#[cycle(stmt)]
fn for_loop(
    alloc: Global,
    tokens: &[Token],
    depth: usize,
    line: u32,
) -> Result<(Stmt, &[Token]), Fault>
    ensures answer { Gives (λ x. reading.got x.0 x.1.now) result (spec.for_loop depth (spec.stmt_within depth) line tokens.now) }
{
    let (head, after) = for_head(alloc, tokens, depth)?;
    let head = Boxed::new(alloc, head)?;
    let (body, rest) = boxed(alloc, after, depth, true)?;
    let head = head.into_inner();
    Ok((
        Stmt::For(line, head.init, head.test, head.update, body),
        rest,
    ))
}

/// A block with its braces, of which the first stands in front.
#[cycle(stmt)]
fn inner_block(
    alloc: Global,
    tokens: &[Token],
    depth: usize,
    in_loop: bool,
    line: u32,
) -> Result<(Stmt, &[Token]), Fault>
    ensures answer { Gives (λ x. reading.got x.0 x.1.now) result (spec.statement_of depth (spec.stmt_within depth) in_loop line start'.Block tokens.now) }
{
    let (statements, rest) = block(alloc, tail(tokens), depth, in_loop)?;
    Ok((Stmt::Block(line, statements), rest))
}

/// A statement whose parts are within the depth.
#[cycle(stmt)]
#[tactic(auto, using(crate::proofs::StatementTurns::no_room))]
fn statement(
    alloc: Global,
    tokens: &[Token],
    depth: usize,
    in_loop: bool,
) -> Result<(Stmt, &[Token]), Fault>
    ensures answer { Gives (λ x. reading.got x.0 x.1.now) result (spec.statement depth (spec.stmt_within depth) in_loop tokens.now) }
{
    let line = first_line(tokens);
    let begins = start_at(tokens);
    if depth == 0 && holds_other(begins) {
        return Err(Fault::Unexpected(tokens.len()));
    }
    match begins {
        Start::Block => inner_block(alloc, tokens, depth, in_loop, line),
        Start::If => chain(alloc, tail(tokens), depth, in_loop, line),
        Start::While => while_loop(alloc, tail(tokens), depth, line),
        Start::Do => do_loop(alloc, tail(tokens), depth, line),
        Start::For => for_loop(alloc, tail(tokens), depth, line),
        start => ended(alloc, tokens, depth, in_loop, line, start),
    }
}

/// A statement within the depth.
#[cycle(stmt)]
#[tactic(auto, using(crate::proofs::StatementTurns::stmt_zero, crate::proofs::StatementTurns::stmt_some))]
fn stmt(
    alloc: Global,
    tokens: &[Token],
    depth: usize,
    in_loop: bool,
) -> Result<(Stmt, &[Token]), Fault>
    ensures answer { Gives (λ x. reading.got x.0 x.1.now) result (spec.stmt_within depth in_loop tokens.now) }
{
    if depth == 0 {
        return Err(Fault::Unexpected(tokens.len()));
    }
    statement(alloc, tokens, depth - 1, in_loop)
}
