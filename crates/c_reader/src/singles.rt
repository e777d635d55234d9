//! The reader of single statements: those that hold no other.

ghost use Rattle.std.specs.Prelude.{◌≡◌, IfOk, None, false};
ghost use Rattle.c_tree.specs.declared.token.Word.TheVariants as word;
ghost use Rattle.c_tree.specs.declared.tree.Place.TheVariants as place';
ghost use Rattle.c_tree.specs.Statements as spelling;
ghost use Rattle.c_reader.specs.declared.singles.Start.TheVariants as start';
ghost use Rattle.c_reader.specs.Gives.{Gives};
ghost use Rattle.c_reader.specs.Reading as reading;
ghost use Rattle.c_reader.specs.ReadingStatements as spec;

use crate::assignments::{condition, place, set_value};
use crate::calls::{call, given, is_call, stmt_by, values_below};
use crate::look::{Fault, expect, front, skip, tail};
use c_tree::{Assign, Expr, Given, Kind, Name, Pieces, Place, Stmt, Token, Word};
use sqlite_items::{Boxed, Items};
use std::alloc::Global;

/// How the token in front begins a statement.
#[derive(Clone, Copy, Debug, PartialEq, Eq)]
pub enum Start {
    /// `;`
    Empty,
    /// `putchar`
    Put,
    /// `printf`
    Print,
    /// `return`
    Return,
    /// `break`
    Break,
    /// `continue`
    Continue,
    /// `CHECKPOINT_HERE`
    Checkpoint,
    /// `EXCLUDE_HERE`
    Exclude,
    /// `{`
    Block,
    /// `if`
    If,
    /// `while`
    While,
    /// `do`
    Do,
    /// `for`
    For,
    /// A call or an assignment, if anything.
    Simple,
}

/// How a keyword or a mark begins a statement.
fn start_of(word: Word) -> Start
    ensures answer { result ≡ spec.start_of word }
{
    match word {
        Word::Semi => Start::Empty,
        Word::Putchar => Start::Put,
        Word::Printf => Start::Print,
        Word::Return => Start::Return,
        Word::Break => Start::Break,
        Word::Continue => Start::Continue,
        Word::Checkpoint => Start::Checkpoint,
        Word::Exclude => Start::Exclude,
        Word::LBrace => Start::Block,
        Word::If => Start::If,
        Word::While => Start::While,
        Word::Do => Start::Do,
        Word::For => Start::For,
        _ => Start::Simple,
    }
}

/// How the token in front begins a statement.
pub fn start_at(tokens: &[Token]) -> Start
    ensures answer { result ≡ spec.start tokens.now }
{
    match front(tokens) {
        None => Start::Simple,
        Some(word) => start_of(word),
    }
}

/// Whether such a statement holds another.
pub fn holds_other(start: Start) -> bool
    ensures answer { result ≡ spec.holds_other start }
{
    match start {
        Start::If | Start::While | Start::Do | Start::For => true,
        _ => false,
    }
}

/// The line of the token in front, and 0 where there is none.
pub fn first_line(tokens: &[Token]) -> u32
    ensures answer { result ≡ spelling.first_line tokens.now }
{
    match tokens.split_first() {
        None => 0,
        Some((token, _)) => token.line,
    }
}

/// The string in front.
fn format(alloc: Global, tokens: &[Token]) -> Result<(Pieces, &[Token]), Fault>
    ensures answer { Gives (λ x. reading.got x.0 x.1.now) result (spec.format tokens.now) }
{
    match tokens.split_first() {
        None => Err(Fault::Unexpected(tokens.len())),
        Some((token, rest)) => match &token.kind {
            Kind::Format(pieces) => Ok((Items::from_slice(alloc, pieces.as_slice())?, rest)),
            _ => Err(Fault::Unexpected(tokens.len())),
        },
    }
}

/// The values that `printf` writes, up to the bracket that closes them.
fn printed(alloc: Global, tokens: &[Token], depth: usize) -> Result<(Items<Expr>, &[Token]), Fault>
    ensures answer { Gives (λ x. reading.got x.0 x.1.now) result (spec.printed depth tokens.now (reading.after word.Comma tokens.now)) }
{
    match skip(tokens, Word::Comma) {
        None => {
            let rest = expect(tokens, Word::RParen)?;
            Ok((Items::new(alloc), rest))
        }
        Some(after) => {
            if depth == 0 {
                return Err(Fault::Unexpected(tokens.len()));
            }
            let (values, closes) = values_below(alloc, after, depth)?;
            let rest = expect(closes, Word::RParen)?;
            Ok((values, rest))
        }
    }
}

/// After `printf`, what it writes.
fn print(
    alloc: Global,
    tokens: &[Token],
    depth: usize,
    line: u32,
) -> Result<(Stmt, &[Token]), Fault>
    ensures answer { Gives (λ x. reading.got x.0 x.1.now) result (spec.print depth line tokens.now) }
{
    let inside = expect(tokens, Word::LParen)?;
    let (pieces, after) = format(alloc, inside)?;
    let (values, rest) = printed(alloc, after, depth)?;
    Ok((Stmt::Print(line, pieces, values), rest))
}

/// The statement that assigns something to a name.
fn given_stmt(line: u32, name: Name, given: Given) -> Stmt
    ensures answer { result ≡ spec.given_stmt line name given }
{
    match given {
        Given::Value(value) => Stmt::Set(
            line,
            Assign {
                place: Place::Name(name),
                value,
            },
        ),
        Given::Call(function, values) => Stmt::Call(line, Some(name), function, values),
        Given::Input => Stmt::Input(line, Some(name)),
    }
}

/// What is assigned to a name.
fn assigned_name(
    alloc: Global,
    name: Name,
    tokens: &[Token],
    depth: usize,
    line: u32,
) -> Result<(Stmt, &[Token]), Fault>
    ensures answer { Gives (λ x. reading.got x.0 x.1.now) result (spec.assigned depth line (place'.Name name) tokens.now) }
{
    let (given, rest) = given(alloc, tokens, depth)?;
    Ok((given_stmt(line, name, given), rest))
}

/// What is assigned to a place.
fn assigned_place(
    alloc: Global,
    place: Place,
    tokens: &[Token],
    depth: usize,
    line: u32,
) -> Result<(Stmt, &[Token]), Fault>
    ensures answer { Gives (λ x. reading.got x.0 x.1.now) result (spec.assigned_value depth line place tokens.now) }
{
    let (assign, rest) = set_value(alloc, place, tokens, depth)?;
    Ok((Stmt::Set(line, assign), rest))
}

/// What is assigned: to a name a value or the answer of a call, to any other place a value.
fn assigned(
    alloc: Global,
    place: Place,
    tokens: &[Token],
    depth: usize,
    line: u32,
) -> Result<(Stmt, &[Token]), Fault>
    ensures answer { Gives (λ x. reading.got x.0 x.1.now) result (spec.assigned depth line place tokens.now) }
{
    match place {
        Place::Name(name) => assigned_name(alloc, name, tokens, depth, line),
        Place::Index(name, value) => {
            assigned_place(alloc, Place::Index(name, value), tokens, depth, line)
        }
        Place::At(value) => assigned_place(alloc, Place::At(value), tokens, depth, line),
    }
}

/// A call or an assignment.
fn simple(
    alloc: Global,
    tokens: &[Token],
    depth: usize,
    line: u32,
) -> Result<(Stmt, &[Token]), Fault>
    ensures answer { Gives (λ x. reading.got x.0 x.1.now) result (spec.simple depth line tokens.now) }
{
    if is_call(tokens) {
        let (called, rest) = call(alloc, tokens, depth)?;
        Ok((stmt_by(line, None, called), rest))
    } else {
        let (place, equals) = place(alloc, tokens, depth)?;
        let after = expect(equals, Word::Assign)?;
        let (statement, rest) = assigned(alloc, place, after, depth, line)?;
        Ok((statement, rest))
    }
}

/// All tokens but the first, which may stand only in a loop.
fn only_in_loop(tokens: &[Token], in_loop: bool) -> Result<&[Token], Fault>
    ensures answer { Gives (λ rest. rest.now) result (spec.only_in_loop in_loop (reading.tail tokens.now)) }
{
    if in_loop {
        Ok(tail(tokens))
    } else {
        Err(Fault::Unexpected(tokens.len()))
    }
}

/// `putchar` with its value.
fn put(alloc: Global, tokens: &[Token], depth: usize, line: u32) -> Result<(Stmt, &[Token]), Fault>
    ensures answer { Gives (λ x. reading.got x.0 x.1.now) result (spec.single depth false line start'.Put tokens.now) }
{
    let (value, rest) = condition(alloc, tail(tokens), depth)?;
    Ok((Stmt::Put(line, value), rest))
}

/// `return` with what it gives.
fn give_back(
    alloc: Global,
    tokens: &[Token],
    depth: usize,
    line: u32,
) -> Result<(Stmt, &[Token]), Fault>
    ensures answer { Gives (λ x. reading.got x.0 x.1.now) result (spec.single depth false line start'.Return tokens.now) }
{
    let (given, rest) = given(alloc, tail(tokens), depth)?;
    Ok((Stmt::Return(line, given), rest))
}

/// A single statement that begins so in a line, up to its semicolon.
pub fn single(
    alloc: Global,
    tokens: &[Token],
    depth: usize,
    in_loop: bool,
    line: u32,
    start: Start,
) -> Result<(Stmt, &[Token]), Fault>
    ensures answer { Gives (λ x. reading.got x.0 x.1.now) result (spec.single depth in_loop line start tokens.now) }
{
    match start {
        Start::Empty => Ok((Stmt::Empty(line), tokens)),
        Start::Put => put(alloc, tokens, depth, line),
        Start::Print => print(alloc, tail(tokens), depth, line),
        Start::Return => give_back(alloc, tokens, depth, line),
        Start::Break => {
            let rest = only_in_loop(tokens, in_loop)?;
            Ok((Stmt::Break(line), rest))
        }
        Start::Continue => {
            let rest = only_in_loop(tokens, in_loop)?;
            Ok((Stmt::Continue(line), rest))
        }
        Start::Checkpoint => Ok((Stmt::Checkpoint(line), tail(tokens))),
        Start::Exclude => Ok((Stmt::Exclude(line), tail(tokens))),
        Start::Simple => simple(alloc, tokens, depth, line),
        Start::Block | Start::If | Start::While | Start::Do | Start::For => {
            Err(Fault::Unexpected(tokens.len()))
        }
    }
}

/// A single statement that begins so in a line, with its semicolon.
pub fn ended(
    alloc: Global,
    tokens: &[Token],
    depth: usize,
    in_loop: bool,
    line: u32,
    start: Start,
) -> Result<(Stmt, &[Token]), Fault>
    ensures answer { Gives (λ x. reading.got x.0 x.1.now) result (spec.ended depth in_loop line start tokens.now) }
{
    let (statement, after) = single(alloc, tokens, depth, in_loop, line, start)?;
    let statement = Boxed::new(alloc, statement)?;
    let rest = expect(after, Word::Semi)?;
    Ok((statement.into_inner(), rest))
}
