//! Looks at the tokens in front.

ghost use Rattle.std.specs.Prelude.{◌≡◌, MatchOption, Some, None, IfOk};
ghost use Rattle.c_tree.specs.Expressions as spelling;
ghost use Rattle.c_reader.specs.Gives.{Gives};
ghost use Rattle.c_reader.specs.Reading as reading;

use c_tree::{Binary, Kind, Name, Token, Unary, Word};
use ckpt_base::{NoMemory, Text};
use std::alloc::{AllocError, Global};

/// Why the tokens were not read.
#[derive(Clone, Copy, Debug, PartialEq, Eq)]
pub enum Fault {
    /// No memory was found.
    Memory,
    /// Nothing goes on with the first of the last so many tokens; with 0, nothing ends there.
    Unexpected(usize),
}

impl From<AllocError> for Fault {
    ghost use Rattle.std.specs.Prelude.{◌≡◌};
    ghost use Rattle.c_reader.specs.declared.look.Fault.TheVariants.{Memory};

    ghost from_gives = { λ _ e. e ≡ Memory };

    fn from(_: AllocError) -> Fault {
        Fault::Memory
    }
}

impl From<NoMemory> for Fault {
    ghost use Rattle.std.specs.Prelude.{◌≡◌};
    ghost use Rattle.c_reader.specs.declared.look.Fault.TheVariants.{Memory};

    ghost from_gives = { λ _ e. e ≡ Memory };

    fn from(_: NoMemory) -> Fault {
        Fault::Memory
    }
}

/// How a keyword or a mark begins an expression.
#[derive(Clone, Copy, Debug, PartialEq, Eq)]
pub enum Opening {
    /// It is this number.
    Number(i64),
    /// An expression in brackets follows.
    Brackets,
    /// The name of what has the address follows.
    Address,
    /// The operand of a one-sided operator follows.
    Sign(Unary),
    /// Not at all.
    Nothing,
}

/// The keyword or mark in front.
pub fn front(tokens: &[Token]) -> Option<Word>
    ensures answer { result ≡ reading.front tokens.now }
{
    match tokens.split_first() {
        None => None,
        Some((token, _)) => match token.kind {
            Kind::Word(word) => Some(word),
            _ => None,
        },
    }
}

/// Whether two keywords or marks are the same.
fn same(word: Word, wanted: Word) -> bool
    ensures answer { result ≡ reading.same word wanted }
{
    word == wanted
}

/// The tokens after this keyword or mark, where it stands in front.
pub fn skip(tokens: &[Token], wanted: Word) -> Option<&[Token]>
    ensures answer { MatchOption result (reading.after wanted tokens.now ≡ None) (λ rest. reading.after wanted tokens.now ≡ Some rest.now) }
{
    match tokens.split_first() {
        None => None,
        Some((token, rest)) => match token.kind {
            Kind::Word(word) => { if same(word, wanted) { Some(rest) } else { None } }
            _ => None,
        },
    }
}

/// The tokens after this keyword or mark.
pub fn expect(tokens: &[Token], wanted: Word) -> Result<&[Token], Fault>
    ensures answer { Gives (λ rest. rest.now) result (reading.after wanted tokens.now) }
{
    match skip(tokens, wanted) {
        None => Err(Fault::Unexpected(tokens.len())),
        Some(rest) => Ok(rest),
    }
}

/// A name with these bytes.
pub fn name_of(alloc: Global, text: &Text, constants: u32) -> Result<Name, NoMemory>
    ensures answer { IfOk result (λ n. n ≡ record { text = text.now; constants = constants }) }
{
    Ok(Name {
        text: Text::of_bytes(alloc, text.as_bytes())?,
        constants,
    })
}

/// The name in front.
pub fn name(alloc: Global, tokens: &[Token]) -> Result<(Name, &[Token]), Fault>
    ensures answer { Gives (λ x. reading.got x.0 x.1.now) result (reading.name tokens.now) }
{
    match tokens.split_first() {
        None => Err(Fault::Unexpected(tokens.len())),
        Some((token, rest)) => match &token.kind {
            Kind::Name(text) => Ok((name_of(alloc, text, token.constants)?, rest)),
            _ => Err(Fault::Unexpected(tokens.len())),
        },
    }
}

/// How this keyword or mark begins an expression.
pub fn opening_of(word: Word) -> Opening
    ensures answer { result ≡ reading.opening_of word }
{
    match word {
        Word::Eof => Opening::Number(-1),
        Word::Null => Opening::Number(0),
        Word::LParen => Opening::Brackets,
        Word::Ampersand => Opening::Address,
        Word::Minus => Opening::Sign(Unary::Neg),
        Word::Bang => Opening::Sign(Unary::Not),
        Word::Tilde => Opening::Sign(Unary::Inv),
        Word::Star => Opening::Sign(Unary::Deref),
        _ => Opening::Nothing,
    }
}

/// The two-sided operator that this mark stands for.
fn operator_of(word: Word) -> Option<Binary>
    ensures answer { result ≡ reading.operator_of word }
{
    match word {
        Word::OrOr => Some(Binary::Or),
        Word::AndAnd => Some(Binary::And),
        Word::Bar => Some(Binary::BitOr),
        Word::Caret => Some(Binary::BitXor),
        Word::Ampersand => Some(Binary::BitAnd),
        Word::EqualEqual => Some(Binary::Equal),
        Word::Unequal => Some(Binary::Unequal),
        Word::Less => Some(Binary::Less),
        Word::AtMost => Some(Binary::AtMost),
        Word::Greater => Some(Binary::Greater),
        Word::AtLeast => Some(Binary::AtLeast),
        Word::ShiftLeft => Some(Binary::Shl),
        Word::ShiftRight => Some(Binary::Shr),
        Word::Plus => Some(Binary::Add),
        Word::Minus => Some(Binary::Sub),
        Word::Star => Some(Binary::Mul),
        Word::Slash => Some(Binary::Div),
        Word::Percent => Some(Binary::Rem),
        _ => None,
    }
}

/// The two-sided operator in front.
pub fn operator(tokens: &[Token]) -> Option<Binary>
    ensures answer { result ≡ reading.operator tokens.now }
{
    match front(tokens) {
        None => None,
        Some(word) => operator_of(word),
    }
}

/// How tightly an operator binds.
pub fn binds(op: Binary) -> usize
    ensures answer { result ≡ spelling.binds op }
{
    match op {
        Binary::Or => 1,
        Binary::And => 2,
        Binary::BitOr => 3,
        Binary::BitXor => 4,
        Binary::BitAnd => 5,
        Binary::Equal | Binary::Unequal => 6,
        Binary::Less | Binary::AtMost | Binary::Greater | Binary::AtLeast => 7,
        Binary::Shl | Binary::Shr => 8,
        Binary::Add | Binary::Sub => 9,
        Binary::Mul | Binary::Div | Binary::Rem => 10,
    }
}

/// All tokens but the first.
pub fn tail(tokens: &[Token]) -> &[Token]
    ensures answer { result.now ≡ reading.tail tokens.now }
{
    match tokens.split_first() {
        None => tokens,
        Some((_, rest)) => rest,
    }
}
