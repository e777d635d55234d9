//! The tokens of a text.

use crate::tree::{Constant, Pieces, PrintPiece};
use ckpt_base::Text;

/// A keyword or a mark (C99, 6.4.1 and 6.4.6).
#[derive(Clone, Copy, Debug, PartialEq, Eq)]
pub enum Word {
    /// `int`
    Int,
    /// `long`
    Long,
    /// `void`
    Void,
    /// `main`
    Main,
    /// `return`
    Return,
    /// `if`
    If,
    /// `else`
    Else,
    /// `while`
    While,
    /// `for`
    For,
    /// `do`
    Do,
    /// `break`
    Break,
    /// `continue`
    Continue,
    /// `putchar`
    Putchar,
    /// `printf`
    Printf,
    /// `getchar`
    Getchar,
    /// `CHECKPOINT_HERE`
    Checkpoint,
    /// `EXCLUDE_HERE`
    Exclude,
    /// `EOF`
    Eof,
    /// `NULL`
    Null,
    /// A keyword that the grammar does not use.
    Other,
    /// `(`
    LParen,
    /// `)`
    RParen,
    /// `{`
    LBrace,
    /// `}`
    RBrace,
    /// `[`
    LBracket,
    /// `]`
    RBracket,
    /// `;`
    Semi,
    /// `,`
    Comma,
    /// `=`
    Assign,
    /// `||`
    OrOr,
    /// `&&`
    AndAnd,
    /// `|`
    Bar,
    /// `^`
    Caret,
    /// `&`
    Ampersand,
    /// `==`
    EqualEqual,
    /// `!=`
    Unequal,
    /// `<`
    Less,
    /// `<=`
    AtMost,
    /// `>`
    Greater,
    /// `>=`
    AtLeast,
    /// `<<`
    ShiftLeft,
    /// `>>`
    ShiftRight,
    /// `+`
    Plus,
    /// `-`
    Minus,
    /// `*`
    Star,
    /// `/`
    Slash,
    /// `%`
    Percent,
    /// `!`
    Bang,
    /// `~`
    Tilde,
}

/// What a token is (C99, 6.4).
#[derive(Drop)]
pub enum Kind {
    /// A number or a character constant, from 0 to 9,223,372,036,854,775,807.
    Num(i64),
    /// A name.
    Name(Text),
    /// A string, taken apart into what it writes.
    Format(Pieces),
    /// A keyword or a mark.
    Word(Word),
}

/// A token and where it stands.
#[derive(Drop)]
pub struct Token {
    /// What it is.
    pub kind: Kind,
    /// The line it stands in, counted from 1.
    pub line: u32,
    /// How many constants the text has made before it.
    pub constants: u32,
}

/// What stands at the front of a text.
#[derive(Drop)]
pub enum Piece {
    /// So many bytes that separate tokens, and how many lines end in them.
    Blank(usize, u32),
    /// A token of so many bytes.
    Is(Kind, usize),
    /// `#`
    Hash,
    /// The byte after so many begins or continues no token.
    BadByte(usize),
    /// A run that begins with a digit and is no number.
    BadNumber,
    /// A comment that does not end.
    Unended,
}

/// What a line that begins with `#` says.
#[derive(Drop)]
pub enum Directive {
    /// `#include`, which is skipped.
    Include,
    /// `#define` of a constant.
    Define(Constant),
    /// Nothing.
    Bad,
}

/// What stands before a byte of a string.
#[derive(Clone, Copy, Debug, PartialEq, Eq)]
pub enum Within {
    /// Nothing that goes on.
    Plain,
    /// A backslash.
    Backslash,
    /// `%`
    Percent,
    /// `%l`
    PercentL,
}

/// What a byte of a string does.
#[derive(Clone, Copy, Debug, PartialEq, Eq)]
pub enum Turn {
    /// It ends what writes this.
    Writes(PrintPiece),
    /// It goes on.
    Goes(Within),
    /// It closes the string.
    Closes,
    /// It spoils the string.
    Spoils,
}
