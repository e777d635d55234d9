//! Keywords and marks.

ghost use Rattle.std.specs.Prelude.{◌≡◌};
ghost use Rattle.c_tree.specs.Scan as spec;

use c_tree::Word;

/// Whether these bytes are a keyword of C99 that the grammar does not use.
fn is_other(bytes: &[u8]) -> bool
    ensures answer { result ≡ spec.is_other bytes.now }
{
    bytes == b"auto".as_slice()
        || bytes == b"case".as_slice()
        || bytes == b"char".as_slice()
        || bytes == b"const".as_slice()
        || bytes == b"default".as_slice()
        || bytes == b"double".as_slice()
        || bytes == b"enum".as_slice()
        || bytes == b"extern".as_slice()
        || bytes == b"float".as_slice()
        || bytes == b"goto".as_slice()
        || bytes == b"inline".as_slice()
        || bytes == b"register".as_slice()
        || bytes == b"restrict".as_slice()
        || bytes == b"short".as_slice()
        || bytes == b"signed".as_slice()
        || bytes == b"sizeof".as_slice()
        || bytes == b"static".as_slice()
        || bytes == b"struct".as_slice()
        || bytes == b"switch".as_slice()
        || bytes == b"typedef".as_slice()
        || bytes == b"union".as_slice()
        || bytes == b"unsigned".as_slice()
        || bytes == b"volatile".as_slice()
        || bytes == b"_Bool".as_slice()
        || bytes == b"_Complex".as_slice()
        || bytes == b"_Imaginary".as_slice()
}

/// The keyword that these bytes are, from those that name what is at hand.
fn keyword_of_calls(bytes: &[u8]) -> Option<Word>
    ensures answer { result ≡ spec.keyword_of_calls bytes.now }
{
    if bytes == b"main".as_slice() {
        Some(Word::Main)
    } else if bytes == b"putchar".as_slice() {
        Some(Word::Putchar)
    } else if bytes == b"printf".as_slice() {
        Some(Word::Printf)
    } else if bytes == b"getchar".as_slice() {
        Some(Word::Getchar)
    } else if bytes == b"CHECKPOINT_HERE".as_slice() {
        Some(Word::Checkpoint)
    } else if bytes == b"EXCLUDE_HERE".as_slice() {
        Some(Word::Exclude)
    } else if bytes == b"EOF".as_slice() {
        Some(Word::Eof)
    } else if bytes == b"NULL".as_slice() {
        Some(Word::Null)
    } else if is_other(bytes) {
        Some(Word::Other)
    } else {
        None
    }
}

/// The keyword that these bytes are.
pub fn keyword(bytes: &[u8]) -> Option<Word>
    ensures answer { result ≡ spec.keyword bytes.now }
{
    if bytes == b"int".as_slice() {
        Some(Word::Int)
    } else if bytes == b"long".as_slice() {
        Some(Word::Long)
    } else if bytes == b"void".as_slice() {
        Some(Word::Void)
    } else if bytes == b"return".as_slice() {
        Some(Word::Return)
    } else if bytes == b"if".as_slice() {
        Some(Word::If)
    } else if bytes == b"else".as_slice() {
        Some(Word::Else)
    } else if bytes == b"while".as_slice() {
        Some(Word::While)
    } else if bytes == b"for".as_slice() {
        Some(Word::For)
    } else if bytes == b"do".as_slice() {
        Some(Word::Do)
    } else if bytes == b"break".as_slice() {
        Some(Word::Break)
    } else if bytes == b"continue".as_slice() {
        Some(Word::Continue)
    } else {
        keyword_of_calls(bytes)
    }
}

/// The mark of these two bytes.
pub fn long_mark(b: u8, c: u8) -> Option<Word>
    ensures answer { result ≡ spec.long_mark b c }
{
    match (b, c) {
        (b'=', b'=') => Some(Word::EqualEqual),
        (b'!', b'=') => Some(Word::Unequal),
        (b'<', b'=') => Some(Word::AtMost),
        (b'>', b'=') => Some(Word::AtLeast),
        (b'<', b'<') => Some(Word::ShiftLeft),
        (b'>', b'>') => Some(Word::ShiftRight),
        (b'&', b'&') => Some(Word::AndAnd),
        (b'|', b'|') => Some(Word::OrOr),
        _ => None,
    }
}

/// The bracket or other mark of one byte that is no operator.
fn bracket(b: u8) -> Option<Word>
    ensures answer { result ≡ spec.bracket b }
{
    match b {
        b'(' => Some(Word::LParen),
        b')' => Some(Word::RParen),
        b'{' => Some(Word::LBrace),
        b'}' => Some(Word::RBrace),
        b'[' => Some(Word::LBracket),
        b']' => Some(Word::RBracket),
        b';' => Some(Word::Semi),
        b',' => Some(Word::Comma),
        b'=' => Some(Word::Assign),
        _ => None,
    }
}

/// The mark of one byte.
pub fn short_mark(b: u8) -> Option<Word>
    ensures answer { result ≡ spec.short_mark b }
{
    match b {
        b'|' => Some(Word::Bar),
        b'^' => Some(Word::Caret),
        b'&' => Some(Word::Ampersand),
        b'<' => Some(Word::Less),
        b'>' => Some(Word::Greater),
        b'+' => Some(Word::Plus),
        b'-' => Some(Word::Minus),
        b'*' => Some(Word::Star),
        b'/' => Some(Word::Slash),
        b'%' => Some(Word::Percent),
        b'!' => Some(Word::Bang),
        b'~' => Some(Word::Tilde),
        _ => bracket(b),
    }
}
