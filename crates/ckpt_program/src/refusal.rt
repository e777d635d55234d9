ghost use Rattle.std.specs.Prelude.{◌≡◌, ◌++◌, IfOk, codes};
ghost use Rattle.std.specs.Fmt.{decimal};
ghost use Rattle.ckpt_program.specs.Texts as spec;

use ckpt_base::Text;
use std::alloc::{AllocError, Global};

/// Why a source is refused. Lines are counted from 1, places from 0.
#[derive(Drop)]
pub enum Refusal {
    /// The byte at this place begins or continues no token.
    BadByte(usize),
    /// The run of letters and digits at this place begins with a digit and is no number.
    BadNumber(usize),
    /// A comment does not end.
    UnendedComment,
    /// It is no program; the line is that of the first token with which none goes on.
    Syntax(u32),
    /// The name is not known where it stands.
    Unknown(Text),
    /// The name is made twice.
    Twice(Text),
    /// It has no `main`.
    NoMain,
    /// A type does not fit in the statement of this line.
    WrongType(u32),
    /// The number of arguments is wrong in the statement of this line.
    WrongCount(u32),
    /// A directive stands in this line, outside `main`.
    DirectiveOutsideMain(u32),
    /// `main` is called in this line.
    CallsMain(u32),
    /// It has so many cells, more than 262,144.
    TooManyCells(u128),
    /// The function of this name has more than 64 parameters and locals.
    TooManyLocals(Text),
    /// `main` has so many nodes, more than 2,048.
    TooManyNodes(u32),
    /// It has so many EXCLUDE_HERE, more than 64.
    TooManyDirectives(u32),
}

impl Refusal {
    /// What tells it, behind the word `refused`.
    pub fn text(&self, alloc: Global) -> Result<Vec<u8>, AllocError>
        ensures answer { IfOk result (λ t. t.items ≡ spec.refusal_text self.now) }
    {
        match self {
            Refusal::BadByte(place) => with_number(alloc, "bad byte at ", *place as u128),
            Refusal::BadNumber(place) => with_number(alloc, "bad number at ", *place as u128),
            Refusal::UnendedComment => Vec::from_slice(alloc, b"unended comment"),
            Refusal::Syntax(line) => in_line(alloc, "syntax in line ", *line),
            Refusal::Unknown(name) => with_name(alloc, "unknown name ", name),
            Refusal::Twice(name) => twice(alloc, name),
            Refusal::NoMain => Vec::from_slice(alloc, b"no main"),
            Refusal::WrongType(line) => in_line(alloc, "wrong type in line ", *line),
            Refusal::WrongCount(line) => in_line(alloc, "wrong count in line ", *line),
            Refusal::DirectiveOutsideMain(line) => {
                in_line(alloc, "directive outside main in line ", *line)
            }
            Refusal::CallsMain(line) => in_line(alloc, "call of main in line ", *line),
            Refusal::TooManyCells(n) => so_many(alloc, *n, " cells"),
            Refusal::TooManyLocals(name) => with_name(alloc, "too many locals in ", name),
            Refusal::TooManyNodes(n) => so_many(alloc, u128::from(*n), " nodes"),
            Refusal::TooManyDirectives(n) => so_many(alloc, u128::from(*n), " excludes"),
        }
    }
}

fn with_number(alloc: Global, before: &str, number: u128) -> Result<Vec<u8>, AllocError>
    ensures answer { IfOk result (λ t. t.items ≡ before.now ++ decimal number) }
{
    let number = format!(in alloc; "{number}")?;
    let mut text = Vec::from_slice(alloc, before.as_bytes())?;
    text.extend_from_slice(number.as_bytes())?;
    Ok(text)
}

fn in_line(alloc: Global, before: &str, line: u32) -> Result<Vec<u8>, AllocError>
    ensures answer { IfOk result (λ t. t.items ≡ before.now ++ decimal line) }
{
    with_number(alloc, before, u128::from(line))
}

fn so_many(alloc: Global, number: u128, after: &str) -> Result<Vec<u8>, AllocError>
    ensures answer { IfOk result (λ t. t.items ≡ decimal number ++ after.now) }
{
    let number = format!(in alloc; "{number}")?;
    let mut text = Vec::from_slice(alloc, number.as_bytes())?;
    text.extend_from_slice(after.as_bytes())?;
    Ok(text)
}

fn with_name(alloc: Global, before: &str, name: &Text) -> Result<Vec<u8>, AllocError>
    ensures answer { IfOk result (λ t. t.items ≡ before.now ++ name.now) }
{
    let mut text = Vec::from_slice(alloc, before.as_bytes())?;
    text.extend_from_slice(name.as_bytes())?;
    Ok(text)
}

fn twice(alloc: Global, name: &Text) -> Result<Vec<u8>, AllocError>
    ensures answer { IfOk result (λ t. t.items ≡ codes "name " ++ (name.now ++ codes " twice")) }
{
    let mut text = with_name(alloc, "name ", name)?;
    text.extend_from_slice(b" twice")?;
    Ok(text)
}
