//! Strings, taken apart into what they write.

ghost use Rattle.std.specs.Prelude.{◌≡◌, ◌+◌, [], length, IfOk};
ghost use Rattle.c_tree.specs.declared.token.Within.TheVariants as within;
ghost use Rattle.c_tree.specs.Scan as spec;
ghost use Rattle.c_reader.specs.Scanning.{Takes};

use crate::digits::{escaped, is_plain};
use c_tree::{Kind, Piece, PrintPiece, Turn, Within};
use sqlite_items::Items;
use std::alloc::{AllocError, Global};

fn writes_or_spoils(b: Option<u8>) -> Turn
    ensures answer { result ≡ spec.writes_or_spoils b }
{
    match b {
        None => Turn::Spoils,
        Some(b) => Turn::Writes(PrintPiece::Byte(b)),
    }
}

/// What a byte of a string does, behind what stands before it.
fn turn_of(within: Within, b: u8) -> Turn
    ensures answer { result ≡ spec.turn within b }
{
    match within {
        Within::Plain => match b {
            b'"' => Turn::Closes,
            b'\\' => Turn::Goes(Within::Backslash),
            b'%' => Turn::Goes(Within::Percent),
            _ => {
                if is_plain(b'"', b) {
                    Turn::Writes(PrintPiece::Byte(b))
                } else {
                    Turn::Spoils
                }
            }
        },
        Within::Backslash => match b {
            b'"' => Turn::Writes(PrintPiece::Byte(b'"')),
            _ => writes_or_spoils(escaped(b)),
        },
        Within::Percent => match b {
            b'%' => Turn::Writes(PrintPiece::Byte(b'%')),
            b'l' => Turn::Goes(Within::PercentL),
            _ => Turn::Spoils,
        },
        Within::PercentL => match b {
            b'd' => Turn::Writes(PrintPiece::Number),
            _ => Turn::Spoils,
        },
    }
}

/// A string, of which these bytes follow the opening quote.
#[tactic(auto, using(crate::proofs::Quotes::starts, crate::proofs::Quotes::over, crate::proofs::Quotes::closes, crate::proofs::Quotes::spoils))]
pub fn string(alloc: Global, bytes: &[u8]) -> Result<Piece, AllocError>
    ensures answer { IfOk result (λ p. p ≡ spec.string within.Plain [] 1 bytes.now) }
    ensures takes { IfOk result (λ p. Takes p (length bytes.now + 1)) }
{
    let mut pieces = Items::new(alloc);
    let mut within = Within::Plain;
    let mut read = 1;
    for b in bytes {
        match turn_of(within, *b) {
            Turn::Writes(piece) => {
                pieces.push(piece)?;
                within = Within::Plain;
                read += 1;
            }
            Turn::Goes(next) => {
                within = next;
                read += 1;
            }
            Turn::Closes => return Ok(Piece::Is(Kind::Format(pieces), read + 1)),
            Turn::Spoils => return Ok(Piece::BadByte(read)),
        }
    }
    Ok(Piece::BadByte(read))
}
