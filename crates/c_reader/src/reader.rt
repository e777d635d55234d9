//! The public call: a text to its tree, or its fault.

ghost use Rattle.std.specs.Prelude.{◌≡◌, ◌≤◌, ◌==◌, length, count_by, IfOk, IfErr, MatchResult};
ghost use Rattle.c_tree.specs.Programs.{IsTextOf, longest};
ghost use Rattle.c_tree.specs.declared.tree.Program.{Program};
ghost use Rattle.c_reader.specs.ReadFaults.{IsReadFault};
ghost use Rattle.c_reader.specs.ReadFaults as spec;
ghost use Rattle.c_reader.specs.declared.fault.ReadFault.TheVariants as fault;

use crate::fault::ReadFault;
use crate::items::program;
use crate::look::Fault;
use crate::scan::scan;
use c_tree::{Program, Token};
use std::alloc::Global;

/// The greatest number of bytes that a text may have.
const LONGEST: usize = 262_144;

fn newlines(text: &[u8]) -> usize
    ensures answer { result ≡ count_by (λ b. b == 10) text.now }
    ensures within { result ≤ length text.now }
{
    text.iter().filter(|b| **b == b'\n').count()
}

/// The line of a byte, or of the end, counted from 1.
#[tactic(auto, using(std::proofs::lemmas::List::take_all))]
fn line_at(text: &[u8], place: usize) -> u32
    requires { length text.now ≤ longest }
    ensures answer { result ≡ spec.line_at text.now place }
{
    let before = if place < text.len() {
        &text[..place]
    } else {
        text
    };
    newlines(before) as u32 + 1
}

/// The line of the first of the last `left` tokens; where there is none, that of the text's last byte.
fn line_of(text: &[u8], tokens: &[Token], left: usize) -> u32
    requires { length text.now ≤ longest }
    ensures answer { result ≡ spec.line_of text.now tokens.now left }
{
    match sqlite_items::at(tokens, tokens.len().saturating_sub(left)) {
        None => line_at(text, text.len().saturating_sub(1)),
        Some(token) => token.line,
    }
}

/// The tree that the text spells.
///
/// Too long a text is answered by `TooLong` with its length; else the first byte that spoils the scan by `BadByte` or
/// `BadNumber` with its place from 0, or by `UnendedComment`; else a text whose tokens spell no program by `Syntax`.
#[tactic(auto, using(crate::proofs::Accepted::is_text, crate::proofs::Accepted::scan_fault))]
pub fn read(alloc: Global, text: &[u8]) -> Result<Program, ReadFault>
    // What is read is spelled so.
    ensures found { IfOk result (λ p. IsTextOf p text.now) }
    // What is spelled is read, and nothing else.
    ensures only { (p : Program) → IsTextOf p text.now → MatchResult result (λ q. q ≡ p) (λ e. e ≡ fault.Memory) }
    // Each fault comes exactly where the text has it.
    ensures err { IfErr result (λ e. IsReadFault text.now e) }
{
    if text.len() > LONGEST {
        return Err(ReadFault::TooLong(text.len()));
    }
    let scanned = scan(alloc, text)?;
    match program(alloc, scanned.tokens.as_slice()) {
        Ok(items) => Ok(Program {
            constants: scanned.constants,
            items,
        }),
        Err(Fault::Memory) => Err(ReadFault::Memory),
        Err(Fault::Unexpected(left)) => {
            Err(ReadFault::Syntax(line_of(text, scanned.tokens.as_slice(), left)))
        }
    }
}
