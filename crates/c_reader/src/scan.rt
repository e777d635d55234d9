//! The scan, which takes a text apart into tokens and finds its first fault.

ghost use Rattle.std.specs.Prelude.{◌≡◌, ◌≤◌, ◌<◌, ◌+◌, length, IfOk, IfErr, if◌then◌else◌};
ghost use Rattle.c_tree.specs.declared.token.Directive.TheVariants as directive';
ghost use Rattle.c_tree.specs.Scan as spec;
ghost use Rattle.c_reader.specs.Scanning.{GivesScan, Moved, IsWithin, Stops};
ghost use Rattle.c_tree.specs.declared.token.Piece.TheVariants as piece';
ghost use Rattle.c_reader.specs.declared.fault.ReadFault.TheVariants as fault';

use crate::directives::{directive, line_kinds};
use crate::fault::ReadFault;
use crate::here::{Here, made, passed, start, taken};
use crate::pieces::{after, line_rest, piece};
use c_tree::{Constant, Directive, Kind, Piece, Token};
use sqlite_items::Items;
use std::alloc::Global;

/// The tokens and the constants of a text, each in order, as far as it was taken apart.
#[derive(Drop)]
pub struct Scanned {
    /// Its tokens.
    pub tokens: Items<Token>,
    /// The constants that its lines make.
    pub constants: Items<Constant>,
    /// How far it was taken apart.
    pub here: Here,
}

/// What a line says, where it may say something.
fn directed(alloc: Global, fresh: bool, line: &[u8]) -> Result<Directive, ReadFault>
    requires { length line.now ≤ 262144 }
    ensures answer { IfOk result (λ d. d ≡ (if fresh then spec.directive (spec.kinds line.now) else directive'.Bad)) }
    ensures failed { IfErr result (λ e. e ≡ fault'.Memory) }
{
    if !fresh {
        return Ok(Directive::Bad);
    }
    let kinds = line_kinds(alloc, line)?;
    match directive(alloc, kinds.as_slice()) {
        Ok(says) => Ok(says),
        Err(_) => Err(ReadFault::Memory),
    }
}

impl Scanned {
    /// Takes blanks in which so many lines end.
    #[tactic(auto, using(crate::proofs::Scans::blank))]
    fn pass(&mut self, rest: &[u8], bytes: usize, lines: u32)
        requires within { IsWithin self.old.here (length rest.now) }
        requires piece { spec.piece rest.now ≡ piece'.Blank bytes lines }
        requires takes { (0 < bytes) × (bytes ≤ length rest.now) × (lines ≤ bytes) }
        ensures moved { Moved self.old self.new rest.now bytes }
    {
        self.here = passed(self.here, bytes, lines);
    }

    /// Takes a token.
    #[tactic(auto, using(crate::proofs::Scans::token))]
    fn take(&mut self, rest: &[u8], kind: Kind, bytes: usize) -> Result<(), ReadFault>
        requires within { IsWithin self.old.here (length rest.now) }
        requires piece { spec.piece rest.now ≡ piece'.Is kind bytes }
        requires takes { (0 < bytes) × (bytes ≤ length rest.now) }
        ensures moved { IfOk result (λ _. Moved self.old self.new rest.now bytes) }
        ensures failed { IfErr result (λ e. e ≡ fault'.Memory) }
    {
        self.tokens.push(Token {
            kind,
            line: self.here.line,
            constants: self.here.constants,
        })?;
        self.here = taken(self.here, bytes);
        Ok(())
    }

    /// Takes a line that begins with `#`, and answers its bytes.
    #[tactic(auto, using(crate::proofs::Scans::include, crate::proofs::Scans::define, crate::proofs::Scans::bad_line))]
    fn direct(&mut self, alloc: Global, rest: &[u8]) -> Result<usize, ReadFault>
        requires within { IsWithin self.old.here (length rest.now) }
        requires piece { spec.piece rest.now ≡ piece'.Hash }
        requires some { 0 < length rest.now }
        ensures moved { IfOk result (λ n. Moved self.old self.new rest.now n) }
        ensures failed { IfErr result (λ e. Stops self.old rest.now e) }
    {
        let line = line_rest(after(rest, 1));
        let bytes = line.len() + 1;
        match directed(alloc, self.here.fresh, line)? {
            Directive::Include => {
                self.here = passed(self.here, bytes, 0);
                Ok(bytes)
            }
            Directive::Define(constant) => {
                self.constants.push(constant)?;
                self.here = made(self.here, bytes);
                Ok(bytes)
            }
            Directive::Bad => Err(ReadFault::BadByte(self.here.place)),
        }
    }

    /// Takes what stands at the front, and answers its bytes.
    #[tactic(auto, using(crate::proofs::Scans::bad_byte, crate::proofs::Scans::bad_number, crate::proofs::Scans::unended))]
    fn step(&mut self, alloc: Global, rest: &[u8]) -> Result<usize, ReadFault>
        requires within { IsWithin self.old.here (length rest.now) }
        requires some { 0 < length rest.now }
        ensures moved { IfOk result (λ n. Moved self.old self.new rest.now n) }
        ensures failed { IfErr result (λ e. Stops self.old rest.now e) }
    {
        match piece(alloc, rest)? {
            Piece::Blank(bytes, lines) => {
                self.pass(rest, bytes, lines);
                Ok(bytes)
            }
            Piece::Is(kind, bytes) => {
                self.take(rest, kind, bytes)?;
                Ok(bytes)
            }
            Piece::Hash => {
                let bytes = self.direct(alloc, rest)?;
                Ok(bytes)
            }
            Piece::BadByte(bytes) => Err(ReadFault::BadByte(self.here.place + bytes)),
            Piece::BadNumber => Err(ReadFault::BadNumber(self.here.place)),
            Piece::Unended => Err(ReadFault::UnendedComment),
        }
    }
}

/// The tokens and the constants of a text, or its first fault.
#[tactic(auto, using(crate::proofs::Scans::begins, crate::proofs::Scans::is_over, crate::proofs::Scans::stops))]
pub fn scan(alloc: Global, text: &[u8]) -> Result<Scanned, ReadFault>
    requires { length text.now ≤ 262144 }
    ensures answer { GivesScan result (spec.scan text.now) }
{
    let mut scanned = Scanned {
        tokens: Items::new(alloc),
        constants: Items::new(alloc),
        here: start(),
    };
    let mut rest = text;
    'pieces: while !rest.is_empty() {
        let bytes = scanned.step(alloc, rest)?;
        rest = after(rest, bytes);
    }
    Ok(scanned)
}
