ghost use Rattle.std.specs.Prelude.{◌≡◌, ◌++◌, ℕ, IfOk, Some, Ok, Err, MatchResult};
ghost use Rattle.std.specs.Fmt.{signed_decimal};
ghost use Rattle.c_tree.specs.State as spec;
ghost use Rattle.c_meaning.specs.Memory.{variables, target_of};
ghost use Rattle.c_meaning.specs.Working.{Did, Keeps, Took, action};

use crate::memory::{Memory, set_word};
use crate::pointer::cell_of;
use crate::value::{value, values};
use crate::work::Single;
use c_tree::{PrintPiece, RExpr, RFunction, RPlace};
use ckpt_base::{NoMemory, Trap, word};
use sqlite_items::Items;
use std::alloc::Global;

/// A run as far as it has come.
#[derive(Drop)]
pub struct Progress<'a> {
    /// Where memory is taken.
    pub alloc: Global,
    /// The functions of the program.
    pub functions: &'a [RFunction],
    /// The variables.
    pub memory: Memory,
    /// How many more calls may be active.
    pub allowed: u32,
    /// The input that was not yet taken.
    pub input: &'a [u8],
    /// The bytes written so far.
    pub output: Items<u8>,
    /// The ticks taken so far.
    pub ticks: u64,
}

/// What is stored into.
#[derive(Clone, Copy)]
pub enum Target {
    /// A cell.
    Cell(u32),
    /// A local.
    Local(u32),
    /// What a pointer names.
    Through(u64),
}

/// What a place names.
#[inline(always)]
fn target_at(place: &RPlace, memory: &Memory) -> Result<Target, Trap>
    ensures answer { MatchResult result (λ t. spec.target place.now (variables memory.now) ≡ Ok (target_of t)) (λ trap. spec.target place.now (variables memory.now) ≡ Err trap) }
{
    match place {
        RPlace::Cell(c) => Ok(Target::Cell(*c)),
        RPlace::Local(i) => Ok(Target::Local(*i)),
        RPlace::At(expr) => match value(expr, memory) {
            Err(trap) => Err(trap),
            Ok(p) => Ok(Target::Through(p)),
        },
    }
}

impl<'a> Progress<'a> {
    /// Does a statement that is done at once.
    #[inline(always)]
    pub fn perform(&mut self, single: Single<'a>) -> Result<Result<(), Trap>, NoMemory>
        ensures did { IfOk result (λ r. (m : ℕ) → Did (action single.entry m) self.old self.new r) }
        ensures keeps { Keeps self.old self.new }
    {
        match single {
            Single::Declare(place, expr) => {
                let done = self.declare(place, expr);
                Ok(done)
            }
            Single::Set(place, expr) => {
                let done = self.set(place, expr);
                Ok(done)
            }
            Single::Input(place) => {
                let done = self.input(place);
                Ok(done)
            }
            Single::Put(expr) => {
                let done = self.put(expr)?;
                Ok(done)
            }
            Single::Print(pieces, exprs) => {
                let done = self.print(pieces.as_slice(), exprs.as_slice())?;
                Ok(done)
            }
            Single::Checkpoint | Single::Exclude(_) => Ok(Ok(())),
        }
    }

    /// Stores the value with which a variable starts.
    #[inline(always)]
    fn declare(&mut self, place: &RPlace, expr: &Option<RExpr>) -> Result<(), Trap>
        ensures did { Did (spec.declare place.now expr.now) self.old self.new result }
        ensures keeps { Keeps self.old self.new }
    {
        match expr {
            None => self.store_at(place, 0),
            Some(expr) => self.set(place, expr),
        }
    }

    /// Evaluates and stores a value.
    #[inline(always)]
    fn set(&mut self, place: &RPlace, expr: &RExpr) -> Result<(), Trap>
        ensures did { Did (spec.set place.now expr.now) self.old self.new result }
        ensures keeps { Keeps self.old self.new }
    {
        match target_at(place, &self.memory) {
            Err(trap) => Err(trap),
            Ok(target) => match value(expr, &self.memory) {
                Err(trap) => Err(trap),
                Ok(a) => self.write(target, a),
            },
        }
    }

    /// Stores a value where there is a place for it.
    pub fn store(&mut self, place: &Option<RPlace>, a: u64) -> Result<(), Trap>
        ensures did { Did (spec.store place.now a) self.old self.new result }
        ensures keeps { Keeps self.old self.new }
    {
        match place {
            None => Ok(()),
            Some(place) => self.store_at(place, a),
        }
    }

    /// Stores a value at a place.
    #[inline(always)]
    fn store_at(&mut self, place: &RPlace, a: u64) -> Result<(), Trap>
        ensures did { Did (spec.store (Some place.now) a) self.old self.new result }
        ensures keeps { Keeps self.old self.new }
    {
        match target_at(place, &self.memory) {
            Err(trap) => Err(trap),
            Ok(target) => self.write(target, a),
        }
    }

    /// Takes the next byte of the input, or -1 at its end.
    #[inline(always)]
    pub fn take(&mut self) -> u64
        ensures took { Took result self.old self.new }
        ensures keeps { Keeps self.old self.new }
    {
        match self.input.split_first() {
            None => u64::MAX,
            Some((byte, rest)) => {
                self.input = rest;
                *byte as u64
            }
        }
    }

    /// Takes an input byte, and stores it where there is a place for it.
    fn input(&mut self, place: &Option<RPlace>) -> Result<(), Trap>
        ensures did { Did (spec.input place.now) self.old self.new result }
        ensures keeps { Keeps self.old self.new }
    {
        let a = self.take();
        self.store(place, a)
    }

    /// Writes the low 8 bits of a value.
    #[inline(always)]
    fn put(&mut self, expr: &RExpr) -> Result<Result<(), Trap>, NoMemory>
        ensures did { IfOk result (λ r. Did (spec.put expr.now) self.old self.new r) }
        ensures keeps { Keeps self.old self.new }
    {
        match value(expr, &self.memory) {
            Err(trap) => Ok(Err(trap)),
            Ok(a) => {
                self.output.push(word::low_byte(a))?;
                Ok(Ok(()))
            }
        }
    }

    /// Writes pieces, with the values for the numbers among them.
    fn print(
        &mut self,
        pieces: &[PrintPiece],
        exprs: &[RExpr],
    ) -> Result<Result<(), Trap>, NoMemory>
        ensures did { IfOk result (λ r. Did (spec.write_out pieces.now exprs.now) self.old self.new r) }
        ensures keeps { Keeps self.old self.new }
    {
        match values(self.alloc, exprs, &self.memory)? {
            Err(trap) => Ok(Err(trap)),
            Ok(numbers) => {
                write_pieces(self.alloc, &mut self.output, pieces, numbers.as_slice())?;
                Ok(Ok(()))
            }
        }
    }

    /// Writes a word.
    #[inline(always)]
    fn write(&mut self, target: Target, a: u64) -> Result<(), Trap>
        ensures did { Did (spec.write (target_of target) a) self.old self.new result }
        ensures keeps { Keeps self.old self.new }
    {
        match target {
            Target::Cell(c) => {
                set_word(&mut self.memory.cells, c as usize, a);
                Ok(())
            }
            Target::Local(i) => {
                set_word(&mut self.memory.locals, i as usize, a);
                Ok(())
            }
            Target::Through(p) => match cell_of(self.memory.objects.as_slice(), p) {
                Err(trap) => Err(trap),
                Ok(c) => {
                    set_word(&mut self.memory.cells, c as usize, a);
                    Ok(())
                }
            },
        }
    }
}

/// Writes pieces, each number among them by the next of the values.
fn write_pieces(
    alloc: Global,
    output: &mut Items<u8>,
    pieces: &[PrintPiece],
    numbers: &[u64],
) -> Result<(), NoMemory>
    ensures written { IfOk result (λ _. output.new ≡ output.old ++ spec.printed pieces.now numbers.now) }
{
    let mut rest = numbers;
    'pieces: for piece in pieces {
        match piece {
            PrintPiece::Byte(byte) => output.push(*byte)?,
            PrintPiece::Number => {
                if let Some((number, more)) = rest.split_first() {
                    write_number(alloc, output, word::signed(*number))?;
                    rest = more;
                }
            }
        }
    }
    Ok(())
}

/// Writes the decimal digits of a number, with `-` before a negative one.
fn write_number(alloc: Global, output: &mut Items<u8>, number: i64) -> Result<(), NoMemory>
    ensures written { IfOk result (λ _. output.new ≡ output.old ++ signed_decimal number) }
{
    let digits = format!(in alloc; "{number}")?;
    output.append(Items::from_vec(digits.into_bytes()))?;
    Ok(())
}
