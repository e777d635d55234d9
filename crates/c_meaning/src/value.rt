ghost use Rattle.std.specs.Prelude.{◌≡◌, IfOk, slice_index_or};
ghost use Rattle.c_tree.specs.State as spec;
ghost use Rattle.c_meaning.specs.Memory.{variables, test_of};

use crate::memory::Memory;
use crate::pointer::{cell_of, moved, object_pointer};
use c_tree::{RBinary, RExpr, RUnary};
use ckpt_base::{NoMemory, Trap, word};
use sqlite_items::Items;
use std::alloc::Global;

/// The value of an expression, or the trap that evaluating it comes to.
pub fn value(expr: &RExpr, memory: &Memory) -> Result<u64, Trap>
    ensures answer { result ≡ spec.value expr.now (variables memory.now) }
{
    match expr {
        RExpr::Num(n) => Ok(word::word_of(*n)),
        RExpr::Cell(c) => Ok(word_at(memory.cells.as_slice(), *c as u64)),
        RExpr::Local(i) => Ok(word_at(memory.locals.as_slice(), *i as u64)),
        RExpr::Object(o) => Ok(object_pointer(*o)),
        RExpr::Null => Ok(0),
        RExpr::Unary(op, x) => {
            let a = value(x.get(), memory)?;
            Ok(unary(*op, a))
        }
        RExpr::Binary(op, x, y) => {
            let a = value(x.get(), memory)?;
            let b = value(y.get(), memory)?;
            binary(*op, a, b)
        }
        RExpr::And(x, y) => {
            let a = value(x.get(), memory)?;
            if word::holds(a) {
                let b = value(y.get(), memory)?;
                Ok(word::truth(word::holds(b)))
            } else {
                Ok(0)
            }
        }
        RExpr::Or(x, y) => {
            let a = value(x.get(), memory)?;
            if word::holds(a) {
                Ok(1)
            } else {
                let b = value(y.get(), memory)?;
                Ok(word::truth(word::holds(b)))
            }
        }
        RExpr::Move(x, y, direction) => {
            let p = value(x.get(), memory)?;
            let n = value(y.get(), memory)?;
            moved(memory.objects.as_slice(), p, n, *direction)
        }
        RExpr::Fetch(x) => {
            let p = value(x.get(), memory)?;
            fetched(p, memory)
        }
    }
}

/// The word of the cell that a pointer names.
#[inline(always)]
fn fetched(p: u64, memory: &Memory) -> Result<u64, Trap>
    ensures answer { result ≡ spec.fetched p (variables memory.now) }
{
    let c = cell_of(memory.objects.as_slice(), p)?;
    Ok(word_at(memory.cells.as_slice(), c))
}

/// The word at a place, and 0 where there is none.
#[inline(always)]
fn word_at(words: &[u64], at: u64) -> u64
    ensures answer { result ≡ slice_index_or words.now at 0 }
{
    match words.get(at as usize) {
        None => 0,
        Some(a) => *a,
    }
}

/// The value of a condition, which is 1 where there is none.
#[inline(always)]
pub fn test_value(test: Option<&RExpr>, memory: &Memory) -> Result<u64, Trap>
    ensures answer { result ≡ test_of test.entry (variables memory.now) }
{
    match test {
        None => Ok(1),
        Some(expr) => value(expr, memory),
    }
}

/// The values of some expressions, from left to right.
pub fn values(
    alloc: Global,
    exprs: &[RExpr],
    memory: &Memory,
) -> Result<Result<Items<u64>, Trap>, NoMemory>
    ensures answer { IfOk result (λ r. r ≡ spec.values exprs.now (variables memory.now)) }
{
    let mut found = Items::new(alloc);
    'exprs: for expr in exprs {
        match value(expr, memory) {
            Err(trap) => return Ok(Err(trap)),
            Ok(a) => found.push(a)?,
        }
    }
    Ok(Ok(found))
}

/// What a one-sided operator makes of a value.
#[inline(always)]
fn unary(op: RUnary, a: u64) -> u64
    ensures answer { result ≡ spec.unary op a }
{
    match op {
        RUnary::Neg => word::negation(a),
        RUnary::Not => word::truth(!word::holds(a)),
        RUnary::Inv => word::inverse(a),
    }
}

/// What a two-sided operator makes of two values.
#[inline(always)]
fn binary(op: RBinary, a: u64, b: u64) -> Result<u64, Trap>
    ensures answer { result ≡ spec.binary op a b }
{
    match op {
        RBinary::Add => Ok(word::sum(a, b)),
        RBinary::Sub => Ok(word::difference(a, b)),
        RBinary::Mul => Ok(word::product(a, b)),
        RBinary::Div => word::quotient(a, b),
        RBinary::Rem => word::remainder(a, b),
        RBinary::Shl => word::left_shift(a, b),
        RBinary::Shr => word::right_shift(a, b),
        RBinary::BitAnd => Ok(word::and(a, b)),
        RBinary::BitOr => Ok(word::or(a, b)),
        RBinary::BitXor => Ok(word::xor(a, b)),
        RBinary::Equal => Ok(word::truth(word::is_equal(a, b))),
        RBinary::Unequal => Ok(word::truth(!word::is_equal(a, b))),
        RBinary::Less => Ok(word::truth(word::is_less(a, b))),
        RBinary::AtMost => Ok(word::truth(word::is_at_most(a, b))),
        RBinary::Greater => Ok(word::truth(word::is_less(b, a))),
        RBinary::AtLeast => Ok(word::truth(word::is_at_most(b, a))),
    }
}
