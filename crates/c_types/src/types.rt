//! The types of expressions, and the resolved trees that they become.
#![tactic(auto, using(crate::proofs::KindLaws::and_kind, crate::proofs::KindLaws::or_kind, crate::proofs::KindLaws::binary_kind))]

ghost use Rattle.std.specs.Prelude.{◌≡◌, Some, true, false, IfOk};
ghost use Rattle.c_tree.specs.Kinds.{World, kind};
ghost use Rattle.c_types.specs.Types as spec;
ghost use Rattle.c_types.specs.Types.{Gives};
ghost use Rattle.c_types.specs.Fitting.{ComparesPointers, IsTyped};

use c_tree::{Binary, Direction, RBinary, RExpr, RUnary};
use sqlite_items::Boxed;
use std::alloc::{AllocError, Global};

/// What a body is of.
#[derive(Clone, Copy, Debug, PartialEq, Eq)]
pub struct Frame {
    /// Whether the function answers a pointer.
    pub gives_pointer: bool,
    /// The first cell of the locals of `main`; none in another function.
    pub first_cell: Option<u32>,
}

/// The resolved tree of an expression, by its type.
#[derive(Drop)]
pub enum Typed {
    /// A number.
    Number(RExpr),
    /// A pointer.
    Pointer(RExpr),
    /// A literal that is the number 0 or null.
    Zero,
}

/// Why an expression has no type.
#[derive(Clone, Copy, Debug, PartialEq, Eq)]
pub enum Wrong {
    /// No memory was found.
    Memory,
    /// It breaks a rule.
    Type,
}

impl From<AllocError> for Wrong {
    ghost use Rattle.std.specs.Prelude.{◌≡◌};
    ghost use Rattle.c_types.specs.declared.types.Wrong.TheVariants.{Memory};

    ghost from_gives = { λ _ e. e ≡ Memory };

    fn from(_: AllocError) -> Wrong {
        Wrong::Memory
    }
}

/// A null literal is the number 0.
pub fn as_number(t: Typed) -> Result<RExpr, Wrong>
    ensures gives { Gives (spec.as_number t) result }
    ensures kept { (w : World) → IsTyped w t → IfOk result (λ e. kind w e ≡ Some false) }
{
    match t {
        Typed::Number(e) => Ok(e),
        Typed::Pointer(_) => Err(Wrong::Type),
        Typed::Zero => Ok(RExpr::Num(0)),
    }
}

/// A null literal is null.
pub fn as_pointer(t: Typed) -> Result<RExpr, Wrong>
    ensures gives { Gives (spec.as_pointer t) result }
    ensures kept { (w : World) → IsTyped w t → IfOk result (λ e. kind w e ≡ Some true) }
{
    match t {
        Typed::Number(_) => Err(Wrong::Type),
        Typed::Pointer(e) => Ok(e),
        Typed::Zero => Ok(RExpr::Null),
    }
}

/// What a variable, an argument or an answer of a type is given.
pub fn fitting(is_pointer: bool, t: Typed) -> Result<RExpr, Wrong>
    ensures gives { Gives (spec.fitting is_pointer t) result }
    ensures kept { (w : World) → IsTyped w t → IfOk result (λ e. kind w e ≡ Some is_pointer) }
{
    if is_pointer {
        as_pointer(t)
    } else {
        as_number(t)
    }
}

/// An operator on two numbers.
fn numbers(alloc: Global, op: RBinary, a: Typed, b: Typed) -> Result<Typed, Wrong>
    ensures gives { Gives (spec.numbers (λ x y. RExpr.Binary op x y) a b) result }
    ensures kept { (w : World) → IsTyped w a → IsTyped w b → IfOk result (λ t. IsTyped w t) }
{
    let x = as_number(a)?;
    let y = as_number(b)?;
    Ok(Typed::Number(RExpr::Binary(op, Boxed::new(alloc, x)?, Boxed::new(alloc, y)?)))
}

fn or(alloc: Global, a: Typed, b: Typed) -> Result<Typed, Wrong>
    ensures gives { Gives (spec.numbers (λ x y. RExpr.Or x y) a b) result }
    ensures kept { (w : World) → IsTyped w a → IsTyped w b → IfOk result (λ t. IsTyped w t) }
{
    let x = as_number(a)?;
    let y = as_number(b)?;
    Ok(Typed::Number(RExpr::Or(Boxed::new(alloc, x)?, Boxed::new(alloc, y)?)))
}

fn and(alloc: Global, a: Typed, b: Typed) -> Result<Typed, Wrong>
    ensures gives { Gives (spec.numbers (λ x y. RExpr.And x y) a b) result }
    ensures kept { (w : World) → IsTyped w a → IsTyped w b → IfOk result (λ t. IsTyped w t) }
{
    let x = as_number(a)?;
    let y = as_number(b)?;
    Ok(Typed::Number(RExpr::And(Boxed::new(alloc, x)?, Boxed::new(alloc, y)?)))
}

/// A pointer moved by a number.
fn moved(alloc: Global, p: RExpr, direction: Direction, t: Typed) -> Result<Typed, Wrong>
    ensures gives { Gives (spec.moved p direction t) result }
    ensures kept { (w : World) → kind w p ≡ Some true → IsTyped w t → IfOk result (λ u. IsTyped w u) }
{
    let n = as_number(t)?;
    Ok(Typed::Pointer(RExpr::Move(Boxed::new(alloc, p)?, Boxed::new(alloc, n)?, direction)))
}

fn add(alloc: Global, a: Typed, b: Typed) -> Result<Typed, Wrong>
    ensures gives { Gives (spec.add a b) result }
    ensures kept { (w : World) → IsTyped w a → IsTyped w b → IfOk result (λ t. IsTyped w t) }
{
    match (a, b) {
        (Typed::Pointer(x), b) => moved(alloc, x, Direction::Forward, b),
        (Typed::Number(x), Typed::Pointer(y)) => {
            moved(alloc, y, Direction::Forward, Typed::Number(x))
        }
        (Typed::Zero, Typed::Pointer(y)) => moved(alloc, y, Direction::Forward, Typed::Zero),
        (Typed::Number(x), b) => numbers(alloc, RBinary::Add, Typed::Number(x), b),
        (Typed::Zero, b) => numbers(alloc, RBinary::Add, Typed::Zero, b),
    }
}

fn sub(alloc: Global, a: Typed, b: Typed) -> Result<Typed, Wrong>
    ensures gives { Gives (spec.sub a b) result }
    ensures kept { (w : World) → IsTyped w a → IsTyped w b → IfOk result (λ t. IsTyped w t) }
{
    match a {
        Typed::Pointer(x) => moved(alloc, x, Direction::Back, b),
        Typed::Number(x) => numbers(alloc, RBinary::Sub, Typed::Number(x), b),
        Typed::Zero => numbers(alloc, RBinary::Sub, Typed::Zero, b),
    }
}

/// Two pointers compared.
fn pointers(alloc: Global, op: RBinary, x: RExpr, y: RExpr) -> Result<Typed, Wrong>
    ensures gives { Gives (Some (Typed.Number (RExpr.Binary op x y))) result }
    ensures kept { (w : World) → ComparesPointers op → kind w x ≡ Some true → kind w y ≡ Some true → IfOk result (λ t. IsTyped w t) }
{
    Ok(Typed::Number(RExpr::Binary(op, Boxed::new(alloc, x)?, Boxed::new(alloc, y)?)))
}

/// Two numbers or two pointers compared.
fn equal(alloc: Global, op: RBinary, a: Typed, b: Typed) -> Result<Typed, Wrong>
    ensures gives { Gives (spec.equal op a b) result }
    ensures kept { (w : World) → ComparesPointers op → IsTyped w a → IsTyped w b → IfOk result (λ t. IsTyped w t) }
{
    match (a, b) {
        (Typed::Pointer(x), b) => {
            let y = as_pointer(b)?;
            pointers(alloc, op, x, y)
        }
        (Typed::Zero, Typed::Pointer(y)) => pointers(alloc, op, RExpr::Null, y),
        (Typed::Number(x), b) => numbers(alloc, op, Typed::Number(x), b),
        (Typed::Zero, b) => numbers(alloc, op, Typed::Zero, b),
    }
}

/// A two-sided operator.
pub fn binary(alloc: Global, op: Binary, a: Typed, b: Typed) -> Result<Typed, Wrong>
    ensures gives { Gives (spec.binary_typed op a b) result }
    ensures kept { (w : World) → IsTyped w a → IsTyped w b → IfOk result (λ t. IsTyped w t) }
{
    match op {
        Binary::Or => or(alloc, a, b),
        Binary::And => and(alloc, a, b),
        Binary::BitOr => numbers(alloc, RBinary::BitOr, a, b),
        Binary::BitXor => numbers(alloc, RBinary::BitXor, a, b),
        Binary::BitAnd => numbers(alloc, RBinary::BitAnd, a, b),
        Binary::Equal => equal(alloc, RBinary::Equal, a, b),
        Binary::Unequal => equal(alloc, RBinary::Unequal, a, b),
        Binary::Less => numbers(alloc, RBinary::Less, a, b),
        Binary::AtMost => numbers(alloc, RBinary::AtMost, a, b),
        Binary::Greater => numbers(alloc, RBinary::Greater, a, b),
        Binary::AtLeast => numbers(alloc, RBinary::AtLeast, a, b),
        Binary::Shl => numbers(alloc, RBinary::Shl, a, b),
        Binary::Shr => numbers(alloc, RBinary::Shr, a, b),
        Binary::Add => add(alloc, a, b),
        Binary::Sub => sub(alloc, a, b),
        Binary::Mul => numbers(alloc, RBinary::Mul, a, b),
        Binary::Div => numbers(alloc, RBinary::Div, a, b),
        Binary::Rem => numbers(alloc, RBinary::Rem, a, b),
    }
}

/// A one-sided operator on a number.
pub fn unary(alloc: Global, op: RUnary, t: Typed) -> Result<Typed, Wrong>
    ensures gives { Gives (spec.unary_number op t) result }
    ensures kept { (w : World) → IsTyped w t → IfOk result (λ u. IsTyped w u) }
{
    let x = as_number(t)?;
    Ok(Typed::Number(RExpr::Unary(op, Boxed::new(alloc, x)?)))
}

/// The number that a pointer names.
pub fn fetch(alloc: Global, p: RExpr) -> Result<Typed, Wrong>
    ensures gives { Gives (Some (Typed.Number (RExpr.Fetch p))) result }
    ensures kept { (w : World) → kind w p ≡ Some true → IfOk result (λ t. IsTyped w t) }
{
    Ok(Typed::Number(RExpr::Fetch(Boxed::new(alloc, p)?)))
}

/// What `t` points to.
pub fn deref(alloc: Global, t: Typed) -> Result<Typed, Wrong>
    ensures gives { Gives (spec.deref t) result }
    ensures kept { (w : World) → IsTyped w t → IfOk result (λ u. IsTyped w u) }
{
    let p = as_pointer(t)?;
    fetch(alloc, p)
}

/// An element of what a pointer names.
pub fn element(alloc: Global, pointer: Typed, index: Typed) -> Result<RExpr, Wrong>
    ensures gives { Gives (spec.element (Some pointer) (Some index)) result }
    ensures kept { (w : World) → IsTyped w pointer → IsTyped w index → IfOk result (λ e. kind w e ≡ Some true) }
{
    let p = as_pointer(pointer)?;
    let k = as_number(index)?;
    Ok(RExpr::Move(
        Boxed::new(alloc, p)?,
        Boxed::new(alloc, k)?,
        Direction::Forward,
    ))
}
