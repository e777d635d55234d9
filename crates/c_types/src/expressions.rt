//! The types of names and whole expressions, and the resolved trees that they become.
#![tactic(auto)]

ghost use Rattle.std.specs.Prelude.{◌≡◌, Some, true, IfOk, slice_get};
ghost use Rattle.c_tree.specs.Kinds.{World, kind};
ghost use Rattle.c_types.specs.Scope as scoped;
ghost use Rattle.c_types.specs.File as files;
ghost use Rattle.c_types.specs.Types as spec;
ghost use Rattle.c_types.specs.Types.{Gives};
ghost use Rattle.c_types.specs.Fitting.{FitsFile, FitsLocals, IsTyped, local_kind};

use crate::file::{FileNames, Meaning, cell_number};
use crate::scope::Scope;
use crate::types::{Frame, Typed, Wrong, as_pointer, binary, deref, element, fetch, unary};
use c_tree::{Expr, ObjectKind, RExpr, RUnary, Unary};
use ckpt_base::Text;
use sqlite_items::at;
use std::alloc::Global;

/// A local by its number: a cell in `main`.
pub fn variable_at(first_cell: Option<u32>, number: u32) -> RExpr
    ensures answer { result ≡ spec.variable_at first_cell number }
    ensures kept { (w : World) → kind w result ≡ local_kind w first_cell number }
{
    match first_cell {
        None => RExpr::Local(number),
        Some(cell) => RExpr::Cell(cell_number(cell as u128 + number as u128)),
    }
}

fn of_kind(is_pointer: bool, e: RExpr) -> Typed
    ensures answer { result ≡ spec.of_kind is_pointer e }
    ensures kept { (w : World) → kind w e ≡ Some is_pointer → IsTyped w result }
{
    if is_pointer {
        Typed::Pointer(e)
    } else {
        Typed::Number(e)
    }
}

/// A local of the function.
fn local(frame: Frame, scope: &Scope, number: u32) -> Result<Typed, Wrong>
    ensures gives { Gives (spec.of_local frame number (slice_get scope.now.locals number)) result }
    ensures kept { (w : World) → FitsLocals w frame scope.now.locals → IfOk result (λ t. IsTyped w t) }
{
    match at(scope.locals(), number as usize) {
        None => Err(Wrong::Type),
        Some(l) => Ok(of_kind(l.is_pointer, variable_at(frame.first_cell, number))),
    }
}

/// An object of the file; an array is a pointer.
fn object(file: &FileNames, number: u32) -> Result<Typed, Wrong>
    ensures gives { Gives (spec.of_object number (slice_get file.now.objects number)) result }
    ensures kept { (w : World) → FitsFile w file.now → IfOk result (λ t. IsTyped w t) }
{
    match file.object(number) {
        None => Err(Wrong::Type),
        Some(o) => match o.kind {
            ObjectKind::Number => Ok(Typed::Number(RExpr::Cell(o.cell))),
            ObjectKind::Array => Ok(Typed::Pointer(RExpr::Object(number))),
            ObjectKind::Pointer => Ok(Typed::Pointer(RExpr::Cell(o.cell))),
        },
    }
}

/// What a name means in the file.
fn global(file: &FileNames, meaning: Option<Meaning>) -> Result<Typed, Wrong>
    ensures gives { Gives (spec.of_global file.now meaning) result }
    ensures kept { (w : World) → FitsFile w file.now → IfOk result (λ t. IsTyped w t) }
{
    match meaning {
        None => Err(Wrong::Type),
        Some(Meaning::Object(number)) => object(file, number),
        Some(Meaning::Constant(value)) => Ok(Typed::Number(RExpr::Num(value))),
        Some(Meaning::Function) => Err(Wrong::Type),
    }
}

/// What a name means.
pub fn variable(file: &FileNames, frame: Frame, scope: &Scope, name: &Text) -> Result<Typed, Wrong>
    ensures gives { Gives (spec.variable file.now frame scope.now name.now) result }
    ensures kept { (w : World) → FitsFile w file.now → FitsLocals w frame scope.now.locals → IfOk result (λ t. IsTyped w t) }
{
    match scope.local(name) {
        None => global(file, file.global(name)),
        Some(number) => local(frame, scope, number),
    }
}

/// The address of an object: a number has one.
fn address_of(file: &FileNames, number: u32) -> Result<Typed, Wrong>
    ensures gives { Gives (spec.address_of_object number (slice_get file.now.objects number)) result }
    ensures kept { (w : World) → FitsFile w file.now → IfOk result (λ t. IsTyped w t) }
{
    match file.object(number) {
        None => Err(Wrong::Type),
        Some(o) => match o.kind {
            ObjectKind::Number => Ok(Typed::Pointer(RExpr::Object(number))),
            ObjectKind::Array => Err(Wrong::Type),
            ObjectKind::Pointer => Err(Wrong::Type),
        },
    }
}

/// The address of what a name means.
fn address(file: &FileNames, scope: &Scope, name: &Text) -> Result<Typed, Wrong>
    ensures gives { Gives (spec.address_of file.now (scoped.local scope.now name.now) (files.global file.now name.now)) result }
    ensures kept { (w : World) → FitsFile w file.now → IfOk result (λ t. IsTyped w t) }
{
    if scope.local(name).is_some() {
        return Err(Wrong::Type);
    }
    match file.global(name) {
        Some(Meaning::Object(number)) => address_of(file, number),
        _ => Err(Wrong::Type),
    }
}

/// A one-sided operator.
fn one_sided(alloc: Global, op: Unary, t: Typed) -> Result<Typed, Wrong>
    ensures gives { Gives (spec.unary_typed op t) result }
    ensures kept { (w : World) → IsTyped w t → IfOk result (λ u. IsTyped w u) }
{
    match op {
        Unary::Neg => unary(alloc, RUnary::Neg, t),
        Unary::Not => unary(alloc, RUnary::Not, t),
        Unary::Inv => unary(alloc, RUnary::Inv, t),
        Unary::Deref => deref(alloc, t),
    }
}

fn literal(value: i64) -> Typed
    ensures answer { result ≡ spec.literal value }
    ensures kept { (w : World) → IsTyped w result }
{
    if value == 0 {
        Typed::Zero
    } else {
        Typed::Number(RExpr::Num(value))
    }
}

/// The pointer to an element of what a name points to.
#[cycle(expr)]
pub fn element_of(
    alloc: Global,
    file: &FileNames,
    frame: Frame,
    scope: &Scope,
    name: &Text,
    index: &Expr,
) -> Result<RExpr, Wrong>
    ensures gives { Gives (spec.element (spec.variable file.now frame scope.now name.now) (spec.expr file.now frame scope.now index.now)) result }
    ensures kept { (w : World) → FitsFile w file.now → FitsLocals w frame scope.now.locals → IfOk result (λ e. kind w e ≡ Some true) }
{
    let pointer = variable(file, frame, scope, name)?;
    let index = expr(alloc, file, frame, scope, index)?;
    element(alloc, pointer, index)
}

/// An expression.
#[cycle(expr)]
pub fn expr(
    alloc: Global,
    file: &FileNames,
    frame: Frame,
    scope: &Scope,
    e: &Expr,
) -> Result<Typed, Wrong>
    ensures gives { Gives (spec.expr file.now frame scope.now e.now) result }
    ensures kept { (w : World) → FitsFile w file.now → FitsLocals w frame scope.now.locals → IfOk result (λ t. IsTyped w t) }
{
    match e {
        Expr::Num(value) => Ok(literal(*value)),
        Expr::Name(name) => variable(file, frame, scope, &name.text),
        Expr::Index(name, index) => {
            let p = element_of(alloc, file, frame, scope, &name.text, index.get())?;
            fetch(alloc, p)
        }
        Expr::Address(name, None) => address(file, scope, &name.text),
        Expr::Address(name, Some(index)) => {
            let p = element_of(alloc, file, frame, scope, &name.text, index.get())?;
            Ok(Typed::Pointer(p))
        }
        Expr::Unary(op, side) => {
            let t = expr(alloc, file, frame, scope, side.get())?;
            one_sided(alloc, *op, t)
        }
        Expr::Binary(op, left, right) => {
            let x = expr(alloc, file, frame, scope, left.get())?;
            let y = expr(alloc, file, frame, scope, right.get())?;
            binary(alloc, *op, x, y)
        }
    }
}
