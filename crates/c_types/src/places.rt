//! What stands in a statement of a line: numbers, values of a type, places, assignments and calls.
#![tactic(auto)]

ghost use Rattle.std.specs.Prelude.{◌≡◌, ◌∷◌, Some, true, false, IfOk, IfSome, is_some, length, slice_get};
ghost use Rattle.c_tree.specs.Kinds.{World, kind, place_kind, is_variable, assigns, are_given};
ghost use Rattle.c_types.specs.Scope as scoped;
ghost use Rattle.c_types.specs.File as files;
ghost use Rattle.c_types.specs.Places as spec;
ghost use Rattle.c_types.specs.Places.{Gets};
ghost use Rattle.c_types.specs.Fitting.{Fits, local_kind};

use crate::expressions::{element_of, expr};
use crate::fault::CheckFault;
use crate::file::{FileNames, Meaning, cell_number};
use crate::scope::Scope;
use crate::types::{Frame, Typed, Wrong, as_number, as_pointer, fitting};
use c_tree::{Assign, Expr, ObjectKind, Place, RAssign, RExpr, RPlace};
use ckpt_base::Text;
use sqlite_items::{Items, at};
use std::alloc::Global;

/// What is assigned to.
#[derive(Drop)]
pub struct Target {
    /// Where the value is stored.
    pub place: RPlace,
    /// Whether it is a pointer.
    pub is_pointer: bool,
}

/// The fault of a statement of a line.
fn fault_at(line: u32, wrong: Wrong) -> CheckFault
    ensures answer { result ≡ spec.fault_at line wrong }
{
    match wrong {
        Wrong::Memory => CheckFault::Memory,
        Wrong::Type => CheckFault::WrongType(line),
    }
}

/// A number.
pub fn number(
    alloc: Global,
    file: &FileNames,
    frame: Frame,
    scope: &Scope,
    line: u32,
    e: &Expr,
) -> Result<RExpr, CheckFault>
    ensures gets { Gets (spec.number file.now frame scope.now line e.now) result }
    ensures kept { (w : World) → Fits w file.now frame scope.now.locals → IfOk result (λ x. kind w x ≡ Some false) }
{
    let t = match expr(alloc, file, frame, scope, e) {
        Ok(t) => t,
        Err(wrong) => return Err(fault_at(line, wrong)),
    };
    match as_number(t) {
        Ok(e) => Ok(e),
        Err(wrong) => Err(fault_at(line, wrong)),
    }
}

/// A pointer.
fn pointer(
    alloc: Global,
    file: &FileNames,
    frame: Frame,
    scope: &Scope,
    line: u32,
    e: &Expr,
) -> Result<RExpr, CheckFault>
    ensures gets { Gets (spec.pointer file.now frame scope.now line e.now) result }
    ensures kept { (w : World) → Fits w file.now frame scope.now.locals → IfOk result (λ x. kind w x ≡ Some true) }
{
    let t = match expr(alloc, file, frame, scope, e) {
        Ok(t) => t,
        Err(wrong) => return Err(fault_at(line, wrong)),
    };
    match as_pointer(t) {
        Ok(e) => Ok(e),
        Err(wrong) => Err(fault_at(line, wrong)),
    }
}

/// A value for a variable, a parameter or an answer.
pub fn fits(
    alloc: Global,
    file: &FileNames,
    frame: Frame,
    scope: &Scope,
    line: u32,
    is_pointer: bool,
    e: &Expr,
) -> Result<RExpr, CheckFault>
    ensures gets { Gets (spec.fits file.now frame scope.now line is_pointer e.now) result }
    ensures kept { (w : World) → Fits w file.now frame scope.now.locals → IfOk result (λ x. kind w x ≡ Some is_pointer) }
{
    let t = match expr(alloc, file, frame, scope, e) {
        Ok(t) => t,
        Err(wrong) => return Err(fault_at(line, wrong)),
    };
    match fitting(is_pointer, t) {
        Ok(e) => Ok(e),
        Err(wrong) => Err(fault_at(line, wrong)),
    }
}

/// The place of a local: a cell in `main`.
pub fn place_at(first_cell: Option<u32>, number: u32) -> RPlace
    ensures answer { result ≡ spec.place_at first_cell number }
    ensures kept { (w : World) → place_kind w result ≡ local_kind w first_cell number }
    ensures variable { (w : World) → is_variable w result ≡ is_some (local_kind w first_cell number) }
{
    match first_cell {
        None => RPlace::Local(number),
        Some(cell) => RPlace::Cell(cell_number(cell as u128 + number as u128)),
    }
}

fn local_target(frame: Frame, scope: &Scope, number: u32) -> Option<Target>
    ensures answer { result ≡ spec.local_target frame number (slice_get scope.now.locals number) }
{
    match at(scope.locals(), number as usize) {
        None => None,
        Some(local) => Some(Target {
            place: place_at(frame.first_cell, number),
            is_pointer: local.is_pointer,
        }),
    }
}

fn object_target(file: &FileNames, number: u32) -> Option<Target>
    ensures answer { result ≡ spec.object_target (slice_get file.now.objects number) }
{
    match file.object(number) {
        None => None,
        Some(object) => match object.kind {
            ObjectKind::Number => Some(Target {
                place: RPlace::Cell(object.cell),
                is_pointer: false,
            }),
            ObjectKind::Array => None,
            ObjectKind::Pointer => Some(Target {
                place: RPlace::Cell(object.cell),
                is_pointer: true,
            }),
        },
    }
}

fn global_target(file: &FileNames, meaning: Option<Meaning>) -> Option<Target>
    ensures answer { result ≡ spec.global_target file.now meaning }
{
    match meaning {
        None => None,
        Some(Meaning::Object(number)) => object_target(file, number),
        Some(Meaning::Constant(_)) => None,
        Some(Meaning::Function) => None,
    }
}

fn name_target(file: &FileNames, frame: Frame, scope: &Scope, name: &Text) -> Option<Target>
    ensures answer { result ≡ spec.name_target file.now frame scope.now (scoped.local scope.now name.now) (files.global file.now name.now) }
    ensures kept { (w : World) → Fits w file.now frame scope.now.locals → IfSome result (λ t. place_kind w t.place ≡ Some t.is_pointer) }
    ensures variable { (w : World) → Fits w file.now frame scope.now.locals → IfSome result (λ t. is_variable w t.place ≡ true) }
{
    match scope.local(name) {
        None => global_target(file, file.global(name)),
        Some(number) => local_target(frame, scope, number),
    }
}

/// A variable that is assigned to.
pub fn named(
    file: &FileNames,
    frame: Frame,
    scope: &Scope,
    line: u32,
    name: &Text,
) -> Result<Target, CheckFault>
    ensures gets { Gets (spec.named file.now frame scope.now line name.now) result }
    ensures kept { (w : World) → Fits w file.now frame scope.now.locals → IfOk result (λ t. place_kind w t.place ≡ Some t.is_pointer) }
    ensures variable { (w : World) → Fits w file.now frame scope.now.locals → IfOk result (λ t. is_variable w t.place ≡ true) }
{
    match name_target(file, frame, scope, name) {
        None => Err(CheckFault::WrongType(line)),
        Some(target) => Ok(target),
    }
}

fn element_target(
    alloc: Global,
    file: &FileNames,
    frame: Frame,
    scope: &Scope,
    line: u32,
    name: &Text,
    index: &Expr,
) -> Result<Target, CheckFault>
    ensures gets { Gets (spec.element_target file.now frame scope.now line name.now index.now) result }
    ensures kept { (w : World) → Fits w file.now frame scope.now.locals → IfOk result (λ t. place_kind w t.place ≡ Some t.is_pointer) }
{
    match element_of(alloc, file, frame, scope, name, index) {
        Ok(p) => Ok(Target {
            place: RPlace::At(p),
            is_pointer: false,
        }),
        Err(wrong) => Err(fault_at(line, wrong)),
    }
}

/// What is assigned to.
pub fn target_of(
    alloc: Global,
    file: &FileNames,
    frame: Frame,
    scope: &Scope,
    line: u32,
    place: &Place,
) -> Result<Target, CheckFault>
    ensures gets { Gets (spec.target file.now frame scope.now line place.now) result }
    ensures kept { (w : World) → Fits w file.now frame scope.now.locals → IfOk result (λ t. place_kind w t.place ≡ Some t.is_pointer) }
{
    match place {
        Place::Name(name) => named(file, frame, scope, line, &name.text),
        Place::Index(name, index) => {
            element_target(alloc, file, frame, scope, line, &name.text, index)
        }
        Place::At(e) => {
            let p = pointer(alloc, file, frame, scope, line, e)?;
            Ok(Target {
                place: RPlace::At(p),
                is_pointer: false,
            })
        }
    }
}

/// An assignment.
pub fn assign(
    alloc: Global,
    file: &FileNames,
    frame: Frame,
    scope: &Scope,
    line: u32,
    assign: &Assign,
) -> Result<RAssign, CheckFault>
    ensures gets { Gets (spec.assign file.now frame scope.now line assign.now) result }
    ensures kept { (w : World) → Fits w file.now frame scope.now.locals → IfOk result (λ a. assigns w a ≡ true) }
{
    let Target { place, is_pointer } = target_of(alloc, file, frame, scope, line, &assign.place)?;
    let value = fits(alloc, file, frame, scope, line, is_pointer, &assign.value)?;
    Ok(RAssign { place, value })
}

/// The arguments of a call, each of its parameter's type.
pub fn args(
    alloc: Global,
    file: &FileNames,
    frame: Frame,
    scope: &Scope,
    line: u32,
    parameters: &[bool],
    es: &[Expr],
) -> Result<Items<RExpr>, CheckFault>
    requires count { length es.now ≡ length parameters.now }
    ensures gets { Gets (spec.args file.now frame scope.now line parameters.now es.now) result }
    ensures kept { (w : World) → Fits w file.now frame scope.now.locals → IfOk result (λ as'. are_given w parameters.now as' ≡ true) }
{
    let mut done = Items::new(alloc);
    for i in 0..es.len() {
        let value = fits(alloc, file, frame, scope, line, parameters[i], &es[i])?;
        done.push(value)?;
    }
    Ok(done)
}
