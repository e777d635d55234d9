//! Statements with no statements in them: calls, input, output and returns.
#![tactic(auto)]

ghost use Rattle.std.specs.Prelude.{◌≡◌, [], ℕ, Bool, is_some, Some, true, false, IfOk, IfSome, length, count_by};
ghost use Rattle.std.specs.List.{list_all};
ghost use Rattle.c_tree.specs.Kinds.{World, kind, is_number, is_hole, keeps_rules, answers, call_kind, place_kind, is_variable};
ghost use Rattle.c_tree.specs.Excludes.{excludes};
ghost use Rattle.c_types.specs.Places as places;
ghost use Rattle.c_types.specs.Places.{Gets};
ghost use Rattle.c_types.specs.Statements as spec;
ghost use Rattle.c_types.specs.Statements.{Answers};
ghost use Rattle.c_types.specs.Fitting.{Fits, is_wanted};
ghost use Rattle.c_types.specs.Kept.{Kept, marks};

use crate::calls::{call, count_of, number_of};
use crate::fault::CheckFault;
use crate::file::FileNames;
use crate::places::{Target, assign, fits, named, number};
use crate::scope::Scope;
use crate::types::Frame;
use c_tree::{Assign, Callee, Expr, Exprs, Given, Name, PrintPiece, RAssign, RExpr, RPlace, RStmt};
use sqlite_items::Items;
use std::alloc::Global;

/// Where an answer goes.
fn answer(
    file: &FileNames,
    frame: Frame,
    scope: &Scope,
    line: u32,
    name: &Option<Name>,
) -> Result<Option<Target>, CheckFault>
    ensures gets { Gets (spec.answer file.now frame line name.now scope.now) result }
    ensures kept { (w : World) → Fits w file.now frame scope.now.locals → IfOk result (λ t. IfSome t (λ x. place_kind w x.place ≡ Some x.is_pointer)) }
    ensures variable { (w : World) → Fits w file.now frame scope.now.locals → IfOk result (λ t. IfSome t (λ x. is_variable w x.place ≡ true)) }
{
    match name {
        None => Ok(None),
        Some(name) => {
            let target = named(file, frame, scope, line, &name.text)?;
            Ok(Some(target))
        }
    }
}

fn wanted_of(target: &Option<Target>) -> Option<bool>
    ensures answer { result ≡ spec.wanted_of target.now }
{
    match target {
        None => None,
        Some(target) => Some(target.is_pointer),
    }
}

fn place_of(target: Option<Target>) -> Option<RPlace>
    ensures answer { result ≡ spec.place_of target }
{
    match target {
        None => None,
        Some(target) => Some(target.place),
    }
}

/// A call of a function, or nothing for `main`.
pub fn call_with(place: Option<RPlace>, function: Option<u32>, values: Exprs) -> RStmt
    ensures answer { result ≡ spec.call_with function (λ g. RStmt.Call place g values) }
    ensures plain { excludes result ≡ [] }
    ensures kept { (w : World) (in_loop : Bool) → ((g : ℕ) → function ≡ Some g → answers w place (call_kind w g values) ≡ true) → keeps_rules w result in_loop ≡ true }
{
    match function {
        None => RStmt::Empty,
        Some(function) => RStmt::Call(place, function, values),
    }
}

/// A call, whose answer may be assigned to a name.
pub fn call_stmt(
    alloc: Global,
    file: &FileNames,
    frame: Frame,
    scope: &Scope,
    line: u32,
    name: &Option<Name>,
    callee: &Callee,
    es: &[Expr],
) -> Result<RStmt, CheckFault>
    ensures gets { Gets (spec.call_stmt file.now frame line name.now callee.now es.now scope.now) result }
    ensures plain { IfOk result (λ r. excludes r ≡ []) }
    ensures kept { (w : World) (in_loop : Bool) → Fits w file.now frame scope.now.locals → IfOk result (λ r. keeps_rules w r in_loop ≡ true) }
{
    count_of(file, line, callee, es)?;
    let target = answer(file, frame, scope, line, name)?;
    let wanted = wanted_of(&target);
    let values = call(alloc, file, frame, scope, line, callee, es, wanted)?;
    Ok(call_with(place_of(target), number_of(file, callee), values))
}

/// `getchar()`, whose answer may be assigned to a number.
pub fn input_stmt(
    file: &FileNames,
    frame: Frame,
    scope: &Scope,
    line: u32,
    name: &Option<Name>,
) -> Result<RStmt, CheckFault>
    ensures gets { Gets (spec.input_stmt file.now frame line name.now scope.now) result }
    ensures plain { IfOk result (λ r. excludes r ≡ []) }
    ensures kept { (w : World) (in_loop : Bool) → Fits w file.now frame scope.now.locals → IfOk result (λ r. keeps_rules w r in_loop ≡ true) }
{
    match answer(file, frame, scope, line, name)? {
        None => Ok(RStmt::Input(None)),
        Some(target) => {
            if target.is_pointer {
                Err(CheckFault::WrongType(line))
            } else {
                Ok(RStmt::Input(Some(target.place)))
            }
        }
    }
}

/// Numbers in order.
fn numbers(
    alloc: Global,
    file: &FileNames,
    frame: Frame,
    scope: &Scope,
    line: u32,
    es: &[Expr],
) -> Result<Items<RExpr>, CheckFault>
    ensures gets { Gets (spec.numbers file.now frame line es.now scope.now) result }
    ensures count { IfOk result (λ xs. length xs ≡ length es.now) }
    ensures kept { (w : World) → Fits w file.now frame scope.now.locals → IfOk result (λ xs. list_all (is_number w) xs ≡ true) }
{
    let mut done = Items::new(alloc);
    for e in es {
        let value = number(alloc, file, frame, scope, line, e)?;
        done.push(value)?;
    }
    Ok(done)
}

fn is_hole(piece: PrintPiece) -> bool
    ensures answer { result ≡ is_hole piece }
{
    match piece {
        PrintPiece::Byte(_) => false,
        PrintPiece::Number => true,
    }
}

/// How many `%ld` there are.
fn hole_count(pieces: &[PrintPiece]) -> usize
    ensures answer { result ≡ count_by is_hole pieces.now }
{
    pieces.iter().filter(|piece| is_hole(**piece)).count()
}

/// `printf`: there is a number for each `%ld`.
pub fn print_stmt(
    alloc: Global,
    file: &FileNames,
    frame: Frame,
    scope: &Scope,
    line: u32,
    pieces: &[PrintPiece],
    es: &[Expr],
) -> Result<RStmt, CheckFault>
    ensures gets { Gets (spec.print_stmt file.now frame line pieces.now es.now scope.now) result }
    ensures plain { IfOk result (λ r. excludes r ≡ []) }
    ensures kept { (w : World) (in_loop : Bool) → Fits w file.now frame scope.now.locals → IfOk result (λ r. keeps_rules w r in_loop ≡ true) }
{
    if es.len() != hole_count(pieces) {
        return Err(CheckFault::WrongCount(line));
    }
    let values = numbers(alloc, file, frame, scope, line, es)?;
    let pieces = Items::from_slice(alloc, pieces)?;
    Ok(RStmt::Print(pieces, values))
}

/// A return of a call, or nothing for `main`.
fn return_with(function: Option<u32>, values: Exprs) -> RStmt
    ensures answer { result ≡ spec.call_with function (λ g. RStmt.ReturnCall g values) }
    ensures plain { excludes result ≡ [] }
    ensures kept { (w : World) (in_loop : Bool) → ((g : ℕ) → function ≡ Some g → is_wanted (Some w.gives_pointer) (call_kind w g values) ≡ true) → keeps_rules w result in_loop ≡ true }
{
    match function {
        None => RStmt::Empty,
        Some(function) => RStmt::ReturnCall(function, values),
    }
}

fn return_call(
    alloc: Global,
    file: &FileNames,
    frame: Frame,
    scope: &Scope,
    line: u32,
    callee: &Callee,
    es: &[Expr],
) -> Result<RStmt, CheckFault>
    ensures gets { Gets (spec.return_call file.now frame line callee.now es.now scope.now) result }
    ensures plain { IfOk result (λ r. excludes r ≡ []) }
    ensures kept { (w : World) (in_loop : Bool) → Fits w file.now frame scope.now.locals → IfOk result (λ r. keeps_rules w r in_loop ≡ true) }
{
    let wanted = Some(frame.gives_pointer);
    let values = call(alloc, file, frame, scope, line, callee, es, wanted)?;
    Ok(return_with(number_of(file, callee), values))
}

/// `return`: what is given is of the function's type.
pub fn return_stmt(
    alloc: Global,
    file: &FileNames,
    frame: Frame,
    scope: &Scope,
    line: u32,
    given: &Given,
) -> Result<RStmt, CheckFault>
    ensures gets { Gets (spec.return_stmt file.now frame line given.now scope.now) result }
    ensures plain { IfOk result (λ r. excludes r ≡ []) }
    ensures kept { (w : World) (in_loop : Bool) → Fits w file.now frame scope.now.locals → IfOk result (λ r. keeps_rules w r in_loop ≡ true) }
{
    match given {
        Given::Value(e) => {
            let value = fits(alloc, file, frame, scope, line, frame.gives_pointer, e)?;
            Ok(RStmt::Return(value))
        }
        Given::Call(callee, es) => {
            return_call(alloc, file, frame, scope, line, callee, es.as_slice())
        }
        Given::Input => {
            if frame.gives_pointer {
                Err(CheckFault::WrongType(line))
            } else {
                Ok(RStmt::ReturnInput)
            }
        }
    }
}

/// An assignment.
pub fn set_stmt(
    alloc: Global,
    file: &FileNames,
    frame: Frame,
    scope: &Scope,
    line: u32,
    a: &Assign,
) -> Result<RStmt, CheckFault>
    ensures gets { Gets (spec.set_stmt file.now frame line a.now scope.now) result }
    ensures plain { IfOk result (λ r. excludes r ≡ []) }
    ensures kept { (w : World) (in_loop : Bool) → Fits w file.now frame scope.now.locals → IfOk result (λ r. keeps_rules w r in_loop ≡ true) }
{
    let RAssign { place, value } = assign(alloc, file, frame, scope, line, a)?;
    Ok(RStmt::Set(place, value))
}

/// `putchar`: a number.
pub fn put_stmt(
    alloc: Global,
    file: &FileNames,
    frame: Frame,
    scope: &Scope,
    line: u32,
    e: &Expr,
) -> Result<RStmt, CheckFault>
    ensures gets { Gets (spec.put_stmt file.now frame line e.now scope.now) result }
    ensures plain { IfOk result (λ r. excludes r ≡ []) }
    ensures kept { (w : World) (in_loop : Bool) → Fits w file.now frame scope.now.locals → IfOk result (λ r. keeps_rules w r in_loop ≡ true) }
{
    let value = number(alloc, file, frame, scope, line, e)?;
    Ok(RStmt::Put(value))
}

/// `break` stands in a loop.
pub fn break_stmt(line: u32, in_loop: bool) -> Result<RStmt, CheckFault>
    ensures gets { Gets (spec.stmt_if line in_loop RStmt.Break) result }
    ensures plain { IfOk result (λ r. excludes r ≡ []) }
    ensures kept { (w : World) → IfOk result (λ r. keeps_rules w r in_loop ≡ true) }
{
    if in_loop {
        Ok(RStmt::Break)
    } else {
        Err(CheckFault::WrongType(line))
    }
}

/// `continue` stands in a loop.
pub fn continue_stmt(line: u32, in_loop: bool) -> Result<RStmt, CheckFault>
    ensures gets { Gets (spec.stmt_if line in_loop RStmt.Continue) result }
    ensures plain { IfOk result (λ r. excludes r ≡ []) }
    ensures kept { (w : World) → IfOk result (λ r. keeps_rules w r in_loop ≡ true) }
{
    if in_loop {
        Ok(RStmt::Continue)
    } else {
        Err(CheckFault::WrongType(line))
    }
}

/// CHECKPOINT_HERE in `main`; elsewhere nothing, and the next pass refuses it.
pub fn checkpoint_stmt(frame: Frame) -> RStmt
    ensures answer { result ≡ spec.checkpoint_stmt frame }
    ensures plain { excludes result ≡ [] }
    ensures kept { (w : World) (in_loop : Bool) → w.is_main ≡ is_some frame.first_cell → keeps_rules w result in_loop ≡ true }
{
    match frame.first_cell {
        None => RStmt::Empty,
        Some(_) => RStmt::Checkpoint,
    }
}

/// EXCLUDE_HERE in `main`; elsewhere nothing, and the next pass refuses it.
pub fn exclude_stmt(file: &FileNames, frame: Frame, scope: &mut Scope) -> Result<RStmt, CheckFault>
    ensures gives { Answers (spec.exclude_part frame) scope.old scope.new result }
    ensures kept { (in_loop : Bool) → IfOk result (λ r. Kept file.now frame (marks scope.old) (marks scope.new) (λ w. keeps_rules w r in_loop) (excludes r)) }
{
    match frame.first_cell {
        None => Ok(RStmt::Empty),
        Some(_) => {
            scope.exclude()?;
            let number = scope.excludes().min(65_535);
            Ok(RStmt::Exclude(number as u16))
        }
    }
}
