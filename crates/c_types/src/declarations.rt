//! Declarations of locals, and the heads of `for`.
#![tactic(auto)]

ghost use Rattle.std.specs.Prelude.{◌≡◌, [], ℕ, Bool, Some, true, false, Ok, IfOk, is_some, map, length};
ghost use Rattle.std.specs.List.{list_all, concat};
ghost use Rattle.c_tree.specs.Kinds.{World, keeps_rules, place_kind, is_variable};
ghost use Rattle.c_tree.specs.Excludes.{excludes};
ghost use Rattle.c_types.specs.Places.{Gets};
ghost use Rattle.c_types.specs.Statements as spec;
ghost use Rattle.c_types.specs.Statements.{Answers};
ghost use Rattle.c_types.specs.Fitting.{Fits, local_kind};
ghost use Rattle.c_types.specs.Kept.{Kept, marks};

use crate::calls::{call, count_of, number_of};
use crate::fault::CheckFault;
use crate::file::FileNames;
use crate::places::{fits, place_at};
use crate::scope::Scope;
use crate::single::call_with;
use crate::types::Frame;
use c_tree::{Callee, Expr, Given, LocalDecl, RPlace, RStmt};
use sqlite_items::Items;
use std::alloc::Global;

/// The place of the name that is declared next.
pub fn next_place(frame: Frame, scope: &Scope) -> Result<RPlace, CheckFault>
    ensures gets { Gets (Ok (spec.next_place frame scope.now)) result }
    ensures kept { (w : World) → IfOk result (λ p. place_kind w p ≡ local_kind w frame.first_cell (length scope.now.locals)) }
    ensures variable { (w : World) → IfOk result (λ p. is_variable w p ≡ is_some (local_kind w frame.first_cell (length scope.now.locals))) }
{
    let number = scope.locals().len();
    if number >= u32::MAX as usize {
        return Err(CheckFault::Memory);
    }
    Ok(place_at(frame.first_cell, number as u32))
}

/// A name that starts with what a call answers.
fn starts_with_call(
    alloc: Global,
    file: &FileNames,
    frame: Frame,
    scope: &Scope,
    line: u32,
    is_pointer: bool,
    callee: &Callee,
    es: &[Expr],
) -> Result<RStmt, CheckFault>
    ensures gets { Gets (spec.starts_with_call file.now frame line is_pointer callee.now es.now scope.now) result }
    ensures plain { IfOk result (λ r. excludes r ≡ []) }
    ensures kept { (w : World) (in_loop : Bool) → Fits w file.now frame scope.now.locals → local_kind w frame.first_cell (length scope.now.locals) ≡ Some is_pointer → IfOk result (λ r. keeps_rules w r in_loop ≡ true) }
{
    let place = next_place(frame, scope)?;
    let values = call(
        alloc,
        file,
        frame,
        scope,
        line,
        callee,
        es,
        Some(is_pointer),
    )?;
    Ok(call_with(Some(place), number_of(file, callee), values))
}

/// What a declared name starts with; it does not see itself.
fn starts(
    alloc: Global,
    file: &FileNames,
    frame: Frame,
    scope: &Scope,
    line: u32,
    is_pointer: bool,
    given: &Option<Given>,
) -> Result<RStmt, CheckFault>
    ensures gets { Gets (spec.starts file.now frame line is_pointer given.now scope.now) result }
    ensures plain { IfOk result (λ r. excludes r ≡ []) }
    ensures kept { (w : World) (in_loop : Bool) → Fits w file.now frame scope.now.locals → local_kind w frame.first_cell (length scope.now.locals) ≡ Some is_pointer → IfOk result (λ r. keeps_rules w r in_loop ≡ true) }
{
    match given {
        None => {
            let place = next_place(frame, scope)?;
            Ok(RStmt::Declare(place, None))
        }
        Some(Given::Value(e)) => {
            let place = next_place(frame, scope)?;
            let value = fits(alloc, file, frame, scope, line, is_pointer, e)?;
            Ok(RStmt::Declare(place, Some(value)))
        }
        Some(Given::Call(callee, es)) => {
            starts_with_call(
                alloc,
                file,
                frame,
                scope,
                line,
                is_pointer,
                callee,
                es.as_slice(),
            )
        }
        Some(Given::Input) => {
            if is_pointer {
                return Err(CheckFault::WrongType(line));
            }
            let place = next_place(frame, scope)?;
            Ok(RStmt::Input(Some(place)))
        }
    }
}

fn given_count(file: &FileNames, line: u32, given: &Option<Given>) -> Result<(), CheckFault>
    ensures gets { Gets (spec.given_count file.now line given.now) result }
{
    match given {
        None => Ok(()),
        Some(Given::Value(_)) => Ok(()),
        Some(Given::Call(callee, es)) => count_of(file, line, callee, es.as_slice()),
        Some(Given::Input) => Ok(()),
    }
}

/// The counts of all calls of a declaration.
fn counts(file: &FileNames, line: u32, decls: &[LocalDecl]) -> Result<(), CheckFault>
    ensures gets { Gets (spec.counts file.now line decls.now) result }
{
    for d in decls {
        given_count(file, line, &d.given)?;
    }
    Ok(())
}

/// Declared names; each is known behind what it starts with.
fn decls(
    alloc: Global,
    file: &FileNames,
    frame: Frame,
    scope: &mut Scope,
    line: u32,
    decls: &[LocalDecl],
) -> Result<Items<RStmt>, CheckFault>
    ensures gives { Answers (spec.all (map (spec.decl file.now frame line) decls.now)) scope.old scope.new result }
    ensures kept { (in_loop : Bool) → IfOk result (λ rs. Kept file.now frame (marks scope.old) (marks scope.new) (λ w. list_all (λ r. keeps_rules w r in_loop) rs) (concat (map excludes rs))) }
{
    let mut done = Items::new(alloc);
    for d in decls {
        let stmt = starts(alloc, file, frame, scope, line, d.is_pointer, &d.given)?;
        done.push(stmt)?;
        scope.declare(alloc, &d.name.text, d.is_pointer)?;
    }
    Ok(done)
}

/// A declaration.
pub fn declared(
    alloc: Global,
    file: &FileNames,
    frame: Frame,
    scope: &mut Scope,
    line: u32,
    each: &[LocalDecl],
) -> Result<RStmt, CheckFault>
    ensures gives { Answers (spec.declared file.now frame line each.now) scope.old scope.new result }
    ensures kept { (in_loop : Bool) → IfOk result (λ r. Kept file.now frame (marks scope.old) (marks scope.new) (λ w. keeps_rules w r in_loop) (excludes r)) }
{
    counts(file, line, each)?;
    let stmts = decls(alloc, file, frame, scope, line, each)?;
    Ok(RStmt::Block(stmts))
}
