//! The heads of `for`.
#![tactic(auto)]

ghost use Rattle.std.specs.Prelude.{◌≡◌, ◌&&◌, [], Bool, Some, true, false, IfOk, length};
ghost use Rattle.c_tree.specs.Kinds.{World, starts, begins, is_test, updates};
ghost use Rattle.c_types.specs.Places.{Gets};
ghost use Rattle.c_types.specs.Statements as spec;
ghost use Rattle.c_types.specs.Statements.{Answers};
ghost use Rattle.c_types.specs.Fitting.{Fits, local_kind};
ghost use Rattle.c_types.specs.Kept.{Kept, marks};

use crate::declarations::next_place;
use crate::fault::CheckFault;
use crate::file::FileNames;
use crate::places::{assign, fits, number};
use crate::scope::Scope;
use crate::types::Frame;
use c_tree::{Assign, Expr, Init, Name, RAssign, RExpr, RInit};
use std::alloc::Global;

/// What a number that is declared in the head of a `for` starts with.
fn init_value(
    alloc: Global,
    file: &FileNames,
    frame: Frame,
    scope: &Scope,
    line: u32,
    e: &Expr,
) -> Result<RAssign, CheckFault>
    ensures gets { Gets (spec.init_value file.now frame line e.now scope.now) result }
    ensures kept { (w : World) → Fits w file.now frame scope.now.locals → local_kind w frame.first_cell (length scope.now.locals) ≡ Some false → IfOk result (λ a. starts w a.place (Some a.value) ≡ true) }
{
    let place = next_place(frame, scope)?;
    let value = fits(alloc, file, frame, scope, line, false, e)?;
    Ok(RAssign { place, value })
}

/// A number that is declared in the head of a `for`.
fn init_declare(
    alloc: Global,
    file: &FileNames,
    frame: Frame,
    scope: &mut Scope,
    line: u32,
    name: &Name,
    e: &Expr,
) -> Result<RInit, CheckFault>
    ensures gives { Answers (spec.init_declare file.now frame line name.now e.now) scope.old scope.new result }
    ensures kept { IfOk result (λ i. Kept file.now frame (marks scope.old) (marks scope.new) (λ w. begins w (Some i)) []) }
{
    let first = init_value(alloc, file, frame, scope, line, e)?;
    scope.declare(alloc, &name.text, false)?;
    Ok(RInit::Declare(first))
}

/// What stands before the first `;` of a `for`.
fn init(
    alloc: Global,
    file: &FileNames,
    frame: Frame,
    scope: &mut Scope,
    line: u32,
    init: &Init,
) -> Result<RInit, CheckFault>
    ensures gives { Answers (spec.init_part file.now frame line init.now) scope.old scope.new result }
    ensures kept { IfOk result (λ i. Kept file.now frame (marks scope.old) (marks scope.new) (λ w. begins w (Some i)) []) }
{
    match init {
        Init::Assign(a) => {
            let assigned = assign(alloc, file, frame, scope, line, a)?;
            Ok(RInit::Set(assigned))
        }
        Init::Declare(name, e) => init_declare(alloc, file, frame, scope, line, name, e),
    }
}

fn perhaps_init(
    alloc: Global,
    file: &FileNames,
    frame: Frame,
    scope: &mut Scope,
    line: u32,
    beginning: &Option<Init>,
) -> Result<Option<RInit>, CheckFault>
    ensures gives { Answers (spec.perhaps_init file.now frame line beginning.now) scope.old scope.new result }
    ensures kept { IfOk result (λ i. Kept file.now frame (marks scope.old) (marks scope.new) (λ w. begins w i) []) }
{
    match beginning {
        None => Ok(None),
        Some(beginning) => {
            let i = init(alloc, file, frame, scope, line, beginning)?;
            Ok(Some(i))
        }
    }
}

fn perhaps_number(
    alloc: Global,
    file: &FileNames,
    frame: Frame,
    scope: &Scope,
    line: u32,
    test: &Option<Expr>,
) -> Result<Option<RExpr>, CheckFault>
    ensures gets { Gets (spec.perhaps_number file.now frame line test.now scope.now) result }
    ensures kept { (w : World) → Fits w file.now frame scope.now.locals → IfOk result (λ x. is_test w x ≡ true) }
{
    match test {
        None => Ok(None),
        Some(e) => {
            let x = number(alloc, file, frame, scope, line, e)?;
            Ok(Some(x))
        }
    }
}

fn perhaps_assign(
    alloc: Global,
    file: &FileNames,
    frame: Frame,
    scope: &Scope,
    line: u32,
    update: &Option<Assign>,
) -> Result<Option<RAssign>, CheckFault>
    ensures gets { Gets (spec.perhaps_assign file.now frame line update.now scope.now) result }
    ensures kept { (w : World) → Fits w file.now frame scope.now.locals → IfOk result (λ u. updates w u ≡ true) }
{
    match update {
        None => Ok(None),
        Some(a) => {
            let assigned = assign(alloc, file, frame, scope, line, a)?;
            Ok(Some(assigned))
        }
    }
}

/// The head of a `for`.
pub fn head(
    alloc: Global,
    file: &FileNames,
    frame: Frame,
    scope: &mut Scope,
    line: u32,
    beginning: &Option<Init>,
    test: &Option<Expr>,
    update: &Option<Assign>,
) -> Result<(Option<RInit>, Option<RExpr>, Option<RAssign>), CheckFault>
    ensures gives { Answers (spec.head file.now frame line beginning.now test.now update.now) scope.old scope.new result }
    ensures kept { IfOk result (λ h. Kept file.now frame (marks scope.old) (marks scope.new) (λ w. begins w h.0 && is_test w h.1 && updates w h.2) []) }
{
    let i = perhaps_init(alloc, file, frame, scope, line, beginning)?;
    let x = perhaps_number(alloc, file, frame, scope, line, test)?;
    let u = perhaps_assign(alloc, file, frame, scope, line, update)?;
    Ok((i, x, u))
}
