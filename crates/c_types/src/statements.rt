//! The second pass, over statements: they become resolved statements that keep the rules.
#![tactic(auto)]

ghost use Rattle.std.specs.Prelude.{◌≡◌, true, map, IfOk};
ghost use Rattle.std.specs.Option.{option_map};
ghost use Rattle.std.specs.List.{list_all, concat};
ghost use Rattle.c_tree.specs.Kinds.{keeps_rules};
ghost use Rattle.c_tree.specs.Excludes.{excludes, arm_excludes};
ghost use Rattle.c_types.specs.Places.{Gets};
ghost use Rattle.c_types.specs.Statements as spec;
ghost use Rattle.c_types.specs.Statements.{Answers};
ghost use Rattle.c_types.specs.Kept.{Kept, marks, arm_keeps, last_keeps, last_excludes};

use crate::declarations::declared;
use crate::fault::CheckFault;
use crate::file::FileNames;
use crate::heads::head;
use crate::places::number;
use crate::scope::Scope;
use crate::single::{
    break_stmt, call_stmt, checkpoint_stmt, continue_stmt, exclude_stmt, input_stmt, print_stmt,
    put_stmt, return_stmt, set_stmt,
};
use crate::types::Frame;
use c_tree::{Arm, Assign, Expr, Init, RArm, RStmt, Stmt};
use sqlite_items::{Boxed, Items};
use std::alloc::Global;

/// The tests of all arms of an `if`.
fn tests(
    alloc: Global,
    file: &FileNames,
    frame: Frame,
    scope: &Scope,
    line: u32,
    arms: &[Arm],
) -> Result<(), CheckFault>
    ensures gets { Gets (spec.tests file.now frame line (map (λ a. a.0) (map (spec.arm file.now frame) arms.now)) scope.now) result }
{
    for a in arms {
        number(alloc, file, frame, scope, line, &a.test)?;
    }
    Ok(())
}

/// Statements one after the other.
#[cycle(resolved)]
pub fn stmts(
    alloc: Global,
    file: &FileNames,
    frame: Frame,
    in_loop: bool,
    scope: &mut Scope,
    stmts: &[Stmt],
) -> Result<Items<RStmt>, CheckFault>
    ensures gives { Answers (spec.all (map (λ t. spec.stmt file.now frame t in_loop) stmts.now)) scope.old scope.new result }
    ensures kept { IfOk result (λ rs. Kept file.now frame (marks scope.old) (marks scope.new) (λ w. list_all (λ r. keeps_rules w r in_loop) rs) (concat (map excludes rs))) }
{
    let mut done = Items::new(alloc);
    for s in stmts {
        let resolved = stmt(alloc, file, frame, in_loop, scope, s)?;
        done.push(resolved)?;
    }
    Ok(done)
}

/// A statement as a block of its own.
#[cycle(resolved)]
fn inside(
    alloc: Global,
    file: &FileNames,
    frame: Frame,
    in_loop: bool,
    scope: &mut Scope,
    body: &Stmt,
) -> Result<RStmt, CheckFault>
    ensures gives { Answers (spec.inside (spec.stmt file.now frame body.now in_loop)) scope.old scope.new result }
    ensures kept { IfOk result (λ r. Kept file.now frame (marks scope.old) (marks scope.new) (λ w. keeps_rules w r in_loop) (excludes r)) }
{
    scope.enter(alloc)?;
    let resolved = stmt(alloc, file, frame, in_loop, scope, body)?;
    scope.leave();
    Ok(resolved)
}

/// The statements of a block.
#[cycle(resolved)]
#[tactic(auto, using(crate::proofs::Fused::fused))]
fn listed(
    alloc: Global,
    file: &FileNames,
    frame: Frame,
    in_loop: bool,
    scope: &mut Scope,
    body: &[Stmt],
) -> Result<Items<RStmt>, CheckFault>
    ensures gives { Answers (spec.all (map (λ p. p in_loop) (map (spec.stmt file.now frame) body.now))) scope.old scope.new result }
    ensures kept { IfOk result (λ rs. Kept file.now frame (marks scope.old) (marks scope.new) (λ w. list_all (λ r. keeps_rules w r in_loop) rs) (concat (map excludes rs))) }
{
    stmts(alloc, file, frame, in_loop, scope, body)
}

/// A block.
#[cycle(resolved)]
#[tactic(auto, unfolding(crate::specs::Statements::block_part))]
fn block(
    alloc: Global,
    file: &FileNames,
    frame: Frame,
    in_loop: bool,
    scope: &mut Scope,
    body: &[Stmt],
) -> Result<RStmt, CheckFault>
    ensures gives { Answers (spec.block_part (map (spec.stmt file.now frame) body.now) in_loop) scope.old scope.new result }
    ensures kept { IfOk result (λ r. Kept file.now frame (marks scope.old) (marks scope.new) (λ w. keeps_rules w r in_loop) (excludes r)) }
{
    scope.enter(alloc)?;
    let resolved = listed(alloc, file, frame, in_loop, scope, body)?;
    scope.leave();
    Ok(RStmt::Block(resolved))
}

/// An arm of an `if` in a line.
#[cycle(resolved)]
fn arm(
    alloc: Global,
    file: &FileNames,
    frame: Frame,
    in_loop: bool,
    scope: &mut Scope,
    line: u32,
    arm: &Arm,
) -> Result<RArm, CheckFault>
    ensures gives { Answers (spec.arm_part file.now frame line in_loop (spec.arm file.now frame arm.now)) scope.old scope.new result }
    ensures kept { IfOk result (λ a. Kept file.now frame (marks scope.old) (marks scope.new) (λ w. arm_keeps w a in_loop) (arm_excludes a)) }
{
    let test = number(alloc, file, frame, scope, line, &arm.test)?;
    let body = inside(alloc, file, frame, in_loop, scope, &arm.body)?;
    Ok(RArm { test, body })
}

#[cycle(resolved)]
fn each_arm(
    alloc: Global,
    file: &FileNames,
    frame: Frame,
    in_loop: bool,
    scope: &mut Scope,
    line: u32,
    arms: &[Arm],
) -> Result<Items<RArm>, CheckFault>
    ensures gives { Answers (spec.all (map (λ a. spec.arm_part file.now frame line in_loop (spec.arm file.now frame a)) arms.now)) scope.old scope.new result }
    ensures kept { IfOk result (λ as'. Kept file.now frame (marks scope.old) (marks scope.new) (λ w. list_all (λ a. arm_keeps w a in_loop) as') (concat (map arm_excludes as'))) }
{
    let mut done = Items::new(alloc);
    for a in arms {
        let resolved = arm(alloc, file, frame, in_loop, scope, line, a)?;
        done.push(resolved)?;
    }
    Ok(done)
}

/// What stands behind the last `else`.
#[cycle(resolved)]
fn last(
    alloc: Global,
    file: &FileNames,
    frame: Frame,
    in_loop: bool,
    scope: &mut Scope,
    stmt: &Option<Boxed<Stmt>>,
) -> Result<Option<Boxed<RStmt>>, CheckFault>
    ensures gives { Answers (spec.last_part file.now frame in_loop (option_map (spec.stmt file.now frame) stmt.now)) scope.old scope.new result }
    ensures kept { IfOk result (λ r. Kept file.now frame (marks scope.old) (marks scope.new) (λ w. last_keeps w in_loop r) (last_excludes r)) }
{
    match stmt {
        None => Ok(None),
        Some(body) => {
            let resolved = inside(alloc, file, frame, in_loop, scope, body.get())?;
            Ok(Some(Boxed::new(alloc, resolved)?))
        }
    }
}

/// The arms of an `if` in a line.
#[cycle(resolved)]
#[tactic(auto, using(crate::proofs::Fused::fused))]
fn arms(
    alloc: Global,
    file: &FileNames,
    frame: Frame,
    in_loop: bool,
    scope: &mut Scope,
    line: u32,
    arms: &[Arm],
) -> Result<Items<RArm>, CheckFault>
    ensures gives { Answers (spec.all (map (spec.arm_part file.now frame line in_loop) (map (spec.arm file.now frame) arms.now))) scope.old scope.new result }
    ensures kept { IfOk result (λ as'. Kept file.now frame (marks scope.old) (marks scope.new) (λ w. list_all (λ a. arm_keeps w a in_loop) as') (concat (map arm_excludes as'))) }
{
    each_arm(alloc, file, frame, in_loop, scope, line, arms)
}

#[cycle(resolved)]
fn while_stmt(
    alloc: Global,
    file: &FileNames,
    frame: Frame,
    in_loop: bool,
    scope: &mut Scope,
    line: u32,
    body: &Stmt,
    test: &Expr,
) -> Result<RStmt, CheckFault>
    ensures gives { Answers (spec.while_part file.now frame line test.now (spec.stmt file.now frame body.now)) scope.old scope.new result }
    ensures kept { IfOk result (λ r. Kept file.now frame (marks scope.old) (marks scope.new) (λ w. keeps_rules w r in_loop) (excludes r)) }
{
    let x = number(alloc, file, frame, scope, line, test)?;
    let resolved = inside(alloc, file, frame, true, scope, body)?;
    Ok(RStmt::While(x, Boxed::new(alloc, resolved)?))
}

#[cycle(resolved)]
fn do_stmt(
    alloc: Global,
    file: &FileNames,
    frame: Frame,
    in_loop: bool,
    scope: &mut Scope,
    line: u32,
    body: &Stmt,
    test: &Expr,
) -> Result<RStmt, CheckFault>
    ensures gives { Answers (spec.do_part file.now frame line test.now (spec.stmt file.now frame body.now)) scope.old scope.new result }
    ensures kept { IfOk result (λ r. Kept file.now frame (marks scope.old) (marks scope.new) (λ w. keeps_rules w r in_loop) (excludes r)) }
{
    let x = number(alloc, file, frame, scope, line, test)?;
    let resolved = inside(alloc, file, frame, true, scope, body)?;
    Ok(RStmt::Do(Boxed::new(alloc, resolved)?, x))
}

/// A `for`, inside its own block.
#[cycle(resolved)]
#[tactic(auto, unfolding(crate::specs::Statements::for_parts))]
fn for_parts(
    alloc: Global,
    file: &FileNames,
    frame: Frame,
    in_loop: bool,
    scope: &mut Scope,
    line: u32,
    body: &Stmt,
    beginning: &Option<Init>,
    test: &Option<Expr>,
    update: &Option<Assign>,
) -> Result<RStmt, CheckFault>
    ensures gives { Answers (spec.for_parts file.now frame line beginning.now test.now update.now (spec.stmt file.now frame body.now true)) scope.old scope.new result }
    ensures kept { IfOk result (λ r. Kept file.now frame (marks scope.old) (marks scope.new) (λ w. keeps_rules w r in_loop) (excludes r)) }
{
    let (i, x, u) = head(alloc, file, frame, scope, line, beginning, test, update)?;
    let resolved = inside(alloc, file, frame, true, scope, body)?;
    Ok(RStmt::For(i, x, u, Boxed::new(alloc, resolved)?))
}

#[cycle(resolved)]
fn for_stmt(
    alloc: Global,
    file: &FileNames,
    frame: Frame,
    in_loop: bool,
    scope: &mut Scope,
    line: u32,
    body: &Stmt,
    beginning: &Option<Init>,
    test: &Option<Expr>,
    update: &Option<Assign>,
) -> Result<RStmt, CheckFault>
    ensures gives { Answers (spec.inside (spec.for_parts file.now frame line beginning.now test.now update.now (spec.stmt file.now frame body.now true))) scope.old scope.new result }
    ensures kept { IfOk result (λ r. Kept file.now frame (marks scope.old) (marks scope.new) (λ w. keeps_rules w r in_loop) (excludes r)) }
{
    scope.enter(alloc)?;
    let resolved = for_parts(
        alloc, file, frame, in_loop, scope, line, body, beginning, test, update,
    )?;
    scope.leave();
    Ok(resolved)
}

/// A statement, in a loop or not.
#[cycle(resolved)]
#[tactic(auto, unfolding(crate::specs::Statements::if_parts))]
fn stmt(
    alloc: Global,
    file: &FileNames,
    frame: Frame,
    in_loop: bool,
    scope: &mut Scope,
    stmt: &Stmt,
) -> Result<RStmt, CheckFault>
    ensures gives { Answers (spec.stmt file.now frame stmt.now in_loop) scope.old scope.new result }
    ensures kept { IfOk result (λ r. Kept file.now frame (marks scope.old) (marks scope.new) (λ w. keeps_rules w r in_loop) (excludes r)) }
{
    match stmt {
        Stmt::Empty(_) => Ok(RStmt::Empty),
        Stmt::Declare(l, ds) => declared(alloc, file, frame, scope, *l, ds.as_slice()),
        Stmt::Set(l, a) => set_stmt(alloc, file, frame, scope, *l, a),
        Stmt::Call(l, name, callee, es) => {
            call_stmt(alloc, file, frame, scope, *l, name, callee, es.as_slice())
        }
        Stmt::Input(l, name) => input_stmt(file, frame, scope, *l, name),
        Stmt::Put(l, e) => put_stmt(alloc, file, frame, scope, *l, e),
        Stmt::Print(l, pieces, es) => {
            print_stmt(
                alloc,
                file,
                frame,
                scope,
                *l,
                pieces.as_slice(),
                es.as_slice(),
            )
        }
        Stmt::Return(l, given) => return_stmt(alloc, file, frame, scope, *l, given),
        Stmt::If(l, each, behind) => {
            tests(alloc, file, frame, scope, *l, each.as_slice())?;
            let resolved = arms(alloc, file, frame, in_loop, scope, *l, each.as_slice())?;
            let behind = last(alloc, file, frame, in_loop, scope, behind)?;
            Ok(RStmt::If(resolved, behind))
        }
        Stmt::While(l, test, body) => {
            while_stmt(alloc, file, frame, in_loop, scope, *l, body.get(), test)
        }
        Stmt::Do(l, body, test) => {
            do_stmt(alloc, file, frame, in_loop, scope, *l, body.get(), test)
        }
        Stmt::For(l, beginning, test, update, body) => {
            let body = body.get();
            for_stmt(
                alloc, file, frame, in_loop, scope, *l, body, beginning, test, update,
            )
        }
        Stmt::Block(_, body) => block(alloc, file, frame, in_loop, scope, body.as_slice()),
        Stmt::Break(l) => break_stmt(*l, in_loop),
        Stmt::Continue(l) => continue_stmt(*l, in_loop),
        Stmt::Checkpoint(_) => Ok(checkpoint_stmt(frame)),
        Stmt::Exclude(_) => exclude_stmt(file, frame, scope),
    }
}
