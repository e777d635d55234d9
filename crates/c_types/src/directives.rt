//! The third pass: directives stand in `main` alone, and nothing calls `main`.
#![tactic(auto, using(crate::proofs::Faulty::front, crate::proofs::Faulty::behind))]

ghost use Rattle.std.specs.Prelude.{◌≡◌, map};
ghost use Rattle.std.specs.Option.{option_map};
ghost use Rattle.c_types.specs.Directives as spec;
ghost use Rattle.c_types.specs.Faults.{Finds};

use crate::fault::CheckFault;
use c_tree::{Arm, Callee, Given, Item, LocalDecl, Stmt};
use sqlite_items::Boxed;

fn calls(line: u32, callee: &Callee) -> Result<(), CheckFault>
    ensures finds { Finds result (spec.calls line callee.now) }
{
    match callee {
        Callee::Main => Err(CheckFault::CallsMain(line)),
        Callee::Name(_) => Ok(()),
    }
}

fn given(line: u32, given: &Given) -> Result<(), CheckFault>
    ensures finds { Finds result (spec.given_faults line given.now) }
{
    match given {
        Given::Value(_) => Ok(()),
        Given::Call(callee, _) => calls(line, callee),
        Given::Input => Ok(()),
    }
}

fn decl(line: u32, value: &Option<Given>) -> Result<(), CheckFault>
    ensures finds { Finds result (spec.decl_faults line value.now) }
{
    match value {
        None => Ok(()),
        Some(value) => given(line, value),
    }
}

fn decls(line: u32, decls: &[LocalDecl]) -> Result<(), CheckFault>
    ensures finds { Finds result (spec.decls_faults line decls.now) }
{
    for d in decls {
        decl(line, &d.given)?;
    }
    Ok(())
}

fn directive(in_main: bool, line: u32) -> Result<(), CheckFault>
    ensures finds { Finds result (spec.directive in_main line) }
{
    if in_main {
        Ok(())
    } else {
        Err(CheckFault::DirectiveOutsideMain(line))
    }
}

/// Statements one after the other, in `main` or not.
#[cycle(directives)]
pub fn stmts(in_main: bool, stmts: &[Stmt]) -> Result<(), CheckFault>
    ensures finds { Finds result (spec.all (map (spec.stmt in_main) stmts.now)) }
{
    for s in stmts {
        stmt(in_main, s)?;
    }
    Ok(())
}

#[cycle(directives)]
fn arm(in_main: bool, arm: &Arm) -> Result<(), CheckFault>
    ensures finds { Finds result (spec.arm in_main arm.now) }
{
    stmt(in_main, &arm.body)
}

#[cycle(directives)]
fn arms(in_main: bool, arms: &[Arm]) -> Result<(), CheckFault>
    ensures finds { Finds result (spec.all (map (spec.arm in_main) arms.now)) }
{
    for a in arms {
        arm(in_main, a)?;
    }
    Ok(())
}

#[cycle(directives)]
fn perhaps(in_main: bool, last: &Option<Boxed<Stmt>>) -> Result<(), CheckFault>
    ensures finds { Finds result (spec.perhaps (option_map (spec.stmt in_main) last.now)) }
{
    match last {
        None => Ok(()),
        Some(body) => stmt(in_main, body.get()),
    }
}

#[cycle(directives)]
fn stmt(in_main: bool, whole: &Stmt) -> Result<(), CheckFault>
    ensures finds { Finds result (spec.stmt in_main whole.now) }
{
    match whole {
        Stmt::Empty(_) => Ok(()),
        Stmt::Declare(line, ds) => decls(*line, ds.as_slice()),
        Stmt::Set(_, _) => Ok(()),
        Stmt::Call(line, _, callee, _) => calls(*line, callee),
        Stmt::Input(_, _) => Ok(()),
        Stmt::Put(_, _) => Ok(()),
        Stmt::Print(_, _, _) => Ok(()),
        Stmt::Return(line, value) => given(*line, value),
        Stmt::If(_, each, last) => {
            arms(in_main, each.as_slice())?;
            perhaps(in_main, last)
        }
        Stmt::While(_, _, body) => stmt(in_main, body.get()),
        Stmt::Do(_, body, _) => stmt(in_main, body.get()),
        Stmt::For(_, _, _, _, body) => stmt(in_main, body.get()),
        Stmt::Block(_, body) => stmts(in_main, body.as_slice()),
        Stmt::Break(_) => Ok(()),
        Stmt::Continue(_) => Ok(()),
        Stmt::Checkpoint(line) => directive(in_main, *line),
        Stmt::Exclude(line) => directive(in_main, *line),
    }
}

fn item(item: &Item) -> Result<(), CheckFault>
    ensures finds { Finds result (spec.item_faults item.now) }
{
    match item {
        Item::Objects(_, _) => Ok(()),
        Item::Prototype => Ok(()),
        Item::Function(function) => stmts(false, function.body.as_slice()),
        Item::Main(_, body) => stmts(true, body.as_slice()),
    }
}

/// The third pass.
pub fn directives(items: &[Item]) -> Result<(), CheckFault>
    ensures finds { Finds result (spec.all (map spec.item_faults items.now)) }
{
    for i in items {
        item(i)?;
    }
    Ok(())
}
