//! The first pass, over statements: each name is declared once in its block and known where it is used.
#![tactic(auto, using(crate::proofs::Faulty::front, crate::proofs::Faulty::behind))]

ghost use Rattle.std.specs.Prelude.{◌≡◌, map};
ghost use Rattle.std.specs.Option.{option_map};
ghost use Rattle.c_types.specs.Names as spec;
ghost use Rattle.c_types.specs.Names.{Passes};

use crate::fault::CheckFault;
use crate::known::Known;
use crate::names::{called, expr, so_far, used};
use c_tree::{Arm, Assign, Constant, Expr, Given, Init, LocalDecl, Name, Place, Stmt};
use sqlite_items::Boxed;
use std::alloc::Global;

fn exprs(
    alloc: Global,
    constants: &[Constant],
    known: &mut Known,
    es: &[Expr],
) -> Result<(), CheckFault>
    ensures passes { Passes (spec.exprs constants.now es.now) known.old known.new result }
{
    for e in es {
        expr(alloc, constants, known, e)?;
    }
    Ok(())
}

fn perhaps_expr(
    alloc: Global,
    constants: &[Constant],
    known: &mut Known,
    e: &Option<Expr>,
) -> Result<(), CheckFault>
    ensures passes { Passes (spec.perhaps_expr constants.now e.now) known.old known.new result }
{
    match e {
        None => Ok(()),
        Some(e) => expr(alloc, constants, known, e),
    }
}

fn place(
    alloc: Global,
    constants: &[Constant],
    known: &mut Known,
    place: &Place,
) -> Result<(), CheckFault>
    ensures passes { Passes (spec.place_step constants.now place.now) known.old known.new result }
{
    match place {
        Place::Name(name) => used(alloc, constants, known, name),
        Place::Index(name, index) => {
            used(alloc, constants, known, name)?;
            expr(alloc, constants, known, index)
        }
        Place::At(pointer) => expr(alloc, constants, known, pointer),
    }
}

fn assign(
    alloc: Global,
    constants: &[Constant],
    known: &mut Known,
    assign: &Assign,
) -> Result<(), CheckFault>
    ensures passes { Passes (spec.assign constants.now assign.now) known.old known.new result }
{
    place(alloc, constants, known, &assign.place)?;
    expr(alloc, constants, known, &assign.value)
}

fn perhaps_assign(
    alloc: Global,
    constants: &[Constant],
    known: &mut Known,
    update: &Option<Assign>,
) -> Result<(), CheckFault>
    ensures passes { Passes (spec.perhaps_assign constants.now update.now) known.old known.new result }
{
    match update {
        None => Ok(()),
        Some(update) => assign(alloc, constants, known, update),
    }
}

fn given(
    alloc: Global,
    constants: &[Constant],
    known: &mut Known,
    given: &Given,
) -> Result<(), CheckFault>
    ensures passes { Passes (spec.given_step constants.now given.now) known.old known.new result }
{
    match given {
        Given::Value(e) => expr(alloc, constants, known, e),
        Given::Call(callee, args) => {
            called(alloc, constants, known, callee)?;
            exprs(alloc, constants, known, args.as_slice())
        }
        Given::Input => Ok(()),
    }
}

fn perhaps_given(
    alloc: Global,
    constants: &[Constant],
    known: &mut Known,
    value: &Option<Given>,
) -> Result<(), CheckFault>
    ensures passes { Passes (spec.perhaps_given constants.now value.now) known.old known.new result }
{
    match value {
        None => Ok(()),
        Some(value) => given(alloc, constants, known, value),
    }
}

/// A name that its block has not declared.
#[tactic(auto, using(crate::proofs::Faulty::front, crate::proofs::Faulty::behind), unfolding(crate::specs::Names::fresh))]
pub fn fresh(
    alloc: Global,
    constants: &[Constant],
    known: &mut Known,
    name: &Name,
) -> Result<(), CheckFault>
    ensures passes { Passes (spec.fresh constants.now name.now) known.old known.new result }
{
    so_far(alloc, constants, known, name.constants)?;
    if known.scope.is_declared(&name.text) {
        return Err(CheckFault::Twice(name.text.copy(alloc)?));
    }
    Ok(())
}

/// A declaration; the name is unknown in its own initialiser.
#[tactic(auto, using(crate::proofs::Faulty::front, crate::proofs::Faulty::behind), unfolding(crate::specs::Names::decl))]
fn decl(
    alloc: Global,
    constants: &[Constant],
    known: &mut Known,
    decl: &LocalDecl,
) -> Result<(), CheckFault>
    ensures passes { Passes (spec.decl constants.now decl.now) known.old known.new result }
{
    fresh(alloc, constants, known, &decl.name)?;
    perhaps_given(alloc, constants, known, &decl.given)?;
    known
        .scope
        .declare(alloc, &decl.name.text, decl.is_pointer)?;
    Ok(())
}

fn decls(
    alloc: Global,
    constants: &[Constant],
    known: &mut Known,
    decls: &[LocalDecl],
) -> Result<(), CheckFault>
    ensures passes { Passes (spec.all (map (spec.decl constants.now) decls.now)) known.old known.new result }
{
    for d in decls {
        decl(alloc, constants, known, d)?;
    }
    Ok(())
}

fn init(
    alloc: Global,
    constants: &[Constant],
    known: &mut Known,
    init: &Init,
) -> Result<(), CheckFault>
    ensures passes { Passes (spec.init_step constants.now init.now) known.old known.new result }
{
    match init {
        Init::Assign(a) => assign(alloc, constants, known, a),
        Init::Declare(name, value) => {
            fresh(alloc, constants, known, name)?;
            expr(alloc, constants, known, value)?;
            known.scope.declare(alloc, &name.text, false)?;
            Ok(())
        }
    }
}

fn perhaps_init(
    alloc: Global,
    constants: &[Constant],
    known: &mut Known,
    beginning: &Option<Init>,
) -> Result<(), CheckFault>
    ensures passes { Passes (spec.perhaps_init constants.now beginning.now) known.old known.new result }
{
    match beginning {
        None => Ok(()),
        Some(beginning) => init(alloc, constants, known, beginning),
    }
}

/// What the answer of a call is assigned to.
fn answer(
    alloc: Global,
    constants: &[Constant],
    known: &mut Known,
    name: &Option<Name>,
) -> Result<(), CheckFault>
    ensures passes { Passes (spec.answer constants.now name.now) known.old known.new result }
{
    match name {
        None => Ok(()),
        Some(name) => used(alloc, constants, known, name),
    }
}

/// Statements one after the other.
#[cycle(named)]
pub fn stmts(
    alloc: Global,
    constants: &[Constant],
    known: &mut Known,
    stmts: &[Stmt],
) -> Result<(), CheckFault>
    ensures passes { Passes (spec.all (map (spec.stmt constants.now) stmts.now)) known.old known.new result }
{
    for s in stmts {
        stmt(alloc, constants, known, s)?;
    }
    Ok(())
}

#[cycle(named)]
fn arm(
    alloc: Global,
    constants: &[Constant],
    known: &mut Known,
    arm: &Arm,
) -> Result<(), CheckFault>
    ensures passes { Passes (spec.arm constants.now arm.now) known.old known.new result }
{
    expr(alloc, constants, known, &arm.test)?;
    inside(alloc, constants, known, &arm.body)
}

#[cycle(named)]
fn arms(
    alloc: Global,
    constants: &[Constant],
    known: &mut Known,
    arms: &[Arm],
) -> Result<(), CheckFault>
    ensures passes { Passes (spec.all (map (spec.arm constants.now) arms.now)) known.old known.new result }
{
    for a in arms {
        arm(alloc, constants, known, a)?;
    }
    Ok(())
}

/// A statement as a block of its own.
#[cycle(named)]
fn inside(
    alloc: Global,
    constants: &[Constant],
    known: &mut Known,
    body: &Stmt,
) -> Result<(), CheckFault>
    ensures passes { Passes (spec.inside (spec.stmt constants.now body.now)) known.old known.new result }
{
    known.scope.enter(alloc)?;
    stmt(alloc, constants, known, body)?;
    known.scope.leave();
    Ok(())
}

#[cycle(named)]
fn block(
    alloc: Global,
    constants: &[Constant],
    known: &mut Known,
    body: &[Stmt],
) -> Result<(), CheckFault>
    ensures passes { Passes (spec.inside (spec.all (map (spec.stmt constants.now) body.now))) known.old known.new result }
{
    known.scope.enter(alloc)?;
    stmts(alloc, constants, known, body)?;
    known.scope.leave();
    Ok(())
}

/// The head of a `for`.
fn head(
    alloc: Global,
    constants: &[Constant],
    known: &mut Known,
    beginning: &Option<Init>,
    test: &Option<Expr>,
    update: &Option<Assign>,
) -> Result<(), CheckFault>
    ensures passes { Passes (spec.head constants.now beginning.now test.now update.now) known.old known.new result }
{
    perhaps_init(alloc, constants, known, beginning)?;
    perhaps_expr(alloc, constants, known, test)?;
    perhaps_assign(alloc, constants, known, update)
}

#[cycle(named)]
fn for_block(
    alloc: Global,
    constants: &[Constant],
    known: &mut Known,
    beginning: &Option<Init>,
    test: &Option<Expr>,
    update: &Option<Assign>,
    body: &Stmt,
) -> Result<(), CheckFault>
    ensures passes { Passes (spec.inside (spec.joined (spec.head constants.now beginning.now test.now update.now) (spec.inside (spec.stmt constants.now body.now)))) known.old known.new result }
{
    known.scope.enter(alloc)?;
    head(alloc, constants, known, beginning, test, update)?;
    inside(alloc, constants, known, body)?;
    known.scope.leave();
    Ok(())
}

#[cycle(named)]
fn perhaps(
    alloc: Global,
    constants: &[Constant],
    known: &mut Known,
    last: &Option<Boxed<Stmt>>,
) -> Result<(), CheckFault>
    ensures passes { Passes (spec.perhaps (option_map (λ s. spec.inside (spec.stmt constants.now s)) last.now)) known.old known.new result }
{
    match last {
        None => Ok(()),
        Some(body) => inside(alloc, constants, known, body.get()),
    }
}

#[cycle(named)]
fn stmt(
    alloc: Global,
    constants: &[Constant],
    known: &mut Known,
    stmt: &Stmt,
) -> Result<(), CheckFault>
    ensures passes { Passes (spec.stmt constants.now stmt.now) known.old known.new result }
{
    match stmt {
        Stmt::Empty(_) => Ok(()),
        Stmt::Declare(_, ds) => decls(alloc, constants, known, ds.as_slice()),
        Stmt::Set(_, a) => assign(alloc, constants, known, a),
        Stmt::Call(_, name, callee, args) => {
            answer(alloc, constants, known, name)?;
            called(alloc, constants, known, callee)?;
            exprs(alloc, constants, known, args.as_slice())
        }
        Stmt::Input(_, name) => answer(alloc, constants, known, name),
        Stmt::Put(_, e) => expr(alloc, constants, known, e),
        Stmt::Print(_, _, es) => exprs(alloc, constants, known, es.as_slice()),
        Stmt::Return(_, value) => given(alloc, constants, known, value),
        Stmt::If(_, each, last) => {
            arms(alloc, constants, known, each.as_slice())?;
            perhaps(alloc, constants, known, last)
        }
        Stmt::While(_, test, body) => {
            expr(alloc, constants, known, test)?;
            inside(alloc, constants, known, body.get())
        }
        Stmt::Do(_, body, test) => {
            inside(alloc, constants, known, body.get())?;
            expr(alloc, constants, known, test)
        }
        Stmt::For(_, beginning, test, update, body) => {
            for_block(alloc, constants, known, beginning, test, update, body.get())
        }
        Stmt::Block(_, body) => block(alloc, constants, known, body.as_slice()),
        Stmt::Break(_) => Ok(()),
        Stmt::Continue(_) => Ok(()),
        Stmt::Checkpoint(_) => Ok(()),
        Stmt::Exclude(_) => Ok(()),
    }
}
