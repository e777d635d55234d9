//! What the nodes of a statement do, in the order of the text.

ghost use Rattle.std.specs.Prelude.{◌≡◌, ◌++◌, ◌∷◌, [], IfOk};
ghost use Rattle.flow_graph.specs.declared.node.NodeWork.TheVariants as NodeWork;
ghost use Rattle.flow_graph.specs.Works as spec;

use crate::copies::{copy_expr, copy_exprs, copy_option, copy_pieces, copy_place, copy_some};
use crate::node::NodeWork;
use c_tree::{PrintPiece, RAssign, RExpr, RInit, RPlace, RStmt};
use ckpt_base::NoMemory;
use sqlite_items::Items;
use std::alloc::Global;

/// Appends what the update of a `for` does.
fn add_update(
    alloc: Global,
    update: &Option<RAssign>,
    works: &mut Items<NodeWork>,
) -> Result<(), NoMemory>
    ensures added { IfOk result (λ _. works.new ≡ works.old ++ spec.update_works update.now) }
{
    match update {
        None => Ok(()),
        Some(assign) => {
            let place = copy_place(alloc, &assign.place)?;
            let value = copy_expr(alloc, &assign.value)?;
            works.push(NodeWork::Set { place, value })?;
            Ok(())
        }
    }
}

/// Appends what a `for` begins with.
fn add_init(
    alloc: Global,
    init: &Option<RInit>,
    works: &mut Items<NodeWork>,
) -> Result<(), NoMemory>
    ensures added { IfOk result (λ _. works.new ≡ works.old ++ spec.init_works init.now) }
{
    match init {
        None => Ok(()),
        Some(RInit::Declare(assign)) => {
            let place = copy_place(alloc, &assign.place)?;
            let value = copy_expr(alloc, &assign.value)?;
            works.push(NodeWork::Declare {
                place,
                value: Some(value),
            })?;
            Ok(())
        }
        Some(RInit::Set(assign)) => {
            let place = copy_place(alloc, &assign.place)?;
            let value = copy_expr(alloc, &assign.value)?;
            works.push(NodeWork::Set { place, value })?;
            Ok(())
        }
    }
}

/// Appends a test.
fn add_test(alloc: Global, expr: &RExpr, works: &mut Items<NodeWork>) -> Result<(), NoMemory>
    ensures added { IfOk result (λ _. works.new ≡ works.old ++ NodeWork.Test expr.now ∷ []) }
{
    let value = copy_expr(alloc, expr)?;
    works.push(NodeWork::Test { value })?;
    Ok(())
}

/// Appends the test of a `for`, which is 1 where it is absent.
fn add_condition(
    alloc: Global,
    expr: &Option<RExpr>,
    works: &mut Items<NodeWork>,
) -> Result<(), NoMemory>
    ensures added { IfOk result (λ _. works.new ≡ works.old ++ NodeWork.Test (spec.condition expr.now) ∷ []) }
{
    match expr {
        None => {
            works.push(NodeWork::Test {
                value: RExpr::Num(1),
            })?;
            Ok(())
        }
        Some(expr) => add_test(alloc, expr, works),
    }
}

/// Appends a declaration.
fn add_declare(
    alloc: Global,
    place: &RPlace,
    expr: &Option<RExpr>,
    works: &mut Items<NodeWork>,
) -> Result<(), NoMemory>
    ensures added { IfOk result (λ _. works.new ≡ works.old ++ NodeWork.Declare place.now expr.now ∷ []) }
{
    let place = copy_place(alloc, place)?;
    let value = copy_option(alloc, expr)?;
    works.push(NodeWork::Declare { place, value })?;
    Ok(())
}

/// Appends an assignment.
fn add_set(
    alloc: Global,
    place: &RPlace,
    expr: &RExpr,
    works: &mut Items<NodeWork>,
) -> Result<(), NoMemory>
    ensures added { IfOk result (λ _. works.new ≡ works.old ++ NodeWork.Set place.now expr.now ∷ []) }
{
    let place = copy_place(alloc, place)?;
    let value = copy_expr(alloc, expr)?;
    works.push(NodeWork::Set { place, value })?;
    Ok(())
}

/// Appends a call.
fn add_call(
    alloc: Global,
    place: &Option<RPlace>,
    function: u32,
    args: &[RExpr],
    works: &mut Items<NodeWork>,
) -> Result<(), NoMemory>
    ensures added { IfOk result (λ _. works.new ≡ works.old ++ NodeWork.Call place.now function args.now ∷ []) }
{
    let place = copy_some(alloc, place)?;
    let args = copy_exprs(alloc, args)?;
    works.push(NodeWork::Call {
        place,
        function,
        args,
    })?;
    Ok(())
}

/// Appends a taking of input.
fn add_input(
    alloc: Global,
    place: &Option<RPlace>,
    works: &mut Items<NodeWork>,
) -> Result<(), NoMemory>
    ensures added { IfOk result (λ _. works.new ≡ works.old ++ NodeWork.Input place.now ∷ []) }
{
    let place = copy_some(alloc, place)?;
    works.push(NodeWork::Input { place })?;
    Ok(())
}

/// Appends a return.
fn add_return(alloc: Global, expr: &RExpr, works: &mut Items<NodeWork>) -> Result<(), NoMemory>
    ensures added { IfOk result (λ _. works.new ≡ works.old ++ NodeWork.Return expr.now ∷ []) }
{
    let value = copy_expr(alloc, expr)?;
    works.push(NodeWork::Return { value })?;
    Ok(())
}

/// Appends a return of a call.
fn add_return_call(
    alloc: Global,
    function: u32,
    args: &[RExpr],
    works: &mut Items<NodeWork>,
) -> Result<(), NoMemory>
    ensures added { IfOk result (λ _. works.new ≡ works.old ++ NodeWork.ReturnCall function args.now ∷ []) }
{
    let args = copy_exprs(alloc, args)?;
    works.push(NodeWork::ReturnCall { function, args })?;
    Ok(())
}

/// Appends a `putchar`.
fn add_put(alloc: Global, expr: &RExpr, works: &mut Items<NodeWork>) -> Result<(), NoMemory>
    ensures added { IfOk result (λ _. works.new ≡ works.old ++ NodeWork.Put expr.now ∷ []) }
{
    let value = copy_expr(alloc, expr)?;
    works.push(NodeWork::Put { value })?;
    Ok(())
}

/// Appends a `printf`.
fn add_print(
    alloc: Global,
    pieces: &[PrintPiece],
    args: &[RExpr],
    works: &mut Items<NodeWork>,
) -> Result<(), NoMemory>
    ensures added { IfOk result (λ _. works.new ≡ works.old ++ NodeWork.Print pieces.now args.now ∷ []) }
{
    let pieces = copy_pieces(alloc, pieces)?;
    let args = copy_exprs(alloc, args)?;
    works.push(NodeWork::Print { pieces, args })?;
    Ok(())
}

/// Appends what the nodes of a statement do.
pub fn add_works(alloc: Global, stmt: &RStmt, works: &mut Items<NodeWork>) -> Result<(), NoMemory>
    ensures added { IfOk result (λ _. works.new ≡ works.old ++ spec.works stmt.now) }
{
    match stmt {
        RStmt::Empty | RStmt::Break | RStmt::Continue => Ok(()),
        RStmt::Declare(place, expr) => add_declare(alloc, place, expr, works),
        RStmt::Set(place, expr) => add_set(alloc, place, expr, works),
        RStmt::Call(place, f, args) => add_call(alloc, place, *f, args.as_slice(), works),
        RStmt::Input(place) => add_input(alloc, place, works),
        RStmt::Return(expr) => add_return(alloc, expr, works),
        RStmt::ReturnCall(f, args) => add_return_call(alloc, *f, args.as_slice(), works),
        RStmt::ReturnInput => add_plain(works, NodeWork::ReturnInput),
        RStmt::Put(expr) => add_put(alloc, expr, works),
        RStmt::Print(pieces, args) => add_print(alloc, pieces.as_slice(), args.as_slice(), works),
        RStmt::Checkpoint => add_plain(works, NodeWork::Checkpoint),
        RStmt::Exclude(k) => add_plain(works, NodeWork::Exclude(*k)),
        RStmt::If(arms, last) => {
            'arms: for arm in arms.as_slice() {
                add_test(alloc, &arm.test, works)?;
                add_works(alloc, &arm.body, works)?;
            }
            match last {
                None => Ok(()),
                Some(stmt) => add_works(alloc, stmt.get(), works),
            }
        }
        RStmt::While(test, body) => {
            add_test(alloc, test, works)?;
            add_works(alloc, body.get(), works)
        }
        RStmt::Do(body, test) => {
            add_works(alloc, body.get(), works)?;
            add_test(alloc, test, works)
        }
        RStmt::For(init, test, update, body) => {
            add_init(alloc, init, works)?;
            add_condition(alloc, test, works)?;
            add_update(alloc, update, works)?;
            add_works(alloc, body.get(), works)
        }
        RStmt::Block(stmts) => {
            'stmts: for stmt in stmts.as_slice() {
                add_works(alloc, stmt, works)?;
            }
            Ok(())
        }
    }
}

/// Appends a work without parts.
fn add_plain(works: &mut Items<NodeWork>, work: NodeWork) -> Result<(), NoMemory>
    ensures added { IfOk result (λ _. works.new ≡ works.old ++ work ∷ []) }
{
    works.push(work)?;
    Ok(())
}
