//! How many operands a code needs.

ghost use Rattle.std.specs.Prelude.{◌≡◌, ◌+◌, ◌^◌, ◌≤◌, max, IfOk, OnErr};
ghost use Rattle.code_maker.specs.Depths as spec;

use c_tree::{RExpr, RPlace};
use ckpt_base::NoMemory;
use flow_graph::NodeWork;

/// The depth of two values, of which the left one lies below the right one. A depth that no code can name is refused here, as one for which no memory is found.
fn beside(left: u32, right: u32) -> Result<u32, NoMemory>
    ensures answer { IfOk result (λ d. d ≡ max left (right + 1)) }
    ensures err { OnErr result (2 ^ 32 ≤ max left (right + 1)) }
{
    if right == u32::MAX {
        return Err(NoMemory);
    }
    Ok(left.max(right + 1))
}

/// The greatest number of operands while an expression is evaluated.
fn expr_depth(expr: &RExpr) -> Result<u32, NoMemory>
    ensures answer { IfOk result (λ d. d ≡ spec.expr_depth expr.now) }
    ensures err { OnErr result (2 ^ 32 ≤ spec.expr_depth expr.now) }
{
    match expr {
        RExpr::Num(_) => Ok(1),
        RExpr::Cell(_) => Ok(1),
        RExpr::Local(_) => Ok(1),
        RExpr::Object(_) => Ok(1),
        RExpr::Null => Ok(1),
        RExpr::Unary(_, x) => expr_depth(x.get()),
        RExpr::Binary(_, x, y) => {
            let left = expr_depth(x.get())?;
            beside(left, expr_depth(y.get())?)
        }
        RExpr::And(x, y) => {
            let left = expr_depth(x.get())?;
            Ok(left.max(expr_depth(y.get())?))
        }
        RExpr::Or(x, y) => {
            let left = expr_depth(x.get())?;
            Ok(left.max(expr_depth(y.get())?))
        }
        RExpr::Move(x, y, _) => {
            let left = expr_depth(x.get())?;
            beside(left, expr_depth(y.get())?)
        }
        RExpr::Fetch(x) => expr_depth(x.get()),
    }
}

/// The greatest number of operands while expressions are evaluated, of which each value stays.
fn values_depth(exprs: &[RExpr]) -> Result<u32, NoMemory>
    ensures answer { IfOk result (λ d. d ≡ spec.values_depth exprs.now) }
    ensures err { OnErr result (2 ^ 32 ≤ spec.values_depth exprs.now) }
{
    let mut depth = 0;
    'exprs: for i in (0..exprs.len()).rev() {
        depth = beside(expr_depth(&exprs[i])?, depth)?;
    }
    Ok(depth)
}

/// The greatest number of operands while a value that needs so many is stored.
fn set_depth(place: &RPlace, value: u32) -> Result<u32, NoMemory>
    ensures answer { IfOk result (λ d. d ≡ spec.set_depth place.now value) }
    ensures err { OnErr result (2 ^ 32 ≤ spec.set_depth place.now value) }
{
    match place {
        RPlace::Cell(_) => Ok(value),
        RPlace::Local(_) => Ok(value),
        RPlace::At(pointer) => beside(expr_depth(pointer)?, value),
    }
}

/// The greatest number of operands while what a declaration stores is evaluated.
fn given_depth(value: &Option<RExpr>) -> Result<u32, NoMemory>
    ensures answer { IfOk result (λ d. d ≡ spec.given_depth value.now) }
    ensures err { OnErr result (2 ^ 32 ≤ spec.given_depth value.now) }
{
    match value {
        None => Ok(1),
        Some(value) => expr_depth(value),
    }
}

/// The greatest number of operands while a node is done.
pub fn work_depth(work: &NodeWork) -> Result<u32, NoMemory>
    ensures answer { IfOk result (λ d. d ≡ spec.work_depth work.now) }
    ensures err { OnErr result (2 ^ 32 ≤ spec.work_depth work.now) }
{
    match work {
        NodeWork::Declare { place, value } => set_depth(place, given_depth(value)?),
        NodeWork::Set { place, value } => set_depth(place, expr_depth(value)?),
        NodeWork::Call { args, .. } => Ok(values_depth(args.as_slice())?.max(1)),
        NodeWork::Return { value } => expr_depth(value),
        NodeWork::ReturnCall { args, .. } => Ok(values_depth(args.as_slice())?.max(1)),
        NodeWork::Put { value } => expr_depth(value),
        NodeWork::Print { args, .. } => values_depth(args.as_slice()),
        NodeWork::Test { value } => expr_depth(value),
        NodeWork::Input { .. } => Ok(1),
        NodeWork::ReturnInput => Ok(1),
        NodeWork::Checkpoint => Ok(1),
        NodeWork::Exclude(_) => Ok(1),
        NodeWork::End => Ok(1),
    }
}
