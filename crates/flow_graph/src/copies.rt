//! Copies of parts of a tree.

ghost use Rattle.std.specs.Prelude.{◌≡◌, IfOk};

use c_tree::{Exprs, Pieces, PrintPiece, RExpr, RPlace};
use ckpt_base::NoMemory;
use sqlite_items::{Boxed, Items};
use std::alloc::Global;

/// A copy of an expression.
pub fn copy_expr(alloc: Global, expr: &RExpr) -> Result<RExpr, NoMemory>
    ensures answer { IfOk result (λ e. e ≡ expr.now) }
{
    match expr {
        RExpr::Num(n) => Ok(RExpr::Num(*n)),
        RExpr::Cell(c) => Ok(RExpr::Cell(*c)),
        RExpr::Local(i) => Ok(RExpr::Local(*i)),
        RExpr::Object(o) => Ok(RExpr::Object(*o)),
        RExpr::Null => Ok(RExpr::Null),
        RExpr::Unary(op, x) => {
            let x = copy_expr(alloc, x.get())?;
            Ok(RExpr::Unary(*op, Boxed::new(alloc, x)?))
        }
        RExpr::Binary(op, x, y) => {
            let x = copy_expr(alloc, x.get())?;
            let y = copy_expr(alloc, y.get())?;
            Ok(RExpr::Binary(*op, Boxed::new(alloc, x)?, Boxed::new(alloc, y)?))
        }
        RExpr::And(x, y) => {
            let x = copy_expr(alloc, x.get())?;
            let y = copy_expr(alloc, y.get())?;
            Ok(RExpr::And(Boxed::new(alloc, x)?, Boxed::new(alloc, y)?))
        }
        RExpr::Or(x, y) => {
            let x = copy_expr(alloc, x.get())?;
            let y = copy_expr(alloc, y.get())?;
            Ok(RExpr::Or(Boxed::new(alloc, x)?, Boxed::new(alloc, y)?))
        }
        RExpr::Move(x, y, direction) => {
            let x = copy_expr(alloc, x.get())?;
            let y = copy_expr(alloc, y.get())?;
            Ok(RExpr::Move(Boxed::new(alloc, x)?, Boxed::new(alloc, y)?, *direction))
        }
        RExpr::Fetch(x) => {
            let x = copy_expr(alloc, x.get())?;
            Ok(RExpr::Fetch(Boxed::new(alloc, x)?))
        }
    }
}

/// A copy of a place.
pub fn copy_place(alloc: Global, place: &RPlace) -> Result<RPlace, NoMemory>
    ensures answer { IfOk result (λ p. p ≡ place.now) }
{
    match place {
        RPlace::Cell(c) => Ok(RPlace::Cell(*c)),
        RPlace::Local(i) => Ok(RPlace::Local(*i)),
        RPlace::At(expr) => Ok(RPlace::At(copy_expr(alloc, expr)?)),
    }
}

/// A copy of a place that may be absent.
pub fn copy_some(alloc: Global, place: &Option<RPlace>) -> Result<Option<RPlace>, NoMemory>
    ensures answer { IfOk result (λ p. p ≡ place.now) }
{
    match place {
        None => Ok(None),
        Some(place) => Ok(Some(copy_place(alloc, place)?)),
    }
}

/// A copy of an expression that may be absent.
pub fn copy_option(alloc: Global, expr: &Option<RExpr>) -> Result<Option<RExpr>, NoMemory>
    ensures answer { IfOk result (λ e. e ≡ expr.now) }
{
    match expr {
        None => Ok(None),
        Some(expr) => Ok(Some(copy_expr(alloc, expr)?)),
    }
}

/// A copy of some expressions.
pub fn copy_exprs(alloc: Global, exprs: &[RExpr]) -> Result<Exprs, NoMemory>
    ensures answer { IfOk result (λ es. es ≡ exprs.now) }
{
    let mut copies = Items::new(alloc);
    'exprs: for expr in exprs {
        copies.push(copy_expr(alloc, expr)?)?;
    }
    Ok(copies)
}

/// A copy of some pieces.
pub fn copy_pieces(alloc: Global, pieces: &[PrintPiece]) -> Result<Pieces, NoMemory>
    ensures answer { IfOk result (λ ps. ps ≡ pieces.now) }
{
    Ok(Items::from_slice(alloc, pieces)?)
}
