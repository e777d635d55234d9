//! What statements may read and write, and which functions they call.

ghost use Rattle.std.specs.Prelude.{◌≡◌, ◌++◌, ◌∷◌, [], OnOk, IfOk};
ghost use Rattle.alias_sets.specs.Flows as flows;
ghost use Rattle.access_summary.specs.Effects as spec;

use alias_sets::{PointerVar, Source};
use c_tree::{Direction, RArm, RAssign, RExpr, RInit, RPlace, RStmt};
use ckpt_base::NoMemory;
use sqlite_items::Items;

/// What an expression names, by the text alone.
#[derive(Clone, Copy, Debug, PartialEq, Eq)]
pub enum Named {
    /// It is written as a number, and names nothing.
    Number(i64),
    /// Place 0 of an object.
    Object(u32),
    /// An object moved forward by a number that is written out.
    Element(u32, i64),
    /// Any place of what the source gives.
    From(Source),
}

/// The cells that an access may touch.
#[derive(Clone, Copy, Debug, PartialEq, Eq)]
pub enum Target {
    /// One cell of the program.
    Cell(u32),
    /// The cell at a place of an object, or none where there is no such place.
    Element(u32, i64),
    /// Every cell of every object that the source may give.
    Objects(Source),
}

/// What a statement does that shows outside of its function.
#[derive(Clone, Copy, Debug, PartialEq, Eq)]
pub enum Effect {
    /// It may read one of the cells.
    Read(Target),
    /// It may write one of the cells.
    Write(Target),
    /// It calls a function.
    Call(u32),
}

fn source_in(named: Named) -> Source
    ensures answer { result ≡ spec.source_in named }
{
    match named {
        Named::Number(_) => Source::Nothing,
        Named::Object(object) => Source::Object(object),
        Named::Element(object, _) => Source::Object(object),
        Named::From(source) => source,
    }
}

fn moved(direction: Direction, pointer: Named, number: Named) -> Named
    ensures answer { result ≡ spec.moved direction pointer number }
{
    match (direction, pointer, number) {
        (Direction::Forward, Named::Object(object), Named::Number(place)) => {
            Named::Element(object, place)
        }
        _ => Named::From(source_in(pointer)),
    }
}

fn target_of(named: Named) -> Target
    ensures answer { result ≡ spec.target named }
{
    match named {
        Named::Number(_) => Target::Objects(Source::Nothing),
        Named::Object(object) => Target::Element(object, 0),
        Named::Element(object, place) => Target::Element(object, place),
        Named::From(source) => Target::Objects(source),
    }
}

fn local_source(function: Option<u32>, index: u32) -> Source
    ensures answer { result ≡ flows.variable_source (flows.local_of function index) }
{
    match function {
        None => Source::Nothing,
        Some(function) => Source::Variable(PointerVar::Local { function, index }),
    }
}

/// Appends an effect.
pub fn push(effects: &mut Items<Effect>, effect: Effect) -> Result<(), NoMemory>
    ensures answer { OnOk result (effects.new ≡ effects.old ++ effect ∷ []) }
{
    effects.push(effect)?;
    Ok(())
}

/// Appends the effects of an expression, and tells what it names.
fn look(effects: &mut Items<Effect>, function: Option<u32>, expr: &RExpr) -> Result<Named, NoMemory>
    ensures answer { IfOk result (λ named. named ≡ (spec.seen function expr.now).named) }
    ensures source { IfOk result (λ named. spec.source_in named ≡ flows.source function expr.now) }
    ensures effects { OnOk result (effects.new ≡ effects.old ++ spec.expr_effects function expr.now) }
{
    match expr {
        RExpr::Num(number) => Ok(Named::Number(*number)),
        RExpr::Cell(cell) => {
            push(effects, Effect::Read(Target::Cell(*cell)))?;
            Ok(Named::From(Source::Variable(PointerVar::Cell(*cell))))
        }
        RExpr::Local(index) => Ok(Named::From(local_source(function, *index))),
        RExpr::Object(object) => Ok(Named::Object(*object)),
        RExpr::Null => Ok(Named::From(Source::Nothing)),
        RExpr::Unary(_, side) => {
            look(effects, function, side.get())?;
            Ok(Named::From(Source::Nothing))
        }
        RExpr::Binary(_, left, right) => {
            look(effects, function, left.get())?;
            look(effects, function, right.get())?;
            Ok(Named::From(Source::Nothing))
        }
        RExpr::And(left, right) => {
            look(effects, function, left.get())?;
            look(effects, function, right.get())?;
            Ok(Named::From(Source::Nothing))
        }
        RExpr::Or(left, right) => {
            look(effects, function, left.get())?;
            look(effects, function, right.get())?;
            Ok(Named::From(Source::Nothing))
        }
        RExpr::Move(pointer, number, direction) => {
            let pointer = look(effects, function, pointer.get())?;
            let number = look(effects, function, number.get())?;
            Ok(moved(*direction, pointer, number))
        }
        RExpr::Fetch(pointer) => {
            let pointer = look(effects, function, pointer.get())?;
            push(effects, Effect::Read(target_of(pointer)))?;
            Ok(Named::From(Source::Nothing))
        }
    }
}

/// Appends the effects of evaluating an expression, in a function, or in `main` for none.
pub fn expr_effects(
    effects: &mut Items<Effect>,
    function: Option<u32>,
    expr: &RExpr,
) -> Result<(), NoMemory>
    ensures answer { OnOk result (effects.new ≡ effects.old ++ spec.expr_effects function expr.now) }
{
    look(effects, function, expr)?;
    Ok(())
}

/// Appends the effects of evaluating expressions.
pub fn all_effects(
    effects: &mut Items<Effect>,
    function: Option<u32>,
    exprs: &[RExpr],
) -> Result<(), NoMemory>
    ensures answer { OnOk result (effects.new ≡ effects.old ++ spec.all_effects function exprs.now) }
{
    'exprs: for expr in exprs {
        expr_effects(effects, function, expr)?;
    }
    Ok(())
}

/// Appends the effects of an expression that may be absent.
pub fn test_effects(
    effects: &mut Items<Effect>,
    function: Option<u32>,
    expr: &Option<RExpr>,
) -> Result<(), NoMemory>
    ensures answer { OnOk result (effects.new ≡ effects.old ++ spec.test_effects function expr.now) }
{
    match expr {
        None => Ok(()),
        Some(expr) => expr_effects(effects, function, expr),
    }
}

/// Appends the effects of the pointer of a place, and answers what a store into the place writes.
pub fn pointer_effects(
    effects: &mut Items<Effect>,
    function: Option<u32>,
    place: &RPlace,
) -> Result<Option<Target>, NoMemory>
    ensures answer { OnOk result (effects.new ≡ effects.old ++ spec.pointer_effects function place.now) }
    ensures written { IfOk result (λ target. spec.written function place.now ≡ spec.perhaps_written target) }
{
    match place {
        RPlace::Cell(cell) => Ok(Some(Target::Cell(*cell))),
        RPlace::Local(_) => Ok(None),
        RPlace::At(pointer) => {
            let named = look(effects, function, pointer)?;
            Ok(Some(target_of(named)))
        }
    }
}

/// Appends a write, where there is one.
pub fn write(effects: &mut Items<Effect>, target: Option<Target>) -> Result<(), NoMemory>
    ensures answer { OnOk result (effects.new ≡ effects.old ++ spec.perhaps_written target) }
{
    match target {
        None => Ok(()),
        Some(target) => push(effects, Effect::Write(target)),
    }
}
