//! The effects of whole statements, in the order of the text.

ghost use Rattle.std.specs.Prelude.{◌≡◌, ◌++◌, ◌∷◌, [], OnOk, IfOk};
ghost use Rattle.access_summary.specs.Effects as spec;
ghost use Rattle.access_summary.specs.declared.effects.Effect.TheVariants as effect;

use crate::effects::{
    Effect, all_effects, expr_effects, pointer_effects, push, test_effects, write,
};
use c_tree::{RArm, RAssign, RExpr, RInit, RPlace, RStmt};
use ckpt_base::NoMemory;
use sqlite_items::Items;
use std::alloc::Global;

/// Appends the effects of a declaration, whose value may be absent.
pub fn declare_effects(
    effects: &mut Items<Effect>,
    function: Option<u32>,
    place: &RPlace,
    value: &Option<RExpr>,
) -> Result<(), NoMemory>
    ensures answer { OnOk result (effects.new ≡ effects.old ++ spec.stored function place.now (spec.test_effects function value.now)) }
{
    let target = pointer_effects(effects, function, place)?;
    test_effects(effects, function, value)?;
    write(effects, target)
}

/// Appends the effects of an assignment.
pub fn assign_effects(
    effects: &mut Items<Effect>,
    function: Option<u32>,
    place: &RPlace,
    value: &RExpr,
) -> Result<(), NoMemory>
    ensures answer { OnOk result (effects.new ≡ effects.old ++ spec.stored function place.now (spec.expr_effects function value.now)) }
{
    let target = pointer_effects(effects, function, place)?;
    expr_effects(effects, function, value)?;
    write(effects, target)
}

/// Appends the effects of a call: those of its arguments, and the call.
pub fn call_effects(
    effects: &mut Items<Effect>,
    function: Option<u32>,
    callee: u32,
    args: &[RExpr],
) -> Result<(), NoMemory>
    ensures answer { OnOk result (effects.new ≡ effects.old ++ spec.call_effects function callee args.now) }
{
    all_effects(effects, function, args)?;
    push(effects, Effect::Call(callee))
}

/// Appends the effects of a call, whose answer is stored where there is a place for it.
pub fn answer_effects(
    effects: &mut Items<Effect>,
    function: Option<u32>,
    place: &Option<RPlace>,
    callee: u32,
    args: &[RExpr],
) -> Result<(), NoMemory>
    ensures answer { OnOk result (effects.new ≡ effects.old ++ spec.perhaps_stored function place.now (spec.call_effects function callee args.now)) }
{
    match place {
        None => call_effects(effects, function, callee, args),
        Some(place) => {
            let target = pointer_effects(effects, function, place)?;
            call_effects(effects, function, callee, args)?;
            write(effects, target)
        }
    }
}

/// Appends the effects of taking a byte of the input, which is stored where there is a place for it.
pub fn input_effects(
    effects: &mut Items<Effect>,
    function: Option<u32>,
    place: &Option<RPlace>,
) -> Result<(), NoMemory>
    ensures answer { OnOk result (effects.new ≡ effects.old ++ spec.perhaps_stored function place.now []) }
{
    match place {
        None => Ok(()),
        Some(place) => {
            let target = pointer_effects(effects, function, place)?;
            write(effects, target)
        }
    }
}

fn beginning(
    effects: &mut Items<Effect>,
    function: Option<u32>,
    init: &Option<RInit>,
) -> Result<(), NoMemory>
    ensures answer { OnOk result (effects.new ≡ effects.old ++ spec.init_effects function init.now) }
{
    match init {
        None => Ok(()),
        Some(RInit::Declare(assign)) => assign_effects(
            effects,
            function,
            &assign.place,
            &assign.value,
        ),
        Some(RInit::Set(assign)) => assign_effects(effects, function, &assign.place, &assign.value),
    }
}

fn update(
    effects: &mut Items<Effect>,
    function: Option<u32>,
    assign: &Option<RAssign>,
) -> Result<(), NoMemory>
    ensures answer { OnOk result (effects.new ≡ effects.old ++ spec.update_effects function assign.now) }
{
    match assign {
        None => Ok(()),
        Some(assign) => assign_effects(effects, function, &assign.place, &assign.value),
    }
}

/// What a `for` does beside its body.
fn head(
    effects: &mut Items<Effect>,
    function: Option<u32>,
    init: &Option<RInit>,
    test: &Option<RExpr>,
    assign: &Option<RAssign>,
) -> Result<(), NoMemory>
    ensures answer { OnOk result (effects.new ≡ effects.old ++ spec.head_effects function init.now test.now assign.now) }
{
    beginning(effects, function, init)?;
    test_effects(effects, function, test)?;
    update(effects, function, assign)
}

/// Appends the effects of a statement of a function, or of `main` for none.
#[cycle(body)]
fn stmt_effects(
    effects: &mut Items<Effect>,
    function: Option<u32>,
    stmt: &RStmt,
) -> Result<(), NoMemory>
    ensures answer { OnOk result (effects.new ≡ effects.old ++ spec.stmt_effects function stmt.now) }
{
    match stmt {
        RStmt::Declare(place, value) => declare_effects(effects, function, place, value),
        RStmt::Set(place, value) => assign_effects(effects, function, place, value),
        RStmt::Call(place, callee, args) => {
            answer_effects(effects, function, place, *callee, args.as_slice())
        }
        RStmt::Input(place) => input_effects(effects, function, place),
        RStmt::Return(value) => expr_effects(effects, function, value),
        RStmt::ReturnCall(callee, args) => call_effects(
            effects,
            function,
            *callee,
            args.as_slice(),
        ),
        RStmt::Put(value) => expr_effects(effects, function, value),
        RStmt::Print(_, args) => all_effects(effects, function, args.as_slice()),
        RStmt::If(arms, last) => {
            'arms: for arm in arms.as_slice() {
                arm_effects(effects, function, arm)?;
            }
            match last {
                None => Ok(()),
                Some(stmt) => stmt_effects(effects, function, stmt.get()),
            }
        }
        RStmt::While(test, body) => {
            expr_effects(effects, function, test)?;
            stmt_effects(effects, function, body.get())
        }
        RStmt::Do(body, test) => {
            stmt_effects(effects, function, body.get())?;
            expr_effects(effects, function, test)
        }
        RStmt::For(init, test, assign, body) => {
            head(effects, function, init, test, assign)?;
            stmt_effects(effects, function, body.get())
        }
        RStmt::Block(stmts) => {
            'stmts: for stmt in stmts.as_slice() {
                stmt_effects(effects, function, stmt)?;
            }
            Ok(())
        }
        _ => Ok(()),
    }
}

#[cycle(body)]
fn arm_effects(
    effects: &mut Items<Effect>,
    function: Option<u32>,
    arm: &RArm,
) -> Result<(), NoMemory>
    ensures answer { OnOk result (effects.new ≡ effects.old ++ spec.arm_effects function arm.now) }
{
    expr_effects(effects, function, &arm.test)?;
    stmt_effects(effects, function, &arm.body)
}

/// The effects of the body of a function, or of `main` for none.
pub fn effects_of(
    alloc: Global,
    function: Option<u32>,
    body: &RStmt,
) -> Result<Items<Effect>, NoMemory>
    ensures answer { IfOk result (λ effects. effects ≡ spec.stmt_effects function body.now) }
{
    let mut effects = Items::new(alloc);
    stmt_effects(&mut effects, function, body)?;
    Ok(effects)
}
