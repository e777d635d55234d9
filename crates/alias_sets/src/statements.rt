//! The flows of a text, one statement after the other.

ghost use Rattle.std.specs.Prelude.{◌≡◌, ◌+◌, ◌++◌, OnOk, IfOk};
ghost use Rattle.alias_sets.specs.Flows as spec;

use crate::flows::{Flow, PointerVar, Source, answer_of, source_of, variable_of};
use c_tree::{RArm, RAssign, RExpr, RFunction, RInit, RPlace, RStmt, Resolved};
use ckpt_base::NoMemory;
use sqlite_items::Items;
use std::alloc::Global;

fn goes(flows: &mut Items<Flow>, from: Source, into: Option<PointerVar>) -> Result<(), NoMemory>
    ensures answer { OnOk result (flows.new ≡ flows.old ++ spec.goes from into) }
{
    if let Some(into) = into {
        flows.push(Flow { into, from })?;
    }
    Ok(())
}

fn assigned(
    flows: &mut Items<Flow>,
    function: Option<u32>,
    place: &RPlace,
    value: &RExpr,
) -> Result<(), NoMemory>
    ensures answer { OnOk result (flows.new ≡ flows.old ++ spec.assigned function place.now value.now) }
{
    goes(
        flows,
        source_of(function, value),
        variable_of(function, place),
    )
}

fn assignment(
    flows: &mut Items<Flow>,
    function: Option<u32>,
    assign: &Option<RAssign>,
) -> Result<(), NoMemory>
    ensures answer { OnOk result (flows.new ≡ flows.old ++ spec.assignment function assign.now) }
{
    match assign {
        None => Ok(()),
        Some(assign) => assigned(flows, function, &assign.place, &assign.value),
    }
}

fn beginning(
    flows: &mut Items<Flow>,
    function: Option<u32>,
    init: &Option<RInit>,
) -> Result<(), NoMemory>
    ensures answer { OnOk result (flows.new ≡ flows.old ++ spec.beginning function init.now) }
{
    match init {
        None => Ok(()),
        Some(RInit::Declare(assign)) => assigned(flows, function, &assign.place, &assign.value),
        Some(RInit::Set(assign)) => assigned(flows, function, &assign.place, &assign.value),
    }
}

fn passed(
    flows: &mut Items<Flow>,
    function: Option<u32>,
    callee: u32,
    args: &[RExpr],
) -> Result<(), NoMemory>
    ensures answer { OnOk result (flows.new ≡ flows.old ++ spec.passed function callee 0 args.now) }
{
    let mut index = 0;
    'arguments: for arg in args {
        let into = PointerVar::Local {
            function: callee,
            index,
        };
        flows.push(Flow {
            into,
            from: source_of(function, arg),
        })?;
        index = next_index(index)?;
    }
    Ok(())
}

/// The number after this one; no call has so many arguments that there is none.
fn next_index(index: u32) -> Result<u32, NoMemory>
    ensures answer { IfOk result (λ next. next ≡ index + 1) }
{
    index.checked_add(1).ok_or(NoMemory)
}

fn called(
    flows: &mut Items<Flow>,
    function: Option<u32>,
    into: Option<PointerVar>,
    callee: u32,
    args: &[RExpr],
) -> Result<(), NoMemory>
    ensures answer { OnOk result (flows.new ≡ flows.old ++ spec.called function into callee args.now) }
{
    passed(flows, function, callee, args)?;
    goes(flows, Source::Variable(PointerVar::Answer(callee)), into)
}

fn place_variable(function: Option<u32>, place: &Option<RPlace>) -> Option<PointerVar>
    ensures answer { result ≡ spec.perhaps_variable function place.now }
{
    match place {
        None => None,
        Some(place) => variable_of(function, place),
    }
}

#[cycle(flows)]
fn stmt_flows(flows: &mut Items<Flow>, function: Option<u32>, stmt: &RStmt) -> Result<(), NoMemory>
    ensures answer { OnOk result (flows.new ≡ flows.old ++ spec.stmt_flows function stmt.now) }
{
    match stmt {
        RStmt::Declare(place, Some(value)) => assigned(flows, function, place, value),
        RStmt::Set(place, value) => assigned(flows, function, place, value),
        RStmt::Call(place, callee, args) => {
            let into = place_variable(function, place);
            called(flows, function, into, *callee, args.as_slice())
        }
        RStmt::Return(value) => goes(flows, source_of(function, value), answer_of(function)),
        RStmt::ReturnCall(callee, args) => called(
            flows,
            function,
            answer_of(function),
            *callee,
            args.as_slice(),
        ),
        RStmt::If(arms, last) => {
            'arms: for arm in arms.as_slice() {
                arm_flows(flows, function, arm)?;
            }
            match last {
                None => Ok(()),
                Some(stmt) => stmt_flows(flows, function, stmt.get()),
            }
        }
        RStmt::While(_, body) | RStmt::Do(body, _) => stmt_flows(flows, function, body.get()),
        RStmt::For(init, _, update, body) => {
            beginning(flows, function, init)?;
            assignment(flows, function, update)?;
            stmt_flows(flows, function, body.get())
        }
        RStmt::Block(stmts) => {
            'stmts: for stmt in stmts.as_slice() {
                stmt_flows(flows, function, stmt)?;
            }
            Ok(())
        }
        _ => Ok(()),
    }
}

#[cycle(flows)]
fn arm_flows(flows: &mut Items<Flow>, function: Option<u32>, arm: &RArm) -> Result<(), NoMemory>
    ensures answer { OnOk result (flows.new ≡ flows.old ++ spec.arm_flows function arm.now) }
{
    stmt_flows(flows, function, &arm.body)
}

fn function_flows(flows: &mut Items<Flow>, functions: &[RFunction]) -> Result<(), NoMemory>
    ensures answer { OnOk result (flows.new ≡ flows.old ++ spec.function_flows 0 functions.now) }
{
    let mut number = 0;
    'functions: for function in functions {
        stmt_flows(flows, Some(number), &function.body)?;
        number = next_index(number)?;
    }
    Ok(())
}

/// The flows of a whole text.
pub fn flows_of(alloc: Global, program: &Resolved) -> Result<Items<Flow>, NoMemory>
    ensures answer { IfOk result (λ flows. flows ≡ spec.flows program.now) }
{
    let mut flows = Items::new(alloc);
    stmt_flows(&mut flows, None, &program.main.body)?;
    function_flows(&mut flows, program.functions.as_slice())?;
    Ok(flows)
}
