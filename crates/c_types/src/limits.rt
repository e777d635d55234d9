//! The last pass: the limits of a program, and its tree.
#![tactic(auto, using(crate::proofs::Faulty::front, crate::proofs::Faulty::behind))]

ghost use Rattle.std.specs.Prelude.{◌≡◌, ◌<◌, ◌≤◌, true, Some, Ok, IfOk, IfSome, length, map, nat_lt};
ghost use Rattle.std.specs.List.{list_all, All};
ghost use Rattle.c_tree.specs.Nodes as nodes;
ghost use Rattle.c_types.specs.Faults.{Finds};
ghost use Rattle.c_types.specs.Places.{Gets};
ghost use Rattle.c_types.specs.Check as spec;

use crate::bodies::MainBody;
use crate::fault::CheckFault;
use crate::file::{FileNames, FileObject};
use c_tree::{MAIN_NODES, MAX_CELLS, MAX_EXCLUDES, RArm, RFunction, RObject, RStmt};
use ckpt_base::{NoMemory, Text};
use sqlite_items::Items;
use std::alloc::Global;

/// How many nodes a statement has, where 32 bits hold the number.
#[cycle(nodes)]
pub fn count_nodes(stmt: &RStmt) -> Option<u32>
    ensures answer { IfSome result (λ n. n ≡ nodes.node_count stmt.now) }
{
    match stmt {
        RStmt::Empty | RStmt::Break | RStmt::Continue => Some(0),
        RStmt::If(arms, last) => {
            let mut count: u32 = 0;
            'arms: for arm in arms.as_slice() {
                count = count.checked_add(count_arm(arm)?)?;
            }
            match last {
                None => Some(count),
                Some(stmt) => count.checked_add(count_nodes(stmt.get())?),
            }
        }
        RStmt::While(_, body) | RStmt::Do(body, _) => count_nodes(body.get())?.checked_add(1),
        RStmt::For(init, _, update, body) => {
            let head = 1 + u32::from(init.is_some()) + u32::from(update.is_some());
            count_nodes(body.get())?.checked_add(head)
        }
        RStmt::Block(stmts) => {
            let mut count: u32 = 0;
            'stmts: for stmt in stmts.as_slice() {
                count = count.checked_add(count_nodes(stmt)?)?;
            }
            Some(count)
        }
        _ => Some(1),
    }
}

/// How many nodes an arm of an `if` has, its test counted.
#[cycle(nodes)]
fn count_arm(arm: &RArm) -> Option<u32>
    ensures answer { IfSome result (λ n. n ≡ nodes.arm_count arm.now) }
{
    count_nodes(&arm.body)?.checked_add(1)
}

/// Each function has fewer than 4,294,967,295 nodes, and there are fewer than 4,294,967,296 functions.
pub fn functions_fit(functions: &[RFunction]) -> Result<(), CheckFault>
    ensures gets { Gets (Ok tt) result }
    ensures count { IfOk result (λ u. length functions.now < 4294967296) }
    ensures nodes { IfOk result (λ u. list_all (λ f. nat_lt (nodes.node_count f.body) 4294967295) functions.now ≡ true) }
{
    if functions.len() > u32::MAX as usize {
        return Err(CheckFault::Memory);
    }
    for f in functions {
        match count_nodes(&f.body) {
            None => return Err(CheckFault::Memory),
            Some(count) => {
                if count == u32::MAX {
                    return Err(CheckFault::Memory);
                }
            }
        }
    }
    Ok(())
}

fn few_cells(file: &FileNames, main: &MainBody) -> Result<(), CheckFault>
    ensures finds { Finds result (spec.cell_faults file.now main.now) }
{
    let locals = main.function.locals.len() as u128;
    let Some(cells) = file.cells().checked_add(locals) else {
        return Err(CheckFault::Memory);
    };
    if cells <= MAX_CELLS as u128 {
        Ok(())
    } else {
        Err(CheckFault::TooManyCells(cells))
    }
}

fn few_locals(alloc: Global, crowded: &Option<Text>) -> Result<(), CheckFault>
    ensures finds { Finds result (spec.crowded_faults crowded.now) }
{
    match crowded {
        None => Ok(()),
        Some(name) => Err(CheckFault::TooManyLocals(name.copy(alloc)?)),
    }
}

fn few_nodes(main: &MainBody) -> Result<(), CheckFault>
    ensures finds { Finds result (spec.node_faults main.now) }
{
    match count_nodes(&main.function.body) {
        None => Err(CheckFault::Memory),
        Some(count) => {
            if count <= MAIN_NODES {
                Ok(())
            } else {
                Err(CheckFault::TooManyNodes(count))
            }
        }
    }
}

fn few_excludes(main: &MainBody) -> Result<(), CheckFault>
    ensures finds { Finds result (spec.exclude_faults main.now) }
{
    if main.excludes <= MAX_EXCLUDES {
        Ok(())
    } else {
        Err(CheckFault::TooManyDirectives(main.excludes))
    }
}

/// The limits, in their order.
pub fn limits(
    alloc: Global,
    file: &FileNames,
    crowded: &Option<Text>,
    main: &MainBody,
) -> Result<(), CheckFault>
    ensures finds { Finds result (spec.limit_faults file.now crowded.now main.now) }
{
    few_cells(file, main)?;
    few_locals(alloc, crowded)?;
    few_nodes(main)?;
    few_excludes(main)
}

/// An object of the tree.
fn resolved_object(alloc: Global, object: &FileObject) -> Result<RObject, NoMemory>
    requires few { object.now.length ≤ 262144 }
    ensures answer { IfOk result (λ o. o ≡ spec.resolved_object object.now) }
{
    Ok(RObject {
        name: object.name.copy(alloc)?,
        kind: object.kind,
        length: object.length as u32,
        first: object.first,
    })
}

/// The objects of the tree.
pub fn resolved_objects(alloc: Global, objects: &[FileObject]) -> Result<Items<RObject>, NoMemory>
    requires few { All (λ o. o.length ≤ 262144) objects.now }
    ensures answer { IfOk result (λ os. os ≡ map spec.resolved_object objects.now) }
{
    let mut done = Items::new(alloc);
    for o in objects {
        done.push(resolved_object(alloc, o)?)?;
    }
    Ok(done)
}
