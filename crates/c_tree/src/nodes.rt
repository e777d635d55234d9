ghost use Rattle.std.specs.Prelude.{◌≡◌, ◌<◌, ◌^◌};
ghost use Rattle.c_tree.specs.Nodes as nodes;

use crate::resolved::{RArm, RAssign, RInit, RStmt};

/// How many nodes a statement has: each thing in it that takes a tick is one.
#[cycle(nodes)]
pub fn node_count(stmt: &RStmt) -> u32
    requires fits { nodes.node_count stmt.now < 2 ^ 32 }
    ensures answer { result ≡ nodes.node_count stmt.now }
{
    match stmt {
        RStmt::Empty | RStmt::Break | RStmt::Continue => 0,
        RStmt::Declare(_, _)
        | RStmt::Set(_, _)
        | RStmt::Call(_, _, _)
        | RStmt::Input(_)
        | RStmt::Return(_)
        | RStmt::ReturnCall(_, _)
        | RStmt::ReturnInput
        | RStmt::Put(_)
        | RStmt::Print(_, _)
        | RStmt::Checkpoint
        | RStmt::Exclude(_) => 1,
        RStmt::If(arms, last) => {
            let mut count = 0;
            'arms: for arm in arms.as_slice() {
                count += arm_count(arm);
            }
            match last {
                None => count,
                Some(stmt) => count + node_count(stmt.get()),
            }
        }
        RStmt::While(_, body) | RStmt::Do(body, _) => 1 + node_count(body.get()),
        RStmt::For(init, _, update, body) => {
            init_count(init) + 1 + assign_count(update) + node_count(body.get())
        }
        RStmt::Block(stmts) => {
            let mut count = 0;
            'stmts: for stmt in stmts.as_slice() {
                count += node_count(stmt);
            }
            count
        }
    }
}

/// How many nodes an arm of an `if` has, its test counted.
#[cycle(nodes)]
fn arm_count(arm: &RArm) -> u32
    requires fits { nodes.arm_count arm.now < 2 ^ 32 }
    ensures answer { result ≡ nodes.arm_count arm.now }
{
    1 + node_count(&arm.body)
}

/// How many nodes the beginning of a `for` has, which may be absent.
fn init_count(init: &Option<RInit>) -> u32
    ensures answer { result ≡ nodes.init_count init.now }
{
    match init {
        None => 0,
        Some(_) => 1,
    }
}

/// How many nodes an assignment has that may be absent.
fn assign_count(assign: &Option<RAssign>) -> u32
    ensures answer { result ≡ nodes.assign_count assign.now }
{
    match assign {
        None => 0,
        Some(_) => 1,
    }
}
