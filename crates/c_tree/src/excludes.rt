ghost use Rattle.std.specs.Prelude.{◌≡◌, ◌<◌, ◌^◌, length};
ghost use Rattle.c_tree.specs.Excludes as spec;

use crate::resolved::{RArm, RStmt};

/// How many EXCLUDE_HERE stand in a statement.
#[cycle(excludes)]
pub fn exclude_count(stmt: &RStmt) -> u32
    requires fits { length (spec.excludes stmt.now) < 2 ^ 32 }
    ensures answer { result ≡ length (spec.excludes stmt.now) }
{
    match stmt {
        RStmt::Exclude(_) => 1,
        RStmt::If(arms, last) => {
            let mut count = 0;
            'arms: for arm in arms.as_slice() {
                count += arm_count(arm);
            }
            match last {
                None => count,
                Some(stmt) => count + exclude_count(stmt.get()),
            }
        }
        RStmt::While(_, body) | RStmt::Do(body, _) => exclude_count(body.get()),
        RStmt::For(_, _, _, body) => exclude_count(body.get()),
        RStmt::Block(stmts) => {
            let mut count = 0;
            'stmts: for stmt in stmts.as_slice() {
                count += exclude_count(stmt);
            }
            count
        }
        _ => 0,
    }
}

/// How many EXCLUDE_HERE stand in an arm of an `if`.
#[cycle(excludes)]
fn arm_count(arm: &RArm) -> u32
    requires fits { length (spec.arm_excludes arm.now) < 2 ^ 32 }
    ensures answer { result ≡ length (spec.arm_excludes arm.now) }
{
    exclude_count(&arm.body)
}
