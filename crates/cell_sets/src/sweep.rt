ghost use Rattle.std.specs.Prelude.{◌≡◌, ℕ, ◌+◌, ◌-◌, ◌<◌, ◌≤◌, IfOk, OnOk, ◌&&◌, ◌||◌, nat_lt, nat_le};
ghost use Rattle.cell_sets.specs.Runs.{in_runs, IsRising};
ghost use Rattle.cell_sets.specs.Sweep.{IsAhead, IsNear, kept};

use crate::runs::Run;
use std::alloc::{AllocError, Global};

#[derive(Clone, Copy)]
pub(crate) enum Operation {
    Union,
    Minus,
}

fn keeps(operation: Operation, x: bool, y: bool) -> bool
    ensures { result ≡ kept operation x y }
{
    match operation {
        Operation::Union => x || y,
        Operation::Minus => x && !y,
    }
}

// Whether `position` is in the runs that are left, and where that changes next.
fn segment(left: &[Run], position: u32, universe: u32) -> (bool, u32)
    requires below { position < universe }
    requires ahead { IsAhead position left.now }
    requires rising { (low : ℕ) × IsRising low left.now (universe + 1) }
    ensures further { position < result.1 }
    ensures near { (p : ℕ) → p ≤ result.1 → IsNear p left.now }
    ensures within { result.1 ≤ universe }
    ensures same { (q : ℕ) → position ≤ q → q < result.1 → in_runs left.now q ≡ result.0 }
{
    match left.split_first() {
        None => (false, universe),
        Some((run, _)) => {
            if run.first <= position {
                (true, run.first + run.count)
            } else {
                (false, run.first)
            }
        }
    }
}

// The runs that are left from `position` on.
fn advance(left: &[Run], position: u32, universe: u32) -> &[Run]
    requires rising { (low : ℕ) × IsRising low left.now (universe + 1) }
    requires near { IsNear position left.now }
    ensures ahead { IsAhead position result.now }
    ensures rising { (low : ℕ) × IsRising low result.now (universe + 1) }
    ensures same { (q : ℕ) → position ≤ q → in_runs result.now q ≡ in_runs left.now q }
{
    match left.split_first() {
        None => left,
        Some((run, rest)) => {
            if run.first + run.count <= position {
                rest
            } else {
                left
            }
        }
    }
}

// Adds the cells from `from` to `to - 1` behind the runs, and joins them with the last run where they touch it.
fn append(out: &mut Vec<Run>, from: u32, to: u32) -> Result<(), AllocError>
    requires some { from < to }
    requires rising { IsRising 0 out.old.items (from + 1) }
    ensures rising { OnOk result (IsRising 0 out.new.items (to + 1)) }
    ensures added { OnOk result ((q : ℕ) → in_runs out.new.items q ≡ (in_runs out.old.items q || (nat_le from q && nat_lt q to))) }
{
    match out.pop() {
        None => out.push(Run {
            first: from,
            count: to - from,
        })?,
        Some(last) => {
            if last.first + last.count == from {
                out.push(Run {
                    first: last.first,
                    count: last.count + (to - from),
                })?;
            } else {
                out.push(last)?;
                out.push(Run {
                    first: from,
                    count: to - from,
                })?;
            }
        }
    }
    Ok(())
}

pub(crate) fn append_if(
    out: &mut Vec<Run>,
    keep: bool,
    from: u32,
    to: u32,
) -> Result<(), AllocError>
    requires some { from < to }
    requires rising { IsRising 0 out.old.items (from + 1) }
    ensures rising { OnOk result (IsRising 0 out.new.items (to + 1)) }
    ensures added { OnOk result ((q : ℕ) → in_runs out.new.items q ≡ (in_runs out.old.items q || (keep && (nat_le from q && nat_lt q to)))) }
{
    if keep { append(out, from, to) } else { Ok(()) }
}

// The cells that the operation keeps of two sets.
pub(crate) fn merge(
    alloc: Global,
    a: &[Run],
    b: &[Run],
    operation: Operation,
    universe: u32,
) -> Result<Vec<Run>, AllocError>
    requires a { IsRising 0 a.now (universe + 1) }
    requires b { IsRising 0 b.now (universe + 1) }
    ensures rising { IfOk result (λ v. IsRising 0 v.items (universe + 1)) }
    ensures same { IfOk result (λ v. (q : ℕ) → in_runs v.items q ≡ kept operation (in_runs a.now q) (in_runs b.now q)) }
{
    let mut out = Vec::new(alloc);
    let mut left = a;
    let mut right = b;
    let mut position = 0;
    'cells: while position < universe {
        let (in_a, next_a) = segment(left, position, universe);
        let (in_b, next_b) = segment(right, position, universe);
        let next = if next_a < next_b { next_a } else { next_b };
        append_if(&mut out, keeps(operation, in_a, in_b), position, next)?;
        left = advance(left, next, universe);
        right = advance(right, next, universe);
        position = next;
    }
    Ok(out)
}
