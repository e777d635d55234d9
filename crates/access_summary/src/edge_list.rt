//! The edges between the nodes of a function, made from the last node to the first.

ghost use Rattle.std.specs.Prelude.{◌≡◌, ℕ, ◌++◌, ◌∷◌, ◌<◌, ◌≤◌, ◌+◌, ◌-◌, ◌^◌, List, [], length, map, sum, reverse, slice_get, IfOk, IfSome, OnOk, MatchOption, Some};
ghost use Rattle.c_tree.specs.Nodes as nodes;
ghost use Rattle.c_tree.specs.declared.resolved.RStmt.{RStmt};
ghost use Rattle.access_summary.specs.Edges as spec;
ghost use Rattle.access_summary.specs.Laying.{IsLaid, Block, Arms};

use c_tree::{Checked, RArm, RAssign, RInit, RStmt, node_count};
use ckpt_base::NoMemory;
use sqlite_items::Items;
use std::alloc::Global;
use std::marker::Model;

/// The nodes that a node goes on to: of a test, first where it holds, then where it does not.
pub type Edge = (Option<u32>, Option<u32>);

/// The edges of a function, for each of its nodes, the end node last. Contracts see the node at which it begins, and the edges.
#[derive(Drop)]
pub struct EdgeList {
    entry: u32,
    next: Items<Edge>,
}

impl Model for EdgeList {
    ghost use Rattle.std.specs.Prelude.{◌<◌, ◌^◌, length};
    ghost use Rattle.std.specs.Coded.{codes};
    ghost use Rattle.access_summary.specs.Edges.{FunctionEdges};

    ghost Value = { FunctionEdges };

    ghost coded = { Prim.hlevel codes };

    ghost view = { λ e. (e.entry, e.next) };

    ghost invariant = { λ e. length e.next < 2 ^ 32 };
}

impl EdgeList {
    /// How many nodes there are, the end node included.
    pub fn nodes(&self) -> u32
        ensures answer { result ≡ length (spec.edges_in self.now) }
    {
        self.next.len() as u32
    }

    /// The node at which the function begins.
    pub fn entry(&self) -> u32
        ensures answer { result ≡ spec.entry_in self.now }
    {
        self.entry
    }

    /// The nodes that node `n` goes on to; `n` is below the nodes.
    pub fn next(&self, n: u32) -> Edge
        requires within { n < length (spec.edges_in self.now) }
        ensures answer { slice_get (spec.edges_in self.now) n ≡ Some result }
    {
        self.next.as_slice()[n as usize]
    }
}

/// The nodes that a statement goes on to.
#[derive(Clone, Copy)]
pub struct Targets {
    /// The node behind it.
    pub next: u32,
    /// The node behind its loop.
    pub out_of_loop: u32,
    /// The node of its loop's next turn.
    pub again: u32,
    /// The end of its function.
    pub end: u32,
}

fn init_count(init: &Option<RInit>) -> u32
    ensures within { result < 2 }
    ensures answer { result ≡ nodes.init_count init.now }
{
    match init {
        None => 0,
        Some(_) => 1,
    }
}

fn assign_count(assign: &Option<RAssign>) -> u32
    ensures within { result < 2 }
    ensures answer { result ≡ nodes.assign_count assign.now }
{
    match assign {
        None => 0,
        Some(_) => 1,
    }
}

/// Appends an edge to one node.
fn push(edges: &mut Items<Edge>, to: u32) -> Result<(), NoMemory>
    ensures pushed { OnOk result (reverse edges.new ≡ spec.edge to ∷ reverse edges.old) }
{
    edges.push((Some(to), None))?;
    Ok(())
}

/// Appends the edges of a test.
fn push_test(edges: &mut Items<Edge>, holding: u32, failing: u32) -> Result<(), NoMemory>
    ensures pushed { OnOk result (reverse edges.new ≡ spec.test holding failing ∷ reverse edges.old) }
{
    edges.push((Some(holding), Some(failing)))?;
    Ok(())
}

/// Appends an edge to one node for each of so many.
fn push_some(edges: &mut Items<Edge>, count: u32, to: u32) -> Result<(), NoMemory>
    ensures none { OnOk result (count ≡ 0 → edges.new ≡ edges.old) }
    ensures one { OnOk result (0 < count → reverse edges.new ≡ spec.edge to ∷ reverse edges.old) }
{
    if count == 0 {
        return Ok(());
    }
    push(edges, to)?;
    Ok(())
}

fn loop_targets(again: u32, to: Targets) -> Targets
    ensures answer { result ≡ spec.loop_targets again to }
{
    Targets {
        next: again,
        out_of_loop: to.next,
        again,
        end: to.end,
    }
}

/// Appends the edges of statements one after the other, the last first, and answers the node at which they begin. Their nodes
/// end before `behind`.
#[cycle(lay)]
fn lay_all(
    stmts: &[RStmt],
    behind: u32,
    to: Targets,
    edges: &mut Items<Edge>,
) -> Result<u32, NoMemory>
    requires fits { sum (map nodes.node_count stmts.now) ≤ behind }
    ensures laid { IfOk result (λ n. let first : ℕ = behind - sum (map nodes.node_count stmts.now) in Block first to edges.old stmts.now 0 first n edges.new) }
{
    let mut m = behind;
    let mut next = to.next;
    let mut i = stmts.len();
    'block: while i > 0 {
        i -= 1;
        let s = &stmts[i];
        m -= node_count(s);
        next = lay(s, m, Targets { next, ..to }, edges)?;
    }
    Ok(next)
}

/// Appends the edges of the arms of an `if`, the last first, behind those of its last statement, and answers the node at which
/// it begins. The nodes of the arms end before `behind`, and `last` is the node that the last test goes on to.
#[cycle(lay)]
fn lay_arms(
    arms: &[RArm],
    behind: u32,
    last: u32,
    to: Targets,
    edges: &mut Items<Edge>,
) -> Result<u32, NoMemory>
    requires fits { sum (map nodes.arm_count arms.now) ≤ behind }
    ensures laid { IfOk result (λ n. (s : RStmt) (first : ℕ) (old : List spec.Edge) → Arms s first to old arms.now (length arms.now) behind last edges.old → IsLaid s first to n old edges.new) }
{
    let mut m = behind;
    let mut entry = last;
    let mut i = arms.len();
    'arms: while i > 0 {
        i -= 1;
        let arm = &arms[i];
        m -= node_count(&arm.body);
        let body = lay(&arm.body, m, to, edges)?;
        m -= 1;
        push_test(edges, body, entry)?;
        entry = m;
    }
    Ok(entry)
}

/// Appends the edges of a statement, the last first, and answers the node at which it begins. The test of a `do` stands behind
/// its body, and goes on to where the body begins.
#[cycle(lay)]
fn lay(stmt: &RStmt, first: u32, to: Targets, edges: &mut Items<Edge>) -> Result<u32, NoMemory>
    requires fits { first + nodes.node_count stmt.now < 2 ^ 32 }
    ensures laid { IfOk result (λ m. IsLaid stmt.now first to m edges.old edges.new) }
{
    match stmt {
        RStmt::Empty => Ok(to.next),
        RStmt::Break => Ok(to.out_of_loop),
        RStmt::Continue => Ok(to.again),
        RStmt::Declare(_, _)
        | RStmt::Set(_, _)
        | RStmt::Call(_, _, _)
        | RStmt::Input(_)
        | RStmt::Put(_)
        | RStmt::Print(_, _)
        | RStmt::Checkpoint
        | RStmt::Exclude(_) => {
            push(edges, to.next)?;
            Ok(first)
        }
        RStmt::Return(_) | RStmt::ReturnCall(_, _) | RStmt::ReturnInput => {
            push(edges, to.end)?;
            Ok(first)
        }
        RStmt::Block(stmts) => lay_all(stmts.as_slice(), first + node_count(stmt), to, edges),
        RStmt::If(arms, last) => {
            let behind = first + node_count(stmt);
            match last {
                None => lay_arms(arms.as_slice(), behind, to.next, to, edges),
                Some(s) => {
                    let m = behind - node_count(s.get());
                    let entry = lay(s.get(), m, to, edges)?;
                    let start = lay_arms(arms.as_slice(), m, entry, to, edges)?;
                    Ok(start)
                }
            }
        }
        RStmt::While(_, s) => {
            let body = lay(s.get(), first + 1, loop_targets(first, to), edges)?;
            push_test(edges, body, to.next)?;
            Ok(first)
        }
        RStmt::Do(s, _) => {
            let test = first + node_count(s.get());
            let place = edges.len();
            edges.push((None, None))?;
            let body = lay(s.get(), first, loop_targets(test, to), edges)?;
            edges.set(place, (Some(body), Some(to.next)));
            Ok(body)
        }
        RStmt::For(init, _, update, s) => {
            let test = first + init_count(init);
            let again = test + assign_count(update);
            let body = lay(s.get(), again + 1, loop_targets(again, to), edges)?;
            push_some(edges, assign_count(update), test)?;
            push_test(edges, body, to.next)?;
            push_some(edges, init_count(init), test)?;
            Ok(first)
        }
    }
}

/// The edges of a body: those of its nodes, and the end node's, which has none.
pub(crate) fn body_edges(alloc: Global, body: &RStmt) -> Result<EdgeList, NoMemory>
    requires fits { nodes.node_count body.now + 1 < 2 ^ 32 }
    ensures answer { IfOk result (λ e. e ≡ spec.edges_of_body body.now) }
{
    let end = node_count(body);
    let to = Targets {
        next: end,
        out_of_loop: end,
        again: end,
        end,
    };
    let mut laid = Items::new(alloc);
    laid.push((None, None))?;
    let entry = lay(body, 0, to, &mut laid)?;
    let next = turned(alloc, laid)?;
    Ok(EdgeList { entry, next })
}

/// The list from the last to the first.
fn turned(alloc: Global, mut edges: Items<Edge>) -> Result<Items<Edge>, NoMemory>
    ensures answer { IfOk result (λ es. es ≡ reverse edges) }
{
    let mut out = Items::new(alloc);
    'edges: while let Some(edge) = edges.pop() {
        out.push(edge)?;
    }
    Ok(out)
}

/// The edges between the nodes of function `f`, or of `main` for None; `f` is below the functions.
pub fn edges(alloc: Global, program: &Checked, f: Option<u32>) -> Result<EdgeList, NoMemory>
    requires found { IfSome f (λ i. i < length program.now.functions) }
    ensures answer { IfOk result (λ e. IfSome (spec.body_of program.now f) (λ body. e ≡ spec.edges_of_body body)) }
{
    let tree = program.tree();
    match f {
        None => body_edges(alloc, &tree.main.body),
        Some(f) => body_edges(alloc, &tree.functions.as_slice()[f as usize].body),
    }
}
