//! The search for the least walk.
ghost use Rattle.std.specs.Prelude.{◌≡◌, ◌+◌, ◌<◌, ℕ, [], ◌∷◌, ◌++◌, ◌||◌, true, length, reverse, IfOk, OnOk};
ghost use Rattle.path_laws.specs.Edge.{is_at};
ghost use Rattle.path_laws.specs.Graph.{IsWhole, has_edge};
ghost use Rattle.exclusion_reason.specs.Least.{IsLeastIfAny};
ghost use Rattle.exclusion_reason.specs.Ways.{IsWay};
ghost use Rattle.exclusion_reason.specs.Seen.{unseen};
ghost use Rattle.exclusion_reason.specs.Visits.{trail_of, state_at, AreLinked, Keeps, GoesOn, IsNextSearch};

use crate::aim::{Aim, State};
use crate::seen::{Met, is_seen, note};
use crate::walk::Walk;
use ckpt_base::NoMemory;
use path_laws::EffectGraph;
use std::alloc::{AllocError, Global};

// A state that the search has come to, and the visit that it came from.
#[derive(Clone, Copy)]
pub(crate) struct Visit {
    state: State,
    from: usize,
}

fn push(visits: &mut Vec<Visit>, visit: Visit) -> Result<(), AllocError>
    ensures answer { OnOk result (visits.new.items ≡ visits.old.items ++ visit ∷ []) }
{
    visits.push(visit)?;
    Ok(())
}

// Goes on from a visit to node `m`, unless the search has come to that state before.
fn go_to(
    graph: &EffectGraph,
    aim: Aim,
    visits: &mut Vec<Visit>,
    seen: &mut Vec<Met>,
    head: usize,
    m: u32,
) -> Result<(), AllocError>
    requires whole { IsWhole graph.now }
    requires head { head < length visits.old.items }
    requires each { length seen.old.items ≡ length graph.now.nodes }
    requires edge { has_edge graph.now (state_at visits.old.items head).node m ≡ true }
    ensures each { OnOk result (length seen.new.items ≡ length seen.old.items) }
    ensures kept { OnOk result (Keeps visits.old.items visits.new.items) }
    ensures counted { OnOk result (length visits.new.items + unseen seen.new.items ≡ length visits.old.items + unseen seen.old.items) }
    ensures goes { OnOk result (GoesOn graph.now aim head (Some m) visits.old.items seen.old.items visits.new.items seen.new.items) }
{
    let to = aim.after(graph, visits[head].state, m);
    if is_seen(seen, to) {
        return Ok(());
    }
    note(seen, to);
    push(
        visits,
        Visit {
            state: to,
            from: head,
        },
    )?;
    Ok(())
}

// Goes on from a visit along an edge, if it is there.
fn go_along(
    graph: &EffectGraph,
    aim: Aim,
    visits: &mut Vec<Visit>,
    seen: &mut Vec<Met>,
    head: usize,
    next: Option<u32>,
) -> Result<(), AllocError>
    requires whole { IsWhole graph.now }
    requires head { head < length visits.old.items }
    requires each { length seen.old.items ≡ length graph.now.nodes }
    requires edge { (m : ℕ) → is_at next m ≡ true → has_edge graph.now (state_at visits.old.items head).node m ≡ true }
    ensures each { OnOk result (length seen.new.items ≡ length seen.old.items) }
    ensures kept { OnOk result (Keeps visits.old.items visits.new.items) }
    ensures counted { OnOk result (length visits.new.items + unseen seen.new.items ≡ length visits.old.items + unseen seen.old.items) }
    ensures goes { OnOk result (GoesOn graph.now aim head next visits.old.items seen.old.items visits.new.items seen.new.items) }
{
    match next {
        None => Ok(()),
        Some(m) => go_to(graph, aim, visits, seen, head, m),
    }
}

// The two numbers, the smaller one first, and each but once.
fn in_order(next: (Option<u32>, Option<u32>)) -> (Option<u32>, Option<u32>)
    ensures same { (m : ℕ) → (is_at result.0 m || is_at result.1 m) ≡ (is_at next.0 m || is_at next.1 m) }
    ensures rise { (n m : ℕ) → is_at result.0 n ≡ true → is_at result.1 m ≡ true → n < m }
{
    match next {
        (Some(n), Some(m)) => {
            if n < m {
                (Some(n), Some(m))
            } else if m < n {
                (Some(m), Some(n))
            } else {
                (Some(n), None)
            }
        }
        _ => next,
    }
}

// Goes on from a visit to each node that its last one has an edge to.
fn go_on(
    graph: &EffectGraph,
    aim: Aim,
    visits: &mut Vec<Visit>,
    seen: &mut Vec<Met>,
    head: usize,
) -> Result<(), AllocError>
    requires whole { IsWhole graph.now }
    requires head { head < length visits.old.items }
    requires each { length seen.old.items ≡ length graph.now.nodes }
    requires from { (state_at visits.old.items head).node < length graph.now.nodes }
    ensures each { OnOk result (length seen.new.items ≡ length seen.old.items) }
    ensures counted { OnOk result (length visits.new.items + unseen seen.new.items ≡ length visits.old.items + unseen seen.old.items) }
    ensures goes { OnOk result (IsNextSearch graph.now aim head visits.old.items seen.old.items visits.new.items seen.new.items) }
{
    let (low, high) = in_order(graph.next(visits[head].state.node));
    go_along(graph, aim, visits, seen, head, low)?;
    go_along(graph, aim, visits, seen, head, high)?;
    Ok(())
}

// The walk of a visit.
fn walk_to(alloc: Global, visits: &[Visit], last: usize) -> Result<Walk, AllocError>
    requires linked { AreLinked visits.now }
    requires last { last < length visits.now }
    ensures answer { IfOk result (λ w. w ≡ reverse (trail_of visits.now last)) }
{
    let mut nodes = Vec::new(alloc);
    let mut at = last;
    'back: while at > 0 {
        nodes.push(visits[at].state.node)?;
        at = visits[at].from;
    }
    nodes.push(visits[0].state.node)?;
    nodes.reverse();
    Ok(Walk::of(nodes))
}

/// The least walk from node `first` that shows what it has to, if there is one.
pub(crate) fn least_way(
    alloc: Global,
    graph: &EffectGraph,
    aim: Aim,
    first: u32,
) -> Result<Option<Walk>, NoMemory>
    requires whole { IsWhole graph.now }
    requires first { first < length graph.now.nodes }
    ensures least { IfOk result (λ w. IsLeastIfAny (IsWay graph.now aim first) w) }
{
    let mut seen = vec![in alloc; Met::none(); graph.nodes() as usize]?;
    let mut visits = Vec::new(alloc);
    push(
        &mut visits,
        Visit {
            state: State::start(first),
            from: 0,
        },
    )?;
    let mut head = 0;
    'visits: while head < visits.len() {
        if aim.is_end(graph, visits[head].state) {
            return Ok(Some(walk_to(alloc, &visits, head)?));
        }
        go_on(graph, aim, &mut visits, &mut seen, head)?;
        head += 1;
    }
    Ok(None)
}
