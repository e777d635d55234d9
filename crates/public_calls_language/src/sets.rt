//! Sets of cells, rows of bits, effect graphs, and what their walks come to.

use cell_sets::{BitRow, CellSet, Run, RunList};
use path_laws::{EffectGraph, Mark, reaching};
use std::test::Fail;

#[test]
fn a_set_is_its_rising_runs(rt: HostRuntime) -> Result<(), Fail> {
    let mut set = CellSet::range(rt.alloc(), 10, 1, 2)?;
    set.union_with(&CellSet::range(rt.alloc(), 10, 3, 4)?)?;
    let six = [Run { first: 1, count: 6 }];
    assert_eq!(rt; set.runs()?.as_slice(), six.as_slice());
    set.minus(&CellSet::range(rt.alloc(), 10, 2, 2)?)?;
    let two = [Run { first: 1, count: 1 }, Run { first: 4, count: 3 }];
    assert_eq!(rt; set.runs()?.as_slice(), two.as_slice());
    assert_eq!(rt; set.copy()?.runs()?.as_slice(), two.as_slice());
    assert!(rt; CellSet::empty(rt.alloc(), 10)?.is_empty());
    Ok(())
}

#[test]
fn a_row_and_its_set_have_the_same_cells(rt: HostRuntime) -> Result<(), Fail> {
    let mut row = BitRow::new(rt.alloc(), 130)?;
    row.set(129);
    row.set_range(62, 4);
    let runs = [
        Run {
            first: 62,
            count: 4,
        },
        Run {
            first: 129,
            count: 1,
        },
    ];
    let set = CellSet::of_row(rt.alloc(), &row)?;
    assert_eq!(rt; set.runs()?.as_slice(), runs.as_slice());
    let back = BitRow::of_set(rt.alloc(), &set)?;
    assert!(rt; !row.copy()?.or_from(&back));
    Ok(())
}

#[test]
fn a_list_of_runs_keeps_what_is_pushed(rt: HostRuntime) -> Result<(), Fail> {
    let mut list = RunList::new(rt.alloc())?;
    let run = Run { first: 7, count: 2 };
    list.push(run);
    assert_eq!(rt; list.as_slice(), [run].as_slice());
    Ok(())
}

#[test]
fn a_graph_has_its_nodes_and_edges(rt: HostRuntime) -> Result<(), Fail> {
    let alloc = rt.alloc();
    let mut graph = EffectGraph::start(alloc, 4, 0)?;
    let reads = CellSet::range(alloc, 4, 1, 2)?;
    let n = graph.add(
        (Some(0), Some(2)),
        Mark::Plain,
        reads,
        CellSet::empty(alloc, 4)?,
        CellSet::empty(alloc, 4)?,
    )?;
    assert_eq!(rt; n, 0);
    assert_eq!(rt; graph.nodes(), 1);
    assert!(rt; graph.reads(0).holds(2));
    assert!(rt; graph.is_walk(&[0, 0]));
    assert!(rt; !graph.is_walk(&[0, 1]));
    assert!(rt; !graph.is_whole());
    assert_eq!(rt; graph.edges()?.as_slice(), [(0, 0), (0, 2)].as_slice());
    Ok(())
}

#[test]
fn a_walk_comes_to_the_goal_it_begins_at(rt: HostRuntime) -> Result<(), Fail> {
    let alloc = rt.alloc();
    let mut goal = BitRow::new(alloc, 3)?;
    goal.set(1);
    let goals = [goal];
    let stops = [BitRow::new(alloc, 3)?];
    let rows = reaching(alloc, &[], &goals, &stops, 3)?;
    assert_eq!(rt; rows.len(), 1);
    assert!(rt; rows[0].get(1));
    assert!(rt; !rows[0].get(0));
    Ok(())
}
