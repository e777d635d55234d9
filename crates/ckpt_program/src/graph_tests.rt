//! The graphs of programs, from their texts: nodes, edges, what pointers may name, and what nodes kill.

use crate::graphs::make_graphs;
use crate::stages::accept_text;
use alias_sets::{PointerVar, find_points};
use c_tree::Checked;
use flow_graph::{Graphs, NodeWork};
use sqlite_items::Boxed;
use std::alloc::Global;
use std::process::Abort;
use std::test::Fail;

const SQUARES: &[u8] =
    b"long a[4]; long t; int main(void){ long i; EXCLUDE_HERE; for(i=0;i<4;i=i+1){ t=i*i; a[i]=t; CHECKPOINT_HERE; } printf(\"%ld\\n\",a[3]); return 7; }";

/// The pointer p is cell 2, and `*p=5` node 8.
const TWO_TARGETS: &[u8] =
    b"long x; long y; long *p; int main(void){ long c; c=getchar(); if(c==65) p=&x; else p=&y; x=1; EXCLUDE_HERE; CHECKPOINT_HERE; *p=5; printf(\"%ld\\n\",x); return 0; }";

/// The pointer p is cell 2, and `*p=5` node 4.
const ONE_TARGET: &[u8] =
    b"long x; long y; long *p; int main(void){ p=&x; x=1; EXCLUDE_HERE; CHECKPOINT_HERE; *p=5; printf(\"%ld\\n\",x); return 0; }";

fn program_of(rt: &impl Abort, alloc: Global, source: &[u8]) -> Result<Boxed<Checked>, Fail> {
    assert!(rt; source.len() <= 262_144);
    match accept_text(alloc, source) {
        Ok(program) => Ok(program),
        Err(_) => panic!(rt; "the source is not accepted"),
    }
}

/// The edges of a node of `main`.
fn next_of(graphs: &Graphs, node: u32) -> Option<(Option<u32>, Option<u32>)> {
    if node >= graphs.nodes(None) {
        return None;
    }
    Some(graphs.next(None, node))
}

/// Whether a node of `main` is a test.
fn is_test(graphs: &Graphs, node: u32) -> bool {
    node < graphs.nodes(None) && matches!(graphs.statement(None, node), NodeWork::Test { .. })
}

#[test]
fn nodes_and_edges_are_in_the_order_of_the_text(rt: HostRuntime) -> Result<(), Fail> {
    let program = program_of(&rt, rt.alloc(), SQUARES)?;
    let graphs = make_graphs(rt.alloc(), program.get())?;
    assert_eq!(rt; graphs.nodes(None), 11);
    assert_eq!(rt; graphs.entry(None), 0);
    assert_eq!(rt; next_of(&graphs, 3), Some((Some(5), Some(8))));
    assert_eq!(rt; next_of(&graphs, 7), Some((Some(4), None)));
    assert_eq!(rt; next_of(&graphs, 4), Some((Some(3), None)));
    assert_eq!(rt; next_of(&graphs, 10), Some((None, None)));
    assert!(rt; is_test(&graphs, 3));
    assert_eq!(rt; graphs.checkpoints(), [7].as_slice());
    Ok(())
}

/// Whether p may name x and y, and which of the two the node kills.
fn targets_and_kills(
    alloc: Global,
    program: &Checked,
    node: u32,
) -> Result<([bool; 2], [bool; 2]), Fail> {
    let points = find_points(alloc, program)?;
    let pointer = PointerVar::Cell(2);
    let may_name = [points.holds(pointer, 0), points.holds(pointer, 1)];
    let graphs = make_graphs(alloc, program)?;
    let main = graphs.main();
    if node >= main.nodes() {
        return Ok((may_name, [false, false]));
    }
    let kills = main.kills(node);
    Ok((may_name, [kills.holds(0), kills.holds(1)]))
}

#[test]
fn a_store_kills_the_one_cell_that_its_pointer_may_name(rt: HostRuntime) -> Result<(), Fail> {
    let a = rt.alloc();
    let two = program_of(&rt, a, TWO_TARGETS)?;
    assert_eq!(rt;
        targets_and_kills(a, two.get(), 8)?,
        ([true, true], [false, false])
    );
    let one = program_of(&rt, a, ONE_TARGET)?;
    assert_eq!(rt;
        targets_and_kills(a, one.get(), 4)?,
        ([true, false], [true, false])
    );
    Ok(())
}
