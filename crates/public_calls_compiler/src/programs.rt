//! What is found out of a program, from its source: pointers, edges, summaries, graphs, excluded sets, codes, and what it does.

ghost use Rattle.std.specs.Prelude.{◌≡◌};
ghost use Rattle.path_laws.specs.Graph.{IsWhole};
ghost use Rattle.flow_graph.specs.Made.{effects_in};

use crate::sources::{ONE_TARGET, SQUARES, SUMS, TURNS, TWO_TARGETS, graphs_of, program_of};
use access_summary::{Edge, edges, find_summaries};
use alias_sets::{PointerVar, find_points};
use c_meaning::plain;
use c_tree::Checked;
use cell_sets::Run;
use ckpt_base::{Ending, NoMemory, Text};
use code_maker::make;
use exclusion_equations::{Classes, find_exclusions};
use flow_graph::{Graphs, NodeWork};
use machine_code::listing;
use std::alloc::Global;
use std::test::Fail;

#[test]
fn main_returns_seven_after_one_tick(rt: HostRuntime) -> Result<(), Fail> {
    let program = program_of(rt.alloc(), "int main(void){ return 7; }")?;
    let run = plain(rt.alloc(), program.get(), &[], 9)?;
    assert_eq!(rt; run.output.as_slice(), b"".as_slice());
    assert_eq!(rt; run.ending, Ending::Ended(7));
    assert_eq!(rt; run.ticks, 1);
    Ok(())
}

/// A pointer that is given two objects. The objects are `x`, `y`, `z` and `p`, with one cell each.
const ASSIGNED: &str = "long x; long y; long z; long *p; int main(void){ p=NULL; p=&z; p=&x; }";

/// A pointer that goes into a function and comes back.
const CARRIED: &str =
    "long x; long y; long *p; long *f(long *q){ return q; } int main(void){ p=f(&y); }";

#[test]
fn pointers_hold_the_objects_that_they_are_given(rt: HostRuntime) -> Result<(), Fail> {
    let alloc = rt.alloc();
    let parameter = PointerVar::Local {
        function: 0,
        index: 0,
    };
    let rows: [(&str, PointerVar, &[u32]); 5] = [
        (ASSIGNED, PointerVar::Cell(3), &[0, 2]),
        (CARRIED, PointerVar::Cell(2), &[1]),
        (CARRIED, PointerVar::Answer(0), &[1]),
        (CARRIED, parameter, &[1]),
        ("int main(void){}", PointerVar::Cell(0), &[]),
    ];
    for (source, pointer, objects) in rows {
        let program = program_of(alloc, source)?;
        let points = find_points(alloc, program.get())?;
        assert_eq!(rt;
            points.objects(alloc, pointer)?.as_slice(),
            objects,
            "in {source}"
        );
        assert_eq!(rt;
            points.holds(pointer, 1),
            objects == [1].as_slice(),
            "in {source}"
        );
    }
    Ok(())
}

#[test]
fn a_loop_goes_on_with_its_test(rt: HostRuntime) -> Result<(), Fail> {
    let alloc = rt.alloc();
    let program = program_of(alloc, "int main(void){ while(1) ; }")?;
    let edges = edges(alloc, program.get(), None)?;
    assert_eq!(rt; edges.nodes(), 2);
    assert_eq!(rt; edges.entry(), 0);
    Ok(())
}

const CALLS: &str =
    "long a; long b; long f(void){ b=a; return 0; } long g(void){ return f(); } int main(void){}";

#[test]
fn a_function_does_what_it_calls(rt: HostRuntime) -> Result<(), Fail> {
    let alloc = rt.alloc();
    let boxed = program_of(alloc, CALLS)?;
    let program = boxed.get();
    let points = find_points(alloc, program)?;
    let summaries = find_summaries(alloc, program, &points)?;
    assert_eq!(rt; program.functions(), 2);
    for f in 0..program.functions() {
        assert!(rt; summaries.reads(f).holds(0) && !summaries.reads(f).holds(1));
        assert!(rt; summaries.writes(f).holds(1) && !summaries.writes(f).holds(0));
    }
    Ok(())
}

/// `long i`, EXCLUDE_HERE, `i=0`, `i<4`, `i=i+1`, `t=i*i`, `a[i]=t`, CHECKPOINT_HERE, `printf`, `return`, the end.
const EDGES_OF_SQUARES: [Edge; 11] = [
    (Some(1), None),
    (Some(2), None),
    (Some(3), None),
    (Some(5), Some(8)),
    (Some(3), None),
    (Some(6), None),
    (Some(7), None),
    (Some(4), None),
    (Some(9), None),
    (Some(10), None),
    (None, None),
];

#[test]
fn a_graph_has_its_nodes_in_the_order_of_the_text(rt: HostRuntime) -> Result<(), Fail> {
    let alloc = rt.alloc();
    let program = program_of(alloc, SQUARES)?;
    let graphs = graphs_of(alloc, program.get())?;
    let nodes = graphs.nodes(None);
    assert_eq!(rt; nodes, 11);
    assert_eq!(rt; graphs.entry(None), 0);
    for n in 0..nodes {
        assert_eq!(rt; graphs.next(None, n), EDGES_OF_SQUARES[n as usize]);
    }
    assert!(rt; matches!(graphs.statement(None, 7), NodeWork::Checkpoint));
    assert_eq!(rt; graphs.checkpoints(), [7].as_slice());
    Ok(())
}

/// The runs of the dead and of the read-only cells of the first EXCLUDE_HERE, where there is one.
fn excluded(alloc: Global, graphs: &Graphs) -> Result<Option<(Vec<Run>, Vec<Run>)>, NoMemory>
    requires whole { IsWhole (effects_in graphs.now) }
{
    let graph = graphs.main();
    if graph.excludes() == 0 {
        return Ok(None);
    }
    let sets = find_exclusions(alloc, graph)?;
    let dead = sets.dead(1).runs()?;
    let read_only = sets.read_only(1).runs()?;
    Ok(Some((dead, read_only)))
}

#[test]
fn images_may_leave_out_the_dead_and_the_read_only_cells(rt: HostRuntime) -> Result<(), Fail> {
    let alloc = rt.alloc();
    let rows: [(&str, &[Run], &[Run]); 5] = [
        (
            SQUARES,
            &[Run { first: 0, count: 3 }, Run { first: 4, count: 1 }],
            &[],
        ),
        (SUMS, &[], &[Run { first: 0, count: 3 }]),
        (
            TURNS,
            &[],
            &[Run { first: 0, count: 1 }, Run { first: 2, count: 1 }],
        ),
        (
            TWO_TARGETS,
            &[Run { first: 1, count: 1 }, Run { first: 3, count: 1 }],
            &[Run { first: 0, count: 1 }, Run { first: 2, count: 1 }],
        ),
        (
            ONE_TARGET,
            &[Run { first: 0, count: 2 }],
            &[Run { first: 2, count: 1 }],
        ),
    ];
    for (source, dead, read_only) in rows {
        let program = program_of(alloc, source)?;
        let graphs = graphs_of(alloc, program.get())?;
        match excluded(alloc, &graphs)? {
            Some((found, kept)) => {
                assert_eq!(rt; found.as_slice(), dead, "dead in {source}");
                assert_eq!(rt; kept.as_slice(), read_only, "read-only in {source}");
            }
            None => assert!(rt; false, "no EXCLUDE_HERE in {source}"),
        }
    }
    Ok(())
}

#[test]
fn cells_that_all_nodes_treat_alike_are_one_class(rt: HostRuntime) -> Result<(), Fail> {
    let program = program_of(rt.alloc(), SQUARES)?;
    let graphs = graphs_of(rt.alloc(), program.get())?;
    let classes = Classes::of(rt.alloc(), graphs.main())?;
    assert_eq!(rt; classes.count(), 4);
    Ok(())
}

/// The listing of a program's code.
fn listing_of(alloc: Global, program: &Checked) -> Result<Text, NoMemory> {
    let graphs = graphs_of(alloc, program)?;
    let code = make(alloc, &graphs, program)?;
    listing(alloc, &code)
}

const RETURN: (&str, &str) = (
    "int main(void){ return 7; }",
    "0 TICK\n1 NUM 7\n2 RET\n3 NUM 0\n4 RET\n",
);

const LOOP: (&str, &str) = (
    "long i; int main(void){ while(i<3){ i=i+1; } return i; }",
    "0 TICK\n1 LOADC 0\n2 NUM 3\n3 LT\n4 JUMPZ 11\n5 TICK\n6 LOADC 0\n7 NUM 1\n8 ADD\n9 STOREC 0\n10 JUMP 0\n11 TICK\n12 LOADC 0\n13 RET\n14 NUM 0\n15 RET\n",
);

#[test]
fn a_code_has_a_segment_for_each_node(rt: HostRuntime) -> Result<(), Fail> {
    for (source, text) in [RETURN, LOOP] {
        let program = program_of(rt.alloc(), source)?;
        let found = listing_of(rt.alloc(), program.get())?;
        assert_eq!(rt; found.as_bytes(), text.as_bytes(), "of {source}");
    }
    Ok(())
}
