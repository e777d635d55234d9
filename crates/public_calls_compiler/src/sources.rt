//! The sources of small programs, and what the compiler makes of a source.

ghost use Rattle.std.specs.Prelude.{◌≡◌, IfOk};
ghost use Rattle.path_laws.specs.Graph.{IsWhole};
ghost use Rattle.flow_graph.specs.Made.{graphs_in, effects_in};
ghost use Rattle.flow_graph.specs.Run as spec;

use access_summary::find_summaries;
use alias_sets::find_points;
use c_reader::read;
use c_tree::{Checked, Program};
use c_types::check;
use ckpt_base::NoMemory;
use flow_graph::{Graphs, graph};
use sqlite_items::Boxed;
use std::alloc::Global;
use std::test::Fail;

/// The squares of 0 to 3, with a checkpoint after each. The cells are `a[0]` to `a[3]`, `t` and `i`.
pub const SQUARES: &str =
    "long a[4]; long t; int main(void){ long i; EXCLUDE_HERE; for(i=0;i<4;i=i+1){ t=i*i; a[i]=t; CHECKPOINT_HERE; } printf(\"%ld\\n\",a[3]); return 7; }";

/// A sum over an array, with a checkpoint after each number. The cells are `n[0]` to `n[2]`, `x` and `i`.
pub const SUMS: &str =
    "long n[3]; long x; int main(void){ long i; n[0]=5; n[1]=6; n[2]=7; x=0; i=0; EXCLUDE_HERE; while(i<3){ x=x+n[i]; i=i+1; CHECKPOINT_HERE; } printf(\"%ld\\n\",x); return 0; }";

/// An exclude and two checkpoints in each turn. The cells are `n`, `x` and `i`.
pub const TURNS: &str =
    "long n; long x; int main(void){ long i; n=4; for(i=0;i<2;i=i+1){ n=n+1; EXCLUDE_HERE; x=x+n; CHECKPOINT_HERE; x=x+n; CHECKPOINT_HERE; } printf(\"%ld\\n\",x); return 0; }";

/// A write through a pointer that may name `x` or `y`. The cells are `x`, `y`, `p` and `c`.
pub const TWO_TARGETS: &str =
    "long x; long y; long *p; int main(void){ long c; c=getchar(); if(c==65) p=&x; else p=&y; x=1; EXCLUDE_HERE; CHECKPOINT_HERE; *p=5; printf(\"%ld\\n\",x); return 0; }";

/// A write through a pointer that names `x`. The cells are `x`, `y` and `p`.
pub const ONE_TARGET: &str =
    "long x; long y; long *p; int main(void){ p=&x; x=1; EXCLUDE_HERE; CHECKPOINT_HERE; *p=5; printf(\"%ld\\n\",x); return 0; }";

/// The program that a source spells.
pub fn program_of(alloc: Global, source: &str) -> Result<Boxed<Checked>, Fail> {
    let program = read(alloc, source.as_bytes())?;
    checked(alloc, program)
}

fn checked(alloc: Global, program: Program) -> Result<Boxed<Checked>, Fail> {
    let checked = check(alloc, program)?;
    Ok(Boxed::new(alloc, checked)?)
}

/// The graphs of a program.
pub fn graphs_of(alloc: Global, program: &Checked) -> Result<Graphs, NoMemory>
    ensures graphs { IfOk result (λ g. graphs_in g ≡ spec.graphs_of program.now) }
    ensures whole { IfOk result (λ g. IsWhole (effects_in g)) }
{
    let points = find_points(alloc, program)?;
    let summaries = find_summaries(alloc, program, &points)?;
    graph(alloc, program, &points, &summaries)
}
