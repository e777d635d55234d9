ghost use Rattle.std.specs.Prelude.{◌≡◌, ◌≤◌, IfOk};
ghost use Rattle.c_tree.specs.Layout.{cell_count};
ghost use Rattle.c_tree.specs.Meaning.{meaning};
ghost use Rattle.c_meaning.specs.Plain.{IsPlain};

use crate::evaluator::Evaluator;
use c_tree::{Checked, Resolved};
use ckpt_base::{Bytes, Ending, NoMemory};
use std::alloc::Global;

/// What a run shows.
#[derive(Drop)]
pub struct PlainRun {
    /// The bytes that were written.
    pub output: Bytes,
    /// How the run stands at the bound.
    pub ending: Ending,
    /// How many ticks were taken.
    pub ticks: u64,
}

/// Runs a program on an input, with at most `until` ticks. The one refusal is that no memory is found.
pub fn plain(
    alloc: Global,
    program: &Checked,
    input: &[u8],
    until: u64,
) -> Result<PlainRun, NoMemory>
    ensures answer { IfOk result (λ r. IsPlain r.output.list r.ending r.ticks (meaning program.now input.now until)) }
{
    run_tree(alloc, program.tree(), input, until)
}

/// Runs a tree on an input, with at most `until` ticks.
pub(crate) fn run_tree(
    alloc: Global,
    tree: &Resolved,
    input: &[u8],
    until: u64,
) -> Result<PlainRun, NoMemory>
    requires cells { cell_count tree.now ≤ 262144 }
    ensures answer { IfOk result (λ r. IsPlain r.output.list r.ending r.ticks (meaning tree.now input.now until)) }
{
    let mut evaluator = Evaluator::start(alloc, tree, input)?;
    let ending = evaluator.run(until)?;
    let mut output = Bytes::with_room(alloc, evaluator.output().len())?;
    output.append(evaluator.output());
    Ok(PlainRun {
        output,
        ending,
        ticks: evaluator.ticks(),
    })
}
