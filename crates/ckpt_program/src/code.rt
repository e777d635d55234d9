//! The code of a program, and its listing.

ghost use Rattle.std.specs.Prelude.{◌≡◌, IfOk};
ghost use Rattle.machine_code.specs.Valid.{IsValid};
ghost use Rattle.code_maker.specs.ProgramCode as maker;
ghost use Rattle.code_maker.specs.CodeMeaning.{MeansGraphs};
ghost use Rattle.ckpt_program.specs.Listed.{IsListing};

use crate::graphs::make_graphs;
use c_tree::Checked;
use ckpt_base::{NoMemory, Text};
use code_maker::make;
use machine_code::{Code, listing};
use std::alloc::Global;

/// The code of a program. The one refusal is that no memory is found.
pub fn code_of(alloc: Global, program: &Checked) -> Result<Code, NoMemory>
    ensures code { IfOk result (λ c. c ≡ maker.code_of program.now) }
    ensures valid { IfOk result (λ c. IsValid c) }
    ensures means { IfOk result (λ c. MeansGraphs program.now c) }
{
    let graphs = make_graphs(alloc, program)?;
    make(alloc, &graphs, program)
}

/// What `compile` prints for a program: a line for each instruction of its code.
pub fn listing_of(alloc: Global, program: &Checked) -> Result<Text, NoMemory>
    ensures answer { IfOk result (λ t. IsListing program.now t) }
{
    let code = code_of(alloc, program)?;
    listing(alloc, &code)
}
