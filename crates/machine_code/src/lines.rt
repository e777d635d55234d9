// The listing of a code.

ghost use Rattle.std.specs.Prelude.{◌≡◌, ◌++◌, string_bytes, IfOk, OnOk};
ghost use Rattle.machine_code.specs.Listing.{line, listing};

use crate::code::Code;
use crate::instr::Instr;
use ckpt_base::{NoMemory, Text};
use std::alloc::{AllocError, Global};
use std::fmt::Write;

/// A line for each instruction from place 0 on: the place, the name and, after a blank, the operand.
pub fn listing(alloc: Global, code: &Code) -> Result<Text, NoMemory>
    ensures answer { IfOk result (λ t. t ≡ listing code.now.instrs) }
{
    let mut text = String::new(alloc);
    for p in 0..code.instrs.len() {
        write_line(&mut text, p, code.fetch(p))?;
    }
    Text::of(alloc, text.as_str())
}

/// Writes the line of one instruction.
fn write_line(text: &mut String, p: usize, i: Instr) -> Result<(), AllocError>
    ensures { OnOk result (string_bytes text.new ≡ string_bytes text.old ++ line p i) }
{
    writeln!(text, "{p} {i}")
}
