// Laws of the lengths of codes: functions that do nothing, whose contracts are theorems.

ghost use Rattle.std.specs.Prelude.{◌≤◌, length};
ghost use Rattle.c_tree.specs.declared.resolved.Resolved.{Resolved};
ghost use Rattle.c_tree.specs.Checked.{IsChecked};
ghost use Rattle.code_maker.specs.ProgramCode.{code_of};
ghost use Rattle.code_maker.specs.Parts.{instr_limit};

/// The code of a checked program is as small as its parts: at most 16 instructions for each function, statement, declared name, expression and place, and one for each byte that a print writes itself.
pub fn codes_are_small()
    ensures law { (p : Resolved) → IsChecked p → length (code_of p).instrs ≤ instr_limit p }
{}
