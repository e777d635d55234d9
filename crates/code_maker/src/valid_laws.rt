// Laws: the machine can run the code of a checked program.

ghost use Rattle.std.specs.Prelude.{◌≡◌, ℕ, ◌≤◌, length, slice_get, Some};
ghost use Rattle.c_tree.specs.declared.resolved.Resolved.{Resolved};
ghost use Rattle.c_tree.specs.Layout.{cell_count};
ghost use Rattle.c_tree.specs.Excludes.{excludes};
ghost use Rattle.c_tree.specs.Checked.{IsChecked};
ghost use Rattle.machine_code.specs.declared.instr.Instr.TheVariants.{Excl};
ghost use Rattle.machine_code.specs.Valid.{IsValid};
ghost use Rattle.machine_code.specs.Memory.{FitsMemory};
ghost use Rattle.code_maker.specs.ProgramCode.{code_of};
ghost use Rattle.code_maker.specs.CheckpointPlaces.{CheckpointsAreThere};

/// The code of a checked program is one that the machine can run: no instruction misses an operand, a local or a place to go on at.
pub fn codes_are_valid()
    ensures law { (p : Resolved) → IsChecked p → IsValid (code_of p) }
{}

/// The cells that the code of a checked program names are among the program's.
pub fn codes_fit()
    ensures law { (p : Resolved) → IsChecked p → FitsMemory (code_of p) (cell_count p) }
{}

/// Each directive in the code of a checked program has the number of one of its EXCLUDE_HERE.
pub fn directives_are_there()
    ensures law { (p : Resolved) (q k : ℕ) → IsChecked p → slice_get (code_of p).instrs q ≡ Some (Excl k) → (1 ≤ k) × (k ≤ length (excludes p.main.body)) }
{}

/// The checkpoints in the code of a checked program are its nodes that are CHECKPOINT_HERE, below 2,048, each with one place after it.
pub fn checkpoints_are_there()
    ensures law { (p : Resolved) → IsChecked p → CheckpointsAreThere p (code_of p) }
{}
