// Laws of the definitions: functions that do nothing, whose contracts are theorems.

ghost use Rattle.std.specs.Prelude.{◌≡◌, ℕ, List};
ghost use Rattle.ckpt_base.specs.Run.{Run};
ghost use Rattle.c_tree.specs.declared.resolved.Resolved.{Resolved};
ghost use Rattle.c_tree.specs.Checked.{IsChecked};
ghost use Rattle.c_tree.specs.State.{first_state};
ghost use Rattle.c_tree.specs.Meaning.{meaning};
ghost use Rattle.machine_code.specs.Run.{CodeRun};
ghost use Rattle.code_maker.specs.ProgramCode.{code_of};
ghost use Rattle.code_maker.specs.CodeMeaning.{MeansGraphs, world_at};

/// The code of a checked program means what its graphs mean, tick for tick, from the entry and from behind each checkpoint.
pub fn codes_mean_their_graphs()
    ensures law { (p : Resolved) → IsChecked p → MeansGraphs p (code_of p) }
{}

/// The run of a checked program's code from its start is what its source means, event for event and tick for tick, for every input and bound; and the code has no other run.
pub fn codes_mean_their_programs()
    ensures runs { (p : Resolved) (input : List ℕ) (n : ℕ) → IsChecked p → CodeRun (code_of p) (world_at 0 (first_state p input)) n (meaning p input n) }
    ensures only { (p : Resolved) (input : List ℕ) (n : ℕ) (r : Run) → IsChecked p → CodeRun (code_of p) (world_at 0 (first_state p input)) n r → r ≡ meaning p input n }
{}
