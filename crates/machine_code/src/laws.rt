// Laws of the definitions: functions that do nothing, whose contracts are theorems.

ghost use Rattle.std.specs.Prelude.{ℕ, List, Bool, Some, slice_get, ◌≡◌, ◌+◌, ◌-◌, ◌≤◌, length};
ghost use Rattle.machine_code.specs.Memory.{FitsMemory};
ghost use Rattle.machine_code.specs.Shown.{Shows, longer};
ghost use Rattle.ckpt_base.specs.Run.{Run};
ghost use Rattle.machine_code.specs.declared.instr.Instr.{Instr};
ghost use Rattle.machine_code.specs.CodeView.{CodeView};
ghost use Rattle.machine_code.specs.State.{State};
ghost use Rattle.machine_code.specs.Row.{row};
ghost use Rattle.machine_code.specs.Run.{World, Reaches, CodeRun, after, after_row, fed};
ghost use Rattle.machine_code.specs.Still.{IsPlainOrFault};

/// Whatever pages are protected, an instruction does what it does with none; or it is a store into a protected page, which faults.
pub fn rows_are_plain()
    ensures law { (c : CodeView) (protected : ℕ → Bool) (s : State) (m : List ℕ) (i : Instr) → IsPlainOrFault c protected s m i }
{}

/// A run that goes on from where another stopped is one run; and a step over pages of which some are protected keeps a run.
pub fn runs_go_on()
    ensures joined { (c : CodeView) (w v u : World) → Reaches c w v → Reaches c v u → Reaches c w u }
    ensures fed { (c : CodeView) (w v : World) → slice_get c.instrs v.state.place ≡ Some Instr.In → Reaches c w v → Reaches c w (fed v v.input) }
    ensures row { (c : CodeView) (protected : ℕ → Bool) (w v : World) (i : Instr) → slice_get c.instrs v.state.place ≡ Some i → Reaches c w v → Reaches c w (after_row v (row c protected v.state v.memory i)) }
{}

/// A run of a code gives one answer.
pub fn runs_give_one_answer()
    ensures law { (c : CodeView) (w : World) (n : ℕ) (r q : Run) → CodeRun c w n r → CodeRun c w n q → r ≡ q }
{}

/// A run shows each store and each input byte that it takes: all else of its world is as it was.
pub fn runs_show_what_they_do()
    ensures law { (c : CodeView) (w v : World) → Reaches c w v → Shows w v }
{}

/// A run to a bound passes each world that it reaches within the bound: from there it gives the same answer.
pub fn runs_pass_what_they_reach()
    ensures law { (c : CodeView) (w v : World) (n : ℕ) (r : Run) → CodeRun c w n r → Reaches c w v → v.state.ticks ≤ w.state.ticks + n → CodeRun c v ((w.state.ticks + n) - v.state.ticks) r }
{}

/// Cells behind those that a code names change nothing, and stay.
pub fn runs_leave_other_cells()
    ensures law { (c : CodeView) (w : World) (more : List ℕ) (k : ℕ) → FitsMemory c (length w.memory) → after c k (longer more w) ≡ longer more (after c k w) }
{}
