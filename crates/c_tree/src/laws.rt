// Laws of the meaning: functions that do nothing, whose contracts are theorems.

ghost use Rattle.std.specs.Prelude.{ℕ, List, Option};
ghost use Rattle.c_tree.specs.declared.resolved.RAssign.{RAssign};
ghost use Rattle.c_tree.specs.declared.resolved.RStmt.{RStmt};
ghost use Rattle.c_tree.specs.declared.resolved.RFunction.{RFunction};
ghost use Rattle.c_tree.specs.State.{Value};
ghost use Rattle.c_tree.specs.Meaning.{Ways, Then, piece, calls_within};
ghost use Rattle.c_tree.specs.Agreement.{Steady, Unrolls};

/// What a statement does with some ticks depends on what follows it only at as many ticks or fewer.
pub fn statements_are_steady()
    ensures law { (fs : List RFunction) (a : ℕ) (s : RStmt) (m : ℕ) → Steady ((piece (calls_within fs a) s).does m) }
{}

/// A loop is a turn before the loop, so that the bound on its turns shows nowhere.
pub fn loops_unroll()
    ensures law { (e : Value) (body : Ways → Then) (u : Option RAssign) → Steady body → Unrolls e body u }
{}
