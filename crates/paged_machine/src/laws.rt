// Laws of the definitions: functions that do nothing, whose contracts are theorems.

ghost use Rattle.std.specs.Prelude.{◌≡◌, ◌<◌, ◌≤◌, ◌+◌, ◌/◌, ◌∷◌, [], ℕ, ℤ, List, Option, Some, None, false, slice_get};
ghost use Rattle.ckpt_base.specs.declared.ending.Ending.{Ending};
ghost use Rattle.ckpt_base.specs.Event as run;
ghost use Rattle.dirty_pages.specs.Pages.{PageStates, is_protected};
ghost use Rattle.machine_code.specs.declared.instr.Instr.{Instr};
ghost use Rattle.machine_code.specs.declared.event.Event.{Event};
ghost use Rattle.machine_code.specs.CodeView.{CodeView};
ghost use Rattle.machine_code.specs.State.{State};
ghost use Rattle.machine_code.specs.Run.{World, Reaches, CodeRun, run_at, unprotected, next_row};
ghost use Rattle.paged_machine.specs.RunOn.{Answers, GoesOn};

/// A run of the code stops where the machine answers that it ended or trapped, and where it stands before a tick that is one too many.
pub fn answers_stop_runs()
    ensures ended { (c : CodeView) (pages : PageStates) (w v : World) (n : ℕ) (x : ℤ) → Reaches c w v → v.state.ticks ≤ w.state.ticks + n → Answers c pages v.state v.memory (Some (Event.Ended x)) → CodeRun c w n (run_at v (Ending.Ended x)) }
    ensures trapped { (c : CodeView) (pages : PageStates) (w v : World) (n t : ℕ) → Reaches c w v → v.state.ticks ≤ w.state.ticks + n → Answers c pages v.state v.memory (Some (Event.Trapped t)) → CodeRun c w n (run_at v (Ending.Trapped t)) }
    ensures going { (c : CodeView) (w v : World) (n : ℕ) → Reaches c w v → v.state.ticks ≡ w.state.ticks + n → slice_get c.instrs v.state.place ≡ Some Instr.Tick → CodeRun c w n (run_at v Ending.Going) }
{}

/// Where the next instruction writes a cell, and its page is not protected any more, a run that goes on does it, and its store comes first.
pub fn served_stores_come_first()
    ensures done { (c : CodeView) (pages : PageStates) (s t : State) (m n : List ℕ) (answer : Option Event) (cell : ℕ) → (next_row c unprotected s m).shown ≡ run.Wrote cell ∷ [] → is_protected pages (cell / 512) ≡ false
        → (g : GoesOn c (is_protected pages) s m answer t n) → Answers c pages t n answer → (answer ≡ None → slice_get c.instrs t.place ≡ Some Instr.Tick) → 0 < g.count }
    ensures first { (c : CodeView) (pages : PageStates) (s t : State) (m n : List ℕ) (answer : Option Event) (cell : ℕ) → (next_row c unprotected s m).shown ≡ run.Wrote cell ∷ []
        → (g : GoesOn c (is_protected pages) s m answer t n) → 0 < g.count → (more : List run.Event) × (g.stores ≡ run.Wrote cell ∷ more) }
{}
