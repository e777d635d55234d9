// Laws of the definitions: functions that do nothing, whose contracts are theorems.

ghost use Rattle.std.specs.Prelude.{◌≡◌, ◌≤◌, ℕ, true, List, [], ◌∷◌, ◌++◌, length, Option};
ghost use Rattle.ckpt_base.specs.Event as run;
ghost use Rattle.dirty_pages.specs.Pages.{PageStates};
ghost use Rattle.disk_model.specs.View.{View};
ghost use Rattle.image_format.specs.Image.{Image};
ghost use Rattle.life_journal.specs.Holding.{HoldsJournal};
ghost use Rattle.life_journal.specs.Joining.{StayOrJoin};
ghost use Rattle.machine_code.specs.declared.event.Event.{Event};
ghost use Rattle.machine_code.specs.Memory.{FitsMemory};
ghost use Rattle.machine_code.specs.State.{State};
ghost use Rattle.paged_machine.specs.RunOn.{told_by};
ghost use Rattle.run_images.specs.Compiled.{cells_in};
ghost use Rattle.run_images.specs.Images.{taken_at};
ghost use Rattle.run_images.specs.JoinedList.{IsOf};
ghost use Rattle.run_images.specs.Origin.{Origin};
ghost use Rattle.run_images.specs.Since.{is_due};
ghost use Rattle.ckpt_runner.specs.LifeView.{LifeView, Idle};
ghost use Rattle.ckpt_runner.specs.Lives.{HasServed, Lives, since_now};
ghost use Rattle.ckpt_runner.specs.Keeps.{Kept, NoneSnapped};
ghost use Rattle.ckpt_runner.specs.RunsOver.{RunsOver};

use disk_model::Disk;

/// A life goes on with its machine: behind a run of instructions it has served the stores, and not yet what the answer shows; and it lives on where the answer shows nothing.
pub fn lives_go_on()
    ensures law { (o : Origin) (es : List run.Event) (old : LifeView) (t : State) (n : List ℕ) (pages : PageStates) (answer : Option Event) → FitsMemory old.compiled.code (cells_in old.compiled) → cells_in old.compiled ≤ length old.frames → Lives o es old
        → (r : RunsOver old.compiled.code old.machine.state old.frames old.pages answer t n pages) → HasServed o (es ++ r.stores) (told_by t.ticks answer) (record old { machine = record old.machine { state = t }; frames = n; pages = pages }) }
{}

/// Behind a checkpoint that is due a life that was at rest keeps one image more, where its record was written behind the records, which may have been joined before.
pub fn images_are_kept<D: Disk>(before: &D, after: &D)
    ensures law { (o : Origin) (es : List run.Event) (node tick : ℕ) (old new : LifeView) (r : Image) → is_due o.taking.every (since_now o es) tick ≡ true → IsOf r (taken_at o.taking node tick (since_now o es)) → old.writer ≡ Idle → new.writer ≡ Idle → NoneSnapped new.pages
        → ((rs : List Image) (w : List ℕ) → HoldsJournal old.journal (D.view before.now) rs w → (qs : List Image) × StayOrJoin rs qs × HoldsJournal new.journal (D.view after.now) (qs ++ r ∷ []) w)
        → Kept o es old (D.view before.now) → Kept o (es ++ run.Checkpoint node tick ∷ []) new (D.view after.now) }
{}
