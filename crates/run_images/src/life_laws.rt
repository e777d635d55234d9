// Laws of lives and their source: functions that do nothing, whose contracts are theorems.

ghost use Rattle.std.specs.Prelude.{◌≡◌, ℕ, ◌≤◌, true, List, [], ◌∷◌, ◌++◌};
ghost use Rattle.ckpt_base.specs.Event.{Event};
ghost use Rattle.ckpt_base.specs.Run.{Run};
ghost use Rattle.image_format.specs.Image.{Image};
ghost use Rattle.machine_code.specs.Run.{World, CodeRun};
ghost use Rattle.run_images.specs.Source.{Source, IsSource, run_of};
ghost use Rattle.run_images.specs.Hold.{HoldUnwritten};
ghost use Rattle.run_images.specs.Stands.{StandsFor};
ghost use Rattle.run_images.specs.Compiled.{CompiledView, IsCompiled};
ghost use Rattle.run_images.specs.Origin.{Origin, origin_world, ticks_ahead, begun_at, IsResumedAt, events_before, IsOfSource};
ghost use Rattle.run_images.specs.Shown.{HasShown, EndsAsSource, TakesImage, HasTaken};

use code_maker::{checkpoints_end_ticks, codes_keep_pointers, codes_run_alike, codes_stand_behind};
use flow_graph::{graphs_mean_their_programs, runs_spare_excluded_cells};
use machine_code::{runs_give_one_answer, runs_pass_what_they_reach, runs_show_what_they_do};

/// A life that begins is of its source: its run goes like the source's from the start.
pub fn begun_lives_are_of_their_source()
    ensures law { (s : Source) (c : CompiledView) (every : ℕ) → IsSource s → IsCompiled s c
        → s.spaced every ≡ true → IsOfSource s (begun_at c s.marks every s.input) }
{
    runs_give_one_answer();
    runs_show_what_they_do();
    runs_pass_what_they_reach();
    graphs_mean_their_programs();
    codes_run_alike();
    codes_keep_pointers();
    checkpoints_end_ticks();
    codes_stand_behind();
}

/// A life that is resumed from records that stand is of their source: its run goes like the source's from behind the checkpoint of the newest record,
/// whatever the fill.
pub fn resumed_lives_are_of_their_source()
    ensures law { (s : Source) (c : CompiledView) (every fill : ℕ) (rs : List Image) (file : List ℕ) (o : Origin) → IsSource s → IsCompiled s c
        → StandsFor s every rs file
        → IsResumedAt c s.marks every fill s.input rs file o → IsOfSource s o }
{
    runs_give_one_answer();
    runs_show_what_they_do();
    runs_pass_what_they_reach();
    graphs_mean_their_programs();
    codes_run_alike();
    codes_keep_pointers();
    checkpoints_end_ticks();
    codes_stand_behind();
}

/// Before its first instruction the records of a resumed life stand with its output, and hold its memory.
pub fn resumed_lives_hold_their_records()
    ensures stand { (s : Source) (c : CompiledView) (every fill : ℕ) (rs : List Image) (file : List ℕ) (o : Origin) → IsSource s → IsCompiled s c
        → StandsFor s every rs file
        → IsResumedAt c s.marks every fill s.input rs file o → StandsFor s o.taking.every rs o.output }
    ensures held { (s : Source) (c : CompiledView) (every fill : ℕ) (rs : List Image) (file : List ℕ) (o : Origin) → IsCompiled s c
        → StandsFor s every rs file
        → IsResumedAt c s.marks every fill s.input rs file o → HoldUnwritten s o.since rs o.memory }
{
    runs_give_one_answer();
    runs_show_what_they_do();
    runs_pass_what_they_reach();
    graphs_mean_their_programs();
    codes_run_alike();
    codes_keep_pointers();
    checkpoints_end_ticks();
    codes_stand_behind();
}

/// Where the events of a life are the source's, so are its output and its images.
pub fn lives_show_what_their_source_shows()
    ensures law { (s : Source) (o : Origin) (es : List Event) (t : ℕ) → IsOfSource s o → (run_of s t).events ≡ events_before s o ++ es → HasShown s o es t }
{}

/// A life of the source ends as the source's run, for each bound that is not below its origin.
pub fn lives_end_as_their_source()
    ensures law { (s : Source) (o : Origin) (until : ℕ) (r : Run) → IsOfSource s o → o.state.ticks ≤ until
        → CodeRun o.code (origin_world o []) (ticks_ahead o until) r → EndsAsSource s o until r }
{}

/// An image that a life of the source takes stands: the records, the new one among them, stand for the source with the bytes written so far.
pub fn images_of_lives_stand()
    ensures law { (s : Source) (o : Origin) (es : List Event) (node : ℕ) (w : World) (rs : List Image) (r : Image) → IsSource s → IsOfSource s o
        → TakesImage s o es node w rs r
        → HasTaken s o es node w (rs ++ r ∷ []) }
{
    runs_spare_excluded_cells();
}
