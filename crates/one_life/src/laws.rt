// A law: a function that does nothing, whose contract is a theorem.

ghost use Rattle.std.specs.Prelude.{◌≡◌, ℕ, true, List};
ghost use Rattle.ckpt_base.specs.Event.{Event};
ghost use Rattle.run_images.specs.Compiled.{CompiledView, IsCompiled};
ghost use Rattle.run_images.specs.Origin.{begun_at};
ghost use Rattle.run_images.specs.Source.{Source, IsSource};
ghost use Rattle.one_life.specs.declared.living.Lived.{Lived};
ghost use Rattle.one_life.specs.Ends.{RunsTo, ComesTo};

use run_images::{begun_lives_are_of_their_source, lives_end_as_their_source};

/// A life that began at the entry of its program comes to what the program means on its input, within its bound.
pub fn begun_lives_come_to_what_is_meant()
    ensures law { (s : Source) (c : CompiledView) (every until : ℕ) (es : List Event) (l : Lived) → IsSource s → IsCompiled s c
        → s.spaced every ≡ true → RunsTo (begun_at c s.marks every s.input) es until l → ComesTo s (begun_at c s.marks every s.input) es until l }
{
    begun_lives_are_of_their_source();
    lives_end_as_their_source();
}
