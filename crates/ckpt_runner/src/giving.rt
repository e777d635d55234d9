//! How a life gives input, and executes a directive.
ghost use Rattle.std.specs.Prelude.{◌≡◌, ◌<◌, ◌≤◌, ℕ, true, List, [], ◌∷◌, ◌++◌, drop, Some, slice_get};
ghost use Rattle.ckpt_base.specs.Event as run;
ghost use Rattle.ckpt_base.specs.Word.{word_of};
ghost use Rattle.machine_code.specs.declared.instr.Instr.{Instr};
ghost use Rattle.paged_machine.specs.Rest.{rest};
ghost use Rattle.run_images.specs.Origin.{Origin};
ghost use Rattle.ckpt_runner.specs.Lives.{HasServed, Lives};
ghost use Rattle.ckpt_runner.specs.Serving.{next_taken};

use crate::life::Life;

impl<'a> Life<'a> {
    // Gives the machine the next input byte, or -1 at the end.
    pub(crate) fn give_input(&mut self)
        requires live { self.old.machine.live ≡ true }
        requires asked { slice_get self.old.compiled.code.instrs self.old.machine.state.place ≡ Some Instr.In }
        ensures same { self.new ≡ record self.old { machine = record self.old.machine { state = self.new.machine.state }; progress = self.new.progress } }
        ensures ticks { self.new.machine.state.ticks ≡ self.old.machine.state.ticks }
        ensures lives { (o : Origin) (es : List run.Event) → Lives o es self.old
            → Lives o (es ++ next_taken (drop self.old.progress.input_place self.old.input)) self.new }
        ensures shrinks { (until : ℕ) → rest self.old.compiled.code until self.new.machine.state < rest self.old.compiled.code until self.old.machine.state }
    {
        let Some(byte) = self.input.get(self.progress.input_place as usize) else {
            self.memory.machine.give(self.compiled.code(), -1);
            return;
        };
        let value = value_of(*byte);
        self.progress.input_place += 1;
        self.memory.machine.give(self.compiled.code(), value);
    }

    // Executes a directive, from which on the next images leave out its cells.
    pub(crate) fn exclude(&mut self, directive: u16)
        requires there { directive ≤ self.old.compiled.directives }
        ensures same { self.new ≡ record self.old { progress = self.new.progress } }
        ensures lives { (o : Origin) (es : List run.Event) → HasServed o es (run.Excluded directive ∷ []) self.old
            → Lives o (es ++ run.Excluded directive ∷ []) self.new }
    {
        self.progress.exclude(directive);
    }
}

// The value of an input byte.
fn value_of(byte: u8) -> i64
    ensures answer { word_of result ≡ byte }
    ensures small { word_of result < 256 }
{
    byte as i64
}
