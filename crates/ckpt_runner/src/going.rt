//! How a life goes on.
ghost use Rattle.std.specs.Prelude.{◌≡◌, ◌⊎◌, ◌≤◌, ◌<◌, ◌+◌, ℕ, List, max, true, false, Some, None, IfOk, OnOk, OnErr, slice_get, slice_index};
ghost use Rattle.ckpt_base.specs.Event as run;
ghost use Rattle.ckpt_base.specs.Faults.{Rose};
ghost use Rattle.disk_model.specs.View.{Steady};
ghost use Rattle.machine_code.specs.declared.instr.Instr.{Instr};
ghost use Rattle.machine_code.specs.declared.event.Event.TheVariants as machine;
ghost use Rattle.machine_code.specs.State.{State};
ghost use Rattle.paged_machine.specs.RunOn.{Answers, live_behind, told_by};
ghost use Rattle.paged_machine.specs.Rest.{Shrinks, rest};
ghost use Rattle.run_images.specs.Origin.{Origin};
ghost use Rattle.ckpt_runner.specs.LifeView.{is_idle};
ghost use Rattle.ckpt_runner.specs.Lives.{HasServed, Lives};
ghost use Rattle.ckpt_runner.specs.RunsOver.{RunsOver};
ghost use Rattle.compiled_program.specs.CanRun.{CanRun};
ghost use Rattle.ckpt_runner.specs.SoundLife.{IsSoundLife};
ghost use Rattle.ckpt_runner.specs.Serving.{ServesOnly, TurnsOnly, TurnsTo, is_served};
ghost use Rattle.ckpt_runner.specs.Calls.{FitsDisk, FitsServing, GoesOn, GoesTo};
ghost use Rattle.ckpt_runner.specs.Standing.{KeepsImages, KeepsStanding, ServesStanding};

use crate::life::Life;
use ckpt_base::{Ending, Failed};
use disk_model::Disk;
use paged_machine::{Event, Steps};
use std::sync::ledger::Ledger;

impl<'a> Life<'a> {
    /// Runs on until the program ends, traps, or has taken `until` ticks and would take another. It takes no memory.
    ///
    /// The life is live, and `until` is its ticks or one more. `Failed` comes only where a call on the disk failed; the life is over then.
    pub fn go<D: Disk, L: Ledger>(
        &mut self,
        disk: &mut D,
        until: u64,
        steps: &mut Steps<L>,
    ) -> Result<Ending, Failed>
        requires live { (self.old.machine.live ≡ true) × (self.old.failed ≡ false) × (self.old.finished ≡ false) }
        requires until { (until ≡ self.old.machine.state.ticks) ⊎ (until ≡ self.old.machine.state.ticks + 1) }
        requires fits { FitsDisk self.old (D.view disk.old) }
        // The life goes on in its own run, up to the bound, on every store; and the disk holds what belongs there.
        ensures goes { IfOk result (λ e. (o : Origin) (es : List run.Event) → Lives o es self.old → GoesTo o es until e self.old (D.view disk.old) self.new (D.view disk.new)) }
        // A crash at any moment leaves a store that stands for each source of the life, and no image is lost.
        ensures moments { KeepsStanding self.old (D.view disk.old) (D.view disk.new) }
        ensures later { KeepsImages (D.view disk.old) (D.view disk.new) }
        ensures steps { OnOk result (steps.new + self.old.machine.state.ticks ≡ steps.old + self.new.machine.state.ticks) }
        ensures going { IfOk result (λ e. e ≡ Ending.Going → (self.new.machine.state.ticks ≡ until) × (self.new.machine.live ≡ true) × (self.new.failed ≡ false) × (self.new.finished ≡ false)) }
        ensures well { OnOk result (self.new.failed ≡ false) }
        ensures same { self.new.compiled ≡ self.old.compiled }
        ensures within { OnOk result (self.new.machine.state.ticks ≤ until) }
        ensures at_once { OnOk result (((i : ℕ) → slice_index self.old.pace i ≡ 0) → is_idle self.old.writer ≡ true → is_idle self.new.writer ≡ true) }
        ensures failed { OnErr result (Rose (D.view disk.old).faults (D.view disk.new).faults) }
        ensures counts { OnOk result ((D.view disk.new).faults ≡ (D.view disk.old).faults) }
        ensures steady { Steady (D.view disk.old) (D.view disk.new) }
    {
        'turns: loop {
            if let Some(ending) = self.turn(disk, until, steps)? {
                return Ok(ending);
            }
        }
    }

    // Lets the machine run on up to the bound, and serves what stopped it. An ending comes where the run is over.
    fn turn<D: Disk, L: Ledger>(
        &mut self,
        disk: &mut D,
        until: u64,
        steps: &mut Steps<L>,
    ) -> Result<Option<Ending>, Failed>
        requires live { (self.old.machine.live ≡ true) × (self.old.failed ≡ false) }
        requires until { self.old.machine.state.ticks ≤ until }
        requires fits { FitsDisk self.old (D.view disk.old) }
        ensures same { TurnsOnly self.old self.new }
        ensures well { OnOk result (self.new.failed ≡ false) }
        ensures goes { IfOk result (λ over. (o : Origin) (es : List run.Event)
            → Lives o es self.old → TurnsTo o es until over self.old (D.view disk.old) self.new (D.view disk.new)) }
        ensures moments { KeepsStanding self.old (D.view disk.old) (D.view disk.new) }
        ensures later { KeepsImages (D.view disk.old) (D.view disk.new) }
        ensures steps { steps.new + self.old.machine.state.ticks ≡ steps.old + self.new.machine.state.ticks }
        ensures within { self.new.machine.state.ticks ≤ until }
        ensures going { IfOk result (λ over. over ≡ Some Ending.Going → (self.new.machine.state.ticks ≡ until) × (self.new.machine.live ≡ true)) }
        ensures on { IfOk result (λ over. over ≡ None → (self.new.machine.live ≡ true)
            × (rest self.old.compiled.code until self.new.machine.state < rest self.old.compiled.code until self.old.machine.state)) }
        ensures failed { OnErr result (Rose (D.view disk.old).faults (D.view disk.new).faults) }
        ensures counts { OnOk result ((D.view disk.new).faults ≡ (D.view disk.old).faults) }
        ensures steady { Steady (D.view disk.old) (D.view disk.new) }
    {
        self.keeps_sound();
        let Some(event) = self.run(until, steps) else {
            return Ok(Some(Ending::Going));
        };
        match event {
            Event::Ended(value) => Ok(Some(Ending::Ended(value))),
            Event::Trapped(trap) => Ok(Some(Ending::Trapped(trap))),
            _ => {
                self.serve(disk, event)?;
                Ok(None)
            }
        }
    }

    // Lets the machine run on, up to the bound.
    #[inline(always)]
    fn run<L: Ledger>(&mut self, until: u64, steps: &mut Steps<L>) -> Option<Event>
        requires live { self.old.machine.live ≡ true }
        ensures same { self.new ≡ record self.old { machine = self.new.machine; frames = self.new.frames; copies = self.new.copies; pages = self.new.pages } }
        ensures served { (p : ℕ) → result ≡ Some (machine.WriteFault p) → ⊥ }
        ensures live { self.new.machine.live ≡ live_behind result }
        ensures steps { steps.new + self.old.machine.state.ticks ≡ steps.old + self.new.machine.state.ticks }
        ensures within { self.new.machine.state.ticks ≤ max self.old.machine.state.ticks until }
        ensures stopped { result ≡ None → (slice_get self.old.compiled.code.instrs self.new.machine.state.place ≡ Some Instr.Tick) × (until ≤ self.new.machine.state.ticks) }
        ensures goes { RunsOver self.old.compiled.code self.old.machine.state self.old.frames self.old.pages result self.new.machine.state self.new.frames self.new.pages }
        ensures answer { Answers self.old.compiled.code self.new.pages self.new.machine.state self.new.frames result }
        ensures shrinks { Shrinks self.old.compiled.code until self.old.machine.state result self.new.machine.state }
    {
        self.memory.run(self.compiled.code(), until, steps)
    }

    // What a life keeps of itself holds between two calls.
    #[inline(always)]
    fn keeps_sound(&self)
        ensures sound { IsSoundLife self.now }
    {
        let _compiled = &self.compiled;
    }

    // Does what an instruction asks for.
    fn serve<D: Disk>(&mut self, disk: &mut D, event: Event) -> Result<(), Failed>
        requires live { (self.old.failed ≡ false) × (self.old.machine.live ≡ true) }
        requires runs { CanRun self.old.compiled }
        requires asks { is_served event ≡ true }
        requires answers { Answers self.old.compiled.code self.old.pages self.old.machine.state self.old.frames (Some event) }
        requires fits { FitsServing (told_by self.old.machine.state.ticks (Some event)) self.old (D.view disk.old) }
        ensures same { ServesOnly self.old self.new }
        ensures well { OnOk result (self.new.failed ≡ false) }
        ensures ticks { self.new.machine.state.ticks ≡ self.old.machine.state.ticks }
        ensures goes { OnOk result ((o : Origin) (es : List run.Event)
            → HasServed o es (told_by self.old.machine.state.ticks (Some event)) self.old → GoesOn o es self.old (D.view disk.old) self.new (D.view disk.new)) }
        ensures moments { ServesStanding (told_by self.old.machine.state.ticks (Some event)) self.old (D.view disk.old) (D.view disk.new) }
        ensures later { KeepsImages (D.view disk.old) (D.view disk.new) }
        ensures shrinks { OnOk result ((until : ℕ) (s : State) → Shrinks self.old.compiled.code until s (Some event) self.old.machine.state
            → rest self.old.compiled.code until self.new.machine.state < rest self.old.compiled.code until s) }
        ensures failed { OnErr result (Rose (D.view disk.old).faults (D.view disk.new).faults) }
        ensures counts { OnOk result ((D.view disk.new).faults ≡ (D.view disk.old).faults) }
        ensures steady { Steady (D.view disk.old) (D.view disk.new) }
    {
        match event {
            Event::WantsInput => {
                self.give_input();
                Ok(())
            }
            Event::Out(byte) => self.write(disk, byte),
            Event::OutNumber(number) => self.write_number(disk, number),
            Event::Exclude(directive) => {
                self.exclude(directive);
                Ok(())
            }
            Event::Checkpoint(node) => self.pass(disk, node),
            Event::Ran
            | Event::Ticked
            | Event::WriteFault(_)
            | Event::Ended(_)
            | Event::Trapped(_) => Ok(()),
        }
    }
}
