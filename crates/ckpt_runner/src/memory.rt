//! The machine and what it runs over.
ghost use Rattle.std.specs.Prelude.{◌≡◌, ◌+◌, ◌≤◌, ℕ, Bool, List, length, true, Some, None, max, slice_get};
ghost use Rattle.machine_code.specs.declared.event.Event.{Event};
ghost use Rattle.machine_code.specs.declared.instr.Instr.{Instr};
ghost use Rattle.paged_machine.specs.Fitting.{FitTogether};
ghost use Rattle.paged_machine.specs.Rest.{Shrinks};
ghost use Rattle.paged_machine.specs.RunOn.{Answers, live_behind};
ghost use Rattle.paged_machine.specs.Standing.{StandsIn};
ghost use Rattle.ckpt_runner.specs.RunsOver.{RunsOver};
ghost use Rattle.ckpt_runner.specs.Snapshot.{IsSnapped, IsApart};

use crate::copies::serve_fault;
use dirty_pages::Pages;
use machine_code::Code;
use page_frames::Frames;
use paged_machine::{Event, Machine, Steps};
use std::sync::ledger::Ledger;

/// The machine and what it runs over.
#[derive(Drop)]
pub(crate) struct Memory {
    pub(crate) machine: Machine,
    pub(crate) frames: Frames,
    /// The frames of pages that were written while an image of them was under way, as they were at its checkpoint.
    pub(crate) copies: Frames,
    pub(crate) pages: Pages,
}

impl Memory {
    /// Runs on to the bound, as `Machine::run_on`, and serves each write fault on the way. A page of the snapshot, which is protected, is
    /// copied aside before it is written.
    #[inline(always)]
    pub(crate) fn run<L: Ledger>(
        &mut self,
        code: &Code,
        until: u64,
        steps: &mut Steps<L>,
    ) -> Option<Event>
        requires live { self.old.machine.live ≡ true }
        requires stands { StandsIn code.now self.old.machine }
        requires fit { FitTogether code.now self.old.frames self.old.pages }
        requires copies { length self.old.copies ≡ length self.old.frames }
        requires marks { length self.old.pages.in_snapshot ≡ length self.old.pages.dirty }
        requires apart { IsApart self.old.pages }
        ensures served { (p : ℕ) → result ≡ Some (Event.WriteFault p) → ⊥ }
        ensures live { self.new.machine.live ≡ live_behind result }
        ensures stands { StandsIn code.now self.new.machine }
        ensures fit { FitTogether code.now self.new.frames self.new.pages }
        ensures steps { steps.new + self.old.machine.state.ticks ≡ steps.old + self.new.machine.state.ticks }
        ensures within { self.new.machine.state.ticks ≤ max self.old.machine.state.ticks until }
        ensures stopped { result ≡ None → (slice_get code.now.instrs self.new.machine.state.place ≡ Some Instr.Tick) × (until ≤ self.new.machine.state.ticks) }
        ensures goes { RunsOver code.now self.old.machine.state self.old.frames self.old.pages result self.new.machine.state self.new.frames self.new.pages }
        ensures copies { length self.new.copies ≡ length self.new.frames }
        ensures size { length self.new.frames ≡ length self.old.frames }
        ensures apart { IsApart self.new.pages }
        ensures snapped { (takes : ℕ → Bool) (memory : List ℕ) → IsSnapped takes memory self.old.pages self.old.frames self.old.copies
            → IsSnapped takes memory self.new.pages self.new.frames self.new.copies }
        ensures answer { Answers code.now self.new.pages self.new.machine.state self.new.frames result }
        ensures shrinks { Shrinks code.now until self.old.machine.state result self.new.machine.state }
    {
        'faults: loop {
            let answer = self
                .machine
                .run_on(code, &mut self.frames, &self.pages, until, steps);
            match faulted(answer) {
                None => return answer,
                Some(page) => serve_fault(&self.frames, &mut self.copies, &mut self.pages, page),
            }
        }
    }
}

// The page whose write fault this answer is.
#[inline(always)]
fn faulted(answer: Option<Event>) -> Option<u32>
    ensures page { (p : ℕ) → result ≡ Some p → answer ≡ Some (Event.WriteFault p) }
    ensures fault { (p : ℕ) → answer ≡ Some (Event.WriteFault p) → result ≡ Some p }
{
    match answer {
        Some(Event::WriteFault(page)) => Some(page),
        _ => None,
    }
}
