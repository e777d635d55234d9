//! Runs of codes on the machine, with no page protected.

ghost use Rattle.std.specs.Prelude.{◌≡◌, ◌<◌, ◌≤◌, ◌*◌, ◌^◌, ◌-◌, length, true, false, slice_get, Some, None, IfOk};
ghost use Rattle.c_tree.specs.Layout.{cell_count};
ghost use Rattle.machine_code.specs.declared.instr.Instr.{Instr};
ghost use Rattle.machine_code.specs.Valid.{IsValid};
ghost use Rattle.paged_machine.specs.Standing.{StandsIn};
ghost use Rattle.paged_machine.specs.Fitting.{FitTogether};
ghost use Rattle.paged_machine.specs.MachineView.{live_after};

use c_tree::{Checked, MAX_CELLS};
use ckpt_base::{Ending, NoMemory};
use dirty_pages::Pages;
use machine_code::{Code, Event};
use page_frames::Frames;
use paged_machine::{Machine, Steps};
use sqlite_items::Items;
use std::alloc::Global;
use std::sync::ledger::{Blank, Ledger};

/// What a run wrote, how it ended, and how many ticks it took.
#[derive(Drop)]
pub struct Ran {
    pub output: Items<u8>,
    pub ending: Ending,
    pub ticks: u64,
}

/// More instructions than any run here takes.
const INSTRUCTIONS: u32 = 1_000_000;

/// Whether the machine stands at a tick that would pass the bound.
fn must_stop(machine: &Machine, code: &Code, until: u64) -> bool
    requires { StandsIn code.now machine.now }
    ensures { result ≡ false → slice_get code.now.instrs machine.now.state.place ≡ Some Instr.Tick → machine.now.state.ticks < 2 ^ 64 - 1 }
{
    if !machine.at_tick(code) {
        return false;
    }
    machine.ticks() >= until
}

/// The next input byte, or -1 at the end.
fn next_byte(input: &[u8], taken: &mut usize) -> i64 {
    match input.get(*taken) {
        None => -1,
        Some(byte) => {
            *taken = taken.saturating_add(1);
            *byte as i64
        }
    }
}

/// Does what an event asks for, and answers how the run ended where it did.
fn serve(
    alloc: Global,
    code: &Code,
    machine: &mut Machine,
    event: Event,
    input: &[u8],
    taken: &mut usize,
    output: &mut Items<u8>,
) -> Result<Option<Ending>, NoMemory>
    requires stands { StandsIn code.now machine.old }
    requires live { machine.old.live ≡ live_after true event }
    requires asked { event ≡ Event.WantsInput → slice_get code.now.instrs machine.old.state.place ≡ Some Instr.In }
    ensures stands { StandsIn code.now machine.new }
    ensures live { IfOk result (λ e. e ≡ None → machine.new.live ≡ true) }
{
    match event {
        Event::Ran | Event::Ticked | Event::Checkpoint(_) | Event::Exclude(_) => Ok(None),
        Event::WantsInput => {
            machine.give(code, next_byte(input, taken));
            Ok(None)
        }
        Event::Out(byte) => {
            output.push(byte)?;
            Ok(None)
        }
        Event::OutNumber(number) => {
            let digits = format!(in alloc; "{number}")?;
            output.append(Items::from_vec(digits.into_bytes()))?;
            Ok(None)
        }
        Event::Ended(value) => Ok(Some(Ending::Ended(value))),
        Event::Trapped(trap) => Ok(Some(Ending::Trapped(trap))),
        Event::WriteFault(_) => Ok(Some(Ending::Going)),
    }
}

/// Runs a machine until it ends, traps or would pass the bound, and answers how it did.
#[tactic(auto, using(crate::proofs::Fitted::after_step))]
fn go<L: Ledger>(
    alloc: Global,
    code: &Code,
    machine: &mut Machine,
    frames: &mut Frames,
    pages: &Pages,
    steps: &mut Steps<L>,
    input: &[u8],
    until: u64,
    output: &mut Items<u8>,
) -> Result<Ending, NoMemory>
    requires stands { StandsIn code.now machine.old }
    requires fit { FitTogether code.now frames.old pages.now }
    requires live { machine.old.live ≡ true }
{
    let mut taken = 0;
    for _ in 0..INSTRUCTIONS {
        if must_stop(machine, code, until) {
            return Ok(Ending::Going);
        }
        let event = machine.step(code, frames, pages, steps);
        if let Some(ending) = serve(alloc, code, machine, event, input, &mut taken, output)? {
            return Ok(ending);
        }
    }
    Ok(Ending::Going)
}

/// Frames with the first words of a program, and no other.
fn first_frames(alloc: Global, program: &Checked, count: u32) -> Result<Frames, NoMemory>
    requires few { count ≤ 513 }
    requires all { cell_count program.now ≤ 512 * count }
    ensures size { IfOk result (λ f. length f ≡ 512 * count) }
{
    let mut frames = Frames::new(alloc, count, 0)?;
    for cell in 0..program.cells() {
        frames.set_word(cell, program.first_word(cell));
    }
    Ok(frames)
}

/// Runs the code of a program from its first words; None where the code is not valid, or has more cells than fit.
pub fn run_code<L: Ledger>(
    alloc: Global,
    program: &Checked,
    code: &Code,
    input: &[u8],
    until: u64,
    blank: Blank,
) -> Result<Option<Ran>, NoMemory>
    requires name { blank.name ≡ L.name }
    requires parts { blank.parts ≡ L.parts }
    requires some { 0 < blank.parts }
{
    if program.cells() > MAX_CELLS {
        return Ok(None);
    }
    let count = program.cells() / 512 + 1;
    let mut frames = first_frames(alloc, program, count)?;
    let pages = Pages::new(alloc, count)?;
    if !code.fits(count as u64 * 512) {
        return Ok(None);
    }
    if !code.is_valid(alloc)? {
        return Ok(None);
    }
    let mut machine = Machine::new(alloc, code)?;
    let mut steps = Steps::<L>::new(blank);
    let mut output = Items::new(alloc);
    let ending = go(
        alloc,
        code,
        &mut machine,
        &mut frames,
        &pages,
        &mut steps,
        input,
        until,
        &mut output,
    )?;
    Ok(Some(Ran {
        output,
        ending,
        ticks: machine.ticks(),
    }))
}
