//! One life, from opening its store to finishing.
ghost use Rattle.std.specs.Prelude.{◌≡◌, ◌≤◌, ◌<◌, true, false, [], length, IsTrue, IfOk, IfErr, OnOk, OnErr};
ghost use Rattle.ckpt_base.specs.Faults.{Rose};
ghost use Rattle.disk_model.specs.View.{Steady};
ghost use Rattle.run_images.specs.Origin.{Origin};
ghost use Rattle.ckpt_runner.specs.Lives.{Lives};
ghost use Rattle.ckpt_runner.specs.Calls.{FitsDisk};
ghost use Rattle.ckpt_runner.specs.Opening.{Refuses, Leaves};
ghost use Rattle.ckpt_runner.specs.Arguments.{given_by};
ghost use Rattle.ckpt_runner.specs.Standing.{KeepsImages, KeepsStanding};
ghost use Rattle.one_life.specs.AsSource.{LivesStanding, LivesAsSource, EndsLikeSources};
ghost use Rattle.one_life.specs.Ends.{LivesOn, Ran, RanWhereTold};

use crate::driving::run_to;
use ckpt_base::{Ending, Failed};
use ckpt_runner::{How, Life, OpenFault, Started};
use compiled_program::Compiled;
use disk_model::Disk;
use image_format::Marks;
use paged_machine::Steps;
use std::alloc::Global;
use std::marker::Brand;
use std::sync::ledger::{Blank, Ledger};

/// What a life has come to.
#[derive(Clone, Copy, Debug, PartialEq, Eq)]
pub struct Lived {
    /// How it started.
    pub started: Started,
    /// How its run stands.
    pub ending: Ending,
    /// How many steps the run took, from the entry of the program on.
    pub steps: u64,
}

/// Opens a store, runs on until the program ends, traps or has taken as many steps as it may, and makes all that it has written lasting.
pub fn live<D: Disk>(
    alloc: Global,
    compiled: &Compiled,
    marks: &Marks,
    input: &[u8],
    disk: &mut D,
    how: How<'_>,
) -> Result<Lived, OpenFault>
    requires every { 1 ≤ how.every }
    requires max { (2 ≤ how.max) × (how.max ≤ 64) }
    requires pace { 1 ≤ length how.pace.now }
    requires short { length input.now ≤ 16777216 }
    ensures ran { IfOk result (λ l. Ran (given_by compiled.now marks.now input.now how.entry) l) }
    ensures told { IfOk result (λ l. RanWhereTold (given_by compiled.now marks.now input.now how.entry) (D.view disk.old) l (D.view disk.new)) }
    // On a store that stands for the source of what was given: a crash at any moment leaves one that does, and the life comes to what the source's run is.
    ensures moments { LivesStanding (given_by compiled.now marks.now input.now how.entry) (D.view disk.old) (D.view disk.new) }
    ensures as_source { IfOk result (λ l. LivesAsSource (given_by compiled.now marks.now input.now how.entry) (D.view disk.old) l (D.view disk.new)) }
    // On every store, no image is lost at any moment.
    ensures later { KeepsImages (D.view disk.old) (D.view disk.new) }
    ensures err { IfErr result (λ e. IsTrue (D.view disk.old).tells → Refuses e (given_by compiled.now marks.now input.now how.entry) (D.view disk.old).seen) }
    ensures leaves { IfErr result (λ e. Leaves e (D.view disk.old) (D.view disk.new)) }
    ensures untouched { IfErr result (λ e. e ≡ OpenFault.Memory → disk.new ≡ disk.old) }
    ensures counts { OnOk result ((D.view disk.new).faults ≡ (D.view disk.old).faults) }
    ensures steady { Steady (D.view disk.old) (D.view disk.new) }
{
    let mut life = Life::open(alloc, compiled, marks, input, disk, how)?;
    match live_on::<D, Brand>(&mut life, disk, how.until, Blank::new(1)) {
        Ok(lived) => Ok(lived),
        Err(_) => Err(OpenFault::Failed),
    }
}

// Runs a life on up to a bound, and makes all that it has written lasting.
fn live_on<D: Disk, L: Ledger>(
    life: &mut Life<'_>,
    disk: &mut D,
    bound: u64,
    blank: Blank,
) -> Result<Lived, Failed>
    requires live { (life.old.machine.live ≡ true) × (life.old.failed ≡ false) × (life.old.finished ≡ false) }
    requires bound { life.old.machine.state.ticks ≤ bound }
    requires fits { FitsDisk life.old (D.view disk.old) }
    requires name { blank.name ≡ L.name }
    requires parts { blank.parts ≡ L.parts }
    requires some { 0 < blank.parts }
    ensures started { IfOk result (λ l. l.started ≡ life.old.started) }
    ensures goes { IfOk result (λ l. (o : Origin) → Lives o [] life.old → LivesOn o bound life.old (D.view disk.old) l (D.view disk.new)) }
    ensures ends { IfOk result (λ l. EndsLikeSources bound life.old (D.view disk.old) l (D.view disk.new)) }
    ensures moments { KeepsStanding life.old (D.view disk.old) (D.view disk.new) }
    ensures later { KeepsImages (D.view disk.old) (D.view disk.new) }
    ensures failed { OnErr result (Rose (D.view disk.old).faults (D.view disk.new).faults) }
    ensures counts { OnOk result ((D.view disk.new).faults ≡ (D.view disk.old).faults) }
    ensures steady { Steady (D.view disk.old) (D.view disk.new) }
{
    let started = life.started();
    let mut counter = Steps::<L>::new(blank);
    let ending = run_to(life, disk, bound, &mut counter)?;
    let steps = life.ticks();
    life.finish(disk)?;
    Ok(Lived {
        started,
        ending,
        steps,
    })
}
