//! One life, from opening its store to a stop at a step, or to its end.

ghost use Rattle.std.specs.Prelude.{◌≡◌, ◌≤◌, length, None, IsTrue, IfOk, IfErr};
ghost use Rattle.disk_model.specs.View.{Steady};
ghost use Rattle.run_images.specs.Source.{Source};
ghost use Rattle.run_images.specs.Stands.{AllStand};
ghost use Rattle.ckpt_runner.specs.Arguments.{given_by};
ghost use Rattle.ckpt_runner.specs.Standing.{IsGivenSource};
ghost use Rattle.drilled_lives.specs.Courses.{IsLived, ticks_of};
ghost use Rattle.drilled_lives.specs.Between.{IsSpacedBy};
ghost use Rattle.drilled_lives.specs.Going.{LosesNone};
ghost use Rattle.drilled_lives.specs.Living.{HasOpened, LivesTo};

use crate::course::Course;
use crate::going::go_to;
use ckpt_runner::{How, Life, OpenFault, Started};
use compiled_program::Compiled;
use disk_model::Disk;
use image_format::Marks;
use std::alloc::Global;
use std::marker::Brand;
use std::sync::ledger::Blank;

/// Why a life came to nothing.
#[derive(Clone, Copy, Debug, PartialEq, Eq)]
pub enum LifeFault {
    /// It was not opened.
    Refused(OpenFault),
    /// It started so, and a call on the disk failed when its run had taken so many ticks.
    Stopped { started: Started, ticks: u64 },
}

impl From<OpenFault> for LifeFault {
    ghost use Rattle.std.specs.Prelude.{◌≡◌};
    ghost use Rattle.drilled_lives.specs.declared.living.LifeFault.TheVariants.{Refused};

    ghost from_gives = { λ fault e. e ≡ Refused fault };

    fn from(fault: OpenFault) -> LifeFault {
        LifeFault::Refused(fault)
    }
}

// Opens a store and runs on. The life is left where it has taken so many steps and would take another, at its first step at the earliest; or
// else it is finished at its end or its bound.
pub(crate) fn live_to<D: Disk>(
    alloc: Global,
    compiled: &Compiled,
    marks: &Marks,
    input: &[u8],
    disk: &mut D,
    how: How<'_>,
    step: Option<u64>,
) -> Result<Course, LifeFault>
    requires every { 1 ≤ how.every }
    requires max { (2 ≤ how.max) × (how.max ≤ 64) }
    requires pace { 1 ≤ length how.pace.now }
    requires short { length input.now ≤ 16777216 }
    ensures lives { IfOk result (λ course. IsTrue (D.view disk.old).tells → (s : Source) → IsGivenSource (given_by compiled.now marks.now input.now how.entry) s
        → IsSpacedBy s how.entry.every → AllStand s (D.view disk.old)
        → LivesTo (given_by compiled.now marks.now input.now how.entry) s step (D.view disk.old) course (D.view disk.new)) }
    ensures lived { IfOk result (λ course. step ≡ None → IsLived course) }
    ensures opened { IfErr result (λ fault. IsTrue (D.view disk.old).tells
        → HasOpened (given_by compiled.now marks.now input.now how.entry) (D.view disk.old).seen fault) }
    ensures stand { IsTrue (D.view disk.old).tells → (s : Source) → IsGivenSource (given_by compiled.now marks.now input.now how.entry) s
        → AllStand s (D.view disk.old) → AllStand s (D.view disk.new) }
    ensures later { LosesNone (D.view disk.old) (D.view disk.new) }
    ensures steady { Steady (D.view disk.old) (D.view disk.new) }
{
    let mut life = Life::open(alloc, compiled, marks, input, disk, how)?;
    let started = life.started();
    let stop = stop_at(step, life.ticks());
    match go_to::<D, Brand>(&mut life, disk, stop, how.until, Blank::new(1)) {
        Ok(course) => Ok(course),
        Err(_) => Err(LifeFault::Stopped {
            started,
            ticks: life.ticks(),
        }),
    }
}

// The ticks at which a stop at a step leaves a life that has taken so many.
fn stop_at(step: Option<u64>, ticks: u64) -> Option<u64>
    ensures answer { result ≡ ticks_of step ticks }
{
    match step {
        Some(step) => {
            if step <= ticks {
                Some(ticks)
            } else {
                Some(step)
            }
        }
        None => None,
    }
}
