//! How a life goes on up to a stop at a tick, or to its end.

ghost use Rattle.std.specs.Prelude.{◌≡◌, ◌≤◌, ◌<◌, ℕ, true, false, List, [], Some, None, IsTrue, IfOk, OnOk};
ghost use Rattle.ckpt_base.specs.Event.{Event};
ghost use Rattle.disk_model.specs.View.{Steady};
ghost use Rattle.run_images.specs.Origin.{Origin};
ghost use Rattle.run_images.specs.Source.{Source};
ghost use Rattle.run_images.specs.Stands.{AllStand};
ghost use Rattle.ckpt_runner.specs.Calls.{FitsDisk};
ghost use Rattle.drilled_lives.specs.Courses.{IsLived, start_of};
ghost use Rattle.drilled_lives.specs.Going.{ComesAsRun, EndsWith, IsLifeOf, IsStoppedAt, LosesNone};

use crate::course::Course;
use ckpt_base::{Ending, Failed};
use ckpt_runner::{Life, Started};
use disk_model::Disk;
use one_life::{Lived, run_to};
use paged_machine::Steps;
use run_images::lives_end_as_their_source;
use std::sync::ledger::{Blank, Ledger};

// Leaves the life where it has taken as many ticks as the stop says and would take another; or else finishes it at its end or its bound.
pub(crate) fn go_to<D: Disk, L: Ledger>(
    life: &mut Life<'_>,
    disk: &mut D,
    stop: Option<u64>,
    until: u64,
    blank: Blank,
) -> Result<Course, Failed>
    requires live { (life.old.machine.live ≡ true) × (life.old.failed ≡ false) × (life.old.finished ≡ false) }
    requires stop { (n : ℕ) → stop ≡ Some n → life.old.machine.state.ticks ≤ n }
    requires bound { life.old.machine.state.ticks ≤ until }
    requires fits { FitsDisk life.old (D.view disk.old) }
    requires name { blank.name ≡ L.name }
    requires parts { blank.parts ≡ L.parts }
    requires some { 0 < blank.parts }
    ensures started { IfOk result (λ course. start_of course ≡ Some life.old.started) }
    ensures lived { IfOk result (λ course. stop ≡ None → IsLived course) }
    ensures comes { IfOk result (λ course. (s : Source) (o : Origin) → IsLifeOf s o [] life.old (D.view disk.old)
        → o.state.ticks ≤ life.old.machine.state.ticks → ComesAsRun s o.taking.every until stop course (D.view disk.new)) }
    ensures stand { (s : Source) (o : Origin) → IsLifeOf s o [] life.old (D.view disk.old) → AllStand s (D.view disk.new) }
    ensures later { LosesNone (D.view disk.old) (D.view disk.new) }
    ensures steady { Steady (D.view disk.old) (D.view disk.new) }
{
    let mut steps = Steps::<L>::new(blank);
    match stop {
        Some(tick) => {
            if tick <= until {
                let course = leave_at(life, disk, tick, until, &mut steps)?;
                Ok(course)
            } else {
                let lived = live_out(life, disk, until, &mut steps)?;
                Ok(Course::Lived(lived))
            }
        }
        None => {
            let lived = live_out(life, disk, until, &mut steps)?;
            Ok(Course::Lived(lived))
        }
    }
}

// Leaves the life at the tick; or finishes it, where its run is over before.
fn leave_at<D: Disk, L: Ledger>(
    life: &mut Life<'_>,
    disk: &mut D,
    tick: u64,
    until: u64,
    steps: &mut Steps<L>,
) -> Result<Course, Failed>
    requires live { (life.old.machine.live ≡ true) × (life.old.failed ≡ false) × (life.old.finished ≡ false) }
    requires tick { life.old.machine.state.ticks ≤ tick }
    requires within { tick ≤ until }
    requires fits { FitsDisk life.old (D.view disk.old) }
    ensures started { IfOk result (λ course. start_of course ≡ Some life.old.started) }
    ensures comes { IfOk result (λ course. (s : Source) (o : Origin) → IsLifeOf s o [] life.old (D.view disk.old)
        → o.state.ticks ≤ life.old.machine.state.ticks → ComesAsRun s o.taking.every until (Some tick) course (D.view disk.new)) }
    ensures stand { (s : Source) (o : Origin) → IsLifeOf s o [] life.old (D.view disk.old) → AllStand s (D.view disk.new) }
    ensures later { LosesNone (D.view disk.old) (D.view disk.new) }
    ensures steady { Steady (D.view disk.old) (D.view disk.new) }
{
    lives_end_as_their_source();
    let started = life.started();
    let ending = run_to(life, disk, tick, steps)?;
    match ending {
        Ending::Going => Ok(Course::Left(started)),
        _ => {
            let lived = finish(life, disk, started, ending)?;
            Ok(Course::Lived(lived))
        }
    }
}

// Runs the life to its end or its bound, and finishes it.
fn live_out<D: Disk, L: Ledger>(
    life: &mut Life<'_>,
    disk: &mut D,
    until: u64,
    steps: &mut Steps<L>,
) -> Result<Lived, Failed>
    requires live { (life.old.machine.live ≡ true) × (life.old.failed ≡ false) × (life.old.finished ≡ false) }
    requires bound { life.old.machine.state.ticks ≤ until }
    requires fits { FitsDisk life.old (D.view disk.old) }
    ensures started { IfOk result (λ l. l.started ≡ life.old.started) }
    ensures comes { IfOk result (λ l. (s : Source) (o : Origin) → IsLifeOf s o [] life.old (D.view disk.old)
        → o.state.ticks ≤ life.old.machine.state.ticks → EndsWith s o.taking.every until l (D.view disk.new)) }
    ensures stand { (s : Source) (o : Origin) → IsLifeOf s o [] life.old (D.view disk.old) → AllStand s (D.view disk.new) }
    ensures later { LosesNone (D.view disk.old) (D.view disk.new) }
    ensures steady { Steady (D.view disk.old) (D.view disk.new) }
{
    let started = life.started();
    let ending = run_to(life, disk, until, steps)?;
    let lived = finish(life, disk, started, ending)?;
    Ok(lived)
}

// Finishes a life that started so and whose run stands so.
fn finish<D: Disk>(
    life: &mut Life<'_>,
    disk: &mut D,
    started: Started,
    ending: Ending,
) -> Result<Lived, Failed>
    requires whole { life.old.failed ≡ false }
    requires fits { FitsDisk life.old (D.view disk.old) }
    ensures started { IfOk result (λ l. l.started ≡ started) }
    ensures comes { IfOk result (λ l. (s : Source) (o : Origin) (es : List Event) (until : ℕ) → IsStoppedAt s o es until ending life.old (D.view disk.old)
        → EndsWith s o.taking.every until l (D.view disk.new)) }
    ensures stand { (s : Source) (o : Origin) (es : List Event) → IsLifeOf s o es life.old (D.view disk.old) → AllStand s (D.view disk.new) }
    ensures later { LosesNone (D.view disk.old) (D.view disk.new) }
    ensures steady { Steady (D.view disk.old) (D.view disk.new) }
{
    let steps = life.ticks();
    life.finish(disk)?;
    Ok(Lived {
        started,
        ending,
        steps,
    })
}
