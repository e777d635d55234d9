//! One life of a drill, on a disk in memory, with what its stop leaves of the store.

ghost use Rattle.std.specs.Prelude.{◌≡◌, ◌≤◌, length, true, None, Some, IfOk};
ghost use Rattle.disk_model.specs.MemoryDisk.{view_of};
ghost use Rattle.ckpt_runner.specs.Arguments.{given_by};
ghost use Rattle.drilled_lives.specs.Living.{cut_course};
ghost use Rattle.drilled_lives.specs.Next.{Follows, IsCrashedBy};
ghost use Rattle.command_words.specs.declared.stops.Stop.TheVariants.{AtStep, InCall};

use crate::course::Course;
use crate::living::{LifeFault, live_to};
use ckpt_runner::{How, OpenFault};
use command_words::Stop;
use compiled_program::Compiled;
use disk_model::MemDisk;
use image_format::Marks;
use std::alloc::Global;

// Runs one life with its stop, and crashes the disk where that reached it.
pub(crate) fn live_stopped(
    alloc: Global,
    compiled: &Compiled,
    marks: &Marks,
    input: &[u8],
    disk: &mut MemDisk,
    how: How<'_>,
    stop: Stop,
) -> Result<Course, LifeFault>
    requires every { 1 ≤ how.every }
    requires max { (2 ≤ how.max) × (how.max ≤ 64) }
    requires pace { 1 ≤ length how.pace.now }
    requires short { length input.now ≤ 16777216 }
    ensures follows { IfOk result (λ course. Follows (given_by compiled.now marks.now input.now how.entry) (Some stop)
        (view_of disk.old) course (view_of disk.new)) }
    ensures crashed { IfOk result (λ course. IsCrashedBy stop course disk.new) }
{
    match stop {
        Stop::AtStep(step) => {
            let course = live_to_step(alloc, compiled, marks, input, disk, how, step)?;
            Ok(course)
        }
        Stop::InCall { number, pick } => {
            let course = live_in_call(alloc, compiled, marks, input, disk, how, number, pick)?;
            Ok(course)
        }
    }
}

// Runs a life without a stop.
pub(crate) fn live_out(
    alloc: Global,
    compiled: &Compiled,
    marks: &Marks,
    input: &[u8],
    disk: &mut MemDisk,
    how: How<'_>,
) -> Result<Course, LifeFault>
    requires every { 1 ≤ how.every }
    requires max { (2 ≤ how.max) × (how.max ≤ 64) }
    requires pace { 1 ≤ length how.pace.now }
    requires short { length input.now ≤ 16777216 }
    ensures follows { IfOk result (λ course. Follows (given_by compiled.now marks.now input.now how.entry) None
        (view_of disk.old) course (view_of disk.new)) }
{
    disk.fuse(0);
    let course = live_to(alloc, compiled, marks, input, disk, how, None)?;
    Ok(course)
}

// A life that is left at a step, if it comes there; the crash leaves what was lasting.
fn live_to_step(
    alloc: Global,
    compiled: &Compiled,
    marks: &Marks,
    input: &[u8],
    disk: &mut MemDisk,
    how: How<'_>,
    step: u64,
) -> Result<Course, LifeFault>
    requires every { 1 ≤ how.every }
    requires max { (2 ≤ how.max) × (how.max ≤ 64) }
    requires pace { 1 ≤ length how.pace.now }
    requires short { length input.now ≤ 16777216 }
    ensures follows { IfOk result (λ course. Follows (given_by compiled.now marks.now input.now how.entry) (Some (AtStep step))
        (view_of disk.old) course (view_of disk.new)) }
    ensures crashed { IfOk result (λ course. IsCrashedBy (AtStep step) course disk.new) }
{
    disk.fuse(0);
    let course = live_to(alloc, compiled, marks, input, disk, how, Some(step))?;
    match course {
        Course::Left(started) => {
            disk.crash(0);
            Ok(Course::Left(started))
        }
        _ => Ok(course),
    }
}

// A life that is stopped inside one of its change calls, if it makes so many; the crash has the pick.
fn live_in_call(
    alloc: Global,
    compiled: &Compiled,
    marks: &Marks,
    input: &[u8],
    disk: &mut MemDisk,
    how: How<'_>,
    number: u32,
    pick: u8,
) -> Result<Course, LifeFault>
    requires every { 1 ≤ how.every }
    requires max { (2 ≤ how.max) × (how.max ≤ 64) }
    requires pace { 1 ≤ length how.pace.now }
    requires short { length input.now ≤ 16777216 }
    ensures follows { IfOk result (λ course. Follows (given_by compiled.now marks.now input.now how.entry) (Some (InCall number pick))
        (view_of disk.old) course (view_of disk.new)) }
    ensures crashed { IfOk result (λ course. IsCrashedBy (InCall number pick) course disk.new) }
{
    disk.fuse(number);
    match live_to(alloc, compiled, marks, input, disk, how, None) {
        Ok(course) => Ok(course),
        Err(fault) => {
            let course = course_of(fault, disk.blown())?;
            disk.crash(pick);
            Ok(course)
        }
    }
}

// What a life did that failed: a call in which the fuse has acted is a stop, and any other fault is one.
fn course_of(fault: LifeFault, blown: bool) -> Result<Course, LifeFault>
    ensures course { IfOk result (λ course. course ≡ cut_course fault) }
    ensures blown { IfOk result (λ course. blown ≡ true) }
{
    match fault {
        LifeFault::Refused(refusal) => {
            if blown && refusal == OpenFault::Failed {
                Ok(Course::Opening)
            } else {
                Err(fault)
            }
        }
        LifeFault::Stopped { started, .. } => {
            if blown {
                Ok(Course::Left(started))
            } else {
                Err(fault)
            }
        }
    }
}
