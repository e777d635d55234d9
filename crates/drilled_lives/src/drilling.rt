//! A drill: the lives one after another, and the output at the end.

ghost use Rattle.std.specs.Prelude.{◌≡◌, ◌≤◌, ◌+◌, ◌*◌, ◌++◌, ◌∷◌, [], length, IfOk, OnOk};
ghost use Rattle.disk_model.specs.MemoryDisk.{view_of};
ghost use Rattle.run_images.specs.Source.{Source, output_of};
ghost use Rattle.ckpt_runner.specs.declared.started.Started.TheVariants.{Begun};
ghost use Rattle.ckpt_runner.specs.Arguments.{given_by};
ghost use Rattle.ckpt_runner.specs.Standing.{IsGivenSource};
ghost use Rattle.drilled_lives.specs.Courses.{AreDrilled, Fresh};
ghost use Rattle.drilled_lives.specs.Between.{IsSpacedBy, IsBetween};

use crate::course::{Course, Drilled};
use crate::fault::DrillFault;
use crate::output::read_output;
use crate::stopping::{live_out, live_stopped};
use ckpt_base::NoMemory;
use ckpt_runner::{How, Mode};
use command_words::Stop;
use compiled_program::Compiled;
use disk_model::MemDisk;
use image_format::Marks;
use run_images::empty_stores_stand;
use std::alloc::Global;

/// How many bytes of output a drill has room for.
pub const OUTPUT_ROOM: usize = 16_777_216;

/// Runs a program through a list of stops, on a disk that it makes: one life for each stop, and one more without a stop. Its mode is not looked at:
/// the first life begins, and each later one restarts.
///
/// `every` is at least 1, `max` is 2 to 64, the pace is not empty, and the input has at most 16,777,216 bytes. `Failed` comes where the program writes more
/// output than there is room for.
pub fn drill(
    alloc: Global,
    compiled: &Compiled,
    marks: &Marks,
    input: &[u8],
    how: How<'_>,
    stops: &[Stop],
) -> Result<Drilled, DrillFault>
    requires every { 1 ≤ how.every }
    requires max { (2 ≤ how.max) × (how.max ≤ 64) }
    requires pace { 1 ≤ length how.pace.now }
    requires short { length input.now ≤ 16777216 }
    // Whatever the stops, the lives are those of a drill of the source, and the output is that of its run within the bound.
    ensures lives { IfOk result (λ drilled. (s : Source) → IsGivenSource (given_by compiled.now marks.now input.now how.entry) s → IsSpacedBy s how.entry.every
        → AreDrilled s how.entry.every how.entry.until stops.now drilled.courses.items) }
    ensures output { IfOk result (λ drilled. (s : Source) → IsGivenSource (given_by compiled.now marks.now input.now how.entry) s → IsSpacedBy s how.entry.every
        → drilled.output.items ≡ output_of s how.entry.until) }
{
    empty_stores_stand();
    let room = image_room(how.max, compiled.cells());
    let mut disk = MemDisk::new(alloc, OUTPUT_ROOM, room, 0, Vec::new(alloc))?;
    let courses = run_lives(alloc, compiled, marks, input, &mut disk, how, stops)?;
    let output = read_output(alloc, &mut disk)?;
    Ok(Drilled { courses, output })
}

// Runs a life for each stop, and one more without a stop.
fn run_lives(
    alloc: Global,
    compiled: &Compiled,
    marks: &Marks,
    input: &[u8],
    disk: &mut MemDisk,
    how: How<'_>,
    stops: &[Stop],
) -> Result<Vec<Course>, DrillFault>
    requires every { 1 ≤ how.every }
    requires max { (2 ≤ how.max) × (how.max ≤ 64) }
    requires pace { 1 ≤ length how.pace.now }
    requires short { length input.now ≤ 16777216 }
    ensures lives { IfOk result (λ courses. (s : Source) → IsGivenSource (given_by compiled.now marks.now input.now how.entry) s → IsSpacedBy s how.entry.every
        → IsBetween s how.entry.every Begun Fresh (view_of disk.old) → AreDrilled s how.entry.every how.entry.until stops.now courses.items) }
    ensures output { IfOk result (λ courses. (s : Source) → IsGivenSource (given_by compiled.now marks.now input.now how.entry) s → IsSpacedBy s how.entry.every
        → IsBetween s how.entry.every Begun Fresh (view_of disk.old) → (view_of disk.new).seen.output ≡ output_of s how.entry.until) }
{
    let mut courses = Vec::new(alloc);
    let mut mode = Mode::Run;
    'lives: for stop in stops {
        let life = How { mode, ..how };
        let course = live_stopped(alloc, compiled, marks, input, disk, life, *stop)?;
        add(&mut courses, course)?;
        mode = Mode::Restart;
    }
    let last = How { mode, ..how };
    let course = live_out(alloc, compiled, marks, input, disk, last)?;
    add(&mut courses, course)?;
    Ok(courses)
}

// Adds what one life more did.
fn add(courses: &mut Vec<Course>, course: Course) -> Result<(), NoMemory>
    ensures added { OnOk result (courses.new.items ≡ courses.old.items ++ course ∷ []) }
{
    match courses.push(course) {
        Ok(()) => Ok(()),
        Err(_) => Err(NoMemory),
    }
}

// The bytes that an image file may have: a header, and so many records of a program with so many cells. A record has 109 bytes, and eight for each of its cells and
// of its runs; its runs lie apart, so that cells and runs are one more than the cells of the program at most.
fn image_room(max: u16, cells: u32) -> usize
    requires max { max ≤ 64 }
    requires cells { cells ≤ 262144 }
    ensures answer { result ≡ 16 + max * (117 + 8 * cells) }
{
    16 + max as usize * (117 + 8 * cells as usize)
}
