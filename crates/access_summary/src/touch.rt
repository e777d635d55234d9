//! The cells that accesses may touch.

ghost use Rattle.std.specs.Prelude.{◌≡◌, ◌<◌, ◌≤◌, ◌+◌, ℕ, OnOk, IfOk, min, Contains, Some, IfSome, None};
ghost use Rattle.cell_sets.specs.Sets.{universe_of, has};
ghost use Rattle.alias_sets.specs.Points.{ArePointsOf, MayCome};
ghost use Rattle.access_summary.specs.Touch as spec;

use crate::effects::{Effect, Target};
use alias_sets::{Points, Source};
use c_tree::Checked;
use cell_sets::BitRow;
use ckpt_base::NoMemory;
use std::alloc::Global;

/// What is done with a cell.
#[derive(Clone, Copy, Debug, PartialEq, Eq)]
pub enum Access {
    /// It is read.
    Read,
    /// It is written.
    Write,
}

/// Adds one cell, where it is below the width.
fn add_cell(row: &mut BitRow, cell: u64)
    ensures answer { spec.Adds row.old row.new (λ c. c ≡ cell) }
{
    if cell >= row.width() as u64 {
        return;
    }
    row.set(cell as u32);
}

/// Where the cells end, or the width, where that is less.
fn end_of(first: u32, count: u32, width: u32) -> u32
    ensures answer { result ≡ min (first + count) width }
{
    (first as u64 + count as u64).min(width as u64) as u32
}

/// Adds the cells from `first` on, as far as they are below the width.
fn add_span(row: &mut BitRow, first: u32, count: u32)
    ensures answer { spec.Adds row.old row.new (λ c. (first ≤ c) × (c < first + count)) }
{
    let end = end_of(first, count, row.width());
    if first >= end {
        return;
    }
    row.set_range(first, end - first);
}

/// Adds the cells of an object.
fn add_object(row: &mut BitRow, program: &Checked, object: u32)
    ensures answer { spec.Adds row.old row.new (λ c. spec.LiesIn program.now object c) }
{
    match program.object(object) {
        None => (),
        Some((first, length)) => add_span(row, first, length),
    }
}

/// A number as a place, where it is below the length.
pub fn place_below(number: i64, length: u32) -> Option<u32>
    ensures some { IfSome result (λ n. (spec.word_place number ≡ Some n) × (n < length)) }
    ensures none { result ≡ None → (n : ℕ) → spec.word_place number ≡ Some n → length ≤ n }
{
    if number < 0 || number >= length as i64 {
        return None;
    }
    Some(number as u32)
}

/// Adds the cell at a place of an object, where there is such a place.
fn add_element(row: &mut BitRow, program: &Checked, object: u32, place: i64)
    ensures answer { spec.Adds row.old row.new (λ c. spec.IsAtPlace program.now object place c) }
{
    match program.object(object) {
        None => (),
        Some((first, length)) => match place_below(place, length) {
            None => (),
            Some(n) => add_cell(row, first as u64 + n as u64),
        },
    }
}

/// Adds the cells of several objects.
fn add_objects(row: &mut BitRow, program: &Checked, objects: &[u32])
    ensures answer { spec.Adds row.old row.new (λ c. (o : ℕ) × Contains objects.now o × spec.LiesIn program.now o c) }
{
    'objects: for object in objects {
        add_object(row, program, *object);
    }
}

/// Adds the cells of every object that the source may give, as far as they are below the width of the row.
pub fn add_source(
    alloc: Global,
    row: &mut BitRow,
    program: &Checked,
    points: &Points,
    source: Source,
) -> Result<(), NoMemory>
    requires points { ArePointsOf program.now points.now }
    ensures answer { OnOk result (spec.Adds row.old row.new (λ c. (o : ℕ) × MayCome program.now source o × spec.LiesIn program.now o c)) }
{
    match source {
        Source::Nothing => Ok(()),
        Source::Object(object) => {
            add_object(row, program, object);
            Ok(())
        }
        Source::Variable(variable) => {
            let objects = points.objects(alloc, variable)?;
            add_objects(row, program, &objects);
            Ok(())
        }
    }
}

/// Adds the cells that an access may touch.
fn add_target(
    alloc: Global,
    row: &mut BitRow,
    program: &Checked,
    points: &Points,
    target: Target,
) -> Result<(), NoMemory>
    requires points { ArePointsOf program.now points.now }
    ensures answer { OnOk result (spec.Adds row.old row.new (λ c. spec.MayTouch program.now target c)) }
{
    match target {
        Target::Cell(cell) => {
            add_cell(row, cell as u64);
            Ok(())
        }
        Target::Element(object, place) => {
            add_element(row, program, object, place);
            Ok(())
        }
        Target::Objects(source) => add_source(alloc, row, program, points, source),
    }
}

fn target_in(access: Access, effect: Effect) -> Option<Target>
    ensures answer { result ≡ spec.target_in access effect }
{
    match (access, effect) {
        (Access::Read, Effect::Read(target)) => Some(target),
        (Access::Write, Effect::Write(target)) => Some(target),
        _ => None,
    }
}

/// Adds the cells that an effect may read, or may write.
fn add_effect(
    alloc: Global,
    row: &mut BitRow,
    program: &Checked,
    points: &Points,
    access: Access,
    effect: Effect,
) -> Result<(), NoMemory>
    requires points { ArePointsOf program.now points.now }
    ensures answer { OnOk result (spec.Adds row.old row.new (λ c. spec.EffectTouches program.now access effect c)) }
{
    match target_in(access, effect) {
        None => Ok(()),
        Some(target) => add_target(alloc, row, program, points, target),
    }
}

/// Adds the cells that some effects may read, or may write.
pub fn add_effects(
    alloc: Global,
    row: &mut BitRow,
    program: &Checked,
    points: &Points,
    access: Access,
    effects: &[Effect],
) -> Result<(), NoMemory>
    requires points { ArePointsOf program.now points.now }
    ensures answer { OnOk result (spec.Adds row.old row.new (λ c. spec.Touches program.now access effects.now c)) }
{
    'effects: for effect in effects {
        add_effect(alloc, row, program, points, access, *effect)?;
    }
    Ok(())
}
