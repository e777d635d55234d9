//! Sets of the cells that accesses may touch.

ghost use Rattle.std.specs.Prelude.{◌≡◌, ◌<◌, ◌≤◌, ◌+◌, ℕ, OnOk, IfOk};
ghost use Rattle.cell_sets.specs.Sets.{universe_of};
ghost use Rattle.c_tree.specs.Layout.{cell_count};
ghost use Rattle.alias_sets.specs.Points.{ArePointsOf, MayCome};
ghost use Rattle.access_summary.specs.Touch as spec;

use access_summary::{Target, add_source, place_below};
use alias_sets::{Points, Source};
use c_tree::Checked;
use cell_sets::{BitRow, CellSet};
use ckpt_base::NoMemory;
use std::alloc::Global;

/// Adds the cells from `first` on, as far as they are below the universe.
fn add_run(alloc: Global, set: &mut CellSet, first: u32, count: u32) -> Result<(), NoMemory>
    ensures answer { OnOk result (spec.Adds set.old set.new (λ c. (first ≤ c) × (c < first + count))) }
{
    let universe = set.universe();
    if first >= universe {
        return Ok(());
    }
    let count = count.min(universe - first);
    let run = CellSet::range(alloc, universe, first, count)?;
    set.union_with(&run)
}

/// Adds the cells of an object.
fn add_object(
    alloc: Global,
    set: &mut CellSet,
    program: &Checked,
    object: u32,
) -> Result<(), NoMemory>
    ensures answer { OnOk result (spec.Adds set.old set.new (λ c. spec.LiesIn program.now object c)) }
{
    match program.object(object) {
        None => Ok(()),
        Some((first, length)) => add_run(alloc, set, first, length),
    }
}

/// Adds one cell, which is so many behind another.
fn add_behind(alloc: Global, set: &mut CellSet, first: u32, place: u32) -> Result<(), NoMemory>
    ensures answer { OnOk result (spec.Adds set.old set.new (λ c. c ≡ first + place)) }
{
    let _universe = set.universe();
    match first.checked_add(place) {
        None => Ok(()),
        Some(cell) => add_run(alloc, set, cell, 1),
    }
}

/// Adds the cell at a place of an object, where there is such a place.
fn add_element(
    alloc: Global,
    set: &mut CellSet,
    program: &Checked,
    object: u32,
    place: i64,
) -> Result<(), NoMemory>
    ensures answer { OnOk result (spec.Adds set.old set.new (λ c. spec.IsAtPlace program.now object place c)) }
{
    match program.object(object) {
        None => Ok(()),
        Some((first, length)) => match place_below(place, length) {
            None => Ok(()),
            Some(n) => add_behind(alloc, set, first, n),
        },
    }
}

/// Adds the cells of every object that the source may give. A variable may hold many objects: they go through one row.
fn add_objects(
    alloc: Global,
    set: &mut CellSet,
    program: &Checked,
    points: &Points,
    source: Source,
) -> Result<(), NoMemory>
    requires points { ArePointsOf program.now points.now }
    requires universe { universe_of set.old ≡ cell_count program.now }
    ensures answer { OnOk result (spec.Adds set.old set.new (λ c. (o : ℕ) × MayCome program.now source o × spec.LiesIn program.now o c)) }
{
    match source {
        Source::Nothing => Ok(()),
        Source::Object(object) => add_object(alloc, set, program, object),
        Source::Variable(_) => {
            let mut row = BitRow::new(alloc, program.cells())?;
            add_source(alloc, &mut row, program, points, source)?;
            let cells = CellSet::of_row(alloc, &row)?;
            set.union_with(&cells)
        }
    }
}

/// Adds the cells that an access may touch.
pub fn add_touched(
    alloc: Global,
    set: &mut CellSet,
    program: &Checked,
    points: &Points,
    target: Target,
) -> Result<(), NoMemory>
    requires points { ArePointsOf program.now points.now }
    requires universe { universe_of set.old ≡ cell_count program.now }
    ensures answer { OnOk result (spec.Adds set.old set.new (λ c. spec.MayTouch program.now target c)) }
{
    match target {
        Target::Cell(cell) => add_behind(alloc, set, cell, 0),
        Target::Element(object, place) => add_element(alloc, set, program, object, place),
        Target::Objects(source) => add_objects(alloc, set, program, points, source),
    }
}
