//! The report of the excluded sets.

ghost use Rattle.std.specs.Prelude.{◌≡◌, ◌<◌, ◌≤◌, ◌+◌, ◌^◌, ◌++◌, ◌∷◌, [], ℕ, Bool, suc, length, IfOk, IfSome, OnOk, string_bytes};
ghost use Rattle.cell_sets.specs.Sets.{universe_of, has};
ghost use Rattle.path_laws.specs.Graph.{IsWhole};
ghost use Rattle.c_tree.specs.Layout.{object_cells, cell_count};
ghost use Rattle.exclusion_equations.specs.Excluded.{dead_of, read_only_of};
ghost use Rattle.flow_graph.specs.MainGraph.{IsMainGraph};
ghost use Rattle.ckpt_program.specs.Report as spec;
ghost use Rattle.ckpt_program.specs.Report.{IsReport, runs_from};

use crate::graphs::make_graphs;
use c_tree::{Checked, ObjectKind, RObject};
use cell_sets::{BitRow, CellSet};
use ckpt_base::{NoMemory, Text};
use exclusion_equations::{Exclusions, find_exclusions};
use path_laws::EffectGraph;
use std::alloc::{AllocError, Global};

/// What `report` prints for a program: for each EXCLUDE_HERE the names of its dead and of its read-only cells.
pub fn report_of(alloc: Global, program: &Checked) -> Result<Text, NoMemory>
    ensures answer { IfOk result (λ t. IsReport program.now t) }
{
    let graphs = make_graphs(alloc, program)?;
    report_on(alloc, program, graphs.main())
}

/// The report of a program, by the graph of its `main`.
fn report_on(alloc: Global, program: &Checked, main: &EffectGraph) -> Result<Text, NoMemory>
    requires main { IsMainGraph program.now main.now }
    requires whole { IsWhole main.now }
    ensures answer { IfOk result (λ t. IsReport program.now t) }
{
    let _tree = program.tree();
    let exclusions = find_exclusions(alloc, main)?;
    directives(alloc, program, &exclusions, main.excludes() as u16)
}

/// The sets of the first `count` EXCLUDE_HERE.
fn directives(
    alloc: Global,
    program: &Checked,
    exclusions: &Exclusions,
    count: u16,
) -> Result<Text, NoMemory>
    requires dead_len { length exclusions.now.dead ≡ count }
    requires read_only_len { length exclusions.now.read_only ≡ count }
    requires dead { (k : ℕ) → 1 ≤ k → k ≤ count → universe_of (dead_of exclusions.now k) ≡ cell_count program.now }
    requires read_only { (k : ℕ) → 1 ≤ k → k ≤ count → universe_of (read_only_of exclusions.now k) ≡ cell_count program.now }
    ensures answer { IfOk result (λ t. t ≡ spec.directives_text program.now exclusions.now count) }
{
    let mut text = Vec::new(alloc);
    'directives: for k in 0..count {
        add_directive(alloc, &mut text, program, exclusions, k + 1)?;
    }
    Text::of_bytes(alloc, &text)
}

/// Writes the sets of EXCLUDE_HERE `k`.
fn add_directive(
    alloc: Global,
    text: &mut Vec<u8>,
    program: &Checked,
    exclusions: &Exclusions,
    k: u16,
) -> Result<(), NoMemory>
    requires first { 1 ≤ k }
    requires dead_len { k ≤ length exclusions.now.dead }
    requires read_only_len { k ≤ length exclusions.now.read_only }
    requires dead { universe_of (dead_of exclusions.now k) ≡ cell_count program.now }
    requires read_only { universe_of (read_only_of exclusions.now k) ≡ cell_count program.now }
    ensures answer { OnOk result (text.new.items ≡ text.old.items ++ spec.directive_text program.now k (dead_of exclusions.now k) (read_only_of exclusions.now k)) }
{
    let head = format!(in alloc; "exclude {k}\ndead")?;
    text.extend_from_slice(head.as_bytes())?;
    add_set(alloc, text, program, exclusions.dead(k))?;
    text.extend_from_slice(b"\nread-only")?;
    add_set(alloc, text, program, exclusions.read_only(k))?;
    text.extend_from_slice(b"\n")?;
    Ok(())
}

/// Writes the names of the cells of a set, a blank before each.
fn add_set(
    alloc: Global,
    text: &mut Vec<u8>,
    program: &Checked,
    set: &CellSet,
) -> Result<(), NoMemory>
    requires universe { universe_of set.now ≡ cell_count program.now }
    ensures answer { OnOk result (text.new.items ≡ text.old.items ++ spec.set_text program.now set.now) }
{
    let row = BitRow::of_set(alloc, set)?;
    add_objects(alloc, text, program.tree().objects.as_slice(), &row)?;
    add_locals(alloc, text, program, &row)
}

/// Writes the names of those cells of the objects that are in the row.
fn add_objects(
    alloc: Global,
    text: &mut Vec<u8>,
    objects: &[RObject],
    row: &BitRow,
) -> Result<(), NoMemory>
    requires within { object_cells objects.now ≤ universe_of row.now }
    ensures answer { OnOk result (text.new.items ≡ text.old.items ++ spec.objects_text row.now 0 objects.now) }
{
    // the cells fit, since they are at most the width
    let _width = row.width();
    let mut first = 0;
    'objects: for object in objects {
        add_object(alloc, text, object, row, first)?;
        first += object.length;
    }
    Ok(())
}

/// Writes the names of the runs of an object's places that are in the row.
fn add_object(
    alloc: Global,
    text: &mut Vec<u8>,
    object: &RObject,
    row: &BitRow,
    first: u32,
) -> Result<(), NoMemory>
    requires within { first + object.now.length ≤ universe_of row.now }
    ensures answer { OnOk result (text.new.items ≡ text.old.items ++ spec.object_text row.now first object.now) }
{
    // the cells fit, since they are at most the width
    let _width = row.width();
    let mut begun = None;
    'places: for place in 0..object.length {
        begun = pass(alloc, text, object, begun, place, row.get(first + place))?;
    }
    close(alloc, text, object, begun, object.length)
}

/// Passes one place, which is in the set or not: writes the run that is over there, and tells where the one began that is not.
fn pass(
    alloc: Global,
    text: &mut Vec<u8>,
    object: &RObject,
    begun: Option<u32>,
    place: u32,
    in_set: bool,
) -> Result<Option<u32>, NoMemory>
    requires before { IfSome begun (λ first. first < place) }
    ensures before { IfOk result (λ now. IfSome now (λ first. first < place + 1)) }
    ensures answer { IfOk result (λ now. (t : ℕ → Bool) (n : ℕ) → t place ≡ in_set → text.new.items ++ spec.runs_text object.now (runs_from t n (place + 1) now) ≡ text.old.items ++ spec.runs_text object.now (runs_from t (suc n) place begun)) }
{
    if in_set {
        return Ok(Some(begun.unwrap_or(place)));
    }
    close(alloc, text, object, begun, place)?;
    Ok(None)
}

/// Writes the run that is over before a place, if one had begun.
fn close(
    alloc: Global,
    text: &mut Vec<u8>,
    object: &RObject,
    begun: Option<u32>,
    place: u32,
) -> Result<(), NoMemory>
    requires before { IfSome begun (λ first. first < place) }
    ensures answer { OnOk result (text.new.items ≡ text.old.items ++ spec.runs_text object.now (spec.over begun place)) }
{
    match begun {
        None => Ok(()),
        Some(first) => add_run(alloc, text, object, first, place - 1),
    }
}

/// Writes the name of a run of an object's places.
fn add_run(
    alloc: Global,
    text: &mut Vec<u8>,
    object: &RObject,
    first: u32,
    last: u32,
) -> Result<(), NoMemory>
    ensures answer { OnOk result (text.new.items ≡ text.old.items ++ (32 ∷ object.now.name ++ spec.places_of object.now.kind (first, last))) }
{
    text.extend_from_slice(b" ")?;
    text.extend_from_slice(object.name.as_bytes())?;
    match object.kind {
        ObjectKind::Array => {
            let places = places(alloc, first, last)?;
            text.extend_from_slice(places.as_bytes())?;
            Ok(())
        }
        ObjectKind::Number | ObjectKind::Pointer => Ok(()),
    }
}

/// `[3]` for one place, `[0..2]` for several.
fn places(alloc: Global, first: u32, last: u32) -> Result<String, AllocError>
    ensures answer { IfOk result (λ s. string_bytes s ≡ spec.places first last) }
{
    if first == last {
        format!(in alloc; "[{first}]")
    } else {
        format!(in alloc; "[{first}..{last}]")
    }
}

/// Writes the names of those locals of `main` that are in the row.
fn add_locals(
    alloc: Global,
    text: &mut Vec<u8>,
    program: &Checked,
    row: &BitRow,
) -> Result<(), NoMemory>
    requires universe { universe_of row.now ≡ cell_count program.now }
    ensures answer { OnOk result (text.new.items ≡ text.old.items ++ spec.locals_text program.now row.now (length program.now.main.locals) (object_cells program.now.objects)) }
{
    let cells = program.cells();
    let first = cells - program.tree().main.locals.len() as u32;
    'locals: for cell in first..cells {
        add_local(alloc, text, program, row, cell)?;
    }
    Ok(())
}

/// Writes the name of a local of `main` that is in the row.
fn add_local(
    alloc: Global,
    text: &mut Vec<u8>,
    program: &Checked,
    row: &BitRow,
    cell: u32,
) -> Result<(), NoMemory>
    requires universe { universe_of row.now ≡ cell_count program.now }
    requires within { cell < cell_count program.now }
    ensures answer { OnOk result (text.new.items ≡ text.old.items ++ spec.local_text program.now row.now cell) }
{
    if !row.get(cell) {
        return Ok(());
    }
    let name = program.cell_name(alloc, cell)?;
    text.extend_from_slice(b" ")?;
    text.extend_from_slice(name.as_bytes())?;
    Ok(())
}
