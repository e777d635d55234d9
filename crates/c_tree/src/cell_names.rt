//! The names of cells.

ghost use Rattle.std.specs.Prelude.{◌≡◌, ◌<◌, ◌≤◌, ◌^◌, IfOk, length, slice_get};
ghost use Rattle.std.specs.String.{string_bytes};
ghost use Rattle.std.specs.Fmt.{decimal};
ghost use Rattle.c_tree.specs.CellNames as spec;

use crate::resolved::{ObjectKind, RLocal};
use ckpt_base::{NoMemory, Text};
use std::alloc::{AllocError, Global};

/// The decimal digits of a number.
fn digits(alloc: Global, number: u64) -> Result<String, AllocError>
    ensures answer { IfOk result (λ s. string_bytes s ≡ decimal number) }
{
    format!(in alloc; "{number}")
}

/// `a[3]` for place 3 of an array, else the object's name.
pub fn element_name(
    alloc: Global,
    kind: ObjectKind,
    name: &Text,
    place: u32,
) -> Result<Text, NoMemory>
    ensures answer { IfOk result (λ t. t ≡ spec.element_name kind name.now place) }
{
    match kind {
        ObjectKind::Array => array_name(alloc, name, place),
        ObjectKind::Number => name.copy(alloc),
        ObjectKind::Pointer => name.copy(alloc),
    }
}

fn array_name(alloc: Global, name: &Text, place: u32) -> Result<Text, NoMemory>
    ensures answer { IfOk result (λ t. t ≡ spec.element_name ObjectKind.Array name.now place) }
{
    let mut bytes = Vec::from_slice(alloc, name.as_bytes())?;
    let place = digits(alloc, place as u64)?;
    bytes.extend_from_slice(b"[")?;
    bytes.extend_from_slice(place.as_bytes())?;
    bytes.extend_from_slice(b"]")?;
    Text::of_bytes(alloc, &bytes)
}

/// How many of some locals have the name.
fn same_named(locals: &[RLocal], name: &Text) -> usize
    ensures answer { result ≡ spec.same_named locals.now name.now }
{
    locals.iter().filter(|local| local.name == *name).count()
}

/// `#2` for the second of a name, and nothing for the first.
fn mark(alloc: Global, which: u64) -> Result<Vec<u8>, NoMemory>
    ensures answer { IfOk result (λ v. v.items ≡ spec.mark which) }
{
    if which == 1 {
        return Ok(Vec::new(alloc));
    }
    let mut bytes = Vec::from_slice(alloc, b"#")?;
    let which = digits(alloc, which)?;
    bytes.extend_from_slice(which.as_bytes())?;
    Ok(bytes)
}

/// `main.i`, and `main.i#2` for the second of that name.
fn marked_name(alloc: Global, name: &Text, which: u64) -> Result<Text, NoMemory>
    ensures answer { IfOk result (λ t. t ≡ spec.marked_name name.now which) }
{
    let mut bytes = Vec::from_slice(alloc, b"main.")?;
    let mark = mark(alloc, which)?;
    bytes.extend_from_slice(name.as_bytes())?;
    bytes.extend_from_slice(&mark)?;
    Text::of_bytes(alloc, &bytes)
}

/// The name of the local of `main` of a number.
pub fn local_name(alloc: Global, locals: &[RLocal], number: usize) -> Result<Text, NoMemory>
    requires within { number < length locals.now }
    requires few { length locals.now < 2 ^ 32 }
    ensures answer { IfOk result (λ t. t ≡ spec.local_name locals.now number (slice_get locals.now number)) }
{
    let name = &locals[number].name;
    let which = same_named(&locals[..number], name) as u64 + 1;
    marked_name(alloc, name, which)
}
