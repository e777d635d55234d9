//! The first pass, over the file: each name is made once, and there is a `main`.
#![tactic(auto, using(crate::proofs::Faulty::front, crate::proofs::Faulty::behind))]

ghost use Rattle.std.specs.Prelude.{◌≡◌, IfOk, OnOk, map};
ghost use Rattle.std.specs.List.{list_any};
ghost use Rattle.c_types.specs.Names as naming;
ghost use Rattle.c_types.specs.Names.{Passes};
ghost use Rattle.c_types.specs.FileNames as spec;
ghost use Rattle.c_types.specs.File as files;
ghost use Rattle.c_types.specs.Faults.{Finds};

use crate::fault::CheckFault;
use crate::file::{FileNames, Meaning, Signature};
use crate::known::Known;
use crate::named_statements::{fresh, stmts};
use crate::names::{once, so_far};
use crate::scope::Scope;
use c_tree::{
    Constant, Function, Item, Length, Name, ObjectDecl, ObjectForm, ObjectKind, Parameter, Stmt,
};
use ckpt_base::{NoMemory, Text};
use sqlite_items::Items;
use std::alloc::{AllocError, Global};

fn is_constant(meaning: Option<Meaning>) -> bool
    ensures answer { result ≡ files.is_constant meaning }
{
    match meaning {
        Some(Meaning::Constant(_)) => true,
        _ => false,
    }
}

/// The value of a constant.
fn constant_value(meaning: Option<Meaning>) -> i64
    ensures answer { result ≡ spec.constant_value meaning }
{
    match meaning {
        Some(Meaning::Constant(value)) => value,
        _ => 0,
    }
}

fn length_value(file: &FileNames, length: &Length) -> i64
    ensures answer { result ≡ spec.length_value file.now length.now }
{
    match length {
        Length::Num(value) => *value,
        Length::Name(name) => constant_value(file.global(&name.text)),
    }
}

fn form_kind(form: &ObjectForm) -> ObjectKind
    ensures answer { result ≡ spec.form_kind form.now }
{
    match form {
        ObjectForm::Number => ObjectKind::Number,
        ObjectForm::Started(_, _) => ObjectKind::Number,
        ObjectForm::Array(_) => ObjectKind::Array,
        ObjectForm::Pointer => ObjectKind::Pointer,
    }
}

/// A length below 0 counts no cells.
fn cells_of(length: i64) -> u64
    ensures answer { result ≡ spec.cells_of length }
{
    if length < 0 { 0 } else { length as u64 }
}

/// How many cells an object of the file is to have; none where its length is below 0.
pub fn form_length(file: &FileNames, form: &ObjectForm) -> u64
    ensures answer { result ≡ spec.form_length file.now form.now }
{
    match form {
        ObjectForm::Array(length) => cells_of(length_value(file, length)),
        _ => 1,
    }
}

/// How many cells an object of the file has. An array of none is refused by its type, and has one until then.
fn form_cells(file: &FileNames, form: &ObjectForm) -> u64
    ensures answer { result ≡ spec.form_cells file.now form.now }
{
    form_length(file, form).max(1)
}

fn negated_if(minus: bool, number: i64) -> i64
    ensures answer { result ≡ spec.negated_if minus number }
{
    if minus { number.wrapping_neg() } else { number }
}

fn form_first(file: &FileNames, form: &ObjectForm) -> i64
    ensures answer { result ≡ spec.form_first file.now form.now }
{
    match form {
        ObjectForm::Started(minus, number) => negated_if(*minus, length_value(file, number)),
        _ => 0,
    }
}

/// The name of a length is a constant's.
#[tactic(auto, using(crate::proofs::Faulty::front, crate::proofs::Faulty::behind), unfolding(crate::specs::FileNames::constant_named))]
fn constant_named(
    alloc: Global,
    constants: &[Constant],
    known: &mut Known,
    name: &Name,
) -> Result<(), CheckFault>
    ensures passes { Passes (spec.constant_named constants.now name.now) known.old known.new result }
{
    so_far(alloc, constants, known, name.constants)?;
    if !is_constant(known.file.global(&name.text)) {
        return Err(CheckFault::Unknown(name.text.copy(alloc)?));
    }
    Ok(())
}

fn length(
    alloc: Global,
    constants: &[Constant],
    known: &mut Known,
    length: &Length,
) -> Result<(), CheckFault>
    ensures passes { Passes (spec.length_step constants.now length.now) known.old known.new result }
{
    match length {
        Length::Num(_) => Ok(()),
        Length::Name(name) => constant_named(alloc, constants, known, name),
    }
}

fn form(
    alloc: Global,
    constants: &[Constant],
    known: &mut Known,
    form: &ObjectForm,
) -> Result<(), CheckFault>
    ensures passes { Passes (spec.form_step constants.now form.now) known.old known.new result }
{
    match form {
        ObjectForm::Number => Ok(()),
        ObjectForm::Started(_, first) => length(alloc, constants, known, first),
        ObjectForm::Array(cells) => length(alloc, constants, known, cells),
        ObjectForm::Pointer => Ok(()),
    }
}

/// A name of the file that was not made before.
#[tactic(auto, using(crate::proofs::Faulty::front, crate::proofs::Faulty::behind), unfolding(crate::specs::FileNames::made_once))]
fn made_once(
    alloc: Global,
    constants: &[Constant],
    known: &mut Known,
    before: u32,
    name: &Text,
) -> Result<(), CheckFault>
    ensures passes { Passes (spec.made_once constants.now before name.now) known.old known.new result }
{
    so_far(alloc, constants, known, before)?;
    once(alloc, known, name)
}

/// Puts a declared object behind the others.
fn add_decl(alloc: Global, file: &mut FileNames, decl: &ObjectDecl) -> Result<(), NoMemory>
    ensures answer { OnOk result (file.new ≡ spec.with_decl file.old decl.now) }
{
    let kind = form_kind(&decl.form);
    let length = form_cells(file, &decl.form);
    let first = form_first(file, &decl.form);
    file.add_object(alloc, &decl.name.text, kind, length, first)
}

#[tactic(auto, using(crate::proofs::Faulty::front, crate::proofs::Faulty::behind), unfolding(crate::specs::FileNames::object))]
fn object(
    alloc: Global,
    constants: &[Constant],
    known: &mut Known,
    decl: &ObjectDecl,
) -> Result<(), CheckFault>
    ensures passes { Passes (spec.object constants.now decl.now) known.old known.new result }
{
    made_once(
        alloc,
        constants,
        known,
        decl.name.constants,
        &decl.name.text,
    )?;
    form(alloc, constants, known, &decl.form)?;
    add_decl(alloc, &mut known.file, decl)?;
    Ok(())
}

fn objects(
    alloc: Global,
    constants: &[Constant],
    known: &mut Known,
    decls: &[ObjectDecl],
) -> Result<(), CheckFault>
    ensures passes { Passes (naming.all (map (spec.object constants.now) decls.now)) known.old known.new result }
{
    for d in decls {
        object(alloc, constants, known, d)?;
    }
    Ok(())
}

fn parameter(
    alloc: Global,
    constants: &[Constant],
    known: &mut Known,
    parameter: &Parameter,
) -> Result<(), CheckFault>
    ensures passes { Passes (spec.parameter constants.now parameter.now) known.old known.new result }
{
    fresh(alloc, constants, known, &parameter.name)?;
    known
        .scope
        .declare(alloc, &parameter.name.text, parameter.is_pointer)?;
    Ok(())
}

fn parameters(
    alloc: Global,
    constants: &[Constant],
    known: &mut Known,
    parameters: &[Parameter],
) -> Result<(), CheckFault>
    ensures passes { Passes (naming.all (map (spec.parameter constants.now) parameters.now)) known.old known.new result }
{
    for p in parameters {
        parameter(alloc, constants, known, p)?;
    }
    Ok(())
}

/// The name of a function; what is then known is what is known where it begins.
#[tactic(auto, using(crate::proofs::Faulty::front, crate::proofs::Faulty::behind), unfolding(crate::specs::FileNames::function_named))]
fn function_named(
    alloc: Global,
    constants: &[Constant],
    known: &mut Known,
    before: u32,
    name: &Text,
) -> Result<(), CheckFault>
    ensures passes { Passes (spec.function_named constants.now before name.now) known.old known.new result }
{
    made_once(alloc, constants, known, before, name)?;
    known.file.add_name(alloc, name, Meaning::Function)?;
    known.scope = Scope::entry(alloc);
    Ok(())
}

/// The parameters of a function, and then its body.
#[tactic(auto, using(crate::proofs::Faulty::front, crate::proofs::Faulty::behind), unfolding(crate::specs::FileNames::within))]
fn within(
    alloc: Global,
    constants: &[Constant],
    known: &mut Known,
    before: &[Parameter],
    body: &[Stmt],
) -> Result<(), CheckFault>
    ensures passes { Passes (spec.within constants.now before.now body.now) known.old known.new result }
{
    parameters(alloc, constants, known, before)?;
    stmts(alloc, constants, known, body)
}

fn function(
    alloc: Global,
    constants: &[Constant],
    known: &mut Known,
    function: &Function,
) -> Result<(), CheckFault>
    ensures passes { Passes (spec.function_step constants.now function.now) known.old known.new result }
{
    function_named(
        alloc,
        constants,
        known,
        function.name.constants,
        &function.name.text,
    )?;
    within(
        alloc,
        constants,
        known,
        function.parameters.as_slice(),
        function.body.as_slice(),
    )?;
    Ok(())
}

/// The name of `main`.
fn main_named(
    alloc: Global,
    constants: &[Constant],
    known: &mut Known,
    before: u32,
) -> Result<(), CheckFault>
    ensures passes { Passes (spec.function_named constants.now before spec.main_name) known.old known.new result }
{
    let name = Text::of_bytes(alloc, b"main")?;
    function_named(alloc, constants, known, before, &name)
}

fn item(
    alloc: Global,
    constants: &[Constant],
    known: &mut Known,
    item: &Item,
) -> Result<(), CheckFault>
    ensures passes { Passes (spec.item_step constants.now item.now) known.old known.new result }
{
    match item {
        Item::Objects(_, decls) => objects(alloc, constants, known, decls.as_slice()),
        Item::Prototype => Ok(()),
        Item::Function(f) => function(alloc, constants, known, f),
        Item::Main(before, body) => {
            main_named(alloc, constants, known, *before)?;
            stmts(alloc, constants, known, body.as_slice())
        }
    }
}

fn each_item(
    alloc: Global,
    constants: &[Constant],
    known: &mut Known,
    items: &[Item],
) -> Result<(), CheckFault>
    ensures passes { Passes (naming.all (map (spec.item_step constants.now) items.now)) known.old known.new result }
{
    for i in items {
        item(alloc, constants, known, i)?;
    }
    Ok(())
}

fn is_main(item: &Item) -> bool
    ensures answer { result ≡ spec.is_main item.now }
{
    match item {
        Item::Main(_, _) => true,
        _ => false,
    }
}

fn has_main(items: &[Item]) -> bool
    ensures answer { result ≡ list_any spec.is_main items.now }
{
    items.iter().any(|i| is_main(i))
}

/// The first pass, from where the functions of the file are known.
pub fn items(
    alloc: Global,
    constants: &[Constant],
    known: &mut Known,
    items: &[Item],
) -> Result<(), CheckFault>
    ensures passes { Passes (spec.items_step constants.now items.now) known.old known.new result }
{
    each_item(alloc, constants, known, items)?;
    let end = constants.len();
    if end >= u32::MAX as usize {
        return Err(CheckFault::Memory);
    }
    so_far(alloc, constants, known, end as u32)?;
    if !has_main(items) {
        return Err(CheckFault::NoMain);
    }
    Ok(())
}

fn signature(alloc: Global, function: &Function) -> Result<Signature, AllocError>
    ensures answer { IfOk result (λ s. s ≡ spec.signature function.now) }
{
    let mut parameters = Items::new(alloc);
    for p in function.parameters.as_slice() {
        parameters.push(p.is_pointer)?;
    }
    Ok(Signature {
        parameters,
        gives_pointer: function.gives_pointer,
    })
}

/// Makes the functions known, which they are in the whole file.
pub fn add_functions(alloc: Global, file: &mut FileNames, items: &[Item]) -> Result<(), NoMemory>
    ensures answer { OnOk result (file.new ≡ spec.with_functions file.old 0 items.now) }
{
    let mut number = 0;
    for i in items {
        if let Item::Function(f) = i {
            file.add_function(alloc, &f.name.text, number)?;
            if number == u32::MAX {
                return Err(NoMemory);
            }
            number += 1;
        }
    }
    Ok(())
}

/// What the functions take and answer, in order.
pub fn signatures(alloc: Global, items: &[Item]) -> Result<Items<Signature>, AllocError>
    ensures answer { IfOk result (λ ss. ss ≡ spec.signatures_of items.now) }
{
    let mut done = Items::new(alloc);
    for i in items {
        if let Item::Function(f) = i {
            done.push(signature(alloc, f)?)?;
        }
    }
    Ok(done)
}
