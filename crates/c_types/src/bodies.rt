//! The second pass, over the file: functions with their bodies, `main`, and the lengths of arrays.
#![tactic(auto)]

ghost use Rattle.std.specs.Prelude.{◌≡◌, ◌<◌, ◌^◌, ◌∷◌, [], ◌++◌, List, false, IfOk, OnOk, length, map};
ghost use Rattle.std.specs.List.{list_all, concat};
ghost use Rattle.c_tree.specs.Kinds.{Signature, keeps_rules};
ghost use Rattle.c_tree.specs.Excludes.{excludes};
ghost use Rattle.c_types.specs.Kept.{Kept, marks};
ghost use Rattle.c_types.specs.Statements.{Answers};
ghost use Rattle.c_types.specs.Places.{Gets};
ghost use Rattle.c_types.specs.Bodies as spec;
ghost use Rattle.c_types.specs.BodiesKept.{BodiesKept, Leaves};
ghost use Rattle.c_types.specs.FileNames as names;
ghost use Rattle.c_types.specs.Fitting.{seen};

use crate::fault::CheckFault;
use crate::file::{FileNames, cell_number};
use crate::named_items::form_length;
use crate::scope::Scope;
use crate::statements::stmts;
use crate::types::Frame;
use c_tree::{Function, Item, MAX_LOCALS, ObjectDecl, Parameter, RFunction, RStmt, Stmt};
use ckpt_base::{NoMemory, Text};
use sqlite_items::{Boxed, Items};
use std::alloc::Global;

/// The resolved `main`.
#[derive(Drop)]
pub struct MainBody {
    /// The function.
    pub function: RFunction,
    /// How many EXCLUDE_HERE it has.
    pub excludes: u32,
}

/// What the items of a file became so far.
#[derive(Drop)]
pub struct Bodies {
    /// The functions but `main`, in order.
    pub functions: Items<RFunction>,
    /// `main`.
    pub main: Option<Boxed<MainBody>>,
    /// The first function that has more than `MAX_LOCALS` parameters and locals.
    pub crowded: Option<Text>,
}

/// Declares the parameters of a function.
fn declare_parameters(
    alloc: Global,
    scope: &mut Scope,
    parameters: &[Parameter],
) -> Result<(), NoMemory>
    ensures answer { OnOk result (scope.new ≡ spec.with_parameters scope.old parameters.now) }
{
    for p in parameters {
        scope.declare(alloc, &p.name.text, p.is_pointer)?;
    }
    Ok(())
}

/// Notes the first function that has too many parameters and locals.
fn note_crowded(
    alloc: Global,
    crowded: &mut Option<Text>,
    name: &Text,
    locals: usize,
) -> Result<(), NoMemory>
    ensures answer { OnOk result (crowded.new ≡ spec.crowded_with crowded.old name.now locals) }
{
    match crowded {
        Some(_) => Ok(()),
        None => {
            if locals > MAX_LOCALS {
                *crowded = Some(name.copy(alloc)?);
            }
            Ok(())
        }
    }
}

/// The statements of a body.
#[tactic(auto, unfolding(crate::specs::Bodies::body))]
fn body(
    alloc: Global,
    file: &FileNames,
    frame: Frame,
    scope: &mut Scope,
    statements: &[Stmt],
) -> Result<Items<RStmt>, CheckFault>
    ensures gives { Answers (spec.body file.now frame statements.now) scope.old scope.new result }
    ensures kept { IfOk result (λ rs. Kept file.now frame (marks scope.old) (marks scope.new) (λ w. list_all (λ r. keeps_rules w r false) rs) (concat (map excludes rs))) }
{
    stmts(alloc, file, frame, false, scope, statements)
}

/// Puts a function behind the others, by its statements and what is known at its end.
fn push_function(
    alloc: Global,
    done: &mut Bodies,
    f: &Function,
    scope: Scope,
    body: Items<RStmt>,
) -> Result<(), NoMemory>
    requires fits { length f.now.parameters < 2 ^ 32 }
    ensures answer { OnOk result (done.new ≡ spec.with_function done.old (spec.made f.now.name.text f.now.gives_pointer (length f.now.parameters) body scope)) }
{
    let name = f.name.text.copy(alloc)?;
    note_crowded(alloc, &mut done.crowded, &f.name.text, scope.locals().len())?;
    done.functions.push(RFunction {
        name,
        gives_pointer: f.gives_pointer,
        parameters: f.parameters.len() as u32,
        locals: scope.into_locals(),
        body: RStmt::Block(body),
    })?;
    Ok(())
}

/// A function, behind the others.
fn add_function(
    alloc: Global,
    file: &FileNames,
    done: &mut Bodies,
    f: &Function,
) -> Result<(), CheckFault>
    ensures gives { Leaves (spec.function_after file.now done.old f.now) done.new result }
    ensures kept { (ss : List Signature) → OnOk result (BodiesKept file.now ss done.old → BodiesKept file.now (ss ++ seen (names.signature f.now) ∷ []) done.new) }
{
    if f.parameters.len() >= u32::MAX as usize {
        return Err(CheckFault::Memory);
    }
    let mut scope = Scope::entry(alloc);
    declare_parameters(alloc, &mut scope, f.parameters.as_slice())?;
    let frame = Frame {
        gives_pointer: f.gives_pointer,
        first_cell: None,
    };
    let resolved = body(alloc, file, frame, &mut scope, f.body.as_slice())?;
    push_function(alloc, done, f, scope, resolved)?;
    Ok(())
}

/// Makes `main`, by its statements and what is known at its end.
fn push_main(
    alloc: Global,
    done: &mut Bodies,
    scope: Scope,
    body: Items<RStmt>,
) -> Result<(), NoMemory>
    ensures answer { OnOk result (done.new ≡ spec.with_main done.old (spec.made_main body scope)) }
{
    let name = Text::of_bytes(alloc, b"main")?;
    note_crowded(alloc, &mut done.crowded, &name, scope.locals().len())?;
    let excludes = scope.excludes();
    let function = RFunction {
        name,
        gives_pointer: false,
        parameters: 0,
        locals: scope.into_locals(),
        body: RStmt::Block(body),
    };
    let main = Boxed::new(alloc, MainBody { function, excludes })?;
    done.main = Some(main);
    Ok(())
}

/// `main`.
fn add_main(
    alloc: Global,
    file: &FileNames,
    done: &mut Bodies,
    statements: &[Stmt],
) -> Result<(), CheckFault>
    ensures gives { Leaves (spec.main_after file.now done.old statements.now) done.new result }
    ensures kept { (ss : List Signature) → OnOk result (BodiesKept file.now ss done.old → BodiesKept file.now ss done.new) }
{
    let frame = Frame {
        gives_pointer: false,
        first_cell: Some(cell_number(file.cells())),
    };
    let mut scope = Scope::entry(alloc);
    let resolved = body(alloc, file, frame, &mut scope, statements)?;
    push_main(alloc, done, scope, resolved)?;
    Ok(())
}

/// Arrays have one element or more.
fn objects(file: &FileNames, line: u32, decls: &[ObjectDecl]) -> Result<(), CheckFault>
    ensures gets { Gets (spec.objects file.now line decls.now) result }
{
    for d in decls {
        if form_length(file, &d.form) < 1 {
            return Err(CheckFault::WrongType(line));
        }
    }
    Ok(())
}

fn item(alloc: Global, file: &FileNames, done: &mut Bodies, item: &Item) -> Result<(), CheckFault>
    ensures gives { Leaves (spec.item_after file.now done.old item.now) done.new result }
    ensures kept { (ss : List Signature) → OnOk result (BodiesKept file.now ss done.old → BodiesKept file.now (ss ++ map seen (names.signatures_of (item.now ∷ []))) done.new) }
{
    match item {
        Item::Objects(line, decls) => objects(file, *line, decls.as_slice()),
        Item::Prototype => Ok(()),
        Item::Function(f) => add_function(alloc, file, done, f),
        Item::Main(_, body) => add_main(alloc, file, done, body.as_slice()),
    }
}

/// The second pass.
pub fn all_bodies(alloc: Global, file: &FileNames, items: &[Item]) -> Result<Bodies, CheckFault>
    ensures gets { Gets (spec.items file.now spec.no_bodies items.now) result }
    ensures kept { IfOk result (λ b. BodiesKept file.now (map seen (names.signatures_of items.now)) b) }
{
    let mut done = Bodies {
        functions: Items::new(alloc),
        main: None,
        crowded: None,
    };
    for i in items {
        item(alloc, file, &mut done, i)?;
    }
    Ok(done)
}
