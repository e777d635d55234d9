//! The check of a program.
#![tactic(auto, using(crate::proofs::Passing::passes_none, crate::proofs::Passing::passes_first))]

ghost use Rattle.std.specs.Prelude.{◌≡◌, false, Ok, Err, IfOk, IfErr, map};
ghost use Rattle.c_types.specs.Faults.{is_memory};
ghost use Rattle.c_types.specs.Places.{Gets};
ghost use Rattle.c_types.specs.Fitting.{seen};
ghost use Rattle.c_types.specs.BodiesKept.{BodiesKept};
ghost use Rattle.c_types.specs.FileNames as names;
ghost use Rattle.c_types.specs.Check as spec;
ghost use Rattle.c_types.specs.Check.{checked};

use crate::bodies::{Bodies, all_bodies};
use crate::directives::directives;
use crate::fault::CheckFault;
use crate::file::FileNames;
use crate::known::Known;
use crate::limits::{functions_fit, limits, resolved_objects};
use crate::named_items;
use crate::scope::Scope;
use c_tree::{Checked, Constant, Item, Program, Resolved};
use std::alloc::Global;

/// Answers the resolved tree of a program that keeps the rules of the language, else the first fault of the first pass
/// that finds one: names; types; directives; limits. After a fault the program is spent.
///
/// `Memory` comes where no memory is found, or a number of a tree made by hand does not fit 32 bits.
pub fn check(alloc: Global, program: Program) -> Result<Checked, CheckFault>
    ensures answer { IfOk result (λ c. checked program ≡ Ok c) }
    ensures err { IfErr result (λ f. is_memory f ≡ false → checked program ≡ Err f) }
{
    let items = program.items.as_slice();
    let file = named(alloc, program.constants.as_slice(), items)?;
    resolved(alloc, &file, items)
}

/// The first pass: what is known at the end of the text.
fn named(alloc: Global, constants: &[Constant], items: &[Item]) -> Result<FileNames, CheckFault>
    ensures gets { Gets (spec.named constants.now items.now) result }
    ensures signatures { IfOk result (λ f. f.signatures ≡ names.signatures_of items.now) }
{
    let mut known = Known {
        file: FileNames::new(alloc),
        scope: Scope::entry(alloc),
    };
    named_items::add_functions(alloc, &mut known.file, items)?;
    named_items::items(alloc, constants, &mut known, items)?;
    let signatures = named_items::signatures(alloc, items)?;
    let mut file = known.file;
    file.set_signatures(signatures);
    Ok(file)
}

/// The other passes.
fn resolved(alloc: Global, file: &FileNames, items: &[Item]) -> Result<Checked, CheckFault>
    requires signatures { file.now.signatures ≡ names.signatures_of items.now }
    ensures gets { Gets (spec.resolved file.now items.now) result }
{
    let made = all_bodies(alloc, file, items)?;
    directives(items)?;
    limited(alloc, file, made)
}

/// The last pass, and the tree.
fn limited(alloc: Global, file: &FileNames, made: Bodies) -> Result<Checked, CheckFault>
    requires kept { BodiesKept file.now (map seen file.now.signatures) made }
    ensures gets { Gets (spec.limited file.now made made.main) result }
{
    let Bodies {
        functions,
        main,
        crowded,
    } = made;
    let Some(main) = main else {
        return Err(CheckFault::NoMain);
    };
    limits(alloc, file, &crowded, main.get())?;
    functions_fit(functions.as_slice())?;
    let objects = resolved_objects(alloc, file.objects())?;
    let main = main.into_inner();
    Ok(Checked::of(Resolved {
        objects,
        functions,
        main: main.function,
    }))
}
