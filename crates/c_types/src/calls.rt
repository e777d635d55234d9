//! Calls: their counts, their arguments and the type of their answers.
#![tactic(auto)]

ghost use Rattle.std.specs.Prelude.{◌≡◌, ℕ, Some, true, IfOk};
ghost use Rattle.c_types.specs.File as files;
ghost use Rattle.c_tree.specs.Kinds.{World, answer_of, call_kind};
ghost use Rattle.c_types.specs.Places as spec;
ghost use Rattle.c_types.specs.Places.{Gets};
ghost use Rattle.c_types.specs.Fitting.{Fits, seen, is_wanted};

use crate::fault::CheckFault;
use crate::file::{FileNames, Signature};
use crate::places::args;
use crate::scope::Scope;
use crate::types::Frame;
use c_tree::{Callee, Expr, RExpr};
use ckpt_base::Text;
use sqlite_items::Items;
use std::alloc::Global;

/// The number of a function; `main` has none.
pub fn number_of(file: &FileNames, callee: &Callee) -> Option<u32>
    ensures answer { result ≡ spec.number_of file.now callee.now }
{
    match callee {
        Callee::Main => None,
        Callee::Name(name) => file.function(&name.text),
    }
}

fn count_by(line: u32, parameters: usize, es: &[Expr]) -> Result<(), CheckFault>
    ensures gets { Gets (spec.count_by line parameters es.now) result }
{
    if es.len() == parameters {
        Ok(())
    } else {
        Err(CheckFault::WrongCount(line))
    }
}

fn count_named(file: &FileNames, line: u32, name: &Text, es: &[Expr]) -> Result<(), CheckFault>
    ensures gets { Gets (spec.count_of line (spec.named_signature file.now name.now) es.now) result }
{
    let Some(number) = file.function(name) else {
        return Err(CheckFault::WrongType(line));
    };
    match file.signature(number) {
        None => Err(CheckFault::WrongType(line)),
        Some(signature) => count_by(line, signature.parameters.len(), es),
    }
}

/// A call has a value for each parameter.
pub fn count_of(file: &FileNames, line: u32, callee: &Callee, es: &[Expr]) -> Result<(), CheckFault>
    ensures gets { Gets (spec.count_of line (spec.signature_of file.now callee.now) es.now) result }
{
    match callee {
        Callee::Main => count_by(line, 0, es),
        Callee::Name(name) => count_named(file, line, &name.text, es),
    }
}

/// Whether an answer of a type is wanted.
fn accepts(wanted: Option<bool>, gives_pointer: bool) -> bool
    ensures answer { result ≡ spec.accepts wanted gives_pointer }
    ensures kept { result ≡ true → is_wanted wanted (Some gives_pointer) ≡ true }
{
    match wanted {
        None => true,
        Some(true) => gives_pointer,
        Some(false) => !gives_pointer,
    }
}

fn call_by(
    alloc: Global,
    file: &FileNames,
    frame: Frame,
    scope: &Scope,
    line: u32,
    signature: &Signature,
    es: &[Expr],
    wanted: Option<bool>,
) -> Result<Items<RExpr>, CheckFault>
    ensures gets { Gets (spec.call_by file.now frame scope.now line (Some signature.now) es.now wanted) result }
    ensures kept { (w : World) → Fits w file.now frame scope.now.locals → IfOk result (λ as'. is_wanted wanted (answer_of w (Some (seen signature.now)) as') ≡ true) }
{
    let parameters = signature.parameters.as_slice();
    if es.len() != parameters.len() {
        return Err(CheckFault::WrongCount(line));
    }
    let values = args(alloc, file, frame, scope, line, parameters, es)?;
    if accepts(wanted, signature.gives_pointer) {
        Ok(values)
    } else {
        Err(CheckFault::WrongType(line))
    }
}

fn call_named(
    alloc: Global,
    file: &FileNames,
    frame: Frame,
    scope: &Scope,
    line: u32,
    name: &Text,
    es: &[Expr],
    wanted: Option<bool>,
) -> Result<Items<RExpr>, CheckFault>
    ensures gets { Gets (spec.call_by file.now frame scope.now line (spec.named_signature file.now name.now) es.now wanted) result }
    ensures kept { (w : World) (g : ℕ) → Fits w file.now frame scope.now.locals → files.function file.now name.now ≡ Some g → IfOk result (λ as'. is_wanted wanted (call_kind w g as') ≡ true) }
{
    let Some(number) = file.function(name) else {
        return Err(CheckFault::WrongType(line));
    };
    match file.signature(number) {
        None => Err(CheckFault::WrongType(line)),
        Some(f) => call_by(alloc, file, frame, scope, line, f, es, wanted),
    }
}

/// `main` takes nothing and answers a number.
fn call_main(
    alloc: Global,
    line: u32,
    es: &[Expr],
    wanted: Option<bool>,
) -> Result<Items<RExpr>, CheckFault>
    ensures gets { Gets (spec.call_main line es.now wanted) result }
{
    count_by(line, 0, es)?;
    if accepts(wanted, false) {
        Ok(Items::new(alloc))
    } else {
        Err(CheckFault::WrongType(line))
    }
}

/// The arguments of a call whose answer is wanted.
pub fn call(
    alloc: Global,
    file: &FileNames,
    frame: Frame,
    scope: &Scope,
    line: u32,
    callee: &Callee,
    es: &[Expr],
    wanted: Option<bool>,
) -> Result<Items<RExpr>, CheckFault>
    ensures gets { Gets (spec.call file.now frame scope.now line callee.now es.now wanted) result }
    ensures kept { (w : World) (g : ℕ) → Fits w file.now frame scope.now.locals → spec.number_of file.now callee.now ≡ Some g → IfOk result (λ as'. is_wanted wanted (call_kind w g as') ≡ true) }
{
    match callee {
        Callee::Main => call_main(alloc, line, es, wanted),
        Callee::Name(name) => {
            call_named(alloc, file, frame, scope, line, &name.text, es, wanted)
        }
    }
}
