//! Numbers for the variables of a text.

ghost use Rattle.std.specs.Prelude.{◌≡◌, ◌≢◌, ◌<◌, ℕ, List, [], IfOk, OnOk, IfSome, None, Some, length, slice_get};
ghost use Rattle.alias_sets.specs.Numbers.{IsNumber, IsNumbered, AreApart, Keeps, AllNumbered, FlowNumbered, SourceNumbered};

use crate::flows::{Flow, PointerVar, Source};
use ckpt_base::NoMemory;
use indexmap::IndexSet;
use std::alloc::{AllocError, Global};

/// The number of a variable, where it has one.
pub fn number_of(variables: &IndexSet<PointerVar>, variable: PointerVar) -> Option<usize>
    ensures answer { IfSome result (λ n. IsNumber variables.now.keys variable n) }
    ensures none { result ≡ None → (n : ℕ) → IsNumber variables.now.keys variable n → ⊥ }
{
    variables.get_index_of(&variable)
}

/// Gives a variable a number, where it has none.
fn number(variables: &mut IndexSet<PointerVar>, variable: PointerVar) -> Result<(), NoMemory>
    ensures answer { OnOk result (IsNumbered variables.new.keys variable) }
    ensures kept { OnOk result (Keeps variables.old.keys variables.new.keys) }
    ensures apart { OnOk result (AreApart variables.new.keys) }
{
    match variables.insert(variable) {
        Ok(_) => Ok(()),
        Err(_) => Err(NoMemory),
    }
}

/// Gives the source of a flow a number, where it is a variable that has none.
fn number_source(variables: &mut IndexSet<PointerVar>, source: Source) -> Result<(), NoMemory>
    requires apart { AreApart variables.old.keys }
    ensures answer { OnOk result (SourceNumbered variables.new.keys source) }
    ensures kept { OnOk result (Keeps variables.old.keys variables.new.keys) }
    ensures apart { OnOk result (AreApart variables.new.keys) }
{
    match source {
        Source::Variable(variable) => number(variables, variable),
        _ => Ok(()),
    }
}

/// Gives the variables of a flow numbers, where they have none.
fn number_flow(variables: &mut IndexSet<PointerVar>, flow: Flow) -> Result<(), NoMemory>
    ensures answer { OnOk result (FlowNumbered variables.new.keys flow) }
    ensures kept { OnOk result (Keeps variables.old.keys variables.new.keys) }
    ensures apart { OnOk result (AreApart variables.new.keys) }
{
    number(variables, flow.into)?;
    number_source(variables, flow.from)
}

/// Gives each variable of the flows a number of its own.
pub fn variables_of(alloc: Global, flows: &[Flow]) -> Result<IndexSet<PointerVar>, NoMemory>
    ensures answer { IfOk result (λ variables. AllNumbered variables.keys flows.now) }
    ensures apart { IfOk result (λ variables. AreApart variables.keys) }
{
    let mut variables = IndexSet::new(alloc);
    'flows: for flow in flows {
        number_flow(&mut variables, *flow)?;
    }
    Ok(variables)
}
