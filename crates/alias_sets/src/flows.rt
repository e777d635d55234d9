//! Where pointers flow: from an address or a variable into a variable.

ghost use Rattle.std.specs.Prelude.{◌≡◌};
ghost use Rattle.alias_sets.specs.Flows as spec;

use c_tree::{RExpr, RPlace};

/// What may hold a pointer.
#[derive(Clone, Copy, Debug, PartialEq, Eq, Hash)]
pub enum PointerVar {
    /// A cell of the program: a pointer of the file, or a local of `main`.
    Cell(u32),
    /// A parameter or a local of a function.
    Local {
        /// The function's number.
        function: u32,
        /// The number among its parameters and locals.
        index: u32,
    },
    /// The answer of a function.
    Answer(u32),
}

/// Where a value comes from that may be a pointer.
#[derive(Clone, Copy, Debug, PartialEq, Eq)]
pub enum Source {
    /// From nowhere: it is a number or null.
    Nothing,
    /// From the address of an object, which may have been moved.
    Object(u32),
    /// From a variable.
    Variable(PointerVar),
}

/// A declaration, an assignment, an argument, a returned value or a call's result: a value that goes into a variable.
#[derive(Clone, Copy, Debug, PartialEq, Eq)]
pub struct Flow {
    /// Where it goes.
    pub into: PointerVar,
    /// Where it comes from.
    pub from: Source,
}

/// Where the value of an expression comes from, in a function, or in `main` for none.
pub fn source_of(function: Option<u32>, expr: &RExpr) -> Source
    ensures answer { result ≡ spec.source function expr.now }
{
    match expr {
        RExpr::Object(object) => Source::Object(*object),
        RExpr::Cell(cell) => Source::Variable(PointerVar::Cell(*cell)),
        RExpr::Local(index) => local_source(function, *index),
        RExpr::Move(pointer, _, _) => source_of(function, pointer.get()),
        _ => Source::Nothing,
    }
}

/// A local of a function as a source.
fn local_source(function: Option<u32>, index: u32) -> Source
    ensures answer { result ≡ spec.variable_source (spec.local_of function index) }
{
    match function {
        None => Source::Nothing,
        Some(function) => Source::Variable(PointerVar::Local { function, index }),
    }
}

/// The variable that a place is, where it is one by itself.
pub fn variable_of(function: Option<u32>, place: &RPlace) -> Option<PointerVar>
    ensures answer { result ≡ spec.variable function place.now }
{
    match place {
        RPlace::Cell(cell) => Some(PointerVar::Cell(*cell)),
        RPlace::Local(index) => match function {
            None => None,
            Some(function) => Some(PointerVar::Local {
                function,
                index: *index,
            }),
        },
        RPlace::At(_) => None,
    }
}

/// The answer of the function that a statement stands in; that of `main` is a number.
pub fn answer_of(function: Option<u32>) -> Option<PointerVar>
    ensures answer { result ≡ spec.answer_of function }
{
    match function {
        None => None,
        Some(function) => Some(PointerVar::Answer(function)),
    }
}
