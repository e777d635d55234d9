//! What the evaluator keeps of what is left to do.

use c_tree::{Exprs, Pieces, RArm, RAssign, RExpr, RPlace, RStmt};
use ckpt_base::Ending;
use sqlite_items::{Boxed, Items};

/// A loop: its condition, what comes before the next turn, and its body.
#[derive(Clone, Copy)]
pub struct Loop<'a> {
    /// Tested before each turn; a loop without it goes on.
    pub test: Option<&'a RExpr>,
    /// Done behind each turn.
    pub update: Option<&'a RAssign>,
    /// Done in each turn.
    pub body: &'a RStmt,
}

/// What waits for the answer of a call.
#[derive(Clone, Copy)]
pub enum Waits<'a> {
    /// A place, where there is one.
    Store(&'a Option<RPlace>),
    /// The end of the function that made the call.
    Return,
}

/// A function that made a call.
#[derive(Drop)]
pub struct Frame<'a> {
    /// What waits for the answer.
    pub waits: Waits<'a>,
    /// The words of its parameters and locals.
    pub locals: Items<u64>,
    /// How many more calls may be active beside it.
    pub allowed: u32,
}

/// A thing that is left to do.
#[derive(Drop)]
pub enum Item<'a> {
    /// A statement.
    One(&'a RStmt),
    /// The statements of a block that are still to come.
    Rest(&'a [RStmt]),
    /// The arms of an `if` that are still to be tested, and the last statement.
    Tests(&'a [RArm], &'a Option<Boxed<RStmt>>),
    /// The next turn of a loop.
    Turn(Loop<'a>),
    /// What is done behind the body of a loop.
    Again(Loop<'a>),
    /// The end of a call.
    Back(Frame<'a>),
}

/// What ends a turn or a call.
#[derive(Drop)]
pub enum End<'a> {
    /// The end of a loop's turn.
    Loop(Loop<'a>),
    /// The end of a call.
    Call(Frame<'a>),
}

/// A statement that is done at once.
#[derive(Clone, Copy)]
pub enum Single<'a> {
    /// Declares a variable.
    Declare(&'a RPlace, &'a Option<RExpr>),
    /// Stores a value.
    Set(&'a RPlace, &'a RExpr),
    /// Takes an input byte, and stores it where there is a place for it.
    Input(&'a Option<RPlace>),
    /// Writes the low 8 bits of a value.
    Put(&'a RExpr),
    /// Writes pieces, with the values for the numbers among them.
    Print(&'a Pieces, &'a Exprs),
    /// A checkpoint.
    Checkpoint,
    /// The k-th directive.
    Exclude(u16),
}

/// Something that takes a tick.
#[derive(Clone, Copy)]
pub enum Task<'a> {
    /// A statement that is done at once.
    Single(Single<'a>),
    /// A call of a function with some arguments.
    Call(Waits<'a>, u32, &'a Exprs),
    /// Ends the function with a value.
    Return(&'a RExpr),
    /// Ends the function with an input byte.
    ReturnInput,
    /// The test of an arm of an `if`, before other arms and the last statement.
    Choose(&'a RArm, &'a [RArm], &'a Option<Boxed<RStmt>>),
    /// The test of a loop.
    Turn(Loop<'a>),
}

/// What comes next.
pub enum Next<'a> {
    /// What is left to do.
    On,
    /// Something that takes a tick.
    Task(Task<'a>),
    /// Nothing: the run is over.
    Over(Ending),
}
