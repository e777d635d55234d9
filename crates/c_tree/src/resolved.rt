//! The resolved tree: what a program means, with its names turned into numbers and each operator at its own variant.

use crate::tree::Pieces;
use ckpt_base::Text;
use sqlite_items::{Boxed, Items};

/// An operator on one value.
#[derive(Clone, Copy, Debug, PartialEq, Eq)]
pub enum RUnary {
    /// `-`
    Neg,
    /// `!`
    Not,
    /// `~`
    Inv,
}

/// An operator between two values that are both evaluated, the left one first.
#[derive(Clone, Copy, Debug, PartialEq, Eq)]
pub enum RBinary {
    /// `+` on numbers
    Add,
    /// `-` on numbers
    Sub,
    /// `*`
    Mul,
    /// `/`
    Div,
    /// `%`
    Rem,
    /// `<<`
    Shl,
    /// `>>`
    Shr,
    /// `&`
    BitAnd,
    /// `|`
    BitOr,
    /// `^`
    BitXor,
    /// `==`
    Equal,
    /// `!=`
    Unequal,
    /// `<`
    Less,
    /// `<=`
    AtMost,
    /// `>`
    Greater,
    /// `>=`
    AtLeast,
}

/// Which way a pointer is moved.
#[derive(Clone, Copy, Debug, PartialEq, Eq)]
pub enum Direction {
    /// To a greater place.
    Forward,
    /// To a smaller place.
    Back,
}

/// An expression.
#[derive(Drop)]
pub enum RExpr {
    /// A number.
    Num(i64),
    /// A cell of the program: an object of the file that is no array, or a local of `main`.
    Cell(u32),
    /// A parameter or a local of the function that it stands in.
    Local(u32),
    /// The pointer to place 0 of an object.
    Object(u32),
    /// The null pointer.
    Null,
    /// An operator before its side.
    Unary(RUnary, Boxed<RExpr>),
    /// An operator between its left and its right side.
    Binary(RBinary, Boxed<RExpr>, Boxed<RExpr>),
    /// `&&`: the right side is evaluated where the left one holds.
    And(Boxed<RExpr>, Boxed<RExpr>),
    /// `||`: the right side is evaluated where the left one does not hold.
    Or(Boxed<RExpr>, Boxed<RExpr>),
    /// A pointer moved by a number of places; the pointer is evaluated first.
    Move(Boxed<RExpr>, Boxed<RExpr>, Direction),
    /// The cell that a pointer names.
    Fetch(Boxed<RExpr>),
}

/// Expressions in order: the arguments of a call, or the values of `printf`.
pub type Exprs = Items<RExpr>;

/// Where a value is stored.
#[derive(Drop)]
pub enum RPlace {
    /// A cell of the program.
    Cell(u32),
    /// A parameter or a local of the function that it stands in.
    Local(u32),
    /// The cell that a pointer names.
    At(RExpr),
}

/// An assignment at the head of a `for`.
#[derive(Drop)]
pub struct RAssign {
    /// Where the value is stored.
    pub place: RPlace,
    /// The value.
    pub value: RExpr,
}

/// What a `for` begins with.
#[derive(Drop)]
pub enum RInit {
    /// It declares a name, whose variable starts at the value.
    Declare(RAssign),
    /// It stores a value.
    Set(RAssign),
}

/// An arm of an `if`.
#[cycle(stmt)]
#[derive(Drop)]
pub struct RArm {
    /// The condition.
    pub test: RExpr,
    /// What is done where it holds.
    pub body: RStmt,
}

/// A statement.
#[cycle(stmt)]
#[derive(Drop)]
pub enum RStmt {
    /// Nothing.
    Empty,
    /// Declares a name: its variable starts at the value, and at 0 or null where there is none.
    Declare(RPlace, Option<RExpr>),
    /// Stores a value.
    Set(RPlace, RExpr),
    /// Calls a function with some arguments, and stores its answer where there is a place for it.
    Call(Option<RPlace>, u32, Exprs),
    /// Takes the next byte of the input, or -1 at its end, and stores it where there is a place for it.
    Input(Option<RPlace>),
    /// Ends the function with a value.
    Return(RExpr),
    /// Ends the function with what a call answers.
    ReturnCall(u32, Exprs),
    /// Ends the function with the next byte of the input, or -1 at its end.
    ReturnInput,
    /// Writes the low 8 bits of a value.
    Put(RExpr),
    /// Writes its pieces, with the values for the numbers among them.
    Print(Pieces, Exprs),
    /// The first arm whose condition holds, or the last statement where none does.
    If(Items<RArm>, Option<Boxed<RStmt>>),
    /// A loop with its condition before each turn.
    While(RExpr, Boxed<RStmt>),
    /// A loop with its condition behind each turn.
    Do(Boxed<RStmt>, RExpr),
    /// A loop with an assignment before it, a condition before each turn and an assignment behind each turn.
    For(Option<RInit>, Option<RExpr>, Option<RAssign>, Boxed<RStmt>),
    /// Statements, one after the other.
    Block(Items<RStmt>),
    /// Leaves the innermost loop.
    Break,
    /// Goes on with the next turn of the innermost loop.
    Continue,
    /// A place at which an image may be saved.
    Checkpoint,
    /// Begins to leave out of the images what the k-th such statement of the text excludes, counted from 1.
    Exclude(u16),
}

/// What an object of the file is.
#[derive(Clone, Copy, Debug, PartialEq, Eq)]
pub enum ObjectKind {
    /// A number.
    Number,
    /// An array of numbers.
    Array,
    /// A pointer.
    Pointer,
}

/// An object of the file.
#[derive(Drop)]
pub struct RObject {
    /// Its name.
    pub name: Text,
    /// What it is.
    pub kind: ObjectKind,
    /// How many cells it has: 1 where it is no array.
    pub length: u32,
    /// The number with which it starts: 0 where it is no number.
    pub first: i64,
}

/// A parameter or a local.
#[derive(Drop)]
pub struct RLocal {
    /// Its name.
    pub name: Text,
    /// Whether it is a pointer.
    pub is_pointer: bool,
}

/// A function.
#[derive(Drop)]
pub struct RFunction {
    /// Its name.
    pub name: Text,
    /// Whether it answers a pointer.
    pub gives_pointer: bool,
    /// How many parameters it has.
    pub parameters: u32,
    /// Its parameters and then its locals, in order of declaration.
    pub locals: Items<RLocal>,
    /// What a call of it does.
    pub body: RStmt,
}

/// A resolved program.
#[derive(Drop)]
pub struct Resolved {
    /// The objects of the file, in order of declaration.
    pub objects: Items<RObject>,
    /// The functions but `main`, in order of definition.
    pub functions: Items<RFunction>,
    /// The function with which the program begins and ends. Its locals are cells.
    pub main: RFunction,
}
