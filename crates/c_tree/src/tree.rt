//! The tree that a text spells (C99, 6.5 to 6.9), with its names as they stand in the text.

use ckpt_base::Text;
use sqlite_items::{Boxed, Items};

/// A name where it stands in a text.
#[derive(Drop)]
pub struct Name {
    /// Its bytes.
    pub text: Text,
    /// How many constants the text has made before it.
    pub constants: u32,
}

/// A constant, which a line `#define NAME number` makes.
#[derive(Drop)]
pub struct Constant {
    /// Its name.
    pub name: Text,
    /// What it stands for.
    pub number: i64,
}

/// A one-sided operator.
#[derive(Clone, Copy, Debug, PartialEq, Eq)]
pub enum Unary {
    /// `-`
    Neg,
    /// `!`
    Not,
    /// `~`
    Inv,
    /// `*`
    Deref,
}

/// A two-sided operator, from the loosest to the tightest.
#[derive(Clone, Copy, Debug, PartialEq, Eq)]
pub enum Binary {
    /// `||`
    Or,
    /// `&&`
    And,
    /// `|`
    BitOr,
    /// `^`
    BitXor,
    /// `&`
    BitAnd,
    /// `==`
    Equal,
    /// `!=`
    Unequal,
    /// `<`
    Less,
    /// `<=`
    AtMost,
    /// `>`
    Greater,
    /// `>=`
    AtLeast,
    /// `<<`
    Shl,
    /// `>>`
    Shr,
    /// `+`
    Add,
    /// `-`
    Sub,
    /// `*`
    Mul,
    /// `/`
    Div,
    /// `%`
    Rem,
}

/// An expression.
#[derive(Drop)]
pub enum Expr {
    /// A number or a character constant; -1 for `EOF`, 0 for `NULL`.
    Num(i64),
    /// A name.
    Name(Name),
    /// `n[e]`
    Index(Name, Boxed<Expr>),
    /// `&n` or `&n[e]`
    Address(Name, Option<Boxed<Expr>>),
    /// An operator before its side.
    Unary(Unary, Boxed<Expr>),
    /// An operator between its left and its right side.
    Binary(Binary, Boxed<Expr>, Boxed<Expr>),
}

/// What is assigned to.
#[derive(Drop)]
pub enum Place {
    /// A name.
    Name(Name),
    /// `n[e]`
    Index(Name, Expr),
    /// `*e`
    At(Expr),
}

/// An assignment.
#[derive(Drop)]
pub struct Assign {
    /// What is assigned to.
    pub place: Place,
    /// What is assigned.
    pub value: Expr,
}

/// The function that a call names.
#[derive(Drop)]
pub enum Callee {
    /// `main`
    Main,
    /// A function by its name.
    Name(Name),
}

/// What a declaration or a return gives.
#[derive(Drop)]
pub enum Given {
    /// The value of an expression.
    Value(Expr),
    /// What a call answers.
    Call(Callee, Items<Expr>),
    /// `getchar()`
    Input,
}

/// A declared name of a block.
#[derive(Drop)]
pub struct LocalDecl {
    /// Whether it is a pointer.
    pub is_pointer: bool,
    /// Its name.
    pub name: Name,
    /// What it starts with.
    pub given: Option<Given>,
}

/// What stands before the first `;` of a `for`.
#[derive(Drop)]
pub enum Init {
    /// `n = e`
    Assign(Assign),
    /// `long n = e`
    Declare(Name, Expr),
}

/// A piece of what `printf` writes.
#[derive(Clone, Copy, Debug, PartialEq, Eq)]
pub enum PrintPiece {
    /// A byte, which is written as it is.
    Byte(u8),
    /// `%ld`: the decimal digits of the next value.
    Number,
}

/// What `printf` writes.
pub type Pieces = Items<PrintPiece>;

/// An arm of an `if`.
#[cycle(text_stmt)]
#[derive(Drop)]
pub struct Arm {
    /// The condition.
    pub test: Expr,
    /// What is done where it holds.
    pub body: Stmt,
}

/// A statement, with the line of its first token.
#[cycle(text_stmt)]
#[derive(Drop)]
pub enum Stmt {
    /// `;`
    Empty(u32),
    /// `long ..;`
    Declare(u32, Items<LocalDecl>),
    /// An assignment.
    Set(u32, Assign),
    /// A call, whose answer may be assigned to a name.
    Call(u32, Option<Name>, Callee, Items<Expr>),
    /// `getchar();`, whose answer may be assigned to a name.
    Input(u32, Option<Name>),
    /// `putchar(e);`
    Put(u32, Expr),
    /// `printf(..);`
    Print(u32, Pieces, Items<Expr>),
    /// `return ..;`
    Return(u32, Given),
    /// `if` with its arms, and what stands behind the last `else`.
    If(u32, Items<Arm>, Option<Boxed<Stmt>>),
    /// `while (e) s`
    While(u32, Expr, Boxed<Stmt>),
    /// `do s while (e);`
    Do(u32, Boxed<Stmt>, Expr),
    /// `for (..; ..; ..) s`
    For(u32, Option<Init>, Option<Expr>, Option<Assign>, Boxed<Stmt>),
    /// `{ .. }`
    Block(u32, Items<Stmt>),
    /// `break;`
    Break(u32),
    /// `continue;`
    Continue(u32),
    /// `CHECKPOINT_HERE;`
    Checkpoint(u32),
    /// `EXCLUDE_HERE;`
    Exclude(u32),
}

/// A length or a first number of the file: a number, or the name of a constant.
#[derive(Drop)]
pub enum Length {
    /// A number or a character constant.
    Num(i64),
    /// The name of a constant.
    Name(Name),
}

/// What an object of the file is declared as.
#[derive(Drop)]
pub enum ObjectForm {
    /// A number that starts at 0.
    Number,
    /// A number that starts at a length, or with a minus at its negative.
    Started(bool, Length),
    /// An array of some length.
    Array(Length),
    /// A pointer.
    Pointer,
}

/// A declared name of the file.
#[derive(Drop)]
pub struct ObjectDecl {
    /// Its name.
    pub name: Name,
    /// What it is.
    pub form: ObjectForm,
}

/// A parameter.
#[derive(Drop)]
pub struct Parameter {
    /// Whether it is a pointer.
    pub is_pointer: bool,
    /// Its name.
    pub name: Name,
}

/// A function.
#[derive(Drop)]
pub struct Function {
    /// Whether it answers a pointer.
    pub gives_pointer: bool,
    /// Its name.
    pub name: Name,
    /// Its parameters in order.
    pub parameters: Items<Parameter>,
    /// The statements of its block.
    pub body: Items<Stmt>,
}

/// What stands at file scope.
#[derive(Drop)]
pub enum Item {
    /// `long ..;`, with the line of its first token.
    Objects(u32, Items<ObjectDecl>),
    /// A prototype, which has no further meaning.
    Prototype,
    /// A function.
    Function(Function),
    /// `main`, with how many constants the text has made before it, and the statements of its block.
    Main(u32, Items<Stmt>),
}

/// A whole text: its constants and its items, each in order.
#[derive(Drop)]
pub struct Program {
    /// The constants that its `#define` lines make.
    pub constants: Items<Constant>,
    /// What stands at file scope.
    pub items: Items<Item>,
}
