//! The trees of a program and the definitions of its language.
//!
//! A text is a list of tokens (`Token`), and the tokens spell a tree (`Program`). `specs/` says which tokens a text has
//! (`Scan`), and which trees they spell (`Expressions`, `Calls`, `Statements`, `Declarations`, `Programs`), in the order in
//! which they are read.
//!
//! A tree that keeps the rules of the language is `Checked`: it holds a resolved tree (`Resolved`), in which names are
//! numbers. What a program does is `meaning` (`specs/Meaning`), said on the resolved tree.
#![tactic(auto)]

mod cell_names;
mod cells;
mod checked;
mod excludes;
mod laws;
mod nodes;
mod resolved;
mod token;
mod tree;

pub use checked::{Checked, MAIN_NODES, MAX_CELLS, MAX_EXCLUDES, MAX_LOCALS};
pub use excludes::exclude_count;
pub use laws::{loops_unroll, statements_are_steady};
pub use nodes::node_count;
pub use resolved::{
    Direction, Exprs, ObjectKind, RArm, RAssign, RBinary, RExpr, RFunction, RInit, RLocal, RObject,
    RPlace, RStmt, RUnary, Resolved,
};
pub use token::{Directive, Kind, Piece, Token, Turn, Within, Word};
pub use tree::{
    Arm, Assign, Binary, Callee, Constant, Expr, Function, Given, Init, Item, Length, LocalDecl,
    Name, ObjectDecl, ObjectForm, Parameter, Pieces, Place, PrintPiece, Program, Stmt, Unary,
};
