use c_tree::{Exprs, Pieces, RExpr, RPlace};

/// What a node does.
#[derive(Drop)]
pub enum NodeWork {
    /// Declares a name: its variable starts at the value, and at 0 or null where there is none.
    Declare {
        /// The variable.
        place: RPlace,
        /// The value.
        value: Option<RExpr>,
    },
    /// Stores a value.
    Set {
        /// Where it is stored.
        place: RPlace,
        /// The value.
        value: RExpr,
    },
    /// Calls a function, and stores its answer where there is a place for it.
    Call {
        /// Where the answer is stored.
        place: Option<RPlace>,
        /// The function.
        function: u32,
        /// The arguments.
        args: Exprs,
    },
    /// Takes an input byte, or -1 at the end, and stores it where there is a place for it.
    Input {
        /// Where it is stored.
        place: Option<RPlace>,
    },
    /// Ends the function with a value.
    Return {
        /// The value.
        value: RExpr,
    },
    /// Ends the function with what a call answers.
    ReturnCall {
        /// The function that is called.
        function: u32,
        /// The arguments.
        args: Exprs,
    },
    /// Ends the function with an input byte, or -1 at the end.
    ReturnInput,
    /// Writes the low 8 bits of a value.
    Put {
        /// The value.
        value: RExpr,
    },
    /// Writes its pieces, with the values for the numbers among them.
    Print {
        /// The pieces.
        pieces: Pieces,
        /// The values.
        args: Exprs,
    },
    /// Goes on by a value: to the first edge where it is not 0, else to the second.
    Test {
        /// The value.
        value: RExpr,
    },
    /// A place at which an image may be saved.
    Checkpoint,
    /// The directive of this number.
    Exclude(u16),
    /// The end of the function.
    End,
}
