//! The instructions of the machine, and codes of them.
//!
//! A code has instructions, functions, objects, the table of its checkpoints and its greatest operand depth. `Code::is_valid` tells exactly the codes that
//! a machine can run without ever missing an operand, a local or an instruction. `listing` writes a code as text.
//!
//! The definitions are shared by the machine that runs a code and by the compiler that makes one: `row` is what each instruction does to where the
//! machine stands and to memory, `CodeRun` a whole run of rows with its events, memory, ending and ticks.
#![tactic(auto)]

mod code;
mod depths;
mod event;
mod instr;
mod laws;
mod lines;
mod valid;

pub use code::Code;
pub use event::{Caller, Event};
pub use instr::Instr;
pub use laws::{
    rows_are_plain, runs_give_one_answer, runs_go_on, runs_leave_other_cells,
    runs_pass_what_they_reach, runs_show_what_they_do,
};
pub use lines::listing;
