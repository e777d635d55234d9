// The instructions.

ghost use Rattle.std.specs.Prelude.{Some};
ghost use Rattle.machine_code.specs.Listing.{instr_text};

use std::fmt;

/// One instruction. The operand stack holds words; a local is a word of the current call.
#[derive(Clone, Copy, PartialEq, Eq, Debug)]
pub enum Instr {
    /// Takes a tick.
    Tick,
    /// Pushes a number.
    Num(i64),
    /// Pushes the pointer to place 0 of an object.
    Addr(u32),
    /// Pushes a cell.
    LoadC(u32),
    /// Pops into a cell.
    StoreC(u32),
    /// Pushes a local.
    LoadL(u32),
    /// Pops into a local.
    StoreL(u32),
    /// Pops a number and a pointer, and pushes the pointer moved forward by the number.
    Move,
    /// Pops a number and a pointer, and pushes the pointer moved back by the number.
    Back,
    /// Pops a pointer and pushes its cell.
    Fetch,
    /// Pops a word and a pointer, and writes the word into its cell.
    Put,
    /// Pops two words and pushes their sum, as the following nine push difference, product, quotient, remainder, shifts and bitwise operations.
    Add,
    Sub,
    Mul,
    Div,
    Rem,
    Shl,
    Shr,
    And,
    Or,
    Xor,
    /// Pops a word `a` and pushes `-a`, as the following three push `!a`, `~a`, and 1 where `a` is not 0 and else 0.
    Neg,
    Not,
    Inv,
    Test,
    /// Pops two words and pushes 1 where they are equal and else 0, as the following five do for the other comparisons; the order is signed.
    Eq,
    Ne,
    Lt,
    Le,
    Gt,
    Ge,
    /// Goes to a place.
    Jump(u32),
    /// Pops a word and goes to a place where it is 0.
    JumpZ(u32),
    /// Pops the arguments of a function into new locals, the others 0, and goes to its start.
    Call(u32),
    /// Pops a word, ends the call with its other operands and pushes the word; in `main` it ends the run.
    Ret,
    /// Pops a word.
    Drop,
    /// Pops a word and writes its low byte.
    OutC,
    /// Writes a byte.
    OutB(u8),
    /// Writes the word that stands so many below the top as a number; it stays.
    OutN(u32),
    /// Asks for an input value, which is pushed.
    In,
    /// The checkpoint of a node.
    Ckpt(u32),
    /// The directive of a number.
    Excl(u16),
}

impl fmt::Display for Instr {
    ghost use Rattle.std.specs.Prelude.{Some};
    ghost use Rattle.machine_code.specs.Listing.{instr_text};

    ghost output = { λ i. Some (instr_text i) };

    fn fmt<W: fmt::Write>(&self, f: &mut fmt::Formatter<W>) -> fmt::Result {
        match *self {
            Instr::Tick => write!(f, "TICK"),
            Instr::Num(n) => write!(f, "NUM {n}"),
            Instr::Addr(o) => write!(f, "ADDR {o}"),
            Instr::LoadC(c) => write!(f, "LOADC {c}"),
            Instr::StoreC(c) => write!(f, "STOREC {c}"),
            Instr::LoadL(i) => write!(f, "LOADL {i}"),
            Instr::StoreL(i) => write!(f, "STOREL {i}"),
            Instr::Move => write!(f, "MOVE"),
            Instr::Back => write!(f, "BACK"),
            Instr::Fetch => write!(f, "FETCH"),
            Instr::Put => write!(f, "PUT"),
            Instr::Add => write!(f, "ADD"),
            Instr::Sub => write!(f, "SUB"),
            Instr::Mul => write!(f, "MUL"),
            Instr::Div => write!(f, "DIV"),
            Instr::Rem => write!(f, "REM"),
            Instr::Shl => write!(f, "SHL"),
            Instr::Shr => write!(f, "SHR"),
            Instr::And => write!(f, "AND"),
            Instr::Or => write!(f, "OR"),
            Instr::Xor => write!(f, "XOR"),
            Instr::Neg => write!(f, "NEG"),
            Instr::Not => write!(f, "NOT"),
            Instr::Inv => write!(f, "INV"),
            Instr::Test => write!(f, "TEST"),
            Instr::Eq => write!(f, "EQ"),
            Instr::Ne => write!(f, "NE"),
            Instr::Lt => write!(f, "LT"),
            Instr::Le => write!(f, "LE"),
            Instr::Gt => write!(f, "GT"),
            Instr::Ge => write!(f, "GE"),
            Instr::Jump(t) => write!(f, "JUMP {t}"),
            Instr::JumpZ(t) => write!(f, "JUMPZ {t}"),
            Instr::Call(g) => write!(f, "CALL {g}"),
            Instr::Ret => write!(f, "RET"),
            Instr::Drop => write!(f, "DROP"),
            Instr::OutC => write!(f, "OUTC"),
            Instr::OutB(b) => write!(f, "OUTB {b}"),
            Instr::OutN(d) => write!(f, "OUTN {d}"),
            Instr::In => write!(f, "IN"),
            Instr::Ckpt(n) => write!(f, "CKPT {n}"),
            Instr::Excl(k) => write!(f, "EXCL {k}"),
        }
    }
}
