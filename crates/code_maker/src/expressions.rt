//! The code of expressions.

ghost use Rattle.std.specs.Prelude.{◌≡◌, ◌+◌, ◌-◌, ◌<◌, ◌≤◌, ◌^◌, ◌++◌, ◌∷◌, [], pos, length, slice_set, IfOk, OnOk, OnErr};
ghost use Rattle.machine_code.specs.declared.instr.Instr.TheVariants as instr;
ghost use Rattle.code_maker.specs.ExprCode as spec;

use c_tree::{Direction, RBinary, RExpr, RUnary};
use ckpt_base::NoMemory;
use machine_code::Instr;

/// A place as the operand of a jump. A code that would want a place that no jump can name is refused here, as one for which no memory is found.
pub fn place(p: usize) -> Result<u32, NoMemory>
    ensures same { IfOk result (λ q. q ≡ p) }
    ensures small { IfOk result (λ q. q < 2 ^ 32 - 1) }
    ensures err { OnErr result (2 ^ 32 - 1 ≤ p) }
{
    if p >= u32::MAX as usize {
        return Err(NoMemory);
    }
    Ok(p as u32)
}

/// Appends an instruction.
pub fn put(code: &mut Vec<Instr>, instr: Instr) -> Result<(), NoMemory>
    ensures code { OnOk result (code.new.items ≡ code.old.items ++ instr ∷ []) }
{
    match code.push(instr) {
        Ok(()) => Ok(()),
        Err(_) => Err(NoMemory),
    }
}

/// The instruction of a one-sided operator.
fn unary_instr(op: RUnary) -> Instr
    ensures answer { result ≡ spec.unary_instr op }
{
    match op {
        RUnary::Neg => Instr::Neg,
        RUnary::Not => Instr::Not,
        RUnary::Inv => Instr::Inv,
    }
}

/// The instruction of a two-sided operator.
fn binary_instr(op: RBinary) -> Instr
    ensures answer { result ≡ spec.binary_instr op }
{
    match op {
        RBinary::Add => Instr::Add,
        RBinary::Sub => Instr::Sub,
        RBinary::Mul => Instr::Mul,
        RBinary::Div => Instr::Div,
        RBinary::Rem => Instr::Rem,
        RBinary::Shl => Instr::Shl,
        RBinary::Shr => Instr::Shr,
        RBinary::BitAnd => Instr::And,
        RBinary::BitOr => Instr::Or,
        RBinary::BitXor => Instr::Xor,
        RBinary::Equal => Instr::Eq,
        RBinary::Unequal => Instr::Ne,
        RBinary::Less => Instr::Lt,
        RBinary::AtMost => Instr::Le,
        RBinary::Greater => Instr::Gt,
        RBinary::AtLeast => Instr::Ge,
    }
}

/// The instruction that moves a pointer.
fn move_instr(direction: Direction) -> Instr
    ensures answer { result ≡ spec.move_instr direction }
{
    match direction {
        Direction::Forward => Instr::Move,
        Direction::Back => Instr::Back,
    }
}

/// Goes on behind the left side of a `&&`: over the right side where it does not hold. The answer is the place of that jump.
fn open_and(code: &mut Vec<Instr>) -> Result<usize, NoMemory>
    ensures code { OnOk result (code.new.items ≡ code.old.items ++ instr.JumpZ 0 ∷ []) }
    ensures at { IfOk result (λ p. p ≡ length code.old.items) }
{
    let test = code.len();
    put(code, Instr::JumpZ(0))?;
    Ok(test)
}

/// Ends a `&&`, whose jump over the right side stands at place `test`.
fn close_and(code: &mut Vec<Instr>, test: usize) -> Result<(), NoMemory>
    requires there { test < length code.old.items }
    ensures code { OnOk result (code.new.items ≡ slice_set code.old.items test (instr.JumpZ (length code.old.items + 2)) ++ (instr.Test ∷ instr.Jump (length code.old.items + 2 + 1) ∷ instr.Num (pos 0) ∷ [])) }
{
    let zero_at = place(code.len() + 2)?;
    code[test] = Instr::JumpZ(zero_at);
    put(code, Instr::Test)?;
    put(code, Instr::Jump(zero_at + 1))?;
    put(code, Instr::Num(0))
}

/// Goes on behind the left side of a `||`: over the right side where it holds. The answer is the place of that jump.
fn open_or(code: &mut Vec<Instr>) -> Result<usize, NoMemory>
    ensures code { OnOk result (code.new.items ≡ code.old.items ++ (instr.JumpZ (length code.old.items + 3) ∷ instr.Num (pos 1) ∷ instr.Jump 0 ∷ [])) }
    ensures at { IfOk result (λ p. p ≡ length code.old.items + 2) }
{
    let right = place(code.len() + 3)?;
    put(code, Instr::JumpZ(right))?;
    put(code, Instr::Num(1))?;
    let over = code.len();
    put(code, Instr::Jump(0))?;
    Ok(over)
}

/// Ends a `||`, whose jump over the right side stands at place `over`.
fn close_or(code: &mut Vec<Instr>, over: usize) -> Result<(), NoMemory>
    requires there { over < length code.old.items }
    ensures code { OnOk result (code.new.items ≡ slice_set code.old.items over (instr.Jump (length code.old.items + 1)) ++ instr.Test ∷ []) }
{
    let end = place(code.len() + 1)?;
    code[over] = Instr::Jump(end);
    put(code, Instr::Test)
}

/// Appends the code of an expression.
pub fn emit_expr(code: &mut Vec<Instr>, expr: &RExpr) -> Result<(), NoMemory>
    ensures code { OnOk result (code.new.items ≡ code.old.items ++ spec.expr_block expr.now (length code.old.items)) }
{
    match expr {
        RExpr::Num(n) => put(code, Instr::Num(*n)),
        RExpr::Cell(c) => put(code, Instr::LoadC(*c)),
        RExpr::Local(i) => put(code, Instr::LoadL(*i)),
        RExpr::Object(o) => put(code, Instr::Addr(*o)),
        RExpr::Null => put(code, Instr::Num(0)),
        RExpr::Unary(op, x) => {
            emit_expr(code, x.get())?;
            put(code, unary_instr(*op))
        }
        RExpr::Binary(op, x, y) => {
            emit_expr(code, x.get())?;
            emit_expr(code, y.get())?;
            put(code, binary_instr(*op))
        }
        RExpr::And(x, y) => {
            emit_expr(code, x.get())?;
            let test = open_and(code)?;
            emit_expr(code, y.get())?;
            close_and(code, test)
        }
        RExpr::Or(x, y) => {
            emit_expr(code, x.get())?;
            let over = open_or(code)?;
            emit_expr(code, y.get())?;
            close_or(code, over)
        }
        RExpr::Move(x, y, direction) => {
            emit_expr(code, x.get())?;
            emit_expr(code, y.get())?;
            put(code, move_instr(*direction))
        }
        RExpr::Fetch(x) => {
            emit_expr(code, x.get())?;
            put(code, Instr::Fetch)
        }
    }
}

/// Appends the code of expressions, which leaves the value of the last one on top.
pub fn emit_values(code: &mut Vec<Instr>, exprs: &[RExpr]) -> Result<(), NoMemory>
    ensures code { OnOk result (code.new.items ≡ code.old.items ++ spec.values_block exprs.now (length code.old.items)) }
{
    'exprs: for i in 0..exprs.len() {
        emit_expr(code, &exprs[i])?;
    }
    Ok(())
}
