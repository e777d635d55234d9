//! The code of nodes.

ghost use Rattle.std.specs.Prelude.{◌≡◌, ◌+◌, ◌-◌, ◌*◌, ◌<◌, ◌≤◌, ◌^◌, ◌++◌, ◌∷◌, [], length, OnOk};
ghost use Rattle.code_maker.specs.ExprCode.{then_one, expr_block, values_block};
ghost use Rattle.code_maker.specs.NodeCode as spec;

use crate::expressions::{emit_expr, emit_values, place, put};
use access_summary::Edge;
use c_tree::{PrintPiece, RExpr, RPlace};
use ckpt_base::NoMemory;
use flow_graph::NodeWork;
use machine_code::Instr;

/// Appends the code of the pointer that a place takes.
fn emit_pointer(code: &mut Vec<Instr>, place: &RPlace) -> Result<(), NoMemory>
    ensures code { OnOk result (code.new.items ≡ code.old.items ++ spec.pointer_block place.now (length code.old.items)) }
{
    match place {
        RPlace::Cell(_) => Ok(()),
        RPlace::Local(_) => Ok(()),
        RPlace::At(pointer) => emit_expr(code, pointer),
    }
}

/// The instruction that stores a value at a place.
fn store_instr(place: &RPlace) -> Instr
    ensures answer { result ≡ spec.store_instr place.now }
{
    match place {
        RPlace::Cell(c) => Instr::StoreC(*c),
        RPlace::Local(i) => Instr::StoreL(*i),
        RPlace::At(_) => Instr::Put,
    }
}

/// Appends the code of what a declaration stores.
fn emit_given(code: &mut Vec<Instr>, value: &Option<RExpr>) -> Result<(), NoMemory>
    ensures code { OnOk result (code.new.items ≡ code.old.items ++ spec.given_block value.now (length code.old.items)) }
{
    match value {
        None => put(code, Instr::Num(0)),
        Some(value) => emit_expr(code, value),
    }
}

/// The instruction that keeps the answer of a call or of an input.
fn keep_instr(place: &Option<RPlace>) -> Instr
    ensures answer { spec.keep_answer place.now ≡ result ∷ [] }
{
    match place {
        None => Instr::Drop,
        Some(place) => match place {
            RPlace::Cell(c) => Instr::StoreC(*c),
            RPlace::Local(i) => Instr::StoreL(*i),
            RPlace::At(_) => Instr::Drop,
        },
    }
}

/// Appends the code that writes pieces, with `n` values on top of the operands.
fn emit_pieces(code: &mut Vec<Instr>, n: u32, pieces: &[PrintPiece]) -> Result<(), NoMemory>
    ensures code { OnOk result (code.new.items ≡ code.old.items ++ spec.piece_code n 0 pieces.now) }
{
    let mut left = n;
    'pieces: for piece in pieces {
        match piece {
            PrintPiece::Byte(b) => put(code, Instr::OutB(*b))?,
            PrintPiece::Number => {
                left = left.saturating_sub(1);
                put(code, Instr::OutN(left))?;
            }
        }
    }
    Ok(())
}

/// Appends the code that drops `n` values.
fn emit_drops(code: &mut Vec<Instr>, n: u32) -> Result<(), NoMemory>
    ensures code { OnOk result (code.new.items ≡ code.old.items ++ spec.drops n) }
{
    'drops: for i in 0..n {
        put(code, Instr::Drop)?;
    }
    Ok(())
}

/// The place where a node's segment begins; 0 where there is no node.
pub fn start_of(starts: &[u32], node: Option<u32>) -> u32
    ensures answer { result ≡ spec.start_of (spec.listed starts.now) node }
{
    match node {
        None => 0,
        Some(n) => match starts.get(n as usize) {
            None => 0,
            Some(p) => *p,
        },
    }
}

/// Appends the jump from the segment of node `m` to a node, which is none where that node follows.
fn emit_go_on(
    code: &mut Vec<Instr>,
    starts: &[u32],
    m: u32,
    to: Option<u32>,
) -> Result<(), NoMemory>
    requires node { m < 2 ^ 32 - 1 }
    ensures code { OnOk result (code.new.items ≡ code.old.items ++ spec.go_on (spec.listed starts.now) m to) }
{
    match to {
        None => Ok(()),
        Some(n) => {
            if n == m + 1 {
                return Ok(());
            }
            put(code, Instr::Jump(start_of(starts, Some(n))))
        }
    }
}

/// Appends the code that writes pieces with some values.
fn emit_print(
    code: &mut Vec<Instr>,
    pieces: &[PrintPiece],
    values: &[RExpr],
) -> Result<(), NoMemory>
    ensures code { OnOk result (code.new.items ≡ code.old.items ++ (values_block values.now (length code.old.items) ++ spec.print_code (length values.now) pieces.now)) }
{
    let n = place(values.len())?;
    emit_values(code, values)?;
    emit_pieces(code, n, pieces)?;
    emit_drops(code, n)
}

/// Appends two instructions.
fn put_both(code: &mut Vec<Instr>, first: Instr, second: Instr) -> Result<(), NoMemory>
    ensures code { OnOk result (code.new.items ≡ code.old.items ++ (first ∷ second ∷ [])) }
{
    put(code, first)?;
    put(code, second)
}

/// Appends the code of an expression, and the instruction that takes its value.
fn emit_taken(code: &mut Vec<Instr>, value: &RExpr, taker: Instr) -> Result<(), NoMemory>
    ensures code { OnOk result (code.new.items ≡ code.old.items ++ then_one (expr_block value.now) taker (length code.old.items)) }
{
    emit_expr(code, value)?;
    put(code, taker)
}

/// Appends the code that declares a variable.
fn emit_declare(
    code: &mut Vec<Instr>,
    place: &RPlace,
    value: &Option<RExpr>,
) -> Result<(), NoMemory>
    ensures code { OnOk result (code.new.items ≡ code.old.items ++ spec.set_block place.now (spec.given_block value.now) (length code.old.items)) }
{
    emit_pointer(code, place)?;
    emit_given(code, value)?;
    put(code, store_instr(place))
}

/// Appends the code that stores the value of an expression.
fn emit_set(code: &mut Vec<Instr>, place: &RPlace, value: &RExpr) -> Result<(), NoMemory>
    ensures code { OnOk result (code.new.items ≡ code.old.items ++ spec.set_block place.now (expr_block value.now) (length code.old.items)) }
{
    emit_pointer(code, place)?;
    emit_expr(code, value)?;
    put(code, store_instr(place))
}

/// Appends the code of a call, and the instruction that takes its answer.
fn emit_call(
    code: &mut Vec<Instr>,
    function: u32,
    args: &[RExpr],
    taker: Instr,
) -> Result<(), NoMemory>
    ensures code { OnOk result (code.new.items ≡ code.old.items ++ (values_block args.now (length code.old.items) ++ (Instr.Call function ∷ taker ∷ []))) }
{
    emit_values(code, args)?;
    put_both(code, Instr::Call(function), taker)
}

/// Appends what node `m` does, behind its tick, where `starts` tells the places of the segments.
fn emit_work(
    code: &mut Vec<Instr>,
    starts: &[u32],
    m: u32,
    to: Edge,
    work: &NodeWork,
) -> Result<(), NoMemory>
    requires node { m < 2 ^ 32 - 1 }
    ensures code { OnOk result (code.new.items ≡ code.old.items ++ spec.work_block (spec.listed starts.now) m to work.now (length code.old.items)) }
{
    match work {
        NodeWork::Declare { place, value } => emit_declare(code, place, value)?,
        NodeWork::Set { place, value } => emit_set(code, place, value)?,
        NodeWork::Call {
            place,
            function,
            args,
        } => emit_call(code, *function, args.as_slice(), keep_instr(place))?,
        NodeWork::Input { place } => put_both(code, Instr::In, keep_instr(place))?,
        NodeWork::Return { value } => return emit_taken(code, value, Instr::Ret),
        NodeWork::ReturnCall { function, args } => return emit_call(
            code,
            *function,
            args.as_slice(),
            Instr::Ret,
        ),
        NodeWork::ReturnInput => return put_both(code, Instr::In, Instr::Ret),
        NodeWork::Put { value } => emit_taken(code, value, Instr::OutC)?,
        NodeWork::Print { pieces, args } => emit_print(code, pieces.as_slice(), args.as_slice())?,
        NodeWork::Test { value } => emit_taken(code, value, Instr::JumpZ(start_of(starts, to.1)))?,
        NodeWork::Checkpoint => put(code, Instr::Ckpt(m))?,
        NodeWork::Exclude(k) => put(code, Instr::Excl(*k))?,
        NodeWork::End => return put_both(code, Instr::Num(0), Instr::Ret),
    }
    emit_go_on(code, starts, m, to.0)
}

/// Appends the segment of node `m`, where `starts` tells the places of the segments.
pub fn emit_segment(
    code: &mut Vec<Instr>,
    starts: &[u32],
    m: u32,
    to: Edge,
    work: &NodeWork,
) -> Result<(), NoMemory>
    requires node { m < 2 ^ 32 - 1 }
    ensures code { OnOk result (code.new.items ≡ code.old.items ++ spec.segment (spec.listed starts.now) m to work.now (length code.old.items)) }
{
    match work {
        NodeWork::End => {}
        _ => put(code, Instr::Tick)?,
    }
    emit_work(code, starts, m, to, work)
}
