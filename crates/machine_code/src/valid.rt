// The test for codes that a machine can run.

ghost use Rattle.std.specs.Prelude.{List, ◌≡◌, ◌≢◌, ℕ, ◌+◌, ◌-◌, ◌^◌, ◌<◌, ◌≤◌, ◌↔◌, max, nat_le, length, slice_get, slice_index, Some, IsTrue, IfOk, EachIndex, if◌then◌else◌, map};
ghost use Rattle.std.specs.List.{All};
ghost use Rattle.machine_code.specs.declared.instr.Instr.{Instr};
ghost use Rattle.machine_code.specs.CodeView.{home, locals_from, locals_at, start, node};
ghost use Rattle.machine_code.specs.Needs.{needs, gives, EachNext};
ghost use Rattle.machine_code.specs.Forced.{AreForced, Forward};
ghost use Rattle.machine_code.specs.Memory.{CellWithin, FitsMemory};
ghost use Rattle.machine_code.specs.Valid.{IsValid, IsFunction, Names, LevelAt, IsNext, Stands, StandsAt, AreDepths, IsEntry, IsListedAt, NoneComesTo, IsNewAt, AreDistinct, has_checkpoint};

use crate::code::Code;
use crate::depths::depths;
use crate::instr::Instr;
use ckpt_base::NoMemory;
use std::alloc::{AllocError, Global};

impl Code {
    /// Whether a machine can run this code without ever missing an operand, a local or an instruction.
    pub fn is_valid(&self, alloc: Global) -> Result<bool, NoMemory>
        ensures answer { IfOk result (λ b. IsTrue b ↔ IsValid self.now) }
    {
        let found = depths(alloc, self)?;
        let starts = starts(alloc, self)?;
        let nodes = nodes(alloc, self)?;
        Ok(is_valid_with(self, &found, &starts, &nodes))
    }

    /// Whether each cell that the code names and the end of each object lie within a memory of this many cells.
    pub fn fits(&self, cells: u64) -> bool
        ensures answer { IsTrue result ↔ FitsMemory self.now cells }
    {
        if !self.instrs.iter().all(|i| is_within(cells, *i)) {
            return false;
        }
        self.objects
            .iter()
            .all(|o| o.0 as u64 + o.1 as u64 <= cells)
    }
}

/// Whether a cell that the instruction names is one of `cells`.
fn is_within(cells: u64, i: Instr) -> bool
    ensures { IsTrue result ↔ CellWithin cells i }
{
    match i {
        Instr::LoadC(c) | Instr::StoreC(c) => (c as u64) < cells,
        _ => true,
    }
}

/// Whether the code is valid, given the only depths that it can have, the starts of its functions and the nodes of its checkpoints.
fn is_valid_with(code: &Code, found: &[u64], starts: &[u32], nodes: &[u32]) -> bool
    requires length { length found.now ≡ length code.now.instrs }
    requires only { (d : List ℕ) → AreForced code.now d → found.now ≡ d }
    requires quiet { (q : ℕ) → ((p : ℕ) (i : Instr) → slice_get code.now.instrs p ≡ Some i → Forward i p q → ⊥) → slice_index found.now q ≡ 0 }
    requires starts { starts.now ≡ map start code.now.functions }
    requires nodes { nodes.now ≡ map node code.now.checkpoints }
    ensures { IsTrue result ↔ IsValid code.now }
{
    if code.instrs.is_empty() {
        return false;
    }
    if code.objects.len() > u32::MAX as usize {
        return false;
    }
    if !functions_fit(code) {
        return false;
    }
    if !all_differ(starts) {
        return false;
    }
    if !entries_fit(code) {
        return false;
    }
    if !all_listed(code) {
        return false;
    }
    if !all_differ(nodes) {
        return false;
    }
    if !starts_level(code, found) {
        return false;
    }
    all_stand(code, found)
}

/// The starts of the functions.
fn starts(alloc: Global, code: &Code) -> Result<Vec<u32>, AllocError>
    ensures { IfOk result (λ v. v.items ≡ map start code.now.functions) }
{
    code.functions.iter().map(|f| f.0).collect(alloc)
}

/// The nodes of the checkpoints.
fn nodes(alloc: Global, code: &Code) -> Result<Vec<u32>, AllocError>
    ensures { IfOk result (λ v. v.items ≡ map node code.now.checkpoints) }
{
    code.checkpoints.iter().map(|k| k.0).collect(alloc)
}

/// Whether a number differs from each earlier one.
#[tactic(auto, unfolding(crate::specs::Valid::IsNewAt))]
fn is_new(keys: &[u32], j: usize) -> bool
    requires { j < length keys.now }
    ensures { IsTrue result ↔ IsNewAt keys.now j }
{
    for i in 0..j {
        if keys[i] == keys[j] {
            return false;
        }
    }
    true
}

/// Whether no two of the numbers are the same.
fn all_differ(keys: &[u32]) -> bool
    ensures { IsTrue result ↔ AreDistinct keys.now }
{
    for j in 0..keys.len() {
        if !is_new(keys, j) {
            return false;
        }
    }
    true
}

/// Whether a function begins at an instruction behind that of `main`, with its parameters among its locals.
fn is_function(code: &Code, f: &(u32, u32, u32)) -> bool
    ensures { IsTrue result ↔ IsFunction code.now f.now }
{
    if f.0 == 0 {
        return false;
    }
    if f.0 as usize >= code.instrs.len() {
        return false;
    }
    f.1 <= f.2
}

fn functions_fit(code: &Code) -> bool
    ensures { IsTrue result ↔ All (IsFunction code.now) code.now.functions }
{
    code.functions.iter().all(|f| is_function(code, f))
}

/// Whether the entry is that of a checkpoint in the code.
fn is_entry(code: &Code, k: &(u32, u32)) -> bool
    ensures { IsTrue result ↔ IsEntry code.now k.now }
{
    if k.1 == 0 {
        return false;
    }
    code.instr(k.1 - 1) == Some(Instr::Ckpt(k.0))
}

fn entries_fit(code: &Code) -> bool
    ensures { IsTrue result ↔ All (IsEntry code.now) code.now.checkpoints }
{
    code.checkpoints.iter().all(|k| is_entry(code, k))
}

/// Whether the table has a checkpoint of this node with this place after it.
fn has_checkpoint(code: &Code, node: u32, place: usize) -> bool
    ensures { result ≡ has_checkpoint code.now node place }
{
    code.checkpoints
        .iter()
        .any(|k| k.0 == node && k.1 as usize == place)
}

/// Whether the table has the checkpoint at place `p`, if there is one.
#[tactic(auto, unfolding(crate::specs::Valid::IsListedAt))]
fn is_listed_at(code: &Code, p: usize) -> bool
    requires instr { p < length code.now.instrs }
    requires place { p < 2 ^ 63 }
    ensures { IsTrue result ↔ IsListedAt code.now p }
{
    match code.fetch(p) {
        Instr::Ckpt(n) => has_checkpoint(code, n, p + 1),
        _ => true,
    }
}

fn all_listed(code: &Code) -> bool
    ensures { IsTrue result ↔ EachIndex code.now.instrs (IsListedAt code.now) }
{
    for p in 0..code.instrs.len() {
        if !is_listed_at(code, p) {
            return false;
        }
    }
    true
}

/// Whether there are no operands where a function begins.
fn is_start_level(depths: &[u64], f: &(u32, u32, u32)) -> bool
    ensures { IsTrue result ↔ (slice_index depths.now (start f.now) ≡ 0) }
{
    match depths.get(f.0 as usize) {
        None => true,
        Some(depth) => *depth == 0,
    }
}

fn starts_level(code: &Code, depths: &[u64]) -> bool
    ensures { IsTrue result ↔ All (λ f. slice_index depths.now (start f) ≡ 0) code.now.functions }
{
    code.functions.iter().all(|f| is_start_level(depths, f))
}

/// How many operands an instruction takes.
pub(crate) fn takes(code: &Code, i: Instr) -> u64
    ensures value { result ≡ needs code.now i }
    ensures small { result ≤ 2 ^ 32 }
{
    match i {
        Instr::Tick
        | Instr::Num(_)
        | Instr::Addr(_)
        | Instr::LoadC(_)
        | Instr::LoadL(_)
        | Instr::Jump(_)
        | Instr::OutB(_)
        | Instr::In
        | Instr::Ckpt(_)
        | Instr::Excl(_) => 0,
        Instr::StoreC(_)
        | Instr::StoreL(_)
        | Instr::Fetch
        | Instr::Neg
        | Instr::Not
        | Instr::Inv
        | Instr::Test
        | Instr::JumpZ(_)
        | Instr::Ret
        | Instr::Drop
        | Instr::OutC => 1,
        Instr::OutN(d) => d as u64 + 1,
        Instr::Call(f) => match code.functions.get(f as usize) {
            None => 0,
            Some(f) => f.1 as u64,
        },
        _ => 2,
    }
}

/// How many operands an instruction leaves in their place.
pub(crate) fn gives_back(i: Instr) -> u64
    ensures value { result ≡ gives i }
    ensures small { result ≤ 2 ^ 32 }
{
    match i {
        Instr::Tick
        | Instr::StoreC(_)
        | Instr::StoreL(_)
        | Instr::Put
        | Instr::Jump(_)
        | Instr::JumpZ(_)
        | Instr::Drop
        | Instr::OutC
        | Instr::OutB(_)
        | Instr::Ckpt(_)
        | Instr::Excl(_) => 0,
        Instr::OutN(d) => d as u64 + 1,
        _ => 1,
    }
}

/// The greater of two starts, of which the second counts only where it is not behind place `p`.
fn nearer_start(home: u32, start: u32, p: usize) -> u32
    ensures { result ≡ (if nat_le start p then max start home else home) }
{
    if start as usize > p {
        return home;
    }
    if start > home { start } else { home }
}

/// Where the function begins that place `p` belongs to.
fn home(code: &Code, p: usize) -> u32
    ensures { result ≡ home code.now.functions p }
{
    let mut home = 0;
    for f in code.functions.iter() {
        home = nearer_start(home, f.0, p);
    }
    home
}

/// How many locals the function has that begins at `start`.
fn locals_from(code: &Code, start: u32) -> u32
    ensures { result ≡ locals_from code.now.functions start }
{
    for f in code.functions.iter() {
        if f.0 == start {
            return f.2;
        }
    }
    0
}

/// Whether what an instruction names is there.
fn names(code: &Code, p: usize, i: Instr) -> bool
    ensures { IsTrue result ↔ Names code.now p i }
{
    match i {
        Instr::Addr(o) => (o as usize) < code.objects.len(),
        Instr::LoadL(k) | Instr::StoreL(k) => k < locals_from(code, home(code, p)),
        Instr::Call(f) => (f as usize) < code.functions.len(),
        Instr::Ckpt(_) | Instr::Excl(_) => home(code, p) == 0,
        _ => true,
    }
}

/// Whether an instruction may stand where there are so many operands.
fn is_level(i: Instr, depth: u64) -> bool
    ensures { IsTrue result ↔ LevelAt i depth }
{
    match i {
        Instr::Tick | Instr::Ckpt(_) => depth == 0,
        _ => true,
    }
}

/// Whether the instruction at a place takes a tick.
fn is_tick(code: &Code, q: usize) -> bool
    requires { q < length code.now.instrs }
    ensures { IsTrue result ↔ (slice_get code.now.instrs q ≡ Some Instr.Tick) }
{
    matches!(code.fetch(q), Instr::Tick)
}

/// Whether the run can go on at place `q` with so many operands after the instruction at place `p`.
fn is_next(code: &Code, depths: &[u64], p: usize, depth: u64, q: usize) -> bool
    requires { length depths.now ≡ length code.now.instrs }
    ensures { IsTrue result ↔ IsNext code.now depths.now p depth q }
{
    if q >= depths.len() {
        return false;
    }
    if home(code, q) != home(code, p) {
        return false;
    }
    if depths[q] != depth {
        return false;
    }
    q > p || is_tick(code, q)
}

/// Whether an instruction goes on at right places only.
fn goes_on(code: &Code, depths: &[u64], p: usize, depth: u64, i: Instr) -> bool
    requires length { length depths.now ≡ length code.now.instrs }
    requires place { p < 2 ^ 63 }
    ensures { IsTrue result ↔ EachNext (IsNext code.now depths.now p depth) i p }
{
    match i {
        Instr::Jump(t) => is_next(code, depths, p, depth, t as usize),
        Instr::JumpZ(t) => {
            is_next(code, depths, p, depth, t as usize) && is_next(code, depths, p, depth, p + 1)
        }
        Instr::Ret => true,
        _ => is_next(code, depths, p, depth, p + 1),
    }
}

/// Whether an instruction stands rightly at a place.
fn stands(code: &Code, depths: &[u64], p: usize, i: Instr) -> bool
    requires length { length depths.now ≡ length code.now.instrs }
    requires place { p < length code.now.instrs }
    ensures { IsTrue result ↔ Stands code.now depths.now p i }
{
    let depth = depths[p];
    let takes = takes(code, i);
    if takes > depth {
        return false;
    }
    if depth > code.stack as u64 {
        return false;
    }
    if !is_level(i, depth) {
        return false;
    }
    if !names(code, p, i) {
        return false;
    }
    goes_on(code, depths, p, depth - takes + gives_back(i), i)
}

/// Whether the instruction at a place stands rightly there.
#[tactic(auto, unfolding(crate::specs::Valid::StandsAt))]
fn stands_at(code: &Code, depths: &[u64], p: usize) -> bool
    requires length { length depths.now ≡ length code.now.instrs }
    requires place { p < length code.now.instrs }
    ensures { IsTrue result ↔ StandsAt code.now depths.now p }
{
    stands(code, depths, p, code.fetch(p))
}

/// Whether each instruction stands rightly at its place.
fn all_stand(code: &Code, depths: &[u64]) -> bool
    requires length { length depths.now ≡ length code.now.instrs }
    ensures { IsTrue result ↔ EachIndex code.now.instrs (StandsAt code.now depths.now) }
{
    for p in 0..depths.len() {
        if !stands_at(code, depths, p) {
            return false;
        }
    }
    true
}
