// The depths of a code, by one pass.

ghost use Rattle.std.specs.Prelude.{◌≡◌, ◌≢◌, ℕ, ◌+◌, ◌-◌, ◌^◌, ◌<◌, ◌≤◌, List, length, slice_index, slice_get, Some, IfOk};
ghost use Rattle.machine_code.specs.declared.instr.Instr.{Instr};
ghost use Rattle.machine_code.specs.Needs.{needs, gives};
ghost use Rattle.machine_code.specs.Forced.{AreForced, Forward};

use crate::code::Code;
use crate::instr::Instr;
use crate::valid::{gives_back, takes};
use std::alloc::{AllocError, Global};

/// The only depths that the code can have.
pub(crate) fn depths(alloc: Global, code: &Code) -> Result<Vec<u64>, AllocError>
    ensures length { IfOk result (λ v. length v.items ≡ length code.now.instrs) }
    ensures only { IfOk result (λ v. (d : List ℕ) → AreForced code.now d → v.items ≡ d) }
    ensures quiet { IfOk result (λ v. (q : ℕ) → ((p : ℕ) (i : Instr) → slice_get code.now.instrs p ≡ Some i → Forward i p q → ⊥) → slice_index v.items q ≡ 0) }
{
    let mut found = vec![in alloc; 0u64; code.instrs.len()]?;
    for p in 0..code.instrs.len() {
        let i = code.fetch(p);
        let after = left(code, found.as_slice(), p, i);
        spread(found.as_mut_slice(), p, after, i);
    }
    Ok(found)
}

/// Writes what an instruction leaves to the later places at which it goes on.
#[tactic(auto, unfolding(crate::specs::Forced::Forward))]
fn spread(found: &mut [u64], p: usize, after: u64, i: Instr)
    requires { p < 2 ^ 62 }
    ensures leads { (q : ℕ) → q < length found.old → Forward i p q → slice_index found.new q ≡ after }
    ensures others { (q : ℕ) → (Forward i p q → ⊥) → slice_index found.new q ≡ slice_index found.old q }
{
    match i {
        Instr::Jump(t) => spread_to(found, p, t as usize, after),
        Instr::JumpZ(t) => {
            spread_to(found, p, t as usize, after);
            spread_to(found, p, p + 1, after);
        }
        Instr::Ret => {}
        _ => spread_to(found, p, p + 1, after),
    }
}

fn spread_to(found: &mut [u64], p: usize, q: usize, after: u64)
    ensures there { q < length found.old → p < q → slice_index found.new q ≡ after }
    ensures here { (k : ℕ) → k ≢ q → slice_index found.new k ≡ slice_index found.old k }
    ensures back { q ≤ p → found.new ≡ found.old }
    ensures len { length found.new ≡ length found.old }
{
    if q > p && q < found.len() {
        found[q] = after;
    }
}

/// How many operands an instruction leaves.
fn left(code: &Code, found: &[u64], p: usize, i: Instr) -> u64
    requires { p < length found.now }
    ensures { slice_index found.now p < 2 ^ 33 → result ≡ slice_index found.now p - needs code.now i + gives i }
{
    found[p]
        .saturating_sub(takes(code, i))
        .saturating_add(gives_back(i))
}
