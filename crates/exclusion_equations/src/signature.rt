ghost use Rattle.std.specs.Prelude.{◌≡◌, ℕ, ◌<◌, ◌↔◌, ◌&&◌, ◌||◌, ◌==◌, length, IsTrue, IfOk, IfSome, IfNone};
ghost use Rattle.cell_sets.specs.Sets.{universe_of, has};
ghost use Rattle.exclusion_equations.specs.Finding.{HasWidth, IsSignature, AreSame, signature_at};

use cell_sets::BitRow;
use ckpt_base::NoMemory;
use path_laws::EffectGraph;
use std::alloc::Global;

// The nodes that may read, that may write and that kill a cell.
#[derive(Drop)]
pub(crate) struct Signature {
    reads: BitRow,
    writes: BitRow,
    kills: BitRow,
}

pub(crate) fn set_if(row: &mut BitRow, b: u32, on: bool)
    requires within { b < universe_of row.old }
    ensures universe { universe_of row.new ≡ universe_of row.old }
    ensures answer { (q : ℕ) → has row.new q ≡ (has row.old q || ((q == b) && on)) }
{
    if on {
        row.set(b);
    }
}

pub(crate) fn signature_of(
    alloc: Global,
    graph: &EffectGraph,
    c: u32,
) -> Result<Signature, NoMemory>
    ensures wide { IfOk result (λ s. HasWidth (length graph.now.nodes) s) }
    ensures answer { IfOk result (λ s. IsSignature graph.now c s) }
{
    let mut reading = BitRow::new(alloc, graph.nodes())?;
    let mut writing = BitRow::new(alloc, graph.nodes())?;
    let mut killing = BitRow::new(alloc, graph.nodes())?;
    'nodes: for n in 0..graph.nodes() {
        set_if(&mut reading, n, graph.reads(n).holds(c));
        set_if(&mut writing, n, graph.writes(n).holds(c));
        set_if(&mut killing, n, graph.kills(n).holds(c));
    }
    Ok(Signature {
        reads: reading,
        writes: writing,
        kills: killing,
    })
}

fn are_same(a: &Signature, b: &Signature, width: u32) -> bool
    requires a_wide { HasWidth width a.now }
    requires b_wide { HasWidth width b.now }
    ensures answer { IsTrue result ↔ AreSame a.now b.now }
{
    a.reads.is_same(&b.reads) && a.writes.is_same(&b.writes) && a.kills.is_same(&b.kills)
}

// The class that has the signature, if there is one.
pub(crate) fn class_with(signatures: &[Signature], wanted: &Signature, width: u32) -> Option<usize>
    requires wide { (k : ℕ) → k < length signatures.now → HasWidth width (signature_at signatures.now k) }
    requires wanted_wide { HasWidth width wanted.now }
    ensures found { IfSome result (λ k. (k < length signatures.now) × AreSame (signature_at signatures.now k) wanted.now) }
    ensures none { IfNone result ((k : ℕ) → k < length signatures.now → AreSame (signature_at signatures.now k) wanted.now → ⊥) }
{
    'classes: for k in 0..signatures.len() {
        if are_same(&signatures[k], wanted, width) {
            return Some(k);
        }
    }
    None
}
