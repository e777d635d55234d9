ghost use Rattle.std.specs.Prelude.{◌≡◌, ℕ, ◌+◌, ◌-◌, ◌<◌, [], ◌∷◌, ◌++◌, length, slice_index, IfOk, OnOk};
ghost use Rattle.cell_sets.specs.Sets.{universe_of, has};
ghost use Rattle.exclusion_equations.specs.Classes.{AreClasses, class_of, class_count, first_of};
ghost use Rattle.exclusion_equations.specs.Finding.{AreBorders, AreFound};

use crate::borders::borders;
use crate::signature::{Signature, class_with, signature_of};
use cell_sets::BitRow;
use ckpt_base::NoMemory;
use path_laws::EffectGraph;
use std::alloc::{AllocError, Global};
use std::marker::Model;

/// The classes of the cells of an effect graph, numbered from 0 by their least cells.
///
/// Two cells are in one class exactly where every node has both or neither in its reads, in its writes and in its kills.
#[derive(Drop)]
pub struct Classes {
    numbers: Vec<u32>,
    firsts: Vec<u32>,
}

impl Model for Classes {
    ghost use Rattle.std.specs.Prelude.{◌<◌, ◌^◌, length};
    ghost use Rattle.exclusion_equations.specs.Classes.{Partition};

    ghost Value = { Partition };

    ghost view = { λ p. record { numbers = p.numbers.items; firsts = p.firsts.items } };

    ghost invariant = { λ p. length p.firsts.items < 2 ^ 32 };
}

impl Classes {
    /// Finds the classes.
    pub fn of(alloc: Global, graph: &EffectGraph) -> Result<Classes, NoMemory>
        ensures exact { IfOk result (λ p. AreClasses graph.now p) }
    {
        let borders = borders(alloc, graph)?;
        let mut numbers = Vec::new(alloc);
        let mut firsts = Vec::new(alloc);
        let mut signatures = Vec::new(alloc);
        'cells: for c in 0..graph.cells() {
            place(
                alloc,
                graph,
                c,
                &borders,
                &mut numbers,
                &mut firsts,
                &mut signatures,
            )?;
        }
        Ok(Classes { numbers, firsts })
    }

    /// The number of classes.
    pub fn count(&self) -> u32
        ensures answer { result ≡ class_count self.now }
    {
        self.firsts.len() as u32
    }

    /// The class of cell `c`.
    pub fn class(&self, c: u32) -> u32
        requires cell { c < length self.now.numbers }
        ensures answer { result ≡ class_of self.now c }
    {
        self.numbers[c as usize]
    }

    /// The least cell of class `k`.
    pub fn least(&self, k: u32) -> u32
        requires class { k < class_count self.now }
        ensures answer { result ≡ first_of self.now k }
    {
        self.firsts[k as usize]
    }
}

// Puts cell `c` into its class.
fn place(
    alloc: Global,
    graph: &EffectGraph,
    c: u32,
    borders: &BitRow,
    numbers: &mut Vec<u32>,
    firsts: &mut Vec<u32>,
    signatures: &mut Vec<Signature>,
) -> Result<(), NoMemory>
    requires cell { c < graph.now.cells }
    requires universe { universe_of borders.now ≡ graph.now.cells }
    requires borders { AreBorders graph.now borders.now }
    requires found { AreFound graph.now c numbers.old.items firsts.old.items signatures.old.items }
    ensures found { OnOk result (AreFound graph.now (c + 1) numbers.new.items firsts.new.items signatures.new.items) }
{
    if c > 0 && !borders.get(c) {
        repeat_last(numbers)?;
        Ok(())
    } else {
        classify(alloc, graph, c, numbers, firsts, signatures)
    }
}

// Puts the next cell into the class of the one before it.
fn repeat_last(numbers: &mut Vec<u32>) -> Result<(), AllocError>
    requires some { 0 < length numbers.old.items }
    ensures answer { OnOk result (numbers.new.items ≡ numbers.old.items ++ slice_index numbers.old.items (length numbers.old.items - 1) ∷ []) }
{
    let last = numbers[numbers.len() - 1];
    numbers.push(last)?;
    Ok(())
}

// Puts cell `c` into the class with its signature, or into a class of its own.
fn classify(
    alloc: Global,
    graph: &EffectGraph,
    c: u32,
    numbers: &mut Vec<u32>,
    firsts: &mut Vec<u32>,
    signatures: &mut Vec<Signature>,
) -> Result<(), NoMemory>
    requires cell { c < graph.now.cells }
    requires found { AreFound graph.now c numbers.old.items firsts.old.items signatures.old.items }
    ensures found { OnOk result (AreFound graph.now (c + 1) numbers.new.items firsts.new.items signatures.new.items) }
{
    let wanted = signature_of(alloc, graph, c)?;
    match class_with(signatures, &wanted, graph.nodes()) {
        Some(k) => push(numbers, k as u32)?,
        None => {
            push(numbers, firsts.len() as u32)?;
            push(firsts, c)?;
            push_signature(signatures, wanted)?;
        }
    }
    Ok(())
}

fn push(list: &mut Vec<u32>, n: u32) -> Result<(), AllocError>
    ensures answer { OnOk result (list.new.items ≡ list.old.items ++ n ∷ []) }
{
    list.push(n)?;
    Ok(())
}

fn push_signature(list: &mut Vec<Signature>, signature: Signature) -> Result<(), AllocError>
    ensures answer { OnOk result (list.new.items ≡ list.old.items ++ signature ∷ []) }
{
    list.push(signature)?;
    Ok(())
}
