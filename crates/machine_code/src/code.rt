// Codes.

ghost use Rattle.std.specs.Prelude.{◌≡◌, ◌<◌, ◌^◌, ℕ, false, length, slice_get, Some, IfSome, IsNone, IsTrue};
ghost use Rattle.machine_code.specs.CodeView.{CodeView, most_locals};
ghost use Rattle.machine_code.specs.Valid.{has_checkpoint};

use crate::instr::Instr;
use std::marker::Model;

/// What a machine runs: instructions, functions (start, parameters, locals), objects (first cell, length), checkpoints (node, place after it) and the
/// greatest operand depth.
#[derive(Drop)]
pub struct Code {
    pub(crate) instrs: Vec<Instr>,
    pub(crate) functions: Vec<(u32, u32, u32)>,
    pub(crate) objects: Vec<(u32, u32)>,
    pub(crate) checkpoints: Vec<(u32, u32)>,
    pub(crate) stack: u32,
}

impl Model for Code {
    ghost use Rattle.std.specs.Prelude.{◌<◌, ◌^◌};
    ghost use Rattle.machine_code.specs.CodeView.{CodeView};

    ghost Value = { CodeView };

    ghost view = { λ c. record { instrs = c.instrs.items; functions = c.functions.items; objects = c.objects.items; checkpoints = c.checkpoints.items; stack = c.stack } };

    ghost invariant = { λ c. c.stack < 2 ^ 32 };
}

impl Code {
    /// A code of these parts.
    pub fn of(
        instrs: Vec<Instr>,
        functions: Vec<(u32, u32, u32)>,
        objects: Vec<(u32, u32)>,
        checkpoints: Vec<(u32, u32)>,
        stack: u32,
    ) -> Code
        ensures answer { result ≡ record { instrs = instrs.items; functions = functions.items; objects = objects.items; checkpoints = checkpoints.items; stack = stack } }
    {
        Code {
            instrs,
            functions,
            objects,
            checkpoints,
            stack,
        }
    }

    /// Instruction `i`, counted from 0; None exactly where there is none.
    pub fn instr(&self, i: u32) -> Option<Instr>
        ensures answer { result ≡ slice_get self.now.instrs i }
    {
        self.instrs.get(i as usize).copied()
    }

    /// Function `i`, counted from 0, as its start, its number of parameters and its number of locals; None exactly where there is none.
    #[inline(always)]
    pub fn function(&self, i: u32) -> Option<(u32, u32, u32)>
        ensures answer { result ≡ slice_get self.now.functions i }
    {
        self.functions.get(i as usize).copied()
    }

    /// Object `i`, counted from 0, as its first cell and its length; None exactly where there is none.
    #[inline(always)]
    pub fn object(&self, i: u32) -> Option<(u32, u32)>
        ensures answer { result ≡ slice_get self.now.objects i }
    {
        self.objects.get(i as usize).copied()
    }

    /// Checkpoint `i`, counted from 0, as its node and the place after its instruction; None exactly where there is none.
    pub fn checkpoint(&self, i: u32) -> Option<(u32, u32)>
        ensures answer { result ≡ slice_get self.now.checkpoints i }
    {
        self.checkpoints.get(i as usize).copied()
    }

    /// The greatest operand depth.
    pub fn stack(&self) -> u32
        ensures answer { result ≡ self.now.stack }
    {
        self.stack
    }

    /// How many instructions there are.
    #[inline(always)]
    pub fn len(&self) -> usize
        ensures answer { result ≡ length self.now.instrs }
        ensures short { length self.now.instrs < 2 ^ 63 }
    {
        self.instrs.len()
    }

    /// The instruction at a place.
    #[inline(always)]
    pub fn fetch(&self, place: usize) -> Instr
        requires place { place < length self.now.instrs }
        ensures answer { slice_get self.now.instrs place ≡ Some result }
        ensures short { length self.now.instrs < 2 ^ 63 }
    {
        self.instrs[place]
    }

    /// The function of a number, as its start, its number of parameters and its number of locals.
    #[inline(always)]
    pub fn function_at(&self, f: u32) -> (u32, u32, u32)
        requires function { f < length self.now.functions }
        ensures answer { slice_get self.now.functions f ≡ Some result }
    {
        self.functions[f as usize]
    }

    /// The place after the checkpoint of a node; None exactly where there is none.
    pub fn place_after(&self, node: u32) -> Option<u32>
        ensures found { IfSome result (λ q. IsTrue (has_checkpoint self.now node q)) }
        ensures none { IsNone result → (q : ℕ) → has_checkpoint self.now node q ≡ false }
    {
        for k in self.checkpoints.iter() {
            if k.0 == node {
                return Some(k.1);
            }
        }
        None
    }

    /// The greatest number of locals of a function, or 0 where there is none.
    pub fn most_locals(&self) -> u32
        ensures answer { result ≡ most_locals self.now.functions }
    {
        let mut most = 0;
        for f in self.functions.iter() {
            if f.2 > most {
                most = f.2;
            }
        }
        most
    }
}
