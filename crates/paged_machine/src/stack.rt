// Stacks of words in rooms that are made once.

ghost use Rattle.std.specs.Prelude.{◌≡◌, ℕ, ◌+◌, ◌-◌, ◌<◌, ◌≤◌, ◌∷◌, length, drop, take, slice_index, slice_set, ◌++◌, [], reverse, replicate, IfOk};
ghost use Rattle.paged_machine.specs.MachineView.{Stacked};

use std::alloc::{AllocError, Global};
use std::marker::Model;

/// Operands: contracts see the topmost first.
#[derive(Drop)]
pub struct Stack {
    words: Vec<u64>,
    top: usize,
}

impl Model for Stack {
    ghost use Rattle.std.specs.Prelude.{◌≤◌, vec_len};
    ghost use Rattle.paged_machine.specs.MachineView.{Stacked, tops};

    ghost Value = { Stacked };

    ghost view = { λ s. record { items = tops s.words.items s.top; room = vec_len s.words } };

    ghost invariant = { λ s. s.top ≤ vec_len s.words };
}

impl Stack {
    /// No word, with room for so many.
    pub fn new(alloc: Global, room: usize) -> Result<Stack, AllocError>
        ensures { IfOk result (λ s. s ≡ record { items = []; room = room }) }
    {
        Ok(Stack {
            words: vec![in alloc; 0; room]?,
            top: 0,
        })
    }

    /// How many words there are.
    #[inline(always)]
    pub fn len(&self) -> usize
        ensures { result ≡ length self.now.items }
    {
        self.top
    }

    /// The word that stands k below the topmost.
    #[inline(always)]
    pub fn word(&self, k: usize) -> u64
        requires { k < length self.now.items }
        ensures { result ≡ slice_index self.now.items k }
    {
        self.words[self.top - 1 - k]
    }

    /// Puts a word in the place of the n topmost.
    #[inline(always)]
    pub fn replace(&mut self, n: usize, v: u64)
        requires enough { n ≤ length self.old.items }
        requires room { length self.old.items < self.old.room + n }
        ensures { self.new ≡ record { items = v ∷ drop n self.old.items; room = self.old.room } }
    {
        let at = self.top - n;
        self.words[at] = v;
        self.top = at + 1;
    }

    /// Takes away the n topmost.
    #[inline(always)]
    pub fn cut(&mut self, n: usize)
        requires { n ≤ length self.old.items }
        ensures { self.new ≡ record { items = drop n self.old.items; room = self.old.room } }
    {
        self.top -= n;
    }
}

/// Locals: contracts see the first first.
#[derive(Drop)]
pub struct Locals {
    words: Vec<u64>,
    top: usize,
}

impl Model for Locals {
    ghost use Rattle.std.specs.Prelude.{◌≤◌, vec_len, take};
    ghost use Rattle.paged_machine.specs.MachineView.{Stacked};

    ghost Value = { Stacked };

    ghost view = { λ s. record { items = take s.top s.words.items; room = vec_len s.words } };

    ghost invariant = { λ s. s.top ≤ vec_len s.words };
}

impl Locals {
    /// No local, with room for so many.
    pub fn new(alloc: Global, room: usize) -> Result<Locals, AllocError>
        ensures { IfOk result (λ s. s ≡ record { items = []; room = room }) }
    {
        Ok(Locals {
            words: vec![in alloc; 0; room]?,
            top: 0,
        })
    }

    /// How many locals there are, those of all calls.
    #[inline(always)]
    pub fn len(&self) -> usize
        ensures { result ≡ length self.now.items }
    {
        self.top
    }

    /// Local `i` of the call whose locals begin at `base`.
    #[inline(always)]
    pub fn get(&self, base: usize, i: u32) -> u64
        requires { base + i < length self.now.items }
        ensures { result ≡ slice_index self.now.items (base + i) }
    {
        self.words[base + i as usize]
    }

    /// Stores into local `i` of the call whose locals begin at `base`.
    #[inline(always)]
    pub fn set(&mut self, base: usize, i: u32, v: u64)
        requires { base + i < length self.old.items }
        ensures { self.new ≡ record { items = slice_set self.old.items (base + i) v; room = self.old.room } }
    {
        self.words[base + i as usize] = v;
    }

    /// Adds a local behind the others.
    #[inline(always)]
    pub fn push(&mut self, v: u64)
        requires { length self.old.items < self.old.room }
        ensures { self.new ≡ record { items = self.old.items ++ v ∷ []; room = self.old.room } }
    {
        self.words[self.top] = v;
        self.top += 1;
    }

    /// Drops the locals from the `n`-th on.
    #[inline(always)]
    pub fn cut_to(&mut self, n: usize)
        requires { n ≤ length self.old.items }
        ensures { self.new ≡ record { items = take n self.old.items; room = self.old.room } }
    {
        self.top = n;
    }

    /// Adds the topmost operands, the lowest of them first.
    fn push_arguments(&mut self, operands: &Stack, parameters: usize)
        requires enough { parameters ≤ length operands.now.items }
        requires room { length self.old.items + parameters ≤ self.old.room }
        ensures { self.new ≡ record { items = self.old.items ++ reverse (take parameters operands.now.items); room = self.old.room } }
    {
        for k in 0..parameters {
            self.push(operands.word(parameters - 1 - k));
        }
    }

    fn push_zeros(&mut self, n: usize)
        requires { length self.old.items + n ≤ self.old.room }
        ensures { self.new ≡ record { items = self.old.items ++ replicate n 0; room = self.old.room } }
    {
        for _ in 0..n {
            self.push(0);
        }
    }

    /// Adds the locals of a call: its arguments, and zeros.
    pub fn enter(&mut self, operands: &Stack, parameters: usize, locals: usize)
        requires enough { parameters ≤ length operands.now.items }
        requires more { parameters ≤ locals }
        requires room { length self.old.items + locals ≤ self.old.room }
        ensures { self.new ≡ record { items = self.old.items ++ (reverse (take parameters operands.now.items) ++ replicate (locals - parameters) 0); room = self.old.room } }
    {
        self.push_arguments(operands, parameters);
        self.push_zeros(locals - parameters);
    }
}
