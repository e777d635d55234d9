//! The names that are known at a place in a function.

ghost use Rattle.std.specs.Prelude.{◌≡◌, IfOk, OnOk, map, length};
ghost use Rattle.c_types.specs.Scope as spec;
ghost use Rattle.c_types.specs.Scope.{Env};

use c_tree::RLocal;
use ckpt_base::{NoMemory, Text};
use indexmap::IndexMap;
use sqlite_items::Items;
use std::alloc::Global;
use std::marker::Model;
use std::mem;

/// The names that a block has declared, each with the number of its local.
type Block = IndexMap<Text, u32>;

/// A place in a function. Contracts see it as an `Env`.
#[derive(Drop)]
pub struct Scope {
    outer: Vec<Block>,
    inner: Block,
    locals: Items<RLocal>,
    excludes: u32,
}

impl Model for Scope {
    ghost use Rattle.std.specs.Prelude.{map};
    ghost use Rattle.c_types.specs.Scope.{Env};

    ghost Value = { Env };

    ghost view = { λ s. record { outer = map (λ b. b.entries) s.outer.items; inner = s.inner.entries; locals = s.locals; excludes = s.excludes } };
}

/// The local that a name means in some blocks, the innermost last.
fn innermost(blocks: &[Block], name: &Text) -> Option<u32>
    ensures answer { result ≡ spec.innermost (map (λ b. b.entries) blocks.now) name.now }
{
    let mut found = None;
    for block in blocks {
        if let Some(number) = block.get(name) {
            found = Some(*number);
        }
    }
    found
}

impl Scope {
    /// The place where a function begins.
    pub fn entry(alloc: Global) -> Scope
        ensures answer { result ≡ spec.entry }
    {
        Scope {
            outer: Vec::new(alloc),
            inner: IndexMap::new(alloc),
            locals: Items::new(alloc),
            excludes: 0,
        }
    }

    /// The number of the local that a name means, if it means one.
    pub fn local(&self, name: &Text) -> Option<u32>
        ensures answer { result ≡ spec.local self.now name.now }
    {
        match self.inner.get(name) {
            Some(number) => Some(*number),
            None => innermost(&self.outer, name),
        }
    }

    /// Whether the innermost block has declared the name.
    pub fn is_declared(&self, name: &Text) -> bool
        ensures answer { result ≡ spec.is_declared self.now name.now }
    {
        self.inner.contains_key(name)
    }

    /// Lends the parameters and locals that were declared so far.
    pub fn locals(&self) -> &[RLocal]
        ensures answer { result.now ≡ self.now.locals }
    {
        self.locals.as_slice()
    }

    /// How many EXCLUDE_HERE were passed.
    pub fn excludes(&self) -> u32
        ensures answer { result ≡ self.now.excludes }
    {
        self.excludes
    }

    /// Begins a block.
    pub fn enter(&mut self, alloc: Global) -> Result<(), NoMemory>
        ensures answer { OnOk result (self.new ≡ spec.enter self.old) }
    {
        let around = mem::replace(&mut self.inner, IndexMap::new(alloc));
        let done = self.outer.push(around);
        if done.is_err() {
            return Err(NoMemory);
        }
        Ok(())
    }

    /// Ends a block.
    pub fn leave(&mut self)
        ensures answer { self.new ≡ spec.leave self.old }
    {
        match self.outer.pop() {
            Some(around) => self.inner = around,
            None => self.inner.clear(),
        }
    }

    /// Declares a name in the innermost block.
    pub fn declare(&mut self, alloc: Global, name: &Text, is_pointer: bool) -> Result<(), NoMemory>
        ensures answer { OnOk result (self.new ≡ spec.declare self.old name.now is_pointer) }
    {
        let number = self.locals.len();
        if number >= u32::MAX as usize {
            return Err(NoMemory);
        }
        let key = name.copy(alloc)?;
        let done = self.inner.insert(key, number as u32);
        if done.is_err() {
            return Err(NoMemory);
        }
        let name = name.copy(alloc)?;
        self.locals.push(RLocal { name, is_pointer })?;
        Ok(())
    }

    /// Passes an EXCLUDE_HERE.
    pub fn exclude(&mut self) -> Result<(), NoMemory>
        ensures answer { OnOk result (self.new ≡ spec.exclude self.old) }
    {
        if self.excludes == u32::MAX {
            return Err(NoMemory);
        }
        self.excludes += 1;
        Ok(())
    }

    /// Ends a function: its parameters and locals.
    pub fn into_locals(self) -> Items<RLocal>
        ensures answer { result ≡ self.locals }
    {
        self.locals
    }
}
