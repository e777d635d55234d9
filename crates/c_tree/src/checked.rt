ghost use Rattle.std.specs.Prelude.{◌≡◌, ◌<◌, IfOk, length, slice_get, slice_index_or};
ghost use Rattle.c_tree.specs.Nodes.{node_count};
ghost use Rattle.c_tree.specs.Layout.{cell_count, objects, first_words};
ghost use Rattle.c_tree.specs.Excludes.{excludes};
ghost use Rattle.c_tree.specs.CellNames.{cell_name};
ghost use Rattle.c_tree.specs.Checked.{IsChecked};

use crate::cell_names::{element_name, local_name};
use crate::cells::{element, first_word, object_at, object_cells};
use crate::excludes::exclude_count;
use crate::nodes::node_count;
use crate::resolved::Resolved;
use ckpt_base::{NoMemory, Text};
use std::alloc::Global;
use std::marker::Model;

/// How many cells a program may have.
pub const MAX_CELLS: u32 = 262_144;

/// How many parameters and locals a function may have, and how many locals `main`.
pub const MAX_LOCALS: usize = 64;

/// How many nodes `main` may have.
pub const MAIN_NODES: u32 = 2048;

/// How many EXCLUDE_HERE `main` may have.
pub const MAX_EXCLUDES: u32 = 64;

/// A program that keeps the rules of the language. Contracts see its resolved tree.
#[derive(Drop)]
pub struct Checked {
    tree: Resolved,
}

impl Model for Checked {
    ghost use Rattle.std.specs.Coded.{codes};
    ghost use Rattle.c_tree.specs.contracts.resolved.RStmt as stmt;
    ghost use Rattle.c_tree.specs.declared.resolved.Resolved.{Resolved};
    ghost use Rattle.c_tree.specs.Checked.{IsChecked};

    ghost Value = { Resolved };

    ghost coded = { Prim.hlevel (codes, stmt.the_row.coded) };

    ghost view = { λ c. c.tree };

    ghost invariant = { λ c. IsChecked c.tree };
}

impl Checked {
    /// Holds a tree that keeps the rules: those that `IsChecked` names.
    pub fn of(tree: Resolved) -> Checked
        requires checked { IsChecked tree }
        ensures answer { result ≡ tree }
    {
        Checked { tree }
    }

    /// Lends the tree.
    pub fn tree(&self) -> &Resolved
        ensures answer { result.now ≡ self.now }
        ensures checked { IsChecked result.now }
    {
        &self.tree
    }

    /// How many cells the program has: at most `MAX_CELLS`.
    pub fn cells(&self) -> u32
        ensures answer { result ≡ cell_count self.now }
    {
        object_cells(self.tree.objects.as_slice()) + self.tree.main.locals.len() as u32
    }

    /// How many functions the program has beside `main`.
    pub fn functions(&self) -> u32
        ensures answer { result ≡ length self.now.functions }
    {
        self.tree.functions.len() as u32
    }

    /// How many nodes `main` has, the end not counted: at most `MAIN_NODES`.
    pub fn main_nodes(&self) -> u32
        ensures answer { result ≡ node_count self.now.main.body }
    {
        node_count(&self.tree.main.body)
    }

    /// How many EXCLUDE_HERE `main` has: at most `MAX_EXCLUDES`.
    pub fn excludes(&self) -> u16
        ensures answer { result ≡ length (excludes self.now.main.body) }
    {
        exclude_count(&self.tree.main.body) as u16
    }

    /// The first cell and the length of object `number`, where there is one.
    pub fn object(&self, number: u32) -> Option<(u32, u32)>
        ensures answer { result ≡ slice_get (objects self.now) number }
    {
        object_at(self.tree.objects.as_slice(), number)
    }

    /// The word with which a cell of the program starts.
    pub fn first_word(&self, cell: u32) -> u64
        requires within { cell < cell_count self.now }
        ensures answer { result ≡ slice_index_or (first_words self.now) cell 0 }
    {
        first_word(self.tree.objects.as_slice(), cell)
    }

    /// The name of a cell of the program, as a report writes it: `a[3]`, `i`, `main.i`, `main.i#2`.
    pub fn cell_name(&self, alloc: Global, cell: u32) -> Result<Text, NoMemory>
        requires within { cell < cell_count self.now }
        ensures answer { IfOk result (λ t. t ≡ cell_name self.now cell) }
    {
        let objects = self.tree.objects.as_slice();
        match element(objects, cell) {
            Some((object, place)) => element_name(alloc, object.kind, &object.name, place),
            None => {
                let local = cell - object_cells(objects);
                local_name(alloc, self.tree.main.locals.as_slice(), local as usize)
            }
        }
    }
}
