//! The names that are known at a place of a file.

ghost use Rattle.std.specs.Prelude.{◌≡◌, OnOk, is_some, slice_get, true};
ghost use Rattle.std.specs.Option.{option_copied};
ghost use Rattle.c_types.specs.File as spec;
ghost use Rattle.c_tree.specs.Checked.{has_cells, starts_rightly};
ghost use Rattle.c_types.specs.File.{StandBetween, AreFormed};

use c_tree::ObjectKind;
use ckpt_base::{NoMemory, Text};
use indexmap::IndexMap;
use sqlite_items::{Items, at};
use std::alloc::Global;
use std::marker::Model;

/// What a name of the file means.
#[derive(Clone, Copy, Debug, PartialEq, Eq)]
pub enum Meaning {
    /// The object of a number.
    Object(u32),
    /// A number.
    Constant(i64),
    /// A function, or `main`.
    Function,
}

/// An object of the file.
#[derive(Drop)]
pub struct FileObject {
    /// Its name.
    pub name: Text,
    /// What it is.
    pub kind: ObjectKind,
    /// How many cells it has.
    pub length: u64,
    /// The number with which it starts.
    pub first: i64,
    /// The number of its first cell, which ends at the greatest.
    pub cell: u32,
}

/// What a call of a function takes and answers.
#[derive(Drop)]
pub struct Signature {
    /// Which parameters are pointers.
    pub parameters: Items<bool>,
    /// Whether the answer is a pointer.
    pub gives_pointer: bool,
}

/// A place in a file. Contracts see it as a `File`.
#[derive(Drop)]
pub struct FileNames {
    names: IndexMap<Text, Meaning>,
    made: u32,
    objects: Items<FileObject>,
    cells: u128,
    functions: IndexMap<Text, u32>,
    signatures: Items<Signature>,
}

impl Model for FileNames {
    ghost use Rattle.c_types.specs.File.{File, StandBetween, AreFormed};

    ghost Value = { File };

    ghost view = { λ f. record { names = f.names.entries; made = f.made; objects = f.objects; cells = f.cells; functions = f.functions.entries; signatures = f.signatures } };

    ghost invariant = { λ f. record { stand : StandBetween 0 f.objects f.cells; formed : AreFormed f.objects } };
}

impl FileNames {
    /// The place before everything.
    pub fn new(alloc: Global) -> FileNames
        ensures answer { result ≡ spec.no_file }
    {
        FileNames {
            names: IndexMap::new(alloc),
            made: 0,
            objects: Items::new(alloc),
            cells: 0,
            functions: IndexMap::new(alloc),
            signatures: Items::new(alloc),
        }
    }

    /// What a name means, if it is known.
    pub fn global(&self, name: &Text) -> Option<Meaning>
        ensures answer { result ≡ spec.global self.now name.now }
    {
        self.names.get(name).copied()
    }

    /// Whether a name is known.
    pub fn is_known(&self, name: &Text) -> bool
        ensures answer { result ≡ is_some (spec.global self.now name.now) }
    {
        self.names.contains_key(name)
    }

    /// The number of the function of a name, if the file has one.
    pub fn function(&self, name: &Text) -> Option<u32>
        ensures answer { result ≡ spec.function self.now name.now }
    {
        self.functions.get(name).copied()
    }

    /// How many constants were made so far.
    pub fn made(&self) -> u32
        ensures answer { result ≡ self.now.made }
    {
        self.made
    }

    /// The object of a number, if there is one.
    pub fn object(&self, number: u32) -> Option<&FileObject>
        ensures answer { option_copied result ≡ slice_get self.now.objects number }
    {
        at(self.objects.as_slice(), number as usize)
    }

    /// Lends the objects.
    pub fn objects(&self) -> &[FileObject]
        ensures answer { result.now ≡ self.now.objects }
        ensures stand { StandBetween 0 self.now.objects self.now.cells }
        ensures formed { AreFormed self.now.objects }
    {
        self.objects.as_slice()
    }

    /// How many cells the objects have.
    pub fn cells(&self) -> u128
        ensures answer { result ≡ self.now.cells }
    {
        self.cells
    }

    /// The signature of the function of a number, if there is one.
    pub fn signature(&self, number: u32) -> Option<&Signature>
        ensures answer { option_copied result ≡ slice_get self.now.signatures number }
    {
        at(self.signatures.as_slice(), number as usize)
    }

    /// Makes a name known.
    pub fn add_name(&mut self, alloc: Global, name: &Text, meaning: Meaning) -> Result<(), NoMemory>
        ensures answer { OnOk result (self.new ≡ spec.with_name self.old name.now meaning) }
    {
        let key = name.copy(alloc)?;
        let done = self.names.insert(key, meaning);
        if done.is_err() {
            return Err(NoMemory);
        }
        Ok(())
    }

    /// Makes a constant.
    pub fn add_constant(&mut self, alloc: Global, name: &Text, number: i64) -> Result<(), NoMemory>
        ensures answer { OnOk result (self.new ≡ spec.with_constant self.old name.now number) }
    {
        self.add_name(alloc, name, Meaning::Constant(number))?;
        if self.made == u32::MAX {
            return Err(NoMemory);
        }
        self.made += 1;
        Ok(())
    }

    /// Makes an object, behind the others.
    pub fn add_object(
        &mut self,
        alloc: Global,
        name: &Text,
        kind: ObjectKind,
        length: u64,
        first: i64,
    ) -> Result<(), NoMemory>
        requires sized { has_cells kind length ≡ true }
        requires first { starts_rightly kind first ≡ true }
        ensures answer { OnOk result (self.new ≡ spec.with_object self.old name.now kind length first) }
    {
        let number = self.objects().len();
        if number >= u32::MAX as usize {
            return Err(NoMemory);
        }
        self.add_name(alloc, name, Meaning::Object(number as u32))?;
        let cell = cell_number(self.cells());
        let name = name.copy(alloc)?;
        self.push_object(FileObject {
            name,
            kind,
            length,
            first,
            cell,
        })
    }

    /// Puts an object behind the others.
    fn push_object(&mut self, object: FileObject) -> Result<(), NoMemory>
        requires place { object.cell ≡ spec.cell_number self.old.cells }
        requires sized { has_cells object.kind object.length ≡ true }
        requires first { starts_rightly object.kind object.first ≡ true }
        ensures answer { OnOk result (self.new ≡ spec.with_cells_of self.old object) }
    {
        let Some(cells) = self.cells.checked_add(object.length as u128) else {
            return Err(NoMemory);
        };
        self.objects.push(object)?;
        self.cells = cells;
        Ok(())
    }

    /// Makes a function known by its number.
    pub fn add_function(&mut self, alloc: Global, name: &Text, number: u32) -> Result<(), NoMemory>
        ensures answer { OnOk result (self.new ≡ spec.with_function self.old name.now number) }
    {
        let key = name.copy(alloc)?;
        let done = self.functions.insert(key, number);
        if done.is_err() {
            return Err(NoMemory);
        }
        Ok(())
    }

    /// Makes known what the functions take and answer.
    pub fn set_signatures(&mut self, signatures: Items<Signature>)
        ensures answer { self.new ≡ spec.with_signatures self.old signatures }
    {
        self.signatures = signatures;
    }
}

/// The number of a cell, which ends at the greatest.
pub fn cell_number(cell: u128) -> u32
    ensures answer { result ≡ spec.cell_number cell }
{
    if cell < u32::MAX as u128 {
        cell as u32
    } else {
        u32::MAX
    }
}
