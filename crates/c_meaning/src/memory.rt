ghost use Rattle.std.specs.Prelude.{◌≡◌, ◌++◌, [], ◌≤◌, replicate, slice_set, IfOk};
ghost use Rattle.c_tree.specs.Layout.{objects, first_words, cell_count};
ghost use Rattle.c_meaning.specs.Memory.{variables};

use c_tree::Resolved;
use ckpt_base::{NoMemory, word};
use sqlite_items::Items;
use std::alloc::Global;

/// Where an object stands: its first cell and its length.
pub type Object = (u32, u32);

/// The variables of a run.
#[derive(Drop)]
pub struct Memory {
    /// Where the objects stand.
    pub objects: Items<Object>,
    /// The words of the cells.
    pub cells: Items<u64>,
    /// The words of the innermost call's parameters and locals.
    pub locals: Items<u64>,
}

/// The variables with which a program starts.
pub fn first_memory(alloc: Global, tree: &Resolved) -> Result<Memory, NoMemory>
    requires cells { cell_count tree.now ≤ 262144 }
    ensures objects { IfOk result (λ m. m.objects ≡ objects tree.now) }
    ensures cells { IfOk result (λ m. m.cells ≡ first_words tree.now) }
    ensures locals { IfOk result (λ m. m.locals ≡ []) }
{
    let objects = find_objects(alloc, tree)?;
    let cells = first_cells(alloc, tree)?;
    Ok(Memory {
        objects,
        cells,
        locals: Items::new(alloc),
    })
}

/// Where the objects of a program stand.
fn find_objects(alloc: Global, tree: &Resolved) -> Result<Items<Object>, NoMemory>
    requires cells { cell_count tree.now ≤ 262144 }
    ensures answer { IfOk result (λ found. found ≡ objects tree.now) }
{
    let mut found = Items::new(alloc);
    let mut first = 0;
    'objects: for object in tree.objects.as_slice() {
        found.push((first, object.length))?;
        first += object.length;
    }
    Ok(found)
}

/// The words with which the cells of a program start.
fn first_cells(alloc: Global, tree: &Resolved) -> Result<Items<u64>, NoMemory>
    ensures answer { IfOk result (λ cells. cells ≡ first_words tree.now) }
{
    let mut cells = Items::new(alloc);
    'objects: for object in tree.objects.as_slice() {
        fill(
            &mut cells,
            object.length as usize,
            word::word_of(object.first),
        )?;
    }
    fill(&mut cells, tree.main.locals.len(), 0)?;
    Ok(cells)
}

/// Appends a word so many times.
pub fn fill(words: &mut Items<u64>, count: usize, word: u64) -> Result<(), NoMemory>
    ensures filled { IfOk result (λ _. words.new ≡ words.old ++ replicate count word) }
{
    let mut done = 0;
    'words: while done < count {
        words.push(word)?;
        done += 1;
    }
    Ok(())
}

/// Changes a word, where there is one at the place.
#[inline(always)]
pub fn set_word(words: &mut Items<u64>, at: usize, a: u64)
    ensures answer { words.new ≡ slice_set words.old at a }
{
    if at < words.len() {
        words.set(at, a);
    }
}
