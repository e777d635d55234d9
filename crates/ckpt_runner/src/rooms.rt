//! What a life is given, and what it takes memory for.
ghost use Rattle.std.specs.Prelude.{◌≡◌, IfOk, None, ℕ};
ghost use Rattle.image_chain.specs.Memory.{kept_word};
ghost use Rattle.ckpt_runner.specs.NewMemory.{IsNewMemory};

use crate::how::How;
use crate::memory::Memory;
use cell_sets::RunList;
use ckpt_base::NoMemory;
use compiled_program::Compiled;
use dirty_pages::Pages;
use image_format::Marks;
use life_journal::JournalRooms;
use page_frames::Frames;
use paged_machine::Machine;
use std::alloc::Global;

/// How many cells a page has.
const PAGE_CELLS: u32 = 512;

/// What a life is given.
#[derive(Clone, Copy)]
pub(crate) struct Given<'a> {
    pub(crate) compiled: &'a Compiled,
    pub(crate) marks: Marks,
    pub(crate) input: &'a [u8],
    pub(crate) how: How<'a>,
}

/// All that a life takes memory for.
#[derive(Drop)]
pub(crate) struct Rooms {
    pub(crate) memory: Memory,
    pub(crate) journal: JournalRooms,
    pub(crate) runs: RunList,
}

impl Rooms {
    /// Takes all memory of a life. The one refusal is that none is found.
    pub(crate) fn new(alloc: Global, compiled: &Compiled, fill: u8) -> Result<Rooms, NoMemory>
        ensures memory { IfOk result (λ rooms. IsNewMemory compiled.now fill rooms.memory.machine rooms.memory.frames rooms.memory.copies rooms.memory.pages) }
        ensures none { IfOk result (λ rooms. (c : ℕ) → kept_word rooms.journal.kept c ≡ None) }
    {
        let memory = new_memory(alloc, compiled, fill)?;
        let journal = JournalRooms::new(alloc)?;
        let runs = RunList::new(alloc)?;
        Ok(Rooms {
            memory,
            journal,
            runs,
        })
    }
}

// A machine at the entry of the program, over frames whose bytes are the fill, with all pages dirty, and room for a copy of each.
fn new_memory(alloc: Global, compiled: &Compiled, fill: u8) -> Result<Memory, NoMemory>
    ensures answer { IfOk result (λ memory. IsNewMemory compiled.now fill memory.machine memory.frames memory.copies memory.pages) }
{
    let pages = (compiled.cells() + PAGE_CELLS - 1) / PAGE_CELLS;
    Ok(Memory {
        machine: Machine::new(alloc, compiled.code())?,
        frames: Frames::new(alloc, pages, fill)?,
        copies: Frames::new(alloc, pages, fill)?,
        pages: Pages::new(alloc, pages)?,
    })
}
