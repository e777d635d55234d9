//! A life, and what it answers of itself.
ghost use Rattle.std.specs.Prelude.{◌≡◌, ◌&&◌, not};

use crate::memory::Memory;
use crate::progress::Progress;
use crate::started::Started;
use cell_sets::RunList;
use compiled_program::Compiled;
use dirty_pages::Pages;
use image_format::Marks;
use life_journal::Journal;
use page_frames::Frames;
use paged_machine::Machine;
use std::marker::Model;

/// One life of a program.
#[derive(Drop)]
pub struct Life<'a> {
    pub(crate) compiled: &'a Compiled,
    pub(crate) marks: Marks,
    pub(crate) input: &'a [u8],
    pub(crate) pace: &'a [u32],
    pub(crate) memory: Memory,
    pub(crate) progress: Progress,
    pub(crate) journal: Journal,
    pub(crate) runs: RunList,
    pub(crate) started: Started,
    pub(crate) failed: bool,
    pub(crate) finished: bool,
}

impl<'a> Model for Life<'a> {
    ghost use Rattle.ckpt_runner.specs.LifeView.{LifeView, Idle};
    ghost use Rattle.ckpt_runner.specs.SoundLife.{IsSoundLife};

    ghost Value = { LifeView };

    ghost view = { λ l. record { compiled = l.compiled.now; marks = l.marks; input = l.input.now; pace = l.pace.now; machine = l.memory.machine; frames = l.memory.frames; copies = l.memory.copies; pages = l.memory.pages; progress = l.progress; journal = l.journal; writer = Idle; started = l.started; failed = l.failed; finished = l.finished } };

    ghost invariant = { λ l. IsSoundLife (record { compiled = l.compiled.now; marks = l.marks; input = l.input.now; pace = l.pace.now; machine = l.memory.machine; frames = l.memory.frames; copies = l.memory.copies; pages = l.memory.pages; progress = l.progress; journal = l.journal; writer = Idle; started = l.started; failed = l.failed; finished = l.finished }) };
}

impl<'a> Life<'a> {
    /// Lends the machine.
    pub fn machine(&self) -> &Machine
        ensures answer { result.now ≡ self.now.machine }
    {
        &self.memory.machine
    }

    /// Lends the memory.
    pub fn frames(&self) -> &Frames
        ensures answer { result.now ≡ self.now.frames }
    {
        &self.memory.frames
    }

    /// Lends the flags of the pages.
    pub fn pages(&self) -> &Pages
        ensures answer { result.now ≡ self.now.pages }
    {
        &self.memory.pages
    }

    /// How the life started.
    pub fn started(&self) -> Started
        ensures answer { result ≡ self.now.started }
    {
        self.started
    }

    /// How many ticks were taken.
    pub fn ticks(&self) -> u64
        ensures answer { result ≡ self.now.machine.state.ticks }
    {
        self.memory.machine.ticks()
    }

    /// The number of the newest image that was taken; before the life takes one, that of the image from which it was resumed, or 0 where it was begun.
    pub fn images(&self) -> u32
        ensures answer { result ≡ self.now.progress.number }
    {
        self.progress.number
    }

    /// Whether the life can go on: its program has neither ended nor trapped, no call of it has failed, and it was not finished.
    pub fn is_live(&self) -> bool
        ensures answer { result ≡ (not self.now.failed && (not self.now.finished && self.now.machine.live)) }
    {
        !self.failed && (!self.finished && self.memory.machine.is_live())
    }
}
