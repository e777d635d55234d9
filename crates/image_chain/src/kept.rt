//! The joined content of a chain.
ghost use Rattle.std.specs.Prelude.{◌≡◌, ◌<◌, ◌≤◌, ◌+◌, ◌*◌, ◌++◌, ◌&&◌, ℕ, length, slice_index_or, nat_le, nat_lt, if◌then◌else◌, true, false, IfOk, None};
ghost use Rattle.std.specs.Option.{option_or};
ghost use Rattle.page_frames.specs.Words.{words_of};
ghost use Rattle.image_format.specs.Image.{InRange, IsImage, word_in_run, word_in_runs};
ghost use Rattle.image_format.specs.Spelling.{image_length, spelling};
ghost use Rattle.image_format.specs.Written.{AreListed, filled, image_of, size_of_runs};
ghost use Rattle.image_chain.specs.Memory.{AreKept, joined, kept_in, kept_word};

use cell_sets::Run;
use ckpt_base::{Bytes, NoMemory};
use image_format::{Fields, ImageView, write_record};
use page_frames::Frames;
use std::alloc::Global;
use std::marker::Model;

/// How many cells a chain can list.
const CELLS: usize = 262_144;

/// The pages that they fill.
const PAGES: u32 = 512;

/// The joined content of a chain: a word or nothing for each of 262,144 cells. Contracts see the words, and which cells are listed.
#[derive(Drop)]
pub struct Kept {
    words: Frames,
    listed: Vec<bool>,
}

impl Model for Kept {
    ghost use Rattle.std.specs.Prelude.{◌≡◌, length, vec_len};
    ghost use Rattle.image_chain.specs.Memory.{Joined};

    ghost Value = { Joined };

    ghost view = { λ k. record { words = k.words; listed = k.listed.items } };

    ghost invariant = { λ k. (length k.words ≡ 262144) × (vec_len k.listed ≡ 262144) };
}

impl Kept {
    /// Lists no cell.
    pub fn new(alloc: Global) -> Result<Kept, NoMemory>
        ensures answer { IfOk result (λ k. (c : ℕ) → kept_word k c ≡ None) }
    {
        Ok(Kept {
            words: Frames::new(alloc, PAGES, 0)?,
            listed: vec![in alloc; false; CELLS]?,
        })
    }

    /// The word of a cell, or none where the cell is not listed.
    pub fn word(&self, c: u32) -> Option<u64>
        requires cell { c < 262144 }
        ensures answer { result ≡ kept_word self.now c }
    {
        if self.listed[c as usize] {
            Some(self.words.word(c))
        } else {
            None
        }
    }

    /// No cell past the 262,144 is listed.
    pub fn tells(&self)
        ensures none { (c : ℕ) → 262144 ≤ c → kept_word self.now c ≡ None }
    {
        let _listed = &self.listed;
    }

    /// Lists the cells of the record with its words, and leaves the others.
    pub fn add(&mut self, view: &ImageView<'_>)
        ensures answer { (c : ℕ) → kept_word self.new c ≡ option_or (word_in_runs view.now.runs c) (kept_word self.old c) }
    {
        add_runs(&mut self.words, self.listed.as_mut_slice(), view);
    }

    /// Appends the record of the image that lists the cells of `runs`, each of which is listed here, with their words. Its last gate
    /// is closed.
    pub fn write_record(&self, fields: &Fields, runs: &[Run], out: &mut Bytes)
        requires ranges { InRange fields.now }
        requires rising { AreListed runs.now }
        requires kept { AreKept self.now runs.now }
        requires room { 109 + size_of_runs runs.now ≤ out.old.spare }
        ensures list { out.new.list ≡ out.old.list ++ spelling (image_of fields.now runs.now self.now.words) 0 }
        ensures spare { out.new.spare + 109 + size_of_runs runs.now ≡ out.old.spare }
        ensures found { IsImage (image_of fields.now runs.now self.now.words) }
        ensures size { image_length (image_of fields.now runs.now self.now.words) ≡ 109 + size_of_runs runs.now }
        ensures words { (c : ℕ) → word_in_runs (filled self.now.words runs.now) c ≡ kept_in runs.now self.now c }
    {
        write_record(fields, runs, &self.words, out);
    }
}

fn add_runs(words: &mut Frames, listed: &mut [bool], view: &ImageView<'_>)
    requires words { length words.old ≡ 262144 }
    requires listed { length listed.old ≡ 262144 }
    ensures size { length words.new ≡ length words.old }
    ensures kept { (c : ℕ) → kept_word (joined words.new listed.new) c ≡ option_or (word_in_runs view.now.runs c) (kept_word (joined words.old listed.old) c) }
{
    for run in view.runs() {
        add_run(words, listed, run.first, run.count, run.words);
    }
}

fn add_run(words: &mut Frames, listed: &mut [bool], first: u32, count: u32, bytes: &[u8])
    requires words { first + count ≤ length words.old }
    requires listed { length listed.old ≡ length words.old }
    requires bytes { length bytes.now ≡ 8 * count }
    requires bound { first + count ≤ 262144 }
    ensures size { length words.new ≡ length words.old }
    ensures kept { (c : ℕ) → kept_word (joined words.new listed.new) c
        ≡ option_or (word_in_run (record { first = first; words = words_of bytes.now count }) c) (kept_word (joined words.old listed.old) c) }
{
    words.load_cells(first, count, bytes);
    list(listed, first, count);
}

// Lists the cells from `first` on.
fn list(listed: &mut [bool], first: u32, count: u32)
    requires cells { first + count ≤ length listed.old }
    requires bound { first + count ≤ 262144 }
    ensures { (c : ℕ) → slice_index_or listed.new c false ≡ (if nat_le first c && nat_lt c (first + count) then true else slice_index_or listed.old c false) }
{
    for i in 0..count {
        listed[(first + i) as usize] = true;
    }
}
