//! The memory of a machine, in whole pages of 512 cells; a cell is a word of eight bytes, the highest first.
//!
//! The layers above read and write cells, and lend whole pages as the 4,096 bytes that an image holds.
//! Contracts see the memory as the list of its words. The bytes of a page are those of its words, one word
//! after another: `frame` is the only contract that speaks of them.
#![tactic(auto)]

ghost use Rattle.std.specs.Prelude.{◌≡◌, ℕ, take, drop, ◌+◌, ◌*◌, ◌<◌, ◌≤◌, ◌^◌, length, slice_index, slice_set, replicate, IfOk};
ghost use Rattle.std.specs.Int.{w64, to_be_bytes, from_be_bytes};
ghost use Rattle.std.specs.List.{flat_map};
ghost use Rattle.page_frames.specs.Words.{eight, fill_word, words_of};
ghost use Rattle.page_frames.specs.Frame.{HasPage, IsElsewhere, page_words, frame_bytes, SameElsewhere};
ghost use borrow.Rule.Slice.PartMut.{put_mid};

use ckpt_base::NoMemory;
use std::alloc::Global;
use std::marker::Model;

/// How many cells a page has.
pub const PAGE_CELLS: u32 = 512;

/// How many bytes a page has.
pub const FRAME_BYTES: usize = 4096;

/// How many bytes a cell has.
const CELL_BYTES: usize = 8;

/// The memory of a machine. Contracts see it as the list of its words, one for each cell.
#[derive(Drop)]
pub struct Frames {
    bytes: Vec<u8>,
    pages: u32,
}

impl Model for Frames {
    ghost use Rattle.std.specs.Prelude.{List, ℕ, ◌≡◌, ◌*◌, vec_len};
    ghost use Rattle.page_frames.specs.Words.{words_of};

    ghost Value = { List ℕ };

    ghost view = { λ f. words_of f.bytes.items (512 * f.pages) };

    ghost invariant = { λ f. vec_len f.bytes ≡ 4096 * f.pages };
}

impl Frames {
    /// A memory of this many pages, each of whose bytes is `fill`.
    pub fn new(alloc: Global, pages: u32, fill: u8) -> Result<Frames, NoMemory>
        ensures answer { IfOk result (λ f. f ≡ replicate (512 * pages) (fill_word fill)) }
    {
        Ok(Frames {
            bytes: vec![in alloc; fill; pages as usize * FRAME_BYTES]?,
            pages,
        })
    }

    /// How many pages there are.
    #[inline(always)]
    pub fn pages(&self) -> u32
        ensures answer { 512 * result ≡ length self.now }
    {
        self.pages
    }

    /// The word of cell `c`.
    #[inline(always)]
    pub fn word(&self, c: u32) -> u64
        requires cell { c < length self.now }
        ensures answer { result ≡ slice_index self.now c }
    {
        read_word(&self.bytes, c as usize * CELL_BYTES)
    }

    /// Writes `w` into cell `c`; all other cells stay.
    #[inline(always)]
    pub fn set_word(&mut self, c: u32, w: u64)
        requires cell { c < length self.old }
        ensures exact { self.new ≡ slice_set self.old c w }
    {
        write_part(
            self.bytes.as_mut_slice(),
            c as usize * CELL_BYTES,
            &w.to_be_bytes(),
        );
    }

    /// Lends the 4,096 bytes of page `p`.
    pub fn frame(&self, p: u32) -> &[u8]
        requires page { HasPage self.now p }
        ensures answer { result.now ≡ frame_bytes self.now p }
    {
        frame_part(&self.bytes, p as usize * FRAME_BYTES)
    }

    /// Lends the bytes of `count` cells from cell `first` on, eight for each word, the highest first.
    pub fn cell_bytes(&self, first: u32, count: u32) -> &[u8]
        requires cells { first + count ≤ length self.now }
        ensures answer { result.now ≡ flat_map (to_be_bytes w64) (take count (drop first self.now)) }
        ensures size { length result.now ≡ 8 * count }
        ensures words { (i : ℕ) → slice_index (take count (drop first self.now)) i < 2 ^ 64 }
    {
        cells_part(&self.bytes, first as usize, count as usize)
    }

    /// Makes these 4,096 bytes page `p`; all other pages stay.
    pub fn load_frame(&mut self, p: u32, bytes: &[u8])
        requires page { HasPage self.old p }
        requires whole { length bytes.now ≡ 4096 }
        ensures words { page_words self.new p ≡ words_of bytes.now 512 }
        ensures frame { frame_bytes self.new p ≡ bytes.now }
        ensures same { SameElsewhere p self.old self.new }
        ensures size { length self.new ≡ length self.old }
    {
        write_part(self.bytes.as_mut_slice(), p as usize * FRAME_BYTES, bytes);
    }

    /// Makes these the bytes of `count` cells from cell `first` on, eight for each word, the highest first; all other cells stay.
    pub fn load_cells(&mut self, first: u32, count: u32, bytes: &[u8])
        requires cells { first + count ≤ length self.old }
        requires whole { length bytes.now ≡ 8 * count }
        ensures loaded { (i : ℕ) → i < count → slice_index self.new (first + i) ≡ slice_index (words_of bytes.now count) i }
        ensures same { (c : ℕ) → IsElsewhere first count c → slice_index self.new c ≡ slice_index self.old c }
        ensures size { length self.new ≡ length self.old }
    {
        write_part(
            self.bytes.as_mut_slice(),
            first as usize * CELL_BYTES,
            bytes,
        );
    }

    /// Makes page `p` of `to` the same as page `p` here; all other pages of `to` stay.
    pub fn copy_frame(&self, p: u32, to: &mut Frames)
        requires page { HasPage self.now p }
        requires there { HasPage to.old p }
        ensures words { page_words to.new p ≡ page_words self.now p }
        ensures same { SameElsewhere p to.old to.new }
        ensures size { length to.new ≡ length to.old }
    {
        let at = p as usize * FRAME_BYTES;
        write_part(to.bytes.as_mut_slice(), at, frame_part(&self.bytes, at));
    }
}

/// The word whose eight bytes begin at place `at`.
#[inline(always)]
fn read_word(s: &[u8], at: usize) -> u64
    requires { at + 8 ≤ length s.now }
    ensures { result ≡ from_be_bytes w64 (eight s.now at) }
{
    u64::from_be_bytes([
        s[at],
        s[at + 1],
        s[at + 2],
        s[at + 3],
        s[at + 4],
        s[at + 5],
        s[at + 6],
        s[at + 7],
    ])
}

/// The 4,096 bytes from place `at` on.
fn frame_part(s: &[u8], at: usize) -> &[u8]
    requires { at + 4096 ≤ length s.now }
    ensures part { result.now ≡ take 4096 (drop at s.now) }
    ensures bytes { (i : ℕ) → slice_index s.now i < 256 }
{
    &s[at..at + FRAME_BYTES]
}

/// The bytes of `count` words from the one in place `first` on.
fn cells_part(s: &[u8], first: usize, count: usize) -> &[u8]
    requires { (first + count) * 8 ≤ length s.now }
    ensures part { result.now ≡ take (count * 8) (drop (first * 8) s.now) }
    ensures bytes { (i : ℕ) → slice_index s.now i < 256 }
{
    &s[first * CELL_BYTES..(first + count) * CELL_BYTES]
}

/// Writes `bytes` over those from place `at` on.
#[inline(always)]
fn write_part(s: &mut [u8], at: usize, bytes: &[u8])
    requires { at + length bytes.now ≤ length s.old }
    ensures { s.new ≡ put_mid at (length bytes.now) s.old bytes.now }
{
    s[at..at + bytes.len()].copy_from_slice(bytes);
}
