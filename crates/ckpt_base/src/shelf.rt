ghost use Rattle.std.specs.Prelude.{◌≡◌, ◌<◌, ◌≤◌, ◌+◌, ◌++◌, IsTrue, length, map, take, drop, min, None, Some, false, true, MatchOption, MatchResult, is_some, unwrap_or, []};
ghost use Rattle.std.specs.Option.{option_map};
ghost use Rattle.ckpt_base.specs.Shelf.{ShelfView, Opens, Reads, shelf_view, file_named, after_open, after_read, call_fails, after_call, after_failure};
ghost use Rattle.ckpt_base.specs.ShelfFiles.{files_of, bytes_at, IsPlace};

use crate::bytes::Bytes;
use crate::errors::Failed;
use crate::faults::{count_on, fails_at};
use crate::text::Text;
use std::marker::Model;

/// A place with named files, of which one at a time is open for reading.
pub trait Shelf {
    /// What is told of the shelf, and how often it has failed.
    ghost view: { Self → ShelfView };

    /// Opens the file of that name at its first byte. `Ok(false)` tells that there is none; a shelf that does not tell its files then fails.
    fn open(&mut self, name: &Text) -> Result<bool, Failed>
        ensures answer { Opens name.now result (view self.old) (view self.new) };

    /// Moves the next bytes of the open file to the front of `buf` and answers their number; 0 means the end.
    fn read(&mut self, buf: &mut [u8]) -> Result<usize, Failed>
        requires opened { IsTrue (view self.old).is_open }
        requires some { 0 < length buf.old }
        ensures answer { Reads buf.old result (view self.old) (view self.new) buf.new };
}

/// A file of a shelf in memory, and the place up to which it was read.
#[derive(Clone, Copy, Drop)]
struct Place {
    file: usize,
    at: usize,
}

/// A shelf in memory. It fails at the listed calls, counted from 1. Of two files of one name the first counts.
#[derive(Drop)]
pub struct MemShelf {
    files: Vec<(Text, Bytes)>,
    place: Option<Place>,
    failing: Vec<u64>,
    calls: u64,
    faults: u64,
}

impl Model for MemShelf {
    ghost use Rattle.ckpt_base.specs.Shelf.{MemoryShelf};
    ghost use Rattle.ckpt_base.specs.ShelfFiles.{files_of, rest_at, IsPlace};

    ghost Value = { MemoryShelf };

    ghost view = { λ s. record { files = files_of s.files.items; rest = rest_at s.files.items s.place; failing = s.failing.items; calls = s.calls; faults = s.faults } };

    ghost invariant = { λ s. IsPlace s.files.items s.place };
}

// The first file of that name.
fn find_file(files: &[(Text, Bytes)], name: &[u8]) -> Option<usize>
    ensures found { MatchOption result (file_named (files_of files.now) name.now ≡ None) (λ i. (i < length files.now) × (file_named (files_of files.now) name.now ≡ Some (bytes_at files.now i))) }
{
    let mut left = files;
    let mut i = 0;
    'files: while let Some((file, more)) = left.split_first() {
        if file.0.as_bytes() == name {
            return Some(i);
        }
        left = more;
        i += 1;
    }
    None
}

// What is left behind the place.
fn left_at(files: &[(Text, Bytes)], place: Place) -> &[u8]
    requires place { IsPlace files.now (Some place) }
    ensures answer { result.now ≡ drop place.at (bytes_at files.now place.file) }
{
    match files.get(place.file) {
        Some(file) => after(file.1.as_slice(), place.at),
        None => &[],
    }
}

// What stands after the first `n` bytes.
fn after(bytes: &[u8], n: usize) -> &[u8]
    requires within { n ≤ length bytes.now }
    ensures answer { result.now ≡ drop n bytes.now }
{
    &bytes[n..]
}

// The place `n` bytes on.
fn place_after(bytes: &[u8], at: usize, n: usize) -> usize
    requires within { at + n ≤ length bytes.now }
    ensures answer { result ≡ at + n }
{
    at + n
}

// Copies as much as there is room for to the front of the buffer.
fn fill(rest: &[u8], buf: &mut [u8]) -> usize
    ensures number { result ≡ min (length rest.now) (length buf.old) }
    ensures bytes { take result buf.new ≡ take result rest.now }
{
    let n = rest.len().min(buf.len());
    buf[..n].copy_from_slice(&rest[..n]);
    n
}

impl MemShelf {
    /// A shelf with these files, none of them open.
    pub fn new(files: Vec<(Text, Bytes)>, failing: Vec<u64>) -> MemShelf
        ensures answer { result ≡ record { files = files_of files.items; rest = None; failing = failing.items; calls = 0; faults = 0 } }
    {
        MemShelf {
            files,
            place: None,
            failing,
            calls: 0,
            faults: 0,
        }
    }

    // Counts a call and, where it is one of those that fail, a fault.
    fn count(&mut self) -> Result<(), Failed>
        ensures answer { MatchResult result (λ _. (call_fails self.old ≡ false) × (self.new ≡ after_call self.old self.old.rest)) (λ _. (call_fails self.old ≡ true) × (self.new ≡ after_failure self.old self.old.rest)) }
        ensures rises { self.old.faults ≤ self.new.faults }
    {
        self.calls = count_on(self.calls);
        if fails_at(&self.failing, self.calls) {
            self.faults = count_on(self.faults);
            return Err(Failed);
        }
        Ok(())
    }

    // What is left of the open file.
    fn rest(&self) -> &[u8]
        ensures answer { result.now ≡ unwrap_or self.now.rest [] }
    {
        match self.place {
            Some(place) => left_at(&self.files, place),
            None => &[],
        }
    }

    // Goes on behind the next `n` bytes.
    fn advance(&mut self, n: usize)
        requires within { n ≤ length (unwrap_or self.old.rest []) }
        ensures answer { self.new ≡ record self.old { rest = option_map (drop n) self.old.rest } }
    {
        if let Some(place) = self.place {
            let at = place_after(self.files[place.file].1.as_slice(), place.at, n);
            self.place = Some(Place {
                file: place.file,
                at,
            });
        }
    }
}

impl Shelf for MemShelf {
    ghost view = { shelf_view };

    fn open(&mut self, name: &Text) -> Result<bool, Failed>
        ensures answer { Opens name.now result (shelf_view self.old) (shelf_view self.new) }
        ensures exact { MatchResult result (λ found. (call_fails self.old ≡ false) × (found ≡ is_some (file_named self.old.files name.now))) (λ _. call_fails self.old ≡ true) }
        ensures state { self.new ≡ after_open self.old name.now }
    {
        self.place = None;
        self.count()?;
        let found = find_file(&self.files, name.as_bytes());
        self.place = found.map(|file| Place { file, at: 0 });
        Ok(found.is_some())
    }

    fn read(&mut self, buf: &mut [u8]) -> Result<usize, Failed>
        requires opened { IsTrue (is_some self.old.rest) }
        requires some { 0 < length buf.old }
        ensures answer { Reads buf.old result (shelf_view self.old) (shelf_view self.new) buf.new }
        ensures exact { MatchResult result (λ n. (call_fails self.old ≡ false) × (n ≡ min (length buf.old) (length (unwrap_or self.old.rest [])))) (λ _. call_fails self.old ≡ true) }
        ensures state { self.new ≡ after_read self.old (length buf.old) }
    {
        if let Err(failed) = self.count() {
            return Err(failed);
        }
        let n = fill(self.rest(), buf);
        self.advance(n);
        Ok(n)
    }
}
