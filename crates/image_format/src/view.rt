//! A record, seen in the bytes that it was read from.
ghost use Rattle.std.specs.Prelude.{◌≡◌, ◌≤◌, ◌<◌, ◌+◌, ◌*◌, length, List, [], Ok, IfOk, IfErr, MatchOption};
ghost use Rattle.page_frames.specs.Words.{words_of};
ghost use Rattle.image_format.specs.Image.{WordRun, Image, AreRuns, IsImage};
ghost use Rattle.image_format.specs.Spelling.{IsFront, image_length};
ghost use Rattle.image_format.specs.Reading.{Gives, run_at, runs_at, image_at, rest_of};
ghost use Rattle.image_format.specs.Runs.{IsWithin, Shows};

use crate::fields::{BadRecord, Fields};
use crate::read::{head, part_at, test, u8_at, u32_at};
use std::marker::Model;

/// A run of cells with the bytes of their words.
#[derive(Clone, Copy)]
pub struct RunView<'a> {
    /// The first cell.
    pub first: u32,
    /// How many cells there are, at least 1.
    pub count: u32,
    /// Eight bytes for each cell, the highest first.
    pub words: &'a [u8],
}

// The run at the front, and what follows it.
#[tactic(auto, unfolding(crate::specs::Reading::run_at))]
fn run_of(rest: &[u8], end: usize, least: u32) -> Result<(RunView<'_>, &[u8]), BadRecord>
    requires within { length rest.now ≤ end }
    ensures exact { Gives (λ x. (record { first = x.0.first; words = words_of x.0.words.now x.0.count }, x.1.now)) result (run_at end least rest.now) }
    ensures place { IfErr result (λ e. e.place ≤ end) }
    ensures fits { IfOk result (λ x. IsWithin least x.0.first x.0.count (length x.1.now) (length rest.now)) }
    ensures words { IfOk result (λ x. length x.0.words.now ≡ 8 * x.0.count) }
{
    let place = end - rest.len();
    let (first, rest) = u32_at(rest, end)?;
    test(least <= first, place)?;
    let place = end - rest.len();
    let (count, rest) = u32_at(rest, end)?;
    test(
        1 <= count && first <= 262_144 && count <= 262_144 - first,
        place,
    )?;
    let (words, rest) = part_at(rest, 8 * count as usize, end)?;
    Ok((
        RunView {
            first,
            count,
            words,
        },
        rest,
    ))
}

// What follows this many runs.
fn behind_runs(runs: &[u8], end: usize, count: u32) -> Result<&[u8], BadRecord>
    requires within { length runs.now ≤ end }
    ensures exact { Gives (λ x. x.now) result (rest_of (runs_at count end 0 runs.now)) }
    ensures place { IfErr result (λ e. e.place ≤ end) }
    ensures within { IfOk result (λ x. length x.now ≤ length runs.now) }
{
    let mut rest = runs;
    let mut least = 0;
    for _ in 0..count {
        let (run, more) = run_of(rest, end, least)?;
        rest = more;
        least = run.first + run.count + 1;
    }
    Ok(rest)
}

/// An image that lies in the bytes it was read from. Contracts see the image.
#[derive(Drop)]
pub struct ImageView<'a> {
    fields: Fields,
    /// How many runs there are.
    count: u32,
    /// What follows the fields.
    runs: &'a [u8],
    /// How many bytes were given.
    end: usize,
    /// How many bytes the record has.
    size: usize,
}

impl<'a> Model for ImageView<'a> {
    ghost use Rattle.std.specs.Prelude.{◌≡◌, ◌≤◌, length, IsOk};
    ghost use Rattle.image_format.specs.Image.{Image, AreRuns};
    ghost use Rattle.image_format.specs.Spelling.{length_with};
    ghost use Rattle.image_format.specs.Reading.{runs_at, runs_of};

    ghost Value = { Image };

    ghost view = { λ v. record { fields = v.fields; runs = runs_of (runs_at v.count v.end 0 v.runs.now) } };

    ghost invariant = { λ v. record { read : IsOk (runs_at v.count v.end 0 v.runs.now); are : AreRuns 0 (runs_of (runs_at v.count v.end 0 v.runs.now)); few : v.count ≤ 131072; within : length v.runs.now ≤ v.end; size : v.size ≡ length_with (runs_of (runs_at v.count v.end 0 v.runs.now)) } };
}

/// Reads the record at the front of the bytes, whatever follows, or answers the place of the first field that breaks its rule.
pub fn read_record(bytes: &[u8]) -> Result<ImageView<'_>, BadRecord>
    ensures exact { Gives (λ v. v) result (image_at bytes.now) }
    ensures place { IfErr result (λ e. e.place ≤ length bytes.now + 104) }
    // What is read is spelled so.
    ensures found { IfOk result (λ v. IsImage v × IsFront v bytes.now) }
    // What is spelled so is read, whatever follows.
    ensures only { (image : Image) → IsImage image → IsFront image bytes.now → Gives (λ v. v) result (Ok image) }
{
    read_front(bytes)
}

// The record at the front, field by field.
fn read_front(bytes: &[u8]) -> Result<ImageView<'_>, BadRecord>
    ensures exact { Gives (λ v. v) result (image_at bytes.now) }
    ensures place { IfErr result (λ e. e.place ≤ length bytes.now + 104) }
{
    let end = bytes.len();
    let head = head(bytes)?;
    let rest = behind_runs(head.runs, end, head.count)?;
    let (_, rest) = u8_at(rest, end)?;
    let size = end - rest.len();
    test(head.whole as usize == size, 1)?;
    Ok(ImageView {
        fields: head.fields,
        count: head.count,
        runs: head.runs,
        end,
        size,
    })
}

impl<'a> ImageView<'a> {
    /// What the image says of its checkpoint.
    pub fn fields(&self) -> Fields
        ensures answer { result ≡ self.now.fields }
    {
        self.fields
    }

    /// How many bytes the record has.
    pub fn length(&self) -> usize
        ensures answer { result ≡ image_length self.now }
    {
        self.size
    }

    /// The runs of cells that the image lists, one after another.
    pub fn runs(&self) -> Runs<'a>
        ensures answer { result ≡ self.now.runs }
        ensures rising { AreRuns 0 self.now.runs }
    {
        Runs {
            rest: self.runs,
            end: self.end,
            least: 0,
            left: self.count,
        }
    }
}

/// The runs of an image, one after another. Contracts see the runs that are left.
#[derive(Drop)]
pub struct Runs<'a> {
    /// What is left of the bytes.
    rest: &'a [u8],
    end: usize,
    /// The cell at which the next run may begin.
    least: u32,
    /// How many runs are left.
    left: u32,
}

impl<'a> Model for Runs<'a> {
    ghost use Rattle.std.specs.Prelude.{◌≤◌, length, List, IsOk};
    ghost use Rattle.image_format.specs.Image.{WordRun};
    ghost use Rattle.image_format.specs.Reading.{runs_at, runs_of};

    ghost Value = { List WordRun };

    ghost view = { λ r. runs_of (runs_at r.left r.end r.least r.rest.now) };

    ghost invariant = { λ r. record { read : IsOk (runs_at r.left r.end r.least r.rest.now); few : r.left ≤ 131072; within : length r.rest.now ≤ r.end; least : r.least ≤ 262145 } };
}

impl<'a> Runs<'a> {
    fn next_run(&mut self) -> Option<RunView<'a>>
        ensures { MatchOption result ((self.old ≡ []) × (self.new ≡ [])) (λ run. Shows run.first run.count run.words.now self.old self.new) }
    {
        if self.left == 0 {
            return None;
        }
        let (run, rest) = match run_of(self.rest, self.end, self.least) {
            Ok(found) => found,
            Err(_) => return None,
        };
        self.left -= 1;
        self.rest = rest;
        self.least = run.first + run.count + 1;
        Some(run)
    }
}

impl<'a> Iterator for Runs<'a> {
    ghost use Rattle.std.specs.Iterator.{at_most};

    type Item = RunView<'a>;

    ghost next_gives = { λ s r t. MatchOption r ((s ≡ []) × (t ≡ [])) (λ run. Shows run.first run.count run.words.now s t) };

    ghost remaining = { λ s. at_most (length s) };

    fn next(&mut self) -> Option<RunView<'a>> {
        self.next_run()
    }
}
