//! Spells the record of an image.
ghost use Rattle.std.specs.Prelude.{◌≡◌, ◌≤◌, ◌<◌, ◌^◌, ◌+◌, ◌*◌, ◌++◌, ℕ, if◌then◌else◌, length, take, drop};
ghost use Rattle.std.specs.List.{flat_map};
ghost use Rattle.std.specs.Int.{w64, to_be_bytes};
ghost use Rattle.image_format.specs.Image.{InRange, IsDigest, AreFields, IsImage, AreWords, word_in_runs};
ghost use Rattle.image_format.specs.Spelling.{marks_bytes, places_bytes, counts_bytes, head_bytes, run_bytes, spelling, image_length};
ghost use Rattle.image_format.specs.Written.{AreListed, HasCells, HasWords, filled_run, filled, image_of, listed_word, size_of_runs};

use crate::fields::{Fields, Marks};
use crate::header::CLOSED;
use cell_sets::Run;
use ckpt_base::Bytes;
use page_frames::Frames;

/// How many bytes the record with these runs has: 109, and eight for each run and for each cell. At most 2,097,269.
pub fn record_length(runs: &[Run]) -> usize
    requires rising { AreListed runs.now }
    ensures answer { result ≡ 109 + size_of_runs runs.now }
    ensures most { result ≤ 2097269 }
{
    let mut length = 109;
    for run in runs {
        length += 8 + 8 * run.count as usize;
    }
    length
}

/// Appends the record of the image that lists the cells of `runs` with their words in the frames. Its last gate is closed.
pub fn write_record(fields: &Fields, runs: &[Run], words: &Frames, out: &mut Bytes)
    requires ranges { InRange fields.now }
    requires rising { AreListed runs.now }
    requires cells { HasCells words.now runs.now }
    requires room { 109 + size_of_runs runs.now ≤ out.old.spare }
    ensures list { out.new.list ≡ out.old.list ++ spelling (image_of fields.now runs.now words.now) 0 }
    ensures spare { out.new.spare + 109 + size_of_runs runs.now ≡ out.old.spare }
    ensures found { IsImage (image_of fields.now runs.now words.now) }
    ensures size { image_length (image_of fields.now runs.now words.now) ≡ 109 + size_of_runs runs.now }
    ensures words { (c : ℕ) → word_in_runs (filled words.now runs.now) c ≡ listed_word runs.now words.now c }
{
    let length = record_length(runs) as u32;
    write_head(fields, length, runs.len() as u32, out);
    write_runs(runs, words, out);
    out.push(CLOSED);
    hold(fields);
}

// Fields that are in range are fields, since their types hold them.
fn hold(fields: &Fields)
    requires ranges { InRange fields.now }
    ensures answer { AreFields fields.now }
{
    hold_digest(&fields.marks.source);
    hold_digest(&fields.marks.input);
    hold_numbers(fields.steps, fields.output_length, fields.number);
}

fn hold_digest(digest: &[u8; 32])
    ensures answer { IsDigest digest.now }
{
    let _first = digest[0];
}

fn hold_numbers(steps: u64, output_length: u64, number: u32)
    ensures steps { steps < 2 ^ 64 }
    ensures output_length { output_length < 2 ^ 64 }
    ensures number { number < 2 ^ 32 }
{}

// The bytes before the runs.
fn write_head(fields: &Fields, whole: u32, count: u32, out: &mut Bytes)
    requires room { 108 ≤ out.old.spare }
    ensures list { out.new.list ≡ out.old.list ++ head_bytes fields.now whole count }
    ensures spare { out.new.spare + 108 ≡ out.old.spare }
{
    write_marks(&fields.marks, whole, out);
    write_places(fields, out);
    write_counts(fields, count, out);
}

fn write_marks(marks: &Marks, whole: u32, out: &mut Bytes)
    requires room { 69 ≤ out.old.spare }
    ensures list { out.new.list ≡ out.old.list ++ marks_bytes marks.now whole }
    ensures spare { out.new.spare + 69 ≡ out.old.spare }
{
    out.push(b'I');
    out.append(&whole.to_be_bytes());
    out.append(&marks.source);
    out.append(&marks.input);
}

fn write_places(fields: &Fields, out: &mut Bytes)
    requires room { 28 ≤ out.old.spare }
    ensures list { out.new.list ≡ out.old.list ++ places_bytes fields.now }
    ensures spare { out.new.spare + 28 ≡ out.old.spare }
{
    out.append(&fields.node.to_be_bytes());
    out.append(&fields.steps.to_be_bytes());
    out.append(&fields.input_place.to_be_bytes());
    out.append(&fields.output_length.to_be_bytes());
}

fn write_counts(fields: &Fields, count: u32, out: &mut Bytes)
    requires room { 11 ≤ out.old.spare }
    ensures list { out.new.list ≡ out.old.list ++ counts_bytes fields.now count }
    ensures spare { out.new.spare + 11 ≡ out.old.spare }
{
    out.append(&fields.directive.to_be_bytes());
    out.push(flag(fields.left_out));
    out.append(&fields.number.to_be_bytes());
    out.append(&count.to_be_bytes());
}

fn flag(set: bool) -> u8
    ensures { result ≡ (if set then 1 else 0) }
{
    if set { 1 } else { 0 }
}

fn write_runs(runs: &[Run], words: &Frames, out: &mut Bytes)
    requires rising { AreListed runs.now }
    requires cells { HasCells words.now runs.now }
    requires room { size_of_runs runs.now ≤ out.old.spare }
    ensures list { out.new.list ≡ out.old.list ++ flat_map run_bytes (filled words.now runs.now) }
    ensures spare { out.new.spare + size_of_runs runs.now ≡ out.old.spare }
    ensures words { HasWords words.now runs.now }
{
    for run in runs {
        write_run(run, words, out);
    }
}

fn write_run(run: &Run, words: &Frames, out: &mut Bytes)
    requires cells { run.now.first + run.now.count ≤ length words.now }
    requires bound { run.now.first + run.now.count ≤ 262144 }
    requires room { 8 + 8 * run.now.count ≤ out.old.spare }
    ensures list { out.new.list ≡ out.old.list ++ run_bytes (filled_run words.now run.now) }
    ensures spare { out.new.spare + 8 + 8 * run.now.count ≡ out.old.spare }
    ensures words { AreWords (take run.now.count (drop run.now.first words.now)) }
{
    out.append(&run.first.to_be_bytes());
    out.append(&run.count.to_be_bytes());
    out.append(words.cell_bytes(run.first, run.count));
}
