//! The lines that tell of a life and its store: how it started, how it ended, and what was joined. They are appended to room that was taken before, so they want no memory.
#![tactic(auto)]

ghost use Rattle.std.specs.Prelude.{◌≡◌, ◌≤◌, ◌+◌, ◌++◌, codes};
ghost use Rattle.std.specs.Fmt.{decimal, signed_decimal};
ghost use Rattle.life_lines.specs.Lines as spec;

use ckpt_base::{Bytes, Ending};
use itoa::Buffer;

/// How many bytes both lines have at most.
pub const ROOM: usize = 256;

/// Appends the line of a life that began.
pub fn add_begun(text: &mut Bytes)
    requires room { 6 ≤ text.old.spare }
    ensures list { text.new.list ≡ text.old.list ++ codes "begun\n" }
    ensures spare { text.new.spare + 6 ≡ text.old.spare }
{
    text.append(b"begun\n");
}

/// Appends the line of a life that was resumed from an image.
pub fn add_resumed(text: &mut Bytes, image: u32, step: u64)
    requires room { 128 ≤ text.old.spare }
    ensures list { text.new.list ≡ text.old.list ++ spec.resumed_line image step }
    ensures spare { text.old.spare ≤ text.new.spare + 101 }
{
    text.append(b"resumed image ");
    add_number(text, image as u64);
    text.append(b" step ");
    add_number(text, step);
    text.append(b"\n");
}

/// Appends the line on how a run ended and how many steps it took.
pub fn add_ending(text: &mut Bytes, ending: &Ending, steps: u64)
    requires room { 128 ≤ text.old.spare }
    ensures list { text.new.list ≡ text.old.list ++ spec.ending_line ending.now steps }
{
    match ending {
        Ending::Ended(value) => {
            text.append(b"end ");
            add_signed(text, *value);
        }
        Ending::Trapped(trap) => {
            text.append(b"trap ");
            add_number(text, *trap as u64);
        }
        Ending::Going => text.append(b"stopped"),
    }
    text.append(b" steps ");
    add_number(text, steps);
    text.append(b"\n");
}

/// Appends the line of records that were joined into one.
pub fn add_joined(text: &mut Bytes, records: u16)
    requires room { 128 ≤ text.old.spare }
    ensures list { text.new.list ≡ text.old.list ++ spec.joined_line records }
{
    text.append(b"joined ");
    add_number(text, records as u64);
    text.append(b"\n");
}

// Appends a number in decimal digits.
fn add_number(text: &mut Bytes, number: u64)
    requires room { 40 ≤ text.old.spare }
    ensures list { text.new.list ≡ text.old.list ++ decimal number }
    ensures spare { text.old.spare ≤ text.new.spare + 40 }
{
    let mut digits = Buffer::new();
    text.append(digits.format(number).as_bytes());
}

// .. with a sign where it is below 0.
fn add_signed(text: &mut Bytes, number: i64)
    requires room { 40 ≤ text.old.spare }
    ensures list { text.new.list ≡ text.old.list ++ signed_decimal number }
    ensures spare { text.old.spare ≤ text.new.spare + 40 }
{
    let mut digits = Buffer::new();
    text.append(digits.format(number).as_bytes());
}
