//! How much the generated program has and takes.

ghost use Rattle.std.specs.Prelude.{◌≡◌, ◌≤◌, ◌+◌, ◌++◌, ◌∷◌, []};
ghost use Rattle.std.specs.Fmt.{decimal};
ghost use Rattle.generated_program.specs.Generated as spec;

use ckpt_base::Bytes;
use itoa::Buffer;

/// How many cells the program of `n` functions has.
pub fn cells(n: u16) -> u32
    ensures answer { result ≡ spec.generated_cells n }
{
    65 * u32::from(n) + 3
}

/// How many steps it takes.
pub fn steps(n: u16) -> u64
    ensures answer { result ≡ spec.generated_steps n }
{
    3_980 * u64::from(n) + 69
}

/// The steps at which the lives of its drill are stopped, rising.
pub fn stops(n: u16) -> [u64; 4]
    ensures answer { result ≡ spec.stop_of n 1 ∷ spec.stop_of n 2 ∷ spec.stop_of n 3 ∷ spec.stop_of n 4 ∷ [] }
{
    let fifth = steps(n) / 5;
    [fifth, 2 * fifth, 3 * fifth, 4 * fifth]
}

/// Appends the line that tells how many functions and cells it has, to room that was taken before.
pub fn add_generated_line(text: &mut Bytes, n: u16)
    requires room { 128 ≤ text.old.spare }
    ensures list { text.new.list ≡ text.old.list ++ spec.generated_line n }
    ensures spare { text.old.spare ≤ text.new.spare + 108 }
{
    text.append(b"generated functions ");
    add_number(text, n as u32);
    text.append(b" cells ");
    add_number(text, cells(n));
    text.append(b"\n");
}

// Appends a number in decimal digits.
fn add_number(text: &mut Bytes, number: u32)
    requires room { 40 ≤ text.old.spare }
    ensures list { text.new.list ≡ text.old.list ++ decimal number }
    ensures spare { text.old.spare ≤ text.new.spare + 40 }
{
    let mut digits = Buffer::new();
    text.append(digits.format(number).as_bytes());
}
