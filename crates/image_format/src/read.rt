//! The fields of a record, from the front of what is left of its bytes. `end` is where all of them end.
ghost use Rattle.std.specs.Prelude.{◌≡◌, ◌+◌, ◌≤◌, ◌<◌, ◌==◌, length, Ok, IfOk, IfErr, IsTrue, false};
ghost use Rattle.std.specs.Int.{w8, w16, w32, w64};
ghost use Rattle.image_format.specs.Reading.{Gives, bytes_at, number_at, marks_at, places_at, counts_at, head_at};

use crate::fields::{BadRecord, Fields, Marks};

pub(crate) fn part_at(rest: &[u8], n: usize, end: usize) -> Result<(&[u8], &[u8]), BadRecord>
    ensures exact { Gives (λ x. (x.0.now, x.1.now)) result (bytes_at n end rest.now) }
    ensures place { IfErr result (λ e. e.place ≤ end) }
{
    if rest.len() < n {
        return Err(BadRecord { place: end });
    }
    Ok(rest.split_at(n))
}

pub(crate) fn u8_at(rest: &[u8], end: usize) -> Result<(u8, &[u8]), BadRecord>
    ensures exact { Gives (λ x. (x.0, x.1.now)) result (number_at w8 end rest.now) }
    ensures place { IfErr result (λ e. e.place ≤ end) }
{
    if rest.len() < 1 {
        return Err(BadRecord { place: end });
    }
    let (front, rest) = rest.split_at(1);
    Ok((front[0], rest))
}

pub(crate) fn u16_at(rest: &[u8], end: usize) -> Result<(u16, &[u8]), BadRecord>
    ensures exact { Gives (λ x. (x.0, x.1.now)) result (number_at w16 end rest.now) }
    ensures place { IfErr result (λ e. e.place ≤ end) }
{
    if rest.len() < 2 {
        return Err(BadRecord { place: end });
    }
    let (front, rest) = rest.split_at(2);
    Ok((u16::from_be_bytes([front[0], front[1]]), rest))
}

pub(crate) fn u32_at(rest: &[u8], end: usize) -> Result<(u32, &[u8]), BadRecord>
    ensures exact { Gives (λ x. (x.0, x.1.now)) result (number_at w32 end rest.now) }
    ensures place { IfErr result (λ e. e.place ≤ end) }
{
    if rest.len() < 4 {
        return Err(BadRecord { place: end });
    }
    let (front, rest) = rest.split_at(4);
    let number = u32::from_be_bytes([front[0], front[1], front[2], front[3]]);
    Ok((number, rest))
}

pub(crate) fn u64_at(rest: &[u8], end: usize) -> Result<(u64, &[u8]), BadRecord>
    ensures exact { Gives (λ x. (x.0, x.1.now)) result (number_at w64 end rest.now) }
    ensures place { IfErr result (λ e. e.place ≤ end) }
{
    if rest.len() < 8 {
        return Err(BadRecord { place: end });
    }
    let (front, rest) = rest.split_at(8);
    let number = u64::from_be_bytes([
        front[0], front[1], front[2], front[3], front[4], front[5], front[6], front[7],
    ]);
    Ok((number, rest))
}

fn digest_at(rest: &[u8], end: usize) -> Result<([u8; 32], &[u8]), BadRecord>
    ensures exact { Gives (λ x. (x.0, x.1.now)) result (bytes_at 32 end rest.now) }
    ensures place { IfErr result (λ e. e.place ≤ end) }
{
    if rest.len() < 32 {
        return Err(BadRecord { place: end });
    }
    let (front, rest) = rest.split_at(32);
    let mut digest = [0; 32];
    digest.copy_from_slice(front);
    Ok((digest, rest))
}

// Whether the field at this place meets its rule.
pub(crate) fn test(holds: bool, place: usize) -> Result<(), BadRecord>
    ensures answer { IfOk result (λ _. IsTrue holds) }
    ensures err { IfErr result (λ e. (holds ≡ false) × (e.place ≡ place)) }
{
    if holds {
        return Ok(());
    }
    Err(BadRecord { place })
}

// The whole length and the digests.
#[tactic(auto, unfolding(crate::specs::Reading::marks_at))]
fn marks(bytes: &[u8], end: usize) -> Result<(u32, Marks, &[u8]), BadRecord>
    ensures exact { Gives (λ x. (x.0, x.1.source, x.1.input, x.2.now)) result (marks_at end bytes.now) }
    ensures place { IfErr result (λ e. e.place ≤ end + 104) }
{
    let (tag, rest) = u8_at(bytes, end)?;
    test(tag == b'I', 0)?;
    let (whole, rest) = u32_at(rest, end)?;
    test(109 <= whole && whole <= 3_145_837, 1)?;
    let (source, rest) = digest_at(rest, end)?;
    let (input, rest) = digest_at(rest, end)?;
    Ok((whole, Marks { source, input }, rest))
}

// Node, steps, place in the input and length of the output.
#[tactic(auto, unfolding(crate::specs::Reading::places_at))]
fn places(rest: &[u8], end: usize) -> Result<(u32, u64, u64, u64, &[u8]), BadRecord>
    ensures exact { Gives (λ x. (x.0, x.1, x.2, x.3, x.4.now)) result (places_at end rest.now) }
    ensures place { IfErr result (λ e. e.place ≤ end + 104) }
{
    let (node, rest) = u32_at(rest, end)?;
    test(node <= 2047, 69)?;
    let (steps, rest) = u64_at(rest, end)?;
    test(1 <= steps, 73)?;
    let (input_place, rest) = u64_at(rest, end)?;
    test(input_place <= 16_777_216, 81)?;
    let (output_length, rest) = u64_at(rest, end)?;
    Ok((node, steps, input_place, output_length, rest))
}

// Directive, whether read-only cells are left out, number and count of runs.
#[tactic(auto, unfolding(crate::specs::Reading::counts_at))]
fn counts(rest: &[u8], end: usize) -> Result<(u16, bool, u32, u32, &[u8]), BadRecord>
    ensures exact { Gives (λ x. (x.0, x.1, x.2, x.3, x.4.now)) result (counts_at end rest.now) }
    ensures place { IfErr result (λ e. e.place ≤ end + 104) }
    ensures few { IfOk result (λ x. x.3 ≤ 131072) }
{
    let (directive, rest) = u16_at(rest, end)?;
    test(directive <= 64, 97)?;
    let (left_out, rest) = u8_at(rest, end)?;
    test(left_out <= 1 && (1 <= directive || left_out == 0), 99)?;
    let (number, rest) = u32_at(rest, end)?;
    test(1 <= number, 100)?;
    let (count, rest) = u32_at(rest, end)?;
    test(count <= 131_072, 104)?;
    Ok((directive, left_out == 1, number, count, rest))
}

/// The bytes before the runs.
#[derive(Drop)]
pub(crate) struct HeadView<'a> {
    pub(crate) whole: u32,
    pub(crate) fields: Fields,
    pub(crate) count: u32,
    /// What follows them.
    pub(crate) runs: &'a [u8],
}

#[tactic(auto, unfolding(crate::specs::Reading::head_at))]
pub(crate) fn head(bytes: &[u8]) -> Result<HeadView<'_>, BadRecord>
    ensures exact { Gives (λ x. (record { whole = x.whole; fields = x.fields; count = x.count }, x.runs.now)) result (head_at bytes.now) }
    ensures place { IfErr result (λ e. e.place ≤ length bytes.now + 104) }
    ensures few { IfOk result (λ x. x.count ≤ 131072) }
{
    let end = bytes.len();
    let (whole, marks, rest) = marks(bytes, end)?;
    let (node, steps, input_place, output_length, rest) = places(rest, end)?;
    let (directive, left_out, number, count, runs) = counts(rest, end)?;
    Ok(HeadView {
        whole,
        fields: Fields {
            marks,
            node,
            steps,
            input_place,
            output_length,
            directive,
            left_out,
            number,
        },
        count,
        runs,
    })
}
