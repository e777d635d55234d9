//! From a chain back to memory.

ghost use Rattle.std.specs.Prelude.{◌≡◌, ◌≤◌};

use crate::stores::{FIELDS, MARKS, store_of, two_cells};
use disk_model::{DiskFile, MemDisk};
use image_chain::{Chain, ChainRoom, Kept};
use image_format::{Fields, Marks};
use page_frames::Frames;
use recovery::{RecoverFault, Shape, recover};
use std::test::Fail;

// What an image says of a checkpoint after one byte of input and one of output.
const KEPT: Fields = Fields {
    input_place: 1,
    output_length: 1,
    ..FIELDS
};

// A store with one record, of cells 3 and 5.
fn stored(rt: &HostRuntime) -> Result<MemDisk, Fail> {
    store_of(rt, &[two_cells(rt, &KEPT)?])
}

// What recovering from that store answers, and the words of cells 2, 3 and 5 in a memory whose bytes were all 0xAB.
fn recovered(
    rt: &HostRuntime,
    shape: &Shape<'_>,
    marks: &Marks,
) -> Result<(Result<Fields, RecoverFault>, [u64; 3]), Fail>
    requires { shape.now.cells ≤ 512 }
{
    let mut room = ChainRoom::new(rt.alloc())?;
    let mut kept = Kept::new(rt.alloc())?;
    let mut disk = stored(rt)?;
    let mut frames = Frames::new(rt.alloc(), 1, 0xAB)?;
    let result = match Chain::open(&mut disk, &mut room, &mut kept)? {
        Some(chain) => recover(&chain, &kept, shape, marks, &mut frames),
        None => Ok(KEPT),
    };
    Ok((result, [frames.word(2), frames.word(3), frames.word(5)]))
}

const FILLED: u64 = 0xABAB_ABAB_ABAB_ABAB;

fn shape(cells: u32, checkpoints: &[u32], lengths: [u64; 2], excludes: u16) -> Shape<'_>
    ensures { result.cells ≡ cells }
{
    Shape {
        cells,
        checkpoints,
        excludes,
        input_length: lengths[0],
        output_length: lengths[1],
    }
}

#[test]
fn listed_words_are_recovered(rt: HostRuntime) -> Result<(), Fail> {
    let whole = shape(6, &[2, 7], [1, 1], 1);
    let (result, words) = recovered(&rt, &whole, &MARKS)?;
    assert_eq!(rt; result, Ok(KEPT));
    assert_eq!(rt; words, [FILLED, 0, 0x0102_0304_0506_0708]);
    Ok(())
}

#[test]
fn another_run_is_refused(rt: HostRuntime) -> Result<(), Fail> {
    let whole = shape(6, &[2, 7], [1, 1], 1);
    let other_source = Marks {
        source: [0x33; 32],
        input: [0x44; 32],
    };
    let (result, words) = recovered(&rt, &whole, &other_source)?;
    assert_eq!(rt;
        result,
        Err(RecoverFault::OtherSource {
            kept: [0x11; 32],
            given: [0x33; 32]
        })
    );
    assert_eq!(rt; words, [FILLED; 3]);
    let other_input = Marks {
        source: [0x11; 32],
        input: [0x44; 32],
    };
    let (result, words) = recovered(&rt, &whole, &other_input)?;
    assert_eq!(rt;
        result,
        Err(RecoverFault::OtherInput {
            kept: [0x22; 32],
            given: [0x44; 32]
        })
    );
    assert_eq!(rt; words, [FILLED; 3]);
    Ok(())
}

// The place of the damage that is found with this shape; 0 where there is none.
fn damaged_at(rt: &HostRuntime, shape: &Shape<'_>) -> Result<u64, Fail>
    requires { shape.now.cells ≤ 512 }
{
    let (result, _) = recovered(rt, shape, &MARKS)?;
    match result {
        Err(
            RecoverFault::Damaged {
                file: DiskFile::One,
                place,
            },
        ) => Ok(place),
        _ => Ok(0),
    }
}

#[test]
fn a_program_that_does_not_fit_is_refused(rt: HostRuntime) -> Result<(), Fail> {
    assert_eq!(rt; damaged_at(&rt, &shape(5, &[7], [1, 1], 1))?, 16);
    assert_eq!(rt; damaged_at(&rt, &shape(6, &[6, 8], [0, 0], 0))?, 16 + 69);
    assert_eq!(rt; damaged_at(&rt, &shape(6, &[7], [0, 0], 0))?, 16 + 81);
    assert_eq!(rt; damaged_at(&rt, &shape(6, &[7], [1, 0], 0))?, 16 + 89);
    assert_eq!(rt; damaged_at(&rt, &shape(6, &[7], [1, 1], 0))?, 16 + 97);
    Ok(())
}
