//! Joining the records of a chain into one.

ghost use Rattle.std.specs.Prelude.{◌≤◌};
ghost use Rattle.image_format.specs.Image.{InRange};

use crate::stores::{FIELDS, one_run, store_of};
use cell_sets::{Run, RunList};
use ckpt_base::Bytes;
use coalesce::join;
use disk_model::MemDisk;
use image_chain::{Chain, ChainRoom, Kept};
use image_format::Fields;
use std::test::Fail;

// What an image says of its checkpoint, five steps after the one before.
fn fields(number: u32) -> Fields
    requires number { 1 ≤ number }
    ensures ranges { InRange result }
{
    Fields {
        steps: 5 * number as u64,
        directive: 0,
        number,
        ..FIELDS
    }
}

// A store with two records, of cells 2 to 4 and of cells 4 and 5.
fn two_records(rt: &HostRuntime) -> Result<MemDisk, Fail> {
    let first = one_run(rt, &fields(1), Run { first: 2, count: 3 }, 8)?;
    let second = one_run(rt, &fields(2), Run { first: 4, count: 2 }, 9)?;
    store_of(rt, &[first, second])
}

// What stands in a store: its generation, how many records it has, and the words of cells 2 to 6.
#[derive(Clone, Copy, Debug, PartialEq, Eq)]
struct Found {
    generation: u32,
    count: u16,
    words: [Option<u64>; 5],
}

// What opening finds after a crash, where the run was cut off in this change call: opening has the calls 1 and 2, joining those from 3 on.
fn found_after(rt: &HostRuntime, fuse: u32, pick: u8) -> Result<Found, Fail> {
    let mut room = ChainRoom::new(rt.alloc())?;
    let mut kept = Kept::new(rt.alloc())?;
    let mut runs = RunList::new(rt.alloc())?;
    let mut out = Bytes::with_room(rt.alloc(), 2_097_269)?;
    let mut disk = two_records(rt)?;
    disk.fuse(fuse);
    if let Ok(Some(mut chain)) = Chain::open(&mut disk, &mut room, &mut kept) {
        if 2 <= chain.count() {
            let _ = join(&mut chain, &mut disk, &kept, &mut out, &mut runs);
        }
    }
    disk.crash(pick);
    opened(rt, &mut disk)
}

fn opened(rt: &HostRuntime, disk: &mut MemDisk) -> Result<Found, Fail> {
    let mut room = ChainRoom::new(rt.alloc())?;
    let mut kept = Kept::new(rt.alloc())?;
    let (generation, count) = match Chain::open(disk, &mut room, &mut kept) {
        Ok(Some(chain)) => (chain.generation(), chain.count()),
        _ => (0, 0),
    };
    let words = [
        kept.word(2),
        kept.word(3),
        kept.word(4),
        kept.word(5),
        kept.word(6),
    ];
    Ok(Found {
        generation,
        count,
        words,
    })
}

const OLD: u64 = 0x0808_0808_0808_0808;

const NEW: u64 = 0x0909_0909_0909_0909;

#[test]
fn the_one_record_has_the_newest_word_of_each_cell(rt: HostRuntime) -> Result<(), Fail> {
    let found = found_after(&rt, 0, 0)?;
    assert_eq!(rt; (found.generation, found.count), (2, 1));
    assert_eq!(rt;
        found.words,
        [Some(OLD), Some(OLD), Some(NEW), Some(NEW), None]
    );
    Ok(())
}

#[test]
fn a_crash_leaves_the_old_records_or_the_one(rt: HostRuntime) -> Result<(), Fail> {
    for fuse in 3..6 {
        let found = found_after(&rt, fuse, 165)?;
        assert_eq!(rt; (found.generation, found.count), (1, 2));
    }
    let gate_shut = found_after(&rt, 6, 0)?;
    assert_eq!(rt; (gate_shut.generation, gate_shut.count), (1, 2));
    let gate_open = found_after(&rt, 6, 165)?;
    assert_eq!(rt; (gate_open.generation, gate_open.count), (2, 1));
    let last = found_after(&rt, 7, 165)?;
    assert_eq!(rt; (last.generation, last.count), (2, 1));
    assert_eq!(rt;
        last.words,
        [Some(OLD), Some(OLD), Some(NEW), Some(NEW), None]
    );
    Ok(())
}
