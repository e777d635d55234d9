//! The chain of records in a store.

ghost use Rattle.std.specs.Prelude.{◌≡◌, IfOk, None, []};
ghost use Rattle.disk_model.specs.MemoryDisk.{empty_disk, view_of};
ghost use Rattle.image_chain.specs.Lists.{Rests};

use crate::stores::{FIELDS, empty_store, two_cells};
use ckpt_base::Failed;
use disk_model::MemDisk;
use image_chain::{Chain, ChainRoom, Kept, Step};
use std::test::Fail;

// A chain without records, on a disk that was empty.
fn begun(disk: &mut MemDisk) -> Result<Chain, Failed>
    requires empty { disk.old ≡ empty_disk 64 4096 0 [] }
    ensures none { IfOk result (λ chain. (chain.current.count ≡ 0) × (chain.current.newest ≡ None) × (chain.due ≡ Step.Piece 0) × (chain.current.max ≡ 16)) }
    ensures rests { IfOk result (λ chain. Rests chain (view_of disk.new) []) }
{
    Chain::start(disk, 1, 16)
}

// How many records opening finds after a crash in the call that opens the gate, and the word that it keeps for cell 5.
fn found_after(rt: &HostRuntime, pick: u8) -> Result<(u16, Option<u64>), Fail> {
    let mut room = ChainRoom::new(rt.alloc())?;
    let mut kept = Kept::new(rt.alloc())?;
    let image = two_cells(rt, &FIELDS)?;
    let mut disk = empty_store(rt)?;
    let mut chain = begun(&mut disk)?;
    disk.fuse(3);
    if chain.append(&mut disk, image.as_slice()).is_ok() {
        return Ok((99, None));
    }
    disk.crash(pick);
    match Chain::open(&mut disk, &mut room, &mut kept) {
        Ok(None) => Ok((0, None)),
        Ok(Some(chain)) => Ok((chain.count(), kept.word(5))),
        Err(_) => Ok((98, None)),
    }
}

#[test]
fn a_torn_gate_is_open_or_it_is_not(rt: HostRuntime) -> Result<(), Fail> {
    assert_eq!(rt; found_after(&rt, 0)?, (0, None));
    assert_eq!(rt; found_after(&rt, 1)?, (1, Some(0x0102_0304_0506_0708)));
    assert_eq!(rt; found_after(&rt, 7)?, (0, None));
    assert_eq!(rt; found_after(&rt, 165)?, (1, Some(0x0102_0304_0506_0708)));
    Ok(())
}

#[test]
fn an_appended_record_is_read_again(rt: HostRuntime) -> Result<(), Fail> {
    let mut room = ChainRoom::new(rt.alloc())?;
    let image = two_cells(&rt, &FIELDS)?;
    let mut disk = empty_store(&rt)?;
    let mut chain = begun(&mut disk)?;
    chain.append(&mut disk, image.as_slice())?;
    assert_eq!(rt; chain.newest_place(), 16);
    match chain.record_at(&mut disk, 0, &mut room) {
        Ok(length) => assert_eq!(rt; &room.bytes()[..length], image.as_slice()),
        Err(_) => assert_eq!(rt; chain.count(), 99),
    }
    Ok(())
}
