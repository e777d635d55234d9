//! Memory in pages, and the flags of the pages.

use dirty_pages::Pages;
use page_frames::{FRAME_BYTES, Frames};
use std::test::Fail;

/// The bytes of a word stand from the highest to the lowest, and only they change.
#[test]
fn a_word_is_its_eight_bytes(rt: HostRuntime) -> Result<(), Fail> {
    let mut frames = Frames::new(rt.alloc(), 2, 0xAB)?;
    assert_eq!(rt; frames.pages(), 2);
    frames.set_word(513, 0x0102_0304_0506_0708);
    let frame = frames.frame(1);
    assert_eq!(rt; frame.len(), 4096);
    assert_eq!(rt;
        &frame[6..18],
        [0xAB, 0xAB, 1, 2, 3, 4, 5, 6, 7, 8, 0xAB, 0xAB].as_slice()
    );
    assert_eq!(rt; frames.word(513), 0x0102_0304_0506_0708);
    assert_eq!(rt; frames.word(512), 0xABAB_ABAB_ABAB_ABAB);
    Ok(())
}

/// A page that was copied or loaded has the bytes of the other, and no other page has.
#[test]
fn pages_are_copied_whole(rt: HostRuntime) -> Result<(), Fail> {
    let mut from = Frames::new(rt.alloc(), 2, 7)?;
    from.load_frame(1, [1; FRAME_BYTES].as_slice());
    assert_eq!(rt; from.pages(), 2);
    let mut to = Frames::new(rt.alloc(), 3, 0)?;
    assert_eq!(rt; to.pages(), 3);
    from.copy_frame(1, &mut to);
    assert_eq!(rt; to.word(512), 0x0101_0101_0101_0101);
    assert_eq!(rt; to.word(1023), 0x0101_0101_0101_0101);
    assert_eq!(rt; to.word(511), 0);
    assert_eq!(rt; to.word(1024), 0);
    Ok(())
}

/// Pages through a checkpoint: written, saved as a snapshot, written again and copied.
#[test]
fn pages_go_through_a_checkpoint(rt: HostRuntime) -> Result<(), Fail> {
    let mut pages = Pages::new(rt.alloc(), 2)?;
    assert_eq!(rt; pages.is_dirty(0), true);
    pages.protect_all();
    assert_eq!(rt; pages.is_protected(1), true);
    pages.serve_fault(1);
    assert_eq!(rt; pages.is_protected(1), false);
    assert_eq!(rt; pages.is_protected(0), true);
    pages.snapshot();
    assert_eq!(rt; pages.in_snapshot(1), true);
    assert_eq!(rt; pages.in_snapshot(0), false);
    assert_eq!(rt; pages.is_dirty(1), false);
    pages.copied(1);
    assert_eq!(rt; pages.in_snapshot(1), false);
    Ok(())
}
