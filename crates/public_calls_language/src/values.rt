//! Texts, bytes, words, and the outside in memory.

use ckpt_base::{Bytes, Failed, MemShelf, MemSink, Shelf, Sink, Text, Trap, word};
use std::test::Fail;

#[test]
fn texts_and_bytes_hold_what_they_are_given(rt: HostRuntime) -> Result<(), Fail> {
    let text = Text::of(rt.alloc(), "Hi")?;
    assert_eq!(rt; text.as_bytes(), b"Hi".as_slice());
    let mut bytes = Bytes::with_room(rt.alloc(), 3)?;
    assert!(rt; bytes.spare() >= 3);
    bytes.push(72);
    bytes.append(b"i!");
    assert_eq!(rt; bytes.as_slice(), b"Hi!".as_slice());
    bytes.clear();
    assert_eq!(rt; bytes.as_slice().len(), 0);
    Ok(())
}

#[test]
fn a_shelf_in_memory_reads_its_first_file_of_a_name(rt: HostRuntime) -> Result<(), Fail> {
    let mut files = Vec::new(rt.alloc());
    for (name, content) in [("a", "12345"), ("a", "67890")] {
        let mut bytes = Bytes::with_room(rt.alloc(), 5)?;
        assert!(rt; bytes.spare() >= content.len());
        bytes.append(content.as_bytes());
        files.push((Text::of(rt.alloc(), name)?, bytes))?;
    }
    let mut shelf = MemShelf::new(files, vec![in rt.alloc(); 4]?);
    let missing = Text::of(rt.alloc(), "b")?;
    assert_eq!(rt; shelf.open(&missing), Ok(false));
    let name = Text::of(rt.alloc(), "a")?;
    assert_eq!(rt; shelf.open(&name), Ok(true));
    Ok(())
}

#[test]
fn a_sink_in_memory_takes_what_fits(rt: HostRuntime) -> Result<(), Fail> {
    let mut sink = MemSink::new(rt.alloc(), 3, vec![in rt.alloc(); 2]?)?;
    assert_eq!(rt; sink.write(b"Hi"), Ok(2));
    assert_eq!(rt; sink.write(b"!"), Err(Failed), "the second call is listed");
    assert_eq!(rt;
        sink.write(b"!!"),
        Err(Failed),
        "there is room for one byte more"
    );
    assert_eq!(rt; sink.write(b"!"), Ok(1));
    assert_eq!(rt; sink.bytes(), b"Hi!".as_slice());
    Ok(())
}

#[test]
fn words_are_as_in_c_but_wrap(rt: HostRuntime) -> Result<(), Fail> {
    let minus = |n: i64| word::word_of(n.wrapping_neg());
    assert_eq!(rt; word::quotient(minus(7), 2), Ok(minus(3)));
    assert_eq!(rt; word::remainder(minus(7), 2), Ok(minus(1)));
    assert_eq!(rt; word::quotient(1, 0), Err(Trap::DivisionByZero));
    assert_eq!(rt;
        word::remainder(word::word_of(i64::MIN), minus(1)),
        Err(Trap::QuotientOverflow)
    );
    assert_eq!(rt; word::right_shift(minus(8), 1), Ok(minus(4)));
    assert_eq!(rt; word::left_shift(1, 64), Err(Trap::ShiftCount));
    assert_eq!(rt; Trap::TooManyCalls.number(), 6);
    Ok(())
}
