//! Images as bytes.

use crate::stores::{FIELDS, RUNS, two_cells};
use image_format::{BadHeader, Header, read_header, read_record, record_length, write_header};
use std::test::Fail;

#[test]
fn a_header_has_these_bytes(rt: HostRuntime) -> Result<(), Fail> {
    let header = Header {
        generation: 1,
        every: 1,
        max: 16,
        gate_open: true,
    };
    let bytes = write_header(&header);
    assert_eq!(rt;
        bytes,
        [
            0x43, 0x4b, 0x50, 0x31, 0, 0, 0, 1, 0, 0, 0, 1, 0, 0x10, 0, 0xa5
        ]
    );
    assert_eq!(rt; read_header(&bytes), Ok(header));
    assert_eq!(rt; read_header(&[0x43; 16]), Err(BadHeader { place: 0 }));
    Ok(())
}

#[test]
fn a_record_has_these_bytes(rt: HostRuntime) -> Result<(), Fail> {
    assert_eq!(rt; record_length(RUNS.as_slice()), 141);
    let out = two_cells(&rt, &FIELDS)?;
    let bytes = out.as_slice();
    assert_eq!(rt; bytes.len(), 141);
    assert_eq!(rt; &bytes[..5], [0x49, 0, 0, 0, 0x8d].as_slice());
    assert_eq!(rt; &bytes[5..37], [0x11; 32].as_slice());
    assert_eq!(rt; &bytes[37..69], [0x22; 32].as_slice());
    assert_eq!(rt;
        &bytes[69..81],
        [0, 0, 0, 7, 0, 0, 0, 0, 0, 0, 0, 7].as_slice()
    );
    assert_eq!(rt; &bytes[81..97], [0; 16].as_slice());
    assert_eq!(rt;
        &bytes[97..108],
        [0, 1, 0, 0, 0, 0, 1, 0, 0, 0, 2].as_slice()
    );
    assert_eq!(rt;
        &bytes[108..124],
        [0, 0, 0, 3, 0, 0, 0, 1, 0, 0, 0, 0, 0, 0, 0, 0].as_slice()
    );
    assert_eq!(rt;
        &bytes[124..],
        [0, 0, 0, 5, 0, 0, 0, 1, 1, 2, 3, 4, 5, 6, 7, 8, 0].as_slice()
    );
    Ok(())
}

#[test]
fn a_record_is_read_again(rt: HostRuntime) -> Result<(), Fail> {
    let out = two_cells(&rt, &FIELDS)?;
    match read_record(out.as_slice()) {
        Ok(view) => {
            assert_eq!(rt; view.fields(), FIELDS);
            assert_eq!(rt; view.length(), 141);
            let mut cells = Vec::new(rt.alloc());
            for run in view.runs() {
                cells.push((run.first, run.count, run.words[7]))?;
            }
            assert_eq!(rt; cells.as_slice(), [(3, 1, 0), (5, 1, 8)].as_slice());
        }
        Err(bad) => assert_eq!(rt; bad.place, 999),
    }
    Ok(())
}

// The place at which the record without its last byte is bad.
fn place_in_cut(bytes: &[u8]) -> usize {
    match bytes.split_last() {
        Some((_, front)) => match read_record(front) {
            Ok(_) => 0,
            Err(bad) => bad.place,
        },
        None => 0,
    }
}

#[test]
fn a_record_without_its_last_byte_is_bad_at_its_end(rt: HostRuntime) -> Result<(), Fail> {
    let out = two_cells(&rt, &FIELDS)?;
    assert_eq!(rt; place_in_cut(out.as_slice()), 140);
    Ok(())
}
