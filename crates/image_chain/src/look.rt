//! Looking at the files of a store.
ghost use Rattle.std.specs.Prelude.{◌≡◌, ◌≤◌, ◌-◌, length, take, drop, IsTrue, IfOk, IfErr, OnErr, true, OnOk};
ghost use Rattle.ckpt_base.specs.Faults.{Rose};
ghost use Rattle.disk_model.specs.Store.{file_of};
ghost use Rattle.image_format.specs.Reading.{image_at};
ghost use Rattle.image_chain.specs.Records.{header_in};
ghost use Rattle.image_chain.specs.Looking.{Answers, RoseIfFailed, OnlyLooked, IsHeaderText, IsHeld, IsRecord};

use crate::fault::ChainFault;
use crate::room::{ChainRoom, RECORD_BYTES};
use ckpt_base::Failed;
use disk_model::{Disk, DiskFile};
use image_format::{Header, read_header, read_record};

// The header of an image file, or none where the file is empty.
pub(crate) fn header_of<D: Disk>(disk: &mut D, file: DiskFile) -> Result<Option<Header>, ChainFault>
    ensures answer { IsTrue (D.view disk.old).tells → Answers (λ h. h) result (header_in file (file_of file (D.view disk.old).seen)) }
    ensures held { IfOk result IsHeld }
    ensures text { IfOk result (λ h. IsTrue (D.view disk.old).tells → IsHeaderText h (file_of file (D.view disk.old).seen)) }
    ensures looked { OnlyLooked (D.view disk.old) (D.view disk.new) }
    ensures failed { IfErr result (λ e. RoseIfFailed e (D.view disk.old).faults (D.view disk.new).faults) }
    ensures counts { OnOk result ((D.view disk.new).faults ≡ (D.view disk.old).faults) }
{
    let length = disk.length(file)?;
    if length == 0 {
        return Ok(None);
    }
    if length < 16 {
        return Err(ChainFault::Damaged { file, place: 0 });
    }
    let mut bytes = [0; 16];
    disk.read_at(file, 0, bytes.as_mut_slice())?;
    match read_header(&bytes) {
        Ok(header) => Ok(Some(header)),
        Err(bad) => Err(ChainFault::Damaged {
            file,
            place: bad.place as u64,
        }),
    }
}

// The length that the record at `at` claims to have; that of the greatest record where it claims none.
fn claimed_length<D: Disk>(disk: &mut D, file: DiskFile, at: u64) -> Result<usize, Failed>
    ensures bound { IfOk result (λ n. n ≤ 3145837) }
    ensures looked { OnlyLooked (D.view disk.old) (D.view disk.new) }
    ensures failed { OnErr result (Rose (D.view disk.old).faults (D.view disk.new).faults) }
    ensures counts { OnOk result ((D.view disk.new).faults ≡ (D.view disk.old).faults) }
{
    let mut head = [0; 5];
    disk.read_at(file, at, head.as_mut_slice())?;
    let claimed = u32::from_be_bytes([head[1], head[2], head[3], head[4]]) as usize;
    if claimed == 0 {
        return Ok(RECORD_BYTES);
    }
    Ok(claimed.min(RECORD_BYTES))
}

/// Reads the record at a place into the room, and answers how many bytes were read. A good record is read once; of a bad one as much as the
/// greatest record has.
pub(crate) fn fetch<D: Disk>(
    disk: &mut D,
    file: DiskFile,
    at: u64,
    room: &mut ChainRoom,
) -> Result<usize, Failed>
    ensures bound { IfOk result (λ n. n ≤ 3145837) }
    ensures answer { IfOk result (λ n. IsTrue (D.view disk.old).tells → image_at (take n room.new) ≡ image_at (take 3145837 (drop at (file_of file (D.view disk.old).seen)))) }
    ensures bytes { IfOk result (λ n. IsTrue (D.view disk.old).tells → take n room.new ≡ take n (drop at (file_of file (D.view disk.old).seen))) }
    ensures looked { OnlyLooked (D.view disk.old) (D.view disk.new) }
    ensures failed { OnErr result (Rose (D.view disk.old).faults (D.view disk.new).faults) }
    ensures counts { OnOk result ((D.view disk.new).faults ≡ (D.view disk.old).faults) }
{
    let claimed = claimed_length(disk, file, at)?;
    let n = room.fill(disk, file, at, claimed)?;
    if is_record(room, n) {
        return Ok(n);
    }
    let n = room.fill(disk, file, at, RECORD_BYTES)?;
    Ok(n)
}

// Whether the room begins with a record.
fn is_record(room: &ChainRoom, n: usize) -> bool
    requires n { n ≤ 3145837 }
    ensures answer { result ≡ true → IsRecord (take n room.now) }
{
    read_record(&room.bytes()[..n]).is_ok()
}
