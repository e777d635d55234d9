//! Replacing the records of a chain by one, which stands in the other image file.
ghost use Rattle.std.specs.Prelude.{◌≡◌, ◌+◌, ◌<◌, ◌≤◌, ℕ, IsTrue, IfOk, OnOk, OnErr, List, [], ◌∷◌, length, min, take, Some};
ghost use Rattle.ckpt_base.specs.Faults.{Rose};
ghost use Rattle.disk_model.specs.View.{SameFile, Steady};
ghost use Rattle.disk_model.specs.Moments.{Among, LeavesOnly};
ghost use Rattle.image_format.specs.Image.{Image};
ghost use Rattle.image_chain.specs.Append.{IsAtRest, IsSoundFile, Spells, header_of, other};
ghost use Rattle.image_chain.specs.Lists.{Rests};
ghost use Rattle.image_chain.specs.Replace.{IsReplaced, StandsOnOther, IsWritten, IsWhole, IsOpening, IsOpen, next_header, IsBegun, IsTurned};

use crate::append::{OPEN_GATE, PIECE_BYTES};
use crate::chain::{Chain, Current, Span, Step};
use ckpt_base::Failed;
use disk_model::{Disk, DiskFile};
use image_format::{Header, write_header};

/// The place of the gate before the first record.
const FIRST_GATE: u64 = 15;

impl Chain {
    /// Writes the record into the other image file, with the next generation, and makes that file current. The record has the newest
    /// fields, and there are at least 2 records.
    ///
    /// At each moment a crash leaves the old list, or the one record, and the old list until the call that opens the gate; after `Ok`
    /// the one record for good. The file of the old list stays as it was, and the other one too, or its gate is closed, until it has
    /// the one record. After `Failed` the chain is spent.
    pub fn replace<D: Disk>(&mut self, disk: &mut D, image: &[u8]) -> Result<(), Failed>
        requires image { (r : Image) × Spells r image.now }
        requires records { 2 ≤ self.old.current.count }
        requires newest { (r : Image) → Spells r image.now → self.old.current.newest ≡ Some r.fields }
        requires rest { self.old.due ≡ Step.Piece 0 }
        requires rests { IsTrue (D.view disk.old).tells → (rs : List Image) × Rests self.old (D.view disk.old) rs }
        ensures took { OnOk result ((self.new.due ≡ Step.Piece 0) × StandsOnOther self.old.current self.new.current) }
        ensures answer { OnOk result (IsTrue (D.view disk.old).tells → (rs : List Image) (r : Image) → Spells r image.now → Rests self.old (D.view disk.old) rs
            → Rests self.new (D.view disk.new) (r ∷ [])) }
        ensures any_moment { IsTrue (D.view disk.old).tells → (rs : List Image) (r : Image) → Spells r image.now → Rests self.old (D.view disk.old) rs
            → LeavesOnly (D.view disk.old) (D.view disk.new) (Among (D.view disk.old).may_leave (IsReplaced self.old.current rs r)) }
        ensures output { IsTrue (D.view disk.old).tells → SameFile DiskFile.Output (D.view disk.old) (D.view disk.new) }
        ensures failed { OnErr result (Rose (D.view disk.old).faults (D.view disk.new).faults) }
        ensures counts { OnOk result ((D.view disk.new).faults ≡ (D.view disk.old).faults) }
        ensures steady { Steady (D.view disk.old) (D.view disk.new) }
    {
        write_other(&self.current, disk, image)?;
        open_other(&self.current, disk, image)?;
        sync_other(&self.current, disk, image)?;
        stand_on_other(&mut self.current, image);
        Ok(())
    }
}

// The image file beside this one.
pub(crate) fn beside(file: DiskFile) -> DiskFile
    ensures { result ≡ other file }
{
    match file {
        DiskFile::One => DiskFile::Two,
        DiskFile::Output | DiskFile::Two => DiskFile::One,
    }
}

// Writes the record into the other file behind a closed gate, and makes it lasting.
fn write_other<D: Disk>(chain: &Current, disk: &mut D, image: &[u8]) -> Result<(), Failed>
    requires sound { IsSoundFile chain.now }
    requires records { 2 ≤ chain.now.count }
    requires rests { IsTrue (D.view disk.old).tells → (rs : List Image) × ((behind : List ℕ) × IsAtRest chain.now (D.view disk.old) rs behind) }
    ensures answer { OnOk result (IsTrue (D.view disk.old).tells → (rs : List Image) (behind : List ℕ) → IsAtRest chain.now (D.view disk.old) rs behind → IsWhole chain.now (D.view disk.new) rs image.now) }
    ensures any_moment { IsTrue (D.view disk.old).tells → (rs : List Image) (behind : List ℕ) → IsAtRest chain.now (D.view disk.old) rs behind
        → LeavesOnly (D.view disk.old) (D.view disk.new) (Among (D.view disk.old).may_leave (IsBegun chain.now rs)) }
    ensures output { IsTrue (D.view disk.old).tells → SameFile DiskFile.Output (D.view disk.old) (D.view disk.new) }
    ensures failed { OnErr result (Rose (D.view disk.old).faults (D.view disk.new).faults) }
    ensures counts { OnOk result ((D.view disk.new).faults ≡ (D.view disk.old).faults) }
    ensures steady { Steady (D.view disk.old) (D.view disk.new) }
{
    start_other(chain, disk)?;
    write_pieces(chain, disk, image)?;
    sync_record(chain, disk, image)?;
    Ok(())
}

// Starts the other file with the next generation and a closed gate.
fn start_other<D: Disk>(chain: &Current, disk: &mut D) -> Result<(), Failed>
    requires sound { IsSoundFile chain.now }
    requires records { 2 ≤ chain.now.count }
    ensures answer { OnOk result (IsTrue (D.view disk.old).tells → (rs : List Image) (behind : List ℕ) → IsAtRest chain.now (D.view disk.old) rs behind → IsWritten chain.now (D.view disk.new) rs []) }
    ensures any_moment { IsTrue (D.view disk.old).tells → (rs : List Image) (behind : List ℕ) → IsAtRest chain.now (D.view disk.old) rs behind
        → LeavesOnly (D.view disk.old) (D.view disk.new) (Among (D.view disk.old).may_leave (IsBegun chain.now rs)) }
    ensures output { IsTrue (D.view disk.old).tells → SameFile DiskFile.Output (D.view disk.old) (D.view disk.new) }
    ensures failed { OnErr result (Rose (D.view disk.old).faults (D.view disk.new).faults) }
    ensures counts { OnOk result ((D.view disk.new).faults ≡ (D.view disk.old).faults) }
    ensures steady { Steady (D.view disk.old) (D.view disk.new) }
{
    let header = write_header(&Header {
        generation: chain.generation + 1,
        every: chain.every,
        max: chain.max,
        gate_open: false,
    });
    disk.start_file(beside(chain.file), &header)?;
    Ok(())
}

// Writes the record behind the closed gate, piece by piece.
fn write_pieces<D: Disk>(chain: &Current, disk: &mut D, image: &[u8]) -> Result<(), Failed>
    requires stands { IsTrue (D.view disk.old).tells → (rs : List Image) × IsWritten chain.now (D.view disk.old) rs [] }
    ensures answer { OnOk result (IsTrue (D.view disk.old).tells → (rs : List Image) → IsWritten chain.now (D.view disk.old) rs [] → IsWritten chain.now (D.view disk.new) rs image.now) }
    ensures any_moment { IsTrue (D.view disk.old).tells → (rs : List Image) → IsWritten chain.now (D.view disk.old) rs []
        → LeavesOnly (D.view disk.old) (D.view disk.new) (Among (D.view disk.old).may_leave (IsBegun chain.now rs)) }
    ensures output { IsTrue (D.view disk.old).tells → SameFile DiskFile.Output (D.view disk.old) (D.view disk.new) }
    ensures failed { OnErr result (Rose (D.view disk.old).faults (D.view disk.new).faults) }
    ensures counts { OnOk result ((D.view disk.new).faults ≡ (D.view disk.old).faults) }
    ensures steady { Steady (D.view disk.old) (D.view disk.new) }
{
    let mut from = 0;
    while from < image.len() {
        from = write_piece(chain, disk, image, from)?;
    }
    Ok(())
}

// Writes the piece that begins at a place of the record, and answers the place behind it.
fn write_piece<D: Disk>(
    chain: &Current,
    disk: &mut D,
    image: &[u8],
    from: usize,
) -> Result<usize, Failed>
    requires inside { from < length image.now }
    requires stands { IsTrue (D.view disk.old).tells → (rs : List Image) × IsWritten chain.now (D.view disk.old) rs (take from image.now) }
    ensures order { IfOk result (λ to. to ≡ min (from + 4096) (length image.now)) }
    ensures answer { IfOk result (λ to. IsTrue (D.view disk.old).tells → (rs : List Image) → IsWritten chain.now (D.view disk.old) rs (take from image.now) → IsWritten chain.now (D.view disk.new) rs (take to image.now)) }
    ensures any_moment { IsTrue (D.view disk.old).tells → (rs : List Image) → IsWritten chain.now (D.view disk.old) rs (take from image.now)
        → LeavesOnly (D.view disk.old) (D.view disk.new) (Among (D.view disk.old).may_leave (IsBegun chain.now rs)) }
    ensures output { IsTrue (D.view disk.old).tells → SameFile DiskFile.Output (D.view disk.old) (D.view disk.new) }
    ensures failed { OnErr result (Rose (D.view disk.old).faults (D.view disk.new).faults) }
    ensures counts { OnOk result ((D.view disk.new).faults ≡ (D.view disk.old).faults) }
    ensures steady { Steady (D.view disk.old) (D.view disk.new) }
{
    let to = image.len().min(from + PIECE_BYTES);
    disk.write_at(
        beside(chain.file),
        FIRST_GATE + 1 + from as u64,
        &image[from..to],
    )?;
    Ok(to)
}

// Makes the record lasting, behind its closed gate.
fn sync_record<D: Disk>(chain: &Current, disk: &mut D, image: &[u8]) -> Result<(), Failed>
    ensures answer { OnOk result (IsTrue (D.view disk.old).tells → (rs : List Image) → IsWritten chain.now (D.view disk.old) rs image.now → IsWhole chain.now (D.view disk.new) rs image.now) }
    ensures any_moment { IsTrue (D.view disk.old).tells → (rs : List Image) → IsWritten chain.now (D.view disk.old) rs image.now
        → LeavesOnly (D.view disk.old) (D.view disk.new) (Among (D.view disk.old).may_leave (IsBegun chain.now rs)) }
    ensures output { IsTrue (D.view disk.old).tells → SameFile DiskFile.Output (D.view disk.old) (D.view disk.new) }
    ensures failed { OnErr result (Rose (D.view disk.old).faults (D.view disk.new).faults) }
    ensures counts { OnOk result ((D.view disk.new).faults ≡ (D.view disk.old).faults) }
    ensures steady { Steady (D.view disk.old) (D.view disk.new) }
{
    disk.sync(beside(chain.file))?;
    Ok(())
}

// Opens the gate before the record.
fn open_other<D: Disk>(chain: &Current, disk: &mut D, image: &[u8]) -> Result<(), Failed>
    requires records { 2 ≤ chain.now.count }
    requires newest { (r : Image) → Spells r image.now → chain.now.newest ≡ Some r.fields }
    requires stands { IsTrue (D.view disk.old).tells → (rs : List Image) × IsWhole chain.now (D.view disk.old) rs image.now }
    ensures answer { OnOk result (IsTrue (D.view disk.old).tells → (rs : List Image) → IsWhole chain.now (D.view disk.old) rs image.now → IsOpening chain.now (D.view disk.new) rs image.now) }
    ensures any_moment { IsTrue (D.view disk.old).tells → (rs : List Image) (r : Image) → Spells r image.now → IsWhole chain.now (D.view disk.old) rs image.now
        → LeavesOnly (D.view disk.old) (D.view disk.new) (Among (D.view disk.old).may_leave (IsTurned chain.now rs r)) }
    ensures output { IsTrue (D.view disk.old).tells → SameFile DiskFile.Output (D.view disk.old) (D.view disk.new) }
    ensures failed { OnErr result (Rose (D.view disk.old).faults (D.view disk.new).faults) }
    ensures counts { OnOk result ((D.view disk.new).faults ≡ (D.view disk.old).faults) }
    ensures steady { Steady (D.view disk.old) (D.view disk.new) }
{
    disk.write_at(beside(chain.file), FIRST_GATE, &[OPEN_GATE])?;
    Ok(())
}

// Makes the open gate lasting.
fn sync_other<D: Disk>(chain: &Current, disk: &mut D, image: &[u8]) -> Result<(), Failed>
    requires records { 2 ≤ chain.now.count }
    requires newest { (r : Image) → Spells r image.now → chain.now.newest ≡ Some r.fields }
    ensures answer { OnOk result (IsTrue (D.view disk.old).tells → (rs : List Image) → IsOpening chain.now (D.view disk.old) rs image.now → IsOpen chain.now (D.view disk.new) rs image.now) }
    ensures any_moment { IsTrue (D.view disk.old).tells → (rs : List Image) (r : Image) → Spells r image.now → IsOpening chain.now (D.view disk.old) rs image.now
        → LeavesOnly (D.view disk.old) (D.view disk.new) (Among (D.view disk.old).may_leave (IsTurned chain.now rs r)) }
    ensures output { IsTrue (D.view disk.old).tells → SameFile DiskFile.Output (D.view disk.old) (D.view disk.new) }
    ensures failed { OnErr result (Rose (D.view disk.old).faults (D.view disk.new).faults) }
    ensures counts { OnOk result ((D.view disk.new).faults ≡ (D.view disk.old).faults) }
    ensures steady { Steady (D.view disk.old) (D.view disk.new) }
{
    let file = beside(chain.file);
    disk.sync(file)?;
    Ok(())
}

// Keeps the one record of the other file.
fn stand_on_other(chain: &mut Current, image: &[u8])
    requires image { (r : Image) × Spells r image.now }
    requires sound { IsSoundFile chain.old }
    requires records { 2 ≤ chain.old.count }
    ensures stands { StandsOnOther chain.old chain.new }
    ensures sound { IsSoundFile chain.new }
    ensures gate { chain.new.gate ≡ 15 + length image.now }
    ensures newest_at { chain.new.newest_at ≡ 16 }
    ensures spans { take 1 chain.new.spans ≡ record { at = 16; length = length image.now } ∷ [] }
{
    chain.file = beside(chain.file);
    chain.generation += 1;
    chain.count = 1;
    chain.gate = FIRST_GATE + image.len() as u64;
    chain.newest_at = FIRST_GATE + 1;
    chain.spans[0] = Span {
        at: chain.newest_at,
        length: image.len(),
    };
}
