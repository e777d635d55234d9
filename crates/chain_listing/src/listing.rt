//! Reading the records of a store, and listing them.

ghost use Rattle.std.specs.Prelude.{◌≡◌, ◌<◌, ◌++◌, ◌∷◌, ℕ, List, length, drop, IsTrue, IfOk, IfErr, IfSome, OnOk, Ok, string_bytes};
ghost use Rattle.disk_model.specs.View.{Steady};
ghost use Rattle.disk_model.specs.Moments.{LeavesOnly};
ghost use Rattle.image_format.specs.Image.{Image};
ghost use Rattle.image_format.specs.Reading.{image_at};
ghost use Rattle.image_chain.specs.Lists.{Rests};
ghost use Rattle.image_chain.specs.Looking.{OnlyLooked};
ghost use Rattle.chain_listing.specs.Lines.{record_line, record_lines};
ghost use Rattle.chain_listing.specs.Store.{Lists, IsUnlisted, CountsFault, IsUndamaged};

use crate::fault::ListFault;
use crate::lines::add_line;
use ckpt_base::Text;
use disk_model::Disk;
use image_chain::{Chain, ChainRoom, Kept, Step};
use image_format::read_record;
use std::alloc::{AllocError, Global};

/// The text that lists the records of the store's chain.
///
/// `Damaged` comes exactly where the store is damaged. The contents of the disk stay, and both image files are lasting.
pub fn list_records<D: Disk>(alloc: Global, disk: &mut D) -> Result<Text, ListFault>
    ensures answer { IfOk result (λ text. IsTrue (D.view disk.old).tells → Lists (D.view disk.old).seen text) }
    ensures err { IfErr result (λ e. IsTrue (D.view disk.old).tells → IsUnlisted e (D.view disk.old).seen) }
    ensures same { IsTrue (D.view disk.old).tells → (D.view disk.new).seen ≡ (D.view disk.old).seen }
    ensures any_moment { IsTrue (D.view disk.old).tells → LeavesOnly (D.view disk.old) (D.view disk.new) (D.view disk.old).may_leave }
    ensures failed { IfErr result (λ e. CountsFault e (D.view disk.old).faults (D.view disk.new).faults) }
    ensures counts { OnOk result ((D.view disk.new).faults ≡ (D.view disk.old).faults) }
    ensures steady { Steady (D.view disk.old) (D.view disk.new) }
{
    let mut room = ChainRoom::new(alloc)?;
    let mut kept = Kept::new(alloc)?;
    match Chain::open(disk, &mut room, &mut kept)? {
        None => Ok(Text::of(alloc, "no chain\n")?),
        Some(chain) => {
            let text = lines_of(alloc, disk, &chain, &mut room)?;
            Ok(text)
        }
    }
}

// A line for each record of a chain.
fn lines_of<D: Disk>(
    alloc: Global,
    disk: &mut D,
    chain: &Chain,
    room: &mut ChainRoom,
) -> Result<Text, ListFault>
    requires rest { chain.now.due ≡ Step.Piece 0 }
    ensures answer { IfOk result (λ text. IsTrue (D.view disk.old).tells → (rs : List Image) → Rests chain.now (D.view disk.old) rs → text ≡ record_lines rs) }
    ensures err { IfErr result (λ e. IsTrue (D.view disk.old).tells → (rs : List Image) → Rests chain.now (D.view disk.old) rs → IsUndamaged e) }
    ensures looked { OnlyLooked (D.view disk.old) (D.view disk.new) }
    ensures failed { IfErr result (λ e. CountsFault e (D.view disk.old).faults (D.view disk.new).faults) }
    ensures counts { OnOk result ((D.view disk.new).faults ≡ (D.view disk.old).faults) }
{
    let mut text = String::new(alloc);
    'records: for i in 0..chain.count() {
        add_record(disk, chain, i, room, &mut text)?;
    }
    Ok(Text::of(alloc, text.as_str())?)
}

// Writes the line of record `i`, counted from 0.
fn add_record<D: Disk>(
    disk: &mut D,
    chain: &Chain,
    i: u16,
    room: &mut ChainRoom,
    text: &mut String,
) -> Result<(), ListFault>
    requires i { i < chain.now.current.count }
    requires rest { chain.now.due ≡ Step.Piece 0 }
    ensures answer { OnOk result (IsTrue (D.view disk.old).tells → (before : List Image) (r : Image) (after : List Image) → length before ≡ i → Rests chain.now (D.view disk.old) (before ++ r ∷ after)
        → string_bytes text.new ≡ string_bytes text.old ++ record_line r) }
    ensures err { IfErr result (λ e. IsTrue (D.view disk.old).tells → (before : List Image) (r : Image) (after : List Image) → length before ≡ i → Rests chain.now (D.view disk.old) (before ++ r ∷ after) → IsUndamaged e) }
    ensures looked { OnlyLooked (D.view disk.old) (D.view disk.new) }
    ensures failed { IfErr result (λ e. CountsFault e (D.view disk.old).faults (D.view disk.new).faults) }
    ensures counts { OnOk result ((D.view disk.new).faults ≡ (D.view disk.old).faults) }
{
    let n = chain.record_at(disk, i, room)?;
    let bytes = room.bytes();
    add_read(text, &bytes[..n])?;
    Ok(())
}

// Writes the line of the record at the front of the bytes, where there is one.
fn add_read(text: &mut String, bytes: &[u8]) -> Result<(), AllocError>
    ensures answer { OnOk result ((r : Image) → image_at bytes.now ≡ Ok r → string_bytes text.new ≡ string_bytes text.old ++ record_line r) }
{
    match read_record(bytes) {
        Ok(image) => {
            add_line(text, &image)?;
            Ok(())
        }
        Err(_) => Ok(()),
    }
}
