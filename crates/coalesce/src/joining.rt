ghost use Rattle.std.specs.Prelude.{◌≡◌, ◌+◌, ◌≤◌, ℕ, IsTrue, OnOk, OnErr, List, Some, length};
ghost use Rattle.ckpt_base.specs.Faults.{Rose};
ghost use Rattle.disk_model.specs.View.{SameFile, Steady};
ghost use Rattle.image_format.specs.Image.{Image, word_in_runs};
ghost use Rattle.image_chain.specs.Append.{Spells};
ghost use Rattle.image_chain.specs.Lists.{Rests};
ghost use Rattle.image_chain.specs.Memory.{kept_word};
ghost use Rattle.image_chain.specs.Replace.{StandsOnOther};
ghost use Rattle.coalesce.specs.Join.{IsContent, Joining};

use crate::find::find_runs;
use cell_sets::RunList;
use ckpt_base::{Bytes, Failed};
use disk_model::{Disk, DiskFile};
use image_chain::{Chain, Kept, Step};

/// Joins the records of the chain, of which there are at least 2, into one: writes the record of their joined content, with the newest
/// fields, to the other image file, and makes that file current. No record is under way.
///
/// `kept` is the joined content, and `out` has room for the greatest record, 2,097,269 bytes. At each moment a crash leaves the old
/// records or the one, and the file of the old records as it was; after `Ok` the one for good. After `Failed` the chain is spent. `out`
/// and `runs` hold anything then, and have their room.
pub fn join<D: Disk>(
    chain: &mut Chain,
    disk: &mut D,
    kept: &Kept,
    out: &mut Bytes,
    runs: &mut RunList,
) -> Result<(), Failed>
    requires records { 2 ≤ chain.old.current.count }
    requires rest { chain.old.due ≡ Step.Piece 0 }
    requires room { 2097269 ≤ out.old.spare + length out.old.list }
    requires rests { IsTrue (D.view disk.old).tells → (rs : List Image) × Rests chain.old (D.view disk.old) rs × IsContent kept.now rs }
    ensures room { 2097269 ≤ out.new.spare + length out.new.list }
    ensures took { OnOk result ((chain.new.due ≡ Step.Piece 0) × StandsOnOther chain.old.current chain.new.current) }
    ensures joins { IsTrue (D.view disk.old).tells → (rs : List Image) → Rests chain.old (D.view disk.old) rs → IsContent kept.now rs
        → Joining chain.old chain.new rs result (D.view disk.old) (D.view disk.new) }
    ensures output { IsTrue (D.view disk.old).tells → SameFile DiskFile.Output (D.view disk.old) (D.view disk.new) }
    ensures failed { OnErr result (Rose (D.view disk.old).faults (D.view disk.new).faults) }
    ensures counts { OnOk result ((D.view disk.new).faults ≡ (D.view disk.old).faults) }
    ensures steady { Steady (D.view disk.old) (D.view disk.new) }
{
    make_record(chain, kept, out, runs);
    chain.replace(disk, out.as_slice())?;
    Ok(())
}

// Makes the record of what is kept, with the newest fields.
fn make_record(chain: &Chain, kept: &Kept, out: &mut Bytes, runs: &mut RunList)
    requires records { 2 ≤ chain.now.current.count }
    requires room { 2097269 ≤ out.old.spare + length out.old.list }
    ensures room { 2097269 ≤ out.new.spare + length out.new.list }
    ensures spelled { (r : Image) × Spells r out.new.list × (chain.now.current.newest ≡ Some r.fields) × ((c : ℕ) → word_in_runs r.runs c ≡ kept_word kept.now c) }
{
    find_runs(kept, runs);
    out.clear();
    match chain.newest() {
        Some(fields) => kept.write_record(&fields, runs.as_slice(), out),
        None => {}
    }
}
