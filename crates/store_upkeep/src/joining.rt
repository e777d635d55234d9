//! The records of a store, joined.
ghost use Rattle.std.specs.Prelude.{◌≡◌, ◌≢◌, ◌≤◌, List, IsTrue, IfOk, IfErr, OnOk, OnErr};
ghost use Rattle.ckpt_base.specs.Faults.{Rose};
ghost use Rattle.disk_model.specs.View.{SameFile, Steady};
ghost use Rattle.image_format.specs.Image.{Image};
ghost use Rattle.image_chain.specs.Lists.{Rests};
ghost use Rattle.coalesce.specs.Join.{IsContent};
ghost use Rattle.ckpt_runner.specs.Standing.{KeepsImages};
ghost use Rattle.store_upkeep.specs.Coalescing.{AllCoalesced, LeavesAlone, LeavesCoalescing};
ghost use Rattle.store_upkeep.specs.Keeping.{StaysStanding};
ghost use Rattle.store_upkeep.specs.Refused.{IsUnjoined, LeavesUnjoined};

use crate::coalesced::Coalesced;
use crate::fault::JoinFault;
use crate::rooms::JoinRooms;
use ckpt_base::Failed;
use coalesce::join;
use disk_model::{Disk, DiskFile};
use image_chain::{Chain, ChainRoom, Step};
use run_images::newest_images_need_most;
use std::alloc::Global;

/// How many records there are at least where there is something to join.
const FEWEST: u16 = 2;

/// Takes all memory, opens the chain of the store, settles it, and joins its records into one where there are two or more.
///
/// The answer is of the store as reads gave it at entry. The refusals come in the order of `JoinFault`; `Damaged` comes exactly where the
/// store is damaged, before any change of contents. Whatever is answered, the output stays, at each moment a crash leaves the records or the
/// one that joins them, a store that stands for a source still stands for it, and no image is lost.
pub fn join_records<D: Disk>(alloc: Global, disk: &mut D) -> Result<Coalesced, JoinFault>
    ensures answer { IfOk result (λ done. IsTrue (D.view disk.old).tells → AllCoalesced done (D.view disk.old) (D.view disk.new)) }
    ensures alone { IfOk result (λ done. LeavesAlone done (D.view disk.old) (D.view disk.new)) }
    ensures any_moment { LeavesCoalescing (D.view disk.old) (D.view disk.new) }
    ensures output { IsTrue (D.view disk.old).tells → SameFile DiskFile.Output (D.view disk.old) (D.view disk.new) }
    ensures standing { StaysStanding (D.view disk.old) (D.view disk.new) }
    ensures later { KeepsImages (D.view disk.old) (D.view disk.new) }
    ensures err { IfErr result (λ e. IsTrue (D.view disk.old).tells → IsUnjoined e (D.view disk.old).seen) }
    ensures leaves { IfErr result (λ e. LeavesUnjoined e (D.view disk.old) (D.view disk.new)) }
    ensures untouched { IfErr result (λ e. e ≡ JoinFault.Memory → disk.new ≡ disk.old) }
    ensures counts { OnOk result ((D.view disk.new).faults ≡ (D.view disk.old).faults) }
    ensures steady { Steady (D.view disk.old) (D.view disk.new) }
{
    let mut room = ChainRoom::new(alloc)?;
    let mut rooms = JoinRooms::new(alloc)?;
    match Chain::open(disk, &mut room, &mut rooms.kept)? {
        None => Ok(Coalesced::NoChain),
        Some(chain) => Ok(join_chain(chain, rooms, disk)?),
    }
}

// Settles a chain that was opened, whose joined content the rooms keep, and joins its records where there are two or more.
fn join_chain<D: Disk>(
    mut chain: Chain,
    rooms: JoinRooms,
    disk: &mut D,
) -> Result<Coalesced, Failed>
    requires rest { chain.due ≡ Step.Piece 0 }
    requires some { 1 ≤ chain.current.count }
    requires rests { IsTrue (D.view disk.old).tells → (rs : List Image) × Rests chain (D.view disk.old) rs × IsContent rooms.kept rs }
    ensures answer { IfOk result (λ done. IsTrue (D.view disk.old).tells → AllCoalesced done (D.view disk.old) (D.view disk.new)) }
    ensures chain { IfOk result (λ done. done ≢ Coalesced.NoChain) }
    ensures alone { IfOk result (λ done. LeavesAlone done (D.view disk.old) (D.view disk.new)) }
    ensures any_moment { LeavesCoalescing (D.view disk.old) (D.view disk.new) }
    ensures output { IsTrue (D.view disk.old).tells → SameFile DiskFile.Output (D.view disk.old) (D.view disk.new) }
    ensures standing { StaysStanding (D.view disk.old) (D.view disk.new) }
    ensures later { KeepsImages (D.view disk.old) (D.view disk.new) }
    ensures failed { OnErr result (Rose (D.view disk.old).faults (D.view disk.new).faults) }
    ensures counts { OnOk result ((D.view disk.new).faults ≡ (D.view disk.old).faults) }
    ensures steady { Steady (D.view disk.old) (D.view disk.new) }
{
    newest_images_need_most();
    let JoinRooms {
        kept,
        mut record,
        mut runs,
    } = rooms;
    let records = chain.count();
    chain.settle(disk)?;
    if records < FEWEST {
        return Ok(Coalesced::OneRecord);
    }
    join(&mut chain, disk, &kept, &mut record, &mut runs)?;
    Ok(Coalesced::Joined { records })
}
