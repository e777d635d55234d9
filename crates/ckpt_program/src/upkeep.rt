//! The commands `coalesce` and `clear`.

ghost use Rattle.std.specs.Prelude.{◌≡◌, ◌≤◌, [], IfOk, IsTrue, OnOk};
ghost use Rattle.disk_model.specs.Plate.{plate};
ghost use Rattle.disk_model.specs.View.{SameFile};
ghost use Rattle.ckpt_runner.specs.Standing.{KeepsImages};
ghost use Rattle.store_upkeep.specs.Coalescing.{AllCoalesced};
ghost use Rattle.store_upkeep.specs.Keeping.{StaysStanding};
ghost use Rattle.ckpt_program.specs.DiskStages.{CalmDisk};
ghost use Rattle.ckpt_program.specs.LifeStages.{KeepsRefused};
ghost use Rattle.ckpt_program.specs.Rows as row;
ghost use Rattle.ckpt_program.specs.Stage.{Comes};
ghost use Rattle.ckpt_program.specs.Upkeep.{Clears, ClearedIn, JoinedIn, JoinsAsTold, TellsCleared, TellsJoined};

use crate::disk_stages::enter_store;
use crate::done::Done;
use crate::stop::{Cause, Stop};
use ckpt_base::{Bytes, Text};
use disk_model::{Disk, DiskFile};
use life_lines::{ROOM, add_joined};
use std::alloc::Global;
use store_upkeep::{Coalesced, JoinFault, clear_store, join_records};

/// Joins the records of a store into one.
pub fn coalesce<D: Disk>(alloc: Global, disk: &mut D, dir: &Text) -> Result<Done, Stop>
    ensures answer { Comes (row.Coalesce (plate (D.view disk.old)) (plate (D.view disk.new))) result }
    ensures count { CalmDisk result (D.view disk.old).faults (D.view disk.new).faults }
    ensures keeps { KeepsRefused result (D.view disk.old) (D.view disk.new) }
    ensures moments { StaysStanding (D.view disk.old) (D.view disk.new) }
    ensures later { KeepsImages (D.view disk.old) (D.view disk.new) }
    ensures joins { IfOk result (λ d. JoinsAsTold (D.view disk.old) d (D.view disk.new)) }
{
    let room = Bytes::with_room(alloc, ROOM)?;
    enter_store(disk, dir)?;
    let joined = join_in_store(alloc, disk)?;
    Ok(tell_joined(room, joined))
}

// Joins the records of the store that is chosen.
fn join_in_store<D: Disk>(alloc: Global, disk: &mut D) -> Result<Coalesced, Stop>
    ensures answer { Comes (JoinedIn (plate (D.view disk.old)) (plate (D.view disk.new))) result }
    ensures count { CalmDisk result (D.view disk.old).faults (D.view disk.new).faults }
    ensures keeps { KeepsRefused result (D.view disk.old) (D.view disk.new) }
    ensures moments { StaysStanding (D.view disk.old) (D.view disk.new) }
    ensures later { KeepsImages (D.view disk.old) (D.view disk.new) }
    ensures joins { IfOk result (λ c. IsTrue (D.view disk.old).tells → AllCoalesced c (D.view disk.old) (D.view disk.new)) }
    ensures output { IsTrue (D.view disk.old).tells → SameFile DiskFile.Output (D.view disk.old) (D.view disk.new) }
{
    Ok(join_records(alloc, disk)?)
}

// Tells what was joined.
#[tactic(auto, unfolding(crate::specs::Upkeep::TellsJoined))]
fn tell_joined(room: Bytes, joined: Coalesced) -> Done
    requires empty { room.list ≡ [] }
    requires room { 256 ≤ room.spare }
    ensures answer { TellsJoined joined result }
{
    let mut text = room;
    match joined {
        Coalesced::NoChain => text.append(b"no chain\n"),
        Coalesced::OneRecord => text.append(b"nothing to join\n"),
        Coalesced::Joined { records } => add_joined(&mut text, records),
    }
    Done::Noted(text)
}

/// Leaves a store without a chain and without output.
pub fn clear<D: Disk>(alloc: Global, disk: &mut D, dir: &Text) -> Result<Done, Stop>
    ensures answer { Comes (row.Clear (plate (D.view disk.old)) (plate (D.view disk.new))) result }
    ensures count { CalmDisk result (D.view disk.old).faults (D.view disk.new).faults }
    ensures keeps { KeepsRefused result (D.view disk.old) (D.view disk.new) }
    ensures moments { StaysStanding (D.view disk.old) (D.view disk.new) }
    ensures clears { OnOk result (Clears (D.view disk.old) (D.view disk.new)) }
{
    let room = Bytes::with_room(alloc, ROOM)?;
    enter_store(disk, dir)?;
    clear_in_store(disk)?;
    Ok(tell_cleared(room))
}

// Clears the store that is chosen.
#[tactic(auto, unfolding(crate::specs::DiskStages::FailsEntry))]
fn clear_in_store<D: Disk>(disk: &mut D) -> Result<(), Stop>
    ensures answer { Comes (ClearedIn (plate (D.view disk.old)) (plate (D.view disk.new))) result }
    ensures count { CalmDisk result (D.view disk.old).faults (D.view disk.new).faults }
    ensures keeps { KeepsRefused result (D.view disk.old) (D.view disk.new) }
    ensures moments { StaysStanding (D.view disk.old) (D.view disk.new) }
    ensures clears { OnOk result (Clears (D.view disk.old) (D.view disk.new)) }
{
    clear_store(disk)?;
    Ok(())
}

// Tells that a store is cleared.
#[tactic(auto, unfolding(crate::specs::Upkeep::TellsCleared))]
fn tell_cleared(room: Bytes) -> Done
    requires empty { room.list ≡ [] }
    requires room { 256 ≤ room.spare }
    ensures answer { TellsCleared result }
{
    let mut text = room;
    text.append(b"cleared\n");
    Done::Noted(text)
}

impl From<JoinFault> for Stop {
    ghost use Rattle.ckpt_program.specs.Upkeep.{stop_of_joining};

    ghost from_gives = { λ f e. e ≡ stop_of_joining f };

    fn from(fault: JoinFault) -> Stop {
        match fault {
            JoinFault::Memory => Stop::NoMemory,
            JoinFault::Failed => Stop::Because(Cause::DiskFault),
            JoinFault::Damaged { file, place } => Stop::Because(Cause::Damaged { file, place }),
        }
    }
}
