//! How a journal goes on.
ghost use Rattle.std.specs.Prelude.{◌≡◌, List, take, IsTrue, IfOk, OnOk, OnErr};
ghost use Rattle.ckpt_base.specs.Faults.{Rose};
ghost use Rattle.disk_model.specs.View.{Steady};
ghost use Rattle.disk_model.specs.Moments.{Among, LeavesOnly};
ghost use Rattle.image_format.specs.Image.{Image};
ghost use Rattle.image_chain.specs.Lists.{IsSettled, Rests};
ghost use Rattle.coalesce.specs.Join.{IsContent};
ghost use Rattle.output_file.specs.OnDisk.{HasAtLeast};
ghost use Rattle.output_file.specs.Pushed.{begun_behind};
ghost use Rattle.life_journal.specs.Holding.{HoldsJournal};
ghost use Rattle.life_journal.specs.Begun.{IsCutBehind};

use crate::journal::{Journal, JournalRooms, JournalState};
use ckpt_base::Failed;
use disk_model::Disk;
use image_chain::{Chain, Step};

impl Journal {
    /// Goes on with a chain that was opened, whose joined content the rooms keep, behind the first `length` bytes of the output: cuts
    /// there, and settles the chain.
    pub fn resume<D: Disk>(
        mut rooms: JournalRooms,
        mut chain: Chain,
        disk: &mut D,
        length: u64,
    ) -> Result<Journal, Failed>
        requires rest { chain.due ≡ Step.Piece 0 }
        requires within { IsTrue (D.view disk.old).tells → HasAtLeast length (D.view disk.old).seen.output }
        requires rests { IsTrue (D.view disk.old).tells → (rs : List Image) × Rests chain (D.view disk.old) rs × IsContent rooms.kept rs }
        ensures whole { IfOk result (λ j. j.state ≡ JournalState.Resting) }
        ensures chain { IfOk result (λ j. j.chain ≡ chain) }
        ensures output { IfOk result (λ j. j.output ≡ begun_behind length) }
        ensures holds { IfOk result (λ j. IsTrue (D.view disk.old).tells → (rs : List Image) → Rests chain (D.view disk.old) rs → IsContent rooms.kept rs
            → HoldsJournal j (D.view disk.new) rs (take length (D.view disk.old).seen.output)) }
        ensures settled { IfOk result (λ j. IsTrue (D.view disk.old).tells → (rs : List Image) → Rests chain (D.view disk.old) rs
            → IsSettled j.chain (D.view disk.new)) }
        ensures any_moment { IsTrue (D.view disk.old).tells → (rs : List Image) → Rests chain (D.view disk.old) rs
            → LeavesOnly (D.view disk.old) (D.view disk.new) (Among (D.view disk.old).may_leave (IsCutBehind chain.current rs length)) }
        ensures failed { OnErr result (Rose (D.view disk.old).faults (D.view disk.new).faults) }
        ensures counts { OnOk result ((D.view disk.new).faults ≡ (D.view disk.old).faults) }
        ensures steady { Steady (D.view disk.old) (D.view disk.new) }
    {
        rooms.output.begin_at(disk, length)?;
        chain.settle(disk)?;
        Ok(Journal {
            chain,
            kept: rooms.kept,
            output: rooms.output,
            record: rooms.record,
            state: JournalState::Resting,
        })
    }
}
