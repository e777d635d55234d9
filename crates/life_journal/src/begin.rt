//! How a journal begins.
ghost use Rattle.std.specs.Prelude.{◌≡◌, ◌≤◌, [], ℕ, None, Ok, IsTrue, IfOk, OnOk, OnErr};
ghost use Rattle.ckpt_base.specs.Faults.{Rose};
ghost use Rattle.disk_model.specs.Store.{Store};
ghost use Rattle.disk_model.specs.View.{Steady};
ghost use Rattle.disk_model.specs.Moments.{LeavesOnly};
ghost use Rattle.image_chain.specs.Memory.{kept_word};
ghost use Rattle.image_chain.specs.Records.{chain_in};
ghost use Rattle.output_file.specs.Pushed.{begun_behind};
ghost use Rattle.life_journal.specs.Holding.{HoldsJournal};
ghost use Rattle.life_journal.specs.Begun.{HasNoChain};

use crate::journal::{Journal, JournalRooms, JournalState};
use ckpt_base::Failed;
use disk_model::Disk;
use image_chain::Chain;

impl Journal {
    /// Begins a journal without records or output, on a store in which no file is current and after no crash is there one.
    ///
    /// `every` is at least 1, `max` is 2 to 64, and the rooms keep nothing.
    pub fn begin<D: Disk>(
        mut rooms: JournalRooms,
        disk: &mut D,
        every: u32,
        max: u16,
    ) -> Result<Journal, Failed>
        requires every { 1 ≤ every }
        requires least { 2 ≤ max }
        requires most { max ≤ 64 }
        requires empty { (c : ℕ) → kept_word rooms.kept c ≡ None }
        requires none { IsTrue (D.view disk.old).tells → (c : Store) → (D.view disk.old).may_leave c → chain_in c ≡ Ok None }
        ensures whole { IfOk result (λ j. j.state ≡ JournalState.Resting) }
        ensures chain { IfOk result (λ j. (j.chain.current.every ≡ every) × (j.chain.current.newest ≡ None)) }
        ensures output { IfOk result (λ j. j.output ≡ begun_behind 0) }
        ensures holds { IfOk result (λ j. IsTrue (D.view disk.old).tells → HoldsJournal j (D.view disk.new) [] []) }
        ensures any_moment { IsTrue (D.view disk.old).tells → LeavesOnly (D.view disk.old) (D.view disk.new) HasNoChain }
        ensures failed { OnErr result (Rose (D.view disk.old).faults (D.view disk.new).faults) }
        ensures counts { OnOk result ((D.view disk.new).faults ≡ (D.view disk.old).faults) }
        ensures steady { Steady (D.view disk.old) (D.view disk.new) }
    {
        rooms.output.begin_at(disk, 0)?;
        let chain = Chain::start(disk, every, max)?;
        Ok(Journal {
            chain,
            kept: rooms.kept,
            output: rooms.output,
            record: rooms.record,
            state: JournalState::Resting,
        })
    }
}
