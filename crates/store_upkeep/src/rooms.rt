//! What a joining takes memory for.
ghost use Rattle.std.specs.Prelude.{◌≡◌, ◌≤◌, ◌+◌, ℕ, length, IfOk, None};
ghost use Rattle.image_chain.specs.Memory.{kept_word};

use cell_sets::RunList;
use ckpt_base::{Bytes, NoMemory};
use image_chain::Kept;
use std::alloc::Global;

/// How many bytes the greatest record has that lists each of 262,144 cells once.
const RECORD_BYTES: usize = 2_097_269;

/// What a joining takes memory for, beside the room in which records are read.
#[derive(Drop)]
pub(crate) struct JoinRooms {
    /// The joined content of the chain.
    pub(crate) kept: Kept,
    /// Room for the record that is written.
    pub(crate) record: Bytes,
    /// Its runs.
    pub(crate) runs: RunList,
    ghost room: { 2097269 ≤ record.spare + length record.list },
}

impl JoinRooms {
    /// Takes this memory. The one refusal is that none is found.
    pub(crate) fn new(alloc: Global) -> Result<JoinRooms, NoMemory>
        ensures none { IfOk result (λ rooms. (c : ℕ) → kept_word rooms.kept c ≡ None) }
    {
        let kept = Kept::new(alloc)?;
        let record = Bytes::with_room(alloc, RECORD_BYTES)?;
        let runs = RunList::new(alloc)?;
        Ok(JoinRooms { kept, record, runs })
    }
}
