//! The journal of a life, and what it answers of itself.
ghost use Rattle.std.specs.Prelude.{◌≡◌, ◌+◌, ◌≤◌, ℕ, length, IfOk, None};
ghost use Rattle.output_file.specs.Pushed.{length_of, not_begun};
ghost use Rattle.image_chain.specs.Memory.{kept_word};

use ckpt_base::{Bytes, NoMemory};
use image_chain::{Chain, Kept};
use output_file::Output;
use std::alloc::Global;
use std::marker::Model;

/// How many bytes the greatest record has that lists each of 262,144 cells once.
const RECORD_BYTES: usize = 2_097_269;

/// The rooms of a journal, before it is begun.
#[derive(Drop)]
pub struct JournalRooms {
    /// The joined content of the chain.
    pub kept: Kept,
    /// The output, which has not begun.
    pub output: Output,
    /// Room for one record.
    pub record: Bytes,
    ghost room: { 2097269 ≤ record.spare + length record.list },
}

impl JournalRooms {
    /// Takes all memory of a journal. The one refusal is that none is found.
    pub fn new(alloc: Global) -> Result<JournalRooms, NoMemory>
        ensures none { IfOk result (λ rooms. (c : ℕ) → kept_word rooms.kept c ≡ None) }
    {
        let kept = Kept::new(alloc)?;
        let output = Output::new(alloc)?;
        let record = Bytes::with_room(alloc, RECORD_BYTES)?;
        Ok(JournalRooms {
            kept,
            output,
            record,
        })
    }
}

/// Whether a record is under way.
#[derive(Clone, Copy, Debug, PartialEq, Eq)]
pub enum JournalState {
    /// No record is under way: the chain is at rest.
    Resting,
    /// A record is prepared, or written in part.
    Appending,
    /// A call has failed: what is kept says nothing of the disk.
    Spent,
}

/// The chain of a life with its joined content, and its output. Contracts see the three, whether a record is under way, and its bytes.
#[derive(Drop)]
pub struct Journal {
    pub(crate) chain: Chain,
    pub(crate) kept: Kept,
    pub(crate) output: Output,
    pub(crate) record: Bytes,
    pub(crate) state: JournalState,
}

impl Model for Journal {
    ghost use Rattle.std.specs.Prelude.{◌≡◌, ◌≢◌, ◌≤◌, ◌+◌, length, IsTrue};
    ghost use Rattle.image_chain.specs.declared.chain.Step.TheVariants.{Piece};
    ghost use Rattle.life_journal.specs.declared.journal.JournalState.TheVariants.{Resting, Appending, Spent};
    ghost use Rattle.life_journal.specs.JournalView.{JournalView};
    ghost use Rattle.life_journal.specs.Writing.{IsUnderWay};

    ghost Value = { JournalView };

    ghost view = { λ j. record { chain = j.chain; kept = j.kept; output = j.output; state = j.state; prepared = j.record.list } };

    ghost invariant = { λ j. record { rest : j.state ≡ Resting → j.chain.due ≡ Piece 0; under_way : j.state ≡ Appending → IsUnderWay j.chain j.record.list; begun : j.state ≢ Spent → IsTrue j.output.begun; room : 2097269 ≤ j.record.spare + length j.record.list } };
}

impl Journal {
    /// How many steps lie between two images at least.
    pub fn every(&self) -> u32
        ensures answer { result ≡ self.now.chain.current.every }
    {
        self.chain.every()
    }

    /// How many bytes of output there are from the file's front on, those that wait to be written included.
    pub fn output_length(&self) -> u64
        ensures answer { result ≡ length_of self.now.output }
    {
        self.output.length()
    }
}
