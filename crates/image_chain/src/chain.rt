ghost use Rattle.std.specs.Prelude.{◌≡◌, ◌≤◌, ◌+◌, ◌*◌, length, IsSome, None};

use disk_model::DiskFile;
use image_format::Fields;
use std::marker::Model;

/// The steps of an append, each of them one disk call.
#[derive(Clone, Copy, Debug, PartialEq, Eq)]
pub enum Step {
    /// The write of this piece, counted from 0.
    Piece(u32),
    /// The sync that makes the record lasting.
    SyncRecord,
    /// The write that opens the gate before the record.
    OpenGate,
    /// The sync that makes the open gate lasting.
    SyncGate,
    /// No further call.
    Done,
}

/// The chain of a store: where its records stand, and what is kept of them. Contracts see the current file and the step that is due.
#[derive(Drop)]
pub struct Chain {
    pub(crate) current: Current,
    /// The step that is due.
    pub(crate) due: Step,
}

impl Model for Chain {
    ghost use Rattle.image_chain.specs.ChainView.{ChainView};
    ghost use Rattle.image_chain.specs.Append.{IsSoundFile};

    ghost Value = { ChainView };

    ghost view = { λ c. record { current = c.current; due = c.due } };

    ghost invariant = { λ c. IsSoundFile c.current };
}

/// Where a record stands in its file, and how many bytes it has.
#[derive(Clone, Copy)]
pub struct Span {
    /// The place of its first byte in the file.
    pub at: u64,
    /// How many bytes it has.
    pub length: usize,
}

pub(crate) const NO_SPANS: [Span; 64] = [Span { at: 0, length: 0 }; 64];

/// What is kept of the current file.
#[derive(Drop)]
pub struct Current {
    /// The file.
    pub file: DiskFile,
    /// The generation in its header.
    pub generation: u32,
    /// The steps from one image to the next.
    pub every: u32,
    /// How many records it holds at most.
    pub max: u16,
    /// How many records there are.
    pub count: u16,
    /// The place of the last gate, which is not open.
    pub gate: u64,
    /// The fields of the newest record.
    pub newest: Option<Fields>,
    /// The place at which the newest record begins.
    pub newest_at: u64,
    /// Where each record stands; those past the count mean nothing.
    pub spans: [Span; 64],
    ghost bounds: { (gate ≤ 15 + 3145837 * count) × (count ≤ max) × (max ≤ 64) × (length spans ≡ 64) },
    ghost some: { 1 ≤ count → IsSome newest },
    ghost none: { count ≡ 0 → newest ≡ None },
    ghost short: { newest_at ≤ 15 + 3145837 * count },
}
