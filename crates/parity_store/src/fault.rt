use ckpt_base::Failed;
use disk_model::DiskFile;
use thiserror::Error;

/// Why a pool is not opened.
#[derive(Clone, Copy, Debug, PartialEq, Eq, Error)]
pub enum PoolFault {
    /// A call on the disk failed, and the disk counted a fault.
    #[error("a call on the disk failed")]
    Failed,
    /// A file of the store is damaged at this place.
    #[error("damaged file {file} at {place}")]
    Damaged {
        /// The file.
        file: DiskFile,
        /// The place in it, counted from 0.
        place: u64,
    },
}

impl From<Failed> for PoolFault {
    ghost use Rattle.std.specs.Prelude.{◌≡◌};
    ghost use Rattle.parity_store.specs.declared.fault.PoolFault.TheVariants.{Failed};

    ghost from_gives = { λ _ e. e ≡ Failed };

    fn from(_: Failed) -> PoolFault {
        PoolFault::Failed
    }
}

/// Why the bytes of a job are not got or put.
#[derive(Clone, Copy, Debug, PartialEq, Eq, Error)]
pub enum SlotFault {
    /// A call on the disk failed, and the disk counted a fault.
    #[error("a call on the disk failed")]
    Failed,
    /// Two or more slots are lost.
    #[error("lost {first} {second}")]
    Lost {
        /// The least of them, counted from 1.
        first: u16,
        /// The next one.
        second: u16,
    },
    /// There is no free generation.
    #[error("pool is used up")]
    UsedUp,
}

impl From<Failed> for SlotFault {
    ghost use Rattle.std.specs.Prelude.{◌≡◌};
    ghost use Rattle.parity_store.specs.declared.fault.SlotFault.TheVariants.{Failed};

    ghost from_gives = { λ _ e. e ≡ Failed };

    fn from(_: Failed) -> SlotFault {
        SlotFault::Failed
    }
}
