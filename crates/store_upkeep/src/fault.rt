use ckpt_base::{Failed, NoMemory};
use disk_model::DiskFile;
use image_chain::ChainFault;
use thiserror::Error;

/// Why the records of a store are not joined.
#[derive(Clone, Copy, Debug, PartialEq, Eq, Error)]
pub enum JoinFault {
    /// No memory was found, before the first call on the disk.
    #[error("no memory")]
    Memory,
    /// A call on the disk failed, and the disk counted a fault.
    #[error("a call on the disk failed")]
    Failed,
    /// A file of the store is damaged at this place.
    #[error("damaged file {file} at {place}")]
    Damaged {
        /// The file.
        file: DiskFile,
        /// The place in it, counted from 0.
        place: u64,
    },
}

impl From<NoMemory> for JoinFault {
    ghost use Rattle.std.specs.Prelude.{◌≡◌};
    ghost use Rattle.store_upkeep.specs.declared.fault.JoinFault.TheVariants.{Memory};

    ghost from_gives = { λ _ e. e ≡ Memory };

    fn from(_: NoMemory) -> JoinFault {
        JoinFault::Memory
    }
}

impl From<Failed> for JoinFault {
    ghost use Rattle.std.specs.Prelude.{◌≡◌};
    ghost use Rattle.store_upkeep.specs.declared.fault.JoinFault.TheVariants.{Failed};

    ghost from_gives = { λ _ e. e ≡ Failed };

    fn from(_: Failed) -> JoinFault {
        JoinFault::Failed
    }
}

impl From<ChainFault> for JoinFault {
    ghost use Rattle.std.specs.Prelude.{◌≡◌};
    ghost use Rattle.store_upkeep.specs.Refused.{of_chain};

    ghost from_gives = { λ fault e. e ≡ of_chain fault };

    fn from(fault: ChainFault) -> JoinFault {
        match fault {
            ChainFault::Failed => JoinFault::Failed,
            ChainFault::Damaged { file, place } => JoinFault::Damaged { file, place },
        }
    }
}
