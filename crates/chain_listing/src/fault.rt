use ckpt_base::NoMemory;
use disk_model::DiskFile;
use image_chain::ChainFault;
use std::alloc::AllocError;
use thiserror::Error;

/// Why the records of a store are not listed.
#[derive(Clone, Copy, Debug, PartialEq, Eq, Error)]
pub enum ListFault {
    /// No memory was found.
    #[error("no memory")]
    Memory,
    /// A call on the disk failed, and the disk counted a fault.
    #[error("a call on the disk failed")]
    Failed,
    /// A file of the store is damaged at this place.
    #[error("damaged file {file} at {place}")]
    Damaged {
        /// The file.
        file: DiskFile,
        /// The place in it, counted from 0.
        place: u64,
    },
}

impl From<NoMemory> for ListFault {
    ghost use Rattle.std.specs.Prelude.{◌≡◌};
    ghost use Rattle.chain_listing.specs.declared.fault.ListFault.TheVariants.{Memory};

    ghost from_gives = { λ _ e. e ≡ Memory };

    fn from(_: NoMemory) -> ListFault {
        ListFault::Memory
    }
}

impl From<AllocError> for ListFault {
    ghost use Rattle.std.specs.Prelude.{◌≡◌};
    ghost use Rattle.chain_listing.specs.declared.fault.ListFault.TheVariants.{Memory};

    ghost from_gives = { λ _ e. e ≡ Memory };

    fn from(_: AllocError) -> ListFault {
        ListFault::Memory
    }
}

impl From<ChainFault> for ListFault {
    ghost use Rattle.std.specs.Prelude.{◌≡◌};
    ghost use Rattle.chain_listing.specs.Store.{of_chain};

    ghost from_gives = { λ fault e. e ≡ of_chain fault };

    fn from(fault: ChainFault) -> ListFault {
        match fault {
            ChainFault::Failed => ListFault::Failed,
            ChainFault::Damaged { file, place } => ListFault::Damaged { file, place },
        }
    }
}
