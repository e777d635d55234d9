use ckpt_base::Failed;
use disk_model::DiskFile;
use thiserror::Error;

/// Why a chain is not opened, or a record not read.
#[derive(Clone, Copy, Debug, PartialEq, Eq, Error)]
pub enum ChainFault {
    /// A call on the disk failed, and the disk counted a fault.
    #[error("a call on the disk failed")]
    Failed,
    /// A file of the store is damaged at this place.
    #[error("damaged file {file} at {place}")]
    Damaged {
        /// The file.
        file: DiskFile,
        /// The place in it, counted from 0.
        place: u64,
    },
}

impl From<Failed> for ChainFault {
    ghost use Rattle.std.specs.Prelude.{◌≡◌};
    ghost use Rattle.image_chain.specs.declared.fault.ChainFault.TheVariants.{Failed};

    ghost from_gives = { λ _ e. e ≡ Failed };

    fn from(_: Failed) -> ChainFault {
        ChainFault::Failed
    }
}
