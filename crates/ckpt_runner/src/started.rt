use ckpt_base::{Failed, NoMemory};
use disk_model::DiskFile;
use image_chain::ChainFault;
use recovery::RecoverFault;
use thiserror::Error;

/// How a life started.
#[derive(Clone, Copy, Debug, PartialEq, Eq)]
pub enum Started {
    /// At the entry of the program.
    Begun,
    /// Behind the checkpoint of an image.
    Resumed {
        /// The number of the image.
        image: u32,
        /// The steps taken up to it.
        step: u64,
    },
}

/// Why a life is not opened.
#[derive(Clone, Copy, Debug, PartialEq, Eq, Error)]
pub enum OpenFault {
    /// No memory was found, before the first call on the disk.
    #[error("no memory")]
    Memory,
    /// A call on the disk failed.
    #[error("a call on the disk failed")]
    Failed,
    /// A file of the store is damaged at this place.
    #[error("damaged file {file} at {place}")]
    Damaged {
        /// The file.
        file: DiskFile,
        /// The place in it, counted from 0.
        place: u64,
    },
    /// The store has a chain, and the life was to begin.
    #[error("occupied: image {image} step {step}")]
    Occupied {
        /// The number of its newest image.
        image: u32,
        /// The steps taken up to it.
        step: u64,
    },
    /// The newest record is of another source.
    #[error("other source")]
    OtherSource {
        /// The digest that the record has.
        kept: [u8; 32],
        /// The one that was given.
        given: [u8; 32],
    },
    /// The newest record is of another input.
    #[error("other input")]
    OtherInput {
        /// The digest that the record has.
        kept: [u8; 32],
        /// The one that was given.
        given: [u8; 32],
    },
    /// The bound is below the steps of the newest image.
    #[error("bound {bound} below step {step}")]
    Behind {
        /// The bound.
        bound: u64,
        /// The steps of the newest image.
        step: u64,
    },
}

impl From<NoMemory> for OpenFault {
    ghost use Rattle.std.specs.Prelude.{◌≡◌};
    ghost use Rattle.ckpt_runner.specs.declared.started.OpenFault.TheVariants.{Memory};

    ghost from_gives = { λ _ e. e ≡ Memory };

    fn from(_: NoMemory) -> OpenFault {
        OpenFault::Memory
    }
}

impl From<Failed> for OpenFault {
    ghost use Rattle.std.specs.Prelude.{◌≡◌};
    ghost use Rattle.ckpt_runner.specs.declared.started.OpenFault.TheVariants.{Failed};

    ghost from_gives = { λ _ e. e ≡ Failed };

    fn from(_: Failed) -> OpenFault {
        OpenFault::Failed
    }
}

impl From<ChainFault> for OpenFault {
    ghost use Rattle.ckpt_runner.specs.Faults.{of_chain};
    ghost use Rattle.std.specs.Prelude.{◌≡◌};

    ghost from_gives = { λ fault e. e ≡ of_chain fault };

    fn from(fault: ChainFault) -> OpenFault {
        match fault {
            ChainFault::Failed => OpenFault::Failed,
            ChainFault::Damaged { file, place } => OpenFault::Damaged { file, place },
        }
    }
}

impl From<RecoverFault> for OpenFault {
    ghost use Rattle.ckpt_runner.specs.Faults.{of_recovery};
    ghost use Rattle.std.specs.Prelude.{◌≡◌};

    ghost from_gives = { λ fault e. e ≡ of_recovery fault };

    fn from(fault: RecoverFault) -> OpenFault {
        match fault {
            RecoverFault::OtherSource { kept, given } => OpenFault::OtherSource { kept, given },
            RecoverFault::OtherInput { kept, given } => OpenFault::OtherInput { kept, given },
            RecoverFault::Damaged { file, place } => OpenFault::Damaged { file, place },
        }
    }
}
