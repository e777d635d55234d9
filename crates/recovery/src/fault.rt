use disk_model::DiskFile;
use thiserror::Error;

/// Why a chain is not recovered. Where causes stand together, the first in this order is answered.
#[derive(Clone, Copy, Debug, PartialEq, Eq, Error)]
pub enum RecoverFault {
    /// The newest record is of another source.
    #[error("the images are of another source")]
    OtherSource {
        /// The digest in the record.
        kept: [u8; 32],
        /// The digest that was given.
        given: [u8; 32],
    },
    /// The newest record is of another input.
    #[error("the images are of another input")]
    OtherInput {
        /// The digest in the record.
        kept: [u8; 32],
        /// The digest that was given.
        given: [u8; 32],
    },
    /// The chain does not fit the program.
    #[error("damaged file {file} at {place}")]
    Damaged {
        /// The current file.
        file: DiskFile,
        /// The place in it, counted from 0.
        place: u64,
    },
}
