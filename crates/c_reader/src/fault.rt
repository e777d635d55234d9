use std::alloc::AllocError;
use thiserror::Error;

/// Why a text was not read. Of several causes the first in this order is answered.
#[derive(Debug, Drop, Error)]
pub enum ReadFault {
    /// No memory was found.
    #[error("no memory")]
    Memory,
    /// The text has so many bytes, more than 262,144.
    #[error("{0} bytes are too many")]
    TooLong(usize),
    /// The byte at this place, counted from 0, begins no token or spoils one.
    #[error("bad byte at {0}")]
    BadByte(usize),
    /// The run of letters and digits at this place begins with a digit and is no number.
    #[error("bad number at {0}")]
    BadNumber(usize),
    /// A comment does not end.
    #[error("unended comment")]
    UnendedComment,
    /// The tokens spell no program. The line is that of the first token with which no program goes on.
    #[error("syntax in line {0}")]
    Syntax(u32),
}

impl From<AllocError> for ReadFault {
    ghost use Rattle.std.specs.Prelude.{◌≡◌};
    ghost use Rattle.c_reader.specs.declared.fault.ReadFault.TheVariants.{Memory};

    ghost from_gives = { λ _ e. e ≡ Memory };

    fn from(_: AllocError) -> ReadFault {
        ReadFault::Memory
    }
}
