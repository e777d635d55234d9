use thiserror::Error;

/// The digests of what an image belongs to.
#[derive(Clone, Copy, Debug, PartialEq, Eq)]
pub struct Marks {
    /// The SHA-256 of the source.
    pub source: [u8; 32],
    /// The SHA-256 of the input.
    pub input: [u8; 32],
}

/// What an image says of its checkpoint.
#[derive(Clone, Copy, Debug, PartialEq, Eq)]
pub struct Fields {
    /// The source and the input of the run.
    pub marks: Marks,
    /// The node of the checkpoint, at most 2,047.
    pub node: u32,
    /// The steps taken up to it, at least 1.
    pub steps: u64,
    /// How many bytes of the input were taken, at most 16,777,216.
    pub input_place: u64,
    /// How many bytes of output were written.
    pub output_length: u64,
    /// The newest directive executed, at most 64; 0 where there is none.
    pub directive: u16,
    /// Whether the cells that are only read after the directive are left out of this image.
    pub left_out: bool,
    /// The number of the image, at least 1.
    pub number: u32,
}

/// The bytes are no record.
#[derive(Clone, Copy, Debug, PartialEq, Eq, Error)]
#[error("bad record at {place}")]
pub struct BadRecord {
    /// The first byte of the first field that breaks its rule, or the length of the bytes where a field is not whole.
    pub place: usize,
}
