ghost use Rattle.std.specs.Prelude.{◌≡◌, ◌≤◌, length};

use disk_model::DiskFile;

/// How many bytes a piece has, but for the last one of a file.
pub(crate) const PIECE_BYTES: usize = 4096;

/// The pieces of a file: what waits to be written, and the place of that.
#[derive(Drop)]
pub struct Pieces {
    /// The file.
    pub file: DiskFile,
    /// Where the piece at hand goes.
    pub at: u64,
    /// How many bytes it has.
    pub held: usize,
    /// Its bytes; those past them mean nothing.
    pub piece: [u8; 4096],
    ghost bounds: { (held ≤ 4096) × (length piece ≡ 4096) },
}
