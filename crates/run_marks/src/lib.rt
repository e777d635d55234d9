//! The digests by which a store knows the source and the input of its run.
#![tactic(auto)]

ghost use Rattle.std.specs.Prelude.{◌≡◌};
ghost use Rattle.run_marks.specs.Digests.{digests_of};

use image_format::Marks;
use sha2::{Digest, Sha256};

/// The SHA-256 of all bytes of the source, and that of all bytes of the input.
pub fn marks_of(source: &[u8], input: &[u8]) -> Marks
    ensures answer { result ≡ digests_of source.now input.now }
{
    Marks {
        source: Sha256::digest(source),
        input: Sha256::digest(input),
    }
}
