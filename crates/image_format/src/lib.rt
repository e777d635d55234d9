//! Images as bytes: the header of an image file, and the records that follow it.
//!
//! A record keeps what an image says of its checkpoint, and runs of cells with their words. Each image has one spelling, but for
//! the last byte, which is the gate of the next record. `write_record` appends it, and `read_record` reads the record at
//! the front of bytes, whatever follows, or answers the place of the first field that breaks its rule.
//! An [`ImageView`] is an image that lies in the bytes it was read from; contracts see the image.
#![tactic(auto)]

ghost use Rattle.std.specs.Prelude.{◌≡◌, ◌++◌, ℕ, List};
ghost use Rattle.image_format.specs.Image.{Image, IsImage};
ghost use Rattle.image_format.specs.Spelling.{spelling};

mod fields;
mod header;
mod read;
mod view;
mod write;

pub use fields::{BadRecord, Fields, Marks};
pub use header::{BadHeader, Header, read_header, write_header};
pub use view::{ImageView, RunView, Runs, read_record};
pub use write::{record_length, write_record};

/// No record begins another, but for the last byte, the gate of the next record: what two records have in common at the
/// front of the same bytes is all of them.
pub fn one_spelling()
    ensures { (a b : Image) (g h : ℕ) (x y : List ℕ) → IsImage a → IsImage b → spelling a g ++ x ≡ spelling b h ++ y → (a ≡ b) × (g ≡ h) × (x ≡ y) }
{}
