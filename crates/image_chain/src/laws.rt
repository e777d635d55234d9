//! What stays of a chain beside other calls, the order of the steps of an append, where a chain is found, and what one
//! record more gives.
ghost use Rattle.std.specs.Prelude.{◌≡◌, ◌+◌, ◌<◌, ℕ, List, [], ◌∷◌, ◌++◌, Some, None, Ok, length};
ghost use Rattle.std.specs.Option.{option_or};
ghost use Rattle.disk_model.specs.declared.disk_file.DiskFile.{DiskFile};
ghost use Rattle.disk_model.specs.Store.{Store};
ghost use Rattle.image_format.specs.declared.fields.Fields.{Fields};
ghost use Rattle.image_format.specs.declared.header.Header.{Header};
ghost use Rattle.image_format.specs.Image.{Image, word_in_runs};
ghost use Rattle.image_chain.specs.Records.{Found, chain_in, header_in, newest_of};
ghost use Rattle.image_chain.specs.Memory.{memory};
ghost use Rattle.image_chain.specs.Clear.{blank, blank_header};
ghost use Rattle.image_chain.specs.Files.{IsFoundIn, records_in};
ghost use Rattle.image_chain.specs.Append.{IsDue, IsInside, Spells, next_of, step_after, writer_calls};
ghost use Rattle.image_chain.specs.Lists.{ImagesStay, Rests, found_of};

use crate::chain::{Chain, Step};
use disk_model::Disk;

impl Chain {
    /// A chain at rest, and a step of an append that is due, stay so beside calls that leave both image files as they were since an
    /// earlier state `before` of the disk.
    pub fn stays_beside<D: Disk>(&self, disk: &D)
        ensures rests { (before : D) (rs : List Image) → ImagesStay (D.view before) (D.view disk.now)
            → Rests self.now (D.view before) rs → Rests self.now (D.view disk.now) rs }
        ensures due { (before : D) (rs : List Image) (image : List ℕ) (at : Step) → ImagesStay (D.view before) (D.view disk.now)
            → IsDue self.now.current (D.view before) rs image at → IsDue self.now.current (D.view disk.now) rs image at }
    {}
}

/// The steps of an append of n bytes, by how many of its calls are done. A record has a first piece.
pub fn steps_follow()
    ensures first { (r : Image) (image : List ℕ) → Spells r image → IsInside (Step.Piece 0) (length image) × (step_after 0 (length image) ≡ Step.Piece 0) }
    ensures inside { (done n : ℕ) → IsInside (step_after done n) n }
    ensures next { (done n : ℕ) → done + 1 < writer_calls n → next_of (step_after done n) n ≡ step_after (done + 1) n }
    ensures last { (done n : ℕ) → done + 1 ≡ writer_calls n → next_of (step_after done n) n ≡ Step.Done }
{}

/// A chain is found exactly where one image file is open and lists its records, and the other one, where it is open, is of a smaller
/// generation.
pub fn found_chains_are_there()
    ensures there { (s : Store) (found : Found) → chain_in s ≡ Ok (Some found) → IsFoundIn s found }
    ensures only { (s : Store) (found : Found) → IsFoundIn s found → chain_in s ≡ Ok (Some found) }
    ensures records { (s : Store) (f : DiskFile) (h : Header) (rs : List Image) → chain_in s ≡ Ok (found_of f h rs) → records_in s ≡ rs }
{}

/// One record more behind others is the newest of them, and gives each cell that it lists its word. The newest fields are those of the
/// last record.
pub fn records_grow()
    ensures newest { (rs : List Image) (r : Image) → newest_of None (rs ++ r ∷ []) ≡ Some r.fields }
    ensures words { (rs : List Image) (r : Image) (c : ℕ) → memory (rs ++ r ∷ []) c ≡ option_or (word_in_runs r.runs c) (memory rs c) }
    ensures last { (rs : List Image) (f : Fields) → newest_of None rs ≡ Some f → (before : List Image) × (r : Image) × (rs ≡ before ++ r ∷ []) × (r.fields ≡ f) }
{}

/// A blank image file has a good header, and its gate is closed.
pub fn blank_files_are_closed()
    ensures law { (f : DiskFile) → header_in f blank ≡ Ok (Some blank_header) }
{}
