// Laws of images and of the records that stand for them: functions that do nothing, whose contracts are theorems.

ghost use Rattle.std.specs.Prelude.{◌≡◌, ℕ, true, List, [], ◌∷◌, ◌++◌, slice_index};
ghost use Rattle.std.specs.List.{Contains};
ghost use Rattle.ckpt_base.specs.Event.{Event, Checkpoint};
ghost use Rattle.image_format.specs.Image.{Image};
ghost use Rattle.machine_code.specs.Shown.{wrote};
ghost use Rattle.coalesce.specs.Join.{Joins};
ghost use Rattle.run_images.specs.Since.{Since, is_due, since_after};
ghost use Rattle.run_images.specs.Images.{Taking, TakenImage, images_from, since_behind};
ghost use Rattle.run_images.specs.JoinedList.{IsOf, IsJoinedList};
ghost use Rattle.run_images.specs.Source.{Source, IsSource};
ghost use Rattle.run_images.specs.Hold.{HoldWords, HoldUnwritten, IsTakenAt};

use flow_graph::runs_spare_excluded_cells;

/// The images of a run are those of its first events, and then those of the others from there.
pub fn images_go_on()
    ensures since { (every : ℕ) (es fs : List Event) (s : Since) → since_after every (es ++ fs) s ≡ since_after every fs (since_after every es s) }
    ensures images { (t : Taking) (es fs : List Event) (s : Since)
        → images_from t (es ++ fs) s ≡ images_from t es s ++ images_from t fs (since_after t.every es s) }
{}

/// What is kept of an image is enough for those after it: behind its checkpoint the events so far leave what its fields say.
pub fn newest_images_give_the_rest()
    ensures law { (t : Taking) (es : List Event) (node tick : ℕ) (s : Since) (before : List TakenImage) (image : TakenImage)
        → is_due t.every (since_after t.every es s) tick ≡ true
        → images_from t (es ++ Checkpoint node tick ∷ []) s ≡ before ++ image ∷ []
        → since_after t.every (es ++ Checkpoint node tick ∷ []) s ≡ since_behind image.fields }
{}

/// A joined list with the record of one image more is one of the images and that one.
pub fn joined_lists_grow()
    ensures law { (rs : List Image) (r : Image) (before : List TakenImage) (image : TakenImage) → IsJoinedList rs before → IsOf r image
        → IsJoinedList (rs ++ r ∷ []) (before ++ image ∷ []) }
{}

/// The one record that joins records is a joined list of the same images.
pub fn joined_lists_join()
    ensures law { (rs : List Image) (r : Image) (taken : List TakenImage) → IsJoinedList rs taken → Joins rs r → IsJoinedList (r ∷ []) taken }
{}

/// Right behind an image of the source's run the records, the new one among them, give each cell that is not forgettable there its word.
pub fn taken_images_hold()
    ensures law { (s : Source) (every node t : ℕ) (es : List Event) (rs : List Image) (r : Image) (m : List ℕ) → IsSource s
        → IsTakenAt s every node t es rs r m → HoldWords s node (rs ++ r ∷ []) m }
{
    runs_spare_excluded_cells();
}

/// Between two images the records go on to give each cell that was not written its word.
pub fn unwritten_words_stay()
    ensures law { (s : Source) (t : Taking) (now : Since) (es : List Event) (rs : List Image) (old new : List ℕ) → images_from t es now ≡ []
        → HoldUnwritten s now rs old
        → ((c : ℕ) → (Contains (wrote es) c → ⊥) → slice_index new c ≡ slice_index old c) → HoldUnwritten s (since_after t.every es now) rs new }
{}
