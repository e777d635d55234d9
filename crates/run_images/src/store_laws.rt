// Laws of stores that stand, and of what each call on a store leaves of them: functions that do nothing, whose contracts are theorems.

ghost use Rattle.std.specs.Prelude.{◌≡◌, ℕ, ◌≤◌, List, [], ◌∷◌, ◌++◌, length, Some, None, Ok};
ghost use Rattle.disk_model.specs.Store.{Store};
ghost use Rattle.image_format.specs.declared.fields.Fields.{Fields};
ghost use Rattle.image_format.specs.Image.{Image};
ghost use Rattle.image_chain.specs.declared.chain.Current.{Current};
ghost use Rattle.image_chain.specs.Lists.{Lists, IsKept, IsAppended};
ghost use Rattle.image_chain.specs.Records.{broken_field, chain_in, Found, newest_of};
ghost use Rattle.image_chain.specs.Replace.{IsReplaced};
ghost use Rattle.coalesce.specs.Join.{Joins};
ghost use Rattle.output_file.specs.OnDisk.{IsBehind};
ghost use Rattle.run_images.specs.Source.{Source, IsSource};
ghost use Rattle.run_images.specs.Stands.{Stands, StandsFor, StandsWithin, StandWith, ChainStands};
ghost use Rattle.run_images.specs.Later.{IsLater};

use code_maker::{
    checkpoints_end_ticks, codes_keep_pointers, codes_mean_their_graphs, codes_run_alike,
    codes_stand_behind,
};
use flow_graph::graphs_mean_their_programs;
use machine_code::{runs_give_one_answer, runs_pass_what_they_reach, runs_show_what_they_do};

// ---- stores

/// A store without a chain and without damage stands for every source, and needs none of the output; so does one with two empty image files.
pub fn empty_stores_stand()
    ensures empty { (s : Source) (c : Store) → c.one ≡ [] → c.two ≡ [] → Stands s c }
    ensures chainless { (s : Source) (n : ℕ) (c : Store) → chain_in c ≡ Ok None → StandsWithin s n c }
{}

/// The records that opening a standing store finds stand for its source.
pub fn kept_chains_stand()
    ensures law { (s : Source) (c : Store) (found : Found) → Stands s c → chain_in c ≡ Ok (Some found)
        → StandsFor s found.header.every found.records c.output }
{}

/// A standing store needs no more of the output than its newest image says.
pub fn newest_images_need_most()
    ensures law { (s : Source) (c : Store) (found : Found) (newest : Fields) → IsSource s → Stands s c → chain_in c ≡ Ok (Some found)
        → newest_of None found.records ≡ Some newest → StandsWithin s newest.output_length c }
{
    runs_give_one_answer();
    runs_show_what_they_do();
    runs_pass_what_they_reach();
    graphs_mean_their_programs();
    codes_run_alike();
    codes_keep_pointers();
    checkpoints_end_ticks();
    codes_stand_behind();
    codes_mean_their_graphs();
}

// ---- changes of the output

/// A change of the output behind the bytes that the images need leaves a standing store standing.
pub fn outputs_grow_behind()
    ensures law { (s : Source) (n m : ℕ) (old new : Store) → n ≤ m → StandsWithin s n old → IsBehind m old new → StandsWithin s n new }
{}

/// Records that stand with the bytes that last stand with more bytes, of which more last.
pub fn standing_records_stay()
    ensures law { (s : Source) (every n m : ℕ) (bytes more : List ℕ) (rs : List Image) → n ≤ m → n ≤ length bytes → StandWith s every n bytes rs
        → StandWith s every m (bytes ++ more) rs }
{}

// ---- calls of the chain

/// What a crash may leave in a call of a chain that stands, stands: in one that keeps its records; in an append of a record that follows them, where they
/// stand with it too; and in a joining.
pub fn chains_keep_standing()
    ensures kept { (s : Source) (n : ℕ) (bytes : List ℕ) (chain : Current) (rs : List Image) (old new : Store) → ChainStands s n bytes chain rs old
        → IsKept chain rs old new → StandsWithin s n new }
    ensures appended { (s : Source) (n : ℕ) (bytes : List ℕ) (chain : Current) (rs : List Image) (old new : Store) → ChainStands s n bytes chain rs old
        → (r : Image) → broken_field (newest_of None rs) r.fields ≡ None → StandWith s chain.every n bytes (rs ++ r ∷ []) → IsAppended chain rs r old new
        → StandsWithin s n new }
    ensures replaced { (s : Source) (n : ℕ) (bytes : List ℕ) (chain : Current) (rs : List Image) (old new : Store) → ChainStands s n bytes chain rs old
        → (r : Image) → Joins rs r → IsReplaced chain rs r old new → StandsWithin s n new }
{}

/// No image is lost: where an earlier outcome had image j or a later one, so has what a crash may leave in a call of the output, and in one of the chain.
pub fn images_are_not_lost()
    ensures behind { (j n : ℕ) (old new : Store) → IsLater j old → IsBehind n old new → IsLater j new }
    ensures kept { (j : ℕ) (chain : Current) (rs : List Image) (old new : Store) → IsLater j old → Lists chain rs old → IsKept chain rs old new
        → IsLater j new }
    ensures appended { (j : ℕ) (chain : Current) (rs : List Image) (old new : Store) → IsLater j old → Lists chain rs old
        → (r : Image) → broken_field (newest_of None rs) r.fields ≡ None → IsAppended chain rs r old new → IsLater j new }
    ensures replaced { (j : ℕ) (chain : Current) (rs : List Image) (old new : Store) → IsLater j old → Lists chain rs old
        → (r : Image) → Joins rs r → IsReplaced chain rs r old new → IsLater j new }
{}
