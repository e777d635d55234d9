// Laws of stores that stand for a source: functions that do nothing, whose contracts are theorems.

ghost use Rattle.std.specs.Prelude.{◌≡◌, Option, Ok};
ghost use Rattle.disk_model.specs.Store.{Store};
ghost use Rattle.image_format.specs.declared.fields.Fields.{Fields};
ghost use Rattle.image_chain.specs.Records.{Found, chain_in};
ghost use Rattle.run_images.specs.Source.{Source};
ghost use Rattle.run_images.specs.Stands.{Stands};
ghost use Rattle.ckpt_runner.specs.declared.how.Mode.TheVariants.{Restart};
ghost use Rattle.ckpt_runner.specs.declared.started.OpenFault.{OpenFault};
ghost use Rattle.ckpt_runner.specs.Opening.{Given, HasChain, IsAccepted, Refuses};
ghost use Rattle.ckpt_runner.specs.Standing.{IsGivenSource};
ghost use Rattle.accepted_stores.specs.Accepted.{FitsGiven, MayRefuse};

use code_maker::{checkpoints_are_there, codes_mean_their_programs, directives_are_there};
use flow_graph::checkpoints_are_exact;

/// A store that stands for a source is whole: looking for its chain finds no damage.
pub fn standing_stores_are_whole()
    ensures law { (s : Source) (c : Store) → Stands s c → (found : Option Found) × (chain_in c ≡ Ok found) }
{}

/// The newest record of a store that stands for a source has the digests of that source and its input.
pub fn standing_chains_are_of_their_source()
    ensures law { (s : Source) (c : Store) (found : Found) (newest : Fields) → Stands s c → HasChain c found newest → newest.marks ≡ s.marks }
{}

/// The chain of a store that stands for a source fits the compiled program, the input and the output file.
pub fn standing_chains_fit_their_program()
    ensures law { (g : Given) (s : Source) (c : Store) (found : Found) (f : Fields) → IsGivenSource g s → Stands s c → HasChain c found f → FitsGiven g c found f }
{
    codes_mean_their_programs();
    checkpoints_are_there();
    directives_are_there();
    checkpoints_are_exact();
}

/// A store that stands for the source that was given is accepted: a restart accepts its chain, and no opening is refused for damage, another source or another input.
pub fn standing_stores_are_accepted()
    ensures chain { (g : Given) (s : Source) (c : Store) (found : Found) (f : Fields) → IsGivenSource g s → Stands s c → HasChain c found f → g.mode ≡ Restart
        → IsAccepted g c found f }
    ensures law { (g : Given) (s : Source) (c : Store) (f : OpenFault) → IsGivenSource g s → Stands s c → Refuses f g c → MayRefuse f g c }
{
    codes_mean_their_programs();
    checkpoints_are_there();
    directives_are_there();
    checkpoints_are_exact();
}
