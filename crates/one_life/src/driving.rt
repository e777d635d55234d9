//! How a life is driven: the calls of `go` up to a bound are one longer way.
ghost use Rattle.std.specs.Prelude.{◌≡◌, ◌≤◌, ◌+◌, true, false, IfOk, OnErr, OnOk};
ghost use Rattle.ckpt_base.specs.Faults.{Rose};
ghost use Rattle.disk_model.specs.View.{Steady};
ghost use Rattle.ckpt_runner.specs.Calls.{FitsDisk};
ghost use Rattle.ckpt_runner.specs.Standing.{KeepsImages, KeepsStanding};
ghost use Rattle.one_life.specs.Ends.{GoesToBound};

use ckpt_base::{Ending, Failed};
use ckpt_runner::Life;
use disk_model::Disk;
use paged_machine::Steps;
use std::sync::ledger::Ledger;

/// Calls `go` again and again, up to the bound.
pub fn run_to<'a, D: Disk, L: Ledger>(
    life: &mut Life<'a>,
    disk: &mut D,
    bound: u64,
    steps: &mut Steps<L>,
) -> Result<Ending, Failed>
    requires live { (life.old.machine.live ≡ true) × (life.old.failed ≡ false) × (life.old.finished ≡ false) }
    requires bound { life.old.machine.state.ticks ≤ bound }
    requires fits { FitsDisk life.old (D.view disk.old) }
    ensures goes { IfOk result (λ e. GoesToBound bound e life.old (D.view disk.old) life.new (D.view disk.new)) }
    // A crash at any moment leaves a store that stands for each source of the life, and no image is lost.
    ensures moments { KeepsStanding life.old (D.view disk.old) (D.view disk.new) }
    ensures later { KeepsImages (D.view disk.old) (D.view disk.new) }
    ensures well { OnOk result (life.new.failed ≡ false) }
    ensures steps { OnOk result (steps.new + life.old.machine.state.ticks ≡ steps.old + life.new.machine.state.ticks) }
    ensures failed { OnErr result (Rose (D.view disk.old).faults (D.view disk.new).faults) }
    ensures counts { OnOk result ((D.view disk.new).faults ≡ (D.view disk.old).faults) }
    ensures steady { Steady (D.view disk.old) (D.view disk.new) }
{
    let mut until = life.ticks();
    'calls: loop {
        let ending = life.go(disk, until, steps)?;
        match ending {
            Ending::Going => {
                if until == bound {
                    return Ok(ending);
                }
                until += 1;
            }
            _ => return Ok(ending),
        }
    }
}
