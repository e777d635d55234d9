//! How a life is opened.

ghost use Rattle.std.specs.Prelude.{◌≡◌, ◌≤◌, true, false, [], length, IsTrue, IfOk, IfErr, OnOk};
ghost use Rattle.disk_model.specs.View.{Steady};
ghost use Rattle.run_images.specs.Origin.{Origin};
ghost use Rattle.ckpt_runner.specs.LifeView.{is_idle};
ghost use Rattle.ckpt_runner.specs.Lives.{Lives};
ghost use Rattle.ckpt_runner.specs.Keeps.{Kept};
ghost use Rattle.ckpt_runner.specs.Opening.{Opens, StartsAt, IsGiven, Refuses, Leaves, ticks_at};
ghost use Rattle.ckpt_runner.specs.Arguments.{given_by};
ghost use Rattle.ckpt_runner.specs.Standing.{KeepsImages, OpensGood, OpensStanding};

use crate::beginning::begin;
use crate::how::How;
use crate::life::Life;
use crate::resuming::resume;
use crate::rooms::{Given, Rooms};
use crate::started::OpenFault;
use compiled_program::Compiled;
use disk_model::Disk;
use image_chain::{Chain, ChainRoom};
use image_format::Marks;
use std::alloc::Global;

impl<'a> Life<'a> {
    /// Takes all memory of the life, and opens the store: begins where that has no chain, and else goes on from its newest image.
    ///
    /// `every` is at least 1, `max` is 2 to 64, the pace is not empty, and the input has at most 16,777,216 bytes. The refusals come in the
    /// order of `OpenFault`, and those behind `Failed` before any change of contents.
    pub fn open<D: Disk>(
        alloc: Global,
        compiled: &'a Compiled,
        marks: &Marks,
        input: &'a [u8],
        disk: &mut D,
        how: How<'a>,
    ) -> Result<Life<'a>, OpenFault>
        requires every { 1 ≤ how.every }
        requires max { (2 ≤ how.max) × (how.max ≤ 64) }
        requires pace { 1 ≤ length how.pace.now }
        requires short { length input.now ≤ 16777216 }
        ensures opens { IfOk result (λ life. IsTrue (D.view disk.old).tells → (o : Origin)
            × Opens (given_by compiled.now marks.now input.now how.entry) (D.view disk.old).seen life.started o × Lives o [] life × Kept o [] life (D.view disk.new)) }
        ensures lives { IfOk result (λ life. (o : Origin) × StartsAt (given_by compiled.now marks.now input.now how.entry) life.started o × Lives o [] life) }
        ensures given { IfOk result (λ life. IsGiven (given_by compiled.now marks.now input.now how.entry) life × (life.pace ≡ how.entry.pace.now)) }
        ensures ticks { IfOk result (λ life. life.machine.state.ticks ≡ ticks_at life.started) }
        ensures live { IfOk result (λ life. (life.machine.live ≡ true) × (life.failed ≡ false) × (life.finished ≡ false) × (is_idle life.writer ≡ true)) }
        // On a store that stands for the source of what was given, the life is of that source; and no moment of opening loses that, or an image.
        ensures good { IfOk result (λ life. OpensGood (given_by compiled.now marks.now input.now how.entry) life (D.view disk.old) (D.view disk.new)) }
        ensures moments { OpensStanding (D.view disk.old) (D.view disk.new) }
        ensures later { KeepsImages (D.view disk.old) (D.view disk.new) }
        ensures err { IfErr result (λ e. IsTrue (D.view disk.old).tells → Refuses e (given_by compiled.now marks.now input.now how.entry) (D.view disk.old).seen) }
        ensures leaves { IfErr result (λ e. Leaves e (D.view disk.old) (D.view disk.new)) }
        ensures untouched { IfErr result (λ e. e ≡ OpenFault.Memory → disk.new ≡ disk.old) }
        ensures counts { OnOk result ((D.view disk.new).faults ≡ (D.view disk.old).faults) }
        ensures steady { Steady (D.view disk.old) (D.view disk.new) }
    {
        let mut room = ChainRoom::new(alloc)?;
        let mut rooms = Rooms::new(alloc, compiled, how.fill)?;
        let given = Given {
            compiled,
            marks: *marks,
            input,
            how,
        };
        match Chain::open(disk, &mut room, &mut rooms.journal.kept)? {
            None => Ok(begin(rooms, given, disk)?),
            Some(chain) => resume(rooms, chain, given, disk),
        }
    }
}
