// Laws of a life of a source, whose store stood when it was opened: functions that do nothing, whose contracts are theorems.

ghost use Rattle.std.specs.Prelude.{◌≡◌, ◌≤◌, ℕ, List, [], ◌∷◌, ◌++◌, length, map, take, Option, None, Ok, IsTrue};
ghost use Rattle.ckpt_base.specs.declared.ending.Ending.{Ending};
ghost use Rattle.ckpt_base.specs.Event as run;
ghost use Rattle.ckpt_base.specs.Run.{output};
ghost use Rattle.dirty_pages.specs.Pages.{PageStates};
ghost use Rattle.disk_model.specs.Moments.{LeavesOnly};
ghost use Rattle.disk_model.specs.Store.{Store};
ghost use Rattle.image_chain.specs.ChainView.{ChainView};
ghost use Rattle.image_chain.specs.Lists.{Rests};
ghost use Rattle.image_chain.specs.Records.{broken_field, chain_in};
ghost use Rattle.image_format.specs.declared.fields.Marks.{Marks};
ghost use Rattle.image_format.specs.Image.{Image};
ghost use Rattle.life_journal.specs.Begun.{HasNoChain};
ghost use Rattle.life_journal.specs.Holding.{HoldsJournal, FitsDisk};
ghost use Rattle.life_journal.specs.JournalView.{JournalView};
ghost use Rattle.machine_code.specs.declared.event.Event.{Event};
ghost use Rattle.machine_code.specs.Memory.{FitsMemory};
ghost use Rattle.machine_code.specs.Shown.{wrote};
ghost use Rattle.machine_code.specs.State.{State};
ghost use Rattle.output_file.specs.OnDisk.{IsOnDisk};
ghost use Rattle.output_file.specs.Pushed.{Pushed, begun_behind, flushed};
ghost use Rattle.paged_machine.specs.RunOn.{told_by};
ghost use Rattle.run_images.specs.Compiled.{CompiledView, IsCompiled, cells_in};
ghost use Rattle.run_images.specs.Images.{images_from};
ghost use Rattle.run_images.specs.Origin.{Origin, begun_at, IsOfSource};
ghost use Rattle.run_images.specs.Shown.{EndsAsSource};
ghost use Rattle.run_images.specs.Source.{Source, IsSource};
ghost use Rattle.run_images.specs.Stands.{Stands};
ghost use Rattle.ckpt_runner.specs.Good.{IsGood, JournalStands};
ghost use Rattle.ckpt_runner.specs.JournalCalls.{StaysBefore, AddsBytes, MakesLasting, MayJoin, MakesRoom, MayAppend, Appends, MayCut, PassesWith, IsResumedOn};
ghost use Rattle.ckpt_runner.specs.Keeps.{bytes_now};
ghost use Rattle.ckpt_runner.specs.LifeView.{LifeView};
ghost use Rattle.ckpt_runner.specs.Lives.{Lives, StopsAt, since_now, cells_now, run_now};
ghost use Rattle.ckpt_runner.specs.RunsOver.{RunsOver};
ghost use Rattle.ckpt_runner.specs.Calls.{GoesOn};
ghost use Rattle.ckpt_runner.specs.Standing.{ServesStanding, KeepsStanding, KeepsImages, AllEnd};

use disk_model::Disk;
use run_images::{
    images_of_lives_stand, newest_images_need_most, resumed_lives_hold_their_records,
};

// ---- the run

/// A run of instructions leaves what the life keeps good for its source.
pub fn runs_keep_good<D: Disk>(disk: &D)
    ensures law { (s : Source) (o : Origin) (es : List run.Event) (old : LifeView) (t : State) (n : List ℕ) (pages : PageStates) (answer : Option Event)
        → FitsMemory old.compiled.code (cells_in old.compiled) → cells_in old.compiled ≤ length old.frames → Lives o es old
        → (r : RunsOver old.compiled.code old.machine.state old.frames old.pages answer t n pages) → IsGood s o es old (D.view disk.now)
        → IsGood s o (es ++ r.stores) (record old { machine = record old.machine { state = t }; frames = n; pages = pages }) (D.view disk.now) }
{}

/// So do events that write no cell and no byte, and take no image: a byte of the input that is taken, a directive, a checkpoint at which no image is due.
pub fn quiet_events_keep_good<D: Disk>(disk: &D)
    ensures law { (s : Source) (o : Origin) (es shown : List run.Event) (old new : LifeView)
        → output shown ≡ [] → wrote shown ≡ [] → images_from o.taking shown (since_now o es) ≡ [] → new.journal ≡ old.journal → new.frames ≡ old.frames
        → IsGood s o es old (D.view disk.now) → IsGood s o (es ++ shown) new (D.view disk.now) }
{}

// ---- calls on the output

/// Bytes that are written keep the journal standing, and so does each moment of the call.
pub fn bytes_keep_good<D: Disk>(before: &D, after: &D)
    requires told { IsTrue (D.view before.now).tells }
    ensures moments { (s : Source) (o : Origin) (es : List run.Event) (old : JournalView) (m : List ℕ) → StaysBefore old (D.view before.now) (D.view after.now)
        → JournalStands s o es old m (D.view before.now) → LeavesOnly (D.view before.now) (D.view after.now) (Stands s) }
    ensures good { (s : Source) (o : Origin) (es : List run.Event) (bytes : List ℕ) (old new : JournalView) (m : List ℕ)
        → new.chain ≡ old.chain → new.output.lasting ≡ old.output.lasting
        → AddsBytes bytes old (D.view before.now) new (D.view after.now) → StaysBefore old (D.view before.now) (D.view after.now)
        → JournalStands s o es old m (D.view before.now) → JournalStands s o (es ++ map run.Byte bytes) new m (D.view after.now) }
{}

/// So does a flush.
pub fn flushes_keep_good<D: Disk>(before: &D, after: &D)
    requires told { IsTrue (D.view before.now).tells }
    ensures law { (s : Source) (o : Origin) (es : List run.Event) (old new : JournalView) (m : List ℕ)
        → new.chain ≡ old.chain → new.output ≡ flushed old.output
        → MakesLasting old (D.view before.now) new (D.view after.now) → StaysBefore old (D.view before.now) (D.view after.now)
        → JournalStands s o es old m (D.view before.now) → JournalStands s o es new m (D.view after.now) }
{}

// ---- calls of the chain

/// Records that may have been joined keep the journal standing, and so does each moment of the call.
pub fn joinings_keep_good<D: Disk>(before: &D, after: &D)
    requires told { IsTrue (D.view before.now).tells }
    ensures moments { (s : Source) (o : Origin) (es : List run.Event) (old : JournalView) (m : List ℕ) → MayJoin old (D.view before.now) (D.view after.now)
        → JournalStands s o es old m (D.view before.now) → LeavesOnly (D.view before.now) (D.view after.now) (Stands s) }
    ensures good { (s : Source) (o : Origin) (es : List run.Event) (old new : JournalView) (m : List ℕ)
        → new.output ≡ old.output → new.chain.current.every ≡ old.chain.current.every
        → MakesRoom old (D.view before.now) new (D.view after.now) → MayJoin old (D.view before.now) (D.view after.now)
        → JournalStands s o es old m (D.view before.now) → JournalStands s o es new m (D.view after.now) }
{}

/// An image that is saved behind a flushed output, at a checkpoint that is due, keeps the journal standing, and so does each moment of the call.
pub fn images_keep_good<D: Disk>(before: &D, after: &D)
    requires told { IsTrue (D.view before.now).tells }
    ensures moments { (s : Source) (o : Origin) (es : List run.Event) (node : ℕ) (life : LifeView) (old : JournalView) (r : Image)
        → IsSource s → IsOfSource s o
        → JournalStands s o es old (cells_now o life) (D.view before.now) → PassesWith o es node life r → (p : Pushed) → old.output ≡ flushed p
        → broken_field old.chain.current.newest r.fields ≡ None → MayAppend old r (D.view before.now) (D.view after.now)
        → LeavesOnly (D.view before.now) (D.view after.now) (Stands s) }
    ensures good { (s : Source) (o : Origin) (es : List run.Event) (node : ℕ) (life : LifeView) (old new : JournalView) (r : Image)
        → IsSource s → IsOfSource s o
        → JournalStands s o es old (cells_now o life) (D.view before.now) → PassesWith o es node life r → (p : Pushed) → old.output ≡ flushed p
        → broken_field old.chain.current.newest r.fields ≡ None → MayAppend old r (D.view before.now) (D.view after.now)
        → new.output ≡ old.output → new.chain.current.every ≡ old.chain.current.every → Appends old r (D.view before.now) new (D.view after.now)
        → JournalStands s o (es ++ run.Checkpoint node life.machine.state.ticks ∷ []) new (cells_now o life) (D.view after.now) }
{
    images_of_lives_stand();
}

// ---- where a life begins, and where it ends

/// What a life keeps that begins is good for its source, and so is each moment of the call.
pub fn begun_lives_are_good<D: Disk>(before: &D, after: &D)
    requires told { IsTrue (D.view before.now).tells }
    ensures moments { (s : Source) → LeavesOnly (D.view before.now) (D.view after.now) HasNoChain
        → LeavesOnly (D.view before.now) (D.view after.now) (Stands s) }
    ensures good { (s : Source) (c : CompiledView) (marks : Marks) (every : ℕ) (input m : List ℕ) (new : JournalView)
        → IsOfSource s (begun_at c marks every input) → new.chain.current.every ≡ every → HoldsJournal new (D.view after.now) [] []
        → LeavesOnly (D.view before.now) (D.view after.now) HasNoChain
        → JournalStands s (begun_at c marks every input) [] new m (D.view after.now) }
{}

/// So it is of a life that is resumed on a store that stands, where the output is cut behind the newest image.
pub fn resumed_lives_are_good<D: Disk>(before: &D, after: &D)
    requires told { IsTrue (D.view before.now).tells }
    ensures moments { (s : Source) (c : CompiledView) (fill : ℕ) (rs : List Image) (o : Origin) (chain : ChainView) → IsSource s
        → (resumed : IsResumedOn s c fill chain rs (D.view before.now) o)
        → MayCut chain rs resumed.at.newest.output_length (D.view before.now) (D.view after.now)
        → LeavesOnly (D.view before.now) (D.view after.now) (Stands s) }
    ensures good { (s : Source) (c : CompiledView) (fill : ℕ) (rs : List Image) (o : Origin) (chain : ChainView) (new : JournalView)
        → IsSource s → IsCompiled s c → IsOfSource s o
        → (resumed : IsResumedOn s c fill chain rs (D.view before.now) o)
        → MayCut chain rs resumed.at.newest.output_length (D.view before.now) (D.view after.now)
        → new.chain ≡ chain → new.output ≡ begun_behind resumed.at.newest.output_length
        → HoldsJournal new (D.view after.now) rs (take resumed.at.newest.output_length (D.view before.now).seen.output)
        → JournalStands s o [] new o.memory (D.view after.now) }
{
    newest_images_need_most();
    resumed_lives_hold_their_records();
}

/// A life of the source that stops at a bound stops as the source's run does; and where its output is on the disk, reads and every crash
/// have exactly the output and the images of that run.
pub fn lives_leave_what_their_source_gives<D: Disk>(disk: &D)
    requires told { IsTrue (D.view disk.now).tells }
    ensures ends { (s : Source) (o : Origin) (es : List run.Event) (until : ℕ) (ending : Ending) (life : LifeView) → IsOfSource s o → o.state.ticks ≤ until
        → StopsAt o es until ending life → EndsAsSource s o until (run_now o es ending life) }
    ensures left { (s : Source) (o : Origin) (es : List run.Event) (until : ℕ) (ending : Ending) (life : LifeView) → IsOfSource s o → o.state.ticks ≤ until
        → StopsAt o es until ending life → IsGood s o es life (D.view disk.now) → IsOnDisk (bytes_now o es) (D.view disk.now)
        → AllEnd s o.taking.every until (D.view disk.now) }
{}

// ---- no image is lost

/// Where every crash leaves image i or a later one, so it does at each moment of the calls of a journal that fits its disk.
pub fn calls_lose_no_image<D: Disk>(before: &D, after: &D)
    ensures output { (old : JournalView) → (IsTrue (D.view before.now).tells → StaysBefore old (D.view before.now) (D.view after.now))
        → KeepsImages (D.view before.now) (D.view after.now) }
    ensures joined { (old : JournalView) → FitsDisk old (D.view before.now)
        → (IsTrue (D.view before.now).tells → MayJoin old (D.view before.now) (D.view after.now))
        → KeepsImages (D.view before.now) (D.view after.now) }
    ensures saved { (old : JournalView) (r : Image) → FitsDisk old (D.view before.now) → broken_field old.chain.current.newest r.fields ≡ None
        → (IsTrue (D.view before.now).tells → MayAppend old r (D.view before.now) (D.view after.now)) → KeepsImages (D.view before.now) (D.view after.now) }
{}

/// So it does where a life is resumed behind the records of its chain; and a life begins where there is no image to lose.
pub fn beginnings_lose_no_image<D: Disk>(before: &D, after: &D)
    ensures begun { (IsTrue (D.view before.now).tells → (c : Store) → (D.view before.now).may_leave c → chain_in c ≡ Ok None)
        → KeepsImages (D.view before.now) (D.view after.now) }
    ensures resumed { (n : ℕ) (chain : ChainView) (rs : List Image) → Rests chain (D.view before.now) rs
        → (IsTrue (D.view before.now).tells → MayCut chain rs n (D.view before.now) (D.view after.now)) → KeepsImages (D.view before.now) (D.view after.now) }
{}

// ---- calls on a life, one after another

/// A call that has not begun keeps all.
pub fn first_moments_stand<D: Disk>(disk: &D)
    ensures good { (o : Origin) (es : List run.Event) (life : LifeView) → Lives o es life → GoesOn o es life (D.view disk.now) life (D.view disk.now) }
    ensures standing { (life : LifeView) → KeepsStanding life (D.view disk.now) (D.view disk.now) }
    ensures images { KeepsImages (D.view disk.now) (D.view disk.now) }
{}

/// A call and one after it are one call.
pub fn calls_stand_together<D: Disk>(first: &D, mid: &D, last: &D)
    requires tells { (D.view mid.now).tells ≡ (D.view first.now).tells }
    ensures good { (o : Origin) (es : List run.Event) (a b c : LifeView) → (x : GoesOn o es a (D.view first.now) b (D.view mid.now))
        → GoesOn o (es ++ x.more) b (D.view mid.now) c (D.view last.now) → GoesOn o es a (D.view first.now) c (D.view last.now) }
    ensures standing { (a b : LifeView) → ((o : Origin) (es : List run.Event) → Lives o es a → GoesOn o es a (D.view first.now) b (D.view mid.now))
        → KeepsStanding a (D.view first.now) (D.view mid.now) → KeepsStanding b (D.view mid.now) (D.view last.now)
        → KeepsStanding a (D.view first.now) (D.view last.now) }
    ensures images { KeepsImages (D.view first.now) (D.view mid.now) → KeepsImages (D.view mid.now) (D.view last.now)
        → KeepsImages (D.view first.now) (D.view last.now) }
{}

/// A turn of a life, a run of instructions and the serving of what its answer shows, keeps standing where the serving does.
pub fn turns_keep_standing<D: Disk>(before: &D, after: &D)
    ensures law { (old : LifeView) (t : State) (n : List ℕ) (pages : PageStates) (answer : Option Event)
        → FitsMemory old.compiled.code (cells_in old.compiled) → cells_in old.compiled ≤ length old.frames
        → RunsOver old.compiled.code old.machine.state old.frames old.pages answer t n pages
        → ServesStanding (told_by t.ticks answer) (record old { machine = record old.machine { state = t }; frames = n; pages = pages })
        (D.view before.now) (D.view after.now)
        → KeepsStanding old (D.view before.now) (D.view after.now) }
{}
